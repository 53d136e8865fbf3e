//! How many conjunctions and disjunctions copies have.
#![tactic(auto)]

ghost use Rattle.std.specs.Prelude.{◌≡◌, suc, ◌+◌, IfOk};
ghost use Rattle.fol_forms.specs.Counts.{count_of};
ghost use Rattle.fol_forms.specs.Forms.{normal_form};
ghost use Rattle.decision_laws.specs.Weights.{each_weight, weight as weight_of};

use csdn_core::syntax::Formula;
use fol_forms::instances::Counts;
use fol_forms::signed::{Signed, view};
use std::alloc::AllocError;

/// How many conjunctions and disjunctions the copies of a formula have, or for the sign `false` those of its negation.
/// `AllocError` where they are 2^64 or more. It takes no memory.
pub fn weight(counts: &Counts, formula: &Formula, sign: bool) -> Result<u64, AllocError>
    ensures { IfOk result (λ nodes. nodes ≡ weight_of (count_of counts.now) (normal_form sign formula.now)) }
{
    match view(formula, sign) {
        Signed::Truth(_) | Signed::Atom(_, _, _) | Signed::Equal(_, _, _) => Ok(0),
        Signed::Both(p, q) | Signed::Either(p, q) => node(
            weight(counts, p.formula, p.sign)?,
            weight(counts, q.formula, q.sign)?,
        ),
        Signed::Cases(p, q) => node(
            node(
                weight(counts, p.formula, p.sign)?,
                weight(counts, q.formula, q.sign)?,
            )?,
            node(
                weight(counts, p.formula, !p.sign)?,
                weight(counts, q.formula, !q.sign)?,
            )?,
        ),
        Signed::Forall(_, sort, p) => { each(counts.of(sort), weight(counts, p.formula, p.sign)?) }
        Signed::Exists(_, _, p) => weight(counts, p.formula, p.sign),
    }
}

/// The nodes of two parts, and one above them. `AllocError` where there are 2^64 or more.
pub fn node(p: u64, q: u64) -> Result<u64, AllocError>
    ensures { IfOk result (λ nodes. nodes ≡ suc (p + q)) }
{
    let parts = p.checked_add(q).ok_or(AllocError)?;
    parts.checked_add(1).ok_or(AllocError)
}

/// The nodes of so many copies in one conjunction. `AllocError` where there are 2^64 or more.
pub fn each(count: u64, nodes: u64) -> Result<u64, AllocError>
    ensures { IfOk result (λ all. all ≡ each_weight count nodes) }
{
    if count == 0 {
        return Ok(0);
    }
    if count == 1 {
        return Ok(nodes);
    }
    let parts = count.checked_mul(nodes).ok_or(AllocError)?;
    parts.checked_add(1).ok_or(AllocError)
}
