//! Normal forms.
#![tactic(auto)]

ghost use Rattle.std.specs.Prelude.{◌≡◌, ◌<◌, ◌↔◌, IfOk, Err, not, if◌then◌else◌};
ghost use Rattle.csdn_core.specs.Nodes.{nodes};
ghost use Rattle.fol_forms.specs.Forms.{And, normal_form};
ghost use Rattle.fol_forms.specs.declared.refusal.FormRefusal.TheVariants.{Large};
ghost use Rattle.fol_forms.specs.Limits.{capped, most_nodes};
ghost use Rattle.fol_forms.specs.Written.{literal as literal_of, truth_value as truth_value_of, written};

use crate::count::{and_one, sum_and_one};
use crate::refusal::{FormRefusal, MOST_NODES, or_memory};
use crate::signed::{Signed, view};
use csdn_core::syntax::Formula;
use sqlite_items::Boxed;
use std::alloc::{AllocError, Global};

/// The normal form of a formula, or with `negate` that of its negation: negations stand on atoms and equations alone, and
/// there is no `->` or `<->`. `Large` exactly where it has more than 1,048,576 nodes, which are counted before it is made.
pub fn normal(alloc: Global, formula: &Formula, negate: bool) -> Result<Formula, FormRefusal>
    ensures form { IfOk result (λ p. p ≡ written (normal_form (not negate) formula.now)) }
    ensures large { (result ≡ Err Large) ↔ (most_nodes < nodes (written (normal_form (not negate) formula.now))) }
{
    let count = count_of(formula, !negate);
    if count > MOST_NODES {
        return Err(FormRefusal::Large);
    }
    or_memory(made(alloc, formula, !negate))
}

/// How many nodes the normal form of a formula has, or for the sign `false` that of its negation. 2^64 - 1 where it has more.
/// It takes as many steps as the formula has nodes, and no memory.
pub fn count_of(formula: &Formula, sign: bool) -> u64
    ensures { result ≡ capped (nodes (written (normal_form sign formula.now))) }
{
    count(formula, sign).kept
}

// How many nodes the normal forms of a formula and of its negation have.
#[derive(Clone, Copy)]
struct Sizes {
    kept: u64,
    negated: u64,
}

// Each formula in it is looked at once, also where the normal form has it twice.
#[tactic(auto, using(csdn_core::proofs::NodeSteps::node_steps, crate::proofs::WrittenNodes::written_nodes, crate::proofs::Capped::capped_sums))]
fn count(formula: &Formula, sign: bool) -> Sizes
    ensures kept { result.kept ≡ capped (nodes (written (normal_form sign formula.now))) }
    ensures negated { result.negated ≡ capped (nodes (written (normal_form (not sign) formula.now))) }
{
    match view(formula, sign) {
        Signed::Truth(_) => Sizes {
            kept: 1,
            negated: 1,
        },
        Signed::Atom(sign, _, _) | Signed::Equal(sign, _, _) => literal_sizes(sign),
        Signed::Both(p, q) | Signed::Either(p, q) => {
            let p = count(p.formula, p.sign);
            let q = count(q.formula, q.sign);
            Sizes {
                kept: sum_and_one(p.kept, q.kept),
                negated: sum_and_one(p.negated, q.negated),
            }
        }
        Signed::Cases(p, q) => {
            let p = count(p.formula, p.sign);
            let q = count(q.formula, q.sign);
            Sizes {
                kept: sum_and_one(
                    sum_and_one(p.kept, q.kept),
                    sum_and_one(p.negated, q.negated),
                ),
                negated: sum_and_one(
                    sum_and_one(p.kept, q.negated),
                    sum_and_one(p.negated, q.kept),
                ),
            }
        }
        Signed::Forall(_, _, p) | Signed::Exists(_, _, p) => {
            let p = count(p.formula, p.sign);
            Sizes {
                kept: and_one(p.kept),
                negated: and_one(p.negated),
            }
        }
    }
}

fn literal_sizes(sign: bool) -> Sizes
    ensures kept { result.kept ≡ if sign then 1 else 2 }
    ensures negated { result.negated ≡ if not sign then 1 else 2 }
{
    if sign {
        Sizes {
            kept: 1,
            negated: 2,
        }
    } else {
        Sizes {
            kept: 2,
            negated: 1,
        }
    }
}

fn truth_value(value: bool) -> Formula
    ensures { result ≡ truth_value_of value }
{
    if value { Formula::True } else { Formula::False }
}

// The formula or its negation.
#[tactic(auto, using(csdn_core::proofs::Shapes::shapes))]
fn literal(alloc: Global, sign: bool, formula: Formula) -> Result<Formula, AllocError>
    ensures { IfOk result (λ p. p ≡ literal_of sign formula) }
{
    if sign {
        Ok(formula)
    } else {
        Ok(Formula::Not(Boxed::new(alloc, formula)?))
    }
}

// The normal form of the formula, or for the sign `false` of its negation.
#[cycle(made)]
#[tactic(auto, using(csdn_core::proofs::Shapes::shapes))]
fn made(alloc: Global, formula: &Formula, sign: bool) -> Result<Formula, AllocError>
    ensures { IfOk result (λ p. p ≡ written (normal_form sign formula.now)) }
{
    match view(formula, sign) {
        Signed::Truth(value) => Ok(truth_value(value)),
        Signed::Atom(sign, pred, terms) => {
            literal(alloc, sign, Formula::Atom(pred, terms.copy()))
        }
        Signed::Equal(sign, t, u) => literal(alloc, sign, Formula::Same(t, u)),
        Signed::Both(p, q) => {
            let p = boxed(alloc, p.formula, p.sign)?;
            let q = boxed(alloc, q.formula, q.sign)?;
            Ok(Formula::And(p, q))
        }
        Signed::Either(p, q) => {
            let p = boxed(alloc, p.formula, p.sign)?;
            let q = boxed(alloc, q.formula, q.sign)?;
            Ok(Formula::Or(p, q))
        }
        Signed::Cases(p, q) => {
            let kept = both(alloc, p.formula, p.sign, q.formula, q.sign)?;
            let negated = both(alloc, p.formula, !p.sign, q.formula, !q.sign)?;
            Ok(Formula::Or(kept, negated))
        }
        Signed::Forall(var, sort, p) => {
            let p = boxed(alloc, p.formula, p.sign)?;
            Ok(Formula::Forall(var, sort, p))
        }
        Signed::Exists(var, sort, p) => {
            let p = boxed(alloc, p.formula, p.sign)?;
            Ok(Formula::Exists(var, sort, p))
        }
    }
}

#[cycle(made)]
fn boxed(alloc: Global, formula: &Formula, sign: bool) -> Result<Boxed<Formula>, AllocError>
    ensures { IfOk result (λ p. p ≡ written (normal_form sign formula.now)) }
{
    Boxed::new(alloc, made(alloc, formula, sign)?)
}

// The conjunction of two normal forms.
#[cycle(made)]
#[tactic(auto, using(csdn_core::proofs::Shapes::shapes))]
fn both(
    alloc: Global,
    p: &Formula,
    p_sign: bool,
    q: &Formula,
    q_sign: bool,
) -> Result<Boxed<Formula>, AllocError>
    ensures { IfOk result (λ f. f ≡ written (And (normal_form p_sign p.now) (normal_form q_sign q.now))) }
{
    let first = boxed(alloc, p, p_sign)?;
    let second = boxed(alloc, q, q_sign)?;
    Boxed::new(alloc, Formula::And(first, second))
}
