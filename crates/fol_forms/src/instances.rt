//! How often atoms and equations are copied.
#![tactic(auto)]

ghost use Rattle.std.specs.Prelude.{◌≡◌, ◌+◌, ◌*◌, max, true};
ghost use Rattle.csdn_core.specs.declared.terms.Sort.{Sort as AnySort};
ghost use Rattle.fol_forms.specs.Constants.{counts as counts_of, instances as instances_of, need as need_of};
ghost use Rattle.fol_forms.specs.Counts.{count_of};
ghost use Rattle.fol_forms.specs.Forms.{form_of, normal_form};
ghost use Rattle.fol_forms.specs.Limits.{capped};

use crate::constants::{known, one_if};
use crate::count::sum;
use crate::signed::{Signed, view};
use csdn_core::program::{Parts, Program};
use csdn_core::syntax::Formula;
use csdn_core::terms::Sort;

/// How many atoms and equations the normal form of a formula has when each `forall` is replaced by one copy per constant of
/// its sort: those that the program names, and those that the normal form needs; at least one. 2^64 - 1 where there are more.
/// Of a formula that is in normal form it takes as many steps as that has nodes, for each sort; it takes no memory.
pub fn instance_count(program: &Program, formula: &Formula) -> u64
    ensures { result ≡ capped (instances_of (counts_of program.now formula.now) (form_of formula.now)) }
{
    let counts = constants_of(program.parts(), formula);
    instances(formula, true, &counts)
}

/// How many constants each sort has for a formula: those that the program names, and those that its normal form needs; at least
/// one. 2^64 - 1 where there are more. It takes no memory.
pub fn constants_of(parts: &Parts, formula: &Formula) -> Counts
    ensures { (s : AnySort) → count_of result s ≡ capped (counts_of parts.now formula.now s) }
{
    Counts {
        sw: constants(parts, formula, Sort::Sw),
        ho: constants(parts, formula, Sort::Ho),
        pr: constants(parts, formula, Sort::Pr),
    }
}

/// A number for each sort.
#[derive(Clone, Copy)]
pub struct Counts {
    pub sw: u64,
    pub ho: u64,
    pub pr: u64,
}

impl Counts {
    #[tactic(auto, unfolding(crate::specs::Counts::count_of))]
    /// The number of a sort.
    pub fn of(&self, sort: Sort) -> u64
        ensures { result ≡ count_of self.now sort }
    {
        match sort {
            Sort::Sw => self.sw,
            Sort::Ho => self.ho,
            Sort::Pr => self.pr,
        }
    }
}

// How many constants a sort has.
fn constants(parts: &Parts, formula: &Formula, sort: Sort) -> u64
    ensures { result ≡ capped (counts_of parts.now formula.now sort) }
{
    let known = known(parts, sort) as u64;
    let need = need(formula, true, sort);
    sum(known, need).max(1)
}

#[tactic(auto, unfolding(crate::specs::Limits::capped))]
fn greater(a: u64, b: u64) -> u64
    ensures { result ≡ max a b }
{
    a.max(b)
}

#[tactic(auto, unfolding(crate::specs::Limits::capped))]
fn product(a: u64, b: u64) -> u64
    ensures { result ≡ capped (a * b) }
{
    a.saturating_mul(b)
}

// How many constants of a sort the `exists` of the normal form need; for the sign `false` of that of the negation.
#[tactic(auto, using(crate::proofs::Capped::capped_counts))]
fn need(formula: &Formula, sign: bool, sort: Sort) -> u64
    ensures { result ≡ capped (need_of (normal_form sign formula.now) sort) }
{
    match view(formula, sign) {
        Signed::Truth(_) | Signed::Atom(_, _, _) | Signed::Equal(_, _, _) => 0,
        Signed::Both(p, q) => { sum(need(p.formula, p.sign, sort), need(q.formula, q.sign, sort)) }
        Signed::Either(p, q) => {
            greater(need(p.formula, p.sign, sort), need(q.formula, q.sign, sort))
        }
        Signed::Cases(p, q) => greater(
            sum(need(p.formula, p.sign, sort), need(q.formula, q.sign, sort)),
            sum(
                need(p.formula, !p.sign, sort),
                need(q.formula, !q.sign, sort),
            ),
        ),
        Signed::Forall(_, _, _) => 0,
        Signed::Exists(_, own, p) => {
            sum(need(p.formula, p.sign, sort), one_if(own, sort) as u64)
        }
    }
}

// The instances of the normal form, where the sorts have so many constants; for the sign `false` of that of the negation.
#[tactic(auto, using(crate::proofs::Capped::capped_instances))]
fn instances(formula: &Formula, sign: bool, counts: &Counts) -> u64
    ensures { result ≡ capped (instances_of (count_of counts.now) (normal_form sign formula.now)) }
{
    match view(formula, sign) {
        Signed::Truth(_) => 0,
        Signed::Atom(_, _, _) | Signed::Equal(_, _, _) => 1,
        Signed::Both(p, q) | Signed::Either(p, q) => sum(
            instances(p.formula, p.sign, counts),
            instances(q.formula, q.sign, counts),
        ),
        Signed::Cases(p, q) => sum(
            sum(
                instances(p.formula, p.sign, counts),
                instances(q.formula, q.sign, counts),
            ),
            sum(
                instances(p.formula, !p.sign, counts),
                instances(q.formula, !q.sign, counts),
            ),
        ),
        Signed::Forall(_, sort, p) => {
            product(counts.of(sort), instances(p.formula, p.sign, counts))
        }
        Signed::Exists(_, _, p) => instances(p.formula, p.sign, counts),
    }
}
