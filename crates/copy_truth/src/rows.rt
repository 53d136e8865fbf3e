//! The true tuples that may be one of an atom with open variables.
#![tactic(auto)]

ghost use Rattle.std.specs.Prelude.{◌≡◌, ◌+◌, ◌-◌, ◌<◌, ℕ, true, false, IfOk};
ghost use Rattle.std.specs.List.Sorted.{IsNonDecreasing};
ghost use Rattle.csdn_core.specs.Members.{IsIn};
ghost use Rattle.decision_laws.specs.Numbers.{tuple_count as count_of_tuples};
ghost use Rattle.ground_inst.specs.Walk.{scope, ways_of};
ghost use Rattle.copy_truth.specs.Candidates.{has_place};
ghost use Rattle.copy_truth.specs.Early.{AreNoneElsewhere, at_constant, fits_at, is_known as is_known_there, may_be_atom as may_be_atom_there};
ghost use Rattle.csdn_core.specs.declared.terms.Term.TheVariants.{Var};
ghost use Rattle.copy_truth.specs.declared.rows.Fit.TheVariants.{Anywhere};

use crate::candidates::Candidates;
use crate::opened::Variable;
use crate::reading::Reading;
use crate::tuples::{is_behind, may_be_atom, place_of_variable};
use csdn_core::terms::Term;
use ground_inst::facts::{UsedRelation, tuple_count};
use ground_inst::places::{Binding, Names};
use std::alloc::AllocError;

/// Where a variable may stand for a constant with which an atom is this row.
#[derive(Clone, Copy)]
pub enum Fit {
    Nowhere,
    At(u64),
    Anywhere,
}

impl Fit {
    fn is_anywhere(self) -> bool
        ensures { result ≡ true → self ≡ Anywhere }
    {
        match self {
            Fit::Nowhere => false,
            Fit::At(_) => false,
            Fit::Anywhere => true,
        }
    }

    // These constants and that at which a row fits, where it is one within.
    fn add_to(self, found: Candidates, within: Candidates) -> Candidates
        ensures kept { (k : ℕ) → has_place result k ≡ false → has_place within k ≡ true → has_place found k ≡ false }
        ensures fit { (k : ℕ) → has_place result k ≡ false → has_place within k ≡ true → fits_at self k ≡ false }
    {
        match self {
            Fit::Nowhere => found,
            Fit::At(place) => found.with_one_within(place, within),
            Fit::Anywhere => within,
        }
    }
}

// The number of an atom among the tuples of a relation.
fn row_number(used: &UsedRelation, atom: u64) -> Result<u64, AllocError>
    ensures { IfOk result (λ n. n ≡ atom - used.now.before - 1) }
{
    if atom <= used.before {
        return Err(AllocError);
    }
    Ok(atom - used.before - 1)
}

// Where a variable, which is open, may stand for a constant with which an atom of a relation over terms is this one.
fn fit_of(
    names: &Names,
    env: &[Binding],
    x: Variable,
    used: &UsedRelation,
    terms: &[Term],
    count: u64,
    atom: u64,
) -> Result<Fit, AllocError>
    requires count { count ≡ count_of_tuples (ways_of names.now).count used.now.sorts }
    requires open { is_known_there (ways_of names.now).voc (scope env.now) (Var x.var) ≡ false }
    ensures { IfOk result (λ fit. (k : ℕ) → k < 128 → fits_at fit k ≡ false → may_be_atom_there (ways_of names.now) (at_constant x k (scope env.now)) used.now terms.now atom ≡ false) }
{
    if !may_be_atom(names, env, used, terms, count, atom)? {
        return Ok(Fit::Nowhere);
    }
    let number = row_number(used, atom)?;
    let sorts = used.sorts.as_slice();
    match place_of_variable(&names.facts.counts, x.var, terms, sorts, number)? {
        None => Ok(Fit::Anywhere),
        Some(place) => Ok(Fit::At(place)),
    }
}

// The part of atoms that rise, from the first that stands behind this one.
fn atoms_from<'a>(atoms: &'a [u64], before: u64) -> &'a [u64]
    requires { IsNonDecreasing atoms.now }
    ensures behind { (t : ℕ) → IsIn t atoms.now → before < t → IsIn t result.now }
    ensures rising { IsNonDecreasing result.now }
{
    match atoms.binary_search(&before) {
        Ok(place) => &atoms[place..],
        Err(place) => &atoms[place..],
    }
}

/// Those of some constants with which an atom of a relation over terms may be a true one, where a variable, which is open, stands
/// for them. It looks at the relation's true atoms.
pub fn row_candidates(
    r: &Reading,
    x: Variable,
    within: Candidates,
    env: &[Binding],
    used: &UsedRelation,
    terms: &[Term],
) -> Result<Candidates, AllocError>
    requires { is_known_there (ways_of r.now.names).voc (scope env.now) (Var x.var) ≡ false }
    ensures { IfOk result (λ missed. AreNoneElsewhere (ways_of r.now.names) (scope env.now) x within missed used.now terms.now r.now.trues.now) }
{
    let count = tuple_count(&r.names.facts.counts, used.sorts.as_slice())?;
    let mut found = Candidates::fewest();
    let mut rest = atoms_from(r.trues.true_atoms(), used.before);
    'atoms: while let [atom, more @ ..] = rest {
        if is_behind(used, count, *atom) {
            return Ok(found);
        }
        let fit = fit_of(&r.names, env, x, used, terms, count, *atom)?;
        if fit.is_anywhere() {
            return Ok(within);
        }
        found = fit.add_to(found, within);
        rest = more;
    }
    Ok(found)
}
