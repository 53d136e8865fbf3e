//! Tuples, and atoms with open variables.
#![tactic(auto)]

ghost use Rattle.std.specs.Prelude.{◌≡◌, ◌+◌, ◌<◌, ◌==◌, ◌||◌, ◌∷◌, true, IfOk, option_copied};
ghost use Rattle.fol_forms.specs.Counts.{count_of};
ghost use Rattle.decision_laws.specs.Copies.{place};
ghost use Rattle.decision_laws.specs.Numbers.{tuple_count as count_of_tuples, tuple_of};
ghost use Rattle.ground_inst.specs.Walk.{scope, ways_of};
ghost use Rattle.copy_truth.specs.Early.{may_be as may_be_there, may_be_atom as may_be_atom_there, place_of_variable as place_of_variable_there, used_in};

use crate::opened::{OPEN, is_this};
use csdn_core::terms::{Pred, Sort, Term, VarId};
use fol_forms::instances::Counts;
use ground_inst::facts::{Facts, UsedRelation, tuple_count};
use ground_inst::places::{Binding, Names, place_of};
use std::alloc::AllocError;

/// The first of the kept relations that is this one.
pub fn used_of<'a>(facts: &'a Facts, relation: Pred) -> Option<&'a UsedRelation>
    ensures { option_copied result ≡ used_in facts.now.relations relation }
{
    let mut rest = facts.relations.as_slice();
    'relations: while let [used, more @ ..] = rest {
        if used.relation.is_same(relation) {
            return Some(used);
        }
        rest = more;
    }
    None
}

// Whether a term may stand for the constant at a place.
fn may_stand(names: &Names, env: &[Binding], term: Term, wanted: u64) -> bool
    ensures { result ≡ (place (ways_of names.now).voc (scope env.now) term == OPEN || place (ways_of names.now).voc (scope env.now) term == wanted) }
{
    let place = place_of(names, env, term);
    place == OPEN || place == wanted
}

#[cycle(may_be)]
// Whether terms may stand for the constants of the tuple of a number.
fn may_be(
    names: &Names,
    env: &[Binding],
    terms: &[Term],
    sorts: &[Sort],
    number: u64,
) -> Result<bool, AllocError>
    ensures { IfOk result (λ b. b ≡ may_be_there (ways_of names.now).voc (scope env.now) terms.now (tuple_of (ways_of names.now).count sorts.now number)) }
{
    match terms {
        [] => match sorts {
            [] => Ok(true),
            [_, ..] => Ok(false),
        },
        [term, others @ ..] => match sorts {
            [] => Ok(false),
            [sort, rest @ ..] => may_go_on(names, env, *term, others, *sort, rest, number),
        },
    }
}

#[cycle(may_be)]
// The same of a first term and others.
fn may_go_on(
    names: &Names,
    env: &[Binding],
    term: Term,
    others: &[Term],
    sort: Sort,
    rest: &[Sort],
    number: u64,
) -> Result<bool, AllocError>
    ensures { IfOk result (λ b. b ≡ may_be_there (ways_of names.now).voc (scope env.now) (term ∷ others.now) (tuple_of (ways_of names.now).count (sort ∷ rest.now) number)) }
{
    let count = names.facts.counts.of(sort);
    if count == 0 {
        return Err(AllocError);
    }
    if !may_stand(names, env, term, number % count) {
        return Ok(false);
    }
    may_be(names, env, others, rest, number / count)
}

#[cycle(place_of)]
/// The place of the constant that a tuple of a number has where the terms first have a variable.
pub fn place_of_variable(
    counts: &Counts,
    var: VarId,
    terms: &[Term],
    sorts: &[Sort],
    number: u64,
) -> Result<Option<u64>, AllocError>
    ensures { IfOk result (λ p. p ≡ place_of_variable_there var terms.now (tuple_of (count_of counts.now) sorts.now number)) }
{
    match terms {
        [] => Ok(None),
        [term, others @ ..] => match sorts {
            [] => Ok(None),
            [sort, rest @ ..] => place_behind(counts, var, *term, others, *sort, rest, number),
        },
    }
}

#[cycle(place_of)]
// The same of a first term and others.
fn place_behind(
    counts: &Counts,
    var: VarId,
    term: Term,
    others: &[Term],
    sort: Sort,
    rest: &[Sort],
    number: u64,
) -> Result<Option<u64>, AllocError>
    ensures { IfOk result (λ p. p ≡ place_of_variable_there var (term ∷ others.now) (tuple_of (count_of counts.now) (sort ∷ rest.now) number)) }
{
    let count = counts.of(sort);
    if count == 0 {
        return Err(AllocError);
    }
    if is_this(var, term) {
        return Ok(Some(number % count));
    }
    place_of_variable(counts, var, others, rest, number / count)
}

/// Whether an atom of a relation, of so many tuples, over terms may be this one.
pub fn may_be_atom(
    names: &Names,
    env: &[Binding],
    used: &UsedRelation,
    terms: &[Term],
    count: u64,
    atom: u64,
) -> Result<bool, AllocError>
    requires { count ≡ count_of_tuples (ways_of names.now).count used.now.sorts }
    ensures { IfOk result (λ b. b ≡ may_be_atom_there (ways_of names.now) (scope env.now) used.now terms.now atom) }
{
    if atom <= used.before {
        return Ok(false);
    }
    let number = atom - used.before - 1;
    if number >= count {
        return Ok(false);
    }
    may_be(names, env, terms, used.sorts.as_slice(), number)
}

/// Whether an atom stands behind those of a relation of so many tuples.
pub fn is_behind(used: &UsedRelation, count: u64, atom: u64) -> bool
    ensures { result ≡ true → used.now.before + count < atom }
{
    atom > used.before && atom - used.before > count
}
