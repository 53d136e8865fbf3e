//! The constants that terms stand for, and the literals of atoms and equations over them.
#![tactic(auto)]

ghost use Rattle.std.specs.Prelude.{◌≡◌, ◌++◌, [], ◌∷◌, map, IfOk, OnOk};
ghost use Rattle.decision_laws.specs.Copies.{nothing, place, place_sort};
ghost use Rattle.decision_laws.specs.Vocabulary.{find_or};
ghost use Rattle.ground_inst.specs.Walk.{equation_fact, literal_of, scope, tuple_fact, ways_of};

use crate::facts::{Facts, equation_atom, tuple_atom};
use crate::name_places::{constant_place, constant_sort, numeral_place};
use arrayvec::ArrayVec;
use clause_log::Lit;
use csdn_core::program::Parts;
use csdn_core::terms::{Pred, Sort, Term, Terms, VarId};
use std::alloc::AllocError;

/// The constant that a variable stands for.
#[derive(Clone, Copy)]
pub struct Binding {
    pub var: VarId,
    pub sort: Sort,
    pub place: u64,
}

/// The program's names, and the facts and their numbers.
#[derive(Clone, Copy)]
pub struct Names<'a> {
    pub parts: &'a Parts,
    pub facts: &'a Facts,
}

// The innermost binding of a variable; the first switch where there is none.
fn binding_of(env: &[Binding], var: VarId) -> Binding
    ensures { (result.sort, result.place) ≡ find_or nothing (scope env.now) var.0 }
{
    let mut rest = env;
    'bindings: while let Some((binding, outer)) = rest.split_last() {
        if var.0 == binding.var.0 {
            return *binding;
        }
        rest = outer;
    }
    Binding {
        var,
        sort: Sort::Sw,
        place: 0,
    }
}

/// The place of the constant that a term stands for. It takes as many steps as variables are bound, or as the program has
/// constants and numerals.
pub fn place_of(names: &Names, env: &[Binding], term: Term) -> u64
    ensures { result ≡ place (ways_of names.now).voc (scope env.now) term }
{
    match term {
        Term::Var(var) => binding_of(env, var).place,
        Term::Const(id) => constant_place(names.parts, id) as u64,
        Term::Port(numeral) => numeral_place(names.parts, numeral) as u64,
    }
}

/// The sort of the constant that a term stands for.
pub fn sort_of(names: &Names, env: &[Binding], term: Term) -> Sort
    ensures { result ≡ place_sort (ways_of names.now).voc (scope env.now) term }
{
    match term {
        Term::Var(var) => binding_of(env, var).sort,
        Term::Const(id) => constant_sort(names.parts, id),
        Term::Port(_) => Sort::Pr,
    }
}

fn push_place(places: &mut ArrayVec<u64, 5>, place: u64) -> Result<(), AllocError>
    ensures { OnOk result (places.new.items ≡ places.old.items ++ place ∷ []) }
{
    if places.try_push(place).is_err() {
        return Err(AllocError);
    }
    Ok(())
}

// The places of the constants that terms stand for.
fn places_of(names: &Names, env: &[Binding], terms: &[Term]) -> Result<ArrayVec<u64, 5>, AllocError>
    ensures { IfOk result (λ places. places.items ≡ map (place (ways_of names.now).voc (scope env.now)) terms.now) }
{
    let mut places = ArrayVec::new();
    for term in terms {
        let place = place_of(names, env, *term);
        push_place(&mut places, place)?;
    }
    Ok(places)
}

/// The literal of an atom with a sign. `AllocError` where a literal can't have it.
pub fn literal(sign: bool, atom: u64) -> Result<Lit, AllocError>
    ensures { IfOk result (λ l. l ≡ record { positive = sign; atom = atom }) }
{
    if atom == 0 || atom >= 1 << 63 {
        return Err(AllocError);
    }
    if sign {
        Ok(Lit::positive(atom))
    } else {
        Ok(Lit::negative(atom))
    }
}

/// The literal of an atom over the constants that its terms stand for.
pub fn tuple_literal(
    names: &Names,
    env: &[Binding],
    sign: bool,
    relation: Pred,
    terms: &Terms,
) -> Result<Lit, AllocError>
    ensures { IfOk result (λ l. l ≡ literal_of (ways_of names.now) sign (tuple_fact (ways_of names.now) (scope env.now) relation terms.now)) }
{
    let places = places_of(names, env, terms.as_slice())?;
    let atom = tuple_atom(names.facts, relation, places.as_slice())?;
    literal(sign, atom)
}

/// The literal of an equation of the constants that two terms stand for.
pub fn equation_literal(
    names: &Names,
    env: &[Binding],
    sign: bool,
    t: Term,
    u: Term,
) -> Result<Lit, AllocError>
    ensures { IfOk result (λ l. l ≡ literal_of (ways_of names.now) sign (equation_fact (ways_of names.now) (scope env.now) t u)) }
{
    let sort = sort_of(names, env, t);
    let a = place_of(names, env, t);
    let b = place_of(names, env, u);
    let atom = equation_atom(names.facts, sort, a, b)?;
    literal(sign, atom)
}
