//! What a fact with a sign is, where the facts are what is said of them.
#![tactic(auto)]

ghost use Rattle.std.specs.Prelude.{◌≡◌, ◌∷◌, IfOk, OnOk};
ghost use Rattle.decision_laws.specs.Copies.{place, place_sort};
ghost use Rattle.ground_inst.specs.Walk.{entry, equation_fact, scope, tuple_fact, ways_of};
ghost use Rattle.copy_truth.specs.Early.{at_constant, is_known_leaf as is_known_there, leaf_form};
ghost use Rattle.copy_truth.specs.Judged.{said_signed};
ghost use Rattle.copy_truth.specs.Matrix.{matrix};

use crate::opened::{Variable, are_known, is_known, is_this};
use crate::reading::{Reading, is_true};
use csdn_core::terms::{Pred, Sort, Term, Terms};
use ground_inst::facts::equation_atom;
use ground_inst::places::{
    Binding, Names, equation_literal, literal, place_of, sort_of, tuple_literal,
};
use ground_inst::walk::bind;
use std::alloc::AllocError;

/// An atom, or an equation of two terms.
#[derive(Clone, Copy)]
pub enum Leaf<'a> {
    Tuple(Pred, &'a Terms),
    Equation(Term, Term),
}

/// Whether the atom over the constants that its terms stand for is true, or for the sign `false` its negation.
pub fn judge_tuple(
    r: &Reading,
    sign: bool,
    relation: Pred,
    terms: &Terms,
    env: &[Binding],
) -> Result<bool, AllocError>
    ensures { IfOk result (λ b. b ≡ said_signed r.now sign (tuple_fact (ways_of r.now.names) (scope env.now) relation terms.now)) }
{
    let l = tuple_literal(&r.names, env, sign, relation, terms)?;
    Ok(is_true(r.trues, l))
}

/// Whether the equation of the constants that two terms stand for is true, or for the sign `false` its negation.
pub fn judge_equation(
    r: &Reading,
    sign: bool,
    t: Term,
    u: Term,
    env: &[Binding],
) -> Result<bool, AllocError>
    ensures { IfOk result (λ b. b ≡ said_signed r.now sign (equation_fact (ways_of r.now.names) (scope env.now) t u)) }
{
    let l = equation_literal(&r.names, env, sign, t, u)?;
    Ok(is_true(r.trues, l))
}

/// Whether each term of a leaf stands for a constant, and is no open variable.
pub fn is_known_leaf(names: &Names, env: &[Binding], leaf: &Leaf) -> bool
    ensures { result ≡ is_known_there (ways_of names.now).voc (scope env.now) leaf.now }
{
    match leaf {
        Leaf::Tuple(_, terms) => are_known(names, env, terms.as_slice()),
        Leaf::Equation(t, u) => is_known(names, env, *t) && is_known(names, env, *u),
    }
}

/// Whether a leaf is true, or for the sign `false` its negation.
pub fn judge_leaf(r: &Reading, sign: bool, leaf: &Leaf, env: &[Binding]) -> Result<bool, AllocError>
    ensures { IfOk result (λ b. b ≡ matrix r.now (leaf_form sign leaf.now) (scope env.now)) }
{
    match leaf {
        Leaf::Tuple(relation, terms) => judge_tuple(r, sign, *relation, terms, env),
        Leaf::Equation(t, u) => judge_equation(r, sign, *t, *u, env),
    }
}

/// The same, a variable standing for this constant.
pub fn judge_leaf_at(
    r: &Reading,
    sign: bool,
    leaf: &Leaf,
    binding: Binding,
    env: &mut Vec<Binding>,
) -> Result<bool, AllocError>
    ensures value { IfOk result (λ b. b ≡ matrix r.now (leaf_form sign leaf.now) (entry binding ∷ scope env.old.items)) }
    ensures env { OnOk result (env.new.items ≡ env.old.items) }
{
    match leaf {
        Leaf::Tuple(relation, terms) => judge_tuple_at(r, sign, *relation, terms, binding, env),
        Leaf::Equation(t, u) => judge_equation_at(r, sign, *t, *u, binding, env),
    }
}

fn judge_tuple_at(
    r: &Reading,
    sign: bool,
    relation: Pred,
    terms: &Terms,
    binding: Binding,
    env: &mut Vec<Binding>,
) -> Result<bool, AllocError>
    ensures value { IfOk result (λ b. b ≡ said_signed r.now sign (tuple_fact (ways_of r.now.names) (entry binding ∷ scope env.old.items) relation terms.now)) }
    ensures env { OnOk result (env.new.items ≡ env.old.items) }
{
    bind(env, binding)?;
    let value = judge_tuple(r, sign, relation, terms, env)?;
    env.pop();
    Ok(value)
}

// Its place and sort are all that is wanted of each term, so that nothing is bound.
fn judge_equation_at(
    r: &Reading,
    sign: bool,
    t: Term,
    u: Term,
    binding: Binding,
    env: &[Binding],
) -> Result<bool, AllocError>
    ensures { IfOk result (λ b. b ≡ said_signed r.now sign (equation_fact (ways_of r.now.names) (entry binding ∷ scope env.now) t u)) }
{
    let sort = sort_at(&r.names, env, binding, t);
    let a = place_at(&r.names, env, binding, t);
    let b = place_at(&r.names, env, binding, u);
    let l = literal(sign, equation_atom(r.names.facts, sort, a, b)?)?;
    Ok(is_true(r.trues, l))
}

// The place of what a term stands for, a variable standing for this constant.
fn place_at(names: &Names, env: &[Binding], binding: Binding, term: Term) -> u64
    ensures { result ≡ place (ways_of names.now).voc (entry binding ∷ scope env.now) term }
{
    if is_this(binding.var, term) {
        return binding.place;
    }
    place_of(names, env, term)
}

// Its sort.
fn sort_at(names: &Names, env: &[Binding], binding: Binding, term: Term) -> Sort
    ensures { result ≡ place_sort (ways_of names.now).voc (entry binding ∷ scope env.now) term }
{
    if is_this(binding.var, term) {
        return binding.sort;
    }
    sort_of(names, env, term)
}

/// Whether each term of a leaf would stand for a constant, if this variable stood for the first one.
pub fn is_known_leaf_at(
    names: &Names,
    leaf: &Leaf,
    x: Variable,
    env: &mut Vec<Binding>,
) -> Result<bool, AllocError>
    ensures value { IfOk result (λ b. b ≡ is_known_there (ways_of names.now).voc (at_constant x 0 (scope env.old.items)) leaf.now) }
    ensures env { OnOk result (env.new.items ≡ env.old.items) }
{
    bind(env, x.at(0))?;
    let known = is_known_leaf(names, env, leaf);
    env.pop();
    Ok(known)
}
