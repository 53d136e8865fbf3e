//! Where a matrix with open variables may be false.
//!
//! It is read once. Often the literals that don't name the variable say enough, or the true tuples of a negated atom name the few
//! constants at which it is false.
#![tactic(auto)]

ghost use Rattle.std.specs.Prelude.{◌≡◌, ◌∷◌, Some, true, false, IfOk, OnOk};
ghost use Rattle.fol_forms.specs.Forms.{And, Atom, Or};
ghost use Rattle.form_trees.specs.Trees.{tree_form};
ghost use Rattle.ground_inst.specs.Walk.{entry, scope};
ghost use Rattle.copy_truth.specs.Candidates.{has_place};
ghost use Rattle.copy_truth.specs.Early.{HoldsElsewhere, leaf_form, used_in};
ghost use Rattle.copy_truth.specs.Matrix.{matrix};

use crate::candidates::Candidates;
use crate::facts::{Leaf, is_known_leaf, is_known_leaf_at, judge_leaf, judge_leaf_at};
use crate::opened::{Variable, are_columns, are_known, is_known};
use crate::reading::Reading;
use crate::rows::row_candidates;
use crate::tuples::used_of;
use csdn_core::terms::{Pred, Term, Terms};
use form_trees::trees::{FormTree, Part, part_of};
use ground_inst::facts::UsedRelation;
use ground_inst::places::Binding;
use std::alloc::AllocError;

/// Those of some constants at which a negated atom with open variables may be false. It looks at its relation's true atoms.
pub fn negated_misses(
    r: &Reading,
    x: Variable,
    within: Candidates,
    relation: Pred,
    terms: &[Term],
    env: &[Binding],
) -> Result<Candidates, AllocError>
    ensures { IfOk result (λ missed. HoldsElsewhere r.now (Atom false relation terms.now) (scope env.now) x within missed) }
{
    match used_of(r.names.facts, relation) {
        None => Ok(within),
        Some(used) => used_misses(r, x, within, relation, used, terms, env),
    }
}

// The same, given how the relation is used.
fn used_misses(
    r: &Reading,
    x: Variable,
    within: Candidates,
    relation: Pred,
    used: &UsedRelation,
    terms: &[Term],
    env: &[Binding],
) -> Result<Candidates, AllocError>
    requires { used_in r.now.names.facts.now.relations relation ≡ Some used.now }
    ensures { IfOk result (λ missed. HoldsElsewhere r.now (Atom false relation terms.now) (scope env.now) x within missed) }
{
    if is_known(&r.names, env, Term::Var(x.var)) {
        return Ok(within);
    }
    if !are_columns(&r.names, env, terms, used.sorts.as_slice()) {
        return Ok(within);
    }
    row_candidates(r, x, within, env, used, terms)
}

// Whether a leaf is true, a variable standing for this constant; also where it is none of some.
fn holds_at(
    r: &Reading,
    within: Candidates,
    sign: bool,
    leaf: &Leaf,
    binding: Binding,
    env: &mut Vec<Binding>,
) -> Result<bool, AllocError>
    ensures value { IfOk result (λ b. b ≡ true → has_place within binding.place ≡ true → matrix r.now (leaf_form sign leaf.now) (entry binding ∷ scope env.old.items) ≡ true) }
    ensures env { OnOk result (env.new.items ≡ env.old.items) }
{
    if !within.has(binding.place) {
        return Ok(true);
    }
    judge_leaf_at(r, sign, leaf, binding, env)
}

/// Those of some constants at which an atom or an equation with open variables is false, each of them tried, if no other variable is
/// open; else all.
pub fn tried_misses(
    r: &Reading,
    x: Variable,
    within: Candidates,
    sign: bool,
    leaf: &Leaf,
    env: &mut Vec<Binding>,
) -> Result<Candidates, AllocError>
    ensures value { IfOk result (λ missed. HoldsElsewhere r.now (leaf_form sign leaf.now) (scope env.old.items) x within missed) }
    ensures env { OnOk result (env.new.items ≡ env.old.items) }
{
    if !is_known_leaf_at(&r.names, leaf, x, env)? {
        return Ok(within);
    }
    let count = r.names.facts.counts.of(x.sort).min(128);
    let mut missed = Candidates::fewest();
    'places: for place in 0..count {
        let value = holds_at(r, within, sign, leaf, x.at(place), env)?;
        missed = missed.with_false(place, value);
    }
    Ok(missed)
}

// Those of some constants at which an atom or an equation may be false.
fn leaf_misses(
    r: &Reading,
    x: Variable,
    within: Candidates,
    sign: bool,
    leaf: &Leaf,
    env: &mut Vec<Binding>,
) -> Result<Candidates, AllocError>
    ensures value { IfOk result (λ missed. HoldsElsewhere r.now (leaf_form sign leaf.now) (scope env.old.items) x within missed) }
    ensures env { OnOk result (env.new.items ≡ env.old.items) }
{
    if !is_known_leaf(&r.names, env, leaf) {
        return tried_misses(r, x, within, sign, leaf, env);
    }
    if judge_leaf(r, sign, leaf, env)? {
        return Ok(Candidates::fewest());
    }
    Ok(within)
}

// The same of an atom.
fn tuple_misses(
    r: &Reading,
    x: Variable,
    within: Candidates,
    sign: bool,
    relation: Pred,
    terms: &Terms,
    env: &mut Vec<Binding>,
) -> Result<Candidates, AllocError>
    ensures value { IfOk result (λ missed. HoldsElsewhere r.now (Atom sign relation terms.now) (scope env.old.items) x within missed) }
    ensures env { OnOk result (env.new.items ≡ env.old.items) }
{
    if sign || are_known(&r.names, env, terms.as_slice()) {
        return leaf_misses(r, x, within, sign, &Leaf::Tuple(relation, terms), env);
    }
    negated_misses(r, x, within, relation, terms.as_slice(), env)
}

#[cycle(misses)]
/// Those of some constants of a variable at which the matrix of a tree may be false, whatever other open variables stand for. The
/// bindings are the same at the end. For each literal it looks at the true atoms of its relation at most once.
pub fn misses(
    r: &Reading,
    x: Variable,
    within: Candidates,
    tree: &FormTree,
    env: &mut Vec<Binding>,
) -> Result<Candidates, AllocError>
    ensures value { IfOk result (λ missed. HoldsElsewhere r.now (tree_form tree.now) (scope env.old.items) x within missed) }
    ensures env { OnOk result (env.new.items ≡ env.old.items) }
{
    match part_of(tree) {
        Part::Truth(_) => Ok(within),
        Part::Tuple(sign, pred, terms) => tuple_misses(r, x, within, sign, pred, terms, env),
        Part::Equation(sign, t, u) => {
            leaf_misses(r, x, within, sign, &Leaf::Equation(t, u), env)
        }
        Part::Both(p, q) => both_misses(r, x, within, p, q, env),
        Part::Either(p, q) => either_misses(r, x, within, p, q, env),
        Part::Forall(_, _, p) => misses(r, x, within, p, env),
        Part::Exists(_, _, p) => misses(r, x, within, p, env),
    }
}

#[cycle(misses)]
// Those at which one of two trees may be false.
fn both_misses(
    r: &Reading,
    x: Variable,
    within: Candidates,
    p: &FormTree,
    q: &FormTree,
    env: &mut Vec<Binding>,
) -> Result<Candidates, AllocError>
    ensures value { IfOk result (λ missed. HoldsElsewhere r.now (And (tree_form p.now) (tree_form q.now)) (scope env.old.items) x within missed) }
    ensures env { OnOk result (env.new.items ≡ env.old.items) }
{
    let first = misses(r, x, within, p, env)?;
    let second = misses(r, x, within, q, env)?;
    Ok(first.with_all(second))
}

#[cycle(misses)]
// Those at which both may be.
fn either_misses(
    r: &Reading,
    x: Variable,
    within: Candidates,
    p: &FormTree,
    q: &FormTree,
    env: &mut Vec<Binding>,
) -> Result<Candidates, AllocError>
    ensures value { IfOk result (λ missed. HoldsElsewhere r.now (Or (tree_form p.now) (tree_form q.now)) (scope env.old.items) x within missed) }
    ensures env { OnOk result (env.new.items ≡ env.old.items) }
{
    let first = misses(r, x, within, p, env)?;
    if first.is_fewest() {
        return Ok(first);
    }
    misses(r, x, first, q, env)
}
