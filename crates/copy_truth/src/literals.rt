//! What is seen of an atom or an equation with open variables.
#![tactic(auto)]

ghost use Rattle.std.specs.Prelude.{◌≡◌, true, false, IfOk, IfSome, OnOk};
ghost use Rattle.ground_inst.specs.Walk.{scope, ways_of};
ghost use Rattle.copy_truth.specs.Early.{HoldsElsewhere, is_known_leaf as is_known_there, leaf_form};
ghost use Rattle.copy_truth.specs.Outlook.{IsOpenIn, IsOutlook};

use crate::candidates::Candidates;
use crate::facts::{Leaf, is_known_leaf, judge_leaf};
use crate::misses::{negated_misses, tried_misses};
use crate::opened::{Variable, first_open};
use crate::reading::Reading;
use ground_inst::places::{Binding, Names};
use std::alloc::AllocError;

/// What is seen of a matrix with open variables.
#[derive(Clone, Copy)]
pub enum Outlook {
    /// It is true, whatever they stand for.
    True,
    /// It is false, whatever they stand for.
    False,
    /// It is true where this one stands for none of these constants.
    Open(Variable, Candidates),
}

/// What is seen of an atom or an equation, or for the sign `false` of its negation. The bindings are the same at the end. Of a
/// negated one it tells the constants of its first open variable at which it may be false; it looks at the relation's true atoms.
pub fn leaf_outlook(
    r: &Reading,
    sign: bool,
    leaf: &Leaf,
    env: &mut Vec<Binding>,
) -> Result<Outlook, AllocError>
    ensures value { IfOk result (IsOutlook r.now (leaf_form sign leaf.now) (scope env.old.items)) }
    ensures env { OnOk result (env.new.items ≡ env.old.items) }
{
    if is_known_leaf(&r.names, env, leaf) {
        return known_outlook(r, sign, leaf, env);
    }
    match open_in(&r.names, env, leaf) {
        None => Err(AllocError),
        Some(x) => open_outlook(r, x, sign, leaf, env),
    }
}

// The same, where each term stands for a constant.
fn known_outlook(
    r: &Reading,
    sign: bool,
    leaf: &Leaf,
    env: &[Binding],
) -> Result<Outlook, AllocError>
    requires { is_known_there (ways_of r.now.names).voc (scope env.now) leaf.now ≡ true }
    ensures { IfOk result (IsOutlook r.now (leaf_form sign leaf.now) (scope env.now)) }
{
    if judge_leaf(r, sign, leaf, env)? {
        return Ok(Outlook::True);
    }
    Ok(Outlook::False)
}

// The first open variable of a leaf.
fn open_in(names: &Names, env: &[Binding], leaf: &Leaf) -> Option<Variable>
    ensures { IfSome result (IsOpenIn (scope env.now)) }
{
    match leaf {
        Leaf::Tuple(_, terms) => first_open(names, env, terms.as_slice()),
        Leaf::Equation(t, u) => first_open(names, env, &[*t, *u]),
    }
}

// What is seen of a leaf of which this variable is open. Nearly all constants would make one without a negation false.
fn open_outlook(
    r: &Reading,
    x: Variable,
    sign: bool,
    leaf: &Leaf,
    env: &mut Vec<Binding>,
) -> Result<Outlook, AllocError>
    requires { IsOpenIn (scope env.old.items) x }
    ensures value { IfOk result (IsOutlook r.now (leaf_form sign leaf.now) (scope env.old.items)) }
    ensures env { OnOk result (env.new.items ≡ env.old.items) }
{
    if sign {
        return Ok(Outlook::Open(x, Candidates::all()));
    }
    let missed = negation_misses(r, x, Candidates::all(), leaf, env)?;
    if missed.are_none_below(r.names.facts.counts.of(x.sort)) {
        return Ok(Outlook::True);
    }
    Ok(Outlook::Open(x, missed))
}

// Those of some constants at which the negation of a leaf may be false.
fn negation_misses(
    r: &Reading,
    x: Variable,
    within: Candidates,
    leaf: &Leaf,
    env: &mut Vec<Binding>,
) -> Result<Candidates, AllocError>
    ensures value { IfOk result (λ missed. HoldsElsewhere r.now (leaf_form false leaf.now) (scope env.old.items) x within missed) }
    ensures env { OnOk result (env.new.items ≡ env.old.items) }
{
    match leaf {
        Leaf::Tuple(relation, terms) => negated_misses(
            r,
            x,
            within,
            *relation,
            terms.as_slice(),
            env,
        ),
        Leaf::Equation(_, _) => tried_misses(r, x, within, false, leaf, env),
    }
}
