//! What the copies of a part of a sentence are, where the facts are what is said of them.
//!
//! Those of a plain tree are true where its matrix is, whatever its variables stand for: all are left open then, and a search asks
//! for constants with which the matrix is false. Of another tree the copies are judged one after another.
#![tactic(auto)]

ghost use Rattle.std.specs.Prelude.{◌≡◌, ◌<◌, ◌==◌, ℕ, not, true, IfOk, OnOk};
ghost use Rattle.std.specs.List.{list_all};
ghost use Rattle.csdn_core.specs.declared.terms.Sort.{Sort as AnySort};
ghost use Rattle.fol_forms.specs.Counts.{count_of};
ghost use Rattle.fol_forms.specs.Forms.{And, ForAll, ForSome, Or};
ghost use Rattle.form_trees.specs.Plain.{IsPlain};
ghost use Rattle.form_trees.specs.Trees.{IsMeasured, tree_form};
ghost use Rattle.ground_inst.specs.Walk.{scope, ways_of};
ghost use Rattle.copy_truth.specs.Judged.{judged_bound, judged_copies};
ghost use Rattle.copy_truth.specs.declared.opened.TheConstants.{OPEN};

use crate::binders::{can_open, open_binders};
use crate::facts::{judge_equation, judge_tuple};
use crate::needing::past;
use crate::opened::Variable;
use crate::reading::Reading;
use crate::searching::is_broken;
use fol_forms::instances::Counts;
use form_trees::trees::{FormTree, Part, extent_of, part_of};
use ground_inst::bases::one_more;
use ground_inst::places::Binding;
use ground_inst::walk::bind;
use std::alloc::AllocError;

#[cycle(judge)]
/// Whether the copies of a tree are true. The bindings are the same at the end. Where they are one leaf, no search is made.
pub fn judge(
    r: &Reading,
    tree: &FormTree,
    env: &mut Vec<Binding>,
    base: Counts,
) -> Result<bool, AllocError>
    requires measured { IsMeasured (ways_of r.now.names).count tree.now }
    ensures value { IfOk result (λ b. b ≡ judged_copies r.now (tree_form tree.now) (scope env.old.items) (count_of base)) }
    ensures env { OnOk result (env.new.items ≡ env.old.items) }
{
    let extent = extent_of(tree);
    if extent.is_plain && extent.nodes > 0 && can_open(&r.names, env) {
        return judge_plain(r, tree, env);
    }
    judge_parts(r, tree, env, base)
}

// Whether the copies of a plain tree are true: no constants break its matrix.
fn judge_plain(r: &Reading, tree: &FormTree, env: &mut Vec<Binding>) -> Result<bool, AllocError>
    requires plain { IsPlain (tree_form tree.now) }
    requires known { list_all (λ b. not (b.place == OPEN)) env.now.items ≡ true }
    requires filled { (s : AnySort) → 0 < (ways_of r.now.names).count s }
    ensures value { IfOk result (λ b. (base : AnySort → ℕ) → b ≡ judged_copies r.now (tree_form tree.now) (scope env.old.items) base) }
    ensures env { OnOk result (env.new.items ≡ env.old.items) }
{
    let known = env.len();
    open_binders(tree, env)?;
    let broken = is_broken(r, tree, env)?;
    env.truncate(known);
    Ok(!broken)
}

#[cycle(judge)]
// Whether the copies of a tree are true, by those of its parts.
fn judge_parts(
    r: &Reading,
    tree: &FormTree,
    env: &mut Vec<Binding>,
    base: Counts,
) -> Result<bool, AllocError>
    requires measured { IsMeasured (ways_of r.now.names).count tree.now }
    ensures value { IfOk result (λ b. b ≡ judged_copies r.now (tree_form tree.now) (scope env.old.items) (count_of base)) }
    ensures env { OnOk result (env.new.items ≡ env.old.items) }
{
    match part_of(tree) {
        Part::Truth(value) => Ok(value),
        Part::Tuple(sign, relation, terms) => judge_tuple(r, sign, relation, terms, env),
        Part::Equation(sign, t, u) => judge_equation(r, sign, t, u, env),
        Part::Both(p, q) => judge_both(r, p, q, env, base),
        Part::Either(p, q) => judge_either(r, p, q, env, base),
        Part::Forall(var, sort, p) => judge_all(r, Variable { var, sort }, p, env, base),
        Part::Exists(var, sort, p) => judge_free(r, Variable { var, sort }, p, env, base),
    }
}

#[cycle(judge)]
// Whether the copies of both are true.
fn judge_both(
    r: &Reading,
    p: &FormTree,
    q: &FormTree,
    env: &mut Vec<Binding>,
    base: Counts,
) -> Result<bool, AllocError>
    requires first { IsMeasured (ways_of r.now.names).count p.now }
    requires second { IsMeasured (ways_of r.now.names).count q.now }
    ensures value { IfOk result (λ b. b ≡ judged_copies r.now (And (tree_form p.now) (tree_form q.now)) (scope env.old.items) (count_of base)) }
    ensures env { OnOk result (env.new.items ≡ env.old.items) }
{
    let first = judge(r, p, env, base)?;
    if !first {
        return Ok(false);
    }
    let after = past(&r.names, p, base)?;
    judge(r, q, env, after)
}

#[cycle(judge)]
// Whether the copies of one of them are true.
fn judge_either(
    r: &Reading,
    p: &FormTree,
    q: &FormTree,
    env: &mut Vec<Binding>,
    base: Counts,
) -> Result<bool, AllocError>
    requires first { IsMeasured (ways_of r.now.names).count p.now }
    requires second { IsMeasured (ways_of r.now.names).count q.now }
    ensures value { IfOk result (λ b. b ≡ judged_copies r.now (Or (tree_form p.now) (tree_form q.now)) (scope env.old.items) (count_of base)) }
    ensures env { OnOk result (env.new.items ≡ env.old.items) }
{
    let first = judge(r, p, env, base)?;
    if first {
        return Ok(true);
    }
    judge(r, q, env, base)
}

#[cycle(judge)]
// Whether the copies of a body are true, its variable standing for this constant.
fn judge_at(
    r: &Reading,
    binding: Binding,
    body: &FormTree,
    env: &mut Vec<Binding>,
    base: Counts,
) -> Result<bool, AllocError>
    requires measured { IsMeasured (ways_of r.now.names).count body.now }
    ensures value { IfOk result (λ b. b ≡ judged_bound r.now (tree_form body.now) binding (scope env.old.items) (count_of base)) }
    ensures env { OnOk result (env.new.items ≡ env.old.items) }
{
    bind(env, binding)?;
    let value = judge(r, body, env, base)?;
    env.pop();
    Ok(value)
}

#[cycle(judge)]
// Whether the copies of a body are true for each constant of a sort.
fn judge_all(
    r: &Reading,
    x: Variable,
    body: &FormTree,
    env: &mut Vec<Binding>,
    base: Counts,
) -> Result<bool, AllocError>
    requires measured { IsMeasured (ways_of r.now.names).count body.now }
    ensures value { IfOk result (λ b. b ≡ judged_copies r.now (ForAll x.var x.sort (tree_form body.now)) (scope env.old.items) (count_of base)) }
    ensures env { OnOk result (env.new.items ≡ env.old.items) }
{
    let count = r.names.facts.counts.of(x.sort);
    'places: for place in 0..count {
        let value = judge_at(r, x.at(place), body, env, base)?;
        if !value {
            return Ok(false);
        }
    }
    Ok(true)
}

#[cycle(judge)]
// Whether the copies of the body of an `exists` are true, its variable standing for the first free constant.
fn judge_free(
    r: &Reading,
    x: Variable,
    body: &FormTree,
    env: &mut Vec<Binding>,
    base: Counts,
) -> Result<bool, AllocError>
    requires measured { IsMeasured (ways_of r.now.names).count body.now }
    ensures value { IfOk result (λ b. b ≡ judged_copies r.now (ForSome x.var x.sort (tree_form body.now)) (scope env.old.items) (count_of base)) }
    ensures env { OnOk result (env.new.items ≡ env.old.items) }
{
    let place = base.of(x.sort);
    let after = one_more(base, x.sort)?;
    judge_at(r, x.at(place), body, env, after)
}
