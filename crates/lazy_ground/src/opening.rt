//! The clauses of the parts of a sentence that stand under no `forall`.
//!
//! A simplified formula has no truth value inside: `AllocError` for one.
#![tactic(auto)]

ghost use Rattle.std.specs.Prelude.{◌≡◌, ◌+◌, ◌*◌, ◌++◌, [], suc, IfOk, OnOk};
ghost use Rattle.fol_forms.specs.Counts.{count_of};
ghost use Rattle.fol_forms.specs.Forms.{And, ForAll, ForSome, Or};
ghost use Rattle.form_trees.specs.Trees.{IsMeasured, tree_form};
ghost use Rattle.ground_inst.specs.Copies.{copies_over};
ghost use Rattle.ground_inst.specs.Facts.{num_of};
ghost use Rattle.ground_inst.specs.Walk.{state_of, ways_of};
ghost use Rattle.lazy_ground.specs.First.{open_named, open_whole};
ghost use Rattle.lazy_ground.specs.Opened.{AddsAt, AddsMember, AddsOpen};

use crate::values::tree_value;
use clause_log::Lit;
use copy_truth::needing::{nodes_of, sum};
use csdn_core::program::Parts;
use csdn_core::terms::{Sort, VarId};
use form_trees::trees::{FormTree, Part, part_of};
use ground_inst::bases::{larger, one_more};
use ground_inst::facts::Facts;
use ground_inst::places::{Binding, Names, equation_literal, literal, tuple_literal};
use ground_inst::rows::Rows;
use ground_inst::walk::{Work, bind, known_of, number, push_either, push_member};
use std::alloc::{AllocError, Global};
use std::mem::replace;

/// Appends the clauses of the copies of a tree over the constants of `facts` that stand under no `forall`; its conjunctions and
/// disjunctions are the atoms after the facts. What the rows are after want of memory is not told.
pub fn write_open(
    alloc: Global,
    parts: &Parts,
    facts: &Facts,
    tree: &FormTree,
    rows: &mut Rows,
) -> Result<(), AllocError>
    requires measured { IsMeasured (count_of facts.now.counts) tree.now }
    ensures { OnOk result (rows.new ≡ rows.old ++ open_whole (num_of facts.now) (suc facts.now.count) (copies_over parts.now (count_of facts.now.counts) (tree_form tree.now))) }
{
    match tree_value(&facts.counts, tree) {
        Some(true) => Ok(()),
        Some(false) => rows.push(&[]),
        None => write_nodes(alloc, Names { parts, facts }, tree, rows),
    }
}

// Those of copies that are no truth value.
fn write_nodes(
    alloc: Global,
    names: Names,
    tree: &FormTree,
    rows: &mut Rows,
) -> Result<(), AllocError>
    requires measured { IsMeasured (count_of names.facts.now.counts) tree.now }
    ensures { OnOk result (rows.new ≡ rows.old ++ open_named (num_of names.entry.facts.now) (suc names.entry.facts.now.count) (copies_over names.entry.parts.now (count_of names.entry.facts.now.counts) (tree_form tree.now))) }
{
    let mut work = Work {
        env: Vec::new(alloc),
        base: known_of(names.parts),
        next: sum(names.facts.count, 1)?,
        rows: replace(rows, Rows::new(alloc)),
    };
    let top = write(&names, tree, &mut work)?;
    *rows = work.rows;
    rows.push(&[top])
}

// The number behind a conjunction of so many copies with so many nodes each.
fn behind(next: u64, count: u64, nodes: u64) -> Result<u64, AllocError>
    ensures { IfOk result (λ after. after ≡ next + count * nodes + 1) }
{
    let parts = count.checked_mul(nodes).ok_or(AllocError)?;
    sum(sum(next, parts)?, 1)
}

#[cycle(write)]
// Adds those of a tree, and answers the literal of the whole.
fn write(names: &Names, tree: &FormTree, work: &mut Work) -> Result<Lit, AllocError>
    requires measured { IsMeasured (ways_of names.now).count tree.now }
    ensures { IfOk result (λ l. AddsOpen (ways_of names.now) (tree_form tree.now) (state_of work.old) (state_of work.new) l) }
{
    match part_of(tree) {
        Part::Truth(_) => Err(AllocError),
        Part::Tuple(sign, pred, terms) => tuple_literal(names, &work.env, sign, pred, terms),
        Part::Equation(sign, t, u) => equation_literal(names, &work.env, sign, t, u),
        Part::Both(p, q) => open_both(names, p, q, work),
        Part::Either(p, q) => open_either(names, p, q, work),
        Part::Forall(var, sort, p) => open_all(names, var, sort, p, work),
        Part::Exists(var, sort, p) => open_free(names, var, sort, p, work),
    }
}

#[cycle(write)]
// Those of a member of the conjunction with this number, and its clause.
fn open_member(names: &Names, tree: &FormTree, work: &mut Work, x: u64) -> Result<(), AllocError>
    requires measured { IsMeasured (ways_of names.now).count tree.now }
    ensures { OnOk result (AddsMember (ways_of names.now) (tree_form tree.now) (state_of work.old) (state_of work.new) x) }
{
    let a = write(names, tree, work)?;
    push_member(&mut work.rows, x, a)
}

#[cycle(write)]
// Those of a conjunction.
fn open_both(names: &Names, p: &FormTree, q: &FormTree, work: &mut Work) -> Result<Lit, AllocError>
    requires left { IsMeasured (ways_of names.now).count p.now }
    requires right { IsMeasured (ways_of names.now).count q.now }
    ensures { IfOk result (λ l. AddsOpen (ways_of names.now) (And (tree_form p.now) (tree_form q.now)) (state_of work.old) (state_of work.new) l) }
{
    let x = number(work)?;
    open_member(names, p, work, x)?;
    open_member(names, q, work, x)?;
    literal(true, x)
}

#[cycle(write)]
// Those of a disjunction. Both sides take the same free constants.
fn open_either(
    names: &Names,
    p: &FormTree,
    q: &FormTree,
    work: &mut Work,
) -> Result<Lit, AllocError>
    requires left { IsMeasured (ways_of names.now).count p.now }
    requires right { IsMeasured (ways_of names.now).count q.now }
    ensures { IfOk result (λ l. AddsOpen (ways_of names.now) (Or (tree_form p.now) (tree_form q.now)) (state_of work.old) (state_of work.new) l) }
{
    let x = number(work)?;
    let start = work.base;
    let a = write(names, p, work)?;
    let after = work.base;
    work.base = start;
    let b = write(names, q, work)?;
    work.base = larger(after, work.base);
    push_either(&mut work.rows, x, a, b)?;
    literal(true, x)
}

#[cycle(write)]
// Those of a body, its variable standing for this constant.
fn open_at(
    names: &Names,
    binding: Binding,
    tree: &FormTree,
    work: &mut Work,
) -> Result<Lit, AllocError>
    requires measured { IsMeasured (ways_of names.now).count tree.now }
    ensures { IfOk result (λ l. AddsAt (ways_of names.now) (tree_form tree.now) binding.var binding.sort binding.place (state_of work.old) (state_of work.new) l) }
{
    bind(&mut work.env, binding)?;
    let a = write(names, tree, work)?;
    work.env.pop();
    Ok(a)
}

#[cycle(write)]
// Those of an `exists`: its variable stands for the first free constant.
fn open_free(
    names: &Names,
    var: VarId,
    sort: Sort,
    tree: &FormTree,
    work: &mut Work,
) -> Result<Lit, AllocError>
    requires measured { IsMeasured (ways_of names.now).count tree.now }
    ensures { IfOk result (λ l. AddsOpen (ways_of names.now) (ForSome var sort (tree_form tree.now)) (state_of work.old) (state_of work.new) l) }
{
    let place = work.base.of(sort);
    work.base = one_more(work.base, sort)?;
    open_at(names, Binding { var, sort, place }, tree, work)
}

#[cycle(write)]
// Those of a `forall`: over one constant those of its body, and else none.
fn open_all(
    names: &Names,
    var: VarId,
    sort: Sort,
    tree: &FormTree,
    work: &mut Work,
) -> Result<Lit, AllocError>
    requires measured { IsMeasured (ways_of names.now).count tree.now }
    ensures { IfOk result (λ l. AddsOpen (ways_of names.now) (ForAll var sort (tree_form tree.now)) (state_of work.old) (state_of work.new) l) }
{
    let count = names.facts.counts.of(sort);
    if count == 0 {
        return Err(AllocError);
    }
    if count == 1 {
        let start = work.base;
        let binding = Binding {
            var,
            sort,
            place: 0,
        };
        let a = open_at(names, binding, tree, work)?;
        work.base = start;
        return Ok(a);
    }
    let top = literal(true, work.next)?;
    let nodes = nodes_of(names, tree);
    work.next = behind(work.next, count, nodes)?;
    Ok(top)
}
