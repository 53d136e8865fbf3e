//! The clauses that a valuation breaks.
#![tactic(auto)]

ghost use Rattle.std.specs.Prelude.{◌≡◌, [], IfOk, OnErr, OnOk};
ghost use Rattle.clause_log.specs.Literals.{IsModel, truths};
ghost use Rattle.decision_laws.specs.Laws.{IsSentence};
ghost use Rattle.form_trees.specs.Trees.{IsMeasured, tree_form};
ghost use Rattle.ground_inst.specs.Walk.{ways_of};
ghost use Rattle.lazy_ground.specs.Completed.{completed};
ghost use Rattle.lazy_ground.specs.Lazy.{AddsBroken, AreAllBroken, IsLazy};
ghost use Rattle.lazy_ground.specs.Whole.{FindsNodes, FindsWhole, FindsBoth};

use crate::collecting::{each_once, joined};
use crate::equalities::find_equality;
use crate::looking::look;
use crate::naming::{both_true, named_atoms};
use crate::picking::picked;
use crate::sentence::LazyGround;
use crate::values::tree_value;
use clause_log::{Clauses, Valuation};
use copy_truth::needing::sum;
use copy_truth::reading::Reading;
use csdn_core::program::Program;
use form_trees::trees::FormTree;
use ground_inst::places::Names;
use ground_inst::rows::Rows;
use ground_inst::walk::{Work, known_of};
use std::alloc::{AllocError, Global};
use std::mem::replace;

/// Appends clauses of the sentence that the completed valuation breaks, and answers how many: 0 only where it makes each clause of
/// the sentence true. Where memory runs out nothing is changed.
pub fn add_broken(
    lazy: &mut LazyGround,
    alloc: Global,
    program: &Program,
    valuation: &Valuation,
) -> Result<u64, AllocError>
    requires sentence { IsSentence program.now lazy.old.made.sentence }
    requires lazy { IsLazy program.now lazy.old.made.sentence lazy.old }
    requires model { IsModel (truths valuation.now) lazy.old.made.clauses.clauses }
    ensures ok { IfOk result (λ n. AddsBroken program.now lazy.old.made.sentence (truths valuation.now) lazy.old lazy.new n) }
    ensures err { OnErr result (lazy.new ≡ lazy.old) }
{
    let found = broken_clauses(alloc, program, lazy, valuation)?;
    let added = found.len() as u64;
    let all = joined(alloc, &lazy.made.clauses, &found)?;
    lazy.made.clauses = all;
    Ok(added)
}

// Clauses of the sentence that the completed valuation breaks, each once.
fn broken_clauses(
    alloc: Global,
    program: &Program,
    lazy: &LazyGround,
    valuation: &Valuation,
) -> Result<Clauses, AllocError>
    requires sentence { IsSentence program.now lazy.now.made.sentence }
    requires lazy { IsLazy program.now lazy.now.made.sentence lazy.now }
    ensures atoms { IfOk result (λ found. found.atoms ≡ lazy.now.made.clauses.atoms) }
    ensures broken { IfOk result (λ found. AreAllBroken program.now lazy.now.made.sentence (completed program.now lazy.now.made.sentence lazy.now.made.clauses.clauses (truths valuation.now)) found.clauses) }
{
    let named = named_atoms(alloc, &lazy.made.clauses)?;
    let trues = both_true(alloc, &named, valuation)?;
    let reading = Reading {
        names: Names {
            parts: program.parts(),
            facts: &lazy.made.facts,
        },
        named: &named,
        trues: &trues,
        alloc,
    };
    let mut marks = Vec::new(alloc);
    let rows = broken_rows(alloc, &reading, lazy.tree.get(), &mut marks)?;
    let found = rows.into_clauses(lazy.made.clauses.atoms());
    let some = picked(alloc, &found, &marks)?;
    each_once(alloc, &some)
}

// The clauses of a tree's copies and of equality that are found.
fn broken_rows(
    alloc: Global,
    r: &Reading,
    tree: &FormTree,
    marks: &mut Vec<u64>,
) -> Result<Rows, AllocError>
    requires measured { IsMeasured (ways_of r.now.names).count tree.now }
    ensures { IfOk result (λ rows. FindsBoth r.now (tree_form tree.now) rows) }
{
    let mut rows = Rows::new(alloc);
    find_copies(alloc, r, tree, marks, &mut rows)?;
    find_equality(alloc, r.names.parts, r.names.facts, r.trues, &mut rows)?;
    Ok(rows)
}

// The clauses of a tree's copies that are found.
fn find_copies(
    alloc: Global,
    r: &Reading,
    tree: &FormTree,
    marks: &mut Vec<u64>,
    rows: &mut Rows,
) -> Result<(), AllocError>
    requires measured { IsMeasured (ways_of r.now.names).count tree.now }
    ensures { OnOk result (FindsWhole r.now (tree_form tree.now) rows.old rows.new) }
{
    match tree_value(&r.names.facts.counts, tree) {
        Some(true) => Ok(()),
        Some(false) => rows.push(&[]),
        None => find_nodes(alloc, r, tree, marks, rows),
    }
}

// Those of copies that are no truth value.
fn find_nodes(
    alloc: Global,
    r: &Reading,
    tree: &FormTree,
    marks: &mut Vec<u64>,
    rows: &mut Rows,
) -> Result<(), AllocError>
    requires measured { IsMeasured (ways_of r.now.names).count tree.now }
    ensures { OnOk result (FindsNodes r.now (tree_form tree.now) rows.old rows.new) }
{
    let mut work = Work {
        env: Vec::new(alloc),
        base: known_of(r.names.parts),
        next: sum(r.names.facts.count, 1)?,
        rows: replace(rows, Rows::new(alloc)),
    };
    let first = work.next;
    let seen = look(r, tree, None, first, marks, &mut work)?;
    *rows = work.rows;
    if seen.value {
        return Ok(());
    }
    rows.push(&[seen.literal])
}
