//! States.
ghost use Rattle.std.specs.Prelude.{◌≡◌, ◌++◌, [], not, IfOk, OnOk, OnErr};
ghost use Rattle.csdn_core.specs.Execution.{put, take_out};
ghost use Rattle.net_structs.specs.Rows.{held, row_cmp, rows_of};
ghost use Rattle.net_structs.specs.Flows.{IsPast, output_of, outputs_of};
ghost use Rattle.net_structs.specs.Views.{but};
ghost use Rattle.std.specs.BTreeMap.{is_at};
ghost use Rattle.std.specs.Set.{remove_key};
ghost use Rattle.std.specs.BTreeSet.{insert_key};
ghost use Rattle.std.specs.List.Sorted.{IsStrictlySortedBy};

use crate::cells::Cells;
use crate::network::Elements;
use crate::row::{Row, Rows};
use csdn_core::event::Match;
use csdn_core::program::Program;
use csdn_core::terms::Pred;
use sqlite_items::Items;
use std::alloc::{AllocError, Global};
use std::collections::BTreeSet;
use std::marker::Model;

/// The tuples of a program's `rel`, of `ft` and of `sent`. Clauses see them as a list that rises, each once.
#[derive(Drop)]
pub struct State {
    rows: BTreeSet<Row>,
}

impl Model for State {
    ghost use Rattle.std.specs.Prelude.{List};
    ghost use Rattle.std.specs.List.Sorted.{IsStrictlySortedBy};
    ghost use Rattle.net_structs.specs.declared.row.Row.{Row as SpecRow};
    ghost use Rattle.net_structs.specs.Rows.{row_cmp};

    ghost Value = { List SpecRow };

    ghost view = { λ s. s.rows.keys };

    ghost invariant = { λ s. IsStrictlySortedBy row_cmp s.rows.keys };
}

impl State {
    /// No tuples.
    pub fn try_empty(alloc: Global, _program: &Program) -> Result<State, AllocError>
        ensures { IfOk result (λ state. state ≡ []) }
    {
        Ok(State {
            rows: BTreeSet::new(alloc),
        })
    }

    /// Whether a tuple is in a relation.
    pub fn has(&self, pred: Pred, cells: &Cells) -> bool
        ensures { result ≡ held self.now pred cells.now }
    {
        let row = Row {
            pred,
            cells: cells.copy(),
        };
        self.rows.contains(&row)
    }

    /// Puts a tuple into a relation, and says whether it is new there.
    pub fn insert(&mut self, pred: Pred, cells: &Cells) -> Result<bool, AllocError>
        ensures is_new { IfOk result (λ is_new. is_new ≡ not (held self.old pred cells.now)) }
        ensures rows { IfOk result (λ is_new. self.new ≡ insert_key row_cmp self.old (record { pred = pred; cells = cells.now })) }
        ensures put { IfOk result (λ is_new. held self.new ≡ put (held self.old) pred cells.now) }
        ensures err { OnErr result (self.new ≡ self.old) }
    {
        let is_new = self.rows.insert(Row {
            pred,
            cells: cells.copy(),
        })?;
        Ok(is_new)
    }

    /// Takes a tuple out of a relation, and says whether it was there.
    pub fn remove(&mut self, pred: Pred, cells: &Cells) -> bool
        ensures was_there { result ≡ held self.old pred cells.now }
        ensures taken { held self.new ≡ take_out (held self.old) pred cells.now }
        ensures rows { self.new ≡ remove_key (is_at (row_cmp (record { pred = pred; cells = cells.now }))) self.old }
    {
        let row = Row {
            pred,
            cells: cells.copy(),
        };
        self.rows.remove(&row)
    }

    /// Takes out the tuples of another state. It takes no memory.
    pub fn remove_all(&mut self, gone: &State)
        ensures { held self.new ≡ but (held self.old) (held gone.now) }
    {
        'rows: for row in &gone.rows {
            self.remove(row.pred, &row.cells);
        }
    }

    /// The tuples of a state rise, each once. It does nothing, and takes no memory.
    pub fn rises(&self)
        ensures { IsStrictlySortedBy row_cmp self.now }
    {
        let _rows = &self.rows;
    }

    /// The tuples of a relation, rising.
    pub fn rows(&self, alloc: Global, pred: Pred) -> Result<Rows, AllocError>
        ensures rows { IfOk result (λ rows. rows ≡ rows_of pred self.now) }
        ensures rising { IfOk result (λ rows. IsStrictlySortedBy row_cmp rows) }
    {
        let mut rows = Items::new(alloc);
        'rows: for row in &self.rows {
            if pred.is_same(row.pred) {
                rows.push(row.clone()?)?;
            }
        }
        Ok(rows)
    }

    /// The egress ports of the flow rules of a match, rising. It costs what is there of the match, and the way to it.
    pub fn outputs(&self, alloc: Global, key: &Match) -> Result<Elements, AllocError>
        ensures { IfOk result (λ ports. ports ≡ outputs_of key.now self.now) }
    {
        let first = Row {
            pred: Pred::Ft,
            cells: Cells::of(&[key.s, key.a, key.b, key.i]),
        };
        let mut ports = Items::new(alloc);
        'rows: for row in self.rows.range(first..past(key)) {
            push_output(&mut ports, key, row)?;
        }
        Ok(ports)
    }

    /// All tuples, rising.
    pub fn all_rows(&self, alloc: Global) -> Result<Rows, AllocError>
        ensures rows { IfOk result (λ rows. rows ≡ self.now) }
        ensures rising { IfOk result (λ rows. IsStrictlySortedBy row_cmp rows) }
    {
        let mut rows = Items::new(alloc);
        'rows: for row in &self.rows {
            rows.push(row.clone()?)?;
        }
        Ok(rows)
    }

    /// The same tuples.
    pub fn copy(&self) -> Result<State, AllocError>
        ensures { IfOk result (λ state. state ≡ self.now) }
    {
        let rows = self.rows.clone()?;
        Ok(State { rows })
    }
}

// A row behind the flow rules of a match.
fn past(key: &Match) -> Row
    ensures { IsPast key.now result }
{
    if key.i == 0xffff_ffff_ffff_ffff {
        return Row {
            pred: Pred::Sent,
            cells: Cells::new(),
        };
    }
    Row {
        pred: Pred::Ft,
        cells: Cells::of(&[key.s, key.a, key.b, key.i + 1]),
    }
}

// Appends the egress port of a flow rule of the match; nothing for another row.
fn push_output(ports: &mut Elements, key: &Match, row: &Row) -> Result<(), AllocError>
    ensures { OnOk result (ports.new ≡ ports.old ++ output_of key.now row.now) }
{
    if !Pred::Ft.is_same(row.pred) {
        return Ok(());
    }
    match row.cells.as_slice() {
        [s, a, b, i, o] => {
            if key.s == *s && (key.a == *a && (key.b == *b && (key.i == *i))) {
                ports.push(*o)?;
            }
            Ok(())
        }
        _ => Ok(()),
    }
}
