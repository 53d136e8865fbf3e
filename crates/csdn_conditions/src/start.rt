//! What is true in the initial state alone.
#![tactic(auto)]

ghost use Rattle.std.specs.Prelude.{◌≡◌, ◌≤◌, ◌++◌, [], ◌∷◌, IfOk, OnOk, length, map, All};
ghost use Rattle.csdn_core.specs.Network.{same_pred};
ghost use Rattle.csdn_core.specs.declared.terms.Pred.TheVariants as preds;
ghost use Rattle.fol_forms.specs.Replace.{same as same_of};
ghost use Rattle.csdn_conditions.specs.Start.{binds_from, terms_of, rows_among, is_one_of as is_one_of_rows, holds_rows as holds_rows_of, holds_rows_under as holds_rows_under_of, stored_at, stored_from, start as start_of};

use crate::lists::{Formulas, Join, joined};
use csdn_core::program::{Parts, Program, Relation, StartRow};
use csdn_core::syntax::Formula;
use csdn_core::terms::{FLOW_SORTS, Pred, RelId, Sort, Term, Terms, VarId};
use fol_forms::close::{Bind, Binds, closed_by};
use fol_forms::replace::same;
use sqlite_items::Boxed;
use std::alloc::{AllocError, Global};

/// What is true exactly where each `rel`, `ft` and `sent` holds its initial tuples alone.
pub fn start(alloc: Global, program: &Program) -> Result<Formula, AllocError>
    ensures { IfOk result (λ p. p ≡ start_of program.now) }
{
    let parts = program.parts();
    let rows = parts.start.as_slice();
    let mut members = stored(alloc, rows, parts.relations.as_slice())?;
    push_rows(alloc, &mut members, rows, Pred::Ft, &FLOW_SORTS)?;
    push_rows(alloc, &mut members, rows, Pred::Sent, &FLOW_SORTS)?;
    joined(alloc, Join::And, members)
}

// What is said of each `rel`.
fn stored(alloc: Global, rows: &[StartRow], relations: &[Relation]) -> Result<Formulas, AllocError>
    requires arities { All (λ r. length r.sorts ≤ 5) relations.now }
    requires few { length relations.now ≤ 64 }
    ensures { IfOk result (λ ps. ps ≡ stored_from rows.now 0 relations.now) }
{
    let mut members = Formulas::new(alloc);
    let mut place = 0;
    let mut rest = relations;
    'relations: while let [relation, more @ ..] = rest {
        push_stored(alloc, &mut members, rows, place, relation)?;
        place += 1;
        rest = more;
    }
    Ok(members)
}

fn push_stored(
    alloc: Global,
    members: &mut Formulas,
    rows: &[StartRow],
    place: u32,
    relation: &Relation,
) -> Result<(), AllocError>
    requires { length relation.now.sorts ≤ 5 }
    ensures { OnOk result (members.new ≡ members.old ++ stored_at rows.now place relation.now) }
{
    if relation.fixed {
        return Ok(());
    }
    let pred = Pred::Stored(RelId(place));
    push_rows(alloc, members, rows, pred, relation.sorts.as_slice())
}

fn push_rows(
    alloc: Global,
    members: &mut Formulas,
    rows: &[StartRow],
    pred: Pred,
    sorts: &[Sort],
) -> Result<(), AllocError>
    requires { length sorts.now ≤ 5 }
    ensures { OnOk result (members.new ≡ members.old ++ holds_rows_of rows.now pred sorts.now ∷ []) }
{
    members.push(holds_rows(alloc, rows, pred, sorts)?)
}

// That a relation holds exactly its rows.
fn holds_rows(
    alloc: Global,
    rows: &[StartRow],
    pred: Pred,
    sorts: &[Sort],
) -> Result<Formula, AllocError>
    requires { length sorts.now ≤ 5 }
    ensures { IfOk result (λ p. p ≡ holds_rows_of rows.now pred sorts.now) }
{
    let binds = binds_of(alloc, sorts)?;
    holds_rows_under(alloc, rows, pred, binds.as_slice())
}

#[tactic(auto, using(csdn_core::proofs::Shapes::shapes))]
fn holds_rows_under(
    alloc: Global,
    rows: &[StartRow],
    pred: Pred,
    binds: &[Bind],
) -> Result<Formula, AllocError>
    requires { length binds.now ≤ 5 }
    ensures { IfOk result (λ p. p ≡ holds_rows_under_of binds.now rows.now pred) }
{
    let terms = variables(binds);
    let row = Boxed::new(alloc, is_one_of(alloc, &terms, rows, pred)?)?;
    let atom = Boxed::new(alloc, Formula::Atom(pred, terms))?;
    closed_by(alloc, Formula::Iff(atom, row), binds)
}

// The variables 0, 1, .. of these sorts.
fn binds_of(alloc: Global, sorts: &[Sort]) -> Result<Binds, AllocError>
    requires { length sorts.now ≤ 5 }
    ensures { IfOk result (λ bs. bs ≡ binds_from 0 sorts.now) }
{
    let mut binds = Binds::new(alloc);
    let mut number = 0;
    let mut rest = sorts;
    'sorts: while let [sort, more @ ..] = rest {
        binds.push(Bind {
            var: VarId(number),
            sort: *sort,
        })?;
        number += 1;
        rest = more;
    }
    Ok(binds)
}

fn variables(binds: &[Bind]) -> Terms
    requires { length binds.now ≤ 5 }
    ensures { result ≡ terms_of binds.now }
{
    let mut terms = Terms::new();
    let mut rest = binds;
    'binds: while let [bind, more @ ..] = rest {
        terms.push(Term::Var(bind.var));
        rest = more;
    }
    terms
}

// That the terms are one of the rows of the relation.
fn is_one_of(
    alloc: Global,
    terms: &Terms,
    rows: &[StartRow],
    pred: Pred,
) -> Result<Formula, AllocError>
    ensures { IfOk result (λ p. p ≡ is_one_of_rows terms.now (rows_among rows.now pred)) }
{
    joined(alloc, Join::Or, are_rows(alloc, terms, rows, pred)?)
}

// For each row of the relation, that the terms are the row.
fn are_rows(
    alloc: Global,
    terms: &Terms,
    rows: &[StartRow],
    pred: Pred,
) -> Result<Formulas, AllocError>
    ensures { IfOk result (λ ps. ps ≡ map (same_of terms.now) (rows_among rows.now pred)) }
{
    let mut members = Formulas::new(alloc);
    let mut rest = rows;
    'rows: while let [row, more @ ..] = rest {
        if is_of(row, pred) {
            members.push(same(alloc, terms.as_slice(), row.terms.as_slice())?)?;
        }
        rest = more;
    }
    Ok(members)
}

// Whether the row is one of the relation.
fn is_of(row: &StartRow, pred: Pred) -> bool
    ensures { result ≡ same_pred (preds.Stored row.now.rel) pred }
{
    match pred {
        Pred::Stored(rel) => row.rel == rel,
        Pred::Ft | Pred::Sent | Pred::RcvThis => false,
    }
}
