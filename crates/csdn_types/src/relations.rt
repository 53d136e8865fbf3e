//! Relations and their initial rows.
#![tactic(auto, using(crate::proofs::First::first_steps))]

ghost use Rattle.std.specs.Prelude.{◌≡◌, ◌≤◌, ◌<◌, ◌+◌, ◌++◌, OnOk, length, map};
ghost use Rattle.csdn_types.specs.Answers.{Answers};
ghost use Rattle.csdn_types.specs.Typed.{terms_of};
ghost use Rattle.csdn_types.specs.Items.{row_faults, rows_faults, relation_item_faults, row_of, rows_of, name_faults};
ghost use Rattle.csdn_types.specs.Scope.{with_relation};

use crate::refusal::SortRefusal;
use crate::scope::Scope;
use crate::terms::terms;
use csdn_core::program::StartRow;
use csdn_core::terms::{RelId, Sort, Terms};
use csdn_tree::syntax::{RawRelation, RawRow};
use sqlite_items::Items;
use std::alloc::Global;

/// A row, before which so many came.
fn row(scope: &Scope, sorts: &[Sort], count: usize, raw: &RawRow) -> Result<Terms, SortRefusal>
    requires { length sorts.now ≤ 5 }
    ensures { Answers (row_faults scope.now sorts.now count raw.now) (terms_of scope.now raw.now.terms) result }
{
    let at = raw.at;
    if raw.terms.len() != sorts.len() {
        return Err(SortRefusal::WrongArity { at });
    }
    if 1024 <= count {
        return Err(SortRefusal::TooMany { at });
    }
    let made = terms(scope, sorts, raw.terms.as_slice())?;
    Ok(made)
}

fn rows(
    alloc: Global,
    scope: &Scope,
    rel: RelId,
    sorts: &[Sort],
    raw: &[RawRow],
) -> Result<Items<StartRow>, SortRefusal>
    requires { length sorts.now ≤ 5 }
    ensures { Answers (rows_faults scope.now sorts.now 0 raw.now) (map (row_of scope.now rel) raw.now) result }
{
    let mut done = Items::new(alloc);
    for (i, each) in raw.iter().enumerate() {
        let terms = row(scope, sorts, i, each)?;
        done.push(StartRow { rel, terms })?;
    }
    Ok(done)
}

/// A relation that may be declared.
fn new_relation(scope: &Scope, raw: &RawRelation) -> Result<RelId, SortRefusal>
    ensures { Answers (name_faults scope.now raw.now) (record { 0 = length scope.now.relations }) result }
{
    let at = raw.name.at;
    if scope.is_relation(raw.name.text.as_slice()) {
        return Err(SortRefusal::Duplicate { at });
    }
    if 5 < raw.sorts.len() {
        return Err(SortRefusal::WrongArity { at });
    }
    if 64 <= scope.relation_count() {
        return Err(SortRefusal::TooMany { at });
    }
    Ok(RelId(scope.relation_count() as u32))
}

/// Declares a relation, and gives its initial rows. Refused is the first rule that is broken, at its byte
/// (docs/LANGUAGE.md, "Names, sorts and limits").
pub fn relation(
    alloc: Global,
    scope: &mut Scope,
    raw: &RawRelation,
) -> Result<Items<StartRow>, SortRefusal>
    ensures answers { Answers (relation_item_faults scope.old raw.now) (rows_of scope.old raw.now) result }
    ensures scope { OnOk result (scope.new ≡ with_relation scope.old raw.now) }
{
    let id = new_relation(scope, raw)?;
    let made = rows(alloc, scope, id, raw.sorts.as_slice(), raw.rows.as_slice())?;
    scope.declare(alloc, raw)?;
    Ok(made)
}
