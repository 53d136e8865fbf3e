//! Programs, item by item.
#![tactic(auto, using(crate::proofs::First::first_steps))]

ghost use Rattle.std.specs.Prelude.{◌≡◌, ◌≤◌, ◌<◌, ◌+◌, ◌++◌, OnOk, Some, length};
ghost use Rattle.csdn_types.specs.Answers.{Answers};
ghost use Rattle.csdn_types.specs.Programs.{Passes, item_faults, with_item, items_faults, with_items, constant_faults, invariant_faults, timeout_faults, with_invariant, place_of as place_there};
ghost use Rattle.csdn_tree.specs.Binders.{item_binders, items_binders};
ghost use Rattle.csdn_tree.specs.Binders.{binders};
ghost use Rattle.csdn_types.specs.Faults.{faults};
ghost use Rattle.csdn_types.specs.Scope.{with_constant};
ghost use Rattle.csdn_core.specs.Sorted.{most_numbers};

use crate::formulas::formula;
use crate::handlers::handler;
use crate::names::Names;
use crate::refusal::SortRefusal;
use crate::relations::relation;
use crate::scope::Scope;
use csdn_core::program::{Handler, Invariant, Parts, StartRow};
use csdn_core::terms::{FormulaPlace, Sort};
use csdn_tree::names::RawName;
use csdn_tree::syntax::{InvariantKind, RawFormula, RawItem, RawTimeout};
use sqlite_items::Items;
use std::alloc::Global;
use std::marker::Model;

/// The items so far. `invariants` are the names of all three kinds.
pub struct ProgramDraft {
    pub scope: Scope,
    pub invariants: Names,
    pub start: Items<StartRow>,
    pub topology: Items<Invariant>,
    pub safety: Items<Invariant>,
    pub trans: Items<Invariant>,
    pub handlers: Items<Handler>,
    /// In seconds; `None` where none is declared.
    pub timeout: Option<u16>,
}

impl Drop for ProgramDraft {
    fn drop(self) {
        let ProgramDraft {
            scope: _scope,
            invariants: _invariants,
            start: _start,
            topology: _topology,
            safety: _safety,
            trans: _trans,
            handlers: _handlers,
            timeout: _,
        } = self;
    }
}

impl ProgramDraft {
    ghost use Rattle.csdn_types.specs.Resolved.{parts_of_draft};
    ghost use Rattle.std.specs.Prelude.{◌≡◌};

    /// The parts that the items make, with these numerals.
    pub fn into_parts(self, numerals: Items<u16>) -> Parts
        ensures { result ≡ parts_of_draft numerals self }
    {
        let ProgramDraft {
            scope,
            invariants: _,
            start,
            topology,
            safety,
            trans,
            handlers,
            timeout,
        } = self;
        let declared = scope.into_declared();
        Parts {
            relations: declared.relations,
            constants: declared.constants,
            start,
            topology,
            safety,
            trans,
            handlers,
            numerals,
            timeout,
        }
    }
}

impl Model for ProgramDraft {
    ghost use Rattle.csdn_types.specs.Programs.{ProgramDraft as Seen};
    ghost use Rattle.csdn_core.specs.contracts.syntax.Formula as formula;
    ghost use Rattle.csdn_core.specs.contracts.syntax.Command as command;
    ghost use Rattle.std.specs.Coded.{codes};

    ghost Value = { Seen };

    ghost coded = { Prim.hlevel (codes, formula.the_row.coded, command.the_row.coded) };

    ghost view = { λ d. record { scope = d.scope; invariants = d.invariants; start = d.start; topology = d.topology; safety = d.safety; trans = d.trans; handlers = d.handlers; timeout = d.timeout } };
}

fn place(kind: InvariantKind) -> FormulaPlace
    ensures { result ≡ place_there kind }
{
    match kind {
        InvariantKind::Topology => FormulaPlace::Topology,
        InvariantKind::Safety => FormulaPlace::Safety,
        InvariantKind::Trans => FormulaPlace::Trans,
    }
}

fn constant(alloc: Global, scope: &mut Scope, name: &RawName, sort: Sort) -> Result<(), SortRefusal>
    ensures passes { Passes (constant_faults scope.old name.now) result }
    ensures scope { OnOk result (scope.new ≡ with_constant scope.old name.now sort) }
{
    let at = name.at;
    if scope.is_constant(name.text.as_slice()) {
        return Err(SortRefusal::Duplicate { at });
    }
    if 64 <= scope.constant_count() {
        return Err(SortRefusal::TooMany { at });
    }
    scope.declare_constant(alloc, name, sort)?;
    Ok(())
}

fn invariant(
    alloc: Global,
    draft: &mut ProgramDraft,
    kind: InvariantKind,
    name: &RawName,
    raw: &RawFormula,
) -> Result<(), SortRefusal>
    requires { draft.old.scope.next + binders raw.now ≤ most_numbers }
    ensures passes { Passes (invariant_faults draft.old name.now ++ faults (place_there kind) draft.old.scope raw.now) result }
    ensures draft { OnOk result (draft.new ≡ with_invariant draft.old kind name.now raw.now) }
{
    let at = name.at;
    if draft.invariants.place(name.text.as_slice()).is_some() {
        return Err(SortRefusal::Duplicate { at });
    }
    if 64 <= draft.invariants.len() {
        return Err(SortRefusal::TooMany { at });
    }
    let made = formula(alloc, &mut draft.scope, place(kind), raw)?;
    draft.invariants.add(name.text.as_slice())?;
    let text = Items::from_slice(alloc, name.text.as_slice())?;
    let made = Invariant {
        name: text,
        formula: made,
    };
    match kind {
        InvariantKind::Topology => draft.topology.push(made)?,
        InvariantKind::Safety => draft.safety.push(made)?,
        InvariantKind::Trans => draft.trans.push(made)?,
    }
    Ok(())
}

/// The one timeout of a program.
fn timeout(draft: &mut ProgramDraft, raw: &RawTimeout) -> Result<(), SortRefusal>
    ensures passes { Passes (timeout_faults draft.old raw.now) result }
    ensures draft { OnOk result (draft.new ≡ record draft.old { timeout = Some raw.now.seconds }) }
{
    if draft.timeout.is_some() {
        return Err(SortRefusal::Duplicate { at: raw.at });
    }
    draft.timeout = Some(raw.seconds);
    Ok(())
}

/// Takes one more item. Refused is the first rule that is broken, at its byte (docs/LANGUAGE.md, "Names, sorts and
/// limits").
pub fn item(alloc: Global, draft: &mut ProgramDraft, raw: &RawItem) -> Result<(), SortRefusal>
    requires { draft.old.scope.next + item_binders raw.now ≤ most_numbers }
    ensures passes { Passes (item_faults draft.old raw.now) result }
    ensures draft { OnOk result (draft.new ≡ with_item draft.old raw.now) }
{
    match raw {
        RawItem::Relation(raw) => {
            let rows = relation(alloc, &mut draft.scope, raw)?;
            draft.start.append(rows)?;
            Ok(())
        }
        RawItem::Constant(name, sort) => {
            constant(alloc, &mut draft.scope, name, *sort)?;
            Ok(())
        }
        RawItem::Invariant(kind, name, raw) => {
            invariant(alloc, draft, *kind, name, raw)?;
            Ok(())
        }
        RawItem::Handler(raw) => {
            let count = draft.handlers.len();
            let made = handler(alloc, &mut draft.scope, count, raw)?;
            draft.handlers.push(made)?;
            Ok(())
        }
        RawItem::Timeout(raw) => {
            timeout(draft, raw)?;
            Ok(())
        }
    }
}

/// Takes all items, one after another. Refused is the first rule that is broken, at its byte (docs/LANGUAGE.md, "Names,
/// sorts and limits").
pub fn items(alloc: Global, draft: &mut ProgramDraft, raw: &[RawItem]) -> Result<(), SortRefusal>
    requires { draft.old.scope.next + items_binders raw.now ≤ most_numbers }
    ensures passes { Passes (items_faults draft.old raw.now) result }
    ensures draft { OnOk result (draft.new ≡ with_items draft.old raw.now) }
{
    for each in raw {
        item(alloc, draft, each)?;
    }
    Ok(())
}
