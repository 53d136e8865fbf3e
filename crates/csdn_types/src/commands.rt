//! Commands of handlers.
#![tactic(auto, using(crate::proofs::First::first_steps, crate::specs::CommandSteps::command_steps, csdn_tree::specs::NodeSteps::raw_node_steps, csdn_tree::specs::BinderSteps::binder_steps))]

ghost use Rattle.std.specs.Prelude.{◌≡◌, ◌≤◌, ◌<◌, ◌+◌, ◌++◌, OnOk};
ghost use Rattle.csdn_core.specs.declared.terms.FormulaPlace.TheVariants.{Handler as InHandler};
ghost use Rattle.csdn_types.specs.Answers.{Answers};
ghost use Rattle.csdn_types.specs.Faults.{faults, variable_faults};
ghost use Rattle.csdn_types.specs.Typed.{typed, next_var};
ghost use Rattle.csdn_tree.specs.Binders.{binders};
ghost use Rattle.csdn_types.specs.Commands as spec;
ghost use Rattle.csdn_types.specs.Commands.{command_faults, command_typed, later};
ghost use Rattle.csdn_tree.specs.Binders.{command_binders};
ghost use Rattle.csdn_types.specs.Scope.{bound};
ghost use Rattle.csdn_core.specs.Sorted.{most_numbers};

use crate::atoms::bind;
use crate::formulas::formula;
use crate::own::{OwnTerms, flood, switch_terms};
use crate::refusal::SortRefusal;
use crate::scope::Scope;
use crate::terms::{Use, used};
use csdn_core::syntax::{Command, Formula};
use csdn_core::terms::{FormulaPlace, RelId, Sort, Terms, VarId};
use csdn_tree::names::RawName;
use csdn_tree::syntax::{ChangeWord, RawCommand, RawFormula, SwitchWord};
use sqlite_items::Boxed;
use std::alloc::Global;

/// The variable, the condition and the first block of a `pick`.
#[derive(Drop)]
pub struct Picked {
    pub var: VarId,
    pub condition: Boxed<Formula>,
    pub body: Boxed<Command>,
}

/// A condition.
fn condition(
    alloc: Global,
    scope: &mut Scope,
    raw: &RawFormula,
) -> Result<Boxed<Formula>, SortRefusal>
    requires { scope.old.next + binders raw.now ≤ most_numbers }
    ensures answers { Answers (faults InHandler scope.old raw.now) (typed scope.old raw.now) result }
    ensures scope { OnOk result (scope.new ≡ later scope.old (binders raw.now)) }
{
    let made = formula(alloc, scope, FormulaPlace::Handler, raw)?;
    let made = Boxed::new(alloc, made)?;
    Ok(made)
}

/// A change of a relation.
fn changed(word: ChangeWord, id: RelId, terms: Terms) -> Command
    ensures { result ≡ spec.changed word id terms }
{
    match word {
        ChangeWord::Insert => Command::Insert(id, terms),
        ChangeWord::Remove => Command::Remove(id, terms),
    }
}

/// What the switch does.
fn switched(word: SwitchWord, terms: Terms) -> Command
    ensures { result ≡ spec.switched word terms }
{
    match word {
        SwitchWord::Install => Command::Install(terms),
        SwitchWord::Uninstall => Command::Uninstall(terms),
        SwitchWord::Forward => Command::Forward(terms),
    }
}

/// The command that a tree stands for, in a handler whose own packet is `own`; each bound variable gets the next
/// number. Refused is the first rule that is broken, at its byte (docs/LANGUAGE.md, "Names, sorts and limits").
#[cycle(command)]
pub fn command(
    alloc: Global,
    scope: &mut Scope,
    own: &OwnTerms,
    raw: &RawCommand,
) -> Result<Command, SortRefusal>
    requires { scope.old.next + command_binders raw.now ≤ most_numbers }
    ensures answers { Answers (command_faults own.now scope.old raw.now) (command_typed scope.old raw.now) result }
    ensures scope { OnOk result (scope.new ≡ later scope.old (command_binders raw.now)) }
{
    match raw {
        RawCommand::Skip => Ok(Command::Skip),
        RawCommand::Seq(a, b) => {
            let a = boxed(alloc, scope, own, a.get())?;
            let b = boxed(alloc, scope, own, b.get())?;
            Ok(Command::Seq(a, b))
        }
        RawCommand::If(p, a, b) => {
            let p = condition(alloc, scope, p.get())?;
            let a = boxed(alloc, scope, own, a.get())?;
            let b = boxed(alloc, scope, own, b.get())?;
            Ok(Command::If(p, a, b))
        }
        RawCommand::Pick(name, sort, p, a, b) => {
            let part = pick_from(alloc, scope, own, name, *sort, p.get(), a.get())?;
            let b = boxed(alloc, scope, own, b.get())?;
            Ok(Command::Pick(part.var, *sort, part.condition, part.body, b))
        }
        RawCommand::Change(word, name, terms) => {
            let atom = used(scope, Use::Write, name, terms.as_slice())?;
            Ok(changed(*word, atom.id, atom.terms))
        }
        RawCommand::Switch(word, raw) => {
            let terms = switch_terms(scope, own, *word, raw)?;
            Ok(switched(*word, terms))
        }
        RawCommand::Flood(raw) => {
            let terms = flood(scope, own, raw)?;
            Ok(Command::Flood(terms))
        }
    }
}

#[cycle(command)]
fn boxed(
    alloc: Global,
    scope: &mut Scope,
    own: &OwnTerms,
    raw: &RawCommand,
) -> Result<Boxed<Command>, SortRefusal>
    requires { scope.old.next + command_binders raw.now ≤ most_numbers }
    ensures answers { Answers (command_faults own.now scope.old raw.now) (command_typed scope.old raw.now) result }
    ensures scope { OnOk result (scope.new ≡ later scope.old (command_binders raw.now)) }
{
    let made = command(alloc, scope, own, raw)?;
    let made = Boxed::new(alloc, made)?;
    Ok(made)
}

/// A `pick` up to its first block.
#[cycle(command)]
fn pick_from(
    alloc: Global,
    scope: &mut Scope,
    own: &OwnTerms,
    name: &RawName,
    sort: Sort,
    raw: &RawFormula,
    body: &RawCommand,
) -> Result<Picked, SortRefusal>
    requires { scope.old.next + ((1 + binders raw.now) + command_binders body.now) ≤ most_numbers }
    ensures answers { let inside = bound scope.old name.now sort in
        Answers
        (variable_faults scope.old name.now ++ (faults InHandler inside raw.now ++ command_faults own.now (later inside (binders raw.now)) body.now))
        (record { var = next_var scope.old; condition = typed inside raw.now; body = command_typed (later inside (binders raw.now)) body.now })
        result }
    ensures scope { OnOk result (scope.new ≡ later scope.old ((1 + binders raw.now) + command_binders body.now)) }
{
    let var = bind(alloc, scope, name, sort)?;
    let condition = condition(alloc, scope, raw)?;
    let body = boxed(alloc, scope, own, body)?;
    scope.leave();
    Ok(Picked {
        var,
        condition,
        body,
    })
}
