//! Execution of commands.
#![tactic(auto, using(csdn_core::proofs::NodeSteps::command_node_steps, crate::specs::CourseSteps::course_steps, csdn_core::proofs::DepthSteps::command_depth_steps))]

ghost use Rattle.std.specs.Prelude.{◌≡◌, ◌<◌, ◌≤◌, ◌+◌, ℕ, length, OnOk};
ghost use Rattle.std.specs.List.Sorted.{IsStrictlyIncreasing};
ghost use Rattle.csdn_core.specs.declared.terms.Sort.TheVariants.{Pr as Ports};
ghost use Rattle.csdn_core.specs.declared.terms.Pred.TheVariants.{Sent as SentPred};
ghost use Rattle.csdn_core.specs.Truth.{with_var};
ghost use Rattle.csdn_core.specs.Network.{elements as elements_of};
ghost use Rattle.csdn_core.specs.Execution.{is_true as is_true_in, put, flooded, tuple};
ghost use Rattle.net_structs.specs.Binds.{assignment};
ghost use Rattle.csdn_core.specs.Depth.{depth, command_depth};
ghost use Rattle.csdn_step.specs.Courses.{drafted, executed, flooded_on, forwarded, installed, sent_to, uninstalled, with_state};
ghost use Rattle.csdn_step.specs.Least.{first_of, least};
ghost use Rattle.csdn_step.specs.Drafts.{standing, start_of};

use crate::draft::StateDraft;
use crate::sends::flood;
use crate::setting::{Sending, Setting, cells_of, is_true, is_true_of};
use crate::tallies::{list_match, list_out, list_port};
use csdn_core::event::{Out, Tally};
use csdn_core::syntax::{Command, Formula};
use csdn_core::terms::{Pred, Sort, Terms, VarId};
use net_structs::cells::Cells;
use net_structs::env::Env;
use std::alloc::AllocError;

// The first of these elements for which a formula is true.
#[tactic(auto)]
fn first_true(
    setting: &Setting,
    draft: &StateDraft,
    env: &mut Env,
    elements: &[u64],
    var: VarId,
    formula: &Formula,
) -> Option<u64>
    requires { length env.old.pairs + (depth formula.now + 1) ≤ env.old.room }
    ensures first { result ≡ first_of (λ m. is_true_in setting.now.program.now setting.now.network.now formula.now (with_var (assignment env.old.pairs) var m) (standing draft.now)) elements.now }
    ensures same { env.new ≡ env.old }
{
    let mut rest = elements;
    'elements: while let [element, more @ ..] = rest {
        if is_true_of(setting, draft, env, var, *element, formula) {
            return Some(*element);
        }
        rest = more;
    }
    None
}

// The least element of a sort for which a formula is true.
#[tactic(auto)]
fn least_true(
    setting: &Setting,
    draft: &StateDraft,
    env: &mut Env,
    var: VarId,
    sort: Sort,
    formula: &Formula,
) -> Option<u64>
    requires { length env.old.pairs + (depth formula.now + 1) ≤ env.old.room }
    ensures least { result ≡ least (λ m. is_true_in setting.now.program.now setting.now.network.now formula.now (with_var (assignment env.old.pairs) var m) (standing draft.now)) (elements_of setting.now.network.now sort) }
    ensures same { env.new ≡ env.old }
{
    let elements = setting.network.elements(sort);
    first_true(setting, draft, env, elements, var, formula)
}

#[tactic(auto)]
fn install(draft: &mut StateDraft, tally: &mut Tally, cells: &Cells) -> Result<(), AllocError>
    ensures done { OnOk result (drafted draft.new tally.new ≡ installed (drafted draft.old tally.old) cells.now) }
    ensures start { start_of draft.new ≡ start_of draft.old }
{
    let is_new = draft.insert(Pred::Ft, cells)?;
    if is_new {
        list_match(&mut tally.changed, cells)?;
    }
    Ok(())
}

#[tactic(auto)]
fn uninstall(draft: &mut StateDraft, tally: &mut Tally, cells: &Cells) -> Result<(), AllocError>
    ensures done { OnOk result (drafted draft.new tally.new ≡ uninstalled (drafted draft.old tally.old) cells.now) }
    ensures start { start_of draft.new ≡ start_of draft.old }
{
    let was_there = draft.remove(Pred::Ft, cells)?;
    if was_there {
        list_match(&mut tally.changed, cells)?;
    }
    Ok(())
}

// Sends a packet, where packets are kept.
#[tactic(auto)]
fn send(setting: &Setting, draft: &mut StateDraft, cells: &Cells) -> Result<(), AllocError>
    ensures sent { OnOk result (standing draft.new ≡ sent_to setting.now.sending (standing draft.old) (put (standing draft.old) SentPred cells.now)) }
    ensures start { start_of draft.new ≡ start_of draft.old }
{
    match setting.sending {
        Sending::Kept => {
            draft.insert(Pred::Sent, cells)?;
            Ok(())
        }
        Sending::Left => Ok(()),
    }
}

#[tactic(auto)]
fn send_all(setting: &Setting, draft: &mut StateDraft, cells: &Cells) -> Result<(), AllocError>
    ensures sent { OnOk result (standing draft.new ≡ sent_to setting.now.sending (standing draft.old) (flooded (standing draft.old) (elements_of setting.now.network.now Ports) cells.now)) }
    ensures start { start_of draft.new ≡ start_of draft.old }
{
    match setting.sending {
        Sending::Kept => flood(draft, setting.network.elements(Sort::Pr), cells),
        Sending::Left => Ok(()),
    }
}

#[tactic(auto)]
fn forward(
    setting: &Setting,
    draft: &mut StateDraft,
    tally: &mut Tally,
    cells: &Cells,
) -> Result<(), AllocError>
    ensures done { OnOk result (drafted draft.new tally.new ≡ forwarded setting.now.sending (drafted draft.old tally.old) cells.now) }
    ensures start { start_of draft.new ≡ start_of draft.old }
{
    send(setting, draft, cells)?;
    list_port(&mut tally.outs, cells)
}

#[tactic(auto)]
fn flood_out(
    setting: &Setting,
    draft: &mut StateDraft,
    tally: &mut Tally,
    cells: &Cells,
) -> Result<(), AllocError>
    ensures done { OnOk result (drafted draft.new tally.new ≡ flooded_on setting.now.sending (elements_of setting.now.network.now Ports) (drafted draft.old tally.old) cells.now) }
    ensures start { start_of draft.new ≡ start_of draft.old }
{
    send_all(setting, draft, cells)?;
    list_out(&mut tally.outs, Out::Flood)
}

/// Executes a command, with the least element at each `pick`. `env` says what its free variables stand for, has room for
/// those that it binds at once, and is left as it was. Where memory runs out, `draft` still leads back to the start.
#[cycle(execute)]
pub fn execute(
    setting: &Setting,
    draft: &mut StateDraft,
    tally: &mut Tally,
    env: &mut Env,
    command: &Command,
) -> Result<(), AllocError>
    requires { length env.old.pairs + command_depth command.now ≤ env.old.room }
    ensures done { OnOk result (drafted draft.new tally.new ≡ executed setting.now.program.now setting.now.network.now setting.now.sending command.now (assignment env.old.pairs) (drafted draft.old tally.old)) }
    ensures start { start_of draft.new ≡ start_of draft.old }
    ensures same { env.new ≡ env.old }
{
    match command {
        Command::Skip => Ok(()),
        Command::Seq(a, b) => {
            execute(setting, draft, tally, env, a.get())?;
            execute(setting, draft, tally, env, b.get())
        }
        Command::If(p, a, b) => {
            if is_true(setting, draft, env, p.get()) {
                execute(setting, draft, tally, env, a.get())
            } else {
                execute(setting, draft, tally, env, b.get())
            }
        }
        Command::Pick(var, sort, p, a, b) => {
            match least_true(setting, draft, env, *var, *sort, p.get()) {
                Some(element) => {
                    execute_with(setting, draft, tally, env, *var, element, a.get())
                }
                None => execute(setting, draft, tally, env, b.get()),
            }
        }
        Command::Insert(rel, terms) => {
            let cells = cells_of(setting, draft, env, terms);
            draft.insert(Pred::Stored(*rel), &cells)?;
            Ok(())
        }
        Command::Remove(rel, terms) => {
            let cells = cells_of(setting, draft, env, terms);
            draft.remove(Pred::Stored(*rel), &cells)?;
            Ok(())
        }
        Command::Install(terms) => {
            let cells = cells_of(setting, draft, env, terms);
            install(draft, tally, &cells)
        }
        Command::Uninstall(terms) => {
            let cells = cells_of(setting, draft, env, terms);
            uninstall(draft, tally, &cells)
        }
        Command::Forward(terms) => {
            let cells = cells_of(setting, draft, env, terms);
            forward(setting, draft, tally, &cells)
        }
        Command::Flood(terms) => {
            let cells = cells_of(setting, draft, env, terms);
            flood_out(setting, draft, tally, &cells)
        }
    }
}

#[cycle(execute)]
fn execute_with(
    setting: &Setting,
    draft: &mut StateDraft,
    tally: &mut Tally,
    env: &mut Env,
    var: VarId,
    element: u64,
    command: &Command,
) -> Result<(), AllocError>
    requires { length env.old.pairs + (command_depth command.now + 1) ≤ env.old.room }
    ensures done { OnOk result (drafted draft.new tally.new ≡ executed setting.now.program.now setting.now.network.now setting.now.sending command.now (with_var (assignment env.old.pairs) var element) (drafted draft.old tally.old)) }
    ensures start { start_of draft.new ≡ start_of draft.old }
    ensures same { env.new ≡ env.old }
{
    env.push(var, element);
    let done = execute(setting, draft, tally, env, command);
    env.pop();
    done
}
