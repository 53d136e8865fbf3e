//! The conditions of a level.
#![tactic(auto)]

ghost use Rattle.std.specs.Prelude.{◌≡◌, ◌<◌, ◌≤◌, length};
ghost use Rattle.csdn_core.specs.Tree.{conjunction};
ghost use Rattle.fol_forms.specs.Limits.{most_nodes};
ghost use Rattle.csdn_wp.specs.Makes.{Makes};
ghost use Rattle.csdn_conditions.specs.Kinds.{kinds, IsWithin};
ghost use Rattle.csdn_conditions.specs.Start.{start as start_of};
ghost use Rattle.csdn_conditions.specs.Conditions.{topology as topology_of, safe_for, hypothesis as hypothesis_of, conclusion as conclusion_of, after_event as after_event_of, after_events as after_events_of};
ghost use Rattle.csdn_conditions.specs.Answers.{Answers, OfCondition};

use crate::after::{after_event, after_events, all_after, both};
use crate::kinds::{CondKind, EventKind, condition_kind};
use crate::sentence::Condition;
use crate::start::start;
use csdn_core::program::Program;
use csdn_core::syntax::Formula;
use csdn_wp::build::fitting;
use fol_forms::count::{node_count, sum};
use fol_forms::refusal::{FormRefusal, MOST_NODES, or_memory};
use std::alloc::Global;

/// The condition of this number. `Large` exactly where its sentence has more than 1,048,576 nodes; no part of it that has
/// more is made.
pub fn condition(
    alloc: Global,
    program: &Program,
    level: u8,
    index: u32,
) -> Result<Condition, FormRefusal>
    requires level { level ≤ 9 }
    requires index { index < length (kinds program.now level) }
    ensures { OfCondition program.now level index (λ c. Answers c result) }
{
    let kind = condition_kind(program, level, index);
    let hypothesis = hypothesis(alloc, program, level, kind)?;
    let goal = conclusion(alloc, program, level, kind)?;
    let nodes = sum(node_count(&hypothesis), node_count(&goal));
    if sum(nodes, 2) > MOST_NODES {
        return Err(FormRefusal::Large);
    }
    Ok(Condition {
        kind,
        hypothesis,
        goal,
    })
}

fn hypothesis(
    alloc: Global,
    program: &Program,
    level: u8,
    kind: CondKind,
) -> Result<Formula, FormRefusal>
    requires { level ≤ 9 }
    ensures { Makes most_nodes (hypothesis_of program.now level kind) result }
{
    match kind {
        CondKind::Network => topology(alloc, program),
        CondKind::Init { k: _, v: _ } => at_the_start(alloc, program),
        CondKind::Step { v: _, event: _ } => when_safe(alloc, program, level),
        CondKind::Trans { t: _, event: _ } => when_safe(alloc, program, level),
    }
}

fn topology(alloc: Global, program: &Program) -> Result<Formula, FormRefusal>
    ensures { Makes most_nodes (topology_of program.now) result }
{
    let parts = program.parts();
    all_after(alloc, program, 0, parts.topology.as_slice())
}

fn at_the_start(alloc: Global, program: &Program) -> Result<Formula, FormRefusal>
    ensures { Makes most_nodes (conjunction (topology_of program.now) (start_of program.now)) result }
{
    let topology = topology(alloc, program)?;
    let start = small_start(alloc, program)?;
    both(alloc, topology, start)
}

fn when_safe(alloc: Global, program: &Program, level: u8) -> Result<Formula, FormRefusal>
    requires { level ≤ 9 }
    ensures { Makes most_nodes (conjunction (topology_of program.now) (safe_for program.now level)) result }
{
    let parts = program.parts();
    let topology = topology(alloc, program)?;
    let safe = all_after(alloc, program, level, parts.safety.as_slice())?;
    both(alloc, topology, safe)
}

fn small_start(alloc: Global, program: &Program) -> Result<Formula, FormRefusal>
    ensures { Makes most_nodes (start_of program.now) result }
{
    fitting(or_memory(start(alloc, program))?, MOST_NODES)
}

fn conclusion(
    alloc: Global,
    program: &Program,
    level: u8,
    kind: CondKind,
) -> Result<Formula, FormRefusal>
    requires { IsWithin level (length program.now.safety) (length program.now.trans) kind }
    ensures { Makes most_nodes (conclusion_of program.now level kind) result }
{
    let parts = program.parts();
    let safety = parts.safety.as_slice();
    let trans = parts.trans.as_slice();
    match kind {
        CondKind::Network => Ok(Formula::False),
        CondKind::Init { k, v } => after_events(alloc, program, k, &safety[v as usize].formula),
        CondKind::Step { v, event } => {
            after_all(alloc, program, level, event, &safety[v as usize].formula)
        }
        CondKind::Trans { t, event } => {
            after_event(alloc, program, event, &trans[t as usize].formula)
        }
    }
}

// After so many events, and then one of the kind.
fn after_all(
    alloc: Global,
    program: &Program,
    level: u8,
    event: EventKind,
    formula: &Formula,
) -> Result<Formula, FormRefusal>
    ensures { Makes most_nodes (after_event_of program.now event (after_events_of program.now level formula.now)) result }
{
    let after = after_events(alloc, program, level, formula)?;
    after_event(alloc, program, event, &after)
}
