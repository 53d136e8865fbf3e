//! What is true where a formula is true after events.
#![tactic(auto)]

ghost use Rattle.std.specs.Prelude.{◌≡◌, ◌≤◌, ◌+◌, ◌++◌, [], ◌∷◌, OnOk, map};
ghost use Rattle.csdn_core.specs.Tree.{conjunction};
ghost use Rattle.fol_forms.specs.Limits.{most_nodes};
ghost use Rattle.csdn_wp.specs.EventPreconditions.{wp_flow as wp_flow_of, wp_expire as wp_expire_of};
ghost use Rattle.csdn_wp.specs.Makes.{Makes};
ghost use Rattle.csdn_conditions.specs.Lists.{conjunction_of};
ghost use Rattle.csdn_conditions.specs.Conditions.{formulas, after_event as after_event_of, after_rules as after_rules_of, after_any as after_any_of, after_events as after_events_of, all_after as all_after_of};
ghost use Rattle.csdn_conditions.specs.Answers.{TakesRoom};

use crate::kinds::EventKind;
use crate::lists::{Formulas, Join, joined};
use csdn_core::program::{Invariant, Program};
use csdn_core::syntax::Formula;
use csdn_wp::events::{wp_expire, wp_flow, wp_in};
use fol_forms::count::{node_count, sum_and_one};
use fol_forms::refusal::{FormRefusal, MOST_NODES, or_memory};
use std::alloc::{AllocError, Global};

/// What is true where the formula is true after every event of the kind. `Large` exactly where that has more than 1,048,576
/// nodes.
pub fn after_event(
    alloc: Global,
    program: &Program,
    event: EventKind,
    formula: &Formula,
) -> Result<Formula, FormRefusal>
    ensures { Makes most_nodes (after_event_of program.now event formula.now) result }
{
    match event {
        EventKind::PktIn => wp_in(alloc, program, formula),
        EventKind::PktFlow => wp_flow(alloc, formula),
        EventKind::Expire => wp_expire(alloc, formula),
    }
}

/// What is true where the formula is true after every run of so many events. `Large` exactly where that has more than
/// 1,048,576 nodes.
pub fn after_events(
    alloc: Global,
    program: &Program,
    count: u8,
    formula: &Formula,
) -> Result<Formula, FormRefusal>
    ensures { Makes most_nodes (after_events_of program.now count formula.now) result }
{
    if count == 0 {
        return copy_of(alloc, formula);
    }
    let before = after_events(alloc, program, count - 1, formula)?;
    after_any(alloc, program, &before)
}

// After every event of the program.
fn after_any(alloc: Global, program: &Program, formula: &Formula) -> Result<Formula, FormRefusal>
    ensures { Makes most_nodes (after_any_of program.now formula.now) result }
{
    let packet = wp_in(alloc, program, formula)?;
    let later = after_rules(alloc, program, formula)?;
    both(alloc, packet, later)
}

// After every event of flow rules.
fn after_rules(alloc: Global, program: &Program, formula: &Formula) -> Result<Formula, FormRefusal>
    ensures { Makes most_nodes (after_rules_of program.now formula.now) result }
{
    if program.parts().timeout.is_none() {
        return wp_flow(alloc, formula);
    }
    after_flow_and_expiry(alloc, formula)
}

fn after_flow_and_expiry(alloc: Global, formula: &Formula) -> Result<Formula, FormRefusal>
    ensures { Makes most_nodes (conjunction (wp_flow_of formula.now) (wp_expire_of formula.now)) result }
{
    let flow = wp_flow(alloc, formula)?;
    let expire = wp_expire(alloc, formula)?;
    both(alloc, flow, expire)
}

fn copy_of(alloc: Global, formula: &Formula) -> Result<Formula, FormRefusal>
    ensures { Makes most_nodes formula.now result }
{
    if node_count(formula) > MOST_NODES {
        return Err(FormRefusal::Large);
    }
    or_memory(formula.copy(alloc))
}

/// The conjunction of two formulas. `Large` exactly where it has more than 1,048,576 nodes.
pub fn both(alloc: Global, p: Formula, q: Formula) -> Result<Formula, FormRefusal>
    ensures { Makes most_nodes (conjunction p q) result }
{
    if sum_and_one(node_count(&p), node_count(&q)) > MOST_NODES {
        return Err(FormRefusal::Large);
    }
    or_memory(Join::And.two(alloc, p, q))
}

/// The conjunction of the invariants' formulas after no event, after one, and so on to so many events. `Large` exactly
/// where that has more than 1,048,576 nodes.
pub fn all_after(
    alloc: Global,
    program: &Program,
    level: u8,
    invariants: &[Invariant],
) -> Result<Formula, FormRefusal>
    requires { level ≤ 9 }
    ensures { Makes most_nodes (conjunction_of (all_after_of program.now level (formulas invariants.now))) result }
{
    let mut members = Formulas::new(alloc);
    let _left = push_all(
        alloc,
        program,
        level,
        invariants,
        &mut members,
        MOST_NODES + 1,
    )?;
    or_memory(joined(alloc, Join::And, members))
}

// In the room for so many nodes, one of which joins a formula to the next; what they leave of it.
fn push_all(
    alloc: Global,
    program: &Program,
    level: u8,
    invariants: &[Invariant],
    members: &mut Formulas,
    room: u64,
) -> Result<u64, FormRefusal>
    requires level { level ≤ 9 }
    requires room { room ≤ most_nodes + 1 }
    ensures added { OnOk result (members.new ≡ members.old ++ all_after_of program.now level (formulas invariants.now)) }
    ensures left { TakesRoom room (all_after_of program.now level (formulas invariants.now)) result }
{
    let mut left = room;
    let mut count = 0;
    'levels: while count <= level {
        left = push_each(alloc, program, count, invariants, members, left)?;
        count += 1;
    }
    Ok(left)
}

// Each after so many events.
fn push_each(
    alloc: Global,
    program: &Program,
    count: u8,
    invariants: &[Invariant],
    members: &mut Formulas,
    room: u64,
) -> Result<u64, FormRefusal>
    requires { room ≤ most_nodes + 1 }
    ensures added { OnOk result (members.new ≡ members.old ++ map (after_events_of program.now count) (formulas invariants.now)) }
    ensures left { TakesRoom room (map (after_events_of program.now count) (formulas invariants.now)) result }
{
    let mut left = room;
    let mut rest = invariants;
    'invariants: while let [invariant, more @ ..] = rest {
        left = push_one(alloc, program, count, &invariant.formula, members, left)?;
        rest = more;
    }
    Ok(left)
}

fn push_one(
    alloc: Global,
    program: &Program,
    count: u8,
    formula: &Formula,
    members: &mut Formulas,
    room: u64,
) -> Result<u64, FormRefusal>
    requires { room ≤ most_nodes + 1 }
    ensures added { OnOk result (members.new ≡ members.old ++ after_events_of program.now count formula.now ∷ []) }
    ensures left { TakesRoom room (after_events_of program.now count formula.now ∷ []) result }
{
    let made = after_events(alloc, program, count, formula)?;
    let nodes = node_count(&made);
    if nodes >= room {
        return Err(FormRefusal::Large);
    }
    match members.push(made) {
        Ok(()) => Ok(room - nodes - 1),
        Err(AllocError) => Err(FormRefusal::Memory),
    }
}
