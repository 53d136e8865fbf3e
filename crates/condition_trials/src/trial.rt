//! What a condition's goal says, and what firing says.
ghost use Rattle.std.specs.Prelude.{◌<◌, length};
ghost use Rattle.csdn_conditions.specs.Kinds.{kinds};

use crate::events::all_events;
use crate::trouble::Trouble;
use crate::world::World;
use csdn_conditions::condition::condition;
use csdn_conditions::kinds::{CondKind, EventKind};
use csdn_core::event::Packet;
use csdn_core::program::Invariant;
use csdn_core::syntax::Formula;
use net_structs::state::State;
use std::alloc::Global;

/// Whether the goal of a condition is true in a state.
pub fn is_goal_true(
    alloc: Global,
    world: &World,
    state: &State,
    index: u32,
) -> Result<bool, Trouble>
    requires { index < length (kinds world.now.program 0) }
{
    let condition = condition(alloc, &world.program, 0, index)?;
    world.is_true(alloc, state, &Packet::Nothing, &condition.goal)
}

/// Whether the invariant of a condition is true in the state, or after each event of its kind that may happen there.
pub fn is_invariant_kept(
    alloc: Global,
    world: &World,
    state: &State,
    kind: CondKind,
) -> Result<bool, Trouble> {
    let parts = world.program.parts();
    match kind {
        CondKind::Network => Ok(false),
        CondKind::Init { v, .. } => match parts.safety.get(v as usize) {
            Some(invariant) => world.is_true(alloc, state, &Packet::Nothing, &invariant.formula),
            None => Ok(true),
        },
        CondKind::Step { v, event } => {
            is_true_after_all(alloc, world, state, event, parts.safety.get(v as usize))
        }
        CondKind::Trans { t, event } => {
            is_true_after_all(alloc, world, state, event, parts.trans.get(t as usize))
        }
    }
}

/// Whether an invariant is true after each event of a kind that may happen in a state.
fn is_true_after_all(
    alloc: Global,
    world: &World,
    state: &State,
    kind: EventKind,
    invariant: Option<&Invariant>,
) -> Result<bool, Trouble> {
    let Some(invariant) = invariant else {
        return Ok(true);
    };
    for event in &all_events(alloc, kind)? {
        if !world.is_true_after(alloc, state, event, &invariant.formula)? {
            return Ok(false);
        }
    }
    Ok(true)
}
