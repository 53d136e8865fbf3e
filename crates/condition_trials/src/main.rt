//! Trials of the conditions of level 0: over one switch, two hosts and two ports, in states drawn at random, the goal of each
//! condition is true exactly where its invariant is true after each event that may happen.
#![tactic(auto)]

mod depth;
mod draw;
mod events;
mod programs;
mod trial;
mod trouble;
mod world;

use crate::draw::draw_state;
use crate::programs::PROGRAMS;
use crate::trial::{is_goal_true, is_invariant_kept};
use crate::trouble::Trouble;
use crate::world::World;
use csdn_conditions::kinds::{condition_count, condition_kind};
use net_structs::state::State;
use rand_pcg::Pcg32;
use std::alloc::Global;
use std::io;

/// How many states are drawn for each program.
const STATES: u32 = 60;

/// The first condition of a program whose goal is not what firing says, in a state.
fn difference_in(alloc: Global, world: &World, state: &State) -> Result<Option<u32>, Trouble> {
    for index in 0..condition_count(&world.program, 0) {
        let kind = condition_kind(&world.program, 0, index);
        if is_goal_true(alloc, world, state, index)?
            != is_invariant_kept(alloc, world, state, kind)?
        {
            return Ok(Some(index));
        }
    }
    Ok(None)
}

/// The first condition of a program whose goal is not what firing says, in some of the states that are drawn.
fn difference(alloc: Global, text: &[u8]) -> Result<Option<u32>, Trouble> {
    let world = World::read(alloc, text)?;
    let mut draws = Pcg32::new(2_026, 12);
    for _ in 0..STATES {
        let state = draw_state(alloc, &world, &mut draws)?;
        let differs = difference_in(alloc, &world, &state)?;
        if differs.is_some() {
            return Ok(differs);
        }
    }
    Ok(None)
}

fn main(rt: HostRuntime) -> io::Result<()> {
    for text in &PROGRAMS {
        match difference(rt.alloc(), text.as_bytes()) {
            Ok(None) => println!(rt; "agrees: {text}")?,
            Ok(Some(index)) => println!(rt; "condition {index} differs: {text}")?,
            Err(trouble) => println!(rt; "{trouble}: {text}")?,
        }
    }
    Ok(())
}
