//! A plain search for networks that meet the topology invariants, and for a case of some condition.
use crate::depth::binds_at_most;
use crate::frame::{Frame, Size};
use crate::trouble::{Trouble, put};
use crate::worlds::{networks, states};
use csdn_conditions::condition::condition;
use csdn_conditions::kinds::condition_count;
use csdn_conditions::sentence::Condition;
use csdn_core::event::Packet;
use csdn_core::program::Program;
use csdn_core::syntax::Formula;
use net_structs::case::Case;
use net_structs::env::Env;
use net_structs::network::Network;
use net_structs::state::State;
use net_structs::truth::truth;
use std::alloc::Global;

/// The most variables that a formula may bind at once.
const ROOM: usize = 64;

const SIZES: [Size; 8] = [
    Size {
        switches: 1,
        hosts: 1,
        ports: 1,
    },
    Size {
        switches: 1,
        hosts: 1,
        ports: 2,
    },
    Size {
        switches: 1,
        hosts: 2,
        ports: 1,
    },
    Size {
        switches: 1,
        hosts: 2,
        ports: 2,
    },
    Size {
        switches: 2,
        hosts: 1,
        ports: 1,
    },
    Size {
        switches: 2,
        hosts: 1,
        ports: 2,
    },
    Size {
        switches: 2,
        hosts: 2,
        ports: 1,
    },
    Size {
        switches: 2,
        hosts: 2,
        ports: 2,
    },
];

/// What the search came to.
#[derive(Clone, Copy, Debug, PartialEq, Eq)]
pub struct Found {
    /// How many of the networks meet the topology invariants.
    pub networks: u32,
    /// How many states of these were looked at, up to the first case.
    pub states: u32,
    /// Whether the last of them is a case of some condition.
    pub has_case: bool,
}

/// A network of a program, and a state of it.
#[derive(Drop)]
struct World<'a> {
    program: &'a Program,
    network: &'a Network,
    state: &'a State,
}

/// Searches all networks of at most two switches, hosts and ports, and all their states.
pub fn search(alloc: Global, program: &Program) -> Result<Found, Trouble> {
    let topology = condition(alloc, program, 0, 0)?;
    let conditions = later_conditions(alloc, program)?;
    let mut found = Found {
        networks: 0,
        states: 0,
        has_case: false,
    };
    for size in &SIZES {
        if let Some(frame) = Frame::of(alloc, program, *size)? {
            search_frame(alloc, program, &frame, &topology, &conditions, &mut found)?;
        }
    }
    Ok(found)
}

/// Whether a case breaks the condition of this number of level 0, in a network that meets the topology invariants.
pub fn breaks(alloc: Global, program: &Program, index: u32, case: &Case) -> Result<bool, Trouble> {
    if index >= condition_count(program, 0) {
        return Ok(false);
    }
    let Some(state) = &case.state else {
        return Ok(false);
    };
    let world = World {
        program,
        network: &case.network,
        state,
    };
    let topology = condition(alloc, program, 0, 0)?;
    if !is_case(alloc, &world, &topology)? {
        return Ok(false);
    }
    let broken = condition(alloc, program, 0, index)?;
    is_case(alloc, &world, &broken)
}

/// The conditions of level 0 but the network condition.
fn later_conditions(alloc: Global, program: &Program) -> Result<Vec<Condition>, Trouble> {
    let mut conditions = Vec::new(alloc);
    for index in 1..condition_count(program, 0) {
        let condition = condition(alloc, program, 0, index)?;
        put(&mut conditions, condition)?;
    }
    Ok(conditions)
}

fn search_frame(
    alloc: Global,
    program: &Program,
    frame: &Frame,
    topology: &Condition,
    conditions: &[Condition],
    found: &mut Found,
) -> Result<(), Trouble> {
    let empty = State::try_empty(alloc, program)?;
    let states = states(alloc, program, frame)?;
    for network in &networks(alloc, program, frame)? {
        let world = World {
            program,
            network,
            state: &empty,
        };
        // the goal of the network condition is false, so that a case of it is a network that meets its hypothesis
        if is_case(alloc, &world, topology)? {
            found.networks = found.networks.saturating_add(1);
            search_network(alloc, program, network, &states, conditions, found)?;
        }
    }
    Ok(())
}

fn search_network(
    alloc: Global,
    program: &Program,
    network: &Network,
    states: &[State],
    conditions: &[Condition],
    found: &mut Found,
) -> Result<(), Trouble> {
    for state in states {
        if found.has_case {
            return Ok(());
        }
        let world = World {
            program,
            network,
            state,
        };
        found.states = found.states.saturating_add(1);
        found.has_case = is_some_case(alloc, &world, conditions)?;
    }
    Ok(())
}

/// Whether it is a case of one of the conditions.
fn is_some_case(alloc: Global, world: &World, conditions: &[Condition]) -> Result<bool, Trouble> {
    for condition in conditions {
        if is_case(alloc, world, condition)? {
            return Ok(true);
        }
    }
    Ok(false)
}

/// Whether the hypothesis is true there, and the goal false.
fn is_case(alloc: Global, world: &World, condition: &Condition) -> Result<bool, Trouble> {
    if !is_true(alloc, world, &condition.hypothesis)? {
        return Ok(false);
    }
    Ok(!is_true(alloc, world, &condition.goal)?)
}

/// Whether a formula without free variables is true.
fn is_true(alloc: Global, world: &World, formula: &Formula) -> Result<bool, Trouble> {
    if !binds_at_most(formula, ROOM) {
        return Err(Trouble::Deep);
    }
    let mut env = Env::try_new(alloc, ROOM)?;
    Ok(truth(
        world.program,
        world.network,
        world.state,
        &Packet::Nothing,
        &mut env,
        formula,
    ))
}
