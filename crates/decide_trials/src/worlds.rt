//! All networks and states over the elements of a frame.
use crate::frame::Frame;
use crate::subsets::{subset, subset_count};
use crate::trouble::{Trouble, put};
use csdn_core::program::Program;
use csdn_core::terms::Sort;
use net_structs::cells::Cells;
use net_structs::network::{Elements, Network};
use net_structs::read::NetParts;
use net_structs::row::Row;
use net_structs::state::State;
use sqlite_items::Items;
use std::alloc::{AllocError, Global};

/// All networks: with each value of each constant, and each set of tuples in the static relations.
pub fn networks(alloc: Global, program: &Program, frame: &Frame) -> Result<Vec<Network>, Trouble> {
    let rows = frame.fixed_rows(alloc, program)?;
    let sorts = constant_sorts(alloc, program)?;
    let mut networks = Vec::new(alloc);
    for values in &frame.tuples(alloc, &sorts)? {
        push_networks(alloc, &mut networks, program, frame, values, &rows)?;
    }
    Ok(networks)
}

fn constant_sorts(alloc: Global, program: &Program) -> Result<Vec<Sort>, AllocError> {
    let mut sorts = Vec::new(alloc);
    for constant in program.parts().constants.as_slice() {
        sorts.push(constant.sort)?;
    }
    Ok(sorts)
}

fn push_networks(
    alloc: Global,
    networks: &mut Vec<Network>,
    program: &Program,
    frame: &Frame,
    values: &Cells,
    rows: &[Row],
) -> Result<(), Trouble> {
    for number in 0..subset_count(rows) {
        let parts = NetParts {
            sw: copied(alloc, &frame.switches)?,
            ho: copied(alloc, &frame.hosts)?,
            pr: copied(alloc, &frame.ports)?,
            consts: Items::from_slice(alloc, values.as_slice())?,
            rows: subset(alloc, rows, number)?,
        };
        let network = Network::try_new(alloc, program, parts)?;
        put(networks, network)?;
    }
    Ok(())
}

fn copied(alloc: Global, elements: &Elements) -> Result<Elements, AllocError> {
    Items::from_slice(alloc, elements.as_slice())
}

/// All states: with each set of tuples in the relations of the program, in `ft` and in `sent`.
pub fn states(alloc: Global, program: &Program, frame: &Frame) -> Result<Vec<State>, AllocError> {
    let rows = frame.state_rows(alloc, program)?;
    let mut states = Vec::new(alloc);
    for number in 0..subset_count(&rows) {
        states.push(state_of(alloc, program, &rows, number)?)?;
    }
    Ok(states)
}

fn state_of(
    alloc: Global,
    program: &Program,
    rows: &[Row],
    number: u32,
) -> Result<State, AllocError> {
    let chosen = subset(alloc, rows, number)?;
    let mut state = State::try_empty(alloc, program)?;
    for row in chosen.as_slice() {
        state.insert(row.pred, &row.cells)?;
    }
    Ok(state)
}
