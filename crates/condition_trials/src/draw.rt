//! States drawn at random.
use crate::trouble::Trouble;
use crate::world::World;
use csdn_core::program::Sorts;
use csdn_core::terms::{FLOW_SORTS, Pred, RelId, Sort};
use net_structs::cells::Cells;
use net_structs::state::State;
use rand::RngExt;
use rand_pcg::Pcg32;
use std::alloc::Global;

/// How many tuples are drawn for a state; some are drawn twice.
const TUPLES: u32 = 8;

/// A state with up to eight tuples.
pub fn draw_state(alloc: Global, world: &World, draws: &mut Pcg32) -> Result<State, Trouble> {
    let mut state = State::try_empty(alloc, &world.program)?;
    let relations = world.program.parts().relations.as_slice();
    for _ in 0..TUPLES {
        let drawn = draws.random_range(0..relations.len() + 2);
        match relations.get(drawn) {
            Some(relation) => {
                let cells = draw_cells(relation.sorts.as_slice(), draws);
                state.insert(Pred::Stored(RelId(drawn as u32)), &cells)?;
            }
            None if drawn == relations.len() => {
                state.insert(Pred::Ft, &draw_cells(&FLOW_SORTS, draws))?;
            }
            None => {
                state.insert(Pred::Sent, &draw_cells(&FLOW_SORTS, draws))?;
            }
        }
    }
    Ok(state)
}

/// Elements of these sorts.
fn draw_cells(sorts: &[Sort], draws: &mut Pcg32) -> Cells {
    let mut cells = Cells::new();
    for sort in sorts {
        // no relation has more than five
        if cells.as_slice().len() < 5 {
            cells.push(draw_element(*sort, draws));
        }
    }
    cells
}

/// An element of a sort: the one switch, or one of the two hosts or ports.
fn draw_element(sort: Sort, draws: &mut Pcg32) -> u64 {
    match sort {
        Sort::Sw => 1,
        Sort::Ho | Sort::Pr => draws.random_range(1..=2),
    }
}
