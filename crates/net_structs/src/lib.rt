//! Networks of a program, their states, and the truth of formulas in them.
//!
//! `specs/Rows.antt` says what a list of tuples holds, `specs/Networks.antt` what a network is read from, and
//! `specs/Refusals.antt` which part is refused first. The definitions of networks, states and truth are `csdn_core`'s.
#![tactic(auto)]

pub mod case;
pub mod cells;
pub mod env;
pub mod laws;
pub mod network;
pub mod read;
pub mod row;
pub mod state;
#[cfg(test)]
mod tests;
pub mod truth;
pub mod view;
