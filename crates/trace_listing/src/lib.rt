//! What is said of a journal: each of its notes happens, in order, from a state, and the invariants are looked at.
//!
//! `specs/Traces.antt` fixes each byte.
#![tactic(auto)]

mod invariants;
mod laws;
mod notes;
mod progress;
mod trace;

pub use laws::{traces_are_runs, traces_have_one_text};
pub use trace::{Ending, Trace, list_trace};
