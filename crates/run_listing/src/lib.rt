//! What is printed of a run: a line for each session, the journal, and whether the listener failed.
//!
//! `specs/Lines.antt` says which lines.
#![tactic(auto)]

mod lines;
mod listing;

pub use listing::list_run;
