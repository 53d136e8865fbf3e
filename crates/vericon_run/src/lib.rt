//! `run`: a program that is accepted is served to the switches that come.
//!
//! `specs/Runs.antt` says what a run leaves, `specs/Outputs.antt` what it prints, and `specs/Accepted.antt` what is served.
#![tactic(auto)]

mod asking;
pub mod call;
mod order;
mod prepared;
mod preparing;
pub mod process;
mod ran;
mod serving;

pub use call::run_call;
pub use ran::Ran;
pub use serving::serve_accepted;
