//! What is said of the answers to programs: the line of a yes and its log, the text of a counterexample, and the lines of a
//! condition that is not decided and of a program without a network.
//!
//! `specs/Words.antt`, `specs/Counterexamples.antt` and `specs/Logs.antt` fix each byte that the proofs of an answer leave open.
#![tactic(auto)]

mod counterexample;
mod log;
mod words;

pub use counterexample::counterexample_of;
pub use log::log_of;
pub use words::{no_network_line, unproven_line, yes_line};
