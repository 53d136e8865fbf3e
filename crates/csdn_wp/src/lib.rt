//! Weakest preconditions of commands and events.
//!
//! A weakest precondition of a formula is true exactly where every execution of the command, or every event of its kind, ends
//! where the formula is true.
#![tactic(auto)]

pub mod build;
pub mod commands;
pub mod events;
mod guards;
pub mod laws;
mod members;
pub(crate) mod vars;
