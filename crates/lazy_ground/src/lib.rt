//! The clauses of a sentence that are asked for: some of them at first, and then those that a valuation breaks.
//!
//! [`starting::ground_start`] makes the first ones, and [`adding::add_broken`] adds more. `specs/` says what they are, on the
//! definitions of decision_laws.
#![tactic(auto)]

pub mod adding;
mod collecting;
mod equalities;
mod exchanges;
mod joining;
mod looking;
pub mod naming;
mod opening;
mod picking;
mod reading;
pub mod sentence;
pub mod starting;
mod values;
