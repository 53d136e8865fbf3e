//! Networks and states of valuations that make the clauses of a sentence true.
//!
//! [`making::network_of`] makes them: their elements are the classes of equal constants. `specs/` says what they are, on the
//! definitions of decision_laws.
#![tactic(auto)]

mod classes;
mod judgement;
pub mod making;
mod numbers;
mod ports;
mod sides;
mod tuples;
mod values;
