//! Verdicts on conditions, and what is answered of a program.
//!
//! [`verdict::decide_condition`] decides one condition by its clauses, and [`answer::decide`] the conditions of a program.
//! `specs/` says what their answers mean.
#![tactic(auto)]

pub mod answer;
mod findings;
pub mod laws;
mod levels;
mod solving;
pub mod verdict;
