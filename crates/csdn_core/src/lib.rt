//! Programs of CSDN and what they mean: sorts, terms, formulas, commands, programs and events, with the definitions
//! of truth, execution, runs and induction in `specs/`, from which every crate that speaks of programs takes them.
#![tactic(auto)]

mod copies;
pub mod event;
pub mod laws;
pub mod names;
pub mod program;
pub mod run_laws;
pub mod syntax;
pub mod terms;
