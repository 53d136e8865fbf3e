//! The laws on which each yes and each counterexample of the decision rests.
//!
//! A sentence is decided over finitely many constants: copies of it, judgements of their atoms and equations, clauses.
//! The definitions stand in `specs/`; [`laws`] connects them with the truth of the sentence in networks and states, as
//! contracts of functions that do nothing.
//! `docs/DEFINITIONS.md` says the definitions in words, with an example.
#![tactic(auto)]

pub mod laws;
