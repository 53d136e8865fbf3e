//! Names, sorts and limits: from the tree of a text to the program that it stands for (docs/LANGUAGE.md, "Names, sorts and
//! limits").
//!
//! `resolve` is the one call for others. The rules are in `specs/`: `Faults`, `Commands`, `Items` and `Programs` list every
//! rule that a tree breaks, in the order of the text, and `Resolved` says what is answered.
#![tactic(auto)]

mod atoms;
mod commands;
mod draft;
mod formulas;
mod handlers;
pub mod laws;
mod names;
mod numerals;
mod own;
pub mod refusal;
mod relations;
pub mod resolve;
mod scope;
mod terms;
