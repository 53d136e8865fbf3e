//! The conditions of a program: what has to be valid for the program to be inductive at a level.
//!
//! `specs/` says what each condition is; [`condition`](condition::condition) makes one of them.
#![tactic(auto)]

pub(crate) mod after;
pub mod class;
pub mod condition;
pub mod kinds;
pub mod laws;
pub(crate) mod lists;
pub mod sentence;
pub(crate) mod start;
