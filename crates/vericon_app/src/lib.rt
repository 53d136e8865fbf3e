//! The commands: from words and files to lines and a status.
//!
//! Each command is a function from files to its whole output and status. One function writes it. What a
//! command may print is one relation between its words, what its reads answered, what it wrote to a file, its text and
//! its status (`specs/`, docs/DEFINITIONS.md); `check_call` promises it for every byte and every status, of answers and a
//! write that the files explain.
#![tactic(auto)]

pub mod call;
pub mod check;
mod clauses;
mod conditions;
mod eval;
mod frames;
mod make;
pub mod numbers;
mod replay;
mod show;
mod trace;
