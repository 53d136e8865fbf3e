//! Texts of logs: blocks of clauses, each with or without a log of their refutation.
//!
//! docs/FORMATS.md gives the format. `specs/Words.antt` says what a line's words mean, and
//! `specs/LogText.antt` the order of lines and the spelling of blocks.
#![tactic(auto)]

mod block;
mod distinct;
mod laws;
mod print;
mod read;
mod words;

pub use block::{Block, Blocks, Text};
pub use laws::logs_read_back;
pub use print::{print_log, put_next_literal, put_steps};
pub use read::read_log;
