//! The words of a call: which command they name, its options with their values, and its operands.
//!
//! A command is a row of one table, `COMMANDS`: its name, its options and what its operands are. One reader
//! serves every row, in this way. Words are compared byte by byte. Behind the command's name stand its
//! options, in any order, each at most once and with its value as the next word, whatever that word spells;
//! then its operands. Where an option or the first operand may stand, a word that spells an option of the
//! command is that option. All other words are the call of no command.
#![tactic(auto)]

mod kinds;
mod options;
mod read;
pub mod request;
pub mod table;

pub use read::{read_call, request_but_run, run_request};
