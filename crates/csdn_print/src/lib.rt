//! Prints programs in one form.
//!
//! `print` writes a tree as text: one item a line, commands two spaces deeper in each block, and no parentheses but those
//! that the levels ask for (docs/FORMATS.md, "Printed programs"). What it writes reads as the tree again, places aside.
#![tactic(auto)]

mod commands;
mod forms;
mod formulas;
mod items;
mod program;
mod words;

pub use program::print;

#[cfg(test)]
mod tests;
