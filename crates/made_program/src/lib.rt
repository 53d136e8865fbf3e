//! Writes programs of any size that are inductive as they stand.
//!
//! `text_of` writes the text of the made program of a count: that many relations on hosts, an invariant for each but the first, that
//! the hosts in it are in the one before it, and a handler that puts the sender into all of them (docs/FORMATS.md, "Made programs").
#![tactic(auto)]

mod examples;
mod lines;
mod text;

pub use examples::made_texts;
pub use text::text_of;

#[cfg(test)]
mod tests;
