//! Entries and the replies to them, worked by hand from docs/DEFINITIONS.md.
#![tactic(auto)]

#[cfg(test)]
mod tests;
