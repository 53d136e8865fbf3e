//! Programs as texts, and what is answered of each, worked by hand from docs/DEFINITIONS.md.
#![tactic(auto)]

#[cfg(test)]
mod tests;
