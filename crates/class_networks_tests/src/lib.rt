//! Programs as texts, and the networks and states in which their conditions are broken, worked by hand from
//! docs/DEFINITIONS.md.
#![tactic(auto)]

#[cfg(test)]
mod tests;
