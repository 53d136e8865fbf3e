//! Programs as texts, the lines of their conditions and the truth of these in networks, worked by hand from
//! docs/DEFINITIONS.md.
#![tactic(auto)]

#[cfg(test)]
mod tests;
