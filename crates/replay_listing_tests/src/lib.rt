//! Sessions of journals over streams that are worked by hand from docs/OPENFLOW.md and docs/DEFINITIONS.md.
#![tactic(auto)]

#[cfg(test)]
mod tests;
