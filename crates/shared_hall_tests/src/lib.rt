//! Seats on threads: each is told what the history says that the hall leaves.
#![tactic(auto)]

#[cfg(test)]
mod tests;
