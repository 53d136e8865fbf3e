//! Tests of logs, from their texts to the checker's verdict and the answers to clauses.
#![tactic(auto)]

#[cfg(test)]
mod answers;
#[cfg(test)]
mod tests;
