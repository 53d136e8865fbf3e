//! Sentences whose clauses are worked by hand.
#![tactic(auto)]

#[cfg(test)]
mod tests;
