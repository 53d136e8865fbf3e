//! Whole outputs and statuses of the commands, worked by hand from their documents.
#![tactic(auto)]

#[cfg(test)]
mod tests;
