//! The conditions of programs, each decided in two ways: by all clauses of its sentence, and by those that are asked for.
#![tactic(auto)]

#[cfg(test)]
mod tests;
