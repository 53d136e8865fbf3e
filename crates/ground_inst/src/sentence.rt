//! A sentence and its clauses.
use crate::facts::Facts;
use clause_log::Clauses;
use csdn_core::syntax::Formula;

/// A sentence, its facts, and its clauses. The numbers of its facts and, after them, the conjunctions and disjunctions of its
/// copies in their order name the atoms of the clauses.
#[derive(Drop)]
pub struct Ground {
    pub sentence: Formula,
    pub facts: Facts,
    pub clauses: Clauses,
}
