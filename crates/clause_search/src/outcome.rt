//! What a search comes to: a model, or a log that refutes the clauses.

use clause_log::{Log, Valuation};

/// What a search answers.
#[derive(Drop)]
pub enum Outcome {
    /// This valuation makes every clause true.
    Model(Valuation),
    /// This log is accepted, so none does.
    Refuted(Log),
}
