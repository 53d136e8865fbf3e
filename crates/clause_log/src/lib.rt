//! Clauses, logs of their refutation, and the exact checker of such logs.
#![tactic(auto)]

mod assignment;
mod checker;
mod clauses;
mod lit;
mod log;
mod rows;
mod valuation;

pub use checker::{MOST_HINT, accepts, clause_at};
pub use clauses::Clauses;
pub use lit::Lit;
pub use log::Log;
pub use valuation::Valuation;
