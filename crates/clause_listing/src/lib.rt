//! What the blocks of a log text come to: whether their logs are accepted, and for clauses without a log a model
//! or the steps of a refutation.
//!
//! `specs/Answers.antt` says what is said of a block, and `specs/Listings.antt` of a text.
#![tactic(auto)]

mod laws;
mod listing;
mod named;
mod print;

pub use laws::answers_are_accepted;
pub use listing::{Listing, list_clauses};
