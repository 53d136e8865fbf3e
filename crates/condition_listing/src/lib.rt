//! What is said of the conditions of a program: their classes, and whether one of them is true in a network and a state.
//!
//! `specs/Listings.antt` and `specs/Judgements.antt` fix each byte.
#![tactic(auto)]

mod judgement;
mod listing;
mod words;

pub use judgement::{Judgement, judge};
pub use listing::list_conditions;
pub use words::put_kind;
