//! What is said of a network: the truth of a program's invariants in it, and why a network text is refused.
//!
//! `specs/Listings.antt` fixes each byte, and `specs/Falses.antt` says which invariant is the first that is false.
#![tactic(auto)]

mod falses;
mod listing;
mod refusal_line;

pub use falses::{first_false, first_false_topology};
pub use listing::{list_invariants, safety_of, trans_of};
pub use refusal_line::network_refusal_line;
