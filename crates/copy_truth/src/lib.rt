//! What copies of a sentence's parts are, where facts are what is said of them. No copy is made.
//!
//! [`judging::judge`] judges the copies of a tree. `specs/` says what they are, on the definitions of decision_laws.
#![tactic(auto)]

pub mod binders;
pub mod breaking;
pub mod candidates;
pub mod facts;
pub mod judging;
pub mod literals;
pub mod misses;
pub mod needing;
pub mod opened;
pub mod reading;
pub mod rows;
pub mod searching;
pub mod tuples;
