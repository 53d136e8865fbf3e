//! The clauses of a sentence: copies of it over finitely many constants, and what equality asks of these.
//!
//! [`making::ground`] makes them. `specs/` says what they are, on the definitions of decision_laws.
#![tactic(auto)]

pub mod bases;
pub mod constants;
pub mod equality;
pub mod exchange;
pub mod facts;
pub mod making;
pub mod name_places;
pub mod places;
pub mod room;
pub mod rows;
pub mod sentence;
pub mod simplify;
pub mod walk;
pub mod weights;
