//! One session served over a link, with a seat of a hall for its asks.
//!
//! `specs/Servings.antt` says what a served session did.
#![tactic(auto)]

mod serving;

pub use link_sessions::{Ended, SessionEnd};
pub use serving::serve;
