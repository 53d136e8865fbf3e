//! One session over a link, from its greeting to its end, whatever answers its asks.
//!
//! `specs/Said.antt` says what was taken, said and written, and why the session ended.
#![tactic(auto)]

mod ends;
mod pieces;
mod talking;

pub use ends::{Ended, SessionEnd};
pub use talking::speak_over;
