//! What is said of one session of a journal, over the bytes that its switch sent.
//!
//! `specs/Replays.antt` fixes each byte; session_asks says how a history answers a session's asks.
#![tactic(auto)]

mod hex;
mod journal;
mod lines;
mod listing;
mod refusals;

pub use listing::{Ending, Replay, list_replay, replays_have_one_text};
pub use refusals::{Refusal, Refused, first_refused, list_refused};
