//! The asks of a session as entries of a history: the entry that an ask makes, and how a history answers a session's asks.
#![tactic(auto)]

mod asks;

pub use asks::{ask_of, entry_of, is_declared_ask, is_same, session_of};
