//! Sessions over streams that are worked by hand from the layouts of OpenFlow Switch Specification 1.0.0 and the table of
//! `of10_session/specs/Sessions.antt`. Replies are written down in scripts.
#![tactic(auto)]

mod bytewise;
mod replies;
mod scripts;

pub use bytewise::speak_bytewise;
pub use replies::{Change, Sending, Step, reply_of};
pub use scripts::Script;

#[cfg(test)]
mod hex;
#[cfg(test)]
mod phases;
#[cfg(test)]
mod pieces;
#[cfg(test)]
mod streams;
