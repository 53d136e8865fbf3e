//! OpenFlow 1.0 messages as bytes, both ways: [`decode`] accepts exactly the spellings of messages and refuses all
//! else by the first rule that the bytes break; [`encode`] appends a message's spelling.
#![tactic(auto)]

mod decoding;
mod laws;
mod lengths;
mod message;
mod reading;
mod writing;

pub use decoding::decode;
pub use laws::{again, one_reading, refusal_named};
pub use message::Message;
pub use writing::{encode, is_sendable};

#[cfg(test)]
mod rows;
#[cfg(test)]
mod tests;
