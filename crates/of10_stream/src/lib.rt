//! Streams of OpenFlow 1.0: byte lists as messages, one after another, and a tail.
//!
//! A header of 8 bytes says how many bytes its frame has. [`read_front`] takes what comes first in bytes: a message, or the
//! tail behind the last message. Each byte list is one stream ([`one_stream`]). A [`Framer`] makes frames of pieces, however the
//! stream is cut into them ([`any_cutting`]).
#![tactic(auto)]

mod framer;
mod front;
mod laws;
mod tail;

pub use framer::{Fed, FrameRefusal, Framer};
pub use front::{Front, read_frame, read_front};
pub use laws::{any_cutting, one_stream};
pub use tail::Tail;

#[cfg(test)]
mod tests;
