//! What comes first in bytes.

ghost use Rattle.std.specs.Prelude.{IfOk};
ghost use Rattle.of10_stream.specs.Fronts.{IsFront, IsReadAs};

use crate::tail::Tail;
use of10_msgs::{Message, decode};
use of10_wire::{Opening, WireRefusal, WireWhy, opening_of};
use std::alloc::{AllocError, Global};

/// What comes first in bytes.
#[derive(Drop)]
pub enum Front {
    /// A message, and how many bytes its frame has.
    Message(Message, usize),
    /// No message: the bytes are the tail.
    Tail(Tail),
}

/// The message that a frame is, or why it is none. A want of memory is told apart from a refusal here alone.
pub fn read_frame(alloc: Global, frame: &[u8]) -> Result<Result<Message, WireRefusal>, AllocError>
    ensures { IfOk result (IsReadAs frame.now) }
{
    match decode(alloc, frame) {
        Ok(message) => Ok(Ok(message)),
        Err(refusal) if refusal.why == WireWhy::Memory => Err(AllocError),
        Err(refusal) => Ok(Err(refusal)),
    }
}

/// What comes first: a message, or the tail that all bytes are.
pub fn read_front(alloc: Global, bytes: &[u8]) -> Result<Front, AllocError>
    ensures { IfOk result (IsFront bytes.now) }
{
    match opening_of(bytes) {
        Opening::Wants(_) => Ok(Front::Tail(Tail::Cut(bytes.len()))),
        Opening::Refused(refusal) => Ok(Front::Tail(Tail::Broken(refusal))),
        Opening::Frame(len) => match read_frame(alloc, &bytes[..len])? {
            Ok(message) => Ok(Front::Message(message, len)),
            Err(refusal) => Ok(Front::Tail(Tail::Broken(refusal))),
        },
    }
}
