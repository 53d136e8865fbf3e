//! The listing of a stream.

ghost use Rattle.std.specs.Prelude.{ℕ, Bool, List, ◌≡◌, IfOk};
ghost use Rattle.of10_stream.specs.Fronts.{IsFront};
ghost use Rattle.of10_listing.specs.Listings.{IsListing, IsFirst, is_whole};

use crate::lines::{Line, put_message_line, put_tail_line};
use of10_stream::{Front, Tail, read_front};
use std::alloc::{AllocError, Global};

/// The listing of a stream.
#[derive(Debug, Drop)]
pub struct Listing {
    /// A line for each message, and one for what is left, where there is something.
    pub text: Vec<u8>,
    /// Whether the bytes are whole messages alone.
    pub is_whole: bool,
}

/// What is told of the first message, or the tail.
fn line_of(front: &Front) -> Result<Line, Tail>
    ensures { (bytes : List ℕ) → IsFront bytes front.now → IsFirst bytes result }
{
    match front {
        Front::Message(message, length) => Ok(Line {
            kind: message.kind(),
            length: *length,
            xid: message.xid(),
        }),
        Front::Tail(tail) => Err(*tail),
    }
}

/// What is told of the first message, or the tail that all bytes are.
fn first_line(alloc: Global, bytes: &[u8]) -> Result<Result<Line, Tail>, AllocError>
    ensures { IfOk result (IsFirst bytes.now) }
{
    let front = read_front(alloc, bytes)?;
    Ok(line_of(&front))
}

/// Whether nothing is left.
fn is_whole(tail: Tail) -> bool
    ensures { result ≡ is_whole tail }
{
    match tail {
        Tail::Cut(length) => length == 0,
        Tail::Broken(_) => false,
    }
}

/// Lists the stream that these bytes are: a line for each message, and one for what is left (docs/COMMANDS.md,
/// "frames").
pub fn list_frames(alloc: Global, bytes: &[u8]) -> Result<Listing, AllocError>
    ensures { IfOk result (λ listed. IsListing bytes.now listed.text.items listed.is_whole) }
{
    let mut text = Vec::new(alloc);
    let mut at = 0;
    let mut rest = bytes;
    'frames: loop {
        match first_line(alloc, rest)? {
            Ok(line) => {
                put_message_line(&mut text, at, line)?;
                at += line.length;
                rest = &rest[line.length..];
            }
            Err(tail) => {
                put_tail_line(&mut text, at, tail)?;
                return Ok(Listing {
                    text,
                    is_whole: is_whole(tail),
                });
            }
        }
    }
}

/// A law: bytes have one listing.
pub fn listings_have_one_text()
    ensures { (bytes t u : List ℕ) (v w : Bool) → IsListing bytes t v → IsListing bytes u w → (t ≡ u) × (v ≡ w) }
{}
