//! What a header shows before its frame is whole.

ghost use Rattle.std.specs.Prelude.{ℕ, ◌≡◌, ◌<◌, ◌≤◌, ◌^◌, length};
ghost use Rattle.of10_wire.specs.declared.rules.Opening.TheVariants.{Wants, Frame};
ghost use Rattle.of10_wire.specs.Headers.{header_refusal, opening_of};

use crate::message_type;
use crate::parts::FixedPart;
use crate::refusal::{WireRefusal, WireWhy};
use crate::types::Header;

/// Why the header in the first 8 bytes is refused, if it is: by its version, its type, or a length
/// below 8. Whoever cuts a stream into frames asks this as soon as 8 bytes of a frame are there.
#[tactic(auto, unfolding(crate::specs::Layout::Stand, crate::specs::Headers::header_refusal))]
pub fn header_refusal(bytes: &[u8]) -> Option<WireRefusal>
    requires { 8 ≤ length bytes.now }
    ensures { result ≡ header_refusal bytes.now }
{
    let header = Header::read(bytes);
    let (at, why) = if header.version != 1 && header.kind != message_type::HELLO {
        (0, WireWhy::BadVersion)
    } else if header.kind > message_type::QUEUE_GET_CONFIG_REPLY {
        (1, WireWhy::BadType)
    } else if header.length < 8 {
        (2, WireWhy::BadLength)
    } else {
        return None;
    };
    Some(WireRefusal { at, why })
}

/// What bytes show of the frame that they begin with, before its body is looked at.
#[derive(Clone, Copy, Debug, PartialEq, Eq)]
pub enum Opening {
    /// There are fewer bytes than so many, which are needed before more can be said.
    Wants(usize),
    /// A frame of so many bytes is whole. Of its body nothing is judged.
    Frame(usize),
    /// The header is refused by its own rules.
    Refused(WireRefusal),
}

/// What the bytes show of the frame that they begin with.
#[tactic(auto, unfolding(crate::specs::Layout::Stand, crate::specs::Headers::opening_of))]
pub fn opening_of(bytes: &[u8]) -> Opening
    ensures opening { result ≡ opening_of bytes.now }
    ensures short { (n : ℕ) → result ≡ Wants n → n < 2 ^ 16 }
    ensures whole { (n : ℕ) → result ≡ Frame n → (8 ≤ n) × (n ≤ length bytes.now) × (n < 2 ^ 16) }
{
    if bytes.len() < 8 {
        return Opening::Wants(8);
    }
    if let Some(refusal) = header_refusal(bytes) {
        return Opening::Refused(refusal);
    }
    let len = usize::from(Header::read(bytes).length);
    if bytes.len() < len {
        Opening::Wants(len)
    } else {
        Opening::Frame(len)
    }
}
