//! Tails.

use of10_wire::WireRefusal;

/// What is left of a stream when no further message can be read.
#[derive(Clone, Copy, Debug, PartialEq, Eq)]
pub enum Tail {
    /// So many bytes, too few for a header, or for the frame of a header that isn't refused.
    Cut(usize),
    /// A header that is refused by its own rules, or a whole frame that spells no message; the place counts from the
    /// tail's first byte.
    Broken(WireRefusal),
}
