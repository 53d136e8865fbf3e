//! What the parts of frames have in common, so that lists of them are read and written by one function each.

ghost use Rattle.std.specs.Prelude.{ℕ, List, min, length, IsTrue, ◌↔◌, ◌≡◌, ◌+◌, ◌<◌, ◌≤◌, ◌^◌, vec_len, vec_capacity};
ghost use Rattle.of10_wire.specs.declared.refusal.WireRefusal.{WireRefusal};
ghost use Rattle.of10_wire.specs.Layout.{Slot, Stand, width};
ghost use Rattle.of10_wire.specs.Lists.{StandsFirst};
ghost use Rattle.of10_wire.specs.Refusals.{Answers};
ghost use Rattle.of10_wire.specs.Writing.{Writes};

use crate::refusal::WireRefusal;
use std::alloc::Global;

/// A part that can be written.
pub trait Part {
    // its layout
    ghost slots: { Self → List Slot };

    // what has to hold of its fields, besides that its length fits
    ghost proper: { Self → Type 0 };

    /// How many bytes it takes, up to 65,536.
    fn len(&self) -> usize
        ensures { result ≡ min (width (slots self.now)) 65536 };

    /// Whether it can be written, where its length fits.
    fn is_proper(&self) -> bool
        ensures { IsTrue result ↔ proper self.now };

    /// Appends its layout, with each pad as zeros.
    fn put(&self, out: &mut Vec<u8>)
        requires room { vec_len out.old + width (slots self.now) ≤ vec_capacity out.old }
        requires proper { proper self.now }
        requires short { width (slots self.now) < 2 ^ 16 }
        ensures { Writes out.old out.new (slots self.now) };
}

/// A part of one width.
pub trait FixedPart: Part {
    ghost WIDTH: { ℕ };

    /// How many bytes it takes.
    const WIDTH: usize;

    /// The part that stands at the front of the bytes.
    fn read(bytes: &[u8]) -> Self
        requires { WIDTH ≤ length bytes.now }
        ensures stand { Stand 0 (Self.slots result) bytes.now }
        ensures width { width (Self.slots result) ≡ WIDTH }
        ensures some { 0 < WIDTH };
}

/// A part that tells its own length.
pub trait Item: Part {
    // which refusal bytes have, from a place of their frame on, where they should begin with such a part
    ghost refuses: { ℕ → List ℕ → WireRefusal → Type 0 };

    /// The part at the front of the bytes, and how many of them it takes. The bytes stand at `place` in their frame.
    fn read_first(alloc: Global, bytes: &[u8], place: usize) -> Result<(Self, usize), WireRefusal>
        requires { place + length bytes.now < 2 ^ 64 }
        ensures { Answers result (StandsFirst Self.slots bytes.now) (refuses place bytes.now) };
}
