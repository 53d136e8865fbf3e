//! Numbers and bytes at a place of a frame. A reader of a layout asks for them at the places that the layout
//! fixes.

ghost use Rattle.std.specs.Prelude.{◌≡◌, ◌+◌, ◌≤◌, length, drop, IfOk};
ghost use Rattle.of10_wire.specs.Layout.{number, part};

use crate::body::Body;
use byteorder::{BigEndian, ByteOrder};
use std::alloc::{AllocError, Global};

/// The byte at a place.
#[tactic(auto, unfolding(crate::specs::Layout::number))]
pub fn u8_at(bytes: &[u8], at: usize) -> u8
    requires { at + 1 ≤ length bytes.now }
    ensures { result ≡ number 1 at bytes.now }
{
    bytes[at]
}

/// The number in the 2 bytes at a place, the highest byte first.
#[tactic(auto, unfolding(crate::specs::Layout::number))]
pub fn u16_at(bytes: &[u8], at: usize) -> u16
    requires { at + 2 ≤ length bytes.now }
    ensures { result ≡ number 2 at bytes.now }
{
    BigEndian::read_u16(&bytes[at..])
}

/// The number in the 4 bytes at a place, the highest byte first.
#[tactic(auto, unfolding(crate::specs::Layout::number))]
pub fn u32_at(bytes: &[u8], at: usize) -> u32
    requires { at + 4 ≤ length bytes.now }
    ensures { result ≡ number 4 at bytes.now }
{
    BigEndian::read_u32(&bytes[at..])
}

/// The number in the 8 bytes at a place, the highest byte first.
#[tactic(auto, unfolding(crate::specs::Layout::number))]
pub fn u64_at(bytes: &[u8], at: usize) -> u64
    requires { at + 8 ≤ length bytes.now }
    ensures { result ≡ number 8 at bytes.now }
{
    BigEndian::read_u64(&bytes[at..])
}

/// The N bytes at a place.
#[tactic(auto, unfolding(crate::specs::Layout::part))]
pub fn array_at<const N: usize>(bytes: &[u8], at: usize) -> [u8; N]
    requires { at + N ≤ length bytes.now }
    ensures { result ≡ part N at bytes.now }
{
    let mut array = [0; N];
    array.copy_from_slice(&bytes[at..at + N]);
    array
}

/// The bytes from a place on.
pub fn rest_from(bytes: &[u8], at: usize) -> &[u8]
    requires { at ≤ length bytes.now }
    ensures { result.now ≡ drop at bytes.now }
{
    &bytes[at..]
}

/// A copy of the bytes from one place to another.
#[tactic(auto, unfolding(crate::specs::Layout::part))]
pub fn body_at(alloc: Global, bytes: &[u8], from: usize, to: usize) -> Result<Body, AllocError>
    requires from { from ≤ to }
    requires to { to ≤ length bytes.now }
    ensures len { IfOk result (λ b. from + length b ≡ to) }
    ensures part { IfOk result (λ b. part (length b) from bytes.now ≡ b) }
{
    Ok(Body::from_vec(Vec::from_slice(alloc, &bytes[from..to])?))
}
