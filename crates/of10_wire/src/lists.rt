//! Parts one after the other.

ghost use Rattle.std.specs.Prelude.{min, length, IsTrue, IfOk, ◌↔◌, ◌≡◌, ◌+◌, ◌-◌, ◌%◌, ◌<◌, ◌≤◌, ◌^◌, vec_len, vec_capacity};
ghost use Rattle.std.specs.List.{flat_map, AllByRecursion};
ghost use Rattle.of10_wire.specs.Layout.{Stand, Spells, width, part};
ghost use Rattle.of10_wire.specs.Lists.{IsRefusedIn, StandsFrom};
ghost use Rattle.of10_wire.specs.Refusals.{Answers};
ghost use Rattle.of10_wire.specs.Writing.{Writes};

use crate::parts::{FixedPart, Item, Part};
use crate::read::rest_from;
use crate::refusal::WireRefusal;
use sqlite_items::Items;
use std::alloc::{AllocError, Global};

/// The part of one width at a place.
pub fn fixed_at<P: FixedPart>(bytes: &[u8], at: usize) -> P
    requires { at + P.WIDTH ≤ length bytes.now }
    ensures stand { Stand at (P.slots result) bytes.now }
    ensures width { width (P.slots result) ≡ P.WIDTH }
    ensures some { 0 < P.WIDTH }
{
    P::read(rest_from(bytes, at))
}

/// As many parts of one width as fill the rest.
pub fn fixed_from<P: FixedPart + Drop>(
    alloc: Global,
    bytes: &[u8],
    from: usize,
) -> Result<Items<P>, AllocError>
    requires from { from ≤ length bytes.now }
    requires whole { (length bytes.now - from) % P.WIDTH ≡ 0 }
    ensures stand { IfOk result (λ list. Stand from (flat_map P.slots list) bytes.now) }
    ensures width { IfOk result (λ list. from + width (flat_map P.slots list) ≡ length bytes.now) }
{
    let mut list = Vec::new(alloc);
    let mut at = from;
    while at < bytes.len() {
        list.push(fixed_at::<P>(bytes, at))?;
        at += P::WIDTH;
    }
    Ok(Items::from_vec(list))
}

/// The parts that the bytes are, which stand at `base` in their frame.
fn items<I: Item + Drop>(alloc: Global, bytes: &[u8], base: usize) -> Result<Items<I>, WireRefusal>
    requires { base + length bytes.now < 2 ^ 64 }
    ensures { Answers result (λ list. Spells (flat_map I.slots list) bytes.now) (IsRefusedIn I.slots I.refuses base bytes.now) }
{
    let mut list = Vec::new(alloc);
    let mut at = 0;
    while at < bytes.len() {
        let (item, len) = I::read_first(alloc, rest_from(bytes, at), base + at)?;
        list.push(item)?;
        at += len;
    }
    Ok(Items::from_vec(list))
}

/// The parts that the bytes from one place to another are, where the bytes stand at `base` in their frame. The refusal is
/// that of the first that is none.
pub fn items_at<I: Item + Drop>(
    alloc: Global,
    bytes: &[u8],
    from: usize,
    to: usize,
    base: usize,
) -> Result<Items<I>, WireRefusal>
    requires from { from ≤ to }
    requires to { to ≤ length bytes.now }
    requires place { base + length bytes.now < 2 ^ 64 }
    ensures { Answers result (λ list. StandsFrom I.slots from to bytes.now list) (IsRefusedIn I.slots I.refuses (base + from) (part (to - from) from bytes.now)) }
{
    items(alloc, &bytes[from..to], base + from)
}

/// The length, up to 65,536, which is more than a frame may have.
pub fn capped(len: usize) -> usize
    ensures { result ≡ min len 65536 }
{
    len.min(65536)
}

/// How many bytes the parts take, up to 65,536.
pub fn len_all<P: Part>(parts: &[P]) -> usize
    ensures { result ≡ min (width (flat_map P.slots parts.now)) 65536 }
{
    let mut len = 0;
    for part in parts {
        len += part.len();
        if len >= 65536 {
            return 65536;
        }
    }
    len
}

/// Whether each of the parts can be written, where its length fits.
pub fn are_proper<P: Part>(parts: &[P]) -> bool
    ensures { IsTrue result ↔ AllByRecursion P.proper parts.now }
{
    parts.iter().all(|part| part.is_proper())
}

/// Appends the parts, with each pad as zeros.
pub fn put_all<P: Part>(out: &mut Vec<u8>, parts: &[P])
    requires room { vec_len out.old + width (flat_map P.slots parts.now) ≤ vec_capacity out.old }
    requires proper { AllByRecursion P.proper parts.now }
    requires short { width (flat_map P.slots parts.now) < 2 ^ 16 }
    ensures { Writes out.old out.new (flat_map P.slots parts.now) }
{
    for part in parts {
        part.put(out);
    }
}
