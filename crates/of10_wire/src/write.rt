//! Numbers and bytes at the end of a vector that has room for them. Whoever writes makes room first, once, so
//! that nothing here can fail.

ghost use Rattle.std.specs.Prelude.{◌≢◌, ◌+◌, ◌≤◌, ◌∷◌, [], length, vec_len, vec_capacity};
ghost use Rattle.of10_wire.specs.Layout.{Number, Except, Raw, Pad};
ghost use Rattle.of10_wire.specs.Writing.{Writes};

/// Appends bytes, for which there is room.
pub fn put_bytes(out: &mut Vec<u8>, bytes: &[u8])
    requires { vec_len out.old + length bytes.now ≤ vec_capacity out.old }
    ensures { Writes out.old out.new (Raw (length bytes.now) bytes.now ∷ []) }
{
    out.extend_from_slice(bytes).unwrap();
}

/// Appends a number in 1 byte, for which there is room.
#[tactic(auto, unfolding(crate::specs::Layout::bytes_of))]
pub fn put_u8(out: &mut Vec<u8>, x: u8)
    requires { vec_len out.old + 1 ≤ vec_capacity out.old }
    ensures { Writes out.old out.new (Number 1 x ∷ []) }
{
    put_bytes(out, &x.to_be_bytes());
}

/// Appends a number in 2 bytes, the highest first, for which there is room.
#[tactic(auto, unfolding(crate::specs::Layout::bytes_of))]
pub fn put_u16(out: &mut Vec<u8>, x: u16)
    requires { vec_len out.old + 2 ≤ vec_capacity out.old }
    ensures { Writes out.old out.new (Number 2 x ∷ []) }
{
    put_bytes(out, &x.to_be_bytes());
}

/// Appends a number that isn't `other`, in 2 bytes, the highest first, for which there is room.
pub fn put_other_u16(out: &mut Vec<u8>, other: u16, x: u16)
    requires room { vec_len out.old + 2 ≤ vec_capacity out.old }
    requires apart { x ≢ other }
    ensures { Writes out.old out.new (Except 2 other x ∷ []) }
{
    put_u16(out, x);
}

/// Appends a number in 4 bytes, the highest first, for which there is room.
#[tactic(auto, unfolding(crate::specs::Layout::bytes_of))]
pub fn put_u32(out: &mut Vec<u8>, x: u32)
    requires { vec_len out.old + 4 ≤ vec_capacity out.old }
    ensures { Writes out.old out.new (Number 4 x ∷ []) }
{
    put_bytes(out, &x.to_be_bytes());
}

/// Appends a number in 8 bytes, the highest first, for which there is room.
#[tactic(auto, unfolding(crate::specs::Layout::bytes_of))]
pub fn put_u64(out: &mut Vec<u8>, x: u64)
    requires { vec_len out.old + 8 ≤ vec_capacity out.old }
    ensures { Writes out.old out.new (Number 8 x ∷ []) }
{
    put_bytes(out, &x.to_be_bytes());
}

/// Appends N zeros, for which there is room.
pub fn put_pad<const N: usize>(out: &mut Vec<u8>)
    requires { vec_len out.old + N ≤ vec_capacity out.old }
    ensures { Writes out.old out.new (Pad N ∷ []) }
{
    put_bytes(out, &[0; N]);
}
