//! Bytes in hexadecimal.
ghost use Rattle.std.specs.Prelude.{◌≡◌, ◌<◌, ◌++◌, ◌∷◌, [], ◌/◌, ◌%◌, OnOk};
ghost use Rattle.replay_listing.specs.Replays.{digit as digit_of, hex as hex_of};

use std::alloc::AllocError;

fn digit(n: u8) -> u8
    requires { n < 16 }
    ensures { result ≡ digit_of n }
{
    if n < 10 { n + 48 } else { n + 87 }
}

fn put_byte(out: &mut Vec<u8>, byte: u8) -> Result<(), AllocError>
    ensures { OnOk result (out.new.items ≡ out.old.items ++ digit_of (byte / 16) ∷ digit_of (byte % 16) ∷ []) }
{
    out.push(digit(byte / 16))?;
    out.push(digit(byte % 16))?;
    Ok(())
}

/// Appends two digits for each byte, in lower case.
pub fn put_hex(out: &mut Vec<u8>, bytes: &[u8]) -> Result<(), AllocError>
    ensures { OnOk result (out.new.items ≡ out.old.items ++ hex_of bytes.now) }
{
    let mut rest = bytes;
    'bytes: while let [byte, more @ ..] = rest {
        put_byte(out, *byte)?;
        rest = more;
    }
    Ok(())
}
