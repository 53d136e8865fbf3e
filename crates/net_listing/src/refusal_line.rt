//! Why a network text is refused.
ghost use Rattle.std.specs.Prelude.{◌≡◌, IfOk};
ghost use Rattle.net_listing.specs.Listings.{network_refusal_text, word_of};

use net_text::NetWhy;
use std::alloc::{AllocError, Global};
use text_lines::{put_line_end, put_number, put_word};

fn word(why: NetWhy) -> &'static [u8]
    ensures { result.now ≡ word_of why }
{
    match why {
        NetWhy::Header => b"Header",
        NetWhy::Shape => b"Shape",
        NetWhy::Number => b"Number",
        NetWhy::Name => b"Name",
        NetWhy::Arity => b"Arity",
        NetWhy::Empty => b"Empty",
        NetWhy::Repeated => b"Repeated",
        NetWhy::NoPort => b"NoPort",
        NetWhy::Stranger => b"Stranger",
        NetWhy::Missing => b"Missing",
    }
}

/// `FILE refused line N: WHY`
pub fn network_refusal_line(
    alloc: Global,
    file: &[u8],
    number: u64,
    why: NetWhy,
) -> Result<Vec<u8>, AllocError>
    ensures { IfOk result (λ text. text.items ≡ network_refusal_text file.now number why) }
{
    let mut out = Vec::new(alloc);
    put_word(&mut out, file)?;
    put_word(&mut out, b" refused line ")?;
    put_number(&mut out, number)?;
    put_word(&mut out, b": ")?;
    put_word(&mut out, word(why))?;
    put_line_end(&mut out)?;
    Ok(out)
}
