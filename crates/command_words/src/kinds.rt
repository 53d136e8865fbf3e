//! Which words are of a kind.
ghost use Rattle.std.specs.Prelude.{◌≡◌, map, string_bytes, option_map};
ghost use Rattle.command_words.specs.Kinds.{any_number, any_size, fits as word_fits, behind_kinds as words_behind};

use crate::table::Kind;
use text_lines::read_number;

/// The number that a word is in decimal, without a sign or leading zeros, where it is below 2^32; `None` for every
/// other word.
pub fn number_in(word: &str) -> Option<u32>
    ensures { result ≡ any_number word.now }
{
    match read_number(word.as_bytes(), 0xffff_ffff) {
        Some(number) => Some(number as u32),
        None => None,
    }
}

/// The number that a word is, of at most 64 bits.
pub fn size_in(word: &str) -> Option<u64>
    ensures { result ≡ any_size word.now }
{
    read_number(word.as_bytes(), 0xffff_ffff_ffff_ffff)
}

/// Whether a word is of a kind: each word is a text, and a number is decimal, from the least to the most.
pub fn fits(kind: Kind, word: &str) -> bool
    ensures { result ≡ word_fits kind word.now }
{
    match kind {
        Kind::Text => true,
        Kind::Number { least, most } => match read_number(word.as_bytes(), most) {
            Some(number) => least <= number,
            None => false,
        },
    }
}

/// The words behind those that are of these kinds, one by one; `None`, where one of them isn't.
pub fn behind_kinds<'a>(kinds: &[Kind], words: &'a [String]) -> Option<&'a [String]>
    ensures { option_map (λ behind. map string_bytes behind.now) result ≡ words_behind kinds.now (map string_bytes words.now) }
{
    let mut kinds_left = kinds;
    let mut rest = words;
    while let [kind, kinds_more @ ..] = kinds_left {
        let [word, more @ ..] = rest else {
            return None;
        };
        if !fits(*kind, word.as_str()) {
            return None;
        }
        kinds_left = kinds_more;
        rest = more;
    }
    Some(rest)
}
