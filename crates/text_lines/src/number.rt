//! Decimal numbers without a sign or leading zeros.

ghost use Rattle.std.specs.Prelude.{◌≡◌, ◌≤◌, IfSome};
ghost use Rattle.text_lines.specs.Numbers.{number_of};

/// The number that the word is in decimal, without a sign or leading zeros, where it is at most `most`.
/// `None` for every other word.
pub fn read_number(word: &[u8], most: u64) -> Option<u64>
    ensures value { result ≡ number_of most word.now }
    ensures within { IfSome result (λ n. n ≤ most) }
{
    if word.is_empty() {
        return None;
    }
    if word[0] == b'0' && word.len() > 1 {
        return None;
    }
    let mut n: u64 = 0;
    'digits: for b in word {
        if !b.is_ascii_digit() {
            return None;
        }
        let digit = u64::from(*b - b'0');
        let Some(tens) = n.checked_mul(10) else {
            return None;
        };
        let Some(more) = tens.checked_add(digit) else {
            return None;
        };
        if more > most {
            return None;
        }
        n = more;
    }
    Some(n)
}
