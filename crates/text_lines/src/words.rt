//! The words of a line, one after the other.

ghost use Rattle.std.specs.Prelude.{◌≡◌, option_map};
ghost use Rattle.text_lines.specs.Text.{words, next};

use crate::cut::cut;
use crate::number::read_number;
use std::marker::Model;

/// The words that a line has left, seen in contracts as the list of them.
///
/// The methods take it by value and give the words behind back, so that a line is read by a chain of `?`.
#[derive(Drop)]
pub struct Words<'a> {
    rest: &'a [u8],
}

impl<'a> Model for Words<'a> {
    ghost use Rattle.std.specs.Prelude.{◌≡◌, ℕ, List, option_map};
    ghost use Rattle.text_lines.specs.Text.{words, next};

    ghost Value = { List (List ℕ) };

    ghost view = { λ w. words w.rest.now };
}

impl<'a> Words<'a> {
    ghost use Rattle.std.specs.Prelude.{◌≡◌, ◌≤◌, ℕ, List, option_map, IfSome};
    ghost use Rattle.text_lines.specs.Text.{words, next, ended};
    ghost use Rattle.text_lines.specs.Numbers.{number_at};

    /// All words of a line.
    pub fn new(line: &'a [u8]) -> Words<'a>
        ensures { result ≡ words line.now }
    {
        Words { rest: line }
    }

    /// The next word, and the words behind it; `None` where no word is left.
    pub fn next(self) -> Option<(&'a [u8], Words<'a>)>
        ensures { option_map (λ x. (x.0.now, x.1)) result ≡ next self.entry }
    {
        match word_at(self.rest) {
            None => None,
            Some((word, rest)) => Some((word, Words { rest })),
        }
    }

    /// The next word, as a decimal number that is at most `most`, and the words behind it; `None` where the next word
    /// is no such number, or no word is left.
    #[tactic(auto, unfolding(crate::specs::Numbers::number_at))]
    pub fn number(self, most: u64) -> Option<(u64, Words<'a>)>
        ensures value { result ≡ number_at most self.entry }
        ensures within { IfSome result (λ x. x.0 ≤ most) }
    {
        let (word, rest) = self.next()?;
        let n = read_number(word, most)?;
        Some((n, rest))
    }

    /// That no word is left; `None` where one is.
    pub fn end(self) -> Option<()>
        ensures { result ≡ ended self.entry }
    {
        match self.next() {
            None => Some(()),
            Some(_) => None,
        }
    }
}

/// The first word of a line, and the line behind it; `None` where there is no word.
pub fn word_at(line: &[u8]) -> Option<(&[u8], &[u8])>
    ensures { option_map (λ x. (x.0.now, words x.1.now)) result ≡ next (words line.now) }
{
    let mut rest = line;
    'spaces: while !rest.is_empty() {
        let (word, after) = cut(rest, b' ');
        if !word.is_empty() {
            return Some((word, after));
        }
        rest = after;
    }
    None
}
