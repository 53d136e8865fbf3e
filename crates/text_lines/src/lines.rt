//! The lines of a text that count, with their numbers.

ghost use Rattle.std.specs.Prelude.{◌≡◌, ◌+◌, ◌<◌, ◌^◌, length};
ghost use Rattle.text_lines.specs.Text.{words, is_passed_over as is_over};

use crate::cut::cut;
use crate::words::word_at;
use std::marker::Model;

/// What comes next in a text.
#[derive(Debug)]
pub enum Next<'a> {
    /// The next line that counts, without its newline, and its number.
    Line { number: u64, line: &'a [u8] },
    /// No line that counts is left: the number one past the last line.
    End { past: u64 },
}

/// The lines that a text has left. No line is copied, and the text is read once.
///
/// In contracts it is the lines left that count, and the number one past the last line.
#[derive(Drop)]
pub struct Lines<'a> {
    rest: &'a [u8],
    number: u64,
}

impl<'a> Model for Lines<'a> {
    ghost use Rattle.std.specs.Prelude.{◌≡◌, ◌+◌, ◌<◌, ◌^◌, length};
    ghost use Rattle.text_lines.specs.Text.{LinesLeft, lines_left};

    ghost Value = { LinesLeft };

    ghost view = { λ l. lines_left l.number l.rest.now };

    ghost invariant = { λ l. l.number + length l.rest.now < 2 ^ 64 };
}

impl<'a> Lines<'a> {
    ghost use Rattle.std.specs.Prelude.{◌≡◌, ◌+◌, ◌<◌, ◌^◌, length};
    ghost use Rattle.text_lines.specs.Text.{lines_left};
    ghost use Rattle.text_lines.specs.Next.{IsNext};

    /// All lines of the text, the first with number 1.
    pub fn new(text: &'a [u8]) -> Lines<'a>
        ensures { result ≡ lines_left 1 text.now }
    {
        Lines {
            rest: text,
            number: 1,
        }
    }

    /// The next line that counts. Lines without words and comments are passed over.
    pub fn next(&mut self) -> Next<'a>
        ensures { IsNext self.old result self.new }
    {
        'passed: while !self.rest.is_empty() {
            let (line, after) = cut(self.rest, b'\n');
            let number = self.number;
            self.rest = after;
            self.number = number + 1;
            if !is_passed_over(line) {
                return Next::Line { number, line };
            }
        }
        Next::End { past: self.number }
    }
}

fn is_passed_over(line: &[u8]) -> bool
    ensures { result ≡ is_over (words line.now) }
{
    match word_at(line) {
        None => true,
        Some((word, _)) => !word.is_empty() && word[0] == b'#',
    }
}
