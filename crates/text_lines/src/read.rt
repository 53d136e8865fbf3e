//! The reader of texts, a line after the other.

ghost use Rattle.std.specs.Prelude.{◌≡◌};
ghost use Rattle.text_lines.specs.Machine.{Format, reading};
ghost use Rattle.text_lines.specs.Gives.{EndsBy, Gives, TakesBy};

use crate::lines::{Lines, Next};
use std::fmt::Debug;
use thiserror::Error;

/// Why a line isn't taken.
#[derive(Clone, Copy, Debug)]
pub enum Stop<Why> {
    Refused(Why),
    Memory,
}

/// Why a text isn't read.
#[derive(Debug, Drop, Error)]
#[error_bound(Why: Debug)]
pub enum LineRefusal<Why> {
    /// The first line that is refused; or one past the last line, where the text ends too early.
    #[error("line {number} is refused: {why:?}")]
    Line { number: u64, why: Why },
    #[error("out of memory")]
    Memory,
}

/// What a text gives, from a state before its first line: `take` gives the state behind each line that counts, and
/// `finish` the value behind the last. It goes over the text once.
///
/// The closures are those of a format; whichever it is, the answer is what the text gives by it.
///
/// # Errors
///
/// `Line` with the first line that `take` refuses, counted from 1; or with the line one past the last, where `finish`
/// refuses the state there. `Memory` where `take` wants memory.
pub fn read_lines<
    S,
    V,
    Why,
    T: Fn(S, &[u8]) -> Result<S, Stop<Why>>,
    E: FnOnce(S) -> Result<V, Why>,
>(text: &[u8], start: S, take: T, finish: E) -> Result<V, LineRefusal<Why>>
    requires take { T.IsAlwaysCallable take }
    requires finish { E.IsAlwaysCallable finish }
    ensures { (f : Format S V Why) → f.start ≡ start → TakesBy f (T.post take) → EndsBy f (E.post finish) → Gives result (reading f text.now) }
{
    let mut lines = Lines::new(text);
    let mut state = start;
    'lines: loop {
        match lines.next() {
            Next::Line { number, line } => match take(state, line) {
                Ok(next) => state = next,
                Err(Stop::Refused(why)) => return Err(LineRefusal::Line { number, why }),
                Err(Stop::Memory) => return Err(LineRefusal::Memory),
            },
            Next::End { past: number } => {
                return match finish(state) {
                    Ok(value) => Ok(value),
                    Err(why) => Err(LineRefusal::Line { number, why }),
                };
            }
        }
    }
}
