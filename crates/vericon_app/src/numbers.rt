//! Numbers of words as what a call takes.
ghost use Rattle.std.specs.Prelude.{◌≡◌, ◌≤◌};
ghost use Rattle.csdn_conditions.specs.Classes.{greatest_size};
ghost use Rattle.vericon_app.specs.Calls.{chosen_size, number_or_zero, strength};

use csdn_conditions::class::{GREATEST_SIZE, USUAL_SIZE};

/// A number as a level, at most 9; 0 where it isn't given.
pub fn level_in(number: Option<u32>) -> u8
    ensures level { result ≡ strength number }
    ensures within { result ≤ 9 }
{
    match number {
        None => 0,
        Some(level) => level.min(9) as u8,
    }
}

/// A number as the size by which conditions are decided, at most 2^53; the usual size where it isn't given.
pub fn size_in(number: Option<u64>) -> u64
    ensures size { result ≡ chosen_size number }
    ensures within { result ≤ greatest_size }
{
    match number {
        None => USUAL_SIZE,
        Some(size) => size.min(GREATEST_SIZE),
    }
}

/// A number, and 0 where there is none.
pub fn number_in(number: Option<u32>) -> u32
    ensures { result ≡ number_or_zero number }
{
    match number {
        None => 0,
        Some(number) => number,
    }
}
