//! What holds of every text: laws on the definitions, as contracts of functions that do nothing.
ghost use Rattle.std.specs.Prelude.{ℕ, List};
ghost use Rattle.csdn_text.specs.Reading.{HasOneAnswer};

/// Each text reads as one tree, places included, or is refused for one reason at one place, and not both.
pub fn reads_or_refused()
    ensures { (text : List ℕ) → HasOneAnswer text }
{}
