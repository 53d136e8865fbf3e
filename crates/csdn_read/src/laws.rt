//! What holds of all bytes: laws on the definitions, as contracts of functions that do nothing.
ghost use Rattle.std.specs.Prelude.{ℕ, List};
ghost use Rattle.csdn_read.specs.Programs.{HasOneAnswer};

/// Bytes spell one program, or are refused for one reason at one place, and not both.
pub fn bytes_have_one_answer()
    ensures { (bytes : List ℕ) → HasOneAnswer bytes }
{}
