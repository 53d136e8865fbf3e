//! What holds of every program: laws on the definitions, as contracts of functions that do nothing.
ghost use Rattle.std.specs.Prelude.{ℕ};
ghost use Rattle.csdn_core.specs.declared.program.Parts.{Parts as AnyParts};
ghost use Rattle.csdn_core.specs.Holds.{IsInductive, Holds};

/// A program that is n-inductive, for any n, keeps each invariant in every network and every run.
pub fn induction_is_sound()
    ensures { (P : AnyParts) (n : ℕ) → IsInductive n P → Holds P }
{}
