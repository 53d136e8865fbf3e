//! Literals: atoms, and their negations.

ghost use Rattle.std.specs.Prelude.{◌≡◌, ◌<◌, ◌^◌, true, false};
ghost use Rattle.clause_log.specs.Literals.{negated as opposite};

use std::marker::Model;

/// An atom or its negation. Atoms are numbered from 1 to 2^63 - 1; a negated one is kept as a negative number.
///
/// In contracts it is a sign and the atom's number.
#[derive(Clone, Copy, Debug, PartialEq, Eq)]
pub struct Lit(i64);

impl Model for Lit {
    ghost use Rattle.std.specs.Prelude.{◌≡◌, ◌<◌, ◌^◌};
    ghost use Rattle.clause_log.specs.Literals.{Literal, literal_of, number_of};
    ghost use Rattle.clause_log.specs.LiteralNumbers.{number_of-literal_of};

    ghost Value = { Literal };

    ghost view = { λ l. literal_of l.0 };

    ghost invariant = { λ l. (0 < (literal_of l.0).atom) × ((literal_of l.0).atom < 2 ^ 63) };

    ghost inverse = { λ l. record { 0 = number_of l } };

    ghost use Rattle.clause_log.specs.declared.lit.Lit.TheInside.{Inside};
    ghost use Rattle.std.specs.Prelude.{ℤ};
    ghost use Rattle.std.proofs.Common.{ap};

    ghost inverse_ok = { λ l h. let make : ℤ → Inside = λ z. record { 0 = z } in ap make (number_of-literal_of l.0) };
}

impl Lit {
    ghost use Rattle.std.specs.Prelude.{◌≡◌, ◌<◌, ◌≤◌, ◌^◌, true, false};
    ghost use Rattle.clause_log.specs.Literals.{negated as opposite};

    /// The literal that is true where the atom is.
    pub fn positive(atom: u64) -> Lit
        requires from_one { 0 < atom }
        requires small { atom < 2 ^ 63 }
        ensures { result ≡ record { positive = true; atom = atom } }
    {
        Lit(atom as i64)
    }

    /// The literal that is true where the atom is false.
    pub fn negative(atom: u64) -> Lit
        requires from_one { 0 < atom }
        requires small { atom < 2 ^ 63 }
        ensures { result ≡ record { positive = false; atom = atom } }
    {
        Lit(-(atom as i64))
    }

    /// Whether it is an atom itself, not a negated one.
    pub fn is_positive(self) -> bool
        ensures { result ≡ self.positive }
    {
        self.0 > 0
    }

    /// The number of its atom, from 1 to 2^63 - 1.
    pub fn atom(self) -> u64
        ensures value { result ≡ self.atom }
        ensures from_one { 0 < result }
        ensures small { result < 2 ^ 63 }
    {
        self.0.unsigned_abs()
    }

    /// The literal of the same atom that is true where this one is false.
    pub fn negated(self) -> Lit
        ensures { result ≡ opposite self }
    {
        Lit(-self.0)
    }
}
