//! Valuations of the atoms.

use std::marker::Model;

/// A valuation of all atoms: finitely many are true, and all others false.
///
/// In contracts it is the list of the true atoms, and `truths` of it is the function from atoms to truth values.
#[derive(Drop)]
pub struct Valuation {
    trues: Vec<u64>,
}

impl Model for Valuation {
    ghost use Rattle.std.specs.Prelude.{ℕ, List};
    ghost use Rattle.std.specs.List.Sorted.{IsNonDecreasing};

    ghost Value = { List ℕ };

    ghost view = { λ v. v.trues.items };

    ghost invariant = { λ v. IsNonDecreasing v.trues.items };
}

impl Valuation {
    ghost use Rattle.std.specs.Prelude.{◌≡◌};
    ghost use Rattle.std.specs.List.Sorted.{IsNonDecreasing};
    ghost use Rattle.clause_log.specs.Literals.{truths};

    /// The valuation under which these atoms are true, and no others.
    pub fn from_true_atoms(trues: Vec<u64>) -> Valuation
        requires { IsNonDecreasing trues.items }
        ensures { result ≡ trues.items }
    {
        Valuation { trues }
    }

    /// The true atoms, rising; one may stand there more than once.
    pub fn true_atoms(&self) -> &[u64]
        ensures atoms { result.now ≡ self.now }
        ensures rising { IsNonDecreasing result.now }
    {
        &self.trues
    }

    /// The truth value of the atom.
    pub fn value(&self, atom: u64) -> bool
        ensures { result ≡ truths self.now atom }
    {
        self.trues.binary_search(&atom).is_ok()
    }
}
