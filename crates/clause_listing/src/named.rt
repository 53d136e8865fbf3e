//! The atoms that clauses name.

ghost use Rattle.std.specs.Prelude.{◌≡◌, ℕ, ◌||◌, Bool, IfOk, OnOk};
ghost use Rattle.std.specs.Ordering.{nat_cmp};
ghost use Rattle.std.specs.BTreeSet.{contains};
ghost use Rattle.clause_log.specs.Literals.{has_atom};
ghost use Rattle.clause_listing.specs.Answers.{AreNamed, is_named};

use clause_log::{Clauses, Lit};
use std::alloc::{AllocError, Global};
use std::collections::BTreeSet;

// Enters the atoms of the literals.
fn enter(atoms: &mut BTreeSet<u64>, literals: &[Lit]) -> Result<(), AllocError>
    ensures { OnOk result ((a : ℕ) → contains nat_cmp atoms.new a ≡ (contains nat_cmp atoms.old a || has_atom a literals.now)) }
{
    let mut rest = literals;
    'literals: while let [l, more @ ..] = rest {
        atoms.insert(l.atom())?;
        rest = more;
    }
    Ok(())
}

fn enter_all(alloc: Global, clauses: &Clauses) -> Result<BTreeSet<u64>, AllocError>
    ensures { IfOk result (λ atoms. (a : ℕ) → contains nat_cmp atoms a ≡ is_named clauses.now.clauses a) }
{
    let mut atoms = BTreeSet::new(alloc);
    let count = clauses.len();
    'clauses: for at in 0..count {
        enter(&mut atoms, clauses.clause(at))?;
    }
    Ok(atoms)
}

fn rising(alloc: Global, atoms: &BTreeSet<u64>) -> Result<Vec<u64>, AllocError>
    ensures { IfOk result (λ v. v.items ≡ atoms.now.keys) }
{
    atoms.iter().copied().collect(alloc)
}

/// The atoms that the clauses name, rising, each once.
pub fn named_atoms(alloc: Global, clauses: &Clauses) -> Result<Vec<u64>, AllocError>
    ensures { IfOk result (λ v. AreNamed clauses.now.clauses v.items) }
{
    let atoms = enter_all(alloc, clauses)?;
    // Its contract says that the atoms rise.
    atoms.len();
    let list = rising(alloc, &atoms)?;
    Ok(list)
}
