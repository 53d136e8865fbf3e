//! What a valuation says of the atoms that clauses name.
#![tactic(auto)]

ghost use Rattle.std.specs.Prelude.{◌≡◌, ◌&&◌, ◌++◌, ◌∷◌, [], ℕ, IfOk, OnOk, filter, flat_map, map};
ghost use Rattle.clause_log.specs.Literals.{truths};
ghost use Rattle.lazy_ground.specs.Completed.{atoms_in, is_named};

use clause_log::{Clauses, Lit, Valuation};
use std::alloc::{AllocError, Global};

/// The valuation under which the atoms that clauses name are true, and no others. It sorts them.
pub fn named_atoms(alloc: Global, clauses: &Clauses) -> Result<Valuation, AllocError>
    ensures { IfOk result (λ v. (x : ℕ) → truths v x ≡ is_named clauses.now.clauses x) }
{
    let mut atoms = atoms_of(alloc, clauses)?;
    atoms.sort_unstable();
    Ok(Valuation::from_true_atoms(atoms))
}

/// The valuation under which the true atoms that clauses name are true, and no others.
pub fn named_valuation(
    alloc: Global,
    clauses: &Clauses,
    valuation: &Valuation,
) -> Result<Valuation, AllocError>
    ensures { IfOk result (λ v. (x : ℕ) → truths v x ≡ (is_named clauses.now.clauses x && truths valuation.now x)) }
{
    let named = named_atoms(alloc, clauses)?;
    both_true(alloc, &named, valuation)
}

/// The valuation under which the atoms are true that are so under both.
pub fn both_true(
    alloc: Global,
    named: &Valuation,
    valuation: &Valuation,
) -> Result<Valuation, AllocError>
    ensures { IfOk result (λ v. (x : ℕ) → truths v x ≡ (truths named.now x && truths valuation.now x)) }
{
    let mut atoms = atoms_true(alloc, named, valuation)?;
    atoms.sort_unstable();
    Ok(Valuation::from_true_atoms(atoms))
}

// The atoms of clauses, in their order.
fn atoms_of(alloc: Global, clauses: &Clauses) -> Result<Vec<u64>, AllocError>
    ensures { IfOk result (λ atoms. atoms.items ≡ flat_map atoms_in clauses.now.clauses) }
{
    let mut atoms = Vec::new(alloc);
    let count = clauses.len();
    'clauses: for at in 0..count {
        push_atoms(&mut atoms, clauses.clause(at))?;
    }
    Ok(atoms)
}

fn push_atoms(atoms: &mut Vec<u64>, literals: &[Lit]) -> Result<(), AllocError>
    ensures { OnOk result (atoms.new.items ≡ atoms.old.items ++ atoms_in literals.now) }
{
    let mut rest = literals;
    'literals: while let [l, more @ ..] = rest {
        push_atom(atoms, l.atom())?;
        rest = more;
    }
    Ok(())
}

fn push_atom(atoms: &mut Vec<u64>, atom: u64) -> Result<(), AllocError>
    ensures { OnOk result (atoms.new.items ≡ atoms.old.items ++ atom ∷ []) }
{
    atoms.push(atom).map_err(AllocError::from)
}

// The true atoms of a valuation that are true under another one too.
fn atoms_true(
    alloc: Global,
    named: &Valuation,
    valuation: &Valuation,
) -> Result<Vec<u64>, AllocError>
    ensures { IfOk result (λ atoms. atoms.items ≡ filter (truths named.now) valuation.now) }
{
    let mut atoms = Vec::new(alloc);
    let mut rest = valuation.true_atoms();
    'atoms: while let [atom, more @ ..] = rest {
        push_named(&mut atoms, named, *atom)?;
        rest = more;
    }
    Ok(atoms)
}

fn push_named(atoms: &mut Vec<u64>, named: &Valuation, atom: u64) -> Result<(), AllocError>
    ensures { OnOk result (atoms.new.items ≡ atoms.old.items ++ filter (truths named.now) (atom ∷ [])) }
{
    if named.value(atom) {
        return push_atom(atoms, atom);
    }
    Ok(())
}
