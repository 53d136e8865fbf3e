//! Whether literals are of distinct atoms.

ghost use Rattle.std.specs.Prelude.{◌≡◌, IfOk, map};
ghost use Rattle.clause_log.specs.Literals.{has_atom as has_atom_in, has_distinct_atoms as distinct};

use clause_log::Lit;
use std::alloc::{AllocError, Global};

// Up to so many literals are compared in pairs.
const FEW: usize = 8;

fn has_atom(atom: u64, literals: &[Lit]) -> bool
    ensures { result ≡ has_atom_in atom literals.now }
{
    let mut rest = literals;
    'literals: while let [l, more @ ..] = rest {
        if atom == l.atom() {
            return true;
        }
        rest = more;
    }
    false
}

fn differ_in_pairs(literals: &[Lit]) -> bool
    ensures { result ≡ distinct literals.now }
{
    let mut rest = literals;
    'literals: while let [l, more @ ..] = rest {
        if has_atom(l.atom(), more) {
            return false;
        }
        rest = more;
    }
    true
}

fn atoms_of(alloc: Global, literals: &[Lit]) -> Result<Vec<u64>, AllocError>
    ensures { IfOk result (λ v. v.items ≡ map (λ l. l.atom) literals.now) }
{
    literals.iter().map(|l| l.atom()).collect(alloc)
}

/// Whether no two of the literals are of one atom. It takes n log n steps.
pub fn has_distinct_atoms(alloc: Global, literals: &[Lit]) -> Result<bool, AllocError>
    ensures { IfOk result (λ b. b ≡ distinct literals.now) }
{
    if literals.len() <= FEW {
        return Ok(differ_in_pairs(literals));
    }
    let atoms = atoms_of(alloc, literals)?;
    let answer = text_lines::are_distinct(alloc, &atoms)?;
    Ok(answer)
}
