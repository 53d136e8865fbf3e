//! The valuation of a trail.

ghost use Rattle.std.specs.Prelude.{◌≡◌, ℕ, IfOk};
ghost use Rattle.clause_log.specs.Literals.{truths};
ghost use Rattle.clause_log.specs.Assignments.{no_values};
ghost use Rattle.clause_search.specs.Trails.{positives, values_of, AreNew};
ghost use Rattle.clause_search.specs.Searches.{says_true};

use crate::trail::Trail;
use clause_log::Valuation;
use std::alloc::{AllocError, Global};

fn true_atoms(alloc: Global, trail: &Trail) -> Result<Vec<u64>, AllocError>
    ensures items { IfOk result (λ v. v.items ≡ positives trail.now) }
    ensures new { AreNew no_values trail.now }
{
    let mut atoms = Vec::new(alloc);
    let mut rest = trail.entries();
    'entries: while let [entry, more @ ..] = rest {
        if entry.literal.is_positive() {
            atoms.push(entry.literal.atom())?;
        }
        rest = more;
    }
    Ok(atoms)
}

/// The valuation that makes true what the trail does; atoms without a value are false.
pub fn valuation_of(alloc: Global, trail: &Trail) -> Result<Valuation, AllocError>
    ensures { IfOk result (λ v. (a : ℕ) → truths v a ≡ says_true (values_of trail.now a)) }
{
    let mut atoms = true_atoms(alloc, trail)?;
    atoms.sort_unstable();
    Ok(Valuation::from_true_atoms(atoms))
}
