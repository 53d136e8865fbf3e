//! What is known of the atoms during a pass.
#![tactic(auto)]

ghost use Rattle.std.specs.Prelude.{◌≡◌, ◌+◌, ◌∷◌, [], true, OnOk};
ghost use Rattle.clause_log.specs.Literals.{clause_true, truths};
ghost use Rattle.lazy_ground.specs.Found.{Finds};
ghost use Rattle.lazy_ground.specs.Readings.{HasFreeParts, IsFree, IsPast};

use clause_log::{Lit, Valuation};
use copy_truth::reading::is_true;
use ground_inst::rows::Rows;
use std::alloc::AllocError;

// Whether a clause is true.
fn is_clause_true(trues: &Valuation, literals: &[Lit]) -> bool
    ensures { result ≡ clause_true (truths trues.now) literals.now }
{
    let mut rest = literals;
    'literals: while let [l, more @ ..] = rest {
        if is_true(trues, *l) {
            return true;
        }
        rest = more;
    }
    false
}

/// Appends a clause, where it is false.
pub fn offer(trues: &Valuation, literals: &[Lit], rows: &mut Rows) -> Result<(), AllocError>
    ensures { OnOk result (Finds (truths trues.now) (literals.now ∷ []) rows.old rows.new) }
{
    if is_clause_true(trues, literals) {
        return Ok(());
    }
    rows.push(literals)
}

/// Whether no clause names one of so many atoms from this one on; it may also answer no where none is named and 2^64 are asked
/// for. It takes no memory.
pub fn is_free(named: &Valuation, first: u64, count: u64) -> bool
    ensures { result ≡ true → IsFree (truths named.now) first count }
{
    if count == 0 {
        return true;
    }
    let atoms = named.true_atoms();
    match atoms.binary_search(&first) {
        Ok(_) => false,
        Err(place) => is_past(atoms, place, first, count),
    }
}

/// Whether no clause names one of so many atoms from this one on, this one left out; it may also answer no where none is named.
pub fn has_free_parts(named: &Valuation, first: u64, count: u64) -> bool
    ensures { result ≡ true → HasFreeParts (truths named.now) first count }
{
    match (first.checked_add(1), count.checked_sub(1)) {
        (Some(next), Some(parts)) => is_free(named, next, parts),
        _ => false,
    }
}

// Whether the atom at a place, and so each one after it, is none of so many from the first on.
fn is_past(atoms: &[u64], place: usize, first: u64, count: u64) -> bool
    ensures { result ≡ true → IsPast atoms.now place (first + count) }
{
    if place >= atoms.len() {
        return true;
    }
    let Some(end) = first.checked_add(count) else {
        return false;
    };
    atoms[place] >= end
}
