//! Which of the clauses that are found are added.
//!
//! Of each block of foralls that stand one in another one clause is taken, the first that is found, and so of each true equation, of
//! few of these: each clause names a node, whose own clauses are looked at in the next pass, so that more of them would grow to many
//! times as many. No contract says which.
#![tactic(auto)]

ghost use Rattle.std.specs.Prelude.{◌≡◌, true, IfOk, OnOk};
ghost use Rattle.clause_log.specs.Literals.{is_clause};
ghost use Rattle.lazy_ground.specs.Found.{Picks, PutsIf};

use clause_log::{Clauses, Lit};
use std::alloc::{AllocError, Global};

// So many of the clauses that are found first are taken without a look at their blocks.
const AT_ONCE: usize = 10;

// So many clauses of equality are taken in one pass.
const OF_EQUALITY: usize = 10;

/// Some of these clauses, and at least one where there is one. `marks` has the blocks of the first of them; those of equality are
/// behind. It takes as many steps as there are pairs of marks.
pub fn picked(alloc: Global, found: &Clauses, marks: &[u64]) -> Result<Clauses, AllocError>
    ensures { IfOk result (λ some. Picks found.now some) }
{
    // Its contract says that each clause is one over the atoms.
    let mut some = Clauses::try_new(alloc, found.atoms())?;
    let count = found.len();
    let mut equalities = 0usize;
    'clauses: for at in 0..count {
        let literals = found.clause(at);
        let wanted = is_wanted(&some, marks, at, equalities, literals);
        put_if(&mut some, wanted, literals)?;
        equalities = counted(equalities, wanted && at >= marks.len());
    }
    Ok(some)
}

fn counted(count: usize, one_more: bool) -> usize {
    count.saturating_add(one_more as usize)
}

// Puts a clause behind the others, where it is wanted.
fn put_if(some: &mut Clauses, wanted: bool, literals: &[Lit]) -> Result<(), AllocError>
    requires { is_clause some.old.atoms literals.now ≡ true }
    ensures { OnOk result (PutsIf wanted some.old some.new literals.now) }
{
    if wanted {
        return some.push(literals);
    }
    Ok(())
}

// Whether the clause at this place is taken, so many of equality being taken: one of the first, one of a single literal, the first one
// of a block, or of few of equality the first that an equation breaks.
fn is_wanted(some: &Clauses, marks: &[u64], at: usize, equalities: usize, literals: &[Lit]) -> bool
    ensures { at ≡ 0 → result ≡ true }
{
    if at == 0 {
        return true;
    }
    let is_unit = literals.len() == 1;
    match marks.split_at_checked(at) {
        Some((before, [block, ..])) => is_unit || at < AT_ONCE || !before.contains(block),
        _ => equalities < OF_EQUALITY && (is_unit || !has_first(some, literals)),
    }
}

// Whether one of the clauses begins as this one.
fn has_first(clauses: &Clauses, literals: &[Lit]) -> bool {
    let count = clauses.len();
    for at in 0..count {
        if let ([l, ..], [m, ..]) = (clauses.clause(at), literals) {
            if l == m {
                return true;
            }
        }
    }
    false
}
