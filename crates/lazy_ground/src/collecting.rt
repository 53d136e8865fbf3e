//! Clauses, each once, and clauses put behind others.
#![tactic(auto)]

ghost use Rattle.std.specs.Prelude.{◌≡◌, ◌+◌, ◌<◌, ◌++◌, ◌∷◌, [], true, IfOk, OnOk, drop, length, slice_index_or};
ghost use Rattle.clause_log.specs.Literals.{is_clause};
ghost use Rattle.lazy_ground.specs.Found.{begins_with, has_clause, once, put_clause, same_literal, same_literals, untwinned};

use clause_log::{Clauses, Lit};
use std::alloc::{AllocError, Global};

// Whether two clauses have the same literals in the same order.
fn are_same(a: &[Lit], b: &[Lit]) -> bool
    ensures { result ≡ same_literals a.now b.now }
{
    match a {
        [] => b.is_empty(),
        [l, others @ ..] => match b {
            [] => false,
            [m, rest @ ..] => is_same(*l, *m) && are_same(others, rest),
        },
    }
}

fn is_same(l: Lit, m: Lit) -> bool
    ensures { result ≡ same_literal l m }
{
    l.atom() == m.atom() && l.is_positive() == m.is_positive()
}

// Whether a clause is there. It looks at all of them.
fn has(clauses: &Clauses, literals: &[Lit]) -> bool
    ensures { result ≡ has_clause clauses.now.clauses literals.now }
{
    let count = clauses.len();
    'clauses: for at in 0..count {
        if are_same(literals, clauses.clause(at)) {
            return true;
        }
    }
    false
}

// Puts a clause behind the others, unless it is there.
fn put(clauses: &mut Clauses, literals: &[Lit]) -> Result<(), AllocError>
    requires { is_clause clauses.old.atoms literals.now ≡ true }
    ensures { OnOk result (clauses.new ≡ record { atoms = clauses.old.atoms; clauses = put_clause clauses.old.clauses literals.now }) }
{
    if has(clauses, literals) {
        return Ok(());
    }
    clauses.push(literals)
}

/// The clauses, each once. It takes as many steps as there are pairs of them.
pub fn each_once(alloc: Global, found: &Clauses) -> Result<Clauses, AllocError>
    ensures { IfOk result (λ kept. kept ≡ record { atoms = found.now.atoms; clauses = once [] found.now.clauses }) }
{
    let mut kept = Clauses::try_new(alloc, found.atoms())?;
    let count = found.len();
    'clauses: for at in 0..count {
        put(&mut kept, found.clause(at))?;
    }
    Ok(kept)
}

// Whether the clause behind this one is the same.
fn comes_again(clauses: &Clauses, at: usize) -> bool
    requires { at < length clauses.now.clauses }
    ensures { result ≡ begins_with (slice_index_or clauses.now.clauses at []) (drop (at + 1) clauses.now.clauses) }
{
    let count = clauses.len();
    let behind = at + 1;
    behind < count && are_same(clauses.clause(at), clauses.clause(behind))
}

/// The clauses without each that stands before itself again. It takes a step for each of them.
pub fn without_twins(alloc: Global, found: &Clauses) -> Result<Clauses, AllocError>
    ensures { IfOk result (λ kept. kept ≡ record { atoms = found.now.atoms; clauses = untwinned found.now.clauses }) }
{
    // Its contract says that each clause is one over the atoms.
    let mut kept = Clauses::try_new(alloc, found.atoms())?;
    let count = found.len();
    'clauses: for at in 0..count {
        if comes_again(found, at) {
            continue;
        }
        kept.push(found.clause(at))?;
    }
    Ok(kept)
}

/// The clauses of both, one after another.
pub fn joined(alloc: Global, first: &Clauses, second: &Clauses) -> Result<Clauses, AllocError>
    requires { first.now.atoms ≡ second.now.atoms }
    ensures { IfOk result (λ all. all ≡ record { atoms = first.now.atoms; clauses = first.now.clauses ++ second.now.clauses }) }
{
    let mut all = Clauses::try_new(alloc, first.atoms())?;
    append(&mut all, first)?;
    append(&mut all, second)?;
    Ok(all)
}

// Puts clauses over the same atoms behind the others.
fn append(clauses: &mut Clauses, more: &Clauses) -> Result<(), AllocError>
    requires { clauses.old.atoms ≡ more.now.atoms }
    ensures { OnOk result (clauses.new ≡ record { atoms = clauses.old.atoms; clauses = clauses.old.clauses ++ more.now.clauses }) }
{
    // Its contract says that each clause is one over the atoms.
    more.atoms();
    let count = more.len();
    'clauses: for at in 0..count {
        clauses.push(more.clause(at))?;
    }
    Ok(())
}
