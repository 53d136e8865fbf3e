//! Clauses over few atoms in place of clauses over a wide range of them, and the way back.

ghost use Rattle.std.specs.Prelude.{◌≡◌, ◌<◌, ◌≤◌, ◌^◌, ◌++◌, ◌∷◌, [], ℕ, true, false, IfOk, IfSome, OnOk, length, map, slice_index};
ghost use Rattle.std.specs.List.{list_all};
ghost use Rattle.clause_log.specs.Literals.{is_clause, is_within, truths};
ghost use Rattle.clause_log.specs.Limits.{is_step};
ghost use Rattle.clause_search.specs.Names.{named, named_clause, named_step, AreNames, IsNamedValuation};

use clause_log::{Clauses, Lit, Log, Valuation};
use std::alloc::{AllocError, Global};

// Half the greatest number of an atom.
const HALF: usize = 0x1fff_ffff_ffff_ffff;

/// Whether the greatest atom is small beside the number of literals, so that tables by atom cost no more than these.
pub fn is_dense(clauses: &Clauses) -> bool {
    let count = clauses.len();
    let mut literals = 1000u64;
    for at in 0..count {
        literals = literals.saturating_add(clauses.clause(at).len() as u64);
    }
    clauses.atoms() <= literals.saturating_mul(2)
}

fn all_atoms(alloc: Global, clauses: &Clauses) -> Result<Vec<u64>, AllocError> {
    let mut atoms = Vec::new(alloc);
    let count = clauses.len();
    for at in 0..count {
        for l in clauses.clause(at) {
            atoms.push(l.atom())?;
        }
    }
    atoms.sort_unstable();
    Ok(atoms)
}

/// The atoms that clauses name, rising, each once.
pub fn names_of(alloc: Global, clauses: &Clauses) -> Result<Vec<u64>, AllocError>
    ensures { IfOk result (λ names. AreNames clauses.now.atoms names.items) }
{
    let atoms = all_atoms(alloc, clauses)?;
    let most = clauses.atoms();
    let mut names = Vec::new(alloc);
    let mut last = 0u64;
    let mut rest = atoms.as_slice();
    'atoms: while let [atom, more @ ..] = rest {
        if last < *atom && *atom <= most {
            names.push(*atom)?;
            last = *atom;
        }
        rest = more;
    }
    Ok(names)
}

// The small literal that a literal is the name of. (Each atom of a clause has a name.)
fn small(names: &[u64], l: Lit) -> Option<Lit>
    ensures named { IfSome result (λ s. named names.now s ≡ l) }
    ensures within { IfSome result (λ s. is_within (length names.now) s ≡ true) }
{
    let Ok(place) = names.binary_search(&l.atom()) else {
        return None;
    };
    if place >= names.len() || place >= HALF || names[place] != l.atom() {
        return None;
    }
    let atom = place as u64 + 1;
    Some(if l.is_positive() {
        Lit::positive(atom)
    } else {
        Lit::negative(atom)
    })
}

// The small literals of a clause.
fn small_clause(alloc: Global, names: &[u64], literals: &[Lit]) -> Result<Vec<Lit>, AllocError>
    ensures named { IfOk result (λ c. named_clause names.now c.items ≡ literals.now) }
    ensures within { IfOk result (λ c. list_all (is_within (length names.now)) c.items ≡ true) }
{
    let mut found = Vec::new(alloc);
    let mut rest = literals;
    'literals: while let [l, more @ ..] = rest {
        let Some(literal) = small(names, *l) else {
            return Err(AllocError);
        };
        found.push(literal)?;
        rest = more;
    }
    Ok(found)
}

/// The clauses over small atoms that the names make these ones.
pub fn small_clauses(alloc: Global, clauses: &Clauses, names: &[u64]) -> Result<Clauses, AllocError>
    requires { AreNames clauses.now.atoms names.now }
    ensures atoms { IfOk result (λ c. c.atoms ≡ length names.now) }
    ensures named { IfOk result (λ c. map (named_clause names.now) c.clauses ≡ clauses.now.clauses) }
{
    if names.len() >= HALF {
        return Err(AllocError);
    }
    // Its contract says that each clause has distinct atoms.
    clauses.atoms();
    let mut found = Clauses::try_new(alloc, names.len() as u64)?;
    let count = clauses.len();
    'clauses: for at in 0..count {
        let literals = small_clause(alloc, names, clauses.clause(at))?;
        found.push(&literals)?;
    }
    Ok(found)
}

fn put_if(trues: &mut Vec<u64>, holds: bool, name: u64) -> Result<(), AllocError>
    ensures put { OnOk result (holds ≡ true → trues.new.items ≡ trues.old.items ++ name ∷ []) }
    ensures left_out { OnOk result (holds ≡ false → trues.new.items ≡ trues.old.items) }
{
    if holds {
        trues.push(name)?;
    }
    Ok(())
}

fn named_trues(
    alloc: Global,
    valuation: &Valuation,
    names: &[u64],
    most: u64,
) -> Result<Vec<u64>, AllocError>
    requires { AreNames most names.now }
    ensures { IfOk result (λ v. IsNamedValuation names.now (truths valuation.now) (truths v.items)) }
{
    let mut trues = Vec::new(alloc);
    let mut at = 0usize;
    'names: while at < names.len() {
        put_if(&mut trues, valuation.value(at as u64 + 1), names[at])?;
        at += 1;
    }
    Ok(trues)
}

/// The valuation that gives each name the value of its small atom.
pub fn named_valuation(
    alloc: Global,
    valuation: &Valuation,
    names: &[u64],
    most: u64,
) -> Result<Valuation, AllocError>
    requires { AreNames most names.now }
    ensures { IfOk result (λ v. IsNamedValuation names.now (truths valuation.now) (truths v)) }
{
    let mut trues = named_trues(alloc, valuation, names, most)?;
    trues.sort_unstable();
    Ok(Valuation::from_true_atoms(trues))
}

// The literal that the names make of a small one.
fn named_literal(names: &[u64], l: Lit, most: u64) -> Lit
    requires names { AreNames most names.now }
    requires most { most < 2 ^ 62 }
    requires within { is_within (length names.now) l ≡ true }
    ensures { result ≡ named names.now l }
{
    let atom = names[l.atom() as usize - 1];
    if l.is_positive() {
        Lit::positive(atom)
    } else {
        Lit::negative(atom)
    }
}

fn named_literals(
    alloc: Global,
    literals: &[Lit],
    names: &[u64],
    most: u64,
) -> Result<Vec<Lit>, AllocError>
    requires names { AreNames most names.now }
    requires most { most < 2 ^ 62 }
    requires within { list_all (is_within (length names.now)) literals.now ≡ true }
    ensures { IfOk result (λ c. c.items ≡ named_clause names.now literals.now) }
{
    let mut found = Vec::new(alloc);
    let mut rest = literals;
    'literals: while let [l, more @ ..] = rest {
        found.push(named_literal(names, *l, most))?;
        rest = more;
    }
    Ok(found)
}

/// The log that the names make of one over small atoms.
pub fn named_log(alloc: Global, log: &Log, names: &[u64], most: u64) -> Result<Log, AllocError>
    requires names { AreNames most names.now }
    requires most { most < 2 ^ 62 }
    requires within { list_all (is_step (length names.now)) log.now ≡ true }
    ensures { IfOk result (λ l. l ≡ map (named_step names.now) log.now) }
{
    let mut found = Log::try_new(alloc)?;
    let count = log.len();
    'steps: for at in 0..count {
        let literals = named_literals(alloc, log.literals(at), names, most)?;
        found.push(&literals, log.hints(at))?;
    }
    Ok(found)
}
