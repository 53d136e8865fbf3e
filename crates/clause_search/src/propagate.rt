//! Making true what clauses force.

ghost use Rattle.std.specs.Prelude.{◌≡◌, ◌<◌, ◌+◌, ◌^◌, true, OnOk, IfOk, IfSome, length};
ghost use Rattle.std.specs.List.{list_all};
ghost use Rattle.clause_log.specs.Literals.{is_clause};
ghost use Rattle.clause_log.specs.Refutations.{with_steps};
ghost use Rattle.clause_log.specs.Limits.{is_hint as is_given_hint};
ghost use Rattle.clause_search.specs.Trails.{Extends, values_of};
ghost use Rattle.clause_search.specs.Searches.{MayConflict};

use crate::clause::{Verdict, verdict_of};
use crate::trail::Trail;
use crate::watches::{Look, Watch, Watches, is_true};
use clause_log::{Clauses, Lit, Log, MOST_HINT, clause_at};
use std::alloc::AllocError;

// Whether a log can give the number.
fn is_hint(number: u64) -> bool
    ensures { result ≡ is_given_hint number }
{
    number != 0 && number <= MOST_HINT
}

// Makes true what the clause of this number forces. The answer is the number where its literals are false.
fn visit(
    clauses: &Clauses,
    log: &Log,
    trail: &mut Trail,
    number: u64,
) -> Result<Option<u64>, AllocError>
    requires { list_all (is_clause clauses.now.atoms) (with_steps clauses.now.clauses log.now) ≡ true }
    ensures extends { OnOk result (Extends clauses.now.atoms (with_steps clauses.now.clauses log.now) trail.old trail.new) }
    ensures conflict { IfOk result (λ h. MayConflict (with_steps clauses.now.clauses log.now) (values_of trail.new) h) }
{
    if !is_hint(number) {
        return Ok(None);
    }
    let Some(clause) = clause_at(clauses, log, number) else {
        return Ok(None);
    };
    match verdict_of(trail, clause) {
        Verdict::Quiet => Ok(None),
        Verdict::Conflict => Ok(Some(number)),
        Verdict::Forces(l) => {
            trail.push(l, Some(number))?;
            Ok(None)
        }
    }
}

// The same for each of the clauses, up to the first conflict.
fn visit_each(clauses: &Clauses, log: &Log, trail: &mut Trail) -> Result<Option<u64>, AllocError>
    requires { list_all (is_clause clauses.now.atoms) (with_steps clauses.now.clauses log.now) ≡ true }
    ensures extends { OnOk result (Extends clauses.now.atoms (with_steps clauses.now.clauses log.now) trail.old trail.new) }
    ensures conflict { IfOk result (λ h. MayConflict (with_steps clauses.now.clauses log.now) (values_of trail.new) h) }
{
    let count = clauses.len();
    let mut number = 0u64;
    'clauses: for _ in 0..count {
        number = number.saturating_add(1);
        let found = visit(clauses, log, trail, number)?;
        if found.is_some() {
            return Ok(found);
        }
    }
    Ok(None)
}

// The same for each clause that is watched by this literal, which has become false.
fn visit_list(
    clauses: &Clauses,
    log: &Log,
    watches: &mut Watches,
    trail: &mut Trail,
    list: &mut Vec<Watch>,
    l: Lit,
) -> Result<Option<u64>, AllocError>
    requires { list_all (is_clause clauses.now.atoms) (with_steps clauses.now.clauses log.now) ≡ true }
    ensures extends { OnOk result (Extends clauses.now.atoms (with_steps clauses.now.clauses log.now) trail.old trail.new) }
    ensures conflict { IfOk result (λ h. MayConflict (with_steps clauses.now.clauses log.now) (values_of trail.new) h) }
{
    let mut at = 0;
    'watches: while at < list.len() {
        let watch = list[at];
        if is_true(trail, watch.other) {
            at += 1;
            continue;
        }
        match watches.look(clauses, log, trail, watch.clause, l)? {
            Look::IsTrue(other) => {
                list[at] = Watch {
                    clause: watch.clause,
                    other,
                };
                at += 1;
            }
            Look::Moved => {
                list.swap_remove(at);
            }
            Look::Visit(number) => {
                let found = visit(clauses, log, trail, number)?;
                if found.is_some() {
                    return Ok(found);
                }
                at += 1;
            }
        }
    }
    Ok(None)
}

// The same, with the list of the literal.
fn visit_watches(
    clauses: &Clauses,
    log: &Log,
    watches: &mut Watches,
    trail: &mut Trail,
    l: Lit,
) -> Result<Option<u64>, AllocError>
    requires { list_all (is_clause clauses.now.atoms) (with_steps clauses.now.clauses log.now) ≡ true }
    ensures extends { OnOk result (Extends clauses.now.atoms (with_steps clauses.now.clauses log.now) trail.old trail.new) }
    ensures conflict { IfOk result (λ h. MayConflict (with_steps clauses.now.clauses log.now) (values_of trail.new) h) }
{
    let mut list = watches.take(l);
    let found = visit_list(clauses, log, watches, trail, &mut list, l);
    watches.give_back(l, list);
    found
}

// The literal at this place of a trail.
fn literal_at(trail: &Trail, at: usize) -> Option<Lit>
    ensures within { IfSome result (λ _. at < length trail.now) }
    ensures small { IfSome result (λ _. at + 1 < 2 ^ 64) }
{
    let entry = trail.entries().get(at)?;
    Some(entry.literal)
}

/// Makes true what clauses force by the literals from this place of the trail on, and by what they force;
/// of a trail without entries, also what clauses force alone. The answer is the number of a conflict, where one is
/// met.
pub fn propagate(
    clauses: &Clauses,
    log: &Log,
    watches: &mut Watches,
    trail: &mut Trail,
    from: usize,
) -> Result<Option<u64>, AllocError>
    requires { list_all (is_clause clauses.now.atoms) (with_steps clauses.now.clauses log.now) ≡ true }
    ensures extends { OnOk result (Extends clauses.now.atoms (with_steps clauses.now.clauses log.now) trail.old trail.new) }
    ensures conflict { IfOk result (λ h. MayConflict (with_steps clauses.now.clauses log.now) (values_of trail.new) h) }
{
    if trail.entries().is_empty() {
        let found = visit_each(clauses, log, trail)?;
        if found.is_some() {
            return Ok(found);
        }
    }
    spread(clauses, log, watches, trail, from)
}

// The same, by the literals of the trail alone.
fn spread(
    clauses: &Clauses,
    log: &Log,
    watches: &mut Watches,
    trail: &mut Trail,
    from: usize,
) -> Result<Option<u64>, AllocError>
    requires { list_all (is_clause clauses.now.atoms) (with_steps clauses.now.clauses log.now) ≡ true }
    ensures extends { OnOk result (Extends clauses.now.atoms (with_steps clauses.now.clauses log.now) trail.old trail.new) }
    ensures conflict { IfOk result (λ h. MayConflict (with_steps clauses.now.clauses log.now) (values_of trail.new) h) }
{
    let mut next = from;
    'literals: while let Some(l) = literal_at(trail, next) {
        let found = visit_watches(clauses, log, watches, trail, l.negated())?;
        if found.is_some() {
            return Ok(found);
        }
        next += 1;
    }
    Ok(None)
}
