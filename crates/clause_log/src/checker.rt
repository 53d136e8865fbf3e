//! The checker of logs.

ghost use Rattle.std.specs.Prelude.{◌≡◌, ◌<◌, ◌≤◌, ℕ, Bool, true, IfOk, length, option_copied, slice_index_or};
ghost use Rattle.clause_log.specs.Literals.{IsModel};
ghost use Rattle.clause_log.specs.Refutations.{clause_at as clause_numbered, ends_empty as ends_in_empty, is_refutation, known, no_step, reaches_conflict as reaches, step_holds as holds, with_steps};
ghost use Rattle.clause_log.specs.Values.{assigned};

use crate::assignment::{Values, assign, false_alone, is_conflict, unit};
use crate::clauses::Clauses;
use crate::lit::Lit;
use crate::log::Log;
use std::alloc::{AllocError, Global};

/// The greatest hint that a log text can give.
pub const MOST_HINT: u64 = 0x7fff_ffff_ffff_ffff;

/// The clause of this number, of the clauses and then of all steps of the log, where there is one. Numbers begin
/// at 1. The cost is constant.
pub fn clause_at<'a>(clauses: &'a Clauses, log: &'a Log, number: u64) -> Option<&'a [Lit]>
    ensures { option_copied result ≡ clause_numbered (with_steps clauses.now.clauses log.now) number }
{
    clause_among(clauses, log, log.len(), number)
}

// The clause of this number, of the clauses and of this many steps.
fn clause_among<'a>(
    clauses: &'a Clauses,
    log: &'a Log,
    steps: usize,
    number: u64,
) -> Option<&'a [Lit]>
    requires { steps ≤ length log.now }
    ensures { option_copied result ≡ clause_numbered (known clauses.now.clauses log.now steps) number }
{
    let count = clauses.len() as u64;
    if number == 0 {
        return None;
    }
    let at = number - 1;
    if at < count {
        return Some(clauses.clause(at as usize));
    }
    let step = at - count;
    if step < steps as u64 {
        Some(log.literals(step as usize))
    } else {
        None
    }
}

// Whether the hints of the step at this place reach a conflict from this assignment, among the clauses and
// those of the steps before it.
fn reaches_conflict(
    values: &mut Values,
    clauses: &Clauses,
    log: &Log,
    at: usize,
) -> Result<bool, AllocError>
    requires { at < length log.now }
    ensures { IfOk result (λ b. b ≡ reaches (known clauses.now.clauses log.now at) (slice_index_or log.now at no_step).hints (assigned values.old)) }
{
    let mut rest = log.hints(at);
    'hints: while let [hint, more @ ..] = rest {
        let Some(clause) = clause_among(clauses, log, at, *hint) else {
            return Ok(false);
        };
        if more.is_empty() {
            return Ok(is_conflict(values, clause));
        }
        let Some(forced) = unit(values, clause) else {
            return Ok(false);
        };
        assign(values, forced)?;
        rest = more;
    }
    Ok(false)
}

// Whether the step at this place holds over the clauses and those of the steps before it.
fn step_holds(alloc: Global, clauses: &Clauses, log: &Log, at: usize) -> Result<bool, AllocError>
    requires { at < length log.now }
    ensures { IfOk result (λ b. b ≡ holds (known clauses.now.clauses log.now at) (slice_index_or log.now at no_step)) }
{
    let mut values = false_alone(alloc, log.literals(at))?;
    reaches_conflict(&mut values, clauses, log, at)
}

// Whether there is a step, and the last one has no literal.
fn ends_empty(log: &Log) -> bool
    ensures { result ≡ ends_in_empty log.now }
{
    let count = log.len();
    if count == 0 {
        return false;
    }
    log.literals(count - 1).is_empty()
}

/// Whether the log refutes the clauses: it has a step, all its steps hold, and the last one has no literal.
///
/// A step holds where it has a hint, its hints are numbers of earlier clauses and, with its literals false,
/// each hint but the last names a clause with exactly one literal that isn't false and has no value yet, which
/// it then gets, and the last hint names a clause with false literals alone. Clauses are numbered from 1; the
/// steps go on with the numbers. Where the answer is yes, no valuation makes every clause true.
///
/// A step takes n log n steps of time in the number n of its literals and of those of the clauses that its
/// hints name. Values are kept for atoms that these name, and for no longer than the step.
pub fn accepts(alloc: Global, clauses: &Clauses, log: &Log) -> Result<bool, AllocError>
    ensures exact { IfOk result (λ b. b ≡ is_refutation clauses.now.clauses log.now) }
    ensures sound { IfOk result (λ b. b ≡ true → (v : ℕ → Bool) → IsModel v clauses.now.clauses → ⊥) }
{
    let count = log.len();
    'steps: for at in 0..count {
        if !step_holds(alloc, clauses, log, at)? {
            return Ok(false);
        }
    }
    Ok(ends_empty(log))
}
