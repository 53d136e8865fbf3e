//! The search.

ghost use Rattle.std.specs.Prelude.{IfOk};
ghost use Rattle.clause_search.specs.Outcomes.{Answers};

use crate::model::valuation_of;
use crate::names::{is_dense, named_log, named_valuation, names_of, small_clauses};
use crate::outcome::Outcome;
use crate::trail::Trail;
use crate::turn::{Tools, Turn, advance};
use clause_log::{Clauses, Log};
use std::alloc::{AllocError, Global};

/// A valuation that makes every clause true, or a log that refutes the clauses: `accepts` takes it, its literals are of
/// atoms from 1 to `atoms`, and its hints are at most 2^63 - 1.
///
/// Literals are decided, and what clauses then force is made true, by two watched literals of each. Of a conflict the
/// clause of the first point through which all its reasons go is learned: it is logged, and forces a literal where the
/// trail is then cut short. Nothing that was learned is forgotten. The search may take time and memory that are
/// exponential in the number of atoms that clauses name.
///
/// Atoms cost what they cost however far apart they are: where they are few in a wide range, small ones stand for them
/// during the search.
///
/// # Example
///
/// From the test `each_call_prints_the_lines_of_its_row` of command_tests, in which `clauses` reads these from a text
/// and prints `model 1 2`.
///
/// ```rust
/// let mut clauses = Clauses::try_new(alloc, 2)?;
/// clauses.push(&[Lit::positive(1), Lit::positive(2)])?;
/// clauses.push(&[Lit::positive(1), Lit::negative(2)])?;
/// clauses.push(&[Lit::negative(1), Lit::positive(2)])?;
/// match solve(alloc, &clauses)? {
///     Outcome::Model(valuation) => assert!(rt; valuation.value(1) && valuation.value(2)),
///     Outcome::Refuted(_) => assert!(rt; false),
/// }
/// ```
pub fn solve(alloc: Global, clauses: &Clauses) -> Result<Outcome, AllocError>
    ensures { IfOk result (λ o. Answers clauses.now o) }
{
    if is_dense(clauses) {
        solve_dense(alloc, clauses)
    } else {
        solve_sparse(alloc, clauses)
    }
}

// The same by small atoms.
fn solve_sparse(alloc: Global, clauses: &Clauses) -> Result<Outcome, AllocError>
    ensures { IfOk result (λ o. Answers clauses.now o) }
{
    let most = clauses.atoms();
    let names = names_of(alloc, clauses)?;
    let small = small_clauses(alloc, clauses, &names)?;
    // Its contract says that each clause is one over the small atoms.
    small.atoms();
    match solve_dense(alloc, &small)? {
        Outcome::Model(valuation) => {
            let named = named_valuation(alloc, &valuation, &names, most)?;
            Ok(Outcome::Model(named))
        }
        Outcome::Refuted(log) => {
            let named = named_log(alloc, &log, &names, most)?;
            Ok(Outcome::Refuted(named))
        }
    }
}

// The same with tables by atom.
fn solve_dense(alloc: Global, clauses: &Clauses) -> Result<Outcome, AllocError>
    ensures { IfOk result (λ o. Answers clauses.now o) }
{
    // Its contract says that each clause is one over the atoms, which the trail's entries rest on.
    clauses.atoms();
    let mut tools = Tools::of(alloc, clauses)?;
    let mut trail = Trail::new(alloc);
    let mut log = Log::try_new(alloc)?;
    'turns: loop {
        match advance(clauses, &mut tools, &mut trail, &mut log)? {
            Turn::GoesOn => {}
            Turn::AllTrue => {
                let valuation = valuation_of(alloc, &trail)?;
                return Ok(Outcome::Model(valuation));
            }
            Turn::Failed => return Ok(Outcome::Refuted(log)),
        }
    }
}
