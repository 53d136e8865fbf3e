//! A turn of a search.

ghost use Rattle.std.specs.Prelude.{◌≡◌, ◌+◌, [], Some, true, IfOk, IfSome, OnOk, length, slice_index_or, take};
ghost use Rattle.std.specs.List.{list_all};
ghost use Rattle.clause_log.specs.Literals.{is_clause};
ghost use Rattle.clause_log.specs.Refutations.{clause_at, with_steps};
ghost use Rattle.clause_log.specs.Limits.{is_hint};
ghost use Rattle.clause_search.specs.Trails.{values_of};
ghost use Rattle.clause_search.specs.Searches.{IsConflict, IsSearch, Picks, Turns};

use crate::clause::{Choice, choice_of};
use crate::cut::{Cut, learn};
use crate::order::Order;
use crate::propagate::propagate;
use crate::trail::Trail;
use crate::watches::Watches;
use clause_log::{Clauses, Lit, Log};
use std::alloc::{AllocError, Global};

/// What came of a turn.
#[derive(Clone, Copy, Debug)]
pub enum Turn {
    /// Neither yet.
    GoesOn,
    /// Every clause has a true literal.
    AllTrue,
    /// The log is a refutation.
    Failed,
}

/// What is to be done where nothing is forced and the order gives no literal.
#[derive(Clone, Copy, Debug)]
pub enum Pick {
    /// This literal has no value.
    Decide(Lit),
    /// The literals of the clause at this place are false.
    Conflict(usize),
    /// Every clause has a true literal.
    Nothing,
}

/// What a search works with besides its trail and its log. No answer rests on it.
#[derive(Drop)]
pub struct Tools {
    pub order: Order,
    pub watches: Watches,
    pub cut: Cut,
}

impl Tools {
    /// The tools for a search among these clauses.
    pub fn of(alloc: Global, clauses: &Clauses) -> Result<Tools, AllocError> {
        let order = Order::of(alloc, clauses)?;
        let watches = Watches::of(alloc, clauses)?;
        Ok(Tools {
            order,
            watches,
            cut: Cut::new(alloc),
        })
    }
}

// Half the numbers that a clause may have.
const HALF: usize = 0x3fff_ffff_ffff_ffff;

/// One turn: what clauses force is made true; then a conflict is learned and the trail cut short, or, without a
/// conflict, a literal decided.
pub fn advance(
    clauses: &Clauses,
    tools: &mut Tools,
    trail: &mut Trail,
    log: &mut Log,
) -> Result<Turn, AllocError>
    requires all { list_all (is_clause clauses.now.atoms) clauses.now.clauses ≡ true }
    requires search { IsSearch clauses.now log.old trail.old }
    ensures { IfOk result (λ t. Turns clauses.now trail.old log.new trail.new t) }
{
    let from = trail.entries().len().saturating_sub(1);
    match propagate(clauses, log, &mut tools.watches, trail, from)? {
        Some(number) => turn_back(clauses, tools, trail, log, number),
        None => decide(clauses, tools, trail, log),
    }
}

// Decides the next literal of the order, or one of a clause that isn't true yet.
fn decide(
    clauses: &Clauses,
    tools: &mut Tools,
    trail: &mut Trail,
    log: &mut Log,
) -> Result<Turn, AllocError>
    requires all { list_all (is_clause clauses.now.atoms) clauses.now.clauses ≡ true }
    requires search { IsSearch clauses.now log.old trail.old }
    ensures { IfOk result (λ t. Turns clauses.now trail.old log.new trail.new t) }
{
    match next_pick(clauses, &mut tools.order, trail) {
        Pick::Nothing => Ok(Turn::AllTrue),
        Pick::Decide(l) => {
            trail.push(l, None)?;
            Ok(Turn::GoesOn)
        }
        Pick::Conflict(at) => {
            let Some(number) = number_of(clauses, at) else {
                return Err(AllocError);
            };
            turn_back(clauses, tools, trail, log, number)
        }
    }
}

// What is to be done: by the order, and where that is empty by a look at all clauses.
fn next_pick(clauses: &Clauses, order: &mut Order, trail: &Trail) -> Pick
    requires { list_all (is_clause clauses.now.atoms) clauses.now.clauses ≡ true }
    ensures { Picks clauses.now (values_of trail.now) result }
{
    match order.next(trail) {
        Some(l) if l.atom() <= clauses.atoms() => Pick::Decide(l),
        _ => last_look(clauses, trail),
    }
}

// What is to be done, by the first clause without a true literal.
fn last_look(clauses: &Clauses, trail: &Trail) -> Pick
    requires { list_all (is_clause clauses.now.atoms) clauses.now.clauses ≡ true }
    ensures { Picks clauses.now (values_of trail.now) result }
{
    let count = clauses.len();
    'clauses: for at in 0..count {
        match choice_of(trail, clauses.clause(at)) {
            Choice::True => {}
            Choice::Open(l) => return Pick::Decide(l),
            Choice::False => return Pick::Conflict(at),
        }
    }
    Pick::Nothing
}

// The number of the clause at this place. (No memory holds so many that a place has none.)
fn number_of(clauses: &Clauses, at: usize) -> Option<u64>
    ensures clause { IfSome result (λ h. clause_at clauses.now.clauses h ≡ Some (slice_index_or clauses.now.clauses at [])) }
    ensures hint { IfSome result (λ h. is_hint h ≡ true) }
{
    if at < clauses.len() && at < HALF {
        Some(at as u64 + 1)
    } else {
        None
    }
}

// The number that the next step has. (No memory holds so many clauses and steps that it has none.)
fn next_number(clauses: &Clauses, log: &Log) -> Option<u64>
    ensures number { IfSome result (λ h. h ≡ length clauses.now.clauses + length log.now + 1) }
    ensures hint { IfSome result (λ h. is_hint h ≡ true) }
{
    let count = clauses.len();
    let steps = log.len();
    if count < HALF && steps < HALF {
        Some(count as u64 + steps as u64 + 1)
    } else {
        None
    }
}

// Takes the entries from this place on away.
fn undo(trail: &mut Trail, order: &mut Order, place: usize) -> Result<(), AllocError>
    ensures { OnOk result (trail.new ≡ take place trail.old) }
{
    'entries: while trail.entries().len() > place {
        if let Some(entry) = trail.pop() {
            order.put_back(entry.literal)?;
        }
    }
    Ok(())
}

// Watches what was learned, by the literal that it forces and the last one beside it that the trail has.
fn watch(
    watches: &mut Watches,
    trail: &Trail,
    number: u64,
    literals: &[Lit],
    forced: Lit,
) -> Result<(), AllocError> {
    let mut last: Option<Lit> = None;
    let mut latest = 0usize;
    for l in literals {
        let place = trail.place(l.atom());
        if *l != forced && (last.is_none() || place > latest) {
            last = Some(*l);
            latest = place;
        }
    }
    match last {
        Some(l) => watches.enter(number, forced, l),
        None => Ok(()),
    }
}

// Logs what is learned of the conflict, cuts the trail short, and makes true there what is learned. Where that is
// an empty clause, the log is a refutation.
fn turn_back(
    clauses: &Clauses,
    tools: &mut Tools,
    trail: &mut Trail,
    log: &mut Log,
    conflict: u64,
) -> Result<Turn, AllocError>
    requires search { IsSearch clauses.now log.old trail.old }
    requires conflict { IsConflict (with_steps clauses.now.clauses log.old) (values_of trail.old) conflict }
    ensures { IfOk result (λ t. Turns clauses.now trail.old log.new trail.new t) }
{
    let Some(number) = next_number(clauses, log) else {
        return Err(AllocError);
    };
    let jump = learn(
        clauses,
        log,
        trail,
        &mut tools.order,
        &mut tools.cut,
        conflict,
    )?;
    tools.order.age();
    log.push(&tools.cut.literals, &tools.cut.hints)?;
    let Some(jump) = jump else {
        return Ok(Turn::Failed);
    };
    watch(
        &mut tools.watches,
        trail,
        number,
        &tools.cut.literals,
        jump.literal,
    )?;
    undo(trail, &mut tools.order, jump.place)?;
    trail.push(jump.literal, Some(number))?;
    Ok(Turn::GoesOn)
}
