//! What is learned of a conflict: a cut of the trail, at the first point through which all its reasons go.

ghost use Rattle.std.specs.Prelude.{◌≡◌, ◌⊎◌, ℕ, ◌++◌, [], ◌∷◌, true, OnOk, IfOk, IfSome, length};
ghost use Rattle.clause_log.specs.Refutations.{clause_at as clause_numbered, step_holds, with_steps};
ghost use Rattle.clause_log.specs.Limits.{is_step};
ghost use Rattle.clause_search.specs.Trails.{values_of};
ghost use Rattle.clause_search.specs.Cuts.{cut_literals, is_open, mark_of, marked, nothing_seen, opened, opened_at, IsCut, IsListed, IsWayBack, Jumps, Points};
ghost use Rattle.clause_search.specs.Searches.{IsConflict, IsSearch};
ghost use Rattle.clause_search.specs.declared.marks.Mark.TheVariants.{Resolved};

use crate::marks::Marks;
use crate::order::Order;
use crate::trail::{Entry, Trail};
use clause_log::{Clauses, Lit, Log, clause_at};
use std::alloc::{AllocError, Global};

/// A step for a log, and the marks with which it is worked out. It is kept from one conflict to the next.
#[derive(Drop)]
pub struct Cut {
    pub marks: Marks,
    pub literals: Vec<Lit>,
    pub hints: Vec<u64>,
}

impl Cut {
    /// A cut for `learn` to fill.
    pub fn new(alloc: Global) -> Cut {
        Cut {
            marks: Marks::new(alloc),
            literals: Vec::new(alloc),
            hints: Vec::new(alloc),
        }
    }
}

/// The place to which the trail is cut short, and the literal that is then forced.
#[derive(Clone, Copy, Debug)]
pub struct Jump {
    pub place: usize,
    pub literal: Lit,
}

// Opens those atoms of the clause that have not been seen. The answer is how many of them stand from the last
// decision on.
fn see(
    trail: &Trail,
    order: &mut Order,
    marks: &mut Marks,
    clause: &[Lit],
) -> Result<usize, AllocError>
    ensures { OnOk result ((a : ℕ) → mark_of marks.new a ≡ opened (mark_of marks.old) clause.now a) }
{
    let mut rest = clause;
    let mut count = 0usize;
    'literals: while let [l, more @ ..] = rest {
        if marks.is_unseen(l.atom()) {
            marks.open(*l)?;
            order.bump(l.atom());
            if trail.is_recent(l.atom()) {
                count = count.saturating_add(1);
            }
        }
        rest = more;
    }
    Ok(count)
}

// The place of the earliest decision among the last entries, up to one of an open atom.
fn way_back(entries: &[Entry], marks: &Marks) -> Option<usize>
    ensures { IfSome result (λ place. IsWayBack (mark_of marks.now) entries.now place) }
{
    let mut rest = entries;
    let mut found: Option<usize> = None;
    'entries: while let Some((entry, earlier)) = rest.split_last() {
        if marks.is_open(entry.literal.atom()) {
            return found;
        }
        if entry.reason.is_none() {
            found = Some(earlier.len());
        }
        rest = earlier;
    }
    found
}

// The place of the earliest decision among the last entries, up to one of an open atom; where none is met, that
// behind all.
fn back_or_here(entries: &[Entry], marks: &Marks) -> usize
    ensures { (IsWayBack (mark_of marks.now) entries.now result) ⊎ (result ≡ length entries.now) }
{
    match way_back(entries, marks) {
        Some(place) => place,
        None => entries.len(),
    }
}

// Opens the atoms of the conflict, whose number is the last hint. The answer is as that of `see`.
fn start(
    clauses: &Clauses,
    log: &Log,
    trail: &Trail,
    order: &mut Order,
    marks: &mut Marks,
    hints: &mut Vec<u64>,
    conflict: u64,
) -> Result<usize, AllocError>
    ensures marks { OnOk result ((a : ℕ) → mark_of marks.new a ≡ opened_at nothing_seen (clause_numbered (with_steps clauses.now.clauses log.now) conflict) a) }
    ensures hints { OnOk result (hints.new.items ≡ conflict ∷ []) }
{
    marks.clear();
    hints.clear();
    hints.push(conflict)?;
    match clause_at(clauses, log, conflict) {
        Some(clause) => see(trail, order, marks, clause),
        None => Ok(0),
    }
}

// Resolves an open atom by the clause that forced its value, whose number is a hint more. The answer is as that
// of `see`.
fn resolve(
    clauses: &Clauses,
    log: &Log,
    trail: &Trail,
    order: &mut Order,
    marks: &mut Marks,
    hints: &mut Vec<u64>,
    atom: u64,
    reason: u64,
) -> Result<usize, AllocError>
    requires { is_open (mark_of marks.old atom) ≡ true }
    ensures marks { OnOk result ((a : ℕ) → mark_of marks.new a ≡ opened_at (marked atom Resolved (mark_of marks.old)) (clause_numbered (with_steps clauses.now.clauses log.now) reason) a) }
    ensures hints { OnOk result (hints.new.items ≡ hints.old.items ++ reason ∷ []) }
{
    marks.resolve(atom);
    hints.push(reason)?;
    match clause_at(clauses, log, reason) {
        Some(clause) => see(trail, order, marks, clause),
        None => Ok(0),
    }
}

// Goes back along the trail and resolves what is open, up to the first point through which all reasons go: where
// one atom alone is open among the entries from the last decision on. Where there is none, nothing is left open.
fn walk(
    clauses: &Clauses,
    log: &Log,
    trail: &Trail,
    order: &mut Order,
    marks: &mut Marks,
    hints: &mut Vec<u64>,
    conflict: u64,
) -> Result<Option<Jump>, AllocError>
    requires search { IsSearch clauses.now log.now trail.now }
    requires conflict { IsConflict (with_steps clauses.now.clauses log.now) (values_of trail.now) conflict }
    ensures cut { OnOk result (IsCut (with_steps clauses.now.clauses log.now) trail.now (mark_of marks.new) hints.new.items) }
    ensures point { IfOk result (λ j. Points trail.now (mark_of marks.new) j) }
{
    let mut open = start(clauses, log, trail, order, marks, hints, conflict)?;
    let mut rest = trail.entries();
    'entries: while let Some((entry, earlier)) = rest.split_last() {
        let l = entry.literal;
        if marks.is_open(l.atom()) {
            let Some(reason) = entry.reason else {
                let place = back_or_here(earlier, marks);
                return Ok(Some(Jump {
                    place,
                    literal: l.negated(),
                }));
            };
            if open <= 1 && trail.has_decision() {
                if let Some(place) = way_back(earlier, marks) {
                    return Ok(Some(Jump {
                        place,
                        literal: l.negated(),
                    }));
                }
            }
            let more = resolve(clauses, log, trail, order, marks, hints, l.atom(), reason)?;
            open = open.saturating_sub(1).saturating_add(more);
        }
        rest = earlier;
    }
    Ok(None)
}

// The literals of the open atoms that are false.
fn collect(trail: &Trail, marks: &Marks, literals: &mut Vec<Lit>) -> Result<(), AllocError>
    ensures listed { IsListed (mark_of marks.now) marks.now.seen }
    ensures literals { OnOk result (literals.new.items ≡ cut_literals (mark_of marks.now) (values_of trail.now) marks.now.seen) }
{
    literals.clear();
    let mut rest = marks.seen();
    'seen: while let [l, more @ ..] = rest {
        if marks.is_open(l.atom()) {
            match trail.value(*l) {
                Some(true) => literals.push(l.negated())?,
                Some(false) => literals.push(*l)?,
                None => {}
            }
        }
        rest = more;
    }
    Ok(())
}

/// Works out what is learned of a conflict: a step that holds, and the place to which the trail is cut short, where
/// its clause then forces a literal. Where there is no such place, the clause is empty.
///
/// The clause is that of the first point through which all reasons of the last level go; its hints are the clauses
/// resolved, in the order of the trail, and then the conflict.
pub fn learn(
    clauses: &Clauses,
    log: &Log,
    trail: &Trail,
    order: &mut Order,
    cut: &mut Cut,
    conflict: u64,
) -> Result<Option<Jump>, AllocError>
    requires search { IsSearch clauses.now log.now trail.now }
    requires conflict { IsConflict (with_steps clauses.now.clauses log.now) (values_of trail.now) conflict }
    ensures holds { OnOk result (step_holds (with_steps clauses.now.clauses log.now) (record { literals = cut.new.literals.items; hints = cut.new.hints.items }) ≡ true) }
    ensures within { OnOk result (is_step clauses.now.atoms (record { literals = cut.new.literals.items; hints = cut.new.hints.items }) ≡ true) }
    ensures jump { IfOk result (λ j. Jumps trail.now cut.new.literals.items j) }
{
    let jump = walk(
        clauses,
        log,
        trail,
        order,
        &mut cut.marks,
        &mut cut.hints,
        conflict,
    )?;
    collect(trail, &cut.marks, &mut cut.literals)?;
    cut.hints.reverse();
    Ok(jump)
}
