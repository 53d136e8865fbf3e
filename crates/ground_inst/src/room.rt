//! Room for clauses: how many there are, by arithmetic that stays at 2^64 - 1. No contract speaks of it, since rows grow where
//! room is wanted.
#![tactic(auto)]

use crate::facts::{Facts, UsedRelation};
use csdn_core::program::Parts;
use csdn_core::syntax::Formula;
use csdn_core::terms::Sort;
use fol_forms::instances::Counts;
use fol_forms::signed::{Signed, view};

/// Clauses, and the literals of all of them.
#[derive(Clone, Copy)]
pub struct Room {
    pub clauses: u64,
    pub literals: u64,
}

impl Room {
    // So many clauses, each with so many literals.
    fn of(clauses: u64, length: u64) -> Room {
        Room {
            clauses,
            literals: clauses.saturating_mul(length),
        }
    }

    fn and(self, more: Room) -> Room {
        Room {
            clauses: self.clauses.saturating_add(more.clauses),
            literals: self.literals.saturating_add(more.literals),
        }
    }

    fn times(self, count: u64) -> Room {
        Room {
            clauses: self.clauses.saturating_mul(count),
            literals: self.literals.saturating_mul(count),
        }
    }
}

/// What the clauses of a formula's copies and of equality take. It is what they have, but for disjunctions of a literal with itself
/// or its negation, which have fewer. It takes as many steps as the formula has nodes, and no memory.
pub fn room_of(parts: &Parts, facts: &Facts, formula: &Formula) -> Room {
    let counts = &facts.counts;
    let whole = copied(counts, formula, true).and(Room::of(1, 1));
    let numerals = numerals_of(parts, Sort::Pr);
    whole
        .and(of_sort(counts.of(Sort::Sw), 0))
        .and(of_sort(counts.of(Sort::Ho), 0))
        .and(of_sort(counts.of(Sort::Pr), numerals))
        .and(of_relations(parts, counts, facts.relations.as_slice()))
        .and(Room::of(pairs(numerals), 1))
}

// The conjunctions and disjunctions of copies.
fn copied(counts: &Counts, formula: &Formula, sign: bool) -> Room {
    match view(formula, sign) {
        Signed::Truth(_) | Signed::Atom(_, _, _) | Signed::Equal(_, _, _) => Room::of(0, 0),
        Signed::Both(p, q) => conjunction(
            copied(counts, p.formula, p.sign),
            copied(counts, q.formula, q.sign),
        ),
        Signed::Either(p, q) => disjunction(
            copied(counts, p.formula, p.sign),
            copied(counts, q.formula, q.sign),
        ),
        Signed::Cases(p, q) => disjunction(
            conjunction(
                copied(counts, p.formula, p.sign),
                copied(counts, q.formula, q.sign),
            ),
            conjunction(
                copied(counts, p.formula, !p.sign),
                copied(counts, q.formula, !q.sign),
            ),
        ),
        Signed::Forall(_, sort, p) => { each(counts.of(sort), copied(counts, p.formula, p.sign)) }
        Signed::Exists(_, _, p) => copied(counts, p.formula, p.sign),
    }
}

fn conjunction(p: Room, q: Room) -> Room {
    p.and(q).and(Room::of(2, 2))
}

fn disjunction(p: Room, q: Room) -> Room {
    p.and(q).and(Room::of(1, 3))
}

// The conjunction of so many copies.
fn each(count: u64, one: Room) -> Room {
    match count {
        0 => Room::of(0, 0),
        1 => one,
        _ => one.and(Room::of(1, 2)).times(count),
    }
}

fn numerals_of(parts: &Parts, sort: Sort) -> u64 {
    match sort {
        Sort::Pr => parts.numerals.as_slice().len() as u64,
        _ => 0,
    }
}

// How many pairs so many things have.
fn pairs(count: u64) -> u64 {
    count.saturating_mul(count.saturating_sub(1)) / 2
}

// The constants of a sort are equal to themselves, and equality is transitive: a chain has any two ends, and between them a
// constant that either of them may be.
fn of_sort(count: u64, numerals: u64) -> Room {
    let others = count.saturating_sub(numerals);
    let around_numerals = numerals.saturating_mul(pairs(others));
    let around_others = others.saturating_mul(pairs(count.saturating_sub(1)));
    Room::of(count, 1)
        .and(Room::of(around_numerals, 3))
        .and(Room::of(around_others, 3))
}

// Equal constants replace each other in tuples.
fn of_relations(parts: &Parts, counts: &Counts, relations: &[UsedRelation]) -> Room {
    let mut room = Room::of(0, 0);
    for used in relations {
        room = room.and(of_relation(parts, counts, used.sorts.as_slice()));
    }
    room
}

fn of_relation(parts: &Parts, counts: &Counts, sorts: &[Sort]) -> Room {
    let tuples = tuples_of(counts, sorts);
    let mut room = Room::of(0, 0);
    for sort in sorts {
        let count = counts.of(*sort);
        if count > 0 {
            let changes = changes_of(count, numerals_of(parts, *sort));
            room = room.and(Room::of((tuples / count).saturating_mul(changes), 3));
        }
    }
    room
}

fn tuples_of(counts: &Counts, sorts: &[Sort]) -> u64 {
    let mut tuples: u64 = 1;
    for sort in sorts {
        tuples = tuples.saturating_mul(counts.of(*sort));
    }
    tuples
}

// How often one of so many constants can be exchanged for another one that it may be, which no two numerals may.
fn changes_of(count: u64, numerals: u64) -> u64 {
    let others = count.saturating_sub(numerals);
    others.saturating_mul(count.saturating_sub(1).saturating_add(numerals))
}
