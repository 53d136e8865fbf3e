//! For each literal, the clauses that are looked at when it becomes false.

use crate::trail::Trail;
use clause_log::{Clauses, Lit, Log, clause_at};
use std::alloc::{AllocError, Global};

/// An entry in the list of one of the two literals by which a clause is watched.
#[derive(Clone, Copy, Debug)]
pub struct Watch {
    /// Where the clause stands among those that are watched.
    pub clause: usize,
    /// Another literal of the clause: while it is true, the clause forces nothing.
    pub other: Lit,
}

// A clause's number, and the two literals by which it is watched.
#[derive(Clone, Copy, Debug)]
struct Watched {
    number: u64,
    first: Lit,
    second: Lit,
}

/// What is to be done with a clause of which a watched literal has become false.
#[derive(Clone, Copy, Debug)]
pub enum Look {
    /// Its other watched literal is true.
    IsTrue(Lit),
    /// It is watched by another literal now.
    Moved,
    /// All its other literals but one are false, in the clause of this number.
    Visit(u64),
}

/// Two watched literals for each clause of two literals or more. It saves time, and no answer rests on it.
#[derive(Drop)]
pub struct Watches {
    alloc: Global,
    // By literal.
    lists: Vec<Vec<Watch>>,
    clauses: Vec<Watched>,
}

fn place_of(l: Lit) -> usize {
    let sign = if l.is_positive() { 1 } else { 0 };
    (l.atom() as usize).saturating_mul(2).saturating_add(sign)
}

impl Watches {
    /// The watches of these clauses, by the first two literals of each.
    pub fn of(alloc: Global, clauses: &Clauses) -> Result<Watches, AllocError> {
        let mut watches = Watches {
            alloc,
            lists: Vec::new(alloc),
            clauses: Vec::new(alloc),
        };
        let count = clauses.len();
        let mut number = 0u64;
        'clauses: for at in 0..count {
            number = number.saturating_add(1);
            if let [first, second, ..] = clauses.clause(at) {
                watches.enter(number, *first, *second)?;
            }
        }
        Ok(watches)
    }

    /// Watches the clause of this number by these of its literals.
    pub fn enter(&mut self, number: u64, first: Lit, second: Lit) -> Result<(), AllocError> {
        let clause = self.clauses.len();
        self.clauses.push(Watched {
            number,
            first,
            second,
        })?;
        self.list(
            first,
            Watch {
                clause,
                other: second,
            },
        )?;
        self.list(
            second,
            Watch {
                clause,
                other: first,
            },
        )
    }

    fn list(&mut self, l: Lit, watch: Watch) -> Result<(), AllocError> {
        let place = place_of(l);
        'room: for _ in self.lists.len()..place.saturating_add(1) {
            self.lists.push(Vec::new(self.alloc))?;
        }
        if let Some(list) = self.lists.get_mut(place) {
            list.push(watch)?;
        }
        Ok(())
    }

    /// Takes away the list of the clauses that a literal watches.
    pub fn take(&mut self, l: Lit) -> Vec<Watch> {
        let empty = Vec::new(self.alloc);
        match self.lists.get_mut(place_of(l)) {
            Some(list) => std::mem::replace(list, empty),
            None => empty,
        }
    }

    /// Gives back the list that was taken of a literal.
    pub fn give_back(&mut self, l: Lit, taken: Vec<Watch>) {
        if let Some(list) = self.lists.get_mut(place_of(l)) {
            *list = taken;
        }
    }

    /// Looks for another literal by which the clause can be watched in place of this one, which has become false.
    pub fn look(
        &mut self,
        clauses: &Clauses,
        log: &Log,
        trail: &Trail,
        clause: usize,
        l: Lit,
    ) -> Result<Look, AllocError> {
        let Some(watched) = self.clauses.get_mut(clause) else {
            return Ok(Look::Moved);
        };
        let number = watched.number;
        let other = if watched.first == l {
            watched.second
        } else {
            watched.first
        };
        if is_true(trail, other) {
            return Ok(Look::IsTrue(other));
        }
        let Some(literals) = clause_at(clauses, log, number) else {
            return Ok(Look::Moved);
        };
        let Some(next) = not_false(trail, literals, other) else {
            return Ok(Look::Visit(number));
        };
        watched.first = other;
        watched.second = next;
        self.list(next, Watch { clause, other })?;
        Ok(Look::Moved)
    }
}

/// Whether the literal is true.
pub fn is_true(trail: &Trail, l: Lit) -> bool {
    match trail.value(l) {
        Some(value) => value,
        None => false,
    }
}

// A literal that isn't false, other than this one.
fn not_false(trail: &Trail, literals: &[Lit], other: Lit) -> Option<Lit> {
    for l in literals {
        if *l != other {
            match trail.value(*l) {
                Some(false) => {}
                _ => return Some(*l),
            }
        }
    }
    None
}
