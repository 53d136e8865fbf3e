//! The literals that a search holds true, in the order in which they became so.

ghost use Rattle.std.specs.Prelude.{◌≡◌, ◌++◌, [], ◌∷◌, OnOk, OnErr, None, option_to_list};

use crate::table::{put, replace};
use clause_log::Lit;
use std::alloc::{AllocError, Global};
use std::marker::Model;

/// A literal that is held true: decided, or forced by the clause of a number.
#[derive(Clone, Copy, Debug)]
pub struct Entry {
    pub literal: Lit,
    pub reason: Option<u64>,
}

/// Entries of distinct atoms, and the values that they give.
///
/// In contracts it is the list of its entries, the oldest first. The places, by atom, and the places of decisions
/// save time, and no answer rests on them. All tables are as long as the greatest atom with an entry.
#[derive(Drop)]
pub struct Trail {
    entries: Vec<Entry>,
    values: Vec<Option<bool>>,
    places: Vec<usize>,
    decisions: Vec<usize>,
}

impl Model for Trail {
    ghost use Rattle.std.specs.Prelude.{◌≡◌, List, None, slice_index_or};
    ghost use Rattle.clause_log.specs.Assignments.{no_values};
    ghost use Rattle.clause_search.specs.Trails.{values_of, AreNew};
    ghost use Rattle.clause_search.specs.declared.trail.Entry.{Entry};

    ghost Value = { List Entry };

    ghost view = { λ t. t.entries.items };

    ghost invariant = { λ t. ((λ a. slice_index_or t.values.items a None) ≡ values_of t.entries.items) × AreNew no_values t.entries.items };
}

impl Trail {
    ghost use Rattle.std.specs.Prelude.{◌≡◌, ◌++◌, [], ◌∷◌, OnOk, OnErr, IfNone, None, is_none, option_to_list};
    ghost use Rattle.clause_log.specs.Assignments.{literal_value, no_values};
    ghost use Rattle.clause_search.specs.Trails.{values_of, AreNew};

    /// A trail without entries.
    pub fn new(alloc: Global) -> Trail
        ensures { result ≡ [] }
    {
        Trail {
            entries: Vec::new(alloc),
            values: Vec::new(alloc),
            places: Vec::new(alloc),
            decisions: Vec::new(alloc),
        }
    }

    /// The literal's truth value, where its atom has one.
    pub fn value(&self, l: Lit) -> Option<bool>
        ensures { result ≡ literal_value (values_of self.now) l }
    {
        match self.values.get(l.atom() as usize) {
            Some(Some(value)) => Some(if l.is_positive() { *value } else { !*value }),
            _ => None,
        }
    }

    /// Whether the literal's atom has no value.
    pub fn is_new(&self, l: Lit) -> bool
        ensures { result ≡ is_none (values_of self.now l.atom) }
    {
        match self.values.get(l.atom() as usize) {
            Some(Some(_)) => false,
            _ => true,
        }
    }

    /// Makes the literal true. Nothing is changed on want of memory.
    pub fn push(&mut self, literal: Lit, reason: Option<u64>) -> Result<(), AllocError>
        requires { values_of self.old literal.atom ≡ None }
        ensures ok { OnOk result (self.new ≡ self.old ++ record { literal = literal; reason = reason } ∷ []) }
        ensures err { OnErr result (self.new ≡ self.old) }
    {
        let place = self.entries.len();
        let atom = literal.atom() as usize;
        note(&mut self.places, &mut self.decisions, atom, place, reason)?;
        if self.entries.push(Entry { literal, reason }).is_err() {
            return Err(AllocError);
        }
        if put(&mut self.values, atom, Some(literal.is_positive()), None).is_err() {
            self.entries.pop();
            return Err(AllocError);
        }
        Ok(())
    }

    /// Takes the last entry away; `None` where there is none.
    pub fn pop(&mut self) -> Option<Entry>
        ensures entry { self.old ≡ self.new ++ option_to_list result }
        ensures empty { IfNone result (self.old ≡ []) }
    {
        let entry = self.entries.pop()?;
        forget(&mut self.decisions, entry.reason);
        replace(&mut self.values, entry.literal.atom() as usize, None, None);
        Some(entry)
    }

    /// The entries, the oldest first.
    pub fn entries(&self) -> &[Entry]
        ensures value { result.now ≡ self.now }
        ensures new { AreNew no_values result.now }
    {
        &self.entries
    }

    /// The place of the atom's entry, where it has one.
    pub fn place(&self, atom: u64) -> usize {
        match self.places.get(atom as usize) {
            Some(place) => *place,
            None => 0,
        }
    }

    /// Whether a literal was decided.
    pub fn has_decision(&self) -> bool {
        !self.decisions.is_empty()
    }

    /// Whether the atom's entry is the last decision's or stands behind it.
    pub fn is_recent(&self, atom: u64) -> bool {
        match self.decisions.last() {
            Some(place) => *place <= self.place(atom),
            None => false,
        }
    }
}

// Notes the place of an entry, and that it is a decision's.
fn note(
    places: &mut Vec<usize>,
    decisions: &mut Vec<usize>,
    atom: usize,
    place: usize,
    reason: Option<u64>,
) -> Result<(), AllocError> {
    if reason.is_none() {
        decisions.push(place)?;
    }
    put(places, atom, place, 0)
}

// Takes the place of a decision away again.
fn forget(decisions: &mut Vec<usize>, reason: Option<u64>) {
    if reason.is_none() {
        decisions.pop();
    }
}
