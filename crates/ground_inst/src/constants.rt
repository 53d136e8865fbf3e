//! The constants of a sentence, and which of them are numerals.
#![tactic(auto)]

ghost use Rattle.std.specs.Prelude.{◌≡◌, ◌==◌, ◌||◌, ◌++◌, ◌∷◌, [], ℕ, false, map, IfOk, OnOk, slice_index_or};
ghost use Rattle.std.specs.List.{list_any};
ghost use Rattle.decision_laws.specs.Clauses.{is_numeral as is_numeral_place, may_meet as may_be_one};
ghost use Rattle.fol_forms.specs.Counts.{count_of};
ghost use Rattle.ground_inst.specs.Equality.{numeral_of};
ghost use Rattle.ground_inst.specs.Facts.{vocabulary_of};

use crate::facts::Facts;
use crate::name_places::numeral_place;
use csdn_core::program::Parts;
use csdn_core::terms::Sort;
use fol_forms::constants::known;
use std::alloc::{AllocError, Global};

/// A numeral, and its place among the constants of the ports.
#[derive(Drop)]
pub struct Numeral {
    pub number: u16,
    pub place: u64,
}

/// The constants of the facts of a sentence.
#[derive(Drop)]
pub struct Constants<'a> {
    pub facts: &'a Facts,
    pub parts: &'a Parts,
    /// In the program's order.
    pub numerals: Vec<Numeral>,
    /// Whether a numeral stands at a place among the ports.
    pub marks: Vec<bool>,
    ghost placed: { numerals.items ≡ map (numeral_of parts.now) parts.now.numerals },
    ghost marked: { (a : ℕ) → slice_index_or marks.items a false ≡ list_any (λ p. p.place == a) numerals.items },
}

impl<'a> Constants<'a> {
    /// The constants of these facts. `AllocError` also where a numeral stands at a place that is none.
    pub fn of(
        alloc: Global,
        parts: &'a Parts,
        facts: &'a Facts,
    ) -> Result<Constants<'a>, AllocError>
        ensures parts { IfOk result (λ constants. constants.parts.now ≡ parts.now) }
        ensures facts { IfOk result (λ constants. constants.facts.now ≡ facts.now) }
    {
        let numerals = numerals_of(alloc, parts)?;
        let marks = marks_at(alloc, known(parts, Sort::Pr), numerals.as_slice())?;
        Ok(Constants {
            facts,
            parts,
            numerals,
            marks,
        })
    }

    /// How many constants a sort has.
    pub fn count(&self, sort: Sort) -> u64
        ensures { result ≡ count_of self.now.facts.now.counts sort }
    {
        self.facts.counts.of(sort)
    }

    /// Whether a constant is a numeral.
    pub fn is_numeral(&self, sort: Sort, place: u64) -> bool
        ensures { result ≡ is_numeral_place (vocabulary_of self.now.parts.now self.now.facts.now) sort place }
    {
        sort.is_same(Sort::Pr) && mark_at(self.marks.as_slice(), place)
    }

    /// Whether two constants are different, and may be one element.
    pub fn may_meet(&self, sort: Sort, a: u64, b: u64) -> bool
        ensures { result ≡ may_be_one (vocabulary_of self.now.parts.now self.now.facts.now) sort a b }
    {
        !(a == b) && !(self.is_numeral(sort, a) && self.is_numeral(sort, b))
    }
}

// The numerals and their places.
fn numerals_of(alloc: Global, parts: &Parts) -> Result<Vec<Numeral>, AllocError>
    ensures { IfOk result (λ numerals. numerals.items ≡ map (numeral_of parts.now) parts.now.numerals) }
{
    let mut numerals = Vec::new(alloc);
    let mut rest = parts.numerals.as_slice();
    'numerals: while let [number, more @ ..] = rest {
        let numeral = Numeral {
            number: *number,
            place: numeral_place(parts, *number) as u64,
        };
        append_numeral(&mut numerals, numeral)?;
        rest = more;
    }
    Ok(numerals)
}

fn append_numeral(numerals: &mut Vec<Numeral>, numeral: Numeral) -> Result<(), AllocError>
    ensures { OnOk result (numerals.new.items ≡ numerals.old.items ++ numeral ∷ []) }
{
    numerals.push(numeral).map_err(AllocError::from)
}

// Whether a place is marked.
fn mark_at(marks: &[bool], place: u64) -> bool
    ensures { result ≡ slice_index_or marks.now place false }
{
    match marks.get(place as usize) {
        Some(mark) => *mark,
        None => false,
    }
}

// Marks at the places of numerals, among so many.
fn marks_at(alloc: Global, count: usize, numerals: &[Numeral]) -> Result<Vec<bool>, AllocError>
    ensures { IfOk result (λ marks. (a : ℕ) → slice_index_or marks.items a false ≡ list_any (λ p. p.place == a) numerals.now) }
{
    let mut marks = vec![in alloc; false; count]?;
    let mut rest = numerals;
    'numerals: while let [numeral, more @ ..] = rest {
        mark(&mut marks, numeral.place)?;
        rest = more;
    }
    Ok(marks)
}

// Puts a mark at a place.
fn mark(marks: &mut Vec<bool>, place: u64) -> Result<(), AllocError>
    ensures { OnOk result ((a : ℕ) → slice_index_or marks.new.items a false ≡ (place == a || slice_index_or marks.old.items a false)) }
{
    let at = place as usize;
    if at < marks.len() {
        marks[at] = true;
        Ok(())
    } else {
        Err(AllocError)
    }
}
