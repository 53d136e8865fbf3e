//! The clauses by which equal constants replace each other.
#![tactic(auto)]

ghost use Rattle.std.specs.Prelude.{◌≡◌, ◌+◌, ◌<◌, ◌++◌, [], ◌∷◌, IfOk, OnOk, drop, flat_map, length, slice_index_or, slice_set, take};
ghost use Rattle.fol_forms.specs.Counts.{count_of};
ghost use Rattle.decision_laws.specs.Classes.{all_tuples};
ghost use Rattle.decision_laws.specs.Clauses.{no as no_of, replace_clauses};
ghost use Rattle.decision_laws.specs.Copies.{Tuple as TupleFact};
ghost use Rattle.decision_laws.specs.Vocabulary.{places_from};
ghost use Rattle.ground_inst.specs.Equality.{exchange_at, exchanges};
ghost use Rattle.ground_inst.specs.Facts.{num_of, vocabulary_of};

use crate::constants::Constants;
use crate::facts::{Facts, equation_atom, sorts_of_used, tuple_atom};
use crate::places::literal;
use crate::rows::Rows;
use clause_log::Lit;
use csdn_core::terms::{Pred, Sort};
use std::alloc::{AllocError, Global};

/// Equal constants replace each other in the tuples of a relation, one argument at a time.
pub fn write_replacements(
    alloc: Global,
    constants: &Constants,
    relation: Pred,
    rows: &mut Rows,
) -> Result<(), AllocError>
    ensures { OnOk result (rows.new ≡ rows.old ++ replace_clauses (num_of constants.now.facts.now) (count_of constants.now.facts.now.counts) (vocabulary_of constants.now.parts.now constants.now.facts.now) relation) }
{
    let columns = sorts_of_used(constants.facts, relation);
    let mut places = Vec::with_capacity(alloc, columns.len())?;
    write_tuples(constants, relation, columns, columns, &mut places, rows)
}

#[cycle(tuples)]
// The clauses of all tuples that begin with these places; `unset` are the sorts of the places that follow.
fn write_tuples(
    constants: &Constants,
    relation: Pred,
    columns: &[Sort],
    unset: &[Sort],
    places: &mut Vec<u64>,
    rows: &mut Rows,
) -> Result<(), AllocError>
    ensures rows { OnOk result (rows.new ≡ rows.old ++ flat_map (λ xs. exchanges constants.now.parts.now constants.now.facts.now relation columns.now (places.old.items ++ xs)) (all_tuples (count_of constants.now.facts.now.counts) unset.now)) }
    ensures places { OnOk result (places.new.items ≡ places.old.items) }
{
    match unset {
        [] => write_exchanges(constants, relation, columns, places, rows),
        [sort, others @ ..] => {
            write_tuples_over(constants, relation, columns, *sort, others, places, rows)
        }
    }
}

#[cycle(tuples)]
// The same where the next place is of this sort, and `others` are the sorts of the places after it.
fn write_tuples_over(
    constants: &Constants,
    relation: Pred,
    columns: &[Sort],
    sort: Sort,
    others: &[Sort],
    places: &mut Vec<u64>,
    rows: &mut Rows,
) -> Result<(), AllocError>
    ensures rows { OnOk result (rows.new ≡ rows.old ++ flat_map (λ xs. exchanges constants.now.parts.now constants.now.facts.now relation columns.now (places.old.items ++ xs)) (all_tuples (count_of constants.now.facts.now.counts) (sort ∷ others.now))) }
    ensures places { OnOk result (places.new.items ≡ places.old.items) }
{
    let count = constants.count(sort);
    'constants: for a in 0..count {
        append_place(places, a)?;
        write_tuples(constants, relation, columns, others, places, rows)?;
        places.pop();
    }
    Ok(())
}

fn append_place(places: &mut Vec<u64>, place: u64) -> Result<(), AllocError>
    ensures { OnOk result (places.new.items ≡ places.old.items ++ place ∷ []) }
{
    places.push(place).map_err(AllocError::from)
}

// The clauses of one tuple.
fn write_exchanges(
    constants: &Constants,
    relation: Pred,
    columns: &[Sort],
    places: &mut Vec<u64>,
    rows: &mut Rows,
) -> Result<(), AllocError>
    ensures rows { OnOk result (rows.new ≡ rows.old ++ exchanges constants.now.parts.now constants.now.facts.now relation columns.now places.old.items) }
    ensures places { OnOk result (places.new.items ≡ places.old.items) }
{
    'columns: for (at, sort) in columns.iter().enumerate() {
        write_exchanges_at(constants, relation, *sort, at, places, rows)?;
    }
    Ok(())
}

// The clauses of one tuple and one of its places.
fn write_exchanges_at(
    constants: &Constants,
    relation: Pred,
    sort: Sort,
    at: usize,
    places: &mut Vec<u64>,
    rows: &mut Rows,
) -> Result<(), AllocError>
    ensures rows { OnOk result (rows.new ≡ rows.old ++ flat_map (λ b. exchange_at constants.now.parts.now constants.now.facts.now relation sort places.old.items (no_of (num_of constants.now.facts.now (TupleFact relation places.old.items))) at (slice_index_or places.old.items at 0) b) (places_from 0 (count_of constants.now.facts.now.counts sort))) }
    ensures places { OnOk result (places.new.items ≡ places.old.items) }
    ensures within { OnOk result (at < length places.old.items) }
{
    if at >= places.len() {
        return Err(AllocError);
    }
    let whole = literal(
        false,
        tuple_atom(constants.facts, relation, places.as_slice())?,
    )?;
    write_exchanges_with(constants, relation, sort, at, whole, places, rows)
}

// The same, given the literal of the tuple.
fn write_exchanges_with(
    constants: &Constants,
    relation: Pred,
    sort: Sort,
    at: usize,
    whole: Lit,
    places: &mut Vec<u64>,
    rows: &mut Rows,
) -> Result<(), AllocError>
    ensures rows { OnOk result (rows.new ≡ rows.old ++ flat_map (λ b. exchange_at constants.now.parts.now constants.now.facts.now relation sort places.old.items whole at (slice_index_or places.old.items at 0) b) (places_from 0 (count_of constants.now.facts.now.counts sort))) }
    ensures places { OnOk result (places.new.items ≡ places.old.items) }
{
    let count = constants.count(sort);
    'constants: for b in 0..count {
        write_exchange(constants, relation, sort, at, b, whole, places, rows)?;
    }
    Ok(())
}

// The clause of one tuple, one of its places and another constant for it.
fn write_exchange(
    constants: &Constants,
    relation: Pred,
    sort: Sort,
    at: usize,
    b: u64,
    whole: Lit,
    places: &mut Vec<u64>,
    rows: &mut Rows,
) -> Result<(), AllocError>
    ensures rows { OnOk result (rows.new ≡ rows.old ++ exchange_at constants.now.parts.now constants.now.facts.now relation sort places.old.items whole at (slice_index_or places.old.items at 0) b) }
    ensures places { OnOk result (places.new.items ≡ places.old.items) }
{
    if at >= places.len() {
        return Err(AllocError);
    }
    let a = places[at];
    if constants.may_meet(sort, a, b) {
        let equal = literal(false, equation_atom(constants.facts, sort, a, b)?)?;
        let other = literal(
            true,
            exchanged_atom(constants.facts, relation, at, b, places)?,
        )?;
        rows.push(&[equal, whole, other])
    } else {
        Ok(())
    }
}

/// The atom of a tuple in which another constant stands at a place. The places are the same at the end; it takes no memory.
pub fn exchanged_atom(
    facts: &Facts,
    relation: Pred,
    at: usize,
    b: u64,
    places: &mut Vec<u64>,
) -> Result<u64, AllocError>
    ensures atom { IfOk result (λ atom. atom ≡ num_of facts.now (TupleFact relation (slice_set places.old.items at b))) }
    ensures places { places.new.items ≡ places.old.items }
{
    if at >= places.len() {
        return Err(AllocError);
    }
    let a = places[at];
    places[at] = b;
    let atom = tuple_atom(facts, relation, places.as_slice());
    places[at] = a;
    atom
}
