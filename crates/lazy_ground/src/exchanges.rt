//! The false clauses by which equal constants replace each other in true tuples.
#![tactic(auto)]

ghost use Rattle.std.specs.Prelude.{◌≡◌, ◌<◌, ◌++◌, [], ◌∷◌, OnOk, flat_map, length, slice_index_or, slice_set, true, false};
ghost use Rattle.clause_log.specs.Literals.{truths};
ghost use Rattle.fol_forms.specs.Counts.{count_of};
ghost use Rattle.decision_laws.specs.Clauses.{no as no_of, yes as yes_of, replace_clauses};
ghost use Rattle.decision_laws.specs.Copies.{Equation as EquationFact, Tuple as TupleFact};
ghost use Rattle.decision_laws.specs.Numbers.{tuple_of};
ghost use Rattle.decision_laws.specs.Vocabulary.{places_from};
ghost use Rattle.ground_inst.specs.Equality.{exchange_at, exchanges};
ghost use Rattle.ground_inst.specs.Facts.{num_of, vocabulary_of};
ghost use Rattle.lazy_ground.specs.Found.{Finds};
ghost use Rattle.lazy_ground.specs.Joins.{AreJoined, joined_in};
ghost use Rattle.lazy_ground.specs.Tuples.{tuple_clauses};

use crate::joining::Joined;
use crate::reading::offer;
use clause_log::{Lit, Valuation};
use copy_truth::tuples::used_of;
use csdn_core::terms::{Pred, Sort};
use fol_forms::instances::Counts;
use ground_inst::constants::Constants;
use ground_inst::exchange::exchanged_atom;
use ground_inst::facts::{
    Facts, UsedRelation, equation_atom, sorts_of_used, tuple_atom, tuple_count,
};
use ground_inst::places::literal;
use ground_inst::rows::Rows;
use std::alloc::AllocError;

/// Appends the false clauses by which equal constants replace each other in the tuples of a relation, one argument at a time. It
/// looks at each true atom, where two constants of one of the relation's sorts are equal. What stands in `places` does not matter.
pub fn find_replacements(
    constants: &Constants,
    trues: &Valuation,
    joined: Joined,
    relation: Pred,
    places: &mut Vec<u64>,
    rows: &mut Rows,
) -> Result<(), AllocError>
    requires { AreJoined constants.now.facts.now (truths trues.now) joined }
    ensures { OnOk result (Finds (truths trues.now) (replace_clauses (num_of constants.now.facts.now) (count_of constants.now.facts.now.counts) (vocabulary_of constants.now.parts.now constants.now.facts.now) relation) rows.old rows.new) }
{
    if !joined.of_some(sorts_of_used(constants.facts, relation)) {
        return Ok(());
    }
    match used_of(constants.facts, relation) {
        None => Ok(()),
        Some(used) => find_tuples(constants, trues, joined, relation, used, places, rows),
    }
}

// The same of the tuples that are true.
fn find_tuples(
    constants: &Constants,
    trues: &Valuation,
    joined: Joined,
    relation: Pred,
    used: &UsedRelation,
    places: &mut Vec<u64>,
    rows: &mut Rows,
) -> Result<(), AllocError>
    requires { AreJoined constants.now.facts.now (truths trues.now) joined }
    ensures { OnOk result (Finds (truths trues.now) (flat_map (λ t. tuple_clauses constants.now.parts.now constants.now.facts.now relation used.now t) trues.now) rows.old rows.new) }
{
    let mut rest = trues.true_atoms();
    'atoms: while let [atom, more @ ..] = rest {
        find_tuple(
            constants, trues, joined, relation, used, *atom, places, rows,
        )?;
        rest = more;
    }
    Ok(())
}

// The same of the tuple of an atom, where it is one of the relation's.
fn find_tuple(
    constants: &Constants,
    trues: &Valuation,
    joined: Joined,
    relation: Pred,
    used: &UsedRelation,
    atom: u64,
    places: &mut Vec<u64>,
    rows: &mut Rows,
) -> Result<(), AllocError>
    requires { AreJoined constants.now.facts.now (truths trues.now) joined }
    ensures { OnOk result (Finds (truths trues.now) (tuple_clauses constants.now.parts.now constants.now.facts.now relation used.now atom) rows.old rows.new) }
{
    if atom <= used.before {
        return Ok(());
    }
    let number = atom - used.before - 1;
    let sorts = used.sorts.as_slice();
    if number >= tuple_count(&constants.facts.counts, sorts)? {
        return Ok(());
    }
    read_places(&constants.facts.counts, sorts, number, places)?;
    find_exchanges(constants, trues, joined, relation, sorts, places, rows)
}

// The places of the tuple of a number.
fn read_places(
    counts: &Counts,
    sorts: &[Sort],
    number: u64,
    places: &mut Vec<u64>,
) -> Result<(), AllocError>
    ensures { OnOk result (places.new.items ≡ tuple_of (count_of counts.now) sorts.now number) }
{
    places.clear();
    let mut left = number;
    let mut rest = sorts;
    'sorts: while let [sort, more @ ..] = rest {
        let count = counts.of(*sort);
        if count == 0 {
            return Err(AllocError);
        }
        push_place(places, left % count)?;
        left /= count;
        rest = more;
    }
    Ok(())
}

fn push_place(places: &mut Vec<u64>, place: u64) -> Result<(), AllocError>
    ensures { OnOk result (places.new.items ≡ places.old.items ++ place ∷ []) }
{
    places.push(place).map_err(AllocError::from)
}

// The clauses of one tuple.
fn find_exchanges(
    constants: &Constants,
    trues: &Valuation,
    joined: Joined,
    relation: Pred,
    columns: &[Sort],
    places: &mut Vec<u64>,
    rows: &mut Rows,
) -> Result<(), AllocError>
    requires { AreJoined constants.now.facts.now (truths trues.now) joined }
    ensures rows { OnOk result (Finds (truths trues.now) (exchanges constants.now.parts.now constants.now.facts.now relation columns.now places.old.items) rows.old rows.new) }
{
    'columns: for (at, sort) in columns.iter().enumerate() {
        find_exchanges_at(constants, trues, joined, relation, *sort, at, places, rows)?;
    }
    Ok(())
}

// Whether a constant is equal to no other one.
fn is_alone(constants: &Constants, joined: Joined, sort: Sort, place: u64) -> bool
    ensures joined { result ≡ true → joined_in joined sort ≡ false }
    ensures place { result ≡ true → place < count_of constants.now.facts.now.counts sort }
{
    !joined.of(sort) && place < constants.count(sort)
}

// The clauses of one tuple and one of its places.
fn find_exchanges_at(
    constants: &Constants,
    trues: &Valuation,
    joined: Joined,
    relation: Pred,
    sort: Sort,
    at: usize,
    places: &mut Vec<u64>,
    rows: &mut Rows,
) -> Result<(), AllocError>
    requires { AreJoined constants.now.facts.now (truths trues.now) joined }
    ensures rows { OnOk result (Finds (truths trues.now) (flat_map (λ b. exchange_at constants.now.parts.now constants.now.facts.now relation sort places.old.items (no_of (num_of constants.now.facts.now (TupleFact relation places.old.items))) at (slice_index_or places.old.items at 0) b) (places_from 0 (count_of constants.now.facts.now.counts sort))) rows.old rows.new) }
    ensures places { OnOk result (places.new.items ≡ places.old.items) }
    ensures within { OnOk result (at < length places.old.items) }
{
    if at >= places.len() {
        return Err(AllocError);
    }
    if is_alone(constants, joined, sort, places[at]) {
        return Ok(());
    }
    let whole = literal(
        false,
        tuple_atom(constants.facts, relation, places.as_slice())?,
    )?;
    find_exchanges_with(constants, trues, relation, sort, at, whole, places, rows)
}

// The same, given the literal of the tuple.
fn find_exchanges_with(
    constants: &Constants,
    trues: &Valuation,
    relation: Pred,
    sort: Sort,
    at: usize,
    whole: Lit,
    places: &mut Vec<u64>,
    rows: &mut Rows,
) -> Result<(), AllocError>
    ensures rows { OnOk result (Finds (truths trues.now) (flat_map (λ b. exchange_at constants.now.parts.now constants.now.facts.now relation sort places.old.items whole at (slice_index_or places.old.items at 0) b) (places_from 0 (count_of constants.now.facts.now.counts sort))) rows.old rows.new) }
    ensures places { OnOk result (places.new.items ≡ places.old.items) }
{
    let count = constants.count(sort);
    'constants: for b in 0..count {
        find_exchange(constants, trues, relation, sort, at, b, whole, places, rows)?;
    }
    Ok(())
}

// The clause of one tuple, one of its places and another constant for it.
fn find_exchange(
    constants: &Constants,
    trues: &Valuation,
    relation: Pred,
    sort: Sort,
    at: usize,
    b: u64,
    whole: Lit,
    places: &mut Vec<u64>,
    rows: &mut Rows,
) -> Result<(), AllocError>
    ensures rows { OnOk result (Finds (truths trues.now) (exchange_at constants.now.parts.now constants.now.facts.now relation sort places.old.items whole at (slice_index_or places.old.items at 0) b) rows.old rows.new) }
    ensures places { OnOk result (places.new.items ≡ places.old.items) }
{
    if at >= places.len() {
        return Err(AllocError);
    }
    let a = places[at];
    if constants.may_meet(sort, a, b) {
        offer_exchange(
            constants.facts,
            trues,
            relation,
            sort,
            at,
            a,
            b,
            whole,
            places,
            rows,
        )
    } else {
        Ok(())
    }
}

// The same, where this is another clause; it is true where the constants are different.
fn offer_exchange(
    facts: &Facts,
    trues: &Valuation,
    relation: Pred,
    sort: Sort,
    at: usize,
    a: u64,
    b: u64,
    whole: Lit,
    places: &mut Vec<u64>,
    rows: &mut Rows,
) -> Result<(), AllocError>
    ensures rows { OnOk result (Finds (truths trues.now) ((no_of (num_of facts.now (EquationFact sort a b)) ∷ whole ∷ yes_of (num_of facts.now (TupleFact relation (slice_set places.old.items at b))) ∷ []) ∷ []) rows.old rows.new) }
    ensures places { OnOk result (places.new.items ≡ places.old.items) }
{
    let atom = equation_atom(facts, sort, a, b)?;
    if !trues.value(atom) {
        return Ok(());
    }
    let equal = literal(false, atom)?;
    let other = literal(true, exchanged_atom(facts, relation, at, b, places)?)?;
    offer(trues, &[equal, whole, other], rows)
}
