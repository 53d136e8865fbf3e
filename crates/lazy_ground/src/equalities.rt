//! The clauses of equality that are false, where the facts are what is said of them.
#![tactic(auto)]

ghost use Rattle.std.specs.Prelude.{◌≡◌, ◌++◌, [], ◌∷◌, OnOk, flat_map, map};
ghost use Rattle.clause_log.specs.Literals.{truths};
ghost use Rattle.fol_forms.specs.Counts.{count_of};
ghost use Rattle.decision_laws.specs.Clauses.{chain_clause, chain_clauses, equality_clauses, replace_clauses, same_clauses, yes as yes_of};
ghost use Rattle.decision_laws.specs.Copies.{Equation as EquationFact};
ghost use Rattle.decision_laws.specs.Vocabulary.{places_from};
ghost use Rattle.ground_inst.specs.Equality.{chain_at, numerals_differ};
ghost use Rattle.ground_inst.specs.Facts.{num_of, vocabulary_of};
ghost use Rattle.lazy_ground.specs.Found.{Finds};
ghost use Rattle.lazy_ground.specs.Joins.{AreJoined};

use crate::exchanges::find_replacements;
use crate::joining::{Joined, joined_by};
use crate::reading::offer;
use clause_log::Valuation;
use csdn_core::program::Parts;
use csdn_core::terms::Sort;
use ground_inst::constants::{Constants, Numeral};
use ground_inst::facts::{Facts, UsedRelation, equation_atom};
use ground_inst::places::literal;
use ground_inst::rows::Rows;
use std::alloc::{AllocError, Global};

/// Appends the clauses of equality between the constants of `facts` that are false. It looks at pairs of constants, and where two of
/// a sort are equal, at what true equations and tuples could replace. What is appended on want of memory is not told.
pub fn find_equality(
    alloc: Global,
    parts: &Parts,
    facts: &Facts,
    trues: &Valuation,
    rows: &mut Rows,
) -> Result<(), AllocError>
    ensures { OnOk result (Finds (truths trues.now) (equality_clauses (num_of facts.now) (count_of facts.now.counts) (vocabulary_of parts.now facts.now)) rows.old rows.new) }
{
    let constants = Constants::of(alloc, parts, facts)?;
    find_all(alloc, &constants, trues, rows)
}

// Those between these constants.
fn find_all(
    alloc: Global,
    constants: &Constants,
    trues: &Valuation,
    rows: &mut Rows,
) -> Result<(), AllocError>
    ensures { OnOk result (Finds (truths trues.now) (equality_clauses (num_of constants.now.facts.now) (count_of constants.now.facts.now.counts) (vocabulary_of constants.now.parts.now constants.now.facts.now)) rows.old rows.new) }
{
    let joined = joined_by(constants.facts, trues)?;
    find_sort(constants, trues, joined, Sort::Sw, rows)?;
    find_sort(constants, trues, joined, Sort::Ho, rows)?;
    find_sort(constants, trues, joined, Sort::Pr, rows)?;
    find_relations(alloc, constants, trues, joined, rows)?;
    find_numerals(constants.facts, trues, constants.numerals.as_slice(), rows)
}

// That constants of a sort are equal to themselves, and equality is transitive.
fn find_sort(
    constants: &Constants,
    trues: &Valuation,
    joined: Joined,
    sort: Sort,
    rows: &mut Rows,
) -> Result<(), AllocError>
    requires { AreJoined constants.now.facts.now (truths trues.now) joined }
    ensures { OnOk result (Finds (truths trues.now) (same_clauses (num_of constants.now.facts.now) (count_of constants.now.facts.now.counts) sort ++ chain_clauses (num_of constants.now.facts.now) (count_of constants.now.facts.now.counts) (vocabulary_of constants.now.parts.now constants.now.facts.now) sort) rows.old rows.new) }
{
    find_same(constants, trues, sort, rows)?;
    find_joined_chains(constants, trues, joined, sort, rows)
}

// Equality of a sort is transitive, which says nothing where all constants are different.
fn find_joined_chains(
    constants: &Constants,
    trues: &Valuation,
    joined: Joined,
    sort: Sort,
    rows: &mut Rows,
) -> Result<(), AllocError>
    requires { AreJoined constants.now.facts.now (truths trues.now) joined }
    ensures { OnOk result (Finds (truths trues.now) (chain_clauses (num_of constants.now.facts.now) (count_of constants.now.facts.now.counts) (vocabulary_of constants.now.parts.now constants.now.facts.now) sort) rows.old rows.new) }
{
    if !joined.of(sort) {
        return Ok(());
    }
    find_chains(constants, trues, sort, rows)
}

// Equal constants replace each other in the tuples of each relation.
fn find_relations(
    alloc: Global,
    constants: &Constants,
    trues: &Valuation,
    joined: Joined,
    rows: &mut Rows,
) -> Result<(), AllocError>
    requires { AreJoined constants.now.facts.now (truths trues.now) joined }
    ensures { OnOk result (Finds (truths trues.now) (flat_map (λ r. replace_clauses (num_of constants.now.facts.now) (count_of constants.now.facts.now.counts) (vocabulary_of constants.now.parts.now constants.now.facts.now) r) (map (λ u. u.relation) constants.now.facts.now.relations)) rows.old rows.new) }
{
    let mut places = Vec::with_capacity(alloc, 5)?;
    let mut rest = constants.facts.relations.as_slice();
    'relations: while let [used, more @ ..] = rest {
        find_used(constants, trues, joined, used, &mut places, rows)?;
        rest = more;
    }
    Ok(())
}

fn find_used(
    constants: &Constants,
    trues: &Valuation,
    joined: Joined,
    used: &UsedRelation,
    places: &mut Vec<u64>,
    rows: &mut Rows,
) -> Result<(), AllocError>
    requires { AreJoined constants.now.facts.now (truths trues.now) joined }
    ensures { OnOk result (Finds (truths trues.now) (replace_clauses (num_of constants.now.facts.now) (count_of constants.now.facts.now.counts) (vocabulary_of constants.now.parts.now constants.now.facts.now) used.now.relation) rows.old rows.new) }
{
    find_replacements(constants, trues, joined, used.relation, places, rows)
}

// Each constant of a sort is equal to itself.
fn find_same(
    constants: &Constants,
    trues: &Valuation,
    sort: Sort,
    rows: &mut Rows,
) -> Result<(), AllocError>
    ensures { OnOk result (Finds (truths trues.now) (same_clauses (num_of constants.now.facts.now) (count_of constants.now.facts.now.counts) sort) rows.old rows.new) }
{
    let count = constants.count(sort);
    'constants: for a in 0..count {
        find_same_at(constants, trues, sort, a, rows)?;
    }
    Ok(())
}

fn find_same_at(
    constants: &Constants,
    trues: &Valuation,
    sort: Sort,
    a: u64,
    rows: &mut Rows,
) -> Result<(), AllocError>
    ensures { OnOk result (Finds (truths trues.now) ((yes_of (num_of constants.now.facts.now (EquationFact sort a a)) ∷ []) ∷ []) rows.old rows.new) }
{
    let atom = equation_atom(constants.facts, sort, a, a)?;
    offer(trues, &[literal(true, atom)?], rows)
}

// Equality of a sort is transitive.
fn find_chains(
    constants: &Constants,
    trues: &Valuation,
    sort: Sort,
    rows: &mut Rows,
) -> Result<(), AllocError>
    ensures { OnOk result (Finds (truths trues.now) (chain_clauses (num_of constants.now.facts.now) (count_of constants.now.facts.now.counts) (vocabulary_of constants.now.parts.now constants.now.facts.now) sort) rows.old rows.new) }
{
    let count = constants.count(sort);
    'constants: for a in 0..count {
        find_chains_from(constants, trues, sort, a, rows)?;
    }
    Ok(())
}

// The chains from one constant.
fn find_chains_from(
    constants: &Constants,
    trues: &Valuation,
    sort: Sort,
    a: u64,
    rows: &mut Rows,
) -> Result<(), AllocError>
    ensures { OnOk result (Finds (truths trues.now) (flat_map (λ b. flat_map (λ c. chain_at (num_of constants.now.facts.now) (vocabulary_of constants.now.parts.now constants.now.facts.now) sort a b c) (places_from 0 (count_of constants.now.facts.now.counts sort))) (places_from 0 (count_of constants.now.facts.now.counts sort))) rows.old rows.new) }
{
    let count = constants.count(sort);
    'constants: for b in 0..count {
        find_chains_by(constants, trues, sort, a, b, rows)?;
    }
    Ok(())
}

// The chains from one constant over another one, which say nothing where these are different.
fn find_chains_by(
    constants: &Constants,
    trues: &Valuation,
    sort: Sort,
    a: u64,
    b: u64,
    rows: &mut Rows,
) -> Result<(), AllocError>
    ensures { OnOk result (Finds (truths trues.now) (flat_map (λ c. chain_at (num_of constants.now.facts.now) (vocabulary_of constants.now.parts.now constants.now.facts.now) sort a b c) (places_from 0 (count_of constants.now.facts.now.counts sort))) rows.old rows.new) }
{
    let atom = equation_atom(constants.facts, sort, a, b)?;
    if !trues.value(atom) {
        return Ok(());
    }
    find_chains_over(constants, trues, sort, a, b, rows)
}

fn find_chains_over(
    constants: &Constants,
    trues: &Valuation,
    sort: Sort,
    a: u64,
    b: u64,
    rows: &mut Rows,
) -> Result<(), AllocError>
    ensures { OnOk result (Finds (truths trues.now) (flat_map (λ c. chain_at (num_of constants.now.facts.now) (vocabulary_of constants.now.parts.now constants.now.facts.now) sort a b c) (places_from 0 (count_of constants.now.facts.now.counts sort))) rows.old rows.new) }
{
    let count = constants.count(sort);
    'constants: for c in 0..count {
        find_chain(constants, trues, sort, a, b, c, rows)?;
    }
    Ok(())
}

fn find_chain(
    constants: &Constants,
    trues: &Valuation,
    sort: Sort,
    a: u64,
    b: u64,
    c: u64,
    rows: &mut Rows,
) -> Result<(), AllocError>
    ensures { OnOk result (Finds (truths trues.now) (chain_at (num_of constants.now.facts.now) (vocabulary_of constants.now.parts.now constants.now.facts.now) sort a b c) rows.old rows.new) }
{
    if a < c && (constants.may_meet(sort, a, b) && constants.may_meet(sort, b, c)) {
        offer_chain(constants.facts, trues, sort, a, b, c, rows)
    } else {
        Ok(())
    }
}

fn offer_chain(
    facts: &Facts,
    trues: &Valuation,
    sort: Sort,
    a: u64,
    b: u64,
    c: u64,
    rows: &mut Rows,
) -> Result<(), AllocError>
    ensures { OnOk result (Finds (truths trues.now) (chain_clause (num_of facts.now) sort a b c ∷ []) rows.old rows.new) }
{
    let first = literal(false, equation_atom(facts, sort, a, b)?)?;
    let second = literal(false, equation_atom(facts, sort, b, c)?)?;
    let whole = literal(true, equation_atom(facts, sort, a, c)?)?;
    offer(trues, &[first, second, whole], rows)
}

// Different numerals are different.
fn find_numerals(
    facts: &Facts,
    trues: &Valuation,
    numerals: &[Numeral],
    rows: &mut Rows,
) -> Result<(), AllocError>
    ensures { OnOk result (Finds (truths trues.now) (flat_map (λ p. flat_map (λ q. numerals_differ (num_of facts.now) p q) numerals.now) numerals.now) rows.old rows.new) }
{
    let mut rest = numerals;
    'numerals: while let [numeral, more @ ..] = rest {
        find_numerals_beside(facts, trues, numeral, numerals, rows)?;
        rest = more;
    }
    Ok(())
}

// One numeral is different from those of others that are greater.
fn find_numerals_beside(
    facts: &Facts,
    trues: &Valuation,
    numeral: &Numeral,
    others: &[Numeral],
    rows: &mut Rows,
) -> Result<(), AllocError>
    ensures { OnOk result (Finds (truths trues.now) (flat_map (λ q. numerals_differ (num_of facts.now) numeral.now q) others.now) rows.old rows.new) }
{
    let mut rest = others;
    'others: while let [other, more @ ..] = rest {
        find_numeral_pair(facts, trues, numeral, other, rows)?;
        rest = more;
    }
    Ok(())
}

fn find_numeral_pair(
    facts: &Facts,
    trues: &Valuation,
    numeral: &Numeral,
    other: &Numeral,
    rows: &mut Rows,
) -> Result<(), AllocError>
    ensures { OnOk result (Finds (truths trues.now) (numerals_differ (num_of facts.now) numeral.now other.now) rows.old rows.new) }
{
    if numeral.number < other.number {
        let atom = equation_atom(facts, Sort::Pr, numeral.place, other.place)?;
        offer(trues, &[literal(false, atom)?], rows)
    } else {
        Ok(())
    }
}
