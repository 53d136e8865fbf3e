//! The clauses of equality.
#![tactic(auto)]

ghost use Rattle.std.specs.Prelude.{◌≡◌, ◌++◌, [], ◌∷◌, OnOk, flat_map, map};
ghost use Rattle.fol_forms.specs.Counts.{count_of};
ghost use Rattle.decision_laws.specs.Clauses.{equality_clauses, same_clauses, chain_clauses, chain_clause, replace_clauses, yes as yes_of};
ghost use Rattle.decision_laws.specs.Copies.{Equation as EquationFact};
ghost use Rattle.decision_laws.specs.Vocabulary.{places_from};
ghost use Rattle.ground_inst.specs.Equality.{chain_at, numerals_differ};
ghost use Rattle.ground_inst.specs.Facts.{num_of, vocabulary_of};

use crate::constants::{Constants, Numeral};
use crate::exchange::write_replacements;
use crate::facts::{Facts, equation_atom};
use crate::places::literal;
use crate::rows::Rows;
use csdn_core::program::Parts;
use csdn_core::terms::Sort;
use std::alloc::{AllocError, Global};

/// Appends the clauses of equality between the constants of `facts`. What is appended on want of memory is not told.
pub fn write_equality(
    alloc: Global,
    parts: &Parts,
    facts: &Facts,
    rows: &mut Rows,
) -> Result<(), AllocError>
    ensures { OnOk result (rows.new ≡ rows.old ++ equality_clauses (num_of facts.now) (count_of facts.now.counts) (vocabulary_of parts.now facts.now)) }
{
    let constants = Constants::of(alloc, parts, facts)?;
    write_all(alloc, &constants, rows)
}

// The clauses of equality between these constants.
fn write_all(alloc: Global, constants: &Constants, rows: &mut Rows) -> Result<(), AllocError>
    ensures { OnOk result (rows.new ≡ rows.old ++ equality_clauses (num_of constants.now.facts.now) (count_of constants.now.facts.now.counts) (vocabulary_of constants.now.parts.now constants.now.facts.now)) }
{
    write_sort(constants, Sort::Sw, rows)?;
    write_sort(constants, Sort::Ho, rows)?;
    write_sort(constants, Sort::Pr, rows)?;
    write_relations(alloc, constants, rows)?;
    write_numerals(constants.facts, constants.numerals.as_slice(), rows)
}

// That constants of a sort are equal to themselves, and equality is transitive.
fn write_sort(constants: &Constants, sort: Sort, rows: &mut Rows) -> Result<(), AllocError>
    ensures { OnOk result (rows.new ≡ rows.old ++ (same_clauses (num_of constants.now.facts.now) (count_of constants.now.facts.now.counts) sort ++ chain_clauses (num_of constants.now.facts.now) (count_of constants.now.facts.now.counts) (vocabulary_of constants.now.parts.now constants.now.facts.now) sort)) }
{
    write_same(constants, sort, rows)?;
    write_chains(constants, sort, rows)
}

// Equal constants replace each other in the tuples of each relation.
fn write_relations(alloc: Global, constants: &Constants, rows: &mut Rows) -> Result<(), AllocError>
    ensures { OnOk result (rows.new ≡ rows.old ++ flat_map (λ r. replace_clauses (num_of constants.now.facts.now) (count_of constants.now.facts.now.counts) (vocabulary_of constants.now.parts.now constants.now.facts.now) r) (map (λ u. u.relation) constants.now.facts.now.relations)) }
{
    let mut rest = constants.facts.relations.as_slice();
    'relations: while let [used, more @ ..] = rest {
        write_replacements(alloc, constants, used.relation, rows)?;
        rest = more;
    }
    Ok(())
}

// Each constant of a sort is equal to itself.
fn write_same(constants: &Constants, sort: Sort, rows: &mut Rows) -> Result<(), AllocError>
    ensures { OnOk result (rows.new ≡ rows.old ++ same_clauses (num_of constants.now.facts.now) (count_of constants.now.facts.now.counts) sort) }
{
    let count = constants.count(sort);
    'constants: for a in 0..count {
        write_same_at(constants, sort, a, rows)?;
    }
    Ok(())
}

fn write_same_at(
    constants: &Constants,
    sort: Sort,
    a: u64,
    rows: &mut Rows,
) -> Result<(), AllocError>
    ensures { OnOk result (rows.new ≡ rows.old ++ (yes_of (num_of constants.now.facts.now (EquationFact sort a a)) ∷ []) ∷ []) }
{
    let atom = equation_atom(constants.facts, sort, a, a)?;
    rows.push(&[literal(true, atom)?])
}

// Equality of a sort is transitive.
fn write_chains(constants: &Constants, sort: Sort, rows: &mut Rows) -> Result<(), AllocError>
    ensures { OnOk result (rows.new ≡ rows.old ++ chain_clauses (num_of constants.now.facts.now) (count_of constants.now.facts.now.counts) (vocabulary_of constants.now.parts.now constants.now.facts.now) sort) }
{
    let count = constants.count(sort);
    'constants: for a in 0..count {
        write_chains_from(constants, sort, a, rows)?;
    }
    Ok(())
}

// The chains from one constant.
fn write_chains_from(
    constants: &Constants,
    sort: Sort,
    a: u64,
    rows: &mut Rows,
) -> Result<(), AllocError>
    ensures { OnOk result (rows.new ≡ rows.old ++ flat_map (λ b. flat_map (λ c. chain_at (num_of constants.now.facts.now) (vocabulary_of constants.now.parts.now constants.now.facts.now) sort a b c) (places_from 0 (count_of constants.now.facts.now.counts sort))) (places_from 0 (count_of constants.now.facts.now.counts sort))) }
{
    let count = constants.count(sort);
    'constants: for b in 0..count {
        write_chains_by(constants, sort, a, b, rows)?;
    }
    Ok(())
}

// The chains from one constant over another one.
fn write_chains_by(
    constants: &Constants,
    sort: Sort,
    a: u64,
    b: u64,
    rows: &mut Rows,
) -> Result<(), AllocError>
    ensures { OnOk result (rows.new ≡ rows.old ++ flat_map (λ c. chain_at (num_of constants.now.facts.now) (vocabulary_of constants.now.parts.now constants.now.facts.now) sort a b c) (places_from 0 (count_of constants.now.facts.now.counts sort))) }
{
    let count = constants.count(sort);
    'constants: for c in 0..count {
        write_chain(constants, sort, a, b, c, rows)?;
    }
    Ok(())
}

fn write_chain(
    constants: &Constants,
    sort: Sort,
    a: u64,
    b: u64,
    c: u64,
    rows: &mut Rows,
) -> Result<(), AllocError>
    ensures { OnOk result (rows.new ≡ rows.old ++ chain_at (num_of constants.now.facts.now) (vocabulary_of constants.now.parts.now constants.now.facts.now) sort a b c) }
{
    if a < c && (constants.may_meet(sort, a, b) && constants.may_meet(sort, b, c)) {
        append_chain(constants.facts, sort, a, b, c, rows)
    } else {
        Ok(())
    }
}

fn append_chain(
    facts: &Facts,
    sort: Sort,
    a: u64,
    b: u64,
    c: u64,
    rows: &mut Rows,
) -> Result<(), AllocError>
    ensures { OnOk result (rows.new ≡ rows.old ++ chain_clause (num_of facts.now) sort a b c ∷ []) }
{
    let first = literal(false, equation_atom(facts, sort, a, b)?)?;
    let second = literal(false, equation_atom(facts, sort, b, c)?)?;
    let whole = literal(true, equation_atom(facts, sort, a, c)?)?;
    rows.push(&[first, second, whole])
}

// Different numerals are different.
fn write_numerals(facts: &Facts, numerals: &[Numeral], rows: &mut Rows) -> Result<(), AllocError>
    ensures { OnOk result (rows.new ≡ rows.old ++ flat_map (λ p. flat_map (λ q. numerals_differ (num_of facts.now) p q) numerals.now) numerals.now) }
{
    let mut rest = numerals;
    'numerals: while let [numeral, more @ ..] = rest {
        write_numerals_beside(facts, numeral, numerals, rows)?;
        rest = more;
    }
    Ok(())
}

// One numeral is different from those of others that are greater.
fn write_numerals_beside(
    facts: &Facts,
    numeral: &Numeral,
    others: &[Numeral],
    rows: &mut Rows,
) -> Result<(), AllocError>
    ensures { OnOk result (rows.new ≡ rows.old ++ flat_map (λ q. numerals_differ (num_of facts.now) numeral.now q) others.now) }
{
    let mut rest = others;
    'others: while let [other, more @ ..] = rest {
        write_numeral_pair(facts, numeral, other, rows)?;
        rest = more;
    }
    Ok(())
}

fn write_numeral_pair(
    facts: &Facts,
    numeral: &Numeral,
    other: &Numeral,
    rows: &mut Rows,
) -> Result<(), AllocError>
    ensures { OnOk result (rows.new ≡ rows.old ++ numerals_differ (num_of facts.now) numeral.now other.now) }
{
    if numeral.number < other.number {
        let atom = equation_atom(facts, Sort::Pr, numeral.place, other.place)?;
        rows.push(&[literal(false, atom)?])
    } else {
        Ok(())
    }
}
