//! The facts of a sentence over its constants, and their numbers.
#![tactic(auto)]

ghost use Rattle.std.specs.Prelude.{◌≡◌, ◌+◌, ◌*◌, max, min, true, IfOk, OnOk};
ghost use Rattle.csdn_core.specs.WellSorted.{signature};
ghost use Rattle.csdn_core.specs.Sorted.{sorts_of};
ghost use Rattle.fol_forms.specs.Constants.{counts as counts_of};
ghost use Rattle.fol_forms.specs.Counts.{count_of};
ghost use Rattle.fol_forms.specs.Forms.{form_of, normal_form};
ghost use Rattle.decision_laws.specs.Copies.{Tuple as TupleFact, Equation as EquationFact};
ghost use Rattle.decision_laws.specs.Numbers.{tuple_count as count_of_tuples, tuple_number as number_of_tuple};
ghost use Rattle.decision_laws.specs.Vocabulary.{uses, sorts_or, all_relations};
ghost use Rattle.ground_inst.specs.Facts.{AreFactsOf, num_of, tuple_place, equations_before as equations_before_sort, equation_count as count_of_equations, sorts_in, declared, with_relation, with_relations};

use csdn_core::program::{Parts, Sorts};
use csdn_core::syntax::Formula;
use csdn_core::terms::{FLOW_SORTS, Pred, RelId, Sort};
use fol_forms::instances::{Counts, constants_of};
use fol_forms::signed::{Signed, view};
use sqlite_items::Items;
use std::alloc::{AllocError, Global};

/// A relation that a sentence uses.
#[derive(Drop)]
pub struct UsedRelation {
    pub relation: Pred,
    pub sorts: Sorts,
    /// How many facts are numbered before its tuples.
    pub before: u64,
}

/// The facts of a sentence: the equations of each sort, and the tuples of each relation that it uses.
#[derive(Drop)]
pub struct Facts {
    /// How many constants each sort has.
    pub counts: Counts,
    /// In the program's order.
    pub relations: Items<UsedRelation>,
    /// How many facts there are.
    pub count: u64,
}

#[tactic(auto, unfolding(crate::specs::Facts::num_of))]
/// The atom of an equation. It takes no memory; `AllocError` where the atom is no u64.
pub fn equation_atom(facts: &Facts, sort: Sort, a: u64, b: u64) -> Result<u64, AllocError>
    ensures { IfOk result (λ atom. atom ≡ num_of facts.now (EquationFact sort a b)) }
{
    let before = equations_before(&facts.counts, sort)?;
    let rows = product(a.max(b), facts.counts.of(sort))?;
    let place = sum(rows, a.min(b))?;
    sum(sum(before, place)?, 1)
}

#[tactic(auto, unfolding(crate::specs::Facts::num_of))]
/// The atom of a tuple. It takes no memory; `AllocError` where the atom is no u64, or the relation isn't used.
pub fn tuple_atom(facts: &Facts, relation: Pred, places: &[u64]) -> Result<u64, AllocError>
    ensures { IfOk result (λ atom. atom ≡ num_of facts.now (TupleFact relation places.now)) }
{
    let place = tuple_place_in(
        &facts.counts,
        facts.relations.as_slice(),
        facts.count,
        relation,
        places,
    )?;
    sum(place, 1)
}

// The place of a tuple of one of these relations, or of none.
fn tuple_place_in(
    counts: &Counts,
    relations: &[UsedRelation],
    none: u64,
    relation: Pred,
    places: &[u64],
) -> Result<u64, AllocError>
    ensures { IfOk result (λ place. place ≡ tuple_place (count_of counts.now) relations.now none relation places.now) }
{
    let mut rest = relations;
    'relations: while let [used, more @ ..] = rest {
        if used.relation.is_same(relation) {
            let number = tuple_number(counts, used.sorts.as_slice(), places)?;
            return sum(used.before, number);
        }
        rest = more;
    }
    Ok(none)
}

fn sum(a: u64, b: u64) -> Result<u64, AllocError>
    ensures { IfOk result (λ c. c ≡ a + b) }
{
    a.checked_add(b).ok_or(AllocError)
}

fn product(a: u64, b: u64) -> Result<u64, AllocError>
    ensures { IfOk result (λ c. c ≡ a * b) }
{
    a.checked_mul(b).ok_or(AllocError)
}

// How many equations of other sorts are numbered before those of a sort.
fn equations_before(counts: &Counts, sort: Sort) -> Result<u64, AllocError>
    ensures { IfOk result (λ before. before ≡ equations_before_sort (count_of counts.now) sort) }
{
    match sort {
        Sort::Sw => Ok(0),
        Sort::Ho => square(counts, Sort::Sw),
        Sort::Pr => sum(square(counts, Sort::Sw)?, square(counts, Sort::Ho)?),
    }
}

fn square(counts: &Counts, sort: Sort) -> Result<u64, AllocError>
    ensures { IfOk result (λ c. c ≡ count_of counts.now sort * count_of counts.now sort) }
{
    product(counts.of(sort), counts.of(sort))
}

// The number of a tuple among those of its relation.
fn tuple_number(counts: &Counts, sorts: &[Sort], places: &[u64]) -> Result<u64, AllocError>
    ensures { IfOk result (λ number. number ≡ number_of_tuple (count_of counts.now) sorts.now places.now) }
{
    match sorts {
        [] => Ok(0),
        [sort, other_sorts @ ..] => match places {
            [] => Ok(0),
            [place, others @ ..] => {
                let number = tuple_number(counts, other_sorts, others)?;
                sum(product(number, counts.of(*sort))?, *place)
            }
        },
    }
}

/// How many tuples of constants of these sorts there are. It takes no memory; `AllocError` where there are 2^64.
pub fn tuple_count(counts: &Counts, sorts: &[Sort]) -> Result<u64, AllocError>
    ensures { IfOk result (λ count. count ≡ count_of_tuples (count_of counts.now) sorts.now) }
{
    match sorts {
        [] => Ok(1),
        [sort, others @ ..] => product(tuple_count(counts, others)?, counts.of(*sort)),
    }
}

/// The sorts of a relation that a sentence uses; none of another one. It takes as many steps as the sentence uses relations.
pub fn sorts_of_used<'a>(facts: &'a Facts, relation: Pred) -> &'a [Sort]
    ensures { result.now ≡ sorts_in facts.now.relations relation }
{
    let mut rest = facts.relations.as_slice();
    'relations: while let [used, more @ ..] = rest {
        if used.relation.is_same(relation) {
            return used.sorts.as_slice();
        }
        rest = more;
    }
    &[]
}

/// The facts of a sentence. It walks the sentence once for each relation of the program. `AllocError` also where they are 2^62 or
/// more.
pub fn facts_of(alloc: Global, parts: &Parts, sentence: &Formula) -> Result<Facts, AllocError>
    ensures { IfOk result (AreFactsOf parts.now sentence.now) }
{
    let counts = constants_of(parts, sentence);
    let count = equation_count(&counts)?;
    let mut facts = Facts {
        counts,
        relations: Items::new(alloc),
        count,
    };
    gather_all(alloc, parts, sentence, &mut facts)?;
    if facts.count < 1 << 62 {
        Ok(facts)
    } else {
        Err(AllocError)
    }
}

// How many equations there are.
fn equation_count(counts: &Counts) -> Result<u64, AllocError>
    ensures { IfOk result (λ count. count ≡ count_of_equations (count_of counts.now)) }
{
    sum(
        equations_before(counts, Sort::Pr)?,
        square(counts, Sort::Pr)?,
    )
}

// Appends the relations that a sentence uses.
fn gather_all(
    alloc: Global,
    parts: &Parts,
    sentence: &Formula,
    facts: &mut Facts,
) -> Result<(), AllocError>
    ensures { OnOk result (facts.new ≡ with_relations (uses (form_of sentence.now)) (λ r. sorts_or (sorts_of (signature parts.now) r)) facts.old (all_relations parts.now)) }
{
    gather_declared(alloc, parts, sentence, facts)?;
    gather(alloc, sentence, Pred::Ft, &FLOW_SORTS, facts)?;
    gather(alloc, sentence, Pred::Sent, &FLOW_SORTS, facts)
}

// Appends the declared relations that a sentence uses.
fn gather_declared(
    alloc: Global,
    parts: &Parts,
    sentence: &Formula,
    facts: &mut Facts,
) -> Result<(), AllocError>
    ensures { OnOk result (facts.new ≡ with_relations (uses (form_of sentence.now)) (λ r. sorts_or (sorts_of (signature parts.now) r)) facts.old (declared parts.now)) }
{
    for (number, relation) in parts.relations.as_slice().iter().enumerate() {
        let id = relation_id(number)?;
        gather(
            alloc,
            sentence,
            Pred::Stored(id),
            relation.sorts.as_slice(),
            facts,
        )?;
    }
    Ok(())
}

fn relation_id(number: usize) -> Result<RelId, AllocError>
    ensures { IfOk result (λ id. id ≡ record { 0 = number }) }
{
    match u32::try_from(number) {
        Ok(id) => Ok(RelId(id)),
        Err(_) => Err(AllocError),
    }
}

// Appends a relation, where a sentence uses it.
fn gather(
    alloc: Global,
    sentence: &Formula,
    relation: Pred,
    sorts: &[Sort],
    facts: &mut Facts,
) -> Result<(), AllocError>
    ensures { OnOk result (facts.new ≡ with_relation (uses (form_of sentence.now) relation) facts.old relation sorts.now) }
{
    if is_used(sentence, true, relation) {
        append(alloc, relation, sorts, facts)
    } else {
        Ok(())
    }
}

// Appends a relation.
fn append(
    alloc: Global,
    relation: Pred,
    sorts: &[Sort],
    facts: &mut Facts,
) -> Result<(), AllocError>
    ensures { OnOk result (facts.new ≡ with_relation true facts.old relation sorts.now) }
{
    let tuples = tuple_count(&facts.counts, sorts)?;
    let before = facts.count;
    let count = sum(before, tuples)?;
    let sorts = Items::from_slice(alloc, sorts)?;
    facts.relations.push(UsedRelation {
        relation,
        sorts,
        before,
    })?;
    facts.count = count;
    Ok(())
}

// Whether the normal form of a formula has a relation; for the sign `false` that of its negation.
fn is_used(formula: &Formula, sign: bool, relation: Pred) -> bool
    ensures { result ≡ uses (normal_form sign formula.now) relation }
{
    match view(formula, sign) {
        Signed::Truth(_) | Signed::Equal(_, _, _) => false,
        Signed::Atom(_, other, _) => other.is_same(relation),
        Signed::Both(p, q) | Signed::Either(p, q) => {
            is_used(p.formula, p.sign, relation) || is_used(q.formula, q.sign, relation)
        }
        Signed::Cases(p, q) => {
            (is_used(p.formula, p.sign, relation) || is_used(q.formula, q.sign, relation))
                || (is_used(p.formula, !p.sign, relation) || is_used(q.formula, !q.sign, relation))
        }
        Signed::Forall(_, _, p) | Signed::Exists(_, _, p) => {
            is_used(p.formula, p.sign, relation)
        }
    }
}
