//! The clauses of a sentence's copies.
#![tactic(auto)]

ghost use Rattle.std.specs.Prelude.{◌≡◌, ◌+◌, ◌++◌, [], ◌∷◌, IfOk, OnOk, length, not};
ghost use Rattle.csdn_core.specs.declared.terms.Sort.{Sort as AnySort};
ghost use Rattle.fol_forms.specs.Constants.{names_of};
ghost use Rattle.fol_forms.specs.Counts.{count_of};
ghost use Rattle.fol_forms.specs.Forms.{And, ForAll, ForSome, Or, form_of, normal_form};
ghost use Rattle.decision_laws.specs.Clauses.{either_clauses, member_clause, whole_clauses};
ghost use Rattle.ground_inst.specs.Copies.{copies_over};
ghost use Rattle.ground_inst.specs.Facts.{num_of};
ghost use Rattle.ground_inst.specs.Walk.{AddsBound, AddsCopies, AddsEach, AddsMember, copied_value as value_copied, named_clauses, numbered, state_of, ways_of};

use crate::bases::{larger, one_more};
use crate::facts::Facts;
use crate::places::{Binding, Names, equation_literal, literal, tuple_literal};
use crate::rows::Rows;
use clause_log::Lit;
use csdn_core::program::Parts;
use csdn_core::syntax::Formula;
use csdn_core::terms::{Sort, VarId};
use fol_forms::constants::known;
use fol_forms::instances::Counts;
use fol_forms::signed::{Signed, view};
use std::alloc::{AllocError, Global};
use std::mem::replace;

/// What the walk has made, and where it stands: the constants of variables, the first free constant of each sort, the number of
/// the next conjunction or disjunction, and the clauses.
#[derive(Drop)]
pub struct Work {
    pub env: Vec<Binding>,
    pub base: Counts,
    pub next: u64,
    pub rows: Rows,
}

/// Appends the clauses of the copies of a formula over the constants of `facts`; its conjunctions and disjunctions are the atoms
/// from `first` on. What the rows are after want of memory is not told.
pub fn write_copies(
    alloc: Global,
    parts: &Parts,
    facts: &Facts,
    formula: &Formula,
    first: u64,
    rows: &mut Rows,
) -> Result<(), AllocError>
    ensures { OnOk result (rows.new ≡ rows.old ++ whole_clauses (num_of facts.now) first (copies_over parts.now (count_of facts.now.counts) (form_of formula.now))) }
{
    match copied_value(&facts.counts, formula, true) {
        Some(true) => Ok(()),
        Some(false) => rows.push(&[]),
        None => write_nodes(alloc, Names { parts, facts }, formula, first, rows),
    }
}

/// Which truth value the copies of a formula are, if they are one; for the sign `false` those of its negation. It takes no memory.
pub fn copied_value(counts: &Counts, formula: &Formula, sign: bool) -> Option<bool>
    ensures { result ≡ value_copied (count_of counts.now) (normal_form sign formula.now) }
{
    match view(formula, sign) {
        Signed::Truth(value) => Some(value),
        Signed::Forall(_, sort, p) => match counts.of(sort) {
            0 => Some(true),
            1 => copied_value(counts, p.formula, p.sign),
            _ => None,
        },
        Signed::Exists(_, _, p) => copied_value(counts, p.formula, p.sign),
        _ => None,
    }
}

/// How many names each sort has: behind them stand the free constants. It takes no memory.
pub fn known_of(parts: &Parts) -> Counts
    ensures { (t : AnySort) → count_of result t ≡ length (names_of parts.now t) }
{
    Counts {
        sw: known(parts, Sort::Sw) as u64,
        ho: known(parts, Sort::Ho) as u64,
        pr: known(parts, Sort::Pr) as u64,
    }
}

// The clauses of copies that are no truth value.
fn write_nodes(
    alloc: Global,
    names: Names,
    formula: &Formula,
    first: u64,
    rows: &mut Rows,
) -> Result<(), AllocError>
    ensures { OnOk result (rows.new ≡ rows.old ++ named_clauses (num_of names.entry.facts.now) first (copies_over names.entry.parts.now (count_of names.entry.facts.now.counts) (form_of formula.now))) }
{
    let mut work = Work {
        env: Vec::new(alloc),
        base: known_of(names.parts),
        next: first,
        rows: replace(rows, Rows::new(alloc)),
    };
    let top = walk(&names, formula, true, &mut work)?;
    *rows = work.rows;
    rows.push(&[top])
}

/// Takes the number of a conjunction or disjunction. It takes no memory; `AllocError` where the next one is no u64.
pub fn number(work: &mut Work) -> Result<u64, AllocError>
    ensures number { IfOk result (λ x. x ≡ (state_of work.old).next) }
    ensures taken { OnOk result (state_of work.new ≡ numbered (state_of work.old)) }
{
    let x = work.next;
    work.next = x.checked_add(1).ok_or(AllocError)?;
    Ok(x)
}

/// Appends the clause of a member of the conjunction with this number.
pub fn push_member(rows: &mut Rows, x: u64, a: Lit) -> Result<(), AllocError>
    ensures { OnOk result (rows.new ≡ rows.old ++ member_clause x a ∷ []) }
{
    let not_x = literal(false, x)?;
    rows.push(&[not_x, a])
}

/// Appends the clauses of the disjunction with this number.
pub fn push_either(rows: &mut Rows, x: u64, a: Lit, b: Lit) -> Result<(), AllocError>
    ensures { OnOk result (rows.new ≡ rows.old ++ either_clauses x a b) }
{
    let not_x = literal(false, x)?;
    if a.atom() != b.atom() {
        rows.push(&[not_x, a, b])
    } else if a.is_positive() == b.is_positive() {
        rows.push(&[not_x, a])
    } else {
        Ok(())
    }
}

/// Binds a variable, which is the innermost then.
pub fn bind(env: &mut Vec<Binding>, binding: Binding) -> Result<(), AllocError>
    ensures { OnOk result (env.new.items ≡ env.old.items ++ binding ∷ []) }
{
    env.push(binding).map_err(AllocError::from)?;
    Ok(())
}

// Adds the clauses of the copies of a formula, or for the sign `false` of its negation, and answers the literal of their node.
#[cycle(walk)]
fn walk(names: &Names, formula: &Formula, sign: bool, work: &mut Work) -> Result<Lit, AllocError>
    ensures { IfOk result (λ l. AddsCopies (ways_of names.now) (normal_form sign formula.now) (state_of work.old) (state_of work.new) l) }
{
    match view(formula, sign) {
        Signed::Truth(_) => literal(true, work.next),
        Signed::Atom(sign, pred, terms) => tuple_literal(names, &work.env, sign, pred, terms),
        Signed::Equal(sign, t, u) => equation_literal(names, &work.env, sign, t, u),
        Signed::Both(p, q) => walk_both(names, p.formula, p.sign, q.formula, q.sign, work),
        Signed::Either(p, q) => walk_either(names, p.formula, p.sign, q.formula, q.sign, work),
        Signed::Cases(p, q) => walk_cases(names, p.formula, p.sign, q.formula, q.sign, work),
        Signed::Forall(var, sort, p) => walk_each(names, var, sort, p.formula, p.sign, work),
        Signed::Exists(var, sort, p) => walk_free(names, var, sort, p.formula, p.sign, work),
    }
}

// The copies of a member of the conjunction with this number, and its clause.
#[cycle(walk)]
fn walk_member(
    names: &Names,
    formula: &Formula,
    sign: bool,
    work: &mut Work,
    x: u64,
) -> Result<(), AllocError>
    ensures { OnOk result (AddsMember (ways_of names.now) (normal_form sign formula.now) (state_of work.old) (state_of work.new) x) }
{
    let a = walk(names, formula, sign, work)?;
    push_member(&mut work.rows, x, a)
}

// The copies of a conjunction.
#[cycle(walk)]
fn walk_both(
    names: &Names,
    p: &Formula,
    p_sign: bool,
    q: &Formula,
    q_sign: bool,
    work: &mut Work,
) -> Result<Lit, AllocError>
    ensures { IfOk result (λ l. AddsCopies (ways_of names.now) (And (normal_form p_sign p.now) (normal_form q_sign q.now)) (state_of work.old) (state_of work.new) l) }
{
    let x = number(work)?;
    walk_member(names, p, p_sign, work, x)?;
    walk_member(names, q, q_sign, work, x)?;
    literal(true, x)
}

// The copies of a disjunction. Both sides take the same free constants.
#[cycle(walk)]
fn walk_either(
    names: &Names,
    p: &Formula,
    p_sign: bool,
    q: &Formula,
    q_sign: bool,
    work: &mut Work,
) -> Result<Lit, AllocError>
    ensures { IfOk result (λ l. AddsCopies (ways_of names.now) (Or (normal_form p_sign p.now) (normal_form q_sign q.now)) (state_of work.old) (state_of work.new) l) }
{
    let x = number(work)?;
    let start = work.base;
    let a = walk(names, p, p_sign, work)?;
    let after = work.base;
    work.base = start;
    let b = walk(names, q, q_sign, work)?;
    work.base = larger(after, work.base);
    push_either(&mut work.rows, x, a, b)?;
    literal(true, x)
}

// The copies of both, or of the opposites of both.
#[cycle(walk)]
fn walk_cases(
    names: &Names,
    p: &Formula,
    p_sign: bool,
    q: &Formula,
    q_sign: bool,
    work: &mut Work,
) -> Result<Lit, AllocError>
    ensures { IfOk result (λ l. AddsCopies (ways_of names.now) (Or (And (normal_form p_sign p.now) (normal_form q_sign q.now)) (And (normal_form (not p_sign) p.now) (normal_form (not q_sign) q.now))) (state_of work.old) (state_of work.new) l) }
{
    let x = number(work)?;
    let start = work.base;
    let a = walk_both(names, p, p_sign, q, q_sign, work)?;
    let after = work.base;
    work.base = start;
    let b = walk_both(names, p, !p_sign, q, !q_sign, work)?;
    work.base = larger(after, work.base);
    push_either(&mut work.rows, x, a, b)?;
    literal(true, x)
}

// The copies of a body, its variable standing for this constant.
#[cycle(walk)]
fn walk_at(
    names: &Names,
    binding: Binding,
    formula: &Formula,
    sign: bool,
    work: &mut Work,
) -> Result<Lit, AllocError>
    ensures { IfOk result (λ l. AddsBound (ways_of names.now) (normal_form sign formula.now) binding.var binding.sort binding.place (state_of work.old) (state_of work.new) l) }
{
    bind(&mut work.env, binding)?;
    let a = walk(names, formula, sign, work)?;
    work.env.pop();
    Ok(a)
}

// The copies of an `exists`: its variable stands for the first free constant.
#[cycle(walk)]
fn walk_free(
    names: &Names,
    var: VarId,
    sort: Sort,
    formula: &Formula,
    sign: bool,
    work: &mut Work,
) -> Result<Lit, AllocError>
    ensures { IfOk result (λ l. AddsCopies (ways_of names.now) (ForSome var sort (normal_form sign formula.now)) (state_of work.old) (state_of work.new) l) }
{
    let place = work.base.of(sort);
    work.base = one_more(work.base, sort)?;
    walk_at(names, Binding { var, sort, place }, formula, sign, work)
}

// The copies of a `forall`, after which the free constants are the same.
#[cycle(walk)]
fn walk_each(
    names: &Names,
    var: VarId,
    sort: Sort,
    formula: &Formula,
    sign: bool,
    work: &mut Work,
) -> Result<Lit, AllocError>
    ensures { IfOk result (λ l. AddsCopies (ways_of names.now) (ForAll var sort (normal_form sign formula.now)) (state_of work.old) (state_of work.new) l) }
{
    let start = work.base;
    let a = walk_all(names, var, sort, formula, sign, work)?;
    work.base = start;
    Ok(a)
}

// The copies of a body for each constant of a sort.
#[cycle(walk)]
fn walk_all(
    names: &Names,
    var: VarId,
    sort: Sort,
    formula: &Formula,
    sign: bool,
    work: &mut Work,
) -> Result<Lit, AllocError>
    ensures { IfOk result (λ l. AddsEach (ways_of names.now) (normal_form sign formula.now) var sort (state_of work.old) (state_of work.new) l) }
{
    let count = names.facts.counts.of(sort);
    if count == 0 {
        return literal(true, work.next);
    }
    if count == 1 {
        let binding = Binding {
            var,
            sort,
            place: 0,
        };
        return walk_at(names, binding, formula, sign, work);
    }
    let start = work.base;
    let x = number(work)?;
    for place in 0..count {
        work.base = start;
        let a = walk_at(names, Binding { var, sort, place }, formula, sign, work)?;
        push_member(&mut work.rows, x, a)?;
    }
    literal(true, x)
}
