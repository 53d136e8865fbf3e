//! Formulas in which atoms are replaced.
#![tactic(auto)]

ghost use Rattle.std.specs.Prelude.{◌≡◌, ◌<◌, ◌≤◌, ◌↔◌, IfOk, Err, length};
ghost use Rattle.csdn_core.specs.Nodes.{nodes};
ghost use Rattle.fol_forms.specs.declared.refusal.FormRefusal.TheVariants.{Large};
ghost use Rattle.fol_forms.specs.Changes.{replacement, is_match};
ghost use Rattle.fol_forms.specs.Limits.{capped, most_nodes};
ghost use Rattle.fol_forms.specs.Replace.{replace as replace_of, same as same_of, add_row as add_row_of, drop_row as drop_row_of, add_flood as add_flood_of, fix_packet as fix_packet_of, drop_match as drop_match_of, no_packet as no_packet_of, or_row as or_row_of, not_row as not_row_of, is_row as is_row_of, not_match as not_match_of, no_row as no_row_of, rule_of as rule_of_terms, or_flood as or_flood_of, floods as floods_of};

use crate::count::{and_one, sum_and_one};
use crate::refusal::{FormRefusal, MOST_NODES, or_memory};
use csdn_core::syntax::Formula;
use csdn_core::terms::{Pred, Term, Terms};
use sqlite_items::Boxed;
use std::alloc::{AllocError, Global};

/// What is done with each atom.
#[derive(Drop)]
pub enum Change {
    AddRow(Pred, Terms),
    DropRow(Pred, Terms),
    DropMatch(Terms),
    AddFlood(Terms),
    FixPacket(Terms),
    NoPacket,
}

/// What is true where the formula is true once the tuple is in the relation. `Large` exactly where that has more than
/// 1,048,576 nodes.
pub fn add_row(
    alloc: Global,
    formula: &Formula,
    pred: Pred,
    terms: &Terms,
) -> Result<Formula, FormRefusal>
    ensures form { IfOk result (λ p. p ≡ add_row_of formula.now pred terms.now) }
    ensures large { (result ≡ Err Large) ↔ (most_nodes < nodes (add_row_of formula.now pred terms.now)) }
{
    changed(alloc, formula, &Change::AddRow(pred, terms.copy()))
}

/// What is true where the formula is true once the tuple is out of the relation. `Large` exactly where that has more
/// than 1,048,576 nodes.
pub fn drop_row(
    alloc: Global,
    formula: &Formula,
    pred: Pred,
    terms: &Terms,
) -> Result<Formula, FormRefusal>
    ensures form { IfOk result (λ p. p ≡ drop_row_of formula.now pred terms.now) }
    ensures large { (result ≡ Err Large) ↔ (most_nodes < nodes (drop_row_of formula.now pred terms.now)) }
{
    changed(alloc, formula, &Change::DropRow(pred, terms.copy()))
}

/// What is true where the formula is true once every rule of the match of the four terms is out of the flow tables.
/// `Large` exactly where that has more than 1,048,576 nodes.
pub fn drop_match(alloc: Global, formula: &Formula, terms: &Terms) -> Result<Formula, FormRefusal>
    ensures form { IfOk result (λ p. p ≡ drop_match_of formula.now terms.now) }
    ensures large { (result ≡ Err Large) ↔ (most_nodes < nodes (drop_match_of formula.now terms.now)) }
{
    changed(alloc, formula, &Change::DropMatch(terms.copy()))
}

/// What is true where the formula is true once the packet of the four terms was sent from every port but its own.
/// `Large` exactly where that has more than 1,048,576 nodes.
pub fn add_flood(alloc: Global, formula: &Formula, terms: &Terms) -> Result<Formula, FormRefusal>
    ensures form { IfOk result (λ p. p ≡ add_flood_of formula.now terms.now) }
    ensures large { (result ≡ Err Large) ↔ (most_nodes < nodes (add_flood_of formula.now terms.now)) }
{
    changed(alloc, formula, &Change::AddFlood(terms.copy()))
}

/// What is true where the formula is true when the packet at hand is that of the four terms. `Large` exactly where that
/// has more than 1,048,576 nodes.
pub fn fix_packet(alloc: Global, formula: &Formula, terms: &Terms) -> Result<Formula, FormRefusal>
    ensures form { IfOk result (λ p. p ≡ fix_packet_of formula.now terms.now) }
    ensures large { (result ≡ Err Large) ↔ (most_nodes < nodes (fix_packet_of formula.now terms.now)) }
{
    changed(alloc, formula, &Change::FixPacket(terms.copy()))
}

/// What is true where the formula is true when there is no packet. `Large` exactly where that has more than 1,048,576
/// nodes.
pub fn no_packet(alloc: Global, formula: &Formula) -> Result<Formula, FormRefusal>
    ensures form { IfOk result (λ p. p ≡ no_packet_of formula.now) }
    ensures large { (result ≡ Err Large) ↔ (most_nodes < nodes (no_packet_of formula.now)) }
{
    changed(alloc, formula, &Change::NoPacket)
}

// The formula with each atom replaced, whose nodes are counted before it is made.
fn changed(alloc: Global, formula: &Formula, change: &Change) -> Result<Formula, FormRefusal>
    ensures form { IfOk result (λ p. p ≡ replace_of (replacement change.now) formula.now) }
    ensures large { (result ≡ Err Large) ↔ (most_nodes < nodes (replace_of (replacement change.now) formula.now)) }
{
    let count = count_of(formula, change);
    if count > MOST_NODES {
        return Err(FormRefusal::Large);
    }
    or_memory(made(alloc, formula, change))
}

// How many nodes the formula has once its atoms are replaced.
#[tactic(auto, using(csdn_core::proofs::NodeSteps::node_steps, crate::proofs::Leaves::leaf_nodes, crate::proofs::ReplaceSteps::replace_steps, crate::proofs::Capped::capped_sums))]
fn count_of(formula: &Formula, change: &Change) -> u64
    ensures { result ≡ capped (nodes (replace_of (replacement change.now) formula.now)) }
{
    match formula {
        Formula::True | Formula::False | Formula::Same(_, _) => 1,
        Formula::Atom(pred, terms) => count_at_atom(change, *pred, terms),
        Formula::Not(p) => and_one(count_of(p.get(), change)),
        Formula::And(p, q) | Formula::Or(p, q) | Formula::Implies(p, q) | Formula::Iff(p, q) => {
            sum_and_one(count_of(p.get(), change), count_of(q.get(), change))
        }
        Formula::Forall(_, _, p) | Formula::Exists(_, _, p) => and_one(count_of(p.get(), change)),
    }
}

fn count_at_atom(change: &Change, pred: Pred, terms: &Terms) -> u64
    ensures { result ≡ capped (nodes (replacement change.now pred terms.now)) }
{
    match change {
        Change::AddRow(r, ts) => {
            if pred.is_same(*r) {
                count_of_same(terms, ts) + 2
            } else {
                1
            }
        }
        Change::DropRow(r, ts) => {
            if pred.is_same(*r) {
                count_of_same(terms, ts) + 3
            } else {
                1
            }
        }
        Change::DropMatch(ts) => {
            if pred.is_same(Pred::Ft) {
                count_of_rule(ts, terms) + 3
            } else {
                1
            }
        }
        Change::AddFlood(ts) => {
            if pred.is_same(Pred::Sent) {
                count_of_floods(ts, terms) + 2
            } else {
                1
            }
        }
        Change::FixPacket(ts) => {
            if pred.is_same(Pred::RcvThis) {
                count_of_same(terms, ts)
            } else {
                1
            }
        }
        Change::NoPacket => 1,
    }
}

// The nodes of the equations of two lists.
fn count_of_same(us: &Terms, ts: &Terms) -> u64
    ensures count { result ≡ nodes (same_of us.now ts.now) }
    ensures few { result ≤ 11 }
{
    count_of_equations(us.as_slice(), ts.as_slice())
}

fn count_of_equations(us: &[Term], ts: &[Term]) -> u64
    requires { length us.now ≤ 5 }
    ensures count { result ≡ nodes (same_of us.now ts.now) }
    ensures few { result ≤ 11 }
{
    let shared = us.len().min(ts.len()) as u64;
    if us.len() == ts.len() && shared > 0 {
        2 * shared - 1
    } else {
        2 * shared + 1
    }
}

// Whether these are the terms of a match and of a rule.
fn are_match(ts: &Terms, us: &Terms) -> bool
    ensures { result ≡ is_match ts.now us.now }
{
    match ts.as_slice() {
        [_, _, _, _] => match us.as_slice() {
            [_, _, _, _, _] => true,
            _ => false,
        },
        _ => false,
    }
}

fn count_of_rule(ts: &Terms, us: &Terms) -> u64
    ensures count { result ≡ nodes (rule_of_terms ts.now us.now) }
    ensures few { result ≤ 7 }
{
    if are_match(ts, us) { 7 } else { 1 }
}

fn count_of_floods(ts: &Terms, us: &Terms) -> u64
    ensures count { result ≡ nodes (floods_of ts.now us.now) }
    ensures few { result ≤ 10 }
{
    if are_match(ts, us) { 10 } else { 1 }
}

#[cycle(made)]
#[tactic(auto, using(csdn_core::proofs::NodeSteps::node_steps, crate::proofs::ReplaceSteps::replace_steps))]
fn made(alloc: Global, formula: &Formula, change: &Change) -> Result<Formula, AllocError>
    ensures { IfOk result (λ f. f ≡ replace_of (replacement change.now) formula.now) }
{
    match formula {
        Formula::True => Ok(Formula::True),
        Formula::False => Ok(Formula::False),
        Formula::Atom(pred, terms) => at_atom(alloc, change, *pred, terms),
        Formula::Same(t, u) => Ok(Formula::Same(*t, *u)),
        Formula::Not(p) => Ok(Formula::Not(boxed(alloc, p.get(), change)?)),
        Formula::And(p, q) => {
            let first = boxed(alloc, p.get(), change)?;
            let second = boxed(alloc, q.get(), change)?;
            Ok(Formula::And(first, second))
        }
        Formula::Or(p, q) => {
            let first = boxed(alloc, p.get(), change)?;
            let second = boxed(alloc, q.get(), change)?;
            Ok(Formula::Or(first, second))
        }
        Formula::Implies(p, q) => {
            let first = boxed(alloc, p.get(), change)?;
            let second = boxed(alloc, q.get(), change)?;
            Ok(Formula::Implies(first, second))
        }
        Formula::Iff(p, q) => {
            let first = boxed(alloc, p.get(), change)?;
            let second = boxed(alloc, q.get(), change)?;
            Ok(Formula::Iff(first, second))
        }
        Formula::Forall(var, sort, p) => {
            let p = boxed(alloc, p.get(), change)?;
            Ok(Formula::Forall(*var, *sort, p))
        }
        Formula::Exists(var, sort, p) => {
            let p = boxed(alloc, p.get(), change)?;
            Ok(Formula::Exists(*var, *sort, p))
        }
    }
}

#[cycle(made)]
#[tactic(auto, using(csdn_core::proofs::NodeSteps::node_steps))]
fn boxed(alloc: Global, formula: &Formula, change: &Change) -> Result<Boxed<Formula>, AllocError>
    ensures { IfOk result (λ f. f ≡ replace_of (replacement change.now) formula.now) }
{
    Boxed::new(alloc, made(alloc, formula, change)?)
}

fn at_atom(alloc: Global, change: &Change, pred: Pred, terms: &Terms) -> Result<Formula, AllocError>
    ensures { IfOk result (λ f. f ≡ replacement change.now pred terms.now) }
{
    match change {
        Change::AddRow(r, ts) => or_row(alloc, *r, ts, pred, terms),
        Change::DropRow(r, ts) => not_row(alloc, *r, ts, pred, terms),
        Change::DropMatch(ts) => not_match(alloc, ts, pred, terms),
        Change::AddFlood(ts) => or_flood(alloc, ts, pred, terms),
        Change::FixPacket(ts) => is_row(alloc, ts, pred, terms),
        Change::NoPacket => Ok(no_row(pred, terms)),
    }
}

#[tactic(auto, using(csdn_core::proofs::Shapes::shapes))]
fn or_row(alloc: Global, r: Pred, ts: &Terms, q: Pred, us: &Terms) -> Result<Formula, AllocError>
    ensures { IfOk result (λ f. f ≡ or_row_of r ts.now q us.now) }
{
    let atom = Formula::Atom(q, us.copy());
    if q.is_same(r) {
        let atom = Boxed::new(alloc, atom)?;
        let equal = Boxed::new(alloc, same(alloc, us.as_slice(), ts.as_slice())?)?;
        Ok(Formula::Or(atom, equal))
    } else {
        Ok(atom)
    }
}

#[tactic(auto, using(csdn_core::proofs::Shapes::shapes))]
fn not_row(alloc: Global, r: Pred, ts: &Terms, q: Pred, us: &Terms) -> Result<Formula, AllocError>
    ensures { IfOk result (λ f. f ≡ not_row_of r ts.now q us.now) }
{
    let atom = Formula::Atom(q, us.copy());
    if q.is_same(r) {
        let atom = Boxed::new(alloc, atom)?;
        let equal = Boxed::new(alloc, same(alloc, us.as_slice(), ts.as_slice())?)?;
        let differ = Boxed::new(alloc, Formula::Not(equal))?;
        Ok(Formula::And(atom, differ))
    } else {
        Ok(atom)
    }
}

#[tactic(auto, using(csdn_core::proofs::Shapes::shapes))]
fn not_match(alloc: Global, ts: &Terms, q: Pred, us: &Terms) -> Result<Formula, AllocError>
    ensures { IfOk result (λ f. f ≡ not_match_of ts.now q us.now) }
{
    let atom = Formula::Atom(q, us.copy());
    if q.is_same(Pred::Ft) {
        let atom = Boxed::new(alloc, atom)?;
        let own = Boxed::new(alloc, rule_of(alloc, ts.as_slice(), us.as_slice())?)?;
        let other = Boxed::new(alloc, Formula::Not(own))?;
        Ok(Formula::And(atom, other))
    } else {
        Ok(atom)
    }
}

// The first four of five terms are those of the match.
fn rule_of(alloc: Global, ts: &[Term], us: &[Term]) -> Result<Formula, AllocError>
    ensures { IfOk result (λ f. f ≡ rule_of_terms ts.now us.now) }
{
    match ts {
        [s, a, b, i] => match us {
            [u, v, w, j, _] => same(alloc, &[*u, *v, *w, *j], &[*s, *a, *b, *i]),
            _ => Ok(Formula::False),
        },
        _ => Ok(Formula::False),
    }
}

#[tactic(auto, using(csdn_core::proofs::Shapes::shapes))]
fn or_flood(alloc: Global, ts: &Terms, q: Pred, us: &Terms) -> Result<Formula, AllocError>
    ensures { IfOk result (λ f. f ≡ or_flood_of ts.now q us.now) }
{
    let atom = Formula::Atom(q, us.copy());
    if q.is_same(Pred::Sent) {
        let atom = Boxed::new(alloc, atom)?;
        let flooded = Boxed::new(alloc, floods(alloc, ts.as_slice(), us.as_slice())?)?;
        Ok(Formula::Or(atom, flooded))
    } else {
        Ok(atom)
    }
}

fn is_row(alloc: Global, ts: &Terms, q: Pred, us: &Terms) -> Result<Formula, AllocError>
    ensures { IfOk result (λ f. f ≡ is_row_of ts.now q us.now) }
{
    if q.is_same(Pred::RcvThis) {
        same(alloc, us.as_slice(), ts.as_slice())
    } else {
        Ok(Formula::Atom(q, us.copy()))
    }
}

fn no_row(q: Pred, us: &Terms) -> Formula
    ensures { result ≡ no_row_of q us.now }
{
    if q.is_same(Pred::RcvThis) {
        Formula::False
    } else {
        Formula::Atom(q, us.copy())
    }
}

// The packet's own four terms, and another port.
#[tactic(auto, using(csdn_core::proofs::Shapes::shapes))]
fn floods(alloc: Global, ts: &[Term], us: &[Term]) -> Result<Formula, AllocError>
    ensures { IfOk result (λ f. f ≡ floods_of ts.now us.now) }
{
    match ts {
        [s, a, b, i] => match us {
            [u, v, w, j, o] => {
                let own = Boxed::new(alloc, same(alloc, &[*u, *v, *w, *j], &[*s, *a, *b, *i])?)?;
                let ingress = Boxed::new(alloc, Formula::Same(*o, *i))?;
                let other = Boxed::new(alloc, Formula::Not(ingress))?;
                Ok(Formula::And(own, other))
            }
            _ => Ok(Formula::False),
        },
        _ => Ok(Formula::False),
    }
}

/// The equations of two lists of terms, one after another, which have as many.
#[tactic(auto, using(crate::proofs::Equations::same_steps))]
pub fn same(alloc: Global, us: &[Term], ts: &[Term]) -> Result<Formula, AllocError>
    ensures { IfOk result (λ f. f ≡ same_of us.now ts.now) }
{
    if us.is_empty() || ts.is_empty() {
        return Ok(Formula::True);
    }
    let first = Formula::Same(us[0], ts[0]);
    if us.len() == 1 && ts.len() == 1 {
        return Ok(first);
    }
    let first = Boxed::new(alloc, first)?;
    let rest = same(alloc, &us[1..], &ts[1..])?;
    let rest = Boxed::new(alloc, rest)?;
    Ok(Formula::And(first, rest))
}
