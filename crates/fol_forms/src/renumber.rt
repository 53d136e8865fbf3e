//! Formulas whose bound variables are numbered anew.
#![tactic(auto)]

ghost use Rattle.std.specs.Prelude.{◌≡◌, ◌<◌, ◌≤◌, ◌+◌, ◌↔◌, ◌^◌, ◌++◌, [], ◌∷◌, map, length, IfOk, OnOk, Err};
ghost use Rattle.csdn_core.specs.Nodes.{nodes};
ghost use Rattle.csdn_core.specs.Truth.{with_var};
ghost use Rattle.fol_forms.specs.declared.refusal.FormRefusal.TheVariants.{Large};
ghost use Rattle.fol_forms.specs.Limits.{most_nodes};
ghost use Rattle.fol_forms.specs.Names.{new_numbers};
ghost use Rattle.fol_forms.specs.Renumber.{binders, renamed as renamed_of, renumber as renumber_of, renumbered as renumbered_of};

use crate::count::node_count;
use crate::refusal::{FormRefusal, MOST_NODES, or_memory};
use csdn_core::syntax::Formula;
use csdn_core::terms::{Term, Terms, VarId};
use sqlite_items::Boxed;
use std::alloc::{AllocError, Global};

/// The formula with its bound variables numbered from `from` on, each its own, in the order of the text. The numbers end below
/// 2^32. `Large` exactly where it has more than 1,048,576 nodes.
pub fn renumber(alloc: Global, formula: &Formula, from: u32) -> Result<Formula, FormRefusal>
    requires { from + binders formula.now ≤ 2 ^ 32 }
    ensures form { IfOk result (λ p. p ≡ renumber_of formula.now from) }
    ensures large { (result ≡ Err Large) ↔ (most_nodes < nodes (renumber_of formula.now from)) }
{
    let count = node_count(formula);
    if count > MOST_NODES {
        return Err(FormRefusal::Large);
    }
    or_memory(renumbered(alloc, formula, from))
}

/// A variable in scope and its new number.
#[derive(Clone, Copy, Debug, PartialEq, Eq)]
pub struct Renaming {
    pub var: VarId,
    pub number: u32,
}

// The variables in scope, and the next number.
#[derive(Drop)]
struct Numbers {
    scope: Vec<Renaming>,
    next: u64,
}

fn renumbered(alloc: Global, formula: &Formula, from: u32) -> Result<Formula, AllocError>
    requires { from + binders formula.now ≤ 2 ^ 32 }
    ensures { IfOk result (λ p. p ≡ renumber_of formula.now from) }
{
    let mut numbers = Numbers {
        scope: Vec::new(alloc),
        next: u64::from(from),
    };
    made(alloc, formula, &mut numbers)
}

// The new number of a variable in scope, and the own number of another one.
fn new_number(scope: &[Renaming], var: VarId) -> u32
    ensures { result ≡ new_numbers scope.now var.0 }
{
    let mut rest = scope;
    let mut number = var.0;
    'pairs: while let [pair, more @ ..] = rest {
        if var == pair.var {
            number = pair.number;
        }
        rest = more;
    }
    number
}

/// A term whose variable, where it is in scope, has its new number. It takes as many steps as variables are in scope.
pub fn renamed(scope: &[Renaming], term: Term) -> Term
    ensures { result ≡ renamed_of (new_numbers scope.now) term }
{
    match term {
        Term::Var(var) => Term::Var(VarId(new_number(scope, var))),
        Term::Const(id) => Term::Const(id),
        Term::Port(number) => Term::Port(number),
    }
}

/// Terms, at most five, whose variables have their new numbers.
pub fn renamed_all(scope: &[Renaming], terms: &[Term]) -> Terms
    requires { length terms.now ≤ 5 }
    ensures { result ≡ map (renamed_of (new_numbers scope.now)) terms.now }
{
    let mut all = Terms::new();
    for term in terms {
        all.push(renamed(scope, *term));
    }
    all
}

// A number that is a variable's.
fn numbered(number: u64) -> u32
    requires { number < 2 ^ 32 }
    ensures { result ≡ number }
{
    number as u32
}

#[cycle(made)]
#[tactic(auto, using(csdn_core::proofs::NodeSteps::node_steps, crate::proofs::RenumberSteps::renumber_steps, crate::proofs::RenumberSteps::binder_steps))]
fn made(alloc: Global, formula: &Formula, numbers: &mut Numbers) -> Result<Formula, AllocError>
    requires { numbers.old.next + binders formula.now ≤ 2 ^ 32 }
    ensures form { IfOk result (λ p. p ≡ renumbered_of (new_numbers numbers.old.scope.items) numbers.old.next formula.now) }
    ensures next { OnOk result (numbers.new.next ≡ numbers.old.next + binders formula.now) }
    ensures scope { OnOk result (numbers.new.scope.items ≡ numbers.old.scope.items) }
{
    match formula {
        Formula::True => Ok(Formula::True),
        Formula::False => Ok(Formula::False),
        Formula::Atom(pred, terms) => {
            let terms = renamed_all(numbers.scope.as_slice(), terms.as_slice());
            Ok(Formula::Atom(*pred, terms))
        }
        Formula::Same(t, u) => {
            let t = renamed(numbers.scope.as_slice(), *t);
            let u = renamed(numbers.scope.as_slice(), *u);
            Ok(Formula::Same(t, u))
        }
        Formula::Not(p) => Ok(Formula::Not(boxed(alloc, p.get(), numbers)?)),
        Formula::And(p, q) => {
            let p = boxed(alloc, p.get(), numbers)?;
            let q = boxed(alloc, q.get(), numbers)?;
            Ok(Formula::And(p, q))
        }
        Formula::Or(p, q) => {
            let p = boxed(alloc, p.get(), numbers)?;
            let q = boxed(alloc, q.get(), numbers)?;
            Ok(Formula::Or(p, q))
        }
        Formula::Implies(p, q) => {
            let p = boxed(alloc, p.get(), numbers)?;
            let q = boxed(alloc, q.get(), numbers)?;
            Ok(Formula::Implies(p, q))
        }
        Formula::Iff(p, q) => {
            let p = boxed(alloc, p.get(), numbers)?;
            let q = boxed(alloc, q.get(), numbers)?;
            Ok(Formula::Iff(p, q))
        }
        Formula::Forall(var, sort, p) => {
            let under = under(alloc, *var, p.get(), numbers)?;
            Ok(Formula::Forall(under.var, *sort, under.body))
        }
        Formula::Exists(var, sort, p) => {
            let under = under(alloc, *var, p.get(), numbers)?;
            Ok(Formula::Exists(under.var, *sort, under.body))
        }
    }
}

#[cycle(made)]
#[tactic(auto, using(csdn_core::proofs::NodeSteps::node_steps))]
fn boxed(
    alloc: Global,
    formula: &Formula,
    numbers: &mut Numbers,
) -> Result<Boxed<Formula>, AllocError>
    requires { numbers.old.next + binders formula.now ≤ 2 ^ 32 }
    ensures form { IfOk result (λ p. p ≡ renumbered_of (new_numbers numbers.old.scope.items) numbers.old.next formula.now) }
    ensures next { OnOk result (numbers.new.next ≡ numbers.old.next + binders formula.now) }
    ensures scope { OnOk result (numbers.new.scope.items ≡ numbers.old.scope.items) }
{
    Boxed::new(alloc, made(alloc, formula, numbers)?)
}

// What stands under a quantifier, and the new number of its variable.
#[derive(Drop)]
struct Quantified {
    var: VarId,
    body: Boxed<Formula>,
}

#[cycle(made)]
#[tactic(auto, using(csdn_core::proofs::NodeSteps::node_steps))]
fn under(
    alloc: Global,
    var: VarId,
    formula: &Formula,
    numbers: &mut Numbers,
) -> Result<Quantified, AllocError>
    requires { numbers.old.next + (1 + binders formula.now) ≤ 2 ^ 32 }
    ensures var { IfOk result (λ u. u.var ≡ record { 0 = numbers.old.next }) }
    ensures body { IfOk result (λ u. u.body ≡ renumbered_of (with_var (new_numbers numbers.old.scope.items) var numbers.old.next) (numbers.old.next + 1) formula.now) }
    ensures next { OnOk result (numbers.new.next ≡ numbers.old.next + (1 + binders formula.now)) }
    ensures scope { OnOk result (numbers.new.scope.items ≡ numbers.old.scope.items) }
{
    let number = numbered(numbers.next);
    numbers.next += 1;
    numbers.scope.push(Renaming { var, number })?;
    let body = boxed(alloc, formula, numbers)?;
    numbers.scope.pop();
    Ok(Quantified {
        var: VarId(number),
        body,
    })
}
