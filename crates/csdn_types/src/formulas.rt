//! Formulas and the quantifiers in them.
#![tactic(auto, using(crate::proofs::First::first_steps, crate::specs::FaultsSteps::faults_steps, crate::specs::TypedSteps::typed_steps, csdn_tree::specs::BinderSteps::binder_steps, csdn_tree::specs::NodeSteps::raw_node_steps))]

ghost use Rattle.std.specs.Prelude.{◌≡◌, ◌≤◌, ◌<◌, ◌+◌, ◌^◌, ◌++◌, OnOk};
ghost use Rattle.csdn_types.specs.Answers.{Answers};
ghost use Rattle.csdn_types.specs.Faults.{faults, variable_faults};
ghost use Rattle.csdn_types.specs.Typed as spec;
ghost use Rattle.csdn_types.specs.Typed.{after, typed, next_var};
ghost use Rattle.csdn_tree.specs.Binders.{binders};
ghost use Rattle.csdn_types.specs.Scope.{bound};
ghost use Rattle.csdn_core.specs.Sorted.{most_numbers};

use crate::atoms::{bind, flow_atom, packet_atom};
use crate::refusal::SortRefusal;
use crate::scope::Scope;
use crate::terms::{Use, same, used};
use csdn_core::syntax::Formula;
use csdn_core::terms::{FormulaPlace, Pred, Sort};
use csdn_tree::names::RawName;
use csdn_tree::syntax::{Connective, Quantifier, RawFormula};
use sqlite_items::Boxed;
use std::alloc::Global;

/// The formula that a tree at this place of a program stands for; each bound variable gets the next number. Refused is
/// the first rule that is broken, at its byte (docs/LANGUAGE.md, "Names, sorts and limits").
#[cycle(formula)]
pub fn formula(
    alloc: Global,
    scope: &mut Scope,
    place: FormulaPlace,
    raw: &RawFormula,
) -> Result<Formula, SortRefusal>
    requires { scope.old.next + binders raw.now ≤ most_numbers }
    ensures answers { Answers (faults place scope.old raw.now) (typed scope.old raw.now) result }
    ensures scope { OnOk result (scope.new ≡ after scope.old raw.now) }
{
    match raw {
        RawFormula::True => Ok(Formula::True),
        RawFormula::False => Ok(Formula::False),
        RawFormula::Atom(name, terms) => {
            let atom = used(scope, Use::InFormula(place), name, terms.as_slice())?;
            Ok(Formula::Atom(Pred::Stored(atom.id), atom.terms))
        }
        RawFormula::Same(left, right) => {
            let sides = same(scope, left, right)?;
            Ok(Formula::Same(sides.0, sides.1))
        }
        RawFormula::Flow(at, word, terms) => {
            let atom = flow_atom(scope, place, *at, *word, terms)?;
            Ok(atom)
        }
        RawFormula::RcvThis(at, terms) => {
            let atom = packet_atom(scope, place, *at, terms)?;
            Ok(atom)
        }
        RawFormula::Not(p) => {
            let p = boxed(alloc, scope, place, p.get())?;
            Ok(Formula::Not(p))
        }
        RawFormula::Two(word, p, q) => {
            let p = boxed(alloc, scope, place, p.get())?;
            let q = boxed(alloc, scope, place, q.get())?;
            Ok(joined(*word, p, q))
        }
        RawFormula::Bind(which, name, sort, p) => {
            let whole = quantified(alloc, scope, place, *which, name, *sort, p.get())?;
            Ok(whole)
        }
    }
}

/// Two formulas with a word between them.
fn joined(word: Connective, p: Boxed<Formula>, q: Boxed<Formula>) -> Formula
    ensures { result ≡ spec.joined word p q }
{
    match word {
        Connective::And => Formula::And(p, q),
        Connective::Or => Formula::Or(p, q),
        Connective::Implies => Formula::Implies(p, q),
        Connective::Iff => Formula::Iff(p, q),
    }
}

#[cycle(formula)]
fn boxed(
    alloc: Global,
    scope: &mut Scope,
    place: FormulaPlace,
    raw: &RawFormula,
) -> Result<Boxed<Formula>, SortRefusal>
    requires { scope.old.next + binders raw.now ≤ most_numbers }
    ensures answers { Answers (faults place scope.old raw.now) (typed scope.old raw.now) result }
    ensures scope { OnOk result (scope.new ≡ after scope.old raw.now) }
{
    let made = formula(alloc, scope, place, raw)?;
    let made = Boxed::new(alloc, made)?;
    Ok(made)
}

/// A formula under a variable.
#[cycle(formula)]
fn quantified(
    alloc: Global,
    scope: &mut Scope,
    place: FormulaPlace,
    which: Quantifier,
    name: &RawName,
    sort: Sort,
    raw: &RawFormula,
) -> Result<Formula, SortRefusal>
    requires { scope.old.next + (1 + binders raw.now) ≤ most_numbers }
    ensures answers { Answers (variable_faults scope.old name.now ++ faults place (bound scope.old name.now sort) raw.now) (spec.quantified which (next_var scope.old) sort (typed (bound scope.old name.now sort) raw.now)) result }
    ensures scope { OnOk result (scope.new ≡ record scope.old { next = scope.old.next + (1 + binders raw.now) }) }
{
    let var = bind(alloc, scope, name, sort)?;
    let body = boxed(alloc, scope, place, raw)?;
    scope.leave();
    match which {
        Quantifier::All => Ok(Formula::Forall(var, sort, body)),
        Quantifier::Some => Ok(Formula::Exists(var, sort, body)),
    }
}
