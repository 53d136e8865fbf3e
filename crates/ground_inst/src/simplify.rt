//! Formulas without truth values.
#![tactic(auto)]

ghost use Rattle.std.specs.Prelude.{◌≡◌, IfOk};
ghost use Rattle.fol_forms.specs.Forms.{Fixed, Atom, Same, form_of, normal_form};
ghost use Rattle.decision_laws.specs.Simplified.{all_by, and_by, fixed_of, or_by, simplified, some_by};

use csdn_core::syntax::Formula;
use csdn_core::terms::{Pred, Sort, Term, Terms, VarId};
use fol_forms::signed::{Signed, view};
use sqlite_items::Boxed;
use std::alloc::{AllocError, Global};

/// A formula whose normal form is that of this one with its truth values simplified away, since no sort is empty.
pub fn simplify(alloc: Global, formula: &Formula) -> Result<Boxed<Formula>, AllocError>
    ensures { IfOk result (λ simple. form_of simple ≡ simplified (form_of formula.now)) }
{
    made(alloc, formula, true)
}

// The simplified normal form of the formula, or for the sign `false` of its negation.
#[cycle(made)]
fn made(alloc: Global, formula: &Formula, sign: bool) -> Result<Boxed<Formula>, AllocError>
    ensures { IfOk result (λ p. form_of p ≡ simplified (normal_form sign formula.now)) }
{
    match view(formula, sign) {
        Signed::Truth(value) => truth(alloc, value),
        Signed::Atom(sign, pred, terms) => atom(alloc, sign, pred, terms),
        Signed::Equal(sign, t, u) => equation(alloc, sign, t, u),
        Signed::Both(p, q) => {
            let p = made(alloc, p.formula, p.sign)?;
            let q = made(alloc, q.formula, q.sign)?;
            conjunction(alloc, p, q)
        }
        Signed::Either(p, q) => {
            let p = made(alloc, p.formula, p.sign)?;
            let q = made(alloc, q.formula, q.sign)?;
            disjunction(alloc, p, q)
        }
        Signed::Cases(p, q) => {
            let kept = both(alloc, p.formula, p.sign, q.formula, q.sign)?;
            let negated = both(alloc, p.formula, !p.sign, q.formula, !q.sign)?;
            disjunction(alloc, kept, negated)
        }
        Signed::Forall(var, sort, p) => {
            let p = made(alloc, p.formula, p.sign)?;
            universal(alloc, var, sort, p)
        }
        Signed::Exists(var, sort, p) => {
            let p = made(alloc, p.formula, p.sign)?;
            existential(alloc, var, sort, p)
        }
    }
}

// The conjunction of two simplified normal forms.
#[cycle(made)]
fn both(
    alloc: Global,
    p: &Formula,
    p_sign: bool,
    q: &Formula,
    q_sign: bool,
) -> Result<Boxed<Formula>, AllocError>
    ensures { IfOk result (λ f. form_of f ≡ and_by (fixed_of (simplified (normal_form p_sign p.now))) (fixed_of (simplified (normal_form q_sign q.now))) (simplified (normal_form p_sign p.now)) (simplified (normal_form q_sign q.now))) }
{
    let first = made(alloc, p, p_sign)?;
    let second = made(alloc, q, q_sign)?;
    conjunction(alloc, first, second)
}

// Which truth value a formula is, if its normal form is one.
fn value_of(formula: &Formula) -> Option<bool>
    ensures { result ≡ fixed_of (form_of formula.now) }
{
    match view(formula, true) {
        Signed::Truth(value) => Some(value),
        _ => None,
    }
}

#[tactic(auto, using(fol_forms::proofs::NormalSteps::normal_steps))]
fn truth(alloc: Global, value: bool) -> Result<Boxed<Formula>, AllocError>
    ensures { IfOk result (λ p. form_of p ≡ Fixed value) }
{
    if value {
        Boxed::new(alloc, Formula::True)
    } else {
        Boxed::new(alloc, Formula::False)
    }
}

// The formula, or for the sign `false` its negation.
#[tactic(auto, using(fol_forms::proofs::NormalSteps::normal_steps))]
fn with_sign(alloc: Global, sign: bool, formula: Formula) -> Result<Boxed<Formula>, AllocError>
    ensures { IfOk result (λ p. form_of p ≡ normal_form sign formula) }
{
    let formula = Boxed::new(alloc, formula)?;
    if sign {
        Ok(formula)
    } else {
        Boxed::new(alloc, Formula::Not(formula))
    }
}

#[tactic(auto, using(fol_forms::proofs::NormalSteps::normal_steps))]
fn atom(alloc: Global, sign: bool, pred: Pred, terms: &Terms) -> Result<Boxed<Formula>, AllocError>
    ensures { IfOk result (λ p. form_of p ≡ Atom sign pred terms.now) }
{
    with_sign(alloc, sign, Formula::Atom(pred, terms.copy()))
}

#[tactic(auto, using(fol_forms::proofs::NormalSteps::normal_steps))]
fn equation(alloc: Global, sign: bool, t: Term, u: Term) -> Result<Boxed<Formula>, AllocError>
    ensures { IfOk result (λ p. form_of p ≡ Same sign t u) }
{
    with_sign(alloc, sign, Formula::Same(t, u))
}

#[tactic(auto, using(fol_forms::proofs::NormalSteps::normal_steps))]
fn conjunction(
    alloc: Global,
    p: Boxed<Formula>,
    q: Boxed<Formula>,
) -> Result<Boxed<Formula>, AllocError>
    ensures { IfOk result (λ f. form_of f ≡ and_by (fixed_of (form_of p)) (fixed_of (form_of q)) (form_of p) (form_of q)) }
{
    match (value_of(p.get()), value_of(q.get())) {
        (Some(true), _) => Ok(q),
        (Some(false), _) => Ok(p),
        (None, Some(true)) => Ok(p),
        (None, Some(false)) => Ok(q),
        (None, None) => Boxed::new(alloc, Formula::And(p, q)),
    }
}

#[tactic(auto, using(fol_forms::proofs::NormalSteps::normal_steps))]
fn disjunction(
    alloc: Global,
    p: Boxed<Formula>,
    q: Boxed<Formula>,
) -> Result<Boxed<Formula>, AllocError>
    ensures { IfOk result (λ f. form_of f ≡ or_by (fixed_of (form_of p)) (fixed_of (form_of q)) (form_of p) (form_of q)) }
{
    match (value_of(p.get()), value_of(q.get())) {
        (Some(true), _) => Ok(p),
        (Some(false), _) => Ok(q),
        (None, Some(true)) => Ok(q),
        (None, Some(false)) => Ok(p),
        (None, None) => Boxed::new(alloc, Formula::Or(p, q)),
    }
}

#[tactic(auto, using(fol_forms::proofs::NormalSteps::normal_steps))]
fn universal(
    alloc: Global,
    var: VarId,
    sort: Sort,
    p: Boxed<Formula>,
) -> Result<Boxed<Formula>, AllocError>
    ensures { IfOk result (λ f. form_of f ≡ all_by (fixed_of (form_of p)) var sort (form_of p)) }
{
    match value_of(p.get()) {
        Some(_) => Ok(p),
        None => Boxed::new(alloc, Formula::Forall(var, sort, p)),
    }
}

#[tactic(auto, using(fol_forms::proofs::NormalSteps::normal_steps))]
fn existential(
    alloc: Global,
    var: VarId,
    sort: Sort,
    p: Boxed<Formula>,
) -> Result<Boxed<Formula>, AllocError>
    ensures { IfOk result (λ f. form_of f ≡ some_by (fixed_of (form_of p)) var sort (form_of p)) }
{
    match value_of(p.get()) {
        Some(_) => Ok(p),
        None => Boxed::new(alloc, Formula::Exists(var, sort, p)),
    }
}
