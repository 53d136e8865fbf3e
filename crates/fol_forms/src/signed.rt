//! A formula with a sign, as its normal form begins.
#![tactic(auto)]

ghost use Rattle.std.specs.Prelude.{◌≡◌, ◌<◌, max, not};
ghost use Rattle.csdn_core.specs.Nodes.{nodes};
ghost use Rattle.fol_forms.specs.Forms.{normal_form};
ghost use Rattle.fol_forms.specs.Signed.{side_form, opposite as opposite_of, form_seen, opposite_seen, joined_form, quantified_form, largest};

use csdn_core::syntax::Formula;
use csdn_core::terms::{Pred, Sort, Term, Terms, VarId};

/// A formula, or for the sign `false` its negation.
#[derive(Clone, Copy)]
pub struct Side<'a> {
    pub formula: &'a Formula,
    pub sign: bool,
}

/// What the normal form of a side begins with.
#[derive(Clone, Copy)]
pub enum Signed<'a> {
    Truth(bool),
    /// An atom, or with the sign `false` a negated one.
    Atom(bool, Pred, &'a Terms),
    /// Two terms stand for one element, or with the sign `false` they don't.
    Equal(bool, Term, Term),
    /// Both sides are true.
    Both(Side<'a>, Side<'a>),
    /// One side is true, or both are.
    Either(Side<'a>, Side<'a>),
    /// Both, or the opposites of both.
    Cases(Side<'a>, Side<'a>),
    Forall(VarId, Sort, Side<'a>),
    Exists(VarId, Sort, Side<'a>),
}

/// What the normal form of a formula begins with, or for the sign `false` that of its negation. It takes as many steps as
/// negations stand one under another; it takes no memory.
#[tactic(auto, using(csdn_core::proofs::NodeSteps::node_steps, crate::proofs::NormalSteps::normal_steps, crate::proofs::Leaves::leaf_nodes))]
pub fn view<'a>(formula: &'a Formula, sign: bool) -> Signed<'a>
    ensures form { normal_form sign formula.now ≡ form_seen result }
    ensures opposite { normal_form (not sign) formula.now ≡ opposite_seen result }
    ensures smaller { largest result < nodes formula.now }
{
    match formula {
        Formula::True => Signed::Truth(sign),
        Formula::False => Signed::Truth(!sign),
        Formula::Atom(pred, terms) => Signed::Atom(sign, *pred, terms),
        Formula::Same(t, u) => Signed::Equal(sign, *t, *u),
        Formula::Not(p) => view(p.get(), !sign),
        Formula::And(p, q) => joined(sign, with_sign(p.get(), sign), with_sign(q.get(), sign)),
        Formula::Or(p, q) => joined(!sign, with_sign(p.get(), sign), with_sign(q.get(), sign)),
        Formula::Implies(p, q) => {
            joined(!sign, with_sign(p.get(), !sign), with_sign(q.get(), sign))
        }
        Formula::Iff(p, q) => Signed::Cases(with_sign(p.get(), true), with_sign(q.get(), sign)),
        Formula::Forall(var, sort, p) => quantified(sign, *var, *sort, with_sign(p.get(), sign)),
        Formula::Exists(var, sort, p) => quantified(!sign, *var, *sort, with_sign(p.get(), sign)),
    }
}

fn with_sign<'a>(formula: &'a Formula, sign: bool) -> Side<'a>
    ensures form { side_form result ≡ normal_form sign formula.now }
    ensures opposite { side_form (opposite_of result) ≡ normal_form (not sign) formula.now }
    ensures size { nodes result.formula.now ≡ nodes formula.now }
{
    Side { formula, sign }
}

fn joined<'a>(conjunction: bool, p: Side<'a>, q: Side<'a>) -> Signed<'a>
    ensures form { form_seen result ≡ joined_form conjunction (side_form p.entry) (side_form q.entry) }
    ensures opposite { opposite_seen result ≡ joined_form (not conjunction) (side_form (opposite_of p.entry)) (side_form (opposite_of q.entry)) }
    ensures size { largest result ≡ max (nodes p.entry.formula.now) (nodes q.entry.formula.now) }
{
    if conjunction {
        Signed::Both(p, q)
    } else {
        Signed::Either(p, q)
    }
}

fn quantified<'a>(forall: bool, var: VarId, sort: Sort, p: Side<'a>) -> Signed<'a>
    ensures form { form_seen result ≡ quantified_form forall var sort (side_form p.entry) }
    ensures opposite { opposite_seen result ≡ quantified_form (not forall) var sort (side_form (opposite_of p.entry)) }
    ensures size { largest result ≡ nodes p.entry.formula.now }
{
    if forall {
        Signed::Forall(var, sort, p)
    } else {
        Signed::Exists(var, sort, p)
    }
}
