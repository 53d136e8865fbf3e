//! Whether a normal form has an `exists` under a `forall`.
#![tactic(auto)]

ghost use Rattle.std.specs.Prelude.{◌≡◌};
ghost use Rattle.fol_forms.specs.Forms.{form_of, normal_form, in_fragment as is_in_fragment, is_universal};

use crate::signed::{Signed, view};
use csdn_core::syntax::Formula;

/// Whether no `exists` stands under a `forall` in the normal form of a formula. Of a formula that is in normal form it takes
/// as many steps as that has nodes; it takes no memory.
pub fn in_fragment(formula: &Formula) -> bool
    ensures { result ≡ is_in_fragment (form_of formula.now) }
{
    fragment(formula, true)
}

// Of the formula, or for the sign `false` of its negation.
fn fragment(formula: &Formula, sign: bool) -> bool
    ensures { result ≡ is_in_fragment (normal_form sign formula.now) }
{
    match view(formula, sign) {
        Signed::Truth(_) | Signed::Atom(_, _, _) | Signed::Equal(_, _, _) => true,
        Signed::Both(p, q) | Signed::Either(p, q) => {
            fragment(p.formula, p.sign) && fragment(q.formula, q.sign)
        }
        Signed::Cases(p, q) => {
            (fragment(p.formula, p.sign) && fragment(q.formula, q.sign))
                && (fragment(p.formula, !p.sign) && fragment(q.formula, !q.sign))
        }
        Signed::Forall(_, _, p) => universal(p.formula, p.sign),
        Signed::Exists(_, _, p) => fragment(p.formula, p.sign),
    }
}

// Whether no `exists` stands in the normal form.
fn universal(formula: &Formula, sign: bool) -> bool
    ensures { result ≡ is_universal (normal_form sign formula.now) }
{
    match view(formula, sign) {
        Signed::Truth(_) | Signed::Atom(_, _, _) | Signed::Equal(_, _, _) => true,
        Signed::Both(p, q) | Signed::Either(p, q) => {
            universal(p.formula, p.sign) && universal(q.formula, q.sign)
        }
        Signed::Cases(p, q) => {
            (universal(p.formula, p.sign) && universal(q.formula, q.sign))
                && (universal(p.formula, !p.sign) && universal(q.formula, !q.sign))
        }
        Signed::Forall(_, _, p) => universal(p.formula, p.sign),
        Signed::Exists(_, _, _) => false,
    }
}
