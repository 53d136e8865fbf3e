//! What a formula stands behind.
ghost use Rattle.std.specs.Prelude.{◌≡◌};
ghost use Rattle.csdn_print.specs.Formulas as spec;

use csdn_tree::syntax::{Connective, Quantifier};

/// What a formula stands behind: nothing of its own, or the names that a quantifier binds.
#[derive(Clone, Copy)]
pub enum Lead {
    Nothing,
    Binds(Quantifier),
}

/// What parts a formula that is no quantifier's from what it stands behind.
pub fn lead_text(lead: Lead) -> &'static [u8]
    ensures { result.now ≡ spec.lead_text lead }
{
    match lead {
        Lead::Nothing => b"",
        Lead::Binds(_) => b". ",
    }
}

/// The word of a quantifier, or the comma behind the names of one of its kind.
pub fn quantifier_text(lead: Lead, which: Quantifier) -> &'static [u8]
    ensures { result.now ≡ spec.quantifier_text lead which }
{
    match (lead, which) {
        (Lead::Nothing, Quantifier::All) => b"forall ",
        (Lead::Nothing, Quantifier::Some) => b"exists ",
        (Lead::Binds(Quantifier::All), Quantifier::All) => b", ",
        (Lead::Binds(Quantifier::Some), Quantifier::All) => b". forall ",
        (Lead::Binds(Quantifier::All), Quantifier::Some) => b". exists ",
        (Lead::Binds(Quantifier::Some), Quantifier::Some) => b", ",
    }
}

/// The word between two formulas, with the spaces around it.
pub fn connective_text(word: Connective) -> &'static [u8]
    ensures { result.now ≡ spec.connective_text word }
{
    match word {
        Connective::And => b" and ",
        Connective::Or => b" or ",
        Connective::Implies => b" -> ",
        Connective::Iff => b" <-> ",
    }
}
