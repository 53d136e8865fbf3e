//! Where formulas may stand beside a word between two of them.
ghost use Rattle.std.specs.Prelude.{◌≡◌};
ghost use Rattle.csdn_tree.specs.Tiers as spec;

use crate::syntax::Connective;

/// Where a formula stands: where no word may join two of them, or where this one may, and those that bind tighter.
#[derive(Clone, Copy)]
pub enum Tier {
    Single,
    Joins(Connective),
}

/// What may stand to the left of the word.
pub fn left_of(word: Connective) -> Tier
    ensures { result ≡ spec.left_of word }
{
    match word {
        Connective::And => Tier::Single,
        Connective::Or => Tier::Joins(Connective::And),
        Connective::Implies => Tier::Joins(Connective::Or),
        Connective::Iff => Tier::Joins(Connective::Implies),
    }
}

/// What may stand to the right of the word: the same word again, but no second `<->`.
pub fn right_of(word: Connective) -> Tier
    ensures { result ≡ spec.right_of word }
{
    match word {
        Connective::And => Tier::Joins(word),
        Connective::Or => Tier::Joins(word),
        Connective::Implies => Tier::Joins(word),
        Connective::Iff => Tier::Joins(Connective::Implies),
    }
}
