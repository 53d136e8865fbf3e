//! Conjunctions and disjunctions of lists of formulas.
#![tactic(auto, using(csdn_core::proofs::Shapes::shapes))]

ghost use Rattle.std.specs.Prelude.{◌≡◌, IfOk};
ghost use Rattle.csdn_conditions.specs.Lists.{none_joined, two_joined, joined as joined_of};

use csdn_core::syntax::Formula;
use sqlite_items::{Boxed, Items};
use std::alloc::{AllocError, Global};

/// Formulas, in the order in which they are joined.
pub type Formulas = Items<Formula>;

/// How formulas are joined.
#[derive(Clone, Copy, Debug, PartialEq, Eq)]
pub enum Join {
    And,
    Or,
}

impl Join {
    fn none(self) -> Formula
        ensures { result ≡ none_joined self }
    {
        match self {
            Join::And => Formula::True,
            Join::Or => Formula::False,
        }
    }

    /// Two formulas, joined.
    pub fn two(self, alloc: Global, p: Formula, q: Formula) -> Result<Formula, AllocError>
        ensures { IfOk result (λ f. f ≡ two_joined self p q) }
    {
        let p = Boxed::new(alloc, p)?;
        let q = Boxed::new(alloc, q)?;
        match self {
            Join::And => Ok(Formula::And(p, q)),
            Join::Or => Ok(Formula::Or(p, q)),
        }
    }
}

/// The conjunction or the disjunction of the formulas, nested to the right: of one formula that formula, of none `true` or
/// `false`.
pub fn joined(alloc: Global, join: Join, formulas: Formulas) -> Result<Formula, AllocError>
    ensures { IfOk result (λ p. p ≡ joined_of join formulas) }
{
    let mut before = formulas;
    let Some(last) = before.pop() else {
        return Ok(join.none());
    };
    let mut made = last;
    'join: while let Some(formula) = before.pop() {
        made = join.two(alloc, formula, made)?;
    }
    Ok(made)
}
