//! Conditions, and their sentences.
ghost use Rattle.std.specs.Prelude.{◌≡◌, IfOk};
ghost use Rattle.csdn_conditions.specs.Conditions.{sentence as sentence_of};

use crate::kinds::CondKind;
use csdn_core::syntax::Formula;
use sqlite_items::Boxed;
use std::alloc::{AllocError, Global};

/// A condition: the goal is true in every network and state in which the hypothesis is.
#[derive(Drop)]
pub struct Condition {
    pub kind: CondKind,
    pub hypothesis: Formula,
    pub goal: Formula,
}

impl Condition {
    /// `hypothesis and not goal`, which is true exactly where the condition is broken.
    #[tactic(auto, using(csdn_core::proofs::Shapes::shapes))]
    pub fn into_sentence(self, alloc: Global) -> Result<Formula, AllocError>
        ensures { IfOk result (λ p. p ≡ sentence_of self) }
    {
        let Condition {
            kind: _,
            hypothesis,
            goal,
        } = self;
        let hypothesis = Boxed::new(alloc, hypothesis)?;
        let goal = Boxed::new(alloc, goal)?;
        let negated = Boxed::new(alloc, Formula::Not(goal))?;
        Ok(Formula::And(hypothesis, negated))
    }
}
