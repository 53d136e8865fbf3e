//! What a valuation says of the facts of a sentence.
#![tactic(auto)]

ghost use Rattle.std.specs.Prelude.{◌≡◌, IfOk};
ghost use Rattle.decision_laws.specs.Copies.{Equation as EquationFact};
ghost use Rattle.class_networks.specs.Judgements.{says, constants_in};

use clause_log::Valuation;
use csdn_core::program::Parts;
use csdn_core::terms::Sort;
use ground_inst::facts::{Facts, equation_atom};
use std::alloc::AllocError;

/// A valuation of the facts of a sentence.
#[derive(Clone, Copy)]
pub struct Judgement<'a> {
    pub parts: &'a Parts,
    pub facts: &'a Facts,
    pub valuation: &'a Valuation,
}

#[tactic(auto, unfolding(crate::specs::Judgements::says, crate::specs::Judgements::constants_in))]
impl Judgement<'_> {
    /// How many constants a sort has.
    pub fn count(&self, sort: Sort) -> u64
        ensures { result ≡ constants_in self.now sort }
    {
        self.facts.counts.of(sort)
    }

    /// Whether two constants are judged equal. It takes no memory; `AllocError` where the atom of their equation is no u64.
    pub fn are_equal(&self, sort: Sort, a: u64, b: u64) -> Result<bool, AllocError>
        ensures { IfOk result (λ equal. equal ≡ says self.now (EquationFact sort a b)) }
    {
        let atom = equation_atom(self.facts, sort, a, b)?;
        Ok(self.valuation.value(atom))
    }
}
