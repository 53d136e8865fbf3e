//! Of which sorts two constants are equal.
#![tactic(auto)]

ghost use Rattle.std.specs.Prelude.{◌≡◌, ◌<◌, ℕ, false, IfOk};
ghost use Rattle.std.specs.List.{list_any};
ghost use Rattle.clause_log.specs.Literals.{truths};
ghost use Rattle.decision_laws.specs.Copies.{Equation as EquationFact};
ghost use Rattle.fol_forms.specs.Counts.{count_of};
ghost use Rattle.ground_inst.specs.Facts.{num_of};
ghost use Rattle.lazy_ground.specs.Joins.{AreJoined, joined_in};

use clause_log::Valuation;
use csdn_core::terms::Sort;
use ground_inst::facts::{Facts, equation_atom};
use std::alloc::AllocError;

/// For each sort, whether an equation of two different constants is true.
#[derive(Clone, Copy)]
pub struct Joined {
    pub sw: bool,
    pub ho: bool,
    pub pr: bool,
}

impl Joined {
    ghost use Rattle.std.specs.Prelude.{◌≡◌};
    ghost use Rattle.lazy_ground.specs.Joins.{joined_in};

    /// That of a sort.
    pub fn of(self, sort: Sort) -> bool
        ensures { result ≡ joined_in self sort }
    {
        match sort {
            Sort::Sw => self.sw,
            Sort::Ho => self.ho,
            Sort::Pr => self.pr,
        }
    }

    /// Whether it is so of one of these sorts.
    pub fn of_some(self, sorts: &[Sort]) -> bool
        ensures { result ≡ list_any (joined_in self) sorts.now }
    {
        match sorts {
            [] => false,
            [sort, others @ ..] => self.of(*sort) || self.of_some(others),
        }
    }
}

/// For each sort, whether an equation of two different constants is true. It looks at all equations.
pub fn joined_by(facts: &Facts, trues: &Valuation) -> Result<Joined, AllocError>
    ensures { IfOk result (AreJoined facts.now (truths trues.now)) }
{
    let sw = has_join(facts, trues, Sort::Sw)?;
    let ho = has_join(facts, trues, Sort::Ho)?;
    let pr = has_join(facts, trues, Sort::Pr)?;
    Ok(Joined { sw, ho, pr })
}

// Whether an equation of two different constants of a sort is true.
fn has_join(facts: &Facts, trues: &Valuation, sort: Sort) -> Result<bool, AllocError>
    ensures { IfOk result (λ joined. joined ≡ false → (a b : ℕ) → b < a → a < count_of facts.now.counts sort → truths trues.now (num_of facts.now (EquationFact sort a b)) ≡ false) }
{
    let count = facts.counts.of(sort);
    'constants: for a in 0..count {
        let joined = has_join_below(facts, trues, sort, a)?;
        if joined {
            return Ok(true);
        }
    }
    Ok(false)
}

// Whether an equation of a constant and an earlier one is true.
fn has_join_below(facts: &Facts, trues: &Valuation, sort: Sort, a: u64) -> Result<bool, AllocError>
    ensures { IfOk result (λ joined. joined ≡ false → (b : ℕ) → b < a → truths trues.now (num_of facts.now (EquationFact sort a b)) ≡ false) }
{
    'constants: for b in 0..a {
        let atom = equation_atom(facts, sort, a, b)?;
        if trues.value(atom) {
            return Ok(true);
        }
    }
    Ok(false)
}
