//! Whether a network and state make a sentence true.
#![tactic(auto)]

ghost use Rattle.std.specs.Prelude.{◌≡◌, IfOk};
ghost use Rattle.clause_log.specs.Literals.{IsModel, truths};
ghost use Rattle.decision_laws.specs.Laws.{IsSentence};
ghost use Rattle.lazy_ground.specs.Lazy.{IsLazy};
ghost use Rattle.vericon_decide.specs.Rounds.{IsRoundEnd};
ghost use Rattle.vericon_decide.specs.Verdicts.{IsSettled};

use crate::verdict::Proof;
use class_networks::making::network_of;
use clause_log::{Log, Valuation};
use clause_search::{Outcome, solve};
use csdn_core::program::Program;
use csdn_core::syntax::Formula;
use lazy_ground::adding::add_broken;
use lazy_ground::naming::named_valuation;
use lazy_ground::sentence::LazyGround;
use lazy_ground::starting::ground_start;
use net_structs::case::Case;
use std::alloc::{AllocError, Global};

/// A proof that no network and state make a sentence true, or some that do.
#[derive(Drop)]
pub enum Solution {
    Refuted(Proof),
    Satisfied(Case),
}

/// How a round of the search ends: the clauses are refuted, or a network and state make the sentence true, or clauses were added.
#[derive(Drop)]
pub enum RoundEnd {
    Refuted(Log),
    Satisfied(Case),
    GoesOn,
}

/// Settles a sentence: it solves the clauses that are there, and adds those that the model breaks, until none is broken. The
/// search may take time and memory that are exponential in the number of its atoms.
pub fn solution_of(
    alloc: Global,
    program: &Program,
    sentence: &Formula,
) -> Result<Solution, AllocError>
    requires { IsSentence program.now sentence.now }
    ensures { IfOk result (IsSettled program.now sentence.now) }
{
    let mut lazy = ground_start(alloc, program, sentence)?;
    'rounds: loop {
        match round_of(alloc, program, &mut lazy)? {
            RoundEnd::GoesOn => {}
            RoundEnd::Satisfied(case) => return Ok(Solution::Satisfied(case)),
            RoundEnd::Refuted(log) => {
                let clauses = lazy.into_clauses();
                return Ok(Solution::Refuted(Proof { clauses, log }));
            }
        }
    }
}

// Solves the clauses that are there, and adds those that the model breaks.
fn round_of(alloc: Global, program: &Program, lazy: &mut LazyGround) -> Result<RoundEnd, AllocError>
    requires sentence { IsSentence program.now lazy.old.made.sentence }
    requires lazy { IsLazy program.now lazy.old.made.sentence lazy.old }
    ensures { IfOk result (λ end. IsRoundEnd program.now lazy.old.made.sentence lazy.old lazy.new end) }
{
    match solve(alloc, &lazy.made.clauses)? {
        Outcome::Refuted(log) => Ok(RoundEnd::Refuted(log)),
        Outcome::Model(valuation) => add_or_end(alloc, program, &valuation, lazy),
    }
}

// The same, where this valuation makes the clauses that are there true.
fn add_or_end(
    alloc: Global,
    program: &Program,
    valuation: &Valuation,
    lazy: &mut LazyGround,
) -> Result<RoundEnd, AllocError>
    requires sentence { IsSentence program.now lazy.old.made.sentence }
    requires lazy { IsLazy program.now lazy.old.made.sentence lazy.old }
    requires model { IsModel (truths valuation.now) lazy.old.made.clauses.clauses }
    ensures { IfOk result (λ end. IsRoundEnd program.now lazy.old.made.sentence lazy.old lazy.new end) }
{
    let added = add_broken(lazy, alloc, program, valuation)?;
    if added > 0 {
        return Ok(RoundEnd::GoesOn);
    }
    let said = named_valuation(alloc, &lazy.made.clauses, valuation)?;
    let case = network_of(alloc, program, &lazy.made, &said)?;
    Ok(RoundEnd::Satisfied(case))
}
