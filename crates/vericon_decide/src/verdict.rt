//! Verdicts on conditions.
#![tactic(auto)]

ghost use Rattle.std.specs.Prelude.{◌≤◌, IfOk};
ghost use Rattle.csdn_conditions.specs.Classes.{greatest_size};
ghost use Rattle.csdn_conditions.specs.Closed.{IsClosed};
ghost use Rattle.vericon_decide.specs.Verdicts.{IsVerdict};

use crate::solving::{Solution, solution_of};
use clause_log::{Clauses, Log};
use csdn_conditions::class::{Class, class_of};
use csdn_conditions::sentence::Condition;
use csdn_core::program::Program;
use net_structs::case::Case;
use std::alloc::{AllocError, Global};

/// Why a sentence has no network and state: clauses that are tied to it, and a log that refutes them.
#[derive(Drop)]
pub struct Proof {
    pub clauses: Clauses,
    pub log: Log,
}

/// What is said of a condition.
#[derive(Drop)]
pub enum Verdict {
    /// No network and state break it.
    Valid(Proof),
    /// Its hypothesis is true in this network and state, and its goal false.
    Broken(Case),
    /// Its sentence, or the normal form of that, has more than 1,048,576 nodes.
    Nodes,
    /// In the normal form of its sentence an `exists` stands under a `forall`.
    Outside,
    /// The copies of its sentence have this many atoms and equations, more than the size; 2^64 - 1 where they have more.
    Instances(u64),
}

/// Decides a condition by a size, which is the most atoms and equations that the copies of its sentence may have. The search may take time and memory that are exponential in the number of its atoms.
pub fn decide_condition(
    alloc: Global,
    program: &Program,
    size: u64,
    condition: Condition,
) -> Result<Verdict, AllocError>
    requires size { size ≤ greatest_size }
    requires hypothesis { IsClosed program.now condition.hypothesis }
    requires goal { IsClosed program.now condition.goal }
    ensures { IfOk result (IsVerdict program.now size condition) }
{
    let sentence = condition.into_sentence(alloc)?;
    match class_of(program, size, &sentence) {
        Class::Nodes => Ok(Verdict::Nodes),
        Class::Outside => Ok(Verdict::Outside),
        Class::Instances(count) => Ok(Verdict::Instances(count)),
        Class::Inside => match solution_of(alloc, program, &sentence)? {
            Solution::Refuted(proof) => Ok(Verdict::Valid(proof)),
            Solution::Satisfied(case) => Ok(Verdict::Broken(case)),
        },
    }
}
