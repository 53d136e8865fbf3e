//! What is found of the condition of a number.
#![tactic(auto)]

ghost use Rattle.std.specs.Prelude.{◌≡◌, ◌<◌, ◌≤◌, IfOk, length};
ghost use Rattle.csdn_conditions.specs.Answers.{OfCondition};
ghost use Rattle.csdn_conditions.specs.Classes.{greatest_size};
ghost use Rattle.csdn_conditions.specs.Kinds.{kinds};
ghost use Rattle.vericon_decide.specs.Levels.{IsFinding, IsCaseFound, found_by};

use crate::answer::UnknownWhy;
use crate::verdict::{Proof, Verdict, decide_condition};
use csdn_conditions::condition::condition;
use csdn_core::program::Program;
use fol_forms::refusal::FormRefusal;
use net_structs::case::Case;
use std::alloc::{AllocError, Global};

/// What is found of a condition.
#[derive(Drop)]
pub enum Finding {
    /// No network and state break it.
    Valid(Proof),
    /// This is a case of it.
    Broken(Case),
    /// It can't be decided.
    Undecided(UnknownWhy),
}

/// Makes and decides the condition of this number, by a size.
pub fn finding_at(
    alloc: Global,
    program: &Program,
    size: u64,
    level: u8,
    index: u32,
) -> Result<Finding, AllocError>
    requires size { size ≤ greatest_size }
    requires level { level ≤ 9 }
    requires index { index < length (kinds program.now level) }
    ensures { IfOk result (λ finding. OfCondition program.now level index (λ c. IsFinding program.now size c finding)) }
{
    // Its contract says that the program is well-sorted.
    program.parts();
    match condition(alloc, program, level, index) {
        Ok(condition) => Ok(finding_of(decide_condition(alloc, program, size, condition)?)),
        Err(FormRefusal::Large) => Ok(Finding::Undecided(UnknownWhy::Nodes)),
        Err(FormRefusal::Memory) => Err(AllocError),
    }
}

// What is found by a verdict.
fn finding_of(verdict: Verdict) -> Finding
    ensures { result ≡ found_by verdict }
{
    match verdict {
        Verdict::Valid(proof) => Finding::Valid(proof),
        Verdict::Broken(case) => Finding::Broken(case),
        Verdict::Nodes => Finding::Undecided(UnknownWhy::Nodes),
        Verdict::Outside => Finding::Undecided(UnknownWhy::Outside),
        Verdict::Instances(count) => Finding::Undecided(UnknownWhy::Instances(count)),
    }
}

/// A case of the condition of this number. None where it has none, or can't be decided.
pub fn case_at(
    alloc: Global,
    program: &Program,
    size: u64,
    level: u8,
    index: u32,
) -> Result<Option<Case>, AllocError>
    requires size { size ≤ greatest_size }
    requires level { level ≤ 9 }
    requires index { index < length (kinds program.now level) }
    ensures { IfOk result (λ found. OfCondition program.now level index (λ c. IsCaseFound program.now size c found)) }
{
    match finding_at(alloc, program, size, level, index)? {
        Finding::Valid(_) => Ok(None),
        Finding::Broken(case) => Ok(Some(case)),
        Finding::Undecided(_) => Ok(None),
    }
}
