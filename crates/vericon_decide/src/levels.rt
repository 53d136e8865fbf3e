//! How far a level is proven.
#![tactic(auto)]

ghost use Rattle.std.specs.Prelude.{◌≡◌, ◌+◌, ◌*◌, ◌≤◌, suc, length, IfOk};
ghost use Rattle.csdn_conditions.specs.Classes.{greatest_size};
ghost use Rattle.csdn_conditions.specs.Kinds.{kinds};
ghost use Rattle.vericon_decide.specs.Levels.{AreProvenByTo, IsLevelEnd, IsLevelProven, shared};

use crate::answer::UnknownWhy;
use crate::findings::{Finding, finding_at};
use crate::verdict::Proof;
use csdn_conditions::kinds::condition_count;
use csdn_core::program::Program;
use net_structs::case::Case;
use std::alloc::{AllocError, Global};

/// How far the conditions of a level are proven that were asked for.
#[derive(Drop)]
pub enum LevelEnd {
    /// All of them are.
    Proven,
    /// The condition of this number is the first that is not, and this is a case of it.
    Broken { index: u32, case: Case },
    /// The condition of this number is the first that is not, since it can't be decided.
    Undecided { index: u32, why: UnknownWhy },
}

impl LevelEnd {
    ghost use Rattle.std.specs.Prelude.{◌≡◌};
    ghost use Rattle.vericon_decide.specs.Levels.{is_proven as is_proven_end};

    /// Whether all conditions are proven that were asked for. It takes no memory.
    pub fn is_proven(&self) -> bool
        ensures { result ≡ is_proven_end self.now }
    {
        match self {
            LevelEnd::Proven => true,
            LevelEnd::Broken { index: _, case: _ } => false,
            LevelEnd::Undecided { index: _, why: _ } => false,
        }
    }
}

// Of so many safety invariants.
fn shared_of(level: u8, safety: u32) -> u32
    requires level { level ≤ 10 }
    requires few { safety ≤ 64 }
    ensures { result ≡ suc (level * safety) }
{
    1 + level as u32 * safety
}

/// How many conditions a level shares with those below it: the network condition, and those on the start that are no longer
/// than theirs.
pub fn shared_count(program: &Program, level: u8) -> u32
    requires { level ≤ 10 }
    ensures { result ≡ shared program.now level }
{
    let safety = program.parts().safety.len();
    shared_of(level, safety as u32)
}

/// Decides the conditions of a level from number `first` to before number `end`, up to one that is not proven. The proofs of
/// those that are go behind the proofs of those before them.
pub fn prove(
    alloc: Global,
    program: &Program,
    size: u64,
    level: u8,
    first: u32,
    end: u32,
    proofs: &mut Vec<Proof>,
) -> Result<LevelEnd, AllocError>
    requires size { size ≤ greatest_size }
    requires level { level ≤ 9 }
    requires first { first ≤ end }
    requires end { end ≤ length (kinds program.now level) }
    requires proofs { AreProvenByTo program.now size level first proofs.old.items }
    ensures { IfOk result (IsLevelEnd program.now size level first end proofs.new.items) }
{
    // Its contract says that the program is well-sorted.
    program.parts();
    for index in first..end {
        match finding_at(alloc, program, size, level, index)? {
            Finding::Valid(proof) => proofs.push(proof)?,
            Finding::Broken(case) => return Ok(LevelEnd::Broken { index, case }),
            Finding::Undecided(why) => return Ok(LevelEnd::Undecided { index, why }),
        }
    }
    Ok(LevelEnd::Proven)
}

/// Decides the conditions on the start that a level doesn't share with those below it.
pub fn prove_starts(
    alloc: Global,
    program: &Program,
    size: u64,
    level: u8,
    proofs: &mut Vec<Proof>,
) -> Result<LevelEnd, AllocError>
    requires size { size ≤ greatest_size }
    requires level { level ≤ 9 }
    requires proofs { AreProvenByTo program.now size level (shared program.now level) proofs.old.items }
    ensures { IfOk result (IsLevelEnd program.now size level (shared program.now level) (shared program.now (level + 1)) proofs.new.items) }
{
    let first = shared_count(program, level);
    let end = shared_count(program, level + 1);
    prove(alloc, program, size, level, first, end, proofs)
}

/// Decides the conditions of a level after those on the start. Where one is not proven, the proofs of those on the start are left.
pub fn prove_steps(
    alloc: Global,
    program: &Program,
    size: u64,
    level: u8,
    proofs: &mut Vec<Proof>,
) -> Result<bool, AllocError>
    requires size { size ≤ greatest_size }
    requires level { level ≤ 9 }
    requires proofs { AreProvenByTo program.now size level (shared program.now (level + 1)) proofs.old.items }
    ensures { IfOk result (λ proven. IsLevelProven program.now size level proven proofs.new.items) }
{
    let first = shared_count(program, level + 1);
    let end = condition_count(program, level);
    let reached = prove(alloc, program, size, level, first, end, proofs)?;
    if reached.is_proven() {
        return Ok(true);
    }
    proofs.truncate(first as usize - 1);
    Ok(false)
}
