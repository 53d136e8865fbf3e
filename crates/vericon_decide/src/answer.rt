//! What is answered of a program.
#![tactic(auto)]

ghost use Rattle.std.specs.Prelude.{◌<◌, ◌≤◌, IfOk, length};
ghost use Rattle.csdn_conditions.specs.Classes.{greatest_size};
ghost use Rattle.csdn_conditions.specs.Kinds.{kinds};
ghost use Rattle.vericon_decide.specs.Levels.{IsMet, IsKept};
ghost use Rattle.vericon_decide.specs.Answers.{IsAnswer, IsUndecided};

use crate::findings::{Finding, case_at, finding_at};
use crate::levels::{LevelEnd, prove, prove_starts, prove_steps, shared_count};
use crate::verdict::Proof;
use csdn_conditions::kinds::condition_count;
use csdn_core::program::Program;
use net_structs::case::Case;
use std::alloc::{AllocError, Global};

/// Why a condition can't be decided.
#[derive(Clone, Copy, Debug, PartialEq, Eq)]
pub enum UnknownWhy {
    /// Its sentence, or the normal form of that, has more than 1,048,576 nodes.
    Nodes,
    /// In the normal form of its sentence an `exists` stands under a `forall`.
    Outside,
    /// The copies of its sentence have this many atoms and equations, more than the size; 2^64 - 1 where they have more.
    Instances(u64),
}

/// What is answered of a program.
#[derive(Drop)]
pub enum Answer {
    /// It is inductive at this level and at none below, and some network meets its topology invariants. There is one proof for
    /// each condition of the level but the first, in their order.
    Yes {
        level: u8,
        proofs: Vec<Proof>,
    },
    /// The condition of this number is the first of the last level that has a case, which is this one.
    Counter {
        level: u8,
        index: u32,
        case: Case,
    },
    /// The condition of this number is the first of the last level that can't be decided, and no other that can has a case.
    Unknown {
        level: u8,
        index: u32,
        why: UnknownWhy,
    },
    /// No network meets its topology invariants.
    NoNetwork {
        proof: Proof,
    },
}

/// Decides a program: yes at the least level of at most `most` whose conditions are proven, or what is broken or can't
/// be decided at level `most` (docs/COMMANDS.md, "Levels"). The search may take time and memory that are exponential in
/// the number of atoms of a condition. A condition can be decided only where the copies of its sentence have at most
/// `size` atoms and equations.
///
/// # Example
///
/// From the test `answers_programs` of decide_tests, whose second program puts in what its invariant forbids.
///
/// ```rust
/// let raw = parse(alloc, b"rel armed(); safety A: not armed(); pktIn(s, src->dst, i) { skip; }")?;
/// let program = resolve(alloc, &raw)?;
/// match decide(alloc, &program, USUAL_SIZE, 0)? {
///     Answer::Yes { level, proofs } => assert!(rt; level == 0 && proofs.len() == 3),
///     _ => assert!(rt; false),
/// }
/// let raw = parse(alloc, b"rel armed(); safety A: not armed(); pktIn(s, src->dst, i) { armed.insert(); }")?;
/// let program = resolve(alloc, &raw)?;
/// match decide(alloc, &program, USUAL_SIZE, 0)? {
///     Answer::Counter { level, index, .. } => assert!(rt; level == 0 && index == 2),
///     _ => assert!(rt; false),
/// }
/// ```
pub fn decide(alloc: Global, program: &Program, size: u64, most: u8) -> Result<Answer, AllocError>
    requires size { size ≤ greatest_size }
    requires most { most ≤ 9 }
    ensures { IfOk result (IsAnswer program.now size most) }
{
    // Its contract says that the program is well-sorted.
    program.parts();
    match finding_at(alloc, program, size, 0, 0)? {
        Finding::Valid(proof) => Ok(Answer::NoNetwork { proof }),
        Finding::Broken(_) => decide_levels(alloc, program, size, most),
        Finding::Undecided(why) => decide_rest(alloc, program, size, most, 0, why),
    }
}

// The levels in order, where some network meets the topology invariants. A level goes on from what it shares with those below it.
fn decide_levels(
    alloc: Global,
    program: &Program,
    size: u64,
    most: u8,
) -> Result<Answer, AllocError>
    requires size { size ≤ greatest_size }
    requires most { most ≤ 9 }
    requires met { IsMet program.now size }
    ensures { IfOk result (IsAnswer program.now size most) }
{
    // Its contract says that the program is well-sorted.
    program.parts();
    let mut proofs = Vec::new(alloc);
    for level in 0..most {
        match prove_starts(alloc, program, size, level, &mut proofs)? {
            LevelEnd::Proven => {}
            LevelEnd::Broken { index, case } => {
                return Ok(Answer::Counter {
                    level: most,
                    index,
                    case,
                });
            }
            LevelEnd::Undecided { index, why } => {
                return decide_rest(alloc, program, size, most, index, why);
            }
        }
        if prove_steps(alloc, program, size, level, &mut proofs)? {
            return Ok(Answer::Yes { level, proofs });
        }
    }
    decide_last(alloc, program, size, most, proofs)
}

// The last level, from what it shares with those below it, which fail.
fn decide_last(
    alloc: Global,
    program: &Program,
    size: u64,
    most: u8,
    mut proofs: Vec<Proof>,
) -> Result<Answer, AllocError>
    requires size { size ≤ greatest_size }
    requires most { most ≤ 9 }
    requires met { IsMet program.now size }
    requires kept { IsKept program.now size most proofs.items }
    ensures { IfOk result (IsAnswer program.now size most) }
{
    // Its contract says that the program is well-sorted.
    program.parts();
    let first = shared_count(program, most);
    let end = condition_count(program, most);
    match prove(alloc, program, size, most, first, end, &mut proofs)? {
        LevelEnd::Proven => Ok(Answer::Yes {
            level: most,
            proofs,
        }),
        LevelEnd::Broken { index, case } => Ok(Answer::Counter {
            level: most,
            index,
            case,
        }),
        LevelEnd::Undecided { index, why } => decide_rest(alloc, program, size, most, index, why),
    }
}

// The conditions of the last level after this one, which is the first that can't be decided.
fn decide_rest(
    alloc: Global,
    program: &Program,
    size: u64,
    most: u8,
    index: u32,
    why: UnknownWhy,
) -> Result<Answer, AllocError>
    requires size { size ≤ greatest_size }
    requires most { most ≤ 9 }
    requires index { index < length (kinds program.now most) }
    requires undecided { IsUndecided program.now size most index why }
    ensures { IfOk result (IsAnswer program.now size most) }
{
    let count = condition_count(program, most);
    for later in index + 1..count {
        if let Some(case) = case_at(alloc, program, size, most, later)? {
            return Ok(Answer::Counter {
                level: most,
                index: later,
                case,
            });
        }
    }
    Ok(Answer::Unknown {
        level: most,
        index,
        why,
    })
}
