//! The log of a yes.
ghost use Rattle.std.specs.Prelude.{◌≡◌, ◌<◌, ◌≤◌, IfOk, drop, length, true};
ghost use Rattle.log_text.specs.LogText.{are_blocks, is_bare_name, is_block, is_clause_list};
ghost use Rattle.csdn_conditions.specs.Kinds.{kinds};
ghost use Rattle.csdn_conditions.specs.Conditions.{conditions, sentence};
ghost use Rattle.csdn_conditions.specs.Answers.{OfCondition};
ghost use Rattle.vericon_decide.specs.Levels.{AreProofsOf};
ghost use Rattle.vericon_decide.specs.Verdicts.{IsProofOf};
ghost use Rattle.answer_listing.specs.Words.{condition_text};
ghost use Rattle.answer_listing.specs.Logs.{AreBlocksOf, IsBlockOf, IsLogOf};

use crate::words::put_condition;
use clause_log::Clauses;
use csdn_conditions::kinds::{condition_count, condition_kind};
use csdn_core::program::Program;
use log_text::{Block, Blocks, Text, print_log};
use sqlite_items::Items;
use std::alloc::{AllocError, Global};
use vericon_decide::verdict::Proof;

// `I KIND`
fn name_of(alloc: Global, program: &Program, level: u8, index: u32) -> Result<Text, AllocError>
    requires level { level ≤ 9 }
    requires index { index < length (kinds program.now level) }
    ensures name { IfOk result (λ name. OfCondition program.now level index (λ c. name ≡ condition_text program.now index c.kind)) }
    ensures fits { IfOk result (λ name. is_bare_name name ≡ true) }
{
    let _parts = program.parts();
    let kind = condition_kind(program, level, index);
    let mut name = Vec::new(alloc);
    put_condition(&mut name, program, index, kind)?;
    Ok(Items::from_vec(name))
}

// They are over few atoms, as all clauses are.
fn are_over_few_atoms(clauses: &Clauses)
    ensures { is_clause_list clauses.now ≡ true }
{
    clauses.atoms();
}

fn named(name: Text, proof: Proof) -> Block
    ensures { result ≡ record { name = name; clauses = proof.clauses; log = Some proof.log } }
{
    let Proof { clauses, log } = proof;
    Block {
        name,
        clauses,
        log: Some(log),
    }
}

fn block_of(
    alloc: Global,
    program: &Program,
    level: u8,
    index: u32,
    proof: Proof,
) -> Result<Block, AllocError>
    requires level { level ≤ 9 }
    requires index { index < length (kinds program.now level) }
    requires proof { OfCondition program.now level index (λ c. IsProofOf program.now (sentence c) proof) }
    ensures block { IfOk result (λ block. OfCondition program.now level index (λ c. IsBlockOf program.now index c block)) }
    ensures fits { IfOk result (λ block. is_block block ≡ true) }
{
    let name = name_of(alloc, program, level, index)?;
    are_over_few_atoms(&proof.clauses);
    Ok(named(name, proof))
}

fn blocks_of(
    alloc: Global,
    program: &Program,
    level: u8,
    proofs: Vec<Proof>,
) -> Result<Blocks, AllocError>
    requires level { level ≤ 9 }
    requires proofs { AreProofsOf program.now (drop 1 (conditions program.now level)) proofs.items }
    ensures blocks { IfOk result (AreBlocksOf program.now 1 (drop 1 (conditions program.now level))) }
    ensures fit { IfOk result (λ blocks. are_blocks blocks ≡ true) }
{
    let mut blocks = Items::new(alloc);
    let mut proofs_left = proofs.into_iter();
    let count = condition_count(program, level);
    'conditions: for index in 1..count {
        let Some(proof) = proofs_left.next() else {
            return Ok(blocks);
        };
        let block = block_of(alloc, program, level, index, proof)?;
        blocks.push(block)?;
    }
    Ok(blocks)
}

/// The text of a log with a block for each condition of the level but the first, from one proof for each. A block is named
/// by the number and the kind of its condition.
pub fn log_of(
    alloc: Global,
    program: &Program,
    level: u8,
    proofs: Vec<Proof>,
) -> Result<Text, AllocError>
    requires level { level ≤ 9 }
    requires proofs { AreProofsOf program.now (drop 1 (conditions program.now level)) proofs.items }
    ensures { IfOk result (IsLogOf program.now level) }
{
    let blocks = blocks_of(alloc, program, level, proofs)?;
    print_log(alloc, &blocks)
}
