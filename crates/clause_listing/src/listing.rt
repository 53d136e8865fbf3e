//! The listing of a log text.

ghost use Rattle.std.specs.Prelude.{◌≡◌, ℕ, List, ◌++◌, IfOk, OnOk};
ghost use Rattle.clause_listing.specs.Answers.{IsSaid, passes};
ghost use Rattle.clause_listing.specs.Listings.{AreListed, Lists, all_pass};

use crate::print::{put_answer, put_verdict};
use log_text::{Block, read_log};
use std::alloc::{AllocError, Global};
use text_lines::{LineRefusal, put_word};

/// The listing of a log text.
#[derive(Debug, Drop)]
pub struct Listing {
    /// For each block a line with its name; where its clauses are refuted, the steps follow.
    pub text: Vec<u8>,
    /// Whether every log that is there is accepted.
    pub all_accepted: bool,
}

// Appends what is said of a block, with its name. The answer is whether its log, if it has one, is accepted.
fn put_block(alloc: Global, out: &mut Vec<u8>, block: &Block) -> Result<bool, AllocError>
    ensures text { OnOk result ((said : List ℕ) × IsSaid block.now.clauses block.now.log said × (out.new.items ≡ out.old.items ++ (block.now.name ++ said))) }
    ensures answer { IfOk result (λ good. good ≡ passes block.now.clauses block.now.log) }
{
    put_word(out, block.name.as_slice())?;
    match &block.log {
        Some(log) => put_verdict(alloc, out, &block.clauses, log),
        None => {
            put_answer(alloc, out, &block.clauses)?;
            Ok(true)
        }
    }
}

fn list_blocks(alloc: Global, blocks: &[Block]) -> Result<Listing, AllocError>
    ensures text { IfOk result (λ l. AreListed blocks.now l.text.items) }
    ensures passed { IfOk result (λ l. l.all_accepted ≡ all_pass blocks.now) }
{
    let mut text = Vec::new(alloc);
    let mut all_accepted = true;
    let mut rest = blocks;
    'all: while let [block, more @ ..] = rest {
        let good = put_block(alloc, &mut text, block)?;
        all_accepted = all_accepted && good;
        rest = more;
    }
    Ok(Listing { text, all_accepted })
}

/// Checks the log of each block of the text, and solves the clauses of each block without one: a line for each block
/// (docs/COMMANDS.md, "clauses"). Refused as by `read_log`.
pub fn list_clauses(alloc: Global, bytes: &[u8]) -> Result<Listing, LineRefusal<()>>
    ensures { Lists bytes.now result }
{
    let blocks = read_log(alloc, bytes)?;
    match list_blocks(alloc, blocks.as_slice()) {
        Ok(listing) => Ok(listing),
        Err(_) => Err(LineRefusal::Memory),
    }
}
