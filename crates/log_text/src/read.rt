//! The reader of log texts.

ghost use Rattle.std.specs.Prelude.{◌≡◌, ◌<◌, ◌^◌, ◌++◌, ◌∷◌, [], IfOk, true};
ghost use Rattle.clause_log.specs.Literals.{has_distinct_atoms};
ghost use Rattle.text_lines.specs.Text.{words as words_of, next};
ghost use Rattle.text_lines.specs.Machine.{reading};
ghost use Rattle.text_lines.specs.Gives.{Finds, FindsSome, Gives};
ghost use Rattle.log_text.specs.LogText.{by_key, clause_taken, finish as finish_of, log_format, new_block as empty_block, step as step_at, step_taken, steps_so_far};

use crate::block::{Block, Blocks, Text};
use crate::words::{StepLine, Stop, atoms, clause, header, name, step};
use clause_log::{Clauses, Log};
use sqlite_items::Items;
use std::alloc::{AllocError, Global};
use text_lines::{LineRefusal, Words, read_lines};

/// Where in a log text one is, with what was read of the open block, and the blocks before it.
#[derive(Drop)]
pub enum LogPlace {
    /// Before the first line.
    Header,
    /// Outside of blocks.
    Between(Blocks),
    /// Behind `block NAME`.
    Named(Text, Blocks),
    /// Behind `atoms N`, with the clauses and steps so far.
    Open(Block, Blocks),
}

/// The blocks of a log text (docs/FORMATS.md, "Log text"). It goes over the text once; a line of n literals takes n log
/// n steps.
///
/// # Errors
///
/// `Line` with the first line that is refused, counted from 1, or with the line one past the last, where a block is
/// open there or the header is missing. `Memory` where memory ran out.
pub fn read_log(alloc: Global, text: &[u8]) -> Result<Blocks, LineRefusal<()>>
    ensures { Gives result (reading log_format text.now) }
{
    read_lines(
        text,
        LogPlace::Header,
        |place, line| take(alloc, place, line),
        finish,
    )
}

// The blocks of a text that ends here.
fn finish(place: LogPlace) -> Result<Blocks, ()>
    ensures { result ≡ finish_of place }
{
    match place {
        LogPlace::Between(blocks) => Ok(blocks),
        _ => Err(()),
    }
}

// The place behind this line.
fn take(alloc: Global, place: LogPlace, line: &[u8]) -> Result<LogPlace, Stop>
    ensures { Finds result (step_at place line.now) (λ next. next) }
{
    match place {
        LogPlace::Header => match header(Words::new(line)) {
            Some(()) => Ok(LogPlace::Between(Items::new(alloc))),
            None => Err(Stop::Refused(())),
        },
        LogPlace::Between(blocks) => match name(line) {
            Some(name) => match Items::from_slice(alloc, name) {
                Ok(name) => Ok(LogPlace::Named(name, blocks)),
                Err(_) => Err(Stop::Memory),
            },
            None => Err(Stop::Refused(())),
        },
        LogPlace::Named(name, blocks) => match atoms(Words::new(line)) {
            Some(atoms) => match new_block(alloc, name, atoms) {
                Ok(block) => Ok(LogPlace::Open(block, blocks)),
                Err(_) => Err(Stop::Memory),
            },
            None => Err(Stop::Refused(())),
        },
        LogPlace::Open(block, blocks) => take_inside(alloc, block, blocks, line),
    }
}

fn new_block(alloc: Global, name: Text, atoms: u64) -> Result<Block, AllocError>
    requires { atoms < 2 ^ 62 }
    ensures { IfOk result (λ b. b ≡ empty_block name atoms) }
{
    let clauses = Clauses::try_new(alloc, atoms)?;
    Ok(Block {
        name,
        clauses,
        log: None,
    })
}

// A line of an open block. Clauses come before steps.
fn take_inside(alloc: Global, block: Block, blocks: Blocks, line: &[u8]) -> Result<LogPlace, Stop>
    ensures { Finds result (by_key block blocks (next (words_of line.now))) (λ next. next) }
{
    let Some((key, words)) = Words::new(line).next() else {
        return Err(Stop::Refused(()));
    };
    if key == b"c".as_slice() && block.log.is_none() {
        let block = with_clause(alloc, block, words)?;
        Ok(LogPlace::Open(block, blocks))
    } else if key == b"s".as_slice() {
        let block = with_step(alloc, block, words)?;
        Ok(LogPlace::Open(block, blocks))
    } else if key == b"end".as_slice() {
        if words.end().is_none() {
            return Err(Stop::Refused(()));
        }
        let mut blocks = blocks;
        match blocks.push(block) {
            Ok(()) => Ok(LogPlace::Between(blocks)),
            Err(_) => Err(Stop::Memory),
        }
    } else {
        Err(Stop::Refused(()))
    }
}

// The block with one clause more, from the words behind `c`.
fn with_clause(alloc: Global, block: Block, words: Words) -> Result<Block, Stop>
    ensures { FindsSome result (clause_taken block words.entry) (λ new. new) }
{
    let mut block = block;
    let literals = clause(alloc, words, block.clauses.atoms())?;
    match block.clauses.push(&literals) {
        Ok(()) => Ok(block),
        Err(_) => Err(Stop::Memory),
    }
}

// The block with one step more, from the words behind `s`.
fn with_step(alloc: Global, block: Block, words: Words) -> Result<Block, Stop>
    ensures { FindsSome result (step_taken block words.entry) (λ new. new) }
{
    let Block { name, clauses, log } = block;
    let line = step(alloc, words, clauses.atoms())?;
    match with_line(alloc, log, &line) {
        Ok(log) => Ok(Block {
            name,
            clauses,
            log: Some(log),
        }),
        Err(_) => Err(Stop::Memory),
    }
}

fn with_line(alloc: Global, log: Option<Log>, line: &StepLine) -> Result<Log, AllocError>
    requires { has_distinct_atoms line.now.literals.items ≡ true }
    ensures { IfOk result (λ l. l ≡ steps_so_far log ++ record { literals = line.now.literals.items; hints = line.now.hints.items } ∷ []) }
{
    let mut log = match log {
        Some(log) => log,
        None => Log::try_new(alloc)?,
    };
    log.push(&line.literals, &line.hints)?;
    Ok(log)
}
