//! The printer of log texts.

ghost use Rattle.std.specs.Prelude.{◌≡◌, ◌++◌, ◌∷◌, [], Ok, decimal, IfOk, map, OnOk, slice_index_or, true};
ghost use Rattle.std.specs.List.{flat_map};
ghost use Rattle.clause_log.specs.Literals.{Literal};
ghost use Rattle.clause_log.specs.Refutations.{Step};
ghost use Rattle.text_lines.specs.Machine.{reading};
ghost use Rattle.text_lines.specs.Printed.{line_text, spaced};
ghost use Rattle.log_text.specs.LogText.{are_blocks, block_lines, clause_words, literal_word, log_format, log_text, step_words};

use crate::block::{Block, Blocks, Text};
use clause_log::{Clauses, Lit, Log};
use sqlite_items::Items;
use std::alloc::{AllocError, Global};
use text_lines::{put_line, put_line_end, put_next_number, put_next_word, put_number, put_word};

/// The text of the blocks. Reading it gives the blocks again.
///
/// Names have 1 to 200 bytes from 0x20 to 0x7e and no space at either end; literals of steps are of atoms from 1
/// to the block's `atoms`, hints are from 1 to 2^63 - 1, and a log that is there has a step.
pub fn print_log(alloc: Global, blocks: &Blocks) -> Result<Text, AllocError>
    requires { are_blocks blocks.now ≡ true }
    ensures text { IfOk result (λ text. text ≡ log_text blocks.now) }
    ensures again { IfOk result (λ text. reading log_format text ≡ Ok blocks.now) }
{
    let text = text_of(alloc, blocks.as_slice())?;
    Ok(Items::from_vec(text))
}

fn text_of(alloc: Global, blocks: &[Block]) -> Result<Vec<u8>, AllocError>
    ensures { IfOk result (λ text. text.items ≡ log_text blocks.now) }
{
    let mut out = Vec::new(alloc);
    put_word(&mut out, b"vericon-log")?;
    put_next_word(&mut out, b"1")?;
    put_line_end(&mut out)?;
    let mut rest = blocks;
    'all: while let [block, more @ ..] = rest {
        put_block(&mut out, block)?;
        rest = more;
    }
    Ok(out)
}

fn put_block(out: &mut Vec<u8>, block: &Block) -> Result<(), AllocError>
    ensures { OnOk result (out.new.items ≡ out.old.items ++ flat_map line_text (block_lines block.now)) }
{
    put_word(out, b"block")?;
    put_next_word(out, block.name.as_slice())?;
    put_line_end(out)?;
    put_line(out, b"atoms", &[block.clauses.atoms()])?;
    put_clauses(out, &block.clauses)?;
    if let Some(log) = &block.log {
        put_steps(out, log)?;
    }
    put_line(out, b"end", &[])?;
    Ok(())
}

fn put_clauses(out: &mut Vec<u8>, clauses: &Clauses) -> Result<(), AllocError>
    ensures { OnOk result (out.new.items ≡ out.old.items ++ flat_map line_text (map clause_words clauses.now.clauses)) }
{
    let count = clauses.len();
    'clauses: for at in 0..count {
        put_clause(out, clauses.clause(at))?;
    }
    Ok(())
}

/// Appends the lines of a log's steps.
pub fn put_steps(out: &mut Vec<u8>, log: &Log) -> Result<(), AllocError>
    ensures { OnOk result (out.new.items ≡ out.old.items ++ flat_map line_text (map step_words log.now)) }
{
    let count = log.len();
    'steps: for at in 0..count {
        put_step(out, log.literals(at), log.hints(at))?;
    }
    Ok(())
}

fn put_clause(out: &mut Vec<u8>, literals: &[Lit]) -> Result<(), AllocError>
    ensures { OnOk result (out.new.items ≡ out.old.items ++ line_text (clause_words literals.now)) }
{
    put_word(out, b"c")?;
    put_literals(out, literals)?;
    put_next_word(out, b"0")?;
    put_line_end(out)?;
    Ok(())
}

fn put_step(out: &mut Vec<u8>, literals: &[Lit], hints: &[u64]) -> Result<(), AllocError>
    ensures { OnOk result (let s : Step = record { literals = literals.now; hints = hints.now } in out.new.items ≡ out.old.items ++ line_text (step_words s)) }
{
    put_word(out, b"s")?;
    put_literals(out, literals)?;
    put_next_word(out, b"0")?;
    put_hints(out, hints)?;
    put_next_word(out, b"0")?;
    put_line_end(out)?;
    Ok(())
}

fn put_literals(out: &mut Vec<u8>, literals: &[Lit]) -> Result<(), AllocError>
    ensures { OnOk result (out.new.items ≡ out.old.items ++ spaced (map literal_word literals.now)) }
{
    let mut rest = literals;
    'literals: while let [l, more @ ..] = rest {
        put_next_literal(out, l.is_positive(), l.atom())?;
        rest = more;
    }
    Ok(())
}

/// Appends a space and a literal: an atom or its negation.
pub fn put_next_literal(out: &mut Vec<u8>, is_positive: bool, atom: u64) -> Result<(), AllocError>
    ensures { OnOk result (let l : Literal = record { positive = is_positive; atom = atom } in out.new.items ≡ out.old.items ++ 32 ∷ literal_word l) }
{
    if is_positive {
        put_next_number(out, atom)
    } else {
        put_next_word(out, b"-")?;
        put_number(out, atom)
    }
}

fn put_hints(out: &mut Vec<u8>, hints: &[u64]) -> Result<(), AllocError>
    ensures { OnOk result (out.new.items ≡ out.old.items ++ spaced (map decimal hints.now)) }
{
    let mut rest = hints;
    'hints: while let [hint, more @ ..] = rest {
        put_next_number(out, *hint)?;
        rest = more;
    }
    Ok(())
}
