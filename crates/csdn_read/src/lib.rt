//! From bytes to a program: the text's grammar (csdn_text), and then the rules on names, sorts and limits (csdn_types).
//!
//! `read_program` answers the program that the bytes spell, `read_tree` the tree that its text has, and both say in one form
//! where and why bytes are no program. What bytes spell is a definition of its own, `Spells` in specs/Programs.antt.
#![tactic(auto)]

ghost use Rattle.std.specs.Prelude.{MatchResult};
ghost use Rattle.csdn_read.specs.Programs.{Spells, Keeps, IsProgramRefusal};

use csdn_core::program::Program;
use csdn_text::parse;
use csdn_tree::syntax::RawProgram;
use csdn_types::resolve::resolve;
use std::alloc::Global;

pub mod laws;
pub mod refusal;

pub use refusal::{ProgramRefusal, ProgramWhy};

/// The program that the bytes spell, or the first thing that is wrong with them and where it stands.
///
/// A text that isn't one of the grammar is refused before any rule on names and sorts is looked at. Takes time and memory
/// in proportion to the text, but for names, which are looked up among at most 64 of their kind.
pub fn read_program(alloc: Global, bytes: &[u8]) -> Result<Program, ProgramRefusal>
    ensures { MatchResult result (Spells bytes.now) (IsProgramRefusal bytes.now) }
{
    let raw = parse(alloc, bytes)?;
    let program = resolve(alloc, &raw)?;
    Ok(program)
}

/// The tree of the program that the bytes spell, with the places of its names; refused as by `read_program`.
pub fn read_tree(alloc: Global, bytes: &[u8]) -> Result<RawProgram, ProgramRefusal>
    ensures { MatchResult result (Keeps bytes.now) (IsProgramRefusal bytes.now) }
{
    let raw = parse(alloc, bytes)?;
    let _program = resolve(alloc, &raw)?;
    Ok(raw)
}
