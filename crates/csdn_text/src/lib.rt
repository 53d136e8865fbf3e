//! Reads a program's text.
//!
//! `parse` answers the tree that the text spells, or the first thing that is wrong and where it stands
//! (docs/LANGUAGE.md). What a text spells is a definition of its own, `Reads`, over the grammar of specs/Grammar.antt.
#![tactic(auto)]

ghost use Rattle.std.specs.Prelude.{◌≡◌, ◌<◌, length, Err, MatchResult};
ghost use Rattle.csdn_text.specs.declared.TextRefusal.TheVariants.{TooLong};
ghost use Rattle.csdn_text.specs.Reading.{Reads, IsTextRefusal};

use crate::reading::parse_tokens;
use csdn_tokens::tokens;
use csdn_tree::syntax::RawProgram;
use std::alloc::{AllocError, Global};
use thiserror::Error;

mod build;
mod commands;
mod formulas;
mod items;
pub mod laws;
mod parser;
mod parts;
mod reading;
mod words;

/// Why a text is no program. Places are bytes from the beginning of the text.
#[derive(Debug, Drop, Error)]
pub enum TextRefusal {
    #[error("out of memory")]
    Memory,
    /// The text has more than 65,536 bytes.
    #[error("the text is too long")]
    TooLong,
    /// A byte that begins no token.
    #[error("byte {at} begins no token")]
    BadByte { at: usize },
    /// A number that begins with 0 or isn't from 1 to 65,280.
    #[error("the number at byte {at} is not from 1 to 65280")]
    BadNumber { at: usize },
    /// A word of more than 64 bytes.
    #[error("the word at byte {at} is longer than 64 bytes")]
    BadName { at: usize },
    /// A token, or the end of the text, with which what was read begins no program.
    #[error("what stands at byte {at} does not fit")]
    Unexpected { at: usize },
    /// A token that would stand deeper than 64.
    #[error("what stands at byte {at} is nested too deep")]
    TooDeep { at: usize },
}

impl From<AllocError> for TextRefusal {
    ghost use Rattle.csdn_text.specs.declared.TextRefusal.TheVariants.{Memory};
    ghost use Rattle.std.specs.Prelude.{◌≡◌};

    ghost from_gives = { λ _ e. e ≡ Memory };

    fn from(_: AllocError) -> Self {
        TextRefusal::Memory
    }
}

/// The greatest length of a text, in bytes.
const LONGEST: usize = 65536;

/// The tree that the text spells (docs/LANGUAGE.md, "Grammar"), with the places of its names.
///
/// Refused are, first, a text of more than 65,536 bytes, before memory is taken, and else the first token that doesn't
/// fit or that stands deeper than 64: a byte, number or word that is no token is told by its own refusal. It takes time
/// and memory in proportion to the text; memory is taken from `alloc`.
///
/// # Example
///
/// From the tests `makes_the_tree_that_the_grammar_means` and `reads_programs_and_tells_what_does_not_fit` of
/// csdn_text_tests: `->` is nested to the right, and places are bytes from 0.
///
/// ```rust
/// let raw = parse(alloc, b"safety A: p() -> q() -> r();")?;
/// match raw.items.get(0) {
///     Some(RawItem::Invariant(_, name, RawFormula::Two(Connective::Implies, _, right))) => {
///         assert!(rt; name.at == 7 && matches!(right.get(), RawFormula::Two(Connective::Implies, _, _)));
///     }
///     _ => assert!(rt; false),
/// }
/// assert!(rt; matches!(parse(alloc, b"rel p(); x"), Err(TextRefusal::Unexpected { at: 9 })));
/// ```
pub fn parse(alloc: Global, text: &[u8]) -> Result<RawProgram, TextRefusal>
    ensures reads { MatchResult result (Reads text.now) (IsTextRefusal text.now) }
    ensures too_long { 65536 < length text.now → result ≡ Err TooLong }
{
    if text.len() > LONGEST {
        return Err(TextRefusal::TooLong);
    }
    let tokens = tokens(alloc, text)?;
    parse_tokens(alloc, &tokens)
}
