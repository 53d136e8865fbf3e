//! Whole texts of tokens.
ghost use Rattle.std.specs.Prelude.{MatchResult};
ghost use Rattle.csdn_text.specs.Answers.{IsTokensRefusal};
ghost use Rattle.csdn_text.specs.Reading.{ReadsTokens};

use crate::TextRefusal;
use crate::parser::Parser;
use csdn_tokens::{Kind, Token};
use csdn_tree::syntax::RawProgram;
use std::alloc::Global;

/// The program that the tokens spell.
pub fn parse_tokens(alloc: Global, tokens: &[Token]) -> Result<RawProgram, TextRefusal>
    ensures { MatchResult result (ReadsTokens tokens.now) (IsTokensRefusal tokens.now) }
{
    let mut parser = Parser { rest: tokens };
    let program = parser.program(alloc, 1)?;
    parser.take(Kind::Stop, 1)?;
    Ok(program)
}
