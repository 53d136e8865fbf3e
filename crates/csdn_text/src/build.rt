//! Nodes of the tree of their parts.
ghost use Rattle.std.specs.Prelude.{◌≡◌, IfOk, MatchResult};
ghost use Rattle.csdn_tree.specs.declared.syntax.RawFormula.TheVariants as f;
ghost use Rattle.csdn_tree.specs.declared.syntax.RawCommand.TheVariants as c;
ghost use Rattle.csdn_text.specs.declared.TextRefusal.TheVariants.{Memory};
ghost use Rattle.csdn_text.specs.Grammar as grammar;

use crate::TextRefusal;
use csdn_core::terms::Sort;
use csdn_tokens::Token;
use csdn_tree::names::RawName;
use csdn_tree::syntax::{Connective, Quantifier, RawCommand, RawFormula};
use sqlite_items::{Boxed, Items};
use std::alloc::{AllocError, Global};

/// The name that a token is.
pub fn name_at(alloc: Global, word: &Token) -> Result<RawName, AllocError>
    ensures { IfOk result (λ x. x ≡ grammar.name_of word.now) }
{
    Ok(RawName {
        at: word.at,
        text: Items::from_slice(alloc, word.text.as_slice())?,
    })
}

/// `not inner`. The one refusal is `Memory`.
pub fn negated(alloc: Global, inner: RawFormula) -> Result<RawFormula, TextRefusal>
    ensures { MatchResult result (λ p. p ≡ f.Not inner) (λ e. e ≡ Memory) }
{
    Ok(RawFormula::Not(Boxed::new(alloc, inner)?))
}

/// Two formulas with a word between them. The one refusal is `Memory`.
pub fn joined(
    alloc: Global,
    word: Connective,
    left: RawFormula,
    right: RawFormula,
) -> Result<RawFormula, TextRefusal>
    ensures { MatchResult result (λ p. p ≡ f.Two word left right) (λ e. e ≡ Memory) }
{
    Ok(RawFormula::Two(word, Boxed::new(alloc, left)?, Boxed::new(alloc, right)?))
}

/// `forall name:sort. body` or `exists name:sort. body`. The one refusal is `Memory`.
pub fn quantified(
    alloc: Global,
    which: Quantifier,
    name: RawName,
    sort: Sort,
    body: RawFormula,
) -> Result<RawFormula, TextRefusal>
    ensures { MatchResult result (λ p. p ≡ f.Bind which name sort body) (λ e. e ≡ Memory) }
{
    Ok(RawFormula::Bind(which, name, sort, Boxed::new(alloc, body)?))
}

/// A command, and all that follow it. The one refusal is `Memory`.
pub fn followed(
    alloc: Global,
    first: RawCommand,
    rest: RawCommand,
) -> Result<RawCommand, TextRefusal>
    ensures { MatchResult result (λ x. x ≡ c.Seq first rest) (λ e. e ≡ Memory) }
{
    Ok(RawCommand::Seq(Boxed::new(alloc, first)?, Boxed::new(alloc, rest)?))
}

/// `if condition {body} else {other}`. The one refusal is `Memory`.
pub fn branching(
    alloc: Global,
    condition: RawFormula,
    body: RawCommand,
    other: RawCommand,
) -> Result<RawCommand, TextRefusal>
    ensures { MatchResult result (λ x. x ≡ c.If condition body other) (λ e. e ≡ Memory) }
{
    Ok(RawCommand::If(
        Boxed::new(alloc, condition)?,
        Boxed::new(alloc, body)?,
        Boxed::new(alloc, other)?,
    ))
}

/// `pick name:sort where condition {body} else {other}`. The one refusal is `Memory`.
pub fn choosing(
    alloc: Global,
    name: RawName,
    sort: Sort,
    condition: RawFormula,
    body: RawCommand,
    other: RawCommand,
) -> Result<RawCommand, TextRefusal>
    ensures { MatchResult result (λ x. x ≡ c.Pick name sort condition body other) (λ e. e ≡ Memory) }
{
    Ok(RawCommand::Pick(
        name,
        sort,
        Boxed::new(alloc, condition)?,
        Boxed::new(alloc, body)?,
        Boxed::new(alloc, other)?,
    ))
}
