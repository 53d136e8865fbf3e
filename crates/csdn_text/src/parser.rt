//! A predictive parser: the next token alone says which rule is read.
//!
//! Each method reads a nonterminal of specs/Grammar.antt at a depth; `words`, `formulas`, `commands` and `items` have them.
ghost use Rattle.std.specs.Prelude.{◌≡◌, ◌+◌, ◌≤◌, [], ◌∷◌, length, OnOk};
ghost use Rattle.csdn_text.specs.Symbols.{here, token};
ghost use Rattle.csdn_text.specs.Machine.{Parses, next_is, next_in, in_sort, in_term, in_command, in_item, refused_at, limit};
ghost use Rattle.csdn_text.specs.Answers.{seen};

use crate::TextRefusal;
use csdn_tokens::{Kind, Token};
use std::marker::Model;

/// The greatest depth.
const LIMIT: usize = 64;

/// What is left of the tokens. A method that reads a form takes its tokens at a depth, of at most 64; it refuses the
/// first token that doesn't fit or that stands deeper (docs/LANGUAGE.md, "What is refused, and where").
#[derive(Drop)]
pub struct Parser<'a> {
    pub rest: &'a [Token],
}

impl<'a> Model for Parser<'a> {
    ghost use Rattle.std.specs.Prelude.{List};
    ghost use Rattle.csdn_tokens.specs.declared.Token.{Token};

    ghost Value = { List Token };

    ghost view = { λ p. p.rest.now };
}

impl<'a> Parser<'a> {
    /// Whether the next token is of this kind.
    pub fn next_is(&self, kind: Kind) -> bool
        ensures { result ≡ next_is self.now kind }
    {
        match self.rest {
            [next, ..] => next.kind == kind,
            [] => false,
        }
    }

    /// Whether what begins with this kind alone comes.
    pub fn begins(&self, kind: Kind) -> bool
        ensures { result ≡ next_in self.now (kind ∷ []) }
    {
        self.next_is(kind)
    }

    /// Whether a sort comes.
    pub fn begins_sort(&self) -> bool
        ensures { result ≡ next_in self.now in_sort }
    {
        self.next_is(Kind::Sw) || self.next_is(Kind::Ho) || self.next_is(Kind::Pr)
    }

    /// Whether a term comes.
    pub fn begins_term(&self) -> bool
        ensures { result ≡ next_in self.now in_term }
    {
        self.next_is(Kind::Name) || self.next_is(Kind::Prt)
    }

    /// Whether a command comes.
    pub fn begins_command(&self) -> bool
        ensures { result ≡ next_in self.now in_command }
    {
        self.next_is(Kind::Skip)
            || self.next_is(Kind::Name)
            || self.next_is(Kind::If)
            || self.next_is(Kind::Pick)
    }

    /// Whether an item comes.
    pub fn begins_item(&self) -> bool
        ensures { result ≡ next_in self.now in_item }
    {
        self.next_is(Kind::Static)
            || self.next_is(Kind::Const)
            || self.next_is(Kind::Rel)
            || self.next_is(Kind::PktIn)
            || self.next_is(Kind::Timeout)
            || self.next_is(Kind::Topology)
            || self.next_is(Kind::Safety)
            || self.next_is(Kind::Trans)
    }

    /// The refusal of the next token: a fault of the text, or a token that doesn't fit.
    fn refusal(&self) -> TextRefusal
        ensures { result ≡ refused_at self.now }
    {
        let Some(next) = self.rest.first() else {
            return TextRefusal::Unexpected { at: 0 };
        };
        let at = next.at;
        match next.kind {
            Kind::BadByte => TextRefusal::BadByte { at },
            Kind::BadName => TextRefusal::BadName { at },
            Kind::BadNumber => TextRefusal::BadNumber { at },
            _ => TextRefusal::Unexpected { at },
        }
    }

    /// Takes a token of this kind.
    pub fn take(&mut self, kind: Kind, depth: usize) -> Result<&'a Token, TextRefusal>
        ensures parses { Parses depth (token kind here) self.old self.new (seen result) }
        ensures within { OnOk result (depth ≤ limit) }
        ensures shorter { OnOk result (length self.new + 1 ≡ length self.old) }
    {
        let refusal = self.refusal();
        let Some((next, rest)) = self.rest.split_first() else {
            return Err(refusal);
        };
        if next.kind != kind {
            return Err(refusal);
        }
        if depth > LIMIT {
            return Err(TextRefusal::TooDeep { at: next.at });
        }
        self.rest = rest;
        Ok(next)
    }
}
