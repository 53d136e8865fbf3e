//! Formulas.
ghost use Rattle.std.specs.Prelude.{◌≡◌, ◌+◌, ◌≤◌, length, OnOk};
ghost use Rattle.csdn_tree.specs.declared.tiers.Tier.TheVariants.{Single, Joins};
ghost use Rattle.csdn_text.specs.Symbols.{here, part, formula, binds, more_binds, tier, tier as at_tier, atom, atom_rest, fact};
ghost use Rattle.csdn_text.specs.Machine.{Parses, limit};

use crate::TextRefusal;
use crate::build::{joined, negated, quantified};
use crate::parser::Parser;
use crate::parts::{AtomRest, kind_of};
use csdn_tokens::Kind;
use csdn_tree::names::RawTerm;
use csdn_tree::syntax::{Connective, FlowWord, Quantifier, RawFormula};
use csdn_tree::tiers::{Tier, left_of, right_of};
use std::alloc::Global;

impl<'a> Parser<'a> {
    /// A formula.
    #[cycle(formula)]
    pub fn formula(&mut self, alloc: Global, depth: usize) -> Result<RawFormula, TextRefusal>
        requires { depth ≤ limit }
        ensures parses { Parses depth (part formula here) self.old self.new result }
        ensures shorter { OnOk result (length self.new + 1 ≤ length self.old) }
    {
        if self.next_is(Kind::Forall) {
            self.take(Kind::Forall, depth)?;
            let whole = self.binds(alloc, Quantifier::All, depth)?;
            Ok(whole)
        } else if self.next_is(Kind::Exists) {
            self.take(Kind::Exists, depth)?;
            let whole = self.binds(alloc, Quantifier::Some, depth)?;
            Ok(whole)
        } else {
            let whole = self.joins(alloc, Connective::Iff, depth)?;
            Ok(whole)
        }
    }

    /// Bound names and what they are bound in, behind the word `forall` or `exists`.
    #[cycle(formula)]
    pub fn binds(
        &mut self,
        alloc: Global,
        which: Quantifier,
        depth: usize,
    ) -> Result<RawFormula, TextRefusal>
        requires { depth ≤ limit }
        ensures parses { Parses depth (part (binds which) here) self.old self.new result }
        ensures shorter { OnOk result (length self.new + 1 ≤ length self.old) }
    {
        let name = self.name(alloc, depth + 1)?;
        self.take(Kind::Colon, depth + 1)?;
        let sort = self.sort(depth + 1)?;
        let body = self.more_binds(alloc, which, depth + 1)?;
        let whole = quantified(alloc, which, name, sort, body)?;
        Ok(whole)
    }

    /// Further bound names, or `.` and what they are bound in.
    #[cycle(formula)]
    pub fn more_binds(
        &mut self,
        alloc: Global,
        which: Quantifier,
        depth: usize,
    ) -> Result<RawFormula, TextRefusal>
        requires { depth ≤ limit }
        ensures parses { Parses depth (part (more_binds which) here) self.old self.new result }
        ensures shorter { OnOk result (length self.new + 1 ≤ length self.old) }
    {
        if self.next_is(Kind::Comma) {
            self.take(Kind::Comma, depth)?;
            let whole = self.binds(alloc, which, depth)?;
            Ok(whole)
        } else {
            self.take(Kind::Dot, depth)?;
            let whole = self.formula(alloc, depth)?;
            Ok(whole)
        }
    }

    /// A formula where no word may join two, or where this one may.
    #[cycle(formula)]
    pub fn tier(
        &mut self,
        alloc: Global,
        tier: Tier,
        depth: usize,
    ) -> Result<RawFormula, TextRefusal>
        requires { depth ≤ limit }
        ensures parses { Parses depth (part (at_tier tier) here) self.old self.new result }
        ensures shorter { OnOk result (length self.new + 1 ≤ length self.old) }
    {
        match tier {
            Tier::Single => self.unary(alloc, depth),
            Tier::Joins(word) => self.joins(alloc, word, depth),
        }
    }

    /// Formulas with this word between them, or one without it. The word is right-associative, but `<->` stands once.
    #[cycle(formula)]
    pub fn joins(
        &mut self,
        alloc: Global,
        word: Connective,
        depth: usize,
    ) -> Result<RawFormula, TextRefusal>
        requires { depth ≤ limit }
        ensures parses { Parses depth (part (tier (Joins word)) here) self.old self.new result }
        ensures shorter { OnOk result (length self.new + 1 ≤ length self.old) }
    {
        let left = self.tier(alloc, left_of(word), depth)?;
        let kind = kind_of(word);
        if !self.next_is(kind) {
            return Ok(left);
        }
        self.take(kind, depth + 1)?;
        let right = self.tier(alloc, right_of(word), depth + 1)?;
        let whole = joined(alloc, word, left, right)?;
        Ok(whole)
    }

    /// `not` and a formula, or an atom.
    #[cycle(formula)]
    pub fn unary(&mut self, alloc: Global, depth: usize) -> Result<RawFormula, TextRefusal>
        requires { depth ≤ limit }
        ensures parses { Parses depth (part (tier Single) here) self.old self.new result }
        ensures shorter { OnOk result (length self.new + 1 ≤ length self.old) }
    {
        if self.next_is(Kind::Not) {
            self.take(Kind::Not, depth + 1)?;
            let inner = self.unary(alloc, depth + 1)?;
            let whole = negated(alloc, inner)?;
            Ok(whole)
        } else {
            let whole = self.atom(alloc, depth)?;
            Ok(whole)
        }
    }

    /// A truth value, a formula in parentheses, an equation or an atom.
    #[cycle(formula)]
    pub fn atom(&mut self, alloc: Global, depth: usize) -> Result<RawFormula, TextRefusal>
        requires { depth ≤ limit }
        ensures parses { Parses depth (part atom here) self.old self.new result }
        ensures shorter { OnOk result (length self.new + 1 ≤ length self.old) }
    {
        if self.next_is(Kind::True) {
            self.take(Kind::True, depth)?;
            Ok(RawFormula::True)
        } else if self.next_is(Kind::False) {
            self.take(Kind::False, depth)?;
            Ok(RawFormula::False)
        } else if self.next_is(Kind::Open) {
            self.take(Kind::Open, depth + 1)?;
            let inner = self.formula(alloc, depth + 1)?;
            self.take(Kind::Close, depth + 1)?;
            Ok(inner)
        } else if self.begins(Kind::Prt) {
            let port = self.port(depth)?;
            self.take(Kind::Equals, depth)?;
            let term = self.term(alloc, depth)?;
            Ok(RawFormula::Same(RawTerm::Port(port), term))
        } else {
            let name = self.name(alloc, depth)?;
            let rest = self.atom_rest(alloc, depth)?;
            Ok(rest.atom_of(name))
        }
    }

    /// What stands behind the name with which an atom begins.
    pub fn atom_rest(&mut self, alloc: Global, depth: usize) -> Result<AtomRest, TextRefusal>
        ensures parses { Parses depth (part atom_rest here) self.old self.new result }
        ensures shorter { OnOk result (length self.new + 1 ≤ length self.old) }
    {
        if self.next_is(Kind::Equals) {
            self.take(Kind::Equals, depth)?;
            let term = self.term(alloc, depth)?;
            Ok(AtomRest::Same(term))
        } else if self.next_is(Kind::Dot) {
            self.take(Kind::Dot, depth)?;
            let fact = self.fact(alloc, depth)?;
            Ok(fact)
        } else {
            let row = self.row(alloc, depth)?;
            Ok(AtomRest::Row(row.terms))
        }
    }

    /// `ft`, `sent` or `rcv_this` and its terms, behind the dot.
    pub fn fact(&mut self, alloc: Global, depth: usize) -> Result<AtomRest, TextRefusal>
        ensures parses { Parses depth (part fact here) self.old self.new result }
        ensures shorter { OnOk result (length self.new + 1 ≤ length self.old) }
    {
        if self.next_is(Kind::Ft) {
            let word = self.take(Kind::Ft, depth)?;
            let flow = self.flow(alloc, depth)?;
            Ok(AtomRest::Flow(word.at, FlowWord::Ft, flow))
        } else if self.next_is(Kind::Sent) {
            let word = self.take(Kind::Sent, depth)?;
            let flow = self.flow(alloc, depth)?;
            Ok(AtomRest::Flow(word.at, FlowWord::Sent, flow))
        } else {
            let word = self.take(Kind::RcvThis, depth)?;
            let packet = self.packet(alloc, depth)?;
            Ok(AtomRest::RcvThis(word.at, packet))
        }
    }
}
