//! Names, terms, sorts and rows of them.
ghost use Rattle.std.specs.Prelude.{◌≡◌, ◌+◌, ◌≤◌, length, OnOk};
ghost use Rattle.csdn_text.specs.Symbols.{here, part, name, port, term, terms, row, rows, flow, packet, sort, sorts, sort_list};
ghost use Rattle.csdn_text.specs.Machine.{Parses, limit};

use crate::TextRefusal;
use crate::build::name_at;
use crate::parser::Parser;
use crate::parts::{FlowTerms, PacketTerms};
use csdn_core::program::Sorts;
use csdn_core::terms::Sort;
use csdn_tokens::Kind;
use csdn_tree::names::{RawName, RawNumeral, RawTerm, RawTerms};
use csdn_tree::syntax::{RawRow, RawRows};
use sqlite_items::Items;
use std::alloc::Global;

impl<'a> Parser<'a> {
    /// A name.
    pub fn name(&mut self, alloc: Global, depth: usize) -> Result<RawName, TextRefusal>
        ensures parses { Parses depth (part name here) self.old self.new result }
        ensures shorter { OnOk result (length self.new + 1 ≤ length self.old) }
        ensures within { OnOk result (depth ≤ limit) }
    {
        let word = self.take(Kind::Name, depth)?;
        let name = name_at(alloc, word)?;
        Ok(name)
    }

    /// `prt(number)`.
    pub fn port(&mut self, depth: usize) -> Result<RawNumeral, TextRefusal>
        ensures parses { Parses depth (part port here) self.old self.new result }
        ensures shorter { OnOk result (length self.new + 1 ≤ length self.old) }
    {
        let word = self.take(Kind::Prt, depth)?;
        self.take(Kind::Open, depth)?;
        let number = self.take(Kind::Number, depth)?;
        self.take(Kind::Close, depth)?;
        Ok(RawNumeral {
            at: word.at,
            number: number.number,
        })
    }

    /// A name, or `prt(number)`.
    pub fn term(&mut self, alloc: Global, depth: usize) -> Result<RawTerm, TextRefusal>
        ensures parses { Parses depth (part term here) self.old self.new result }
        ensures shorter { OnOk result (length self.new + 1 ≤ length self.old) }
    {
        if self.begins(Kind::Prt) {
            let port = self.port(depth)?;
            Ok(RawTerm::Port(port))
        } else {
            let name = self.name(alloc, depth)?;
            Ok(RawTerm::Name(name))
        }
    }

    /// `(terms)`.
    pub fn row(&mut self, alloc: Global, depth: usize) -> Result<RawRow, TextRefusal>
        ensures parses { Parses depth (part row here) self.old self.new result }
        ensures shorter { OnOk result (length self.new + 1 ≤ length self.old) }
    {
        let begin = self.take(Kind::Open, depth)?;
        let terms = self.terms(alloc, depth)?;
        self.take(Kind::Close, depth)?;
        Ok(RawRow {
            at: begin.at,
            terms,
        })
    }

    /// `(source -> target, ingress -> egress)`.
    pub fn flow(&mut self, alloc: Global, depth: usize) -> Result<FlowTerms, TextRefusal>
        ensures parses { Parses depth (part flow here) self.old self.new result }
        ensures shorter { OnOk result (length self.new + 1 ≤ length self.old) }
    {
        self.take(Kind::Open, depth)?;
        let source = self.term(alloc, depth)?;
        self.take(Kind::Arrow, depth)?;
        let target = self.term(alloc, depth)?;
        self.take(Kind::Comma, depth)?;
        let ingress = self.term(alloc, depth)?;
        self.take(Kind::Arrow, depth)?;
        let egress = self.term(alloc, depth)?;
        self.take(Kind::Close, depth)?;
        Ok(FlowTerms {
            source,
            target,
            ingress,
            egress,
        })
    }

    /// `(source -> target, ingress)`.
    pub fn packet(&mut self, alloc: Global, depth: usize) -> Result<PacketTerms, TextRefusal>
        ensures parses { Parses depth (part packet here) self.old self.new result }
        ensures shorter { OnOk result (length self.new + 1 ≤ length self.old) }
    {
        self.take(Kind::Open, depth)?;
        let source = self.term(alloc, depth)?;
        self.take(Kind::Arrow, depth)?;
        let target = self.term(alloc, depth)?;
        self.take(Kind::Comma, depth)?;
        let ingress = self.term(alloc, depth)?;
        self.take(Kind::Close, depth)?;
        Ok(PacketTerms {
            source,
            target,
            ingress,
        })
    }

    /// A sort: `SW`, `HO` or `PR`.
    pub fn sort(&mut self, depth: usize) -> Result<Sort, TextRefusal>
        ensures parses { Parses depth (part sort here) self.old self.new result }
        ensures shorter { OnOk result (length self.new + 1 ≤ length self.old) }
    {
        if self.next_is(Kind::Sw) {
            self.take(Kind::Sw, depth)?;
            Ok(Sort::Sw)
        } else if self.next_is(Kind::Ho) {
            self.take(Kind::Ho, depth)?;
            Ok(Sort::Ho)
        } else {
            self.take(Kind::Pr, depth)?;
            Ok(Sort::Pr)
        }
    }

    /// `(sorts)`.
    pub fn sorts(&mut self, alloc: Global, depth: usize) -> Result<Sorts, TextRefusal>
        ensures parses { Parses depth (part sorts here) self.old self.new result }
        ensures shorter { OnOk result (length self.new + 1 ≤ length self.old) }
    {
        self.take(Kind::Open, depth)?;
        let sorts = self.sort_list(alloc, depth)?;
        self.take(Kind::Close, depth)?;
        Ok(sorts)
    }

    /// Terms with commas between them, or none.
    pub fn terms(&mut self, alloc: Global, depth: usize) -> Result<RawTerms, TextRefusal>
        ensures parses { Parses depth (part terms here) self.old self.new result }
        ensures shorter { OnOk result (length self.new ≤ length self.old) }
    {
        let mut found = Items::new(alloc);
        if !self.begins_term() {
            return Ok(found);
        }
        let first = self.term(alloc, depth)?;
        found.push(first)?;
        'more: while self.next_is(Kind::Comma) {
            self.take(Kind::Comma, depth)?;
            let next = self.term(alloc, depth)?;
            found.push(next)?;
        }
        Ok(found)
    }

    /// Rows with commas between them, or none.
    pub fn rows(&mut self, alloc: Global, depth: usize) -> Result<RawRows, TextRefusal>
        ensures parses { Parses depth (part rows here) self.old self.new result }
        ensures shorter { OnOk result (length self.new ≤ length self.old) }
    {
        let mut found = Items::new(alloc);
        if !self.begins(Kind::Open) {
            return Ok(found);
        }
        let first = self.row(alloc, depth)?;
        found.push(first)?;
        'more: while self.next_is(Kind::Comma) {
            self.take(Kind::Comma, depth)?;
            let next = self.row(alloc, depth)?;
            found.push(next)?;
        }
        Ok(found)
    }

    /// Sorts with commas between them, or none.
    pub fn sort_list(&mut self, alloc: Global, depth: usize) -> Result<Sorts, TextRefusal>
        ensures parses { Parses depth (part sort_list here) self.old self.new result }
        ensures shorter { OnOk result (length self.new ≤ length self.old) }
    {
        let mut found = Items::new(alloc);
        if !self.begins_sort() {
            return Ok(found);
        }
        let first = self.sort(depth)?;
        found.push(first)?;
        'more: while self.next_is(Kind::Comma) {
            self.take(Kind::Comma, depth)?;
            let next = self.sort(depth)?;
            found.push(next)?;
        }
        Ok(found)
    }
}
