//! Items and the whole program.
ghost use Rattle.std.specs.Prelude.{◌≡◌, ◌+◌, ◌≤◌, length, OnOk};
ghost use Rattle.csdn_text.specs.Symbols.{here, part, program, item, static_item, const_item, rel_item, invariant_item, invariant_kind, handler_item, handler_port, timeout_item, initial};
ghost use Rattle.csdn_text.specs.Machine.{Parses, limit};

use crate::TextRefusal;
use crate::parser::Parser;
use csdn_tokens::Kind;
use csdn_tree::syntax::{
    InvariantKind, RawHandler, RawItem, RawPattern, RawProgram, RawRelation, RawRows, RawTimeout,
};
use sqlite_items::Items;
use std::alloc::Global;

impl<'a> Parser<'a> {
    /// An item.
    pub fn item(&mut self, alloc: Global, depth: usize) -> Result<RawItem, TextRefusal>
        requires { depth ≤ limit }
        ensures parses { Parses depth (part item here) self.old self.new result }
        ensures shorter { OnOk result (length self.new + 1 ≤ length self.old) }
    {
        if self.begins(Kind::Static) {
            let whole = self.static_item(alloc, depth)?;
            Ok(whole)
        } else if self.begins(Kind::Const) {
            let whole = self.const_item(alloc, depth)?;
            Ok(whole)
        } else if self.begins(Kind::Rel) {
            let whole = self.rel_item(alloc, depth)?;
            Ok(whole)
        } else if self.begins(Kind::PktIn) {
            let whole = self.handler_item(alloc, depth)?;
            Ok(whole)
        } else if self.begins(Kind::Timeout) {
            let whole = self.timeout_item(depth)?;
            Ok(whole)
        } else {
            let whole = self.invariant_item(alloc, depth)?;
            Ok(whole)
        }
    }

    /// `static name(sorts);`.
    pub fn static_item(&mut self, alloc: Global, depth: usize) -> Result<RawItem, TextRefusal>
        ensures parses { Parses depth (part static_item here) self.old self.new result }
        ensures shorter { OnOk result (length self.new + 1 ≤ length self.old) }
    {
        self.take(Kind::Static, depth)?;
        let name = self.name(alloc, depth)?;
        let sorts = self.sorts(alloc, depth)?;
        self.take(Kind::Semicolon, depth)?;
        Ok(RawItem::Relation(RawRelation {
            name,
            sorts,
            fixed: true,
            rows: Items::new(alloc),
        }))
    }

    /// `const name: sort;`.
    pub fn const_item(&mut self, alloc: Global, depth: usize) -> Result<RawItem, TextRefusal>
        ensures parses { Parses depth (part const_item here) self.old self.new result }
        ensures shorter { OnOk result (length self.new + 1 ≤ length self.old) }
    {
        self.take(Kind::Const, depth)?;
        let name = self.name(alloc, depth)?;
        self.take(Kind::Colon, depth)?;
        let sort = self.sort(depth)?;
        self.take(Kind::Semicolon, depth)?;
        Ok(RawItem::Constant(name, sort))
    }

    /// `rel name(sorts);`, with an initial value where one is written.
    pub fn rel_item(&mut self, alloc: Global, depth: usize) -> Result<RawItem, TextRefusal>
        ensures parses { Parses depth (part rel_item here) self.old self.new result }
        ensures shorter { OnOk result (length self.new + 1 ≤ length self.old) }
    {
        self.take(Kind::Rel, depth)?;
        let name = self.name(alloc, depth)?;
        let sorts = self.sorts(alloc, depth)?;
        let rows = self.initial(alloc, depth)?;
        self.take(Kind::Semicolon, depth)?;
        Ok(RawItem::Relation(RawRelation {
            name,
            sorts,
            fixed: false,
            rows,
        }))
    }

    /// `topology`, `safety` or `trans`, and `name: formula;`.
    pub fn invariant_item(&mut self, alloc: Global, depth: usize) -> Result<RawItem, TextRefusal>
        requires { depth ≤ limit }
        ensures parses { Parses depth (part invariant_item here) self.old self.new result }
        ensures shorter { OnOk result (length self.new + 1 ≤ length self.old) }
    {
        let kind = self.invariant_kind(depth)?;
        let name = self.name(alloc, depth)?;
        self.take(Kind::Colon, depth)?;
        let formula = self.formula(alloc, depth)?;
        self.take(Kind::Semicolon, depth)?;
        Ok(RawItem::Invariant(kind, name, formula))
    }

    /// The word of an invariant: `topology`, `safety` or `trans`.
    pub fn invariant_kind(&mut self, depth: usize) -> Result<InvariantKind, TextRefusal>
        ensures parses { Parses depth (part invariant_kind here) self.old self.new result }
        ensures shorter { OnOk result (length self.new + 1 ≤ length self.old) }
    {
        if self.next_is(Kind::Topology) {
            self.take(Kind::Topology, depth)?;
            Ok(InvariantKind::Topology)
        } else if self.next_is(Kind::Safety) {
            self.take(Kind::Safety, depth)?;
            Ok(InvariantKind::Safety)
        } else {
            self.take(Kind::Trans, depth)?;
            Ok(InvariantKind::Trans)
        }
    }

    /// `timeout number;`.
    pub fn timeout_item(&mut self, depth: usize) -> Result<RawItem, TextRefusal>
        ensures parses { Parses depth (part timeout_item here) self.old self.new result }
        ensures shorter { OnOk result (length self.new + 1 ≤ length self.old) }
    {
        let word = self.take(Kind::Timeout, depth)?;
        let number = self.take(Kind::Number, depth)?;
        self.take(Kind::Semicolon, depth)?;
        Ok(RawItem::Timeout(RawTimeout {
            at: word.at,
            seconds: number.number,
        }))
    }

    /// `pktIn(switch, source -> target, ingress) block`.
    pub fn handler_item(&mut self, alloc: Global, depth: usize) -> Result<RawItem, TextRefusal>
        requires { depth ≤ limit }
        ensures parses { Parses depth (part handler_item here) self.old self.new result }
        ensures shorter { OnOk result (length self.new + 1 ≤ length self.old) }
    {
        let word = self.take(Kind::PktIn, depth)?;
        self.take(Kind::Open, depth)?;
        let switch = self.name(alloc, depth)?;
        self.take(Kind::Comma, depth)?;
        let source = self.name(alloc, depth)?;
        self.take(Kind::Arrow, depth)?;
        let target = self.name(alloc, depth)?;
        self.take(Kind::Comma, depth)?;
        let ingress = self.handler_port(alloc, depth)?;
        self.take(Kind::Close, depth)?;
        let body = self.block(alloc, depth)?;
        Ok(RawItem::Handler(RawHandler {
            at: word.at,
            switch,
            source,
            target,
            ingress,
            body,
        }))
    }

    /// The port of a handler: a name, or `prt(number)`.
    pub fn handler_port(&mut self, alloc: Global, depth: usize) -> Result<RawPattern, TextRefusal>
        ensures parses { Parses depth (part handler_port here) self.old self.new result }
        ensures shorter { OnOk result (length self.new + 1 ≤ length self.old) }
    {
        if self.begins(Kind::Prt) {
            let port = self.port(depth)?;
            Ok(RawPattern::Port(port))
        } else {
            let name = self.name(alloc, depth)?;
            Ok(RawPattern::Any(name))
        }
    }

    /// `= {rows}`; a missing one is `= {}`.
    pub fn initial(&mut self, alloc: Global, depth: usize) -> Result<RawRows, TextRefusal>
        ensures parses { Parses depth (part initial here) self.old self.new result }
        ensures shorter { OnOk result (length self.new ≤ length self.old) }
    {
        if !self.next_is(Kind::Equals) {
            return Ok(Items::new(alloc));
        }
        self.take(Kind::Equals, depth)?;
        self.take(Kind::Begin, depth)?;
        let rows = self.rows(alloc, depth)?;
        self.take(Kind::End, depth)?;
        Ok(rows)
    }

    /// A program: an item or more.
    pub fn program(&mut self, alloc: Global, depth: usize) -> Result<RawProgram, TextRefusal>
        requires { depth ≤ limit }
        ensures { Parses depth (part program here) self.old self.new result }
    {
        let mut items = Items::new(alloc);
        let first = self.item(alloc, depth)?;
        items.push(first)?;
        'more: while self.begins_item() {
            let next = self.item(alloc, depth)?;
            items.push(next)?;
        }
        Ok(RawProgram { items })
    }
}
