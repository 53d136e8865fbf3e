//! Formulas, commands and items of texts.
use crate::names::{RawName, RawNumeral, RawTerm, RawTerms};
use csdn_core::program::Sorts;
use csdn_core::terms::Sort;
use sqlite_items::{Boxed, Items};

/// `switch.word(source -> target, ingress -> egress)`.
pub struct RawFlow {
    pub switch: RawName,
    pub source: RawTerm,
    pub target: RawTerm,
    pub ingress: RawTerm,
    pub egress: RawTerm,
}

impl Drop for RawFlow {
    fn drop(self) {
        let RawFlow {
            switch: _switch,
            source: _source,
            target: _target,
            ingress: _ingress,
            egress: _egress,
        } = self;
    }
}

/// `switch.word(source -> target, ingress)`.
pub struct RawPacket {
    pub switch: RawName,
    pub source: RawTerm,
    pub target: RawTerm,
    pub ingress: RawTerm,
}

impl Drop for RawPacket {
    fn drop(self) {
        let RawPacket {
            switch: _switch,
            source: _source,
            target: _target,
            ingress: _ingress,
        } = self;
    }
}

/// A built-in relation of five terms.
#[derive(Clone, Copy, Debug, PartialEq, Eq)]
pub enum FlowWord {
    Ft,
    Sent,
}

/// What joins two formulas.
#[derive(Clone, Copy)]
pub enum Connective {
    And,
    Or,
    /// `left -> right`.
    Implies,
    /// `left <-> right`.
    Iff,
}

/// Whether a name is bound by `forall` or by `exists`.
#[derive(Clone, Copy)]
pub enum Quantifier {
    All,
    Some,
}

/// A formula of a text, its names as they are written (docs/LANGUAGE.md).
#[derive(Drop)]
pub enum RawFormula {
    True,
    False,
    /// `name(terms)`.
    Atom(RawName, RawTerms),
    /// `left = right`.
    Same(RawTerm, RawTerm),
    /// `switch.ft(..)` or `switch.sent(..)`, with the place of that word.
    Flow(usize, FlowWord, RawFlow),
    /// `switch.rcv_this(..)`, with the place of that word.
    RcvThis(usize, RawPacket),
    Not(Boxed<RawFormula>),
    /// `left and right`, or another word between the two.
    Two(Connective, Boxed<RawFormula>, Boxed<RawFormula>),
    /// `forall name:sort. body` or `exists name:sort. body`.
    Bind(Quantifier, RawName, Sort, Boxed<RawFormula>),
}

/// What is done with a row of a relation.
#[derive(Clone, Copy)]
pub enum ChangeWord {
    Insert,
    Remove,
}

/// What a switch does with two hosts and two ports.
#[derive(Clone, Copy)]
pub enum SwitchWord {
    Install,
    Uninstall,
    Forward,
}

/// A command of a text, its names as they are written (docs/LANGUAGE.md).
#[derive(Drop)]
pub enum RawCommand {
    Skip,
    /// A command and all that follow it.
    Seq(Boxed<RawCommand>, Boxed<RawCommand>),
    /// Where no `else` is written, the last part is `Skip`.
    If(Boxed<RawFormula>, Boxed<RawCommand>, Boxed<RawCommand>),
    /// `pick name:sort where condition {first} else {second}`, with `Skip` where no `else` is written.
    Pick(RawName, Sort, Boxed<RawFormula>, Boxed<RawCommand>, Boxed<RawCommand>),
    /// `name.insert(terms)` or `name.remove(terms)`.
    Change(ChangeWord, RawName, RawTerms),
    /// `switch.install(..)`, or another word in its place.
    Switch(SwitchWord, RawFlow),
    Flood(RawPacket),
}

/// A row of an initial value, with the place of its `(`.
#[derive(Drop)]
pub struct RawRow {
    pub at: usize,
    pub terms: RawTerms,
}

/// The rows of an initial value, in the order of the text.
pub type RawRows = Items<RawRow>;

/// `static NAME(sorts);` or `rel NAME(sorts) = {rows};`.
pub struct RawRelation {
    pub name: RawName,
    pub sorts: Sorts,
    /// Whether it is `static`.
    pub fixed: bool,
    /// None where no initial value is written.
    pub rows: RawRows,
}

impl Drop for RawRelation {
    fn drop(self) {
        let RawRelation {
            name: _name,
            sorts: _sorts,
            fixed: _fixed,
            rows: _rows,
        } = self;
    }
}

/// The port of a handler: a variable, which fits every port, or one port.
pub enum RawPattern {
    Any(RawName),
    Port(RawNumeral),
}

impl Drop for RawPattern {
    fn drop(self) {
        match self {
            RawPattern::Any(_name) => {}
            RawPattern::Port(_port) => {}
        }
    }
}

/// `pktIn(switch, source -> target, ingress) {body}`.
pub struct RawHandler {
    /// Where `pktIn` stands.
    pub at: usize,
    pub switch: RawName,
    pub source: RawName,
    pub target: RawName,
    pub ingress: RawPattern,
    pub body: RawCommand,
}

impl Drop for RawHandler {
    fn drop(self) {
        let RawHandler {
            at: _at,
            switch: _switch,
            source: _source,
            target: _target,
            ingress: _ingress,
            body: _body,
        } = self;
    }
}

/// The three kinds of invariants.
#[derive(Clone, Copy, Debug, PartialEq, Eq)]
pub enum InvariantKind {
    Topology,
    Safety,
    Trans,
}

/// `timeout seconds;`, and where its word `timeout` stands.
#[derive(Clone, Copy)]
pub struct RawTimeout {
    pub at: usize,
    /// From 1 to 65,280.
    pub seconds: u16,
}

/// An item of a text: a declaration, an invariant, a handler or a timeout (docs/LANGUAGE.md).
pub enum RawItem {
    Relation(RawRelation),
    /// `const name:sort;`.
    Constant(RawName, Sort),
    /// An invariant of a kind, its name and its formula.
    Invariant(InvariantKind, RawName, RawFormula),
    Handler(RawHandler),
    Timeout(RawTimeout),
}

impl Drop for RawItem {
    fn drop(self) {
        match self {
            RawItem::Relation(_relation) => {}
            RawItem::Constant(_name, _sort) => {}
            RawItem::Invariant(_kind, _name, _formula) => {}
            RawItem::Handler(_handler) => {}
            RawItem::Timeout(_timeout) => {}
        }
    }
}

/// The items of a text, in their order.
pub type RawItems = Items<RawItem>;

/// The tree of a program's text.
pub struct RawProgram {
    pub items: RawItems,
}

impl Drop for RawProgram {
    fn drop(self) {
        let RawProgram { items: _items } = self;
    }
}
