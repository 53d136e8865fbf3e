//! Programs.
ghost use Rattle.std.specs.Prelude.{◌≡◌, IfOk};
ghost use Rattle.csdn_core.specs.WellSorted.{IsWellSorted};

use crate::copies::copy_each;
use crate::syntax::{Command, Formula};
use crate::terms::{RelId, Sort, Terms, VarId};
use sqlite_items::Items;
use std::alloc::{AllocError, Global};
use std::marker::Model;

/// The bytes of a name.
pub type Text = Items<u8>;

/// The sorts of a relation's arguments, in their order.
pub type Sorts = Items<Sort>;

/// The relations that a program declares, in the order of its text. A `RelId` is a place in it.
pub type Relations = Items<Relation>;

/// The constants that a program declares, in the order of its text. A `ConstId` is a place in it.
pub type Constants = Items<Constant>;

/// The tuples that relations have at the start, in the order of the text.
pub type StartRows = Items<StartRow>;

/// Invariants of one kind, in the order of the text.
pub type Invariants = Items<Invariant>;

/// The handlers of a program, in the order of the text: a packet is handled by the first that fits its port.
pub type Handlers = Items<Handler>;

/// The k of all `prt(k)` of a program, rising and each once.
pub type Numerals = Items<u16>;

/// What is done with a packet that comes in.
pub struct Handler {
    /// The port that it is for; `None` for every port.
    pub port: Option<u16>,
    /// Stands for the switch.
    pub s: VarId,
    /// Stands for the source.
    pub a: VarId,
    /// Stands for the destination.
    pub b: VarId,
    /// Stands for the ingress port.
    pub i: VarId,
    pub body: Command,
}

impl Drop for Handler {
    fn drop(self) {
        let Handler {
            port: _,
            s: _,
            a: _,
            b: _,
            i: _,
            body: _body,
        } = self;
    }
}

/// A declared relation.
#[derive(Drop)]
pub struct Relation {
    pub name: Text,
    /// At most five.
    pub sorts: Sorts,
    /// Whether it is `static`: it belongs to the network, and no command writes it.
    pub fixed: bool,
}

/// A declared constant.
#[derive(Drop)]
pub struct Constant {
    pub name: Text,
    pub sort: Sort,
}

/// An invariant and its name.
pub struct Invariant {
    pub name: Text,
    pub formula: Formula,
}

impl Drop for Invariant {
    fn drop(self) {
        let Invariant {
            name: _name,
            formula: _formula,
        } = self;
    }
}

/// A tuple that a relation has at the start.
#[derive(Drop)]
pub struct StartRow {
    pub rel: RelId,
    pub terms: Terms,
}

/// The parts of a program, each in the order of its text.
pub struct Parts {
    pub relations: Relations,
    pub constants: Constants,
    pub start: StartRows,
    /// What networks meet.
    pub topology: Invariants,
    /// What is true in every state.
    pub safety: Invariants,
    /// What is true after every event, of its packet.
    pub trans: Invariants,
    pub handlers: Handlers,
    /// All k with `prt(k)` in the program, rising and each once.
    pub numerals: Numerals,
    /// After how many seconds without a packet the flow rules of a match end; `None` where they stay.
    pub timeout: Option<u16>,
}

impl Drop for Parts {
    fn drop(self) {
        let Parts {
            relations: _relations,
            constants: _constants,
            start: _start,
            topology: _topology,
            safety: _safety,
            trans: _trans,
            handlers: _handlers,
            numerals: _numerals,
            timeout: _,
        } = self;
    }
}

impl Parts {
    /// Equal parts.
    pub fn copy(&self, alloc: Global) -> Result<Parts, AllocError>
        ensures { IfOk result (λ parts. parts ≡ self.now) }
    {
        Ok(Parts {
            relations: copy_each(alloc, self.relations.as_slice())?,
            constants: copy_each(alloc, self.constants.as_slice())?,
            start: copy_each(alloc, self.start.as_slice())?,
            topology: copy_each(alloc, self.topology.as_slice())?,
            safety: copy_each(alloc, self.safety.as_slice())?,
            trans: copy_each(alloc, self.trans.as_slice())?,
            handlers: copy_each(alloc, self.handlers.as_slice())?,
            numerals: Items::from_slice(alloc, self.numerals.as_slice())?,
            timeout: self.timeout,
        })
    }
}

/// A program: parts that keep every rule on names, sorts and limits. Clauses see it as its parts.
#[derive(Drop)]
pub struct Program {
    parts: Parts,
}

impl Model for Program {
    ghost use Rattle.csdn_core.specs.WellSorted.{IsWellSorted};
    ghost use Rattle.csdn_core.specs.declared.program.Parts.{Parts};
    ghost use Rattle.csdn_core.specs.contracts.syntax.Formula as formula;
    ghost use Rattle.csdn_core.specs.contracts.syntax.Command as command;
    ghost use Rattle.std.specs.Coded.{codes};

    ghost Value = { Parts };

    ghost coded = { Prim.hlevel (codes, formula.the_row.coded, command.the_row.coded) };

    ghost view = { λ p. p.parts };

    ghost invariant = { λ p. IsWellSorted p.parts };
}

impl Program {
    /// The program of these parts. It takes no memory.
    pub fn seal(parts: Parts) -> Program
        requires { IsWellSorted parts }
        ensures { result ≡ parts }
    {
        Program { parts }
    }

    /// The parts that it was made of.
    pub fn parts(&self) -> &Parts
        ensures value { result.now ≡ self.now }
        ensures well_sorted { IsWellSorted self.now }
    {
        &self.parts
    }

    /// An equal program.
    pub fn copy(&self, alloc: Global) -> Result<Program, AllocError>
        ensures { IfOk result (λ program. program ≡ self.now) }
    {
        let parts = self.parts.copy(alloc)?;
        Ok(Program { parts })
    }

    /// The ports that the program names, rising and each once.
    pub fn numerals(&self) -> &[u16]
        ensures { result.now ≡ self.now.numerals }
    {
        self.parts.numerals.as_slice()
    }
}
