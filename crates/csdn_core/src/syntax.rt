//! Formulas and commands.
ghost use Rattle.std.specs.Prelude.{◌≡◌, IfOk};

use crate::terms::{Pred, RelId, Sort, Term, Terms, VarId};
use sqlite_items::Boxed;
use std::alloc::{AllocError, Global};

/// A first-order formula over a program's relations. A quantifier runs over the elements of its sort.
#[derive(Drop)]
pub enum Formula {
    True,
    False,
    Atom(Pred, Terms),
    /// Two terms stand for one element.
    Same(Term, Term),
    Not(Boxed<Formula>),
    And(Boxed<Formula>, Boxed<Formula>),
    Or(Boxed<Formula>, Boxed<Formula>),
    Implies(Boxed<Formula>, Boxed<Formula>),
    Iff(Boxed<Formula>, Boxed<Formula>),
    Forall(VarId, Sort, Boxed<Formula>),
    Exists(VarId, Sort, Boxed<Formula>),
}

/// What a handler does.
#[derive(Drop)]
pub enum Command {
    Skip,
    /// The first command, then the second.
    Seq(Boxed<Command>, Boxed<Command>),
    /// The first command where the formula is true, else the second.
    If(Boxed<Formula>, Boxed<Command>, Boxed<Command>),
    /// The first command with the variable standing for an element of the sort for which the formula is true; the second
    /// where there is none.
    Pick(VarId, Sort, Boxed<Formula>, Boxed<Command>, Boxed<Command>),
    /// Puts terms into a declared relation.
    Insert(RelId, Terms),
    /// Takes terms out of a declared relation.
    Remove(RelId, Terms),
    /// Puts five terms into the flow tables.
    Install(Terms),
    /// Takes five terms out of the flow tables.
    Uninstall(Terms),
    /// Puts five terms into the packets sent.
    Forward(Terms),
    /// Sends the packet of four terms from every port but its own.
    Flood(Terms),
}

impl Formula {
    /// An equal formula.
    #[cycle(formula_copies)]
    pub fn copy(&self, alloc: Global) -> Result<Formula, AllocError>
        ensures { IfOk result (λ p. p ≡ self.now) }
    {
        Ok(match self {
            Formula::True => Formula::True,
            Formula::False => Formula::False,
            Formula::Atom(pred, terms) => Formula::Atom(*pred, terms.copy()),
            Formula::Same(t, u) => Formula::Same(*t, *u),
            Formula::Not(p) => Formula::Not(p.get().copy_boxed(alloc)?),
            Formula::And(p, q) => {
                Formula::And(p.get().copy_boxed(alloc)?, q.get().copy_boxed(alloc)?)
            }
            Formula::Or(p, q) => {
                Formula::Or(p.get().copy_boxed(alloc)?, q.get().copy_boxed(alloc)?)
            }
            Formula::Implies(p, q) => {
                Formula::Implies(p.get().copy_boxed(alloc)?, q.get().copy_boxed(alloc)?)
            }
            Formula::Iff(p, q) => {
                Formula::Iff(p.get().copy_boxed(alloc)?, q.get().copy_boxed(alloc)?)
            }
            Formula::Forall(v, sort, p) => Formula::Forall(*v, *sort, p.get().copy_boxed(alloc)?),
            Formula::Exists(v, sort, p) => Formula::Exists(*v, *sort, p.get().copy_boxed(alloc)?),
        })
    }

    #[cycle(formula_copies)]
    fn copy_boxed(&self, alloc: Global) -> Result<Boxed<Formula>, AllocError>
        ensures { IfOk result (λ p. p ≡ self.now) }
    {
        Boxed::new(alloc, self.copy(alloc)?)
    }
}

impl Command {
    /// An equal command.
    #[cycle(command_copies)]
    pub fn copy(&self, alloc: Global) -> Result<Command, AllocError>
        ensures { IfOk result (λ c. c ≡ self.now) }
    {
        Ok(match self {
            Command::Skip => Command::Skip,
            Command::Seq(a, b) => {
                Command::Seq(a.get().copy_boxed(alloc)?, b.get().copy_boxed(alloc)?)
            }
            Command::If(p, a, b) => Command::If(
                p.get().copy_boxed(alloc)?,
                a.get().copy_boxed(alloc)?,
                b.get().copy_boxed(alloc)?,
            ),
            Command::Pick(v, sort, p, a, b) => Command::Pick(
                *v,
                *sort,
                p.get().copy_boxed(alloc)?,
                a.get().copy_boxed(alloc)?,
                b.get().copy_boxed(alloc)?,
            ),
            Command::Insert(rel, terms) => Command::Insert(*rel, terms.copy()),
            Command::Remove(rel, terms) => Command::Remove(*rel, terms.copy()),
            Command::Install(terms) => Command::Install(terms.copy()),
            Command::Uninstall(terms) => Command::Uninstall(terms.copy()),
            Command::Forward(terms) => Command::Forward(terms.copy()),
            Command::Flood(terms) => Command::Flood(terms.copy()),
        })
    }

    #[cycle(command_copies)]
    fn copy_boxed(&self, alloc: Global) -> Result<Boxed<Command>, AllocError>
        ensures { IfOk result (λ c. c ≡ self.now) }
    {
        Boxed::new(alloc, self.copy(alloc)?)
    }
}
