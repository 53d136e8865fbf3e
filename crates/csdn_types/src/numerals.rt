//! The numerals of a program, rising and each once.
#![tactic(auto, using(crate::specs::Numerals::with_numeral_steps, csdn_tree::specs::NumeralSteps::numeral_steps, csdn_tree::specs::NodeSteps::raw_node_steps))]

ghost use Rattle.std.specs.Prelude.{◌≡◌, ◌++◌, [], OnOk, IfOk};
ghost use Rattle.csdn_types.specs.Numerals.{with_numeral, with_numerals};
ghost use Rattle.csdn_tree.specs.Numerals.{term_numerals, terms_numerals, flow_numerals, formula_numerals, command_numerals, port_numerals, rows_numerals, item_numerals, items_numerals};

use csdn_tree::names::RawTerm;
use csdn_tree::syntax::{RawCommand, RawFlow, RawFormula, RawItem, RawPattern, RawRow};
use sqlite_items::Items;
use std::alloc::{AllocError, Global};
use std::collections::BTreeSet;
use std::marker::Model;

/// The numerals found so far. Clauses see them as a list that rises, each once.
#[derive(Drop)]
pub struct Numerals {
    set: BTreeSet<u16>,
}

impl Model for Numerals {
    ghost use Rattle.std.specs.Prelude.{List, ℕ};

    ghost Value = { List ℕ };

    ghost view = { λ n. n.set.keys };
}

impl Numerals {
    /// No numerals.
    pub fn new(alloc: Global) -> Numerals
        ensures { result ≡ [] }
    {
        Numerals {
            set: BTreeSet::new(alloc),
        }
    }

    fn add(&mut self, number: u16) -> Result<(), AllocError>
        ensures { OnOk result (self.new ≡ with_numeral self.old number) }
    {
        self.set.insert(number)?;
        Ok(())
    }

    fn term(&mut self, raw: &RawTerm) -> Result<(), AllocError>
        ensures { OnOk result (self.new ≡ with_numerals self.old (term_numerals raw.now)) }
    {
        match raw {
            RawTerm::Name(_) => Ok(()),
            RawTerm::Port(numeral) => {
                self.add(numeral.number)?;
                Ok(())
            }
        }
    }

    fn terms(&mut self, raw: &[RawTerm]) -> Result<(), AllocError>
        ensures { OnOk result (self.new ≡ with_numerals self.old (terms_numerals raw.now)) }
    {
        for each in raw {
            self.term(each)?;
        }
        Ok(())
    }

    fn flow(&mut self, raw: &RawFlow) -> Result<(), AllocError>
        ensures { OnOk result (self.new ≡ with_numerals self.old (flow_numerals raw.now)) }
    {
        self.term(&raw.source)?;
        self.term(&raw.target)?;
        self.term(&raw.ingress)?;
        self.term(&raw.egress)?;
        Ok(())
    }

    /// Puts in the numerals of a formula.
    pub fn formula(&mut self, raw: &RawFormula) -> Result<(), AllocError>
        ensures { OnOk result (self.new ≡ with_numerals self.old (formula_numerals raw.now)) }
    {
        match raw {
            RawFormula::True => Ok(()),
            RawFormula::False => Ok(()),
            RawFormula::Atom(_, terms) => {
                self.terms(terms.as_slice())?;
                Ok(())
            }
            RawFormula::Same(left, right) => {
                self.term(left)?;
                self.term(right)?;
                Ok(())
            }
            RawFormula::Flow(_, _, terms) => {
                self.flow(terms)?;
                Ok(())
            }
            RawFormula::RcvThis(_, terms) => {
                self.term(&terms.source)?;
                self.term(&terms.target)?;
                self.term(&terms.ingress)?;
                Ok(())
            }
            RawFormula::Not(p) => {
                self.formula(p.get())?;
                Ok(())
            }
            RawFormula::Two(_, p, q) => {
                self.formula(p.get())?;
                self.formula(q.get())?;
                Ok(())
            }
            RawFormula::Bind(_, _, _, p) => {
                self.formula(p.get())?;
                Ok(())
            }
        }
    }

    /// Puts in the numerals of a command.
    pub fn command(&mut self, raw: &RawCommand) -> Result<(), AllocError>
        ensures { OnOk result (self.new ≡ with_numerals self.old (command_numerals raw.now)) }
    {
        match raw {
            RawCommand::Skip => Ok(()),
            RawCommand::Seq(a, b) => {
                self.command(a.get())?;
                self.command(b.get())?;
                Ok(())
            }
            RawCommand::If(p, a, b) => {
                self.formula(p.get())?;
                self.command(a.get())?;
                self.command(b.get())?;
                Ok(())
            }
            RawCommand::Pick(_, _, p, a, b) => {
                self.formula(p.get())?;
                self.command(a.get())?;
                self.command(b.get())?;
                Ok(())
            }
            RawCommand::Change(_, _, terms) => {
                self.terms(terms.as_slice())?;
                Ok(())
            }
            RawCommand::Switch(_, terms) => {
                self.flow(terms)?;
                Ok(())
            }
            RawCommand::Flood(terms) => {
                self.term(&terms.source)?;
                self.term(&terms.target)?;
                self.term(&terms.ingress)?;
                Ok(())
            }
        }
    }

    fn port(&mut self, raw: &RawPattern) -> Result<(), AllocError>
        ensures { OnOk result (self.new ≡ with_numerals self.old (port_numerals raw.now)) }
    {
        match raw {
            RawPattern::Any(_) => Ok(()),
            RawPattern::Port(numeral) => {
                self.add(numeral.number)?;
                Ok(())
            }
        }
    }

    fn rows(&mut self, raw: &[RawRow]) -> Result<(), AllocError>
        ensures { OnOk result (self.new ≡ with_numerals self.old (rows_numerals raw.now)) }
    {
        for each in raw {
            self.terms(each.terms.as_slice())?;
        }
        Ok(())
    }

    fn item(&mut self, raw: &RawItem) -> Result<(), AllocError>
        ensures { OnOk result (self.new ≡ with_numerals self.old (item_numerals raw.now)) }
    {
        match raw {
            RawItem::Relation(relation) => {
                self.rows(relation.rows.as_slice())?;
                Ok(())
            }
            RawItem::Constant(_, _) => Ok(()),
            RawItem::Invariant(_, _, formula) => {
                self.formula(formula)?;
                Ok(())
            }
            RawItem::Handler(handler) => {
                self.port(&handler.ingress)?;
                self.command(&handler.body)?;
                Ok(())
            }
            RawItem::Timeout(_) => Ok(()),
        }
    }

    /// Puts in the numerals of items: those of initial values, invariants and handlers, with the handlers' own ports.
    pub fn items(&mut self, raw: &[RawItem]) -> Result<(), AllocError>
        ensures { OnOk result (self.new ≡ with_numerals self.old (items_numerals raw.now)) }
    {
        for each in raw {
            self.item(each)?;
        }
        Ok(())
    }
}

fn listed(alloc: Global, set: &BTreeSet<u16>) -> Result<Vec<u16>, AllocError>
    ensures { IfOk result (λ v. v.items ≡ set.now.keys) }
{
    set.iter().copied().collect(alloc)
}

impl Numerals {
    /// The numerals, rising.
    pub fn to_items(&self, alloc: Global) -> Result<Items<u16>, AllocError>
        ensures { IfOk result (λ ns. ns ≡ self.now) }
    {
        let numbers = listed(alloc, &self.set)?;
        Ok(Items::from_vec(numbers))
    }
}

/// The numerals of the items, rising.
pub fn all_numerals(alloc: Global, raw: &[RawItem]) -> Result<Items<u16>, AllocError>
    ensures { IfOk result (λ ns. ns ≡ with_numerals [] (items_numerals raw.now)) }
{
    let mut found = Numerals::new(alloc);
    found.items(raw)?;
    let made = found.to_items(alloc)?;
    Ok(made)
}
