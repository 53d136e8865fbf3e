//! What names stand for.
ghost use Rattle.std.specs.Prelude.{◌≡◌, ◌<◌, ◌≤◌, ◌^◌, ◌+◌, ◌-◌, [], ◌∷◌, ◌++◌, length, OnOk, IfOk, IfSome, Some, find, option_map, take, slice_get, is_some, false, position, map};
ghost use Rattle.std.specs.Str.{bytes_eq};
ghost use Rattle.std.specs.Option.{option_copied};

use crate::names::Names;
use csdn_core::program::{Constant, Relation, Text};
use csdn_core::terms::{ConstId, RelId, Sort, Term, VarId};
use csdn_tree::names::{RawName, RawTerm};
use csdn_tree::syntax::RawRelation;
use sqlite_items::Items;
use std::alloc::{AllocError, Global};
use std::marker::Model;

/// What a name stands for, and its sort.
#[derive(Clone, Copy)]
pub struct SortedTerm {
    pub term: Term,
    pub sort: Sort,
}

/// A variable in scope. The name is empty where no name stands for it.
#[derive(Drop)]
pub struct Variable {
    pub name: Text,
    pub sort: Sort,
    pub var: VarId,
}

/// The declarations so far, and the variables in scope.
pub struct Scope {
    relation_names: Names,
    relations: Items<Relation>,
    constant_names: Names,
    constants: Items<Constant>,
    variables: Items<Variable>,
    next: u32,
}

impl Drop for Scope {
    fn drop(self) {
        let Scope {
            relation_names: _relation_names,
            relations: _relations,
            constant_names: _constant_names,
            constants: _constants,
            variables: _variables,
            next: _next,
        } = self;
    }
}

impl Model for Scope {
    ghost use Rattle.std.specs.Prelude.{◌≡◌, ◌≤◌, ◌^◌, map, length, All};
    ghost use Rattle.csdn_types.specs.Scope.{Scope as Seen};

    ghost Value = { Seen };

    ghost view = { λ s. record { relations = s.relations; constants = s.constants; variables = s.variables; next = s.next } };

    ghost invariant = { λ s. (s.relation_names ≡ map (λ r. r.name) s.relations) × (s.constant_names ≡ map (λ d. d.name) s.constants) × (length s.relations ≤ 2 ^ 16) × (length s.constants ≤ 2 ^ 16) × All (λ r. length r.sorts ≤ 5) s.relations };
}

/// What a program declares.
#[derive(Drop)]
pub struct Declared {
    pub relations: Items<Relation>,
    pub constants: Items<Constant>,
}

impl Scope {
    /// Nothing is declared or in scope, and the first variable gets the number 0.
    pub fn new(alloc: Global) -> Scope
        ensures { result ≡ record { relations = []; constants = []; variables = []; next = 0 } }
    {
        Scope {
            relation_names: Names::new(alloc),
            relations: Items::new(alloc),
            constant_names: Names::new(alloc),
            constants: Items::new(alloc),
            variables: Items::new(alloc),
            next: 0,
        }
    }

    /// What is declared, in the order of its declaration.
    pub fn into_declared(self) -> Declared
        ensures { result ≡ record { relations = self.relations; constants = self.constants } }
    {
        let Scope {
            relation_names: _,
            relations,
            constant_names: _,
            constants,
            variables: _,
            next: _,
        } = self;
        Declared {
            relations,
            constants,
        }
    }

    ghost use Rattle.csdn_types.specs.Scope.{relation_named, named, meaning, bound, with_relation, with_constant};
    ghost use Rattle.csdn_core.specs.Sorted.{most_numbers};

    /// The declared relation of a name; `None` where there is none.
    pub fn relation(&self, name: &[u8]) -> Option<RelId>
        ensures value { option_map (λ r. r.0) result ≡ relation_named self.now name.now }
        ensures within { IfSome result (λ r. r.0 < length self.now.relations) }
    {
        let at = self.relation_names.place(name)?;
        Some(RelId(at as u32))
    }

    /// Whether a relation of the name is declared.
    pub fn is_relation(&self, name: &[u8]) -> bool
        ensures { result ≡ is_some (relation_named self.now name.now) }
    {
        self.relation_names.place(name).is_some()
    }

    /// How many relations are declared: at most 2^16.
    pub fn relation_count(&self) -> usize
        ensures count { result ≡ length self.now.relations }
        ensures few { result ≤ 2 ^ 16 }
    {
        self.relations.len()
    }

    /// The declared relation at a place. It has at most five sorts.
    pub fn declaration(&self, id: RelId) -> &Relation
        requires { id.0 < length self.now.relations }
        ensures value { slice_get self.now.relations id.0 ≡ Some result.now }
        ensures few { length result.now.sorts ≤ 5 }
    {
        let relations = self.relations.as_slice();
        &relations[id.0 as usize]
    }

    /// What a name stands for, and its sort: a variable in scope, or else a constant; `None` where it is neither.
    pub fn named(&self, name: &[u8]) -> Option<SortedTerm>
        ensures { result ≡ named self.now name.now }
    {
        if let Some(known) = variable_named(self.variables.as_slice(), name) {
            return Some(known);
        }
        let at = self.constant_names.place(name)?;
        let constants = self.constants.as_slice();
        let sort = constants[at].sort;
        Some(SortedTerm {
            term: Term::Const(ConstId(at as u32)),
            sort,
        })
    }

    /// What a term stands for, and its sort: for `prt(k)` the port k, and `None` where its name stands for nothing.
    pub fn meaning(&self, term: &RawTerm) -> Option<SortedTerm>
        ensures { result ≡ meaning self.now term.now }
    {
        match term {
            RawTerm::Name(name) => self.named(name.text.as_slice()),
            RawTerm::Port(numeral) => Some(SortedTerm {
                term: Term::Port(numeral.number),
                sort: Sort::Pr,
            }),
        }
    }

    /// How many variables are in scope.
    pub fn depth(&self) -> usize
        ensures { result ≡ length self.now.variables }
    {
        self.variables.len()
    }

    /// Brings a variable into scope, with the next number.
    pub fn bind(&mut self, alloc: Global, name: &RawName, sort: Sort) -> Result<VarId, AllocError>
        requires { self.old.next < most_numbers }
        ensures var { IfOk result (λ v. v.0 ≡ self.old.next) }
        ensures bound { OnOk result (self.new ≡ bound self.old name.now sort) }
    {
        let text = Items::from_slice(alloc, name.text.as_slice())?;
        let var = VarId(self.next);
        self.variables.push(Variable {
            name: text,
            sort,
            var,
        })?;
        self.next += 1;
        Ok(var)
    }

    /// Brings a variable into scope that no name stands for.
    pub fn bind_hidden(&mut self, alloc: Global, sort: Sort) -> Result<VarId, AllocError>
        requires { self.old.next < most_numbers }
        ensures var { IfOk result (λ v. v.0 ≡ self.old.next) }
        ensures bound { OnOk result (self.new ≡ bound self.old (record { at = 0; text = [] }) sort) }
    {
        let var = VarId(self.next);
        self.variables.push(Variable {
            name: Items::new(alloc),
            sort,
            var,
        })?;
        self.next += 1;
        Ok(var)
    }

    /// Declares a relation.
    pub fn declare(&mut self, alloc: Global, raw: &RawRelation) -> Result<RelId, AllocError>
        requires new { is_some (relation_named self.old raw.now.name.text) ≡ false }
        requires few { length raw.now.sorts ≤ 5 }
        requires room { length self.old.relations < 2 ^ 16 }
        ensures id { IfOk result (λ r. r.0 ≡ length self.old.relations) }
        ensures declared { OnOk result (self.new ≡ with_relation self.old raw.now) }
    {
        let name = Items::from_slice(alloc, raw.name.text.as_slice())?;
        let sorts = Items::from_slice(alloc, raw.sorts.as_slice())?;
        let id = RelId(self.relations.len() as u32);
        self.relations.push(Relation {
            name,
            sorts,
            fixed: raw.fixed,
        })?;
        match self.relation_names.add(raw.name.text.as_slice()) {
            Ok(()) => Ok(id),
            Err(error) => {
                let _last = self.relations.pop();
                Err(error)
            }
        }
    }

    /// Whether a constant of the name is declared.
    pub fn is_constant(&self, name: &[u8]) -> bool
        ensures { result ≡ is_some (position (bytes_eq name.now) (map (λ d. d.name) self.now.constants)) }
    {
        self.constant_names.place(name).is_some()
    }

    /// How many constants are declared: at most 2^16.
    pub fn constant_count(&self) -> usize
        ensures count { result ≡ length self.now.constants }
        ensures few { result ≤ 2 ^ 16 }
    {
        self.constants.len()
    }

    /// Declares a constant.
    pub fn declare_constant(
        &mut self,
        alloc: Global,
        name: &RawName,
        sort: Sort,
    ) -> Result<(), AllocError>
        requires new { is_some (position (bytes_eq name.now.text) (map (λ d. d.name) self.old.constants)) ≡ false }
        requires room { length self.old.constants < 2 ^ 16 }
        ensures declared { OnOk result (self.new ≡ with_constant self.old name.now sort) }
    {
        let text = Items::from_slice(alloc, name.text.as_slice())?;
        self.constants.push(Constant { name: text, sort })?;
        match self.constant_names.add(name.text.as_slice()) {
            Ok(()) => Ok(()),
            Err(error) => {
                let _last = self.constants.pop();
                Err(error)
            }
        }
    }

    /// Ends the scope of the variable that came last.
    pub fn leave(&mut self)
        ensures { self.new ≡ record self.old { variables = take (length self.old.variables - 1) self.old.variables } }
    {
        let _last = self.variables.pop();
    }
}

fn variable_named(variables: &[Variable], name: &[u8]) -> Option<SortedTerm>
    ensures { result ≡ variable_of variables.now name.now }
{
    for variable in variables {
        if name == variable.name.as_slice() {
            return Some(SortedTerm {
                term: Term::Var(variable.var),
                sort: variable.sort,
            });
        }
    }
    None
}

ghost use Rattle.csdn_types.specs.Scope.{variable_named as variable_of};
