//! Numbered clauses over the atoms from 1 to a greatest one.

ghost use Rattle.std.specs.Prelude.{◌≡◌, ◌<◌, ◌^◌, ◌++◌, [], ◌∷◌, OnOk, OnErr, length, true};

use crate::lit::Lit;
use crate::rows::{append, row_of};
use std::alloc::{AllocError, Global};
use std::marker::Model;

/// A list of clauses over the atoms from 1 to `atoms`; each clause has literals of distinct atoms.
///
/// It is kept flat: 8 bytes a literal and 8 a clause. In contracts it is `atoms` and the list of the
/// clauses' literals. Clauses are numbered from 1, and stand at places from 0.
#[derive(Drop)]
pub struct Clauses {
    atoms: u64,
    literals: Vec<Lit>,
    ends: Vec<usize>,
}

impl Model for Clauses {
    ghost use Rattle.clause_log.specs.Literals.{ClauseList};
    ghost use Rattle.clause_log.specs.Rows.{split, AreFlatClauses};

    ghost Value = { ClauseList };

    ghost view = { λ c. record { atoms = c.atoms; clauses = split 0 c.ends.items c.literals.items } };

    ghost invariant = { λ c. AreFlatClauses c.atoms c.ends.items c.literals.items };
}

impl Clauses {
    ghost use Rattle.std.specs.Prelude.{◌≡◌, ◌<◌, ◌^◌, [], ◌∷◌, ◌++◌, IfOk, OnOk, OnErr, length, true, slice_index_or};
    ghost use Rattle.std.specs.List.{list_all};
    ghost use Rattle.clause_log.specs.Literals.{is_clause};
    ghost use Rattle.clause_log.specs.Rows.{split, AreFlatClauses};

    /// No clauses, over the atoms from 1 to `atoms`.
    pub fn try_new(alloc: Global, atoms: u64) -> Result<Clauses, AllocError>
        requires { atoms < 2 ^ 62 }
        ensures { IfOk result (λ c. c ≡ record { atoms = atoms; clauses = [] }) }
    {
        Ok(Clauses {
            atoms,
            literals: Vec::new(alloc),
            ends: Vec::new(alloc),
        })
    }

    /// The clauses whose literals stand one after the other in `literals`, each up to its place in `ends`. It takes no memory
    /// and copies nothing.
    pub fn of_rows(atoms: u64, literals: Vec<Lit>, ends: Vec<usize>) -> Clauses
        requires { AreFlatClauses atoms ends.items literals.items }
        ensures { result ≡ record { atoms = atoms; clauses = split 0 ends.items literals.items } }
    {
        Clauses {
            atoms,
            literals,
            ends,
        }
    }

    /// Appends the clause with these literals. Nothing is changed on want of memory.
    pub fn push(&mut self, lits: &[Lit]) -> Result<(), AllocError>
        requires { is_clause self.old.atoms lits.now ≡ true }
        ensures ok { OnOk result (self.new ≡ record self.old { clauses = self.old.clauses ++ lits.now ∷ [] }) }
        ensures err { OnErr result (self.new ≡ self.old) }
    {
        append(&mut self.literals, &mut self.ends, lits)
    }

    /// The greatest number of an atom.
    pub fn atoms(&self) -> u64
        ensures value { result ≡ self.now.atoms }
        ensures small { result < 2 ^ 62 }
        ensures clauses { list_all (is_clause self.now.atoms) self.now.clauses ≡ true }
    {
        self.atoms
    }

    /// How many clauses there are.
    pub fn len(&self) -> usize
        ensures { result ≡ length self.now.clauses }
    {
        self.ends.len()
    }

    /// The literals of the clause at this place.
    pub fn clause(&self, at: usize) -> &[Lit]
        requires { at < length self.now.clauses }
        ensures { result.now ≡ slice_index_or self.now.clauses at [] }
    {
        row_of(&self.literals, &self.ends, at)
    }
}
