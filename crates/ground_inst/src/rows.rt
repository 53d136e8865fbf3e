//! Clauses while they are made.
ghost use Rattle.std.specs.Prelude.{◌≡◌, ◌+◌, ◌++◌, [], ◌∷◌, OnOk, OnErr, length};

use clause_log::{Clauses, Lit};
use std::alloc::{AllocError, Global};
use std::marker::Model;

/// A list of clauses, kept flat: 8 bytes a literal and 8 a clause. In contracts it is the list of their literals.
#[derive(Drop)]
pub struct Rows {
    literals: Vec<Lit>,
    ends: Vec<usize>,
}

impl Model for Rows {
    ghost use Rattle.std.specs.Prelude.{List, length};
    ghost use Rattle.clause_log.specs.Literals.{Literal};
    ghost use Rattle.clause_log.specs.Rows.{split, IsSplit};

    ghost Value = { List (List Literal) };

    ghost view = { λ r. split 0 r.ends.items r.literals.items };

    ghost invariant = { λ r. IsSplit 0 r.ends.items (length r.literals.items) };
}

impl Rows {
    ghost use Rattle.std.specs.Prelude.{◌≡◌, ◌<◌, ◌^◌, ◌++◌, [], ◌∷◌, IfOk, OnOk, true, length};
    ghost use Rattle.std.specs.List.{list_all};
    ghost use Rattle.clause_log.specs.Literals.{is_clause};

    /// No clauses. It takes no memory.
    pub fn new(alloc: Global) -> Rows
        ensures { result ≡ [] }
    {
        Rows {
            literals: Vec::new(alloc),
            ends: Vec::new(alloc),
        }
    }

    /// No clauses, and room for so many clauses and literals, which is taken once.
    pub fn with_room(alloc: Global, clauses: usize, literals: usize) -> Result<Rows, AllocError>
        ensures { IfOk result (λ rows. rows ≡ []) }
    {
        let literals = Vec::with_capacity(alloc, literals)?;
        let ends = Vec::with_capacity(alloc, clauses)?;
        Ok(Rows { literals, ends })
    }

    /// How many clauses there are.
    pub fn len(&self) -> usize
        ensures { result ≡ length self.now }
    {
        self.ends.len()
    }

    /// Appends the clause with these literals.
    pub fn push(&mut self, literals: &[Lit]) -> Result<(), AllocError>
        ensures { OnOk result (self.new ≡ self.old ++ literals.now ∷ []) }
    {
        append(&mut self.literals, &mut self.ends, literals)
    }

    /// The clauses, over the atoms from 1 to `atoms`. It takes no memory.
    pub fn into_clauses(self, atoms: u64) -> Clauses
        requires small { atoms < 2 ^ 62 }
        requires clauses { list_all (is_clause atoms) self ≡ true }
        ensures { result ≡ record { atoms = atoms; clauses = self } }
    {
        Clauses::of_rows(atoms, self.literals, self.ends)
    }
}

// Appends the literals and the place of their end; both or neither.
fn append(literals: &mut Vec<Lit>, ends: &mut Vec<usize>, clause: &[Lit]) -> Result<(), AllocError>
    ensures literals { OnOk result (literals.new.items ≡ literals.old.items ++ clause.now) }
    ensures ends { OnOk result (ends.new.items ≡ ends.old.items ++ (length literals.old.items + length clause.now) ∷ []) }
    ensures err { OnErr result (literals.new.items ≡ literals.old.items) }
    ensures err_ends { OnErr result (ends.new.items ≡ ends.old.items) }
{
    let start = literals.len();
    if literals.extend_from_slice(clause).is_err() {
        return Err(AllocError);
    }
    if ends.push(literals.len()).is_err() {
        literals.truncate(start);
        return Err(AllocError);
    }
    Ok(())
}
