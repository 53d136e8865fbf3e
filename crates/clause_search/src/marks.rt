//! Marks on the atoms that a conflict rests on.

ghost use Rattle.std.specs.Prelude.{◌≡◌, []};
ghost use Rattle.clause_search.specs.Cuts.{mark_of, IsListed};

use crate::table::{put, replace};
use clause_log::Lit;
use std::alloc::{AllocError, Global};
use std::marker::Model;

/// What an atom is to a conflict.
#[derive(Clone, Copy, Debug)]
pub enum Mark {
    /// The conflict was not seen to rest on it.
    Unseen,
    /// The conflict rests on its value.
    Open,
    /// The conflict rests on what forced its value, and so on others in its place.
    Resolved,
}

/// A mark for each atom, and a literal of each atom that has been seen.
///
/// In contracts it is a function from atoms to marks, with the list of these literals.
#[derive(Drop)]
pub struct Marks {
    table: Vec<Mark>,
    seen: Vec<Lit>,
}

impl Model for Marks {
    ghost use Rattle.clause_search.specs.Cuts.{Marking, mark_of, IsListed};

    ghost Value = { Marking };

    ghost view = { λ m. record { marks = m.table.items; seen = m.seen.items } };

    ghost invariant = { λ m. IsListed (mark_of (record { marks = m.table.items; seen = m.seen.items })) m.seen.items };
}

impl Marks {
    ghost use Rattle.std.specs.Prelude.{◌≡◌, [], ℕ, OnOk, true};
    ghost use Rattle.clause_search.specs.declared.marks.Mark.TheVariants.{Unseen, Open, Resolved};
    ghost use Rattle.clause_search.specs.Cuts.{mark_of, marked, nothing_seen, is_open, is_unseen, IsListed};

    /// Marks of no atom.
    pub fn new(alloc: Global) -> Marks
        ensures { result ≡ record { marks = []; seen = [] } }
    {
        Marks {
            table: Vec::new(alloc),
            seen: Vec::new(alloc),
        }
    }

    /// The atom's mark.
    pub fn mark(&self, atom: u64) -> Mark
        ensures { result ≡ mark_of self.now atom }
    {
        match self.table.get(atom as usize) {
            Some(mark) => *mark,
            None => Mark::Unseen,
        }
    }

    /// Whether the atom's mark is `Open`.
    pub fn is_open(&self, atom: u64) -> bool
        ensures { result ≡ is_open (mark_of self.now atom) }
    {
        match self.mark(atom) {
            Mark::Open => true,
            _ => false,
        }
    }

    /// Whether the atom's mark is `Unseen`, as that of an atom without one is.
    pub fn is_unseen(&self, atom: u64) -> bool
        ensures { result ≡ is_unseen (mark_of self.now atom) }
    {
        match self.mark(atom) {
            Mark::Unseen => true,
            _ => false,
        }
    }

    /// Opens the atom of a literal that has not been seen.
    pub fn open(&mut self, l: Lit) -> Result<(), AllocError>
        requires { is_unseen (mark_of self.old l.atom) ≡ true }
        ensures marks { OnOk result ((a : ℕ) → mark_of self.new a ≡ marked l.atom Open (mark_of self.old) a) }
    {
        if self.seen.push(l).is_err() {
            return Err(AllocError);
        }
        if put(&mut self.table, l.atom() as usize, Mark::Open, Mark::Unseen).is_err() {
            self.seen.pop();
            return Err(AllocError);
        }
        Ok(())
    }

    /// Marks an open atom as resolved.
    pub fn resolve(&mut self, atom: u64)
        requires { is_open (mark_of self.old atom) ≡ true }
        ensures { (a : ℕ) → mark_of self.new a ≡ marked atom Resolved (mark_of self.old) a }
    {
        replace(&mut self.table, atom as usize, Mark::Resolved, Mark::Unseen);
    }

    /// A literal of each atom that has been seen, in the order in which they were.
    pub fn seen(&self) -> &[Lit]
        ensures value { result.now ≡ self.now.seen }
        ensures listed { IsListed (mark_of self.now) self.now.seen }
    {
        &self.seen
    }

    /// Takes all marks away; it costs as many steps as atoms were seen.
    pub fn clear(&mut self)
        ensures { (a : ℕ) → mark_of self.new a ≡ nothing_seen a }
    {
        clear_all(&mut self.table, &mut self.seen);
    }
}

fn clear_all(table: &mut Vec<Mark>, seen: &mut Vec<Lit>)
    requires { IsListed (mark_of (record { marks = table.old.items; seen = seen.old.items })) seen.old.items }
    ensures listed { IsListed (mark_of (record { marks = table.new.items; seen = seen.new.items })) seen.new.items }
    ensures seen { seen.new.items ≡ [] }
{
    'seen: while let Some(l) = seen.pop() {
        replace(table, l.atom() as usize, Mark::Unseen, Mark::Unseen);
    }
}
