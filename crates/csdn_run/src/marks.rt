//! Marks: a number for each match.
ghost use Rattle.std.specs.Prelude.{◌≡◌, [], ◌∷◌, true, IfOk, OnOk, OnErr};
ghost use Rattle.std.specs.List.{list_all};
ghost use Rattle.csdn_core.specs.declared.event.Match.{Match as AnyMatch};
ghost use Rattle.csdn_run.specs.Marked.{has_room, mark_of};
ghost use Rattle.csdn_run.specs.Standings.{with_marks};

use crate::key::Key;
use csdn_core::event::Match;
use std::alloc::{AllocError, Global};
use std::collections::BTreeMap;

/// A number for each match, 0 where none was set.
#[derive(Drop)]
pub struct Marks {
    numbers: BTreeMap<Key, u64>,
}

impl Marks {
    /// No marks.
    pub fn try_new(alloc: Global) -> Result<Marks, AllocError>
        ensures { IfOk result (λ marks. mark_of marks ≡ (λ m. 0)) }
    {
        Ok(Marks {
            numbers: BTreeMap::new(alloc),
        })
    }

    /// The mark of a match. It takes log n steps, and no memory.
    pub fn get(&self, key: &Match) -> u64
        ensures { result ≡ mark_of self.now key.now }
    {
        match self.numbers.get(&Key::of(key)) {
            Some(number) => *number,
            None => 0,
        }
    }

    /// Sets the mark of a match; all other marks are unchanged, and all are where memory runs out. It takes log n steps.
    pub fn set(&mut self, key: &Match, number: u64) -> Result<(), AllocError>
        ensures marks { OnOk result (mark_of self.new ≡ with_marks (mark_of self.old) (key.now ∷ []) number) }
        ensures err { OnErr result (mark_of self.new ≡ mark_of self.old) }
    {
        self.numbers.insert(Key::of(key), number)?;
        Ok(())
    }

    /// Takes the memory that the mark of a match wants. No mark is changed.
    pub(crate) fn make_room(&mut self, key: &Match) -> Result<(), AllocError>
        ensures same { mark_of self.new ≡ mark_of self.old }
        ensures room { OnOk result (has_room self.new key.now ≡ true) }
        ensures others { (m : AnyMatch) → has_room self.old m ≡ true → has_room self.new m ≡ true }
    {
        let number = self.get(key);
        self.numbers.insert(Key::of(key), number)?;
        Ok(())
    }

    /// Sets the mark of a match for which there is memory.
    pub(crate) fn put(&mut self, key: &Match, number: u64)
        requires { has_room self.old key.now ≡ true }
        ensures marks { mark_of self.new ≡ with_marks (mark_of self.old) (key.now ∷ []) number }
        ensures others { (m : AnyMatch) → has_room self.old m ≡ true → has_room self.new m ≡ true }
    {
        match self.numbers.insert(Key::of(key), number) {
            Ok(_) => {}
            // only a new key wants memory
            Err(_) => {}
        }
    }
}

/// Takes the memory that the marks of these matches want. No mark is changed.
pub(crate) fn make_rooms(marks: &mut Marks, keys: &[Match]) -> Result<(), AllocError>
    ensures same { mark_of marks.new ≡ mark_of marks.old }
    ensures room { OnOk result (list_all (has_room marks.new) keys.now ≡ true) }
{
    let mut rest = keys;
    'keys: while let [key, more @ ..] = rest {
        marks.make_room(key)?;
        rest = more;
    }
    Ok(())
}

/// Sets the marks of matches for which there is memory.
pub(crate) fn put_each(marks: &mut Marks, keys: &[Match], number: u64)
    requires { list_all (has_room marks.old) keys.now ≡ true }
    ensures { mark_of marks.new ≡ with_marks (mark_of marks.old) keys.now number }
{
    let mut rest = keys;
    'keys: while let [key, more @ ..] = rest {
        marks.put(key, number);
        rest = more;
    }
}
