//! The elements that variables stand for.
ghost use Rattle.std.specs.Prelude.{◌≡◌, ◌<◌, ◌≤◌, ◌+◌, ◌-◌, [], ◌∷◌, ◌++◌, length, take, IfOk, None};

use csdn_core::terms::VarId;
use sqlite_items::Items;
use std::alloc::{AllocError, Global};
use std::marker::Model;

/// A variable and its element.
#[derive(Clone, Copy, Debug, PartialEq, Eq)]
pub struct Pair {
    pub var: VarId,
    pub value: u64,
}

/// A list of pairs, of which the last one of a variable counts. It has a fixed room, so only making it takes memory.
#[derive(Drop)]
pub struct Env {
    slots: Items<Pair>,
    used: usize,
}

impl Model for Env {
    ghost use Rattle.std.specs.Prelude.{◌≤◌, length, take};
    ghost use Rattle.net_structs.specs.Binds.{Binds};

    ghost Value = { Binds };

    ghost view = { λ e. record { pairs = take e.used e.slots; room = length e.slots } };

    ghost invariant = { λ e. e.used ≤ length e.slots };
}

impl Env {
    ghost use Rattle.net_structs.specs.Binds.{assignment, found_in};

    /// No pairs, and room for so many.
    pub fn try_new(alloc: Global, room: usize) -> Result<Env, AllocError>
        ensures pairs { IfOk result (λ env. env.pairs ≡ []) }
        ensures room { IfOk result (λ env. env.room ≡ room) }
    {
        let mut slots = Items::new(alloc);
        'slots: while slots.len() < room {
            slots.push(Pair {
                var: VarId(0),
                value: 0,
            })?;
        }
        Ok(Env { slots, used: 0 })
    }

    /// Appends the pair.
    pub fn push(&mut self, var: VarId, value: u64)
        requires { length self.old.pairs < self.old.room }
        ensures pairs { self.new.pairs ≡ self.old.pairs ++ record { var = var; value = value } ∷ [] }
        ensures room { self.new.room ≡ self.old.room }
    {
        let room = self.slots.len();
        let used = self.used;
        prove!(used < room);
        self.slots.set(used, Pair { var, value });
        self.used = used + 1;
    }

    /// Takes out the last pair.
    pub fn pop(&mut self)
        requires { 0 < length self.old.pairs }
        ensures pairs { self.new.pairs ≡ take (length self.old.pairs - 1) self.old.pairs }
        ensures room { self.new.room ≡ self.old.room }
    {
        self.used -= 1;
    }

    /// The element of the last pair with this variable; `None` exactly where no pair names it.
    pub fn get(&self, var: VarId) -> Option<u64>
        ensures { result ≡ found_in None self.now.pairs var }
    {
        let mut rest = &self.slots.as_slice()[..self.used];
        let mut found = None;
        'pairs: while let [pair, more @ ..] = rest {
            if var == pair.var {
                found = Some(pair.value);
            }
            rest = more;
        }
        found
    }

    /// The element that a variable stands for: that of its last pair, and 0 where no pair names it.
    pub fn value(&self, var: VarId) -> u64
        ensures { result ≡ assignment self.now.pairs var.0 }
    {
        match self.get(var) {
            Some(value) => value,
            None => 0,
        }
    }
}
