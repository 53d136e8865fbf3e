//! The order in which literals are decided.

use crate::trail::Trail;
use clause_log::{Clauses, Lit};
use std::alloc::{AllocError, Global};

// A heap with fewer than 2^64 literals has at most so many levels.
const LEVELS: usize = 64;

// What a conflict adds at first, and the activity past which all are made smaller by as many bits.
const FIRST_RISE: u64 = 0x10_0000;

const MOST_ACTIVITY: u64 = 0x1000_0000_0000_0000;

const BITS_LESS: u32 = 36;

/// Literals in a heap: on top stands that of the atom on which recent conflicts rested most, with the sign that it
/// had last. It saves time, and no answer rests on it.
#[derive(Drop)]
pub struct Order {
    heap: Vec<Lit>,
    // By atom, where its literal stands in the heap.
    spots: Vec<Option<usize>>,
    // By atom.
    activity: Vec<u64>,
    rise: u64,
}

impl Order {
    ghost use Rattle.std.specs.Prelude.{◌≡◌, IfSome, None};
    ghost use Rattle.clause_search.specs.Trails.{values_of};

    /// The order of the literals of these clauses. Of an atom's two literals the one that more clauses hold comes
    /// first.
    pub fn of(alloc: Global, clauses: &Clauses) -> Result<Order, AllocError> {
        let mut order = Order {
            heap: Vec::new(alloc),
            spots: Vec::new(alloc),
            activity: Vec::new(alloc),
            rise: FIRST_RISE,
        };
        let mut counts = Vec::new(alloc);
        let count = clauses.len();
        'clauses: for at in 0..count {
            for l in clauses.clause(at) {
                order.count(&mut counts, *l)?;
            }
        }
        let places = order.heap.len();
        'literals: for at in 0..places {
            order.turn(&counts, at);
            order.rise_from(at);
        }
        Ok(order)
    }

    // Counts an occurrence of the literal, in the activity and in the balance of both signs.
    fn count(&mut self, counts: &mut Vec<i64>, l: Lit) -> Result<(), AllocError> {
        let atom = l.atom() as usize;
        'room: for _ in self.spots.len()..atom.saturating_add(1) {
            self.spots.push(None)?;
            self.activity.push(0)?;
            counts.push(0)?;
        }
        if self.spot(atom).is_none() {
            let place = self.heap.len();
            self.heap.push(l)?;
            write(&mut self.spots, atom, Some(place));
        }
        let times = self.active(l).saturating_add(1);
        write(&mut self.activity, atom, times);
        let balance = match counts.get(atom) {
            Some(balance) => *balance,
            None => 0,
        };
        let one = if l.is_positive() { 1 } else { -1 };
        write(counts, atom, balance.saturating_add(one));
        Ok(())
    }

    // Gives the literal at this place the sign that more clauses hold.
    fn turn(&mut self, counts: &[i64], at: usize) {
        let Some(l) = self.literal(at) else {
            return;
        };
        let Some(balance) = counts.get(l.atom() as usize) else {
            return;
        };
        if l.is_positive() != (*balance >= 0) {
            write(&mut self.heap, at, l.negated());
        }
    }

    fn literal(&self, at: usize) -> Option<Lit> {
        match self.heap.get(at) {
            Some(l) => Some(*l),
            None => None,
        }
    }

    fn spot(&self, atom: usize) -> Option<usize> {
        match self.spots.get(atom) {
            Some(spot) => *spot,
            None => None,
        }
    }

    fn active(&self, l: Lit) -> u64 {
        match self.activity.get(l.atom() as usize) {
            Some(activity) => *activity,
            None => 0,
        }
    }

    // Puts the literal at a place of the heap.
    fn place(&mut self, at: usize, l: Lit) {
        write(&mut self.heap, at, l);
        write(&mut self.spots, l.atom() as usize, Some(at));
    }

    // Moves the literal at this place up while it is more active than the one above.
    fn rise_from(&mut self, at: usize) {
        let Some(l) = self.literal(at) else {
            return;
        };
        let active = self.active(l);
        let mut at = at;
        'levels: for _ in 0..LEVELS {
            if at == 0 {
                break;
            }
            let above = (at - 1) / 2;
            let Some(other) = self.literal(above) else {
                break;
            };
            if self.active(other) >= active {
                break;
            }
            self.place(at, other);
            at = above;
        }
        self.place(at, l);
    }

    // Moves the literal at this place down while one below is more active.
    fn sink_from(&mut self, at: usize) {
        let Some(l) = self.literal(at) else {
            return;
        };
        let active = self.active(l);
        let mut at = at;
        'levels: for _ in 0..LEVELS {
            let Some((below, other)) = self.more_active_below(at) else {
                break;
            };
            if self.active(other) <= active {
                break;
            }
            self.place(at, other);
            at = below;
        }
        self.place(at, l);
    }

    fn more_active_below(&self, at: usize) -> Option<(usize, Lit)> {
        let left = at.saturating_mul(2).saturating_add(1);
        let right = left.saturating_add(1);
        let first = self.literal(left)?;
        match self.literal(right) {
            Some(second) if self.active(second) > self.active(first) => Some((right, second)),
            _ => Some((left, first)),
        }
    }

    /// Counts that a conflict rested on this atom.
    pub fn bump(&mut self, atom: u64) {
        let atom = atom as usize;
        let Some(activity) = self.activity.get(atom) else {
            return;
        };
        let more = activity.saturating_add(self.rise);
        write(&mut self.activity, atom, more);
        if more > MOST_ACTIVITY {
            self.lessen();
        }
        if let Some(at) = self.spot(atom) {
            self.rise_from(at);
        }
    }

    // Makes all activities smaller, and what conflicts add.
    fn lessen(&mut self) {
        for activity in self.activity.iter_mut() {
            *activity >>= BITS_LESS;
        }
        self.rise = (self.rise >> BITS_LESS).saturating_add(1);
    }

    /// Makes later conflicts count more than those so far.
    pub fn age(&mut self) {
        self.rise = self.rise.saturating_add(self.rise / 16);
    }

    /// Puts back a literal that has a value no more.
    pub fn put_back(&mut self, l: Lit) -> Result<(), AllocError> {
        let atom = l.atom() as usize;
        if let Some(at) = self.spot(atom) {
            write(&mut self.heap, at, l);
            return Ok(());
        }
        let at = self.heap.len();
        self.heap.push(l)?;
        write(&mut self.spots, atom, Some(at));
        self.rise_from(at);
        Ok(())
    }

    // Takes the literal on top away.
    fn take(&mut self) -> Option<Lit> {
        let top = self.literal(0)?;
        let last = self.heap.pop()?;
        write(&mut self.spots, top.atom() as usize, None);
        if !self.heap.is_empty() {
            self.place(0, last);
            self.sink_from(0);
        }
        Some(top)
    }

    /// Takes away the first literal without a value, and those before it; `None` where there is none.
    pub fn next(&mut self, trail: &Trail) -> Option<Lit>
        ensures { IfSome result (λ l. values_of trail.now l.atom ≡ None) }
    {
        let count = self.heap.len();
        'literals: for _ in 0..count {
            let l = self.take()?;
            if trail.is_new(l) {
                return Some(l);
            }
        }
        None
    }
}

fn write<T: Copy>(table: &mut [T], at: usize, value: T) {
    if let Some(place) = table.get_mut(at) {
        *place = value;
    }
}
