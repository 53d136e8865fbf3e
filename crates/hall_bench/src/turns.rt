//! Seats that take turns in a hall.
ghost use Rattle.std.specs.Prelude.{◌≡◌, ◌<◌, ◌≤◌, [], All, length};

use crate::scene::entry_of;
use csdn_run::Runtime;
use shared_hall::{Hall, HallSeat};
use std::alloc::Global;
use std::sync::Wait;
use std::thread::{Threads, for_each_mut};

/// How often a seat acts at most.
const MOST: u64 = 1 << 40;

fn act_once<R: Wait>(rt: &R, hall: &Hall, seat: &mut HallSeat)
    requires { seat.old.hall ≡ hall.now }
    ensures { seat.new.hall ≡ hall.now }
{
    if seat.acts() < MOST {
        let entry = entry_of(seat.number());
        // what is refused isn't entered, and shows in the count
        let _answer = hall.act(rt, seat, &entry);
    }
}

fn act_often<R: Wait>(rt: &R, hall: &Hall, seat: &mut HallSeat, acts: u64)
    requires { seat.old.hall ≡ hall.now }
    ensures { seat.new.hall ≡ hall.now }
{
    for _ in 0..acts {
        act_once(rt, hall, seat);
    }
}

fn act_on_threads<R: Threads + Wait + Sync>(rt: &R, hall: &Hall, seats: &mut [HallSeat], acts: u64)
    requires { All (λ s. s.hall ≡ hall.now) seats.old }
    ensures { All (λ s. s.hall ≡ hall.now) seats.new }
{
    for_each_mut(
        rt,
        seats,
        64,
        &|_, seat: &mut HallSeat|
            requires { seat.now.hall ≡ hall.now }
            ensures { seat.exit.now.hall ≡ hall.entry.now }
        { act_often(rt, hall, seat, acts) },
    );
}

fn act_in_row<R: Threads + Wait + Sync>(rt: &R, hall: &Hall, seats: &mut Vec<HallSeat>, acts: u64)
    requires { All (λ s. s.hall ≡ hall.now) seats.old.items }
    ensures of { All (λ s. s.hall ≡ hall.now) seats.new.items }
    ensures len { length seats.new.items ≡ length seats.old.items }
{
    act_on_threads(rt, hall, seats.as_mut_slice(), acts);
}

/// How many acts were entered, where each seat acts so often; none for want of memory.
pub fn entered<R: Threads + Wait + Sync>(
    rt: &R,
    alloc: Global,
    runtime: Runtime,
    seats: u32,
    acts: u64,
) -> Option<usize>
    requires seats { (0 < seats) × (seats ≤ 64) }
    requires new { runtime.history ≡ [] }
{
    let Ok((hall, mut row)) = Hall::try_open(alloc, runtime, seats) else {
        return None;
    };
    act_in_row(rt, &hall, &mut row, acts);
    let left = hall.close(row);
    Some(left.history().len())
}
