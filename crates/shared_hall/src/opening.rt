//! How a hall is opened.
ghost use Rattle.std.specs.Prelude.{◌≡◌, ◌<◌, ◌≤◌, [], ◌∷◌, Some as SomeIs, IfOk, IfErr, vec_len, vec_capacity};
ghost use Rattle.shared_hall.specs.Turns.{IsDealing, IsFresh};
ghost use Rattle.shared_hall.specs.Halls.{fresh, fresh_seats};

use crate::hall::{Hall, HallSeat};
use crate::rule::NextSeat;
use crate::view::{Setting, View};
use atomic_table::{Seat, Table};
use csdn_run::Runtime;
use std::alloc::Global;
use std::snapshot::Snapshot;
use std::sync::Mutex;

// The runtime, from the slot that was refused.
fn back(slots: Vec<Option<Runtime>>, runtime: &Snapshot<Runtime>) -> Runtime
    requires { slots.items ≡ SomeIs runtime.now.value ∷ [] }
    ensures { result ≡ runtime.now.value }
{
    let mut slots = slots;
    let Some(Some(runtime)) = slots.pop() else {
        unreachable!()
    };
    runtime
}

// The hall, with the seat from which the others are cut.
fn open(
    alloc: Global,
    runtime: Runtime,
    seats: u32,
) -> Result<(Hall, Seat<Option<Runtime>, View>), Runtime>
    requires seats { (0 < seats) × (seats ≤ 64) }
    requires new { runtime.history ≡ [] }
    ensures hall { IfOk result (λ o. (o.0.opening ≡ runtime) × (o.0.seats ≡ seats)) }
    ensures seat { IfOk result (λ o. (o.1.table_id ≡ o.0.id) × IsDealing o.0.opening o.0.seats 0 o.1.me) }
    ensures err { IfErr result (λ r. r ≡ runtime) }
{
    let Ok(mut slots) = Vec::with_capacity(alloc, 1) else {
        return Err(runtime);
    };
    let opening = Snapshot::of(&runtime);
    slots.push_reserved(Some(runtime));
    let setting = Setting { opening, seats };
    match Table::new(alloc, &[0, 0], slots, &setting) {
        Ok((table, seat)) => {
            let door = Mutex::new(());
            Ok((Hall { table, door }, seat))
        }
        Err(refused) => Err(back(refused.slots, &setting.opening)),
    }
}

// A seat that has not acted.
fn made(hall: &Hall, number: u32, seat: Seat<Option<Runtime>, View>) -> HallSeat
    requires { (seat.table_id ≡ hall.now.id) × IsFresh hall.now.opening hall.now.seats number seat.me }
    ensures { result ≡ fresh hall.now number }
{
    let _ = hall;
    HallSeat {
        number,
        acts: 0,
        seat,
    }
}

// Cuts the seats in the order of their numbers. The last is the one that is left.
fn deal(
    hall: &Hall,
    mut seat: Seat<Option<Runtime>, View>,
    seats: u32,
    mut row: Vec<HallSeat>,
) -> Vec<HallSeat>
    requires seats { (seats ≡ hall.now.seats) × (0 < seats) }
    requires seat { (seat.table_id ≡ hall.now.id) × IsDealing hall.now.opening hall.now.seats 0 seat.me }
    requires row { (row.items ≡ []) × (seats ≤ vec_capacity row) }
    ensures row { result.items ≡ fresh_seats hall.now seats }
    ensures len { vec_len result ≡ seats }
{
    let last = seats - 1;
    for number in 0..last {
        let next = hall.table.shared.split_seat::<NextSeat>(&mut seat);
        row.push_reserved(made(hall, number, next));
    }
    row.push_reserved(made(hall, last, seat));
    row
}

impl Hall {
    /// A hall of a runtime that has entered nothing, with 1 to 64 seats in the order of their numbers, from 0 on. For want of
    /// memory the runtime comes back. It costs the number of seats.
    pub fn try_open(
        alloc: Global,
        runtime: Runtime,
        seats: u32,
    ) -> Result<(Hall, Vec<HallSeat>), Runtime>
        requires seats { (0 < seats) × (seats ≤ 64) }
        requires new { runtime.history ≡ [] }
        ensures hall { IfOk result (λ o. (o.0.opening ≡ runtime) × (o.0.seats ≡ seats)) }
        ensures seats { IfOk result (λ o. o.1.items ≡ fresh_seats o.0 seats) }
        ensures count { IfOk result (λ o. vec_len o.1 ≡ seats) }
        ensures err { IfErr result (λ r. r ≡ runtime) }
    {
        let Ok(row) = Vec::with_capacity(alloc, seats as usize) else {
            return Err(runtime);
        };
        let (hall, seat) = open(alloc, runtime, seats)?;
        let row = deal(&hall, seat, seats, row);
        Ok((hall, row))
    }
}
