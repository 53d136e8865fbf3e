//! Workers for the seats of a hall.
ghost use Rattle.std.specs.Prelude.{◌≡◌, ◌+◌, ◌<◌, ◌≤◌, [], length, map, vec_len, vec_capacity};
ghost use Rattle.shared_hall.specs.Halls.{fresh_seats};
ghost use Rattle.link_sessions.specs.Links.{view_by};
ghost use Rattle.session_workers.specs.Courses.{IsWorker};
ghost use Rattle.session_workers.specs.Teams.{EachAt};

use crate::terms::Terms;
use crate::worker::Worker;
use shared_hall::{Hall, HallSeat};
use std::alloc::Global;
use std::sync::ledger::{Ledger, Share};
use vericon_links::link::Link;

/// A worker for each seat, the last one first, with a part of the count.
pub fn hire<K: Link + Drop, P: Ledger>(
    alloc: Global,
    hall: &Hall,
    terms: &Terms,
    mut seats: Vec<HallSeat>,
    all: &mut Share<P>,
    mut team: Vec<Worker<K, P>>,
) -> Vec<Worker<K, P>>
    requires seats { (seats.items ≡ fresh_seats hall.now terms.now.workers) × (vec_len seats ≡ terms.now.workers) }
    requires team { (team.items ≡ []) × (terms.now.workers ≤ vec_capacity team) }
    requires share { (all.old.parts ≡ terms.now.workers) × (all.old.amount ≡ 0) }
    ensures team { EachAt (λ k w. IsWorker hall.now terms.now w.seat w.ends.items (map (view_by K.taken K.written K.closed K.is_shut K.read_faults K.write_faults) w.links.items) w.share.parts w.share.amount × (w.seat.account.number + (k + 1) ≡ terms.now.workers)) result.items }
    ensures len { vec_len result ≡ terms.now.workers }
    ensures share { (all.new.parts ≡ 0) × (all.new.amount ≡ 0) }
{
    let _ = hall;
    let _ = terms;
    while let Some(seat) = seats.pop() {
        let share = all.split_off(1, 0);
        team.push_reserved(Worker {
            seat,
            ends: Vec::new(alloc),
            links: Vec::new(alloc),
            share,
            is_short: false,
        });
    }
    team
}
