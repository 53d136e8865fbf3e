//! What all workers did, once they are done.
ghost use Rattle.std.specs.Prelude.{◌≡◌, ◌+◌, ◌≤◌, [], length, map, sum_by, vec_len, vec_capacity, IfOk};
ghost use Rattle.link_sessions.specs.Links.{view_by};
ghost use Rattle.session_workers.specs.Courses.{IsWorker};
ghost use Rattle.session_workers.specs.Teams.{AreDone, EachAt, views_of};

use crate::row::{Links, Row};
use crate::terms::Terms;
use crate::worker::Worker;
use shared_hall::{Hall, HallSeat};
use std::alloc::{AllocError, Global};
use std::sync::ledger::{Ledger, Share};
use vericon_links::link::Link;

/// The seats, and the ends and links of the sessions of each, by the numbers of the seats; and whether a worker wanted memory.
#[derive(Drop)]
pub struct Gathered<K> {
    pub seats: Vec<HallSeat>,
    pub rows: Vec<Row>,
    pub links: Vec<Links<K>>,
    pub is_short: bool,
}

/// Room for what so many workers do.
pub fn room_for<K: Drop>(alloc: Global, workers: u32) -> Result<Gathered<K>, AllocError>
    ensures seats { IfOk result (λ room. (room.seats.items ≡ []) × (workers ≤ vec_capacity room.seats)) }
    ensures rows { IfOk result (λ room. (room.rows.items ≡ []) × (workers ≤ vec_capacity room.rows)) }
    ensures links { IfOk result (λ room. (room.links.items ≡ []) × (workers ≤ vec_capacity room.links)) }
{
    let count = workers as usize;
    Ok(Gathered {
        seats: Vec::with_capacity(alloc, count)?,
        rows: Vec::with_capacity(alloc, count)?,
        links: Vec::with_capacity(alloc, count)?,
        is_short: false,
    })
}

/// Takes the workers apart, in the room that was made for that, and puts their shares together.
pub fn gather<K: Link + Drop, P: Ledger>(
    hall: &Hall,
    terms: &Terms,
    mut team: Vec<Worker<K, P>>,
    all: &mut Share<P>,
    room: Gathered<K>,
) -> Gathered<K>
    requires team { EachAt (λ k w. IsWorker hall.now terms.now w.seat w.ends.items (map (view_by K.taken K.written K.closed K.is_shut K.read_faults K.write_faults) w.links.items) w.share.parts w.share.amount × (w.seat.account.number + (k + 1) ≡ terms.now.workers)) team.items }
    requires len { vec_len team ≡ terms.now.workers }
    requires seats { (room.seats.items ≡ []) × (terms.now.workers ≤ vec_capacity room.seats) }
    requires rows { (room.rows.items ≡ []) × (terms.now.workers ≤ vec_capacity room.rows) }
    requires links { (room.links.items ≡ []) × (terms.now.workers ≤ vec_capacity room.links) }
    requires share { (all.old.parts ≡ 0) × (all.old.amount ≡ 0) }
    ensures done { AreDone hall.now terms.now 0 result.seats.items result.rows.items (views_of (view_by K.taken K.written K.closed K.is_shut K.read_faults K.write_faults) result.links.items) }
    ensures len { length result.seats.items ≡ terms.now.workers }
    ensures parts { all.new.parts ≡ terms.now.workers }
    ensures amount { all.new.amount ≡ sum_by (λ left. length left.links.items) result.links.items }
{
    let _ = hall;
    let _ = terms;
    let Gathered {
        mut seats,
        mut rows,
        mut links,
        mut is_short,
    } = room;
    while let Some(worker) = team.pop() {
        let Worker {
            seat,
            ends,
            links: left,
            share,
            is_short: was_short,
        } = worker;
        all.merge(share);
        seats.push_reserved(seat);
        rows.push_reserved(Row { ends });
        links.push_reserved(Links { links: left });
        is_short |= was_short;
    }
    Gathered {
        seats,
        rows,
        links,
        is_short,
    }
}
