//! A run of all workers, from the opening of the hall to its end.
ghost use Rattle.std.specs.Prelude.{◌≡◌, ◌+◌, ◌^◌, ◌<◌, ◌≤◌, [], length, map, vec_len, vec_capacity};
ghost use Rattle.csdn_run.specs.Histories.{with_history};
ghost use Rattle.shared_hall.specs.Halls.{fresh_seats};
ghost use Rattle.link_sessions.specs.Links.{view_by};
ghost use Rattle.session_workers.specs.Courses.{IsWorker};
ghost use Rattle.session_workers.specs.Teams.{EachAt};
ghost use Rattle.session_workers.specs.Endings.{HaltsFor, IsRunOf, halt_at, longest};
ghost use Rattle.session_workers.specs.Told.{told_given};

use crate::desk::{Desk, Plan};
use crate::door::Door;
use crate::gathering::{Gathered, gather, room_for};
use crate::giving::give_all;
use crate::halt::Halt;
use crate::hiring::hire;
use crate::row::Row;
use crate::team::serve_team;
use crate::terms::Terms;
use crate::worker::Worker;
use csdn_run::Runtime;
use shared_hall::{Hall, HallSeat};
use std::alloc::Global;
use std::marker::Brand;
use std::sync::ledger::{Blank, Share};
use std::sync::{Mutex, Wait};
use std::thread::Threads;
use vericon_links::link::Link;
use vericon_links::listener::Listener;

/// What a run hands back: the listener, the runtime with all that was entered, the ends of the sessions by the seats, and why there were no
/// more.
#[derive(Drop)]
pub struct Worked<N: Listener> {
    pub listener: N,
    pub runtime: Runtime,
    pub rows: Vec<Row>,
    pub halt: Halt,
}

fn halt_of(is_short: bool, door: Door, is_full: bool) -> Halt
    ensures { result ≡ halt_at is_short door is_full }
{
    if is_short {
        return Halt::Memory;
    }
    match door {
        Door::Closed => Halt::Done,
        Door::Broken => Halt::Fault,
        Door::Open => { if is_full { Halt::Done } else { Halt::Memory } }
    }
}

// The listener with all links given back, the runtime and the ends, once all workers are done.
fn finish<N: Listener, P: Plan>(
    hall: Hall,
    terms: &Terms,
    mut desk: Desk<N, P>,
    mut all: Share<P>,
    team: Vec<Worker<N::Link, P>>,
    room: Gathered<N::Link>,
) -> Worked<N>
    requires team { EachAt (λ k w. IsWorker hall terms.now w.seat w.ends.items (map (view_by N.Link.taken N.Link.written N.Link.closed N.Link.is_shut N.Link.read_faults N.Link.write_faults) w.links.items) w.share.parts w.share.amount × (w.seat.account.number + (k + 1) ≡ terms.now.workers)) team.items }
    requires len { (vec_len team ≡ terms.now.workers) × (hall.seats ≡ terms.now.workers) × (P.parts ≡ terms.now.workers) × (P.most ≡ terms.now.sessions) }
    requires seats { (room.seats.items ≡ []) × (terms.now.workers ≤ vec_capacity room.seats) }
    requires rows { (room.rows.items ≡ []) × (terms.now.workers ≤ vec_capacity room.rows) }
    requires links { (room.links.items ≡ []) × (terms.now.workers ≤ vec_capacity room.links) }
    requires share { (all.parts ≡ 0) × (all.amount ≡ 0) }
    ensures runtime { result.runtime ≡ with_history hall.opening result.runtime.history }
    ensures run { IsRunOf terms.now hall.opening result.runtime.history result.rows.items P.given (told_given (view_by N.Link.taken N.Link.written N.Link.closed N.Link.is_shut N.Link.read_faults N.Link.write_faults) (N.given result.listener)) (N.came result.listener) }
    ensures back { N.back result.listener ≡ N.came result.listener }
    ensures most { N.came result.listener ≤ terms.now.sessions }
    ensures few { (length result.rows.items ≤ terms.now.workers) × (longest result.rows.items ≤ 2 ^ 20) }
    ensures halt { HaltsFor terms.now result.halt P.faults (N.faults result.listener) (N.came result.listener) (N.ended result.listener) }
    ensures later { P.faults ≤ N.faults result.listener }
{
    let Gathered {
        seats,
        rows,
        links,
        is_short,
    } = gather(&hall, terms, team, &mut all, room);
    desk.book.audit(&mut all);
    let runtime = hall.close(seats);
    let Desk {
        mut listener,
        came,
        most,
        door,
        ..
    } = desk;
    give_all(&mut listener, terms, links);
    Worked {
        listener,
        runtime,
        rows,
        halt: halt_of(is_short, door, came == most),
    }
}

// The run of a hall that is open, in the room that was taken for it.
fn run_hall<N: Listener, P: Plan + Send + Sync, R: Threads + Wait + Sync>(
    rt: &R,
    alloc: Global,
    hall: Hall,
    seats: Vec<HallSeat>,
    listener: N,
    terms: &Terms,
    blank: Blank,
    team: Vec<Worker<N::Link, P>>,
    room: Gathered<N::Link>,
) -> Worked<N>
    requires blank { (blank.name ≡ P.name) × (blank.parts ≡ P.parts) × (P.parts ≡ terms.now.workers) }
    requires plan { (P.most ≡ terms.now.sessions) × (P.faults ≡ N.faults listener) × (P.given ≡ told_given (view_by N.Link.taken N.Link.written N.Link.closed N.Link.is_shut N.Link.read_faults N.Link.write_faults) (N.given listener)) }
    requires hall { (hall.seats ≡ terms.now.workers) × (seats.items ≡ fresh_seats hall terms.now.workers) × (vec_len seats ≡ terms.now.workers) }
    requires listener { (N.came listener ≡ 0) × (N.back listener ≡ 0) }
    requires team { (team.items ≡ []) × (terms.now.workers ≤ vec_capacity team) }
    requires seats { (room.seats.items ≡ []) × (terms.now.workers ≤ vec_capacity room.seats) }
    requires rows { (room.rows.items ≡ []) × (terms.now.workers ≤ vec_capacity room.rows) }
    requires links { (room.links.items ≡ []) × (terms.now.workers ≤ vec_capacity room.links) }
    ensures runtime { result.runtime ≡ with_history hall.opening result.runtime.history }
    ensures run { IsRunOf terms.now hall.opening result.runtime.history result.rows.items (told_given (view_by N.Link.taken N.Link.written N.Link.closed N.Link.is_shut N.Link.read_faults N.Link.write_faults) (N.given listener)) (told_given (view_by N.Link.taken N.Link.written N.Link.closed N.Link.is_shut N.Link.read_faults N.Link.write_faults) (N.given result.listener)) (N.came result.listener) }
    ensures back { N.back result.listener ≡ N.came result.listener }
    ensures most { N.came result.listener ≤ terms.now.sessions }
    ensures few { (length result.rows.items ≤ terms.now.workers) × (longest result.rows.items ≤ 2 ^ 20) }
    ensures halt { HaltsFor terms.now result.halt (N.faults listener) (N.faults result.listener) (N.came result.listener) (N.ended result.listener) }
    ensures later { N.faults listener ≤ N.faults result.listener }
{
    let (book, mut all) = blank.open::<P>();
    let desk = Mutex::new(Desk {
        listener,
        came: 0,
        most: terms.sessions,
        door: Door::Open,
        book,
    });
    let team = hire(alloc, &hall, terms, seats, &mut all, team);
    let team = serve_team(rt, alloc, &hall, terms, &desk, team);
    finish(hall, terms, desk.into_inner(), all, team, room)
}

// No type of the signature names the plan, so that a call can pick it.
fn run_with<N: Listener, P: Plan + Send + Sync, R: Threads + Wait + Sync>(
    rt: &R,
    alloc: Global,
    listener: N,
    runtime: Runtime,
    terms: &Terms,
    blank: Blank,
) -> Worked<N>
    requires blank { (blank.name ≡ P.name) × (blank.parts ≡ P.parts) × (P.parts ≡ terms.now.workers) }
    requires plan { (P.most ≡ terms.now.sessions) × (P.faults ≡ N.faults listener) × (P.given ≡ told_given (view_by N.Link.taken N.Link.written N.Link.closed N.Link.is_shut N.Link.read_faults N.Link.write_faults) (N.given listener)) }
    requires listener { (N.came listener ≡ 0) × (N.back listener ≡ 0) }
    requires new { runtime.history ≡ [] }
    ensures runtime { result.runtime ≡ with_history runtime result.runtime.history }
    ensures run { IsRunOf terms.now runtime result.runtime.history result.rows.items (told_given (view_by N.Link.taken N.Link.written N.Link.closed N.Link.is_shut N.Link.read_faults N.Link.write_faults) (N.given listener)) (told_given (view_by N.Link.taken N.Link.written N.Link.closed N.Link.is_shut N.Link.read_faults N.Link.write_faults) (N.given result.listener)) (N.came result.listener) }
    ensures back { N.back result.listener ≡ N.came result.listener }
    ensures most { N.came result.listener ≤ terms.now.sessions }
    ensures few { (length result.rows.items ≤ terms.now.workers) × (longest result.rows.items ≤ 2 ^ 20) }
    ensures halt { HaltsFor terms.now result.halt (N.faults listener) (N.faults result.listener) (N.came result.listener) (N.ended result.listener) }
    ensures later { N.faults listener ≤ N.faults result.listener }
{
    let Ok(room) = room_for::<N::Link>(alloc, terms.workers) else {
        return unserved(alloc, terms, listener, runtime);
    };
    let Ok(team) = Vec::<Worker<N::Link, P>>::with_capacity(alloc, terms.workers as usize) else {
        return unserved(alloc, terms, listener, runtime);
    };
    match Hall::try_open(alloc, runtime, terms.workers) {
        Ok((hall, seats)) => run_hall(rt, alloc, hall, seats, listener, terms, blank, team, room),
        Err(runtime) => unserved(alloc, terms, listener, runtime),
    }
}

// No session, for want of memory.
fn unserved<N: Listener>(alloc: Global, terms: &Terms, listener: N, runtime: Runtime) -> Worked<N>
    requires listener { N.came listener ≡ 0 }
    requires new { runtime.history ≡ [] }
    ensures run { IsRunOf terms.now runtime result.runtime.history result.rows.items (told_given (view_by N.Link.taken N.Link.written N.Link.closed N.Link.is_shut N.Link.read_faults N.Link.write_faults) (N.given listener)) (told_given (view_by N.Link.taken N.Link.written N.Link.closed N.Link.is_shut N.Link.read_faults N.Link.write_faults) (N.given result.listener)) (N.came result.listener) }
    ensures same { (result.listener ≡ listener) × (result.runtime ≡ runtime) × (result.rows.items ≡ []) × (result.halt ≡ Halt.Memory) }
{
    let _ = terms;
    Worked {
        listener,
        runtime,
        rows: Vec::new(alloc),
        halt: Halt::Memory,
    }
}

/// Serves the sessions that come, as many workers at once as the terms say, and gives all links back, each with its number. The listener and
/// the runtime come back whatever happens. Each session costs what `serve` costs.
pub fn serve_sessions<N: Listener, R: Threads + Wait + Sync>(
    rt: &R,
    alloc: Global,
    listener: N,
    runtime: Runtime,
    terms: &Terms,
) -> Worked<N>
    requires listener { (N.came listener ≡ 0) × (N.back listener ≡ 0) }
    requires new { runtime.history ≡ [] }
    ensures runtime { result.runtime ≡ with_history runtime result.runtime.history }
    ensures run { IsRunOf terms.now runtime result.runtime.history result.rows.items (told_given (view_by N.Link.taken N.Link.written N.Link.closed N.Link.is_shut N.Link.read_faults N.Link.write_faults) (N.given listener)) (told_given (view_by N.Link.taken N.Link.written N.Link.closed N.Link.is_shut N.Link.read_faults N.Link.write_faults) (N.given result.listener)) (N.came result.listener) }
    ensures back { N.back result.listener ≡ N.came result.listener }
    ensures most { N.came result.listener ≤ terms.now.sessions }
    ensures few { (length result.rows.items ≤ terms.now.workers) × (longest result.rows.items ≤ 2 ^ 20) }
    ensures halt { HaltsFor terms.now result.halt (N.faults listener) (N.faults result.listener) (N.came result.listener) (N.ended result.listener) }
    ensures later { N.faults listener ≤ N.faults result.listener }
{
    run_with::<N, Brand, R>(
        rt,
        alloc,
        listener,
        runtime,
        terms,
        Blank::new(u64::from(terms.workers)),
    )
}
