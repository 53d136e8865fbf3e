//! All workers at once.
ghost use Rattle.std.specs.Prelude.{◌≡◌, ◌+◌, ◌<◌, length, map, vec_len};
ghost use Rattle.link_sessions.specs.Links.{view_by};
ghost use Rattle.session_workers.specs.Courses.{IsWorker};
ghost use Rattle.session_workers.specs.Teams.{EachAt};

use crate::desk::{Desk, Plan};
use crate::shift::Shift;
use crate::terms::Terms;
use crate::worker::{Worker, work};
use shared_hall::Hall;
use std::alloc::Global;
use std::sync::{Mutex, Wait};
use std::thread;
use std::thread::Threads;
use vericon_links::link::Link;
use vericon_links::listener::Listener;

// All workers serve at once. The closure's clauses are what is known of each of them afterwards.
fn serve_all<N: Listener, P: Plan + Send + Sync, R: Threads + Wait + Sync>(
    shift: &Shift<'_, Desk<N, P>, R>,
    team: &mut [Worker<N::Link, P>],
)
    requires some { 0 < length team.old }
    requires team { EachAt (λ k w. IsWorker shift.now.hall.now shift.now.terms w.seat w.ends.items (map (view_by N.Link.taken N.Link.written N.Link.closed N.Link.is_shut N.Link.read_faults N.Link.write_faults) w.links.items) w.share.parts w.share.amount × (w.seat.account.number + (k + 1) ≡ shift.now.terms.workers)) team.old }
    ensures { EachAt (λ k w. IsWorker shift.now.hall.now shift.now.terms w.seat w.ends.items (map (view_by N.Link.taken N.Link.written N.Link.closed N.Link.is_shut N.Link.read_faults N.Link.write_faults) w.links.items) w.share.parts w.share.amount × (w.seat.account.number + (k + 1) ≡ shift.now.terms.workers)) team.new }
{
    let threads = team.len();
    thread::for_each_mut(
        shift.rt,
        team,
        threads,
        &|place, worker: &mut Worker<N::Link, P>|
            requires { IsWorker shift.now.hall.now shift.now.terms worker.now.seat worker.now.ends.items (map (view_by N.Link.taken N.Link.written N.Link.closed N.Link.is_shut N.Link.read_faults N.Link.write_faults) worker.now.links.items) worker.now.share.parts worker.now.share.amount × (worker.now.seat.account.number + (place + 1) ≡ shift.now.terms.workers) }
            ensures { IsWorker shift.entry.now.hall.now shift.entry.now.terms worker.exit.now.seat worker.exit.now.ends.items (map (view_by N.Link.taken N.Link.written N.Link.closed N.Link.is_shut N.Link.read_faults N.Link.write_faults) worker.exit.now.links.items) worker.exit.now.share.parts worker.exit.now.share.amount × (worker.exit.now.seat.account.number + (place + 1) ≡ shift.entry.now.terms.workers) }
        { work(shift, worker) },
    );
}

/// The same, on a `Vec`.
pub fn serve_team<N: Listener, P: Plan + Send + Sync, R: Threads + Wait + Sync>(
    rt: &R,
    alloc: Global,
    hall: &Hall,
    terms: &Terms,
    desk: &Mutex<Desk<N, P>>,
    mut team: Vec<Worker<N::Link, P>>,
) -> Vec<Worker<N::Link, P>>
    requires some { 0 < vec_len team }
    requires team { EachAt (λ k w. IsWorker hall.now terms.now w.seat w.ends.items (map (view_by N.Link.taken N.Link.written N.Link.closed N.Link.is_shut N.Link.read_faults N.Link.write_faults) w.links.items) w.share.parts w.share.amount × (w.seat.account.number + (k + 1) ≡ terms.now.workers)) team.items }
    ensures team { EachAt (λ k w. IsWorker hall.now terms.now w.seat w.ends.items (map (view_by N.Link.taken N.Link.written N.Link.closed N.Link.is_shut N.Link.read_faults N.Link.write_faults) w.links.items) w.share.parts w.share.amount × (w.seat.account.number + (k + 1) ≡ terms.now.workers)) result.items }
    ensures len { vec_len result ≡ vec_len team }
{
    let shift = Shift {
        rt,
        alloc,
        hall,
        terms: *terms,
        desk,
    };
    serve_all(&shift, team.as_mut_slice());
    team
}
