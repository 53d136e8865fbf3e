//! A worker, with its seat and the sessions that it served.
ghost use Rattle.std.specs.Prelude.{◌≡◌, ◌+◌, ◌^◌, ◌<◌, IsTrue, map, vec_len, vec_capacity};
ghost use Rattle.vericon_links.specs.Links.{IsUnused};
ghost use Rattle.link_sessions.specs.Links.{view_by};
ghost use Rattle.session_workers.specs.Courses.{HasWorked, IsWorker};

use crate::desk::{Desk, Plan};
use crate::shift::Shift;
use crate::terms::Terms;
use session_serve::{Ended, serve};
use shared_hall::{Hall, HallSeat};
use std::alloc::Global;
use std::sync::Wait;
use std::sync::ledger::{Ledger, Share};
use vericon_links::link::Link;
use vericon_links::listener::Listener;

/// A worker with its share in the count of the links that came; `is_short` says whether it wanted memory.
#[derive(Drop)]
pub struct Worker<K, P: Ledger> {
    pub seat: HallSeat,
    pub ends: Vec<Ended>,
    pub links: Vec<K>,
    pub share: Share<P>,
    pub is_short: bool,
}

// Whether there is room for a further session.
fn make_room<K: Drop, P: Ledger>(worker: &mut Worker<K, P>) -> bool
    ensures ends { (worker.new.ends.items ≡ worker.old.ends.items) × (IsTrue result → vec_len worker.new.ends < vec_capacity worker.new.ends) }
    ensures links { (worker.new.links.items ≡ worker.old.links.items) × (IsTrue result → vec_len worker.new.links < vec_capacity worker.new.links) }
    ensures same { (worker.new.seat ≡ worker.old.seat) × (worker.new.share ≡ worker.old.share) }
{
    worker.ends.reserve(1).is_ok() && worker.links.reserve(1).is_ok()
}

// Serves a link, and keeps it with its end.
fn serve_one<K: Link, P: Ledger, R: Wait>(
    rt: &R,
    alloc: Global,
    hall: &Hall,
    terms: &Terms,
    worker: &mut Worker<K, P>,
    mut link: K,
)
    requires worked { HasWorked hall.now terms.now worker.old.seat worker.old.ends.items (map (view_by K.taken K.written K.closed K.is_shut K.read_faults K.write_faults) worker.old.links.items) }
    requires few { vec_len worker.old.ends < 2 ^ 20 }
    requires room { (vec_len worker.old.ends < vec_capacity worker.old.ends) × (vec_len worker.old.links < vec_capacity worker.old.links) }
    requires unused { IsUnused (K.taken link) (K.written link) (K.closed link) (K.is_shut link) (K.read_faults link) (K.write_faults link) }
    ensures worked { HasWorked hall.now terms.now worker.new.seat worker.new.ends.items (map (view_by K.taken K.written K.closed K.is_shut K.read_faults K.write_faults) worker.new.links.items) }
    ensures one { vec_len worker.new.ends ≡ vec_len worker.old.ends + 1 }
    ensures share { worker.new.share ≡ worker.old.share }
    ensures number { worker.new.seat.account.number ≡ worker.old.seat.account.number }
{
    let number = 1 + worker.seat.number() + terms.workers * worker.ends.len() as u32;
    let ended = serve(
        rt,
        alloc,
        &mut link,
        number,
        hall,
        &mut worker.seat,
        terms.most,
    );
    worker.ends.push_reserved(ended);
    worker.links.push_reserved(link);
}

/// Serves links until no more are asked for, or there is no memory for a further session.
pub fn work<N: Listener, P: Plan, R: Wait>(
    shift: &Shift<'_, Desk<N, P>, R>,
    worker: &mut Worker<N::Link, P>,
)
    requires { IsWorker shift.now.hall.now shift.now.terms worker.old.seat worker.old.ends.items (map (view_by N.Link.taken N.Link.written N.Link.closed N.Link.is_shut N.Link.read_faults N.Link.write_faults) worker.old.links.items) worker.old.share.parts worker.old.share.amount }
    ensures worker { IsWorker shift.now.hall.now shift.now.terms worker.new.seat worker.new.ends.items (map (view_by N.Link.taken N.Link.written N.Link.closed N.Link.is_shut N.Link.read_faults N.Link.write_faults) worker.new.links.items) worker.new.share.parts worker.new.share.amount }
    ensures number { worker.new.seat.account.number ≡ worker.old.seat.account.number }
{
    for _round in shift.rt.forever() {
        if !make_room(worker) {
            worker.is_short = true;
            return;
        }
        let Some(link) = shift.desk.lock(shift.rt).accept(&mut worker.share) else {
            return;
        };
        serve_one(
            shift.rt,
            shift.alloc,
            shift.hall,
            &shift.terms,
            worker,
            link,
        );
    }
    unreachable!()
}
