//! The listener under its lock, with the count of the links that came.
ghost use Rattle.std.specs.Prelude.{◌≡◌, ◌+◌, ◌^◌, ◌≤◌, ◌<◌, ℕ, true, List, Option, None, IfNone, IfSome};
ghost use Rattle.vericon_edge.specs.Counts.{Rose};
ghost use Rattle.vericon_links.specs.Links.{IsUnused};
ghost use Rattle.link_sessions.specs.Links.{LinkView, view_by};
ghost use Rattle.session_workers.specs.declared.door.Door.{Door};
ghost use Rattle.session_workers.specs.Told.{told_given};

use crate::door::Door;
use std::marker::Brand;
use std::sync::ledger::{Book, Ledger, Share};
use vericon_links::link::Link;
use vericon_links::listener::{Arrival, Listener};

/// What is known of a run of workers beside the lock: how many sessions there may be, and the listener's faults and the links given back to
/// it when it was handed in. The parts of the ledger count the links that came.
pub trait Plan: Ledger {
    ghost most: { ℕ };

    ghost faults: { ℕ };

    ghost given: { Option (List (ℕ × LinkView)) };
}

impl Plan for Brand {
    ghost most = { 0 };

    ghost faults = { 0 };

    ghost given = { None };
}

/// What lies under the lock.
#[derive(Drop)]
pub struct Desk<N: Listener, P: Plan> {
    pub listener: N,
    pub came: u32,
    pub most: u32,
    pub door: Door,
    pub book: Book<P>,
    ghost counted: { book.total ≡ came },
    ghost came_is: { N.came listener ≡ came },
    ghost none_back: { N.back listener ≡ 0 },
    ghost given_is: { told_given (view_by N.Link.taken N.Link.written N.Link.closed N.Link.is_shut N.Link.read_faults N.Link.write_faults) (N.given listener) ≡ P.given },
    ghost few: { came ≤ most },
    ghost most_is: { most ≡ P.most },
    ghost small: { most ≤ 2 ^ 20 },
    ghost later: { P.faults ≤ N.faults listener },
    ghost open_steady: { door ≡ Door.Open → N.faults listener ≡ P.faults },
    ghost closed_steady: { door ≡ Door.Closed → N.faults listener ≡ P.faults },
    ghost closed_ended: { door ≡ Door.Closed → N.ended listener ≡ true },
    ghost broken_rose: { door ≡ Door.Broken → Rose P.faults (N.faults listener) },
}

impl<N: Listener, P: Plan> Desk<N, P> {
    /// A link, counted in the caller's share, or none where no more are asked for.
    pub fn accept(&mut self, mine: &mut Share<P>) -> Option<N::Link>
        requires { 0 < mine.old.parts }
        ensures parts { mine.new.parts ≡ mine.old.parts }
        ensures some { IfSome result (λ k. mine.new.amount ≡ mine.old.amount + 1) }
        ensures bound { mine.new.amount ≤ 2 ^ 20 }
        ensures none { IfNone result (mine.new.amount ≡ mine.old.amount) }
        ensures unused { IfSome result (λ k. IsUnused (N.Link.taken k) (N.Link.written k) (N.Link.closed k) (N.Link.is_shut k) (N.Link.read_faults k) (N.Link.write_faults k)) }
    {
        self.book.audit(mine);
        if self.door != Door::Open || self.came == self.most {
            return None;
        }
        let Desk {
            listener,
            came,
            door,
            book,
            ..
        } = self;
        match listener.accept() {
            Ok(Arrival::Came(link)) => {
                *came += 1;
                book.add(mine, 1);
                Some(link)
            }
            Ok(Arrival::Closed) => {
                *door = Door::Closed;
                None
            }
            Err(_) => {
                *door = Door::Broken;
                None
            }
        }
    }
}
