//! A session over a link, of a seat.
ghost use Rattle.std.specs.Prelude.{◌≡◌, ◌-◌, ◌<◌, ◌≤◌, ◌^◌, false};
ghost use Rattle.vericon_links.specs.Links.{IsEmptyWhereTold};
ghost use Rattle.link_sessions.specs.Links.{view_by};
ghost use Rattle.link_sessions.specs.Said.{IsSaidOver};
ghost use Rattle.session_entries.specs.Additions.{is_full, told_since};
ghost use Rattle.session_serve.specs.Servings.{IsServed};

use link_sessions::{Ended, speak_over};
use session_entries::SeatEntries;
use shared_hall::{Hall, HallSeat};
use std::alloc::Global;
use std::sync::Wait;
use vericon_links::link::Link;

/// Holds the session of a seat over a link. The reference to the seat stays the same.
fn hold<R: Wait, K: Link>(
    alloc: Global,
    link: &mut K,
    number: u32,
    most: u64,
    entries: &mut SeatEntries<'_, R>,
) -> Ended
    requires begun { entries.old.begun.value ≡ entries.old.seat.now }
    requires most { (0 < most) × (most ≤ 2 ^ 39) }
    requires acts { entries.old.seat.now.account.acts < 2 ^ 55 }
    requires taken { IsEmptyWhereTold (K.taken link.old) }
    requires written { IsEmptyWhereTold (K.written link.old) }
    requires closed { K.closed link.old ≡ false }
    ensures same_reference { entries.new.seat.ghost_name ≡ entries.old.seat.ghost_name }
    ensures hall { entries.new.hall.now ≡ entries.old.hall.now }
    ensures session { entries.new.session ≡ entries.old.session }
    ensures begun { entries.new.begun.value ≡ entries.old.begun.value }
    ensures said { IsSaidOver (told_since entries.new.hall.now.opening entries.new.session entries.new.begun.value.account entries.new.seat.now.account) (is_full entries.new.hall.now.opening entries.new.seat.now.account) number most (2 ^ 56 - entries.old.seat.now.account.acts) (2 ^ 56 - entries.new.seat.now.account.acts) (view_by K.taken K.written K.closed K.is_shut K.read_faults K.write_faults link.old) (view_by K.taken K.written K.closed K.is_shut K.read_faults K.write_faults link.new) result }
{
    speak_over(alloc, link, number, most, entries)
}

/// Serves one session over a link, and shuts the link. It greets before it reads, writes all that a message calls for before it
/// reads again, and takes at most `most` bytes. It may wait without end, for bytes or for the seat's turn.
pub fn serve<R: Wait, K: Link>(
    rt: &R,
    alloc: Global,
    link: &mut K,
    number: u32,
    hall: &Hall,
    seat: &mut HallSeat,
    most: u64,
) -> Ended
    requires hall { seat.old.hall ≡ hall.now }
    requires most { (0 < most) × (most ≤ 2 ^ 39) }
    requires acts { seat.old.account.acts < 2 ^ 55 }
    requires taken { IsEmptyWhereTold (K.taken link.old) }
    requires written { IsEmptyWhereTold (K.written link.old) }
    requires closed { K.closed link.old ≡ false }
    ensures hall { seat.new.hall ≡ hall.now }
    ensures served { IsServed hall.now.opening number most seat.old.account seat.new.account (view_by K.taken K.written K.closed K.is_shut K.read_faults K.write_faults link.old) (view_by K.taken K.written K.closed K.is_shut K.read_faults K.write_faults link.new) result }
{
    let mut entries = SeatEntries::new(rt, hall, seat, number);
    let ended = hold(alloc, link, number, most, &mut entries);
    link.shut();
    ended
}
