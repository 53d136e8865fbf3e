//! How many conditions a level has, and of which kinds.
ghost use Rattle.std.specs.Prelude.{◌≡◌, ◌<◌, ◌≤◌, ◌+◌, ◌*◌, length, slice_get, Some};
ghost use Rattle.csdn_conditions.specs.Kinds.{kinds, kinds_of, events_where, IsWithin};

use csdn_core::program::Program;

/// An event: a packet that comes in, a packet that a flow rule sends, or the end of the rules of a match.
#[derive(Clone, Copy, Debug, PartialEq, Eq)]
pub enum EventKind {
    PktIn,
    PktFlow,
    Expire,
}

/// What a condition says. Invariants go by their places among those of their kind.
#[derive(Clone, Copy, Debug, PartialEq, Eq)]
pub enum CondKind {
    /// No network meets the topology invariants. Where this fails, there is a network.
    Network,
    /// A safety invariant is true after `k` events from the initial state.
    Init { k: u8, v: u32 },
    /// An event keeps a safety invariant true.
    Step { v: u32, event: EventKind },
    /// A transition invariant is true after an event, of its packet.
    Trans { t: u32, event: EventKind },
}

/// How many conditions a level has. It takes no memory.
pub fn condition_count(program: &Program, level: u8) -> u32
    requires { level ≤ 9 }
    ensures count { result ≡ length (kinds program.now level) }
    ensures few { result ≤ 833 }
{
    let parts = program.parts();
    let safety = parts.safety.len();
    let trans = parts.trans.len();
    let timed = parts.timeout.is_some();
    count_of(timed, level, safety as u32, trans as u32)
}

/// The kind of the condition with this number. It takes no memory.
pub fn condition_kind(program: &Program, level: u8, index: u32) -> CondKind
    requires level { level ≤ 9 }
    requires index { index < length (kinds program.now level) }
    ensures there { slice_get (kinds program.now level) index ≡ Some result }
    ensures within { IsWithin level (length program.now.safety) (length program.now.trans) result }
{
    let parts = program.parts();
    let safety = parts.safety.len();
    let trans = parts.trans.len();
    let timed = parts.timeout.is_some();
    kind_at(timed, level, safety as u32, trans as u32, index)
}

// Of so many safety and transition invariants.
fn count_of(timed: bool, level: u8, safety: u32, trans: u32) -> u32
    requires level { level ≤ 9 }
    requires few { safety + trans ≤ 64 }
    ensures count { result ≡ length (kinds_of (events_where timed) level safety trans) }
    ensures few { result ≤ 833 }
{
    let events = event_count(timed);
    1 + (level as u32 + 1) * safety + safety * events + trans * events
}

fn kind_at(timed: bool, level: u8, safety: u32, trans: u32, index: u32) -> CondKind
    requires level { level ≤ 9 }
    requires few { safety + trans ≤ 64 }
    requires index { index < length (kinds_of (events_where timed) level safety trans) }
    ensures there { slice_get (kinds_of (events_where timed) level safety trans) index ≡ Some result }
    ensures within { IsWithin level safety trans result }
{
    if index == 0 {
        return CondKind::Network;
    }
    let place = index - 1;
    let inits = (level as u32 + 1) * safety;
    if place < inits {
        return CondKind::Init {
            k: (place / safety) as u8,
            v: place % safety,
        };
    }
    let place = place - inits;
    let events = event_count(timed);
    if place < safety * events {
        return CondKind::Step {
            v: place / events,
            event: event_at(timed, place % events),
        };
    }
    let place = place - safety * events;
    CondKind::Trans {
        t: place / events,
        event: event_at(timed, place % events),
    }
}

// How many events a program has whose rules end by themselves, or don't.
fn event_count(timed: bool) -> u32
    ensures count { result ≡ length (events_where timed) }
    ensures some { 0 < result }
    ensures few { result ≤ 3 }
{
    if timed { 3 } else { 2 }
}

fn event_at(timed: bool, place: u32) -> EventKind
    requires { place < length (events_where timed) }
    ensures { slice_get (events_where timed) place ≡ Some result }
{
    match place {
        0 => EventKind::PktIn,
        1 => EventKind::PktFlow,
        _ => EventKind::Expire,
    }
}
