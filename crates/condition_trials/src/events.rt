//! All events over one switch, two hosts and two ports.
use csdn_conditions::kinds::EventKind;
use csdn_core::event::Event;
use std::alloc::{AllocError, Global};

/// The packets that may come in, the ways in which rules may send them, or the matches whose rules may end.
pub fn all_events(alloc: Global, kind: EventKind) -> Result<Vec<Event>, AllocError> {
    let mut events = Vec::new(alloc);
    for a in 1..=2 {
        for b in 1..=2 {
            for i in 1..=2 {
                match kind {
                    EventKind::PktIn => events.push(Event::PktIn { s: 1, a, b, i })?,
                    EventKind::PktFlow => {
                        for o in 1..=2 {
                            events.push(Event::PktFlow { s: 1, a, b, i, o })?;
                        }
                    }
                    EventKind::Expire => events.push(Event::Expire { s: 1, a, b, i })?,
                }
            }
        }
    }
    Ok(events)
}
