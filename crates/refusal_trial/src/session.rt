//! A session of the firewall over a link in memory.

use crate::Said;
use crate::hall::firewall;
use session_serve::SessionEnd;
use std::alloc::{AllocError, Global};
use std::sync::Wait;
use vericon_edge::fault_plan::FaultPlan;
use vericon_links::mem_link::{LinkScript, MemLink};

/// HELLO; FEATURES_REPLY of switch 1; a packet from host 1 to host 2 on port 1, with buffer 5.
const SENT: &[u8] = &[
    1, 0, 0, 8, 0, 0, 0, 0, 1, 6, 0, 32, 0, 0, 0, 2, 0, 0, 0, 0, 0, 0, 0, 1, 0, 0, 1, 0, 1, 0, 0,
    0, 0, 0, 0, 0, 0, 0, 15, 255, 1, 10, 0, 32, 0, 0, 0, 0, 0, 0, 0, 5, 0, 14, 0, 1, 0, 0, 0, 0, 0,
    0, 0, 2, 0, 0, 0, 0, 0, 1, 8, 0,
];

fn status_of(end: SessionEnd) -> u8 {
    match end {
        SessionEnd::Closed => 0,
        SessionEnd::Memory => 7,
        SessionEnd::WriteFault => 8,
        SessionEnd::ReadFault
        | SessionEnd::Wire { .. }
        | SessionEnd::Incompatible
        | SessionEnd::OutOfTurn { .. }
        | SessionEnd::UnknownSwitch { .. }
        | SessionEnd::HistoryFull
        | SessionEnd::StreamFull => 9,
    }
}

/// A link whose switch sends in pieces that cut headers.
fn link(alloc: Global) -> Option<MemLink> {
    let mut gives = Vec::new(alloc);
    let Ok(()) = gives.extend_from_slice(SENT) else {
        return None;
    };
    let script = LinkScript::new(gives, 5, 7, FaultPlan::none(alloc), FaultPlan::none(alloc));
    Some(MemLink::new(alloc, script))
}

const DIGITS: [u8; 16] = *b"0123456789abcdef";

/// Two digits for each byte.
fn digits_of(alloc: Global, bytes: &[u8]) -> Result<Vec<u8>, AllocError> {
    let mut text = Vec::new(alloc);
    for byte in bytes {
        text.push(DIGITS[usize::from(*byte / 16)])?;
        text.push(DIGITS[usize::from(*byte % 16)])?;
    }
    Ok(text)
}

/// The digits of what the session writes, and `closed` where its link closed; and the status that tells its end.
pub fn said<R: Wait>(rt: &R, alloc: Global) -> Option<Said> {
    let mut scene = firewall(alloc)?;
    let (end, link) = scene.serve(rt, alloc, link(alloc)?)?;
    let Ok(mut text) = digits_of(alloc, link.written()) else {
        return None;
    };
    if end == SessionEnd::Closed && text.extend_from_slice(b"\nclosed\n").is_err() {
        return None;
    }
    Some((text, status_of(end)))
}
