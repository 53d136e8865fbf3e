//! Each type of message in each phase.

use crate::hex::{put_texts, said};
use crate::streams::{FEATURES, HELLO, JOINED};
use of10_speech::{SpeechStop, SpokenEnd};
use std::alloc::{AllocError, Global};
use std::process::Abort;
use std::test::Fail;

/// What a message comes to.
#[derive(Clone, Copy, Debug, PartialEq, Eq)]
enum Outcome {
    Ignored,
    OutOfTurn,
    /// An ask that waits for its entry.
    Asks,
    /// A join of a switch that the network lacks.
    Unknown,
    Requests,
    Echoes,
}

use Outcome::{Asks, Echoes, Ignored, OutOfTurn, Requests, Unknown};

/// A type, the length of its frame, and what it comes to when HELLO, the features or a packet are waited for.
type Row = (u8, u8, Outcome, Outcome, Outcome);

const TYPES: &[Row] = &[
    // HELLO, ERROR, ECHO_REQUEST, ECHO_REPLY, VENDOR
    (0, 8, Requests, Ignored, Ignored),
    (1, 12, Ignored, Ignored, Ignored),
    (2, 8, Echoes, Echoes, Echoes),
    (3, 8, Ignored, Ignored, Ignored),
    (4, 12, Ignored, Ignored, Ignored),
    // FEATURES_REQUEST, FEATURES_REPLY
    (5, 8, OutOfTurn, OutOfTurn, OutOfTurn),
    (6, 32, OutOfTurn, Unknown, Ignored),
    // GET_CONFIG_REQUEST, GET_CONFIG_REPLY, SET_CONFIG
    (7, 8, OutOfTurn, OutOfTurn, OutOfTurn),
    (8, 12, OutOfTurn, Ignored, Ignored),
    (9, 12, OutOfTurn, OutOfTurn, OutOfTurn),
    // PACKET_IN, FLOW_REMOVED, PORT_STATUS
    (10, 30, OutOfTurn, Ignored, Asks),
    (10, 29, OutOfTurn, Ignored, Ignored),
    (11, 88, OutOfTurn, Ignored, Asks),
    (12, 64, OutOfTurn, Ignored, Ignored),
    // PACKET_OUT, FLOW_MOD, PORT_MOD
    (13, 16, OutOfTurn, OutOfTurn, OutOfTurn),
    (14, 72, OutOfTurn, OutOfTurn, OutOfTurn),
    (15, 32, OutOfTurn, OutOfTurn, OutOfTurn),
    // STATS_REQUEST, STATS_REPLY
    (16, 12, OutOfTurn, OutOfTurn, OutOfTurn),
    (17, 12, OutOfTurn, Ignored, Ignored),
    // BARRIER_REQUEST, BARRIER_REPLY, QUEUE_GET_CONFIG_REQUEST, QUEUE_GET_CONFIG_REPLY
    (18, 8, OutOfTurn, OutOfTurn, OutOfTurn),
    (19, 8, OutOfTurn, Ignored, Ignored),
    (20, 12, OutOfTurn, OutOfTurn, OutOfTurn),
    (21, 16, OutOfTurn, Ignored, Ignored),
];

/// Appends a frame of this type and length whose body is zeros, but for statistics: those are of tables.
fn put_frame(out: &mut Vec<u8>, kind: u8, len: u8) -> Result<(), AllocError> {
    out.extend_from_slice(&[1, kind, 0, len, 0, 0, 0, 1])?;
    for place in 8..len {
        let is_table = place == 9 && (kind == 16 || kind == 17);
        out.push(if is_table { 3 } else { 0 })?;
    }
    Ok(())
}

/// How the session stands behind a message at this place.
fn stop_of(outcome: Outcome, at: u64) -> SpeechStop {
    match outcome {
        OutOfTurn => SpeechStop::Ends(SpokenEnd::OutOfTurn { at }),
        Unknown => SpeechStop::Ends(SpokenEnd::UnknownSwitch { s: 0 }),
        Asks => SpeechStop::Waits,
        Ignored | Requests | Echoes => SpeechStop::Goes,
    }
}

fn sent(outcome: Outcome) -> &'static [u8] {
    match outcome {
        Requests => &[1, 5, 0, 8, 0, 0, 0, 2],
        Echoes => &[1, 3, 0, 8, 0, 0, 0, 1],
        _ => &[],
    }
}

/// The message of this type, behind these, comes to this.
fn comes_to(
    rt: &impl Abort,
    alloc: Global,
    before: &[&[u8]],
    kind: u8,
    len: u8,
    outcome: Outcome,
) -> Result<(), Fail> {
    let mut bytes = Vec::new(alloc);
    put_texts(&mut bytes, before)?;
    let at = bytes.len() as u64;
    let mut wanted = Vec::new(alloc);
    said(alloc, &bytes, &[JOINED], true, &mut wanted)?;
    wanted.extend_from_slice(sent(outcome))?;
    put_frame(&mut bytes, kind, len)?;
    let mut out = Vec::new(alloc);
    let found = said(alloc, &bytes, &[JOINED], true, &mut out)?;
    assert_eq!(rt; found.stop, stop_of(outcome, at), "{kind}");
    assert_eq!(rt; found.ignored, u64::from(outcome == Ignored), "{kind}");
    assert_eq!(rt; out.as_slice(), wanted.as_slice(), "{kind}");
    Ok(())
}

#[test]
fn each_type_comes_to_its_outcome_in_each_phase(rt: HostRuntime) -> Result<(), Fail> {
    for (kind, len, greet, features, serving) in TYPES {
        comes_to(&rt, rt.alloc(), &[], *kind, *len, *greet)?;
        comes_to(&rt, rt.alloc(), &[HELLO], *kind, *len, *features)?;
        comes_to(&rt, rt.alloc(), &[HELLO, FEATURES], *kind, *len, *serving)?;
    }
    Ok(())
}
