//! Headers cut at each byte, frames of the least and the greatest length, and bytes that are no message.

use crate::hex::{put_texts, said};
use crate::streams::HELLO;
use of10_speech::{SpeechStop, SpokenEnd};
use of10_stream::Framer;
use of10_wire::WireWhy;
use std::alloc::{AllocError, Global};
use std::process::Abort;
use std::test::Fail;

/// What comes behind a HELLO, and where and why it is refused.
const REFUSED: &[(&[u8], u64, WireWhy)] = &[
    (b"02020008 00000000", 8, WireWhy::BadVersion),
    (b"01160008 00000002", 9, WireWhy::BadType),
    (b"01020007 00000000", 10, WireWhy::BadLength),
    // a header that is refused before its frame has come
    (b"0116ffff 00000002 00", 9, WireWhy::BadType),
    // a frame of another length than its type has, and an action of length 12
    (b"01050009 00000000 00", 10, WireWhy::BadLength),
    (
        b"010d001c 00000001 ffffffff ffff 000c 0000 000c 0001000000000000",
        24,
        WireWhy::BadAction,
    ),
];

fn is_refused(
    rt: &impl Abort,
    alloc: Global,
    text: &[u8],
    at: u64,
    why: WireWhy,
) -> Result<(), Fail> {
    let mut bytes = Vec::new(alloc);
    put_texts(&mut bytes, &[HELLO, text])?;
    let mut out = Vec::new(alloc);
    let found = said(alloc, &bytes, &[], false, &mut out)?;
    assert_eq!(rt; found.stop, SpeechStop::Ends(SpokenEnd::Wire { at, why }));
    assert_eq!(rt; out.len(), 16);
    Ok(())
}

#[test]
fn what_is_no_message_ends_the_session_at_its_place(rt: HostRuntime) -> Result<(), Fail> {
    for (text, at, why) in REFUSED {
        is_refused(&rt, rt.alloc(), text, *at, *why)?;
    }
    Ok(())
}

/// How many bytes are said to the first bytes of an ECHO_REQUEST of this length, and whether the session goes on.
fn echoed(alloc: Global, len: u16, come: usize) -> Result<(usize, bool), Fail> {
    let mut bytes = Vec::new(alloc);
    bytes.extend_from_slice(&[1, 2])?;
    bytes.extend_from_slice(&len.to_be_bytes())?;
    bytes.extend_from_slice(&[0, 0, 0, 9])?;
    for _ in 8..len {
        bytes.push(7)?;
    }
    bytes.truncate(come);
    let mut out = Vec::new(alloc);
    let found = said(alloc, &bytes, &[], false, &mut out)?;
    Ok((
        out.len(),
        found.stop == SpeechStop::Goes && found.ignored == 0,
    ))
}

#[test]
fn a_frame_is_answered_when_its_last_byte_has_come(rt: HostRuntime) -> Result<(), Fail> {
    for come in 0..8 {
        assert_eq!(rt; echoed(rt.alloc(), 8, come)?, (8, true));
    }
    assert_eq!(rt; echoed(rt.alloc(), 8, 8)?, (16, true));
    assert_eq!(rt; echoed(rt.alloc(), 65_535, 65_534)?, (8, true));
    assert_eq!(rt; echoed(rt.alloc(), 65_535, 65_535)?, (65_543, true));
    Ok(())
}

#[test]
fn a_header_comes_byte_by_byte(rt: HostRuntime) -> Result<(), Fail> {
    let mut framer = Framer::try_new(rt.alloc())?;
    for byte in [1, 0, 0, 8, 0, 0, 0] {
        let Ok(fed) = framer.feed(&[byte]) else {
            return Err(Fail::from(AllocError));
        };
        assert_eq!(rt; fed.used, 1);
        if fed.ready {
            return Err(Fail::from(AllocError));
        }
    }
    let Ok(fed) = framer.feed(&[0]) else {
        return Err(Fail::from(AllocError));
    };
    assert_eq!(rt; fed.used, 1);
    assert!(rt; fed.ready);
    Ok(())
}
