//! Frames read, written and refused; the rows are worked by hand.

use super::*;
use crate::rows::{
    ALLOWED, FLOW_MOD, NOT_ALLOWED, PADDED, PLAIN, QUEUES, REFUSED, REFUSED_STATS, REPLIES,
    REQUESTS,
};
use of10_stats::{Queue, QueueProperty, StatsReply};
use of10_wire::{Action, Actions, Body, WireRefusal, WireWhy};
use sqlite_items::Items;
use std::alloc::{AllocError, Global};
use std::process::Abort;
use std::test::Fail;

/// The frame is read, and its message is written as wanted.
fn is_written(rt: &impl Abort, alloc: Global, frame: &[u8], wanted: &[u8]) -> Result<(), Fail> {
    let message = decode(alloc, frame)?;
    let mut out = Vec::new(alloc);
    encode(&message, &mut out)?;
    assert_eq!(rt; out.as_slice(), wanted);
    Ok(())
}

fn are_written(rt: &impl Abort, alloc: Global, rows: &[(&[u8], &[u8])]) -> Result<(), Fail> {
    for (frame, wanted) in rows {
        is_written(rt, alloc, frame, wanted)?;
    }
    Ok(())
}

/// The bytes break a rule at a place.
fn is_refused(rt: &impl Abort, alloc: Global, bytes: &[u8], at: usize, why: WireWhy) {
    match decode(alloc, bytes) {
        Ok(_) => assert!(rt; false, "{bytes:?}"),
        Err(refusal) => assert_eq!(rt; refusal, WireRefusal { at, why }),
    }
}

fn are_refused(rt: &impl Abort, alloc: Global, rows: &[(&[u8], usize, WireWhy)]) {
    for (bytes, at, why) in rows {
        is_refused(rt, alloc, bytes, *at, *why);
    }
}

/// A frame of this type and length, whose body is zeros.
fn zeros(alloc: Global, kind: u8, len: u8) -> Result<Vec<u8>, AllocError> {
    let mut frame = Vec::new(alloc);
    frame.extend_from_slice(&[1, kind, 0, len, 0, 0, 0, 1])?;
    for _ in 8..len {
        frame.push(0)?;
    }
    Ok(frame)
}

#[test]
fn frames_are_read_and_written(rt: HostRuntime) -> Result<(), Fail> {
    for frame in PLAIN {
        is_written(&rt, rt.alloc(), frame, frame)?;
    }
    are_written(&rt, rt.alloc(), PADDED)?;
    are_written(&rt, rt.alloc(), REQUESTS)?;
    are_written(&rt, rt.alloc(), REPLIES)?;
    are_written(&rt, rt.alloc(), QUEUES)
}

#[test]
fn each_rule_refuses_at_its_place(rt: HostRuntime) {
    are_refused(&rt, rt.alloc(), REFUSED);
    are_refused(&rt, rt.alloc(), REFUSED_STATS);
}

#[test]
fn a_frame_has_a_length_of_its_layout(rt: HostRuntime) -> Result<(), Fail> {
    for (kind, len) in ALLOWED {
        let frame = zeros(rt.alloc(), *kind, *len)?;
        is_written(&rt, rt.alloc(), &frame, &frame)?;
    }
    for (kind, len) in NOT_ALLOWED {
        let frame = zeros(rt.alloc(), *kind, *len)?;
        is_refused(&rt, rt.alloc(), &frame, 2, WireWhy::BadLength);
    }
    Ok(())
}

/// The actions of a FLOW_MOD with these times.
fn actions_of(message: &Message) -> &[Action] {
    match message {
        Message::FlowMod {
            command: 3,
            idle_timeout: 10,
            hard_timeout: 20,
            actions,
            ..
        } => actions.as_slice(),
        _ => &[],
    }
}

/// Whether some actions of the FLOW_MOD with each kind of them stand where they should.
fn are_in_place(actions: &[Action]) -> bool {
    matches!(
        actions.get(0),
        Some(Action::Output {
            port: 2,
            max_len: 128
        })
    ) && matches!(
        actions.get(4),
        Some(Action::SetDlSrc {
            dl_addr: [0, 0, 0, 0, 0, 1]
        })
    ) && matches!(
        actions.get(5),
        Some(Action::SetDlDst {
            dl_addr: [0, 0, 0, 0, 0, 2]
        })
    ) && matches!(
        actions.get(11),
        Some(Action::Enqueue {
            port: 3,
            queue_id: 4
        })
    ) && matches!(actions.get(13), Some(Action::Vendor { vendor: 0x2320, body }) if body.len() == 8)
}

/// Whether the fields of the messages of some rows are where the layouts say.
fn has_its_fields(message: &Message) -> bool {
    match message {
        Message::Hello { xid, version, body } => {
            *xid == 0x102 && *version == 4 && body.as_slice() == [0xab, 0xcd].as_slice()
        }
        Message::EchoRequest { xid, body } => *xid == 9 && body.as_slice() == b"abcd".as_slice(),
        Message::EchoReply { xid, body } => *xid == 0xffffffff && body.is_empty(),
        Message::PacketIn {
            xid: 8,
            buffer_id: 256,
            total_len: 64,
            in_port: 1,
            reason: 0,
            body,
        } => body.as_slice() == [0xca, 0xfe].as_slice(),
        Message::PortMod {
            xid: 13,
            port_no: 3,
            hw_addr: [10, 11, 12, 13, 14, 15],
            config: 1,
            mask: 2,
            advertise: 3,
        } => true,
        Message::StatsReply {
            body: StatsReply::Desc {
                hw_desc,
                serial_num,
                dp_desc,
                ..
            },
            ..
        } => hw_desc[1] == 1 && serial_num[0] == 0 && serial_num[31] == 31 && dp_desc[0] == 32,
        _ => false,
    }
}

/// A DESC reply, whose bytes are numbered from 0 behind its kind and flags.
fn description(alloc: Global) -> Result<Vec<u8>, AllocError> {
    let mut frame = Vec::new(alloc);
    frame.extend_from_slice(&[1, 17, 4, 44, 0, 0, 0, 1, 0, 0, 0, 0])?;
    let mut byte: u8 = 0;
    for _ in 0..1056 {
        frame.push(byte)?;
        byte = byte.wrapping_add(1);
    }
    Ok(frame)
}

#[test]
fn each_field_has_its_place(rt: HostRuntime) -> Result<(), Fail> {
    let rows: [&[u8]; 5] = [PLAIN[8], PLAIN[9], PLAIN[10], PADDED[1].0, PADDED[5].0];
    for frame in rows {
        let message = decode(rt.alloc(), frame)?;
        assert!(rt; has_its_fields(&message), "{frame:?}");
    }
    let frame = description(rt.alloc())?;
    is_written(&rt, rt.alloc(), &frame, &frame)?;
    let message = decode(rt.alloc(), &frame)?;
    assert!(rt; has_its_fields(&message));
    let message = decode(rt.alloc(), FLOW_MOD)?;
    let actions = actions_of(&message);
    assert!(rt; actions.len() == 14 && are_in_place(actions));
    Ok(())
}

/// A body of so many bytes.
fn body_of(alloc: Global, len: usize) -> Result<Body, AllocError> {
    Ok(Body::from_vec(vec![in alloc; 7; len]?))
}

#[test]
fn the_longest_echo_is_sent_and_no_longer_one(rt: HostRuntime) -> Result<(), Fail> {
    let body = body_of(rt.alloc(), 65527)?;
    let longest = Message::EchoRequest { xid: 1, body };
    assert!(rt; is_sendable(&longest));
    let read = again(rt.alloc(), &longest)?;
    assert!(rt; read.kind() == 2 && read.xid() == 1 && read.version() == 1);
    let reply = read.into_echo_reply();
    assert!(rt; reply.kind() == 3 && reply.xid() == 1);
    let body = body_of(rt.alloc(), 65528)?;
    assert!(rt; !is_sendable(&Message::EchoRequest { xid: 1, body }));
    Ok(())
}

/// A PACKET_OUT with one vendor action, whose body has so many bytes.
fn vendor_action(alloc: Global, len: usize) -> Result<Message, Fail> {
    let mut list = Vec::new(alloc);
    let body = body_of(alloc, len)?;
    list.push(Action::Vendor { vendor: 1, body })?;
    Ok(Message::PacketOut {
        xid: 1,
        buffer_id: 0,
        in_port: 1,
        actions: Actions::from_vec(list),
        body: body_of(alloc, 3)?,
    })
}

/// A QUEUE_GET_CONFIG_REPLY with one property of a kind.
fn other_property(alloc: Global, kind: u16) -> Result<Message, Fail> {
    let body = Body::from_vec(Vec::new(alloc));
    let mut properties = Vec::new(alloc);
    properties.push(QueueProperty::Other { kind, body })?;
    let mut queues = Vec::new(alloc);
    queues.push(Queue {
        queue_id: 1,
        properties: Items::from_vec(properties),
    })?;
    Ok(Message::QueueGetConfigReply {
        xid: 1,
        port: 3,
        queues: Items::from_vec(queues),
    })
}

#[test]
fn what_is_sent_has_proper_parts(rt: HostRuntime) -> Result<(), Fail> {
    for (len, sent) in [(0, true), (8, true), (12, false)] {
        assert_eq!(rt; is_sendable(&vendor_action(rt.alloc(), len)?), sent);
    }
    for (kind, sent) in [(0, true), (1, false), (2, true)] {
        assert_eq!(rt; is_sendable(&other_property(rt.alloc(), kind)?), sent);
    }
    Ok(())
}
