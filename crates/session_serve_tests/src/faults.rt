//! A session of which one read fails, or one write, whichever it is.

use crate::cases::{CLOSES, CONFIG, Case, DELETE, GREETING, PACKET_OUT, REQUEST, RULE, bytes_of};
use crate::halls::{Scene, firewall, serve_link};
use session_serve::{Ended, SessionEnd};
use std::alloc::{AllocError, Global};
use std::process::Abort;
use std::sync::Wait;
use std::test::Fail;
use vericon_edge::fault_plan::FaultPlan;
use vericon_links::mem_link::{LinkScript, MemLink};

/// A call that fails, counted from 0.
#[derive(Clone, Copy, Debug)]
enum Fault {
    Read(u64),
    Write(u64),
}

// The reads or the writes in which this fault is planned.
fn plans(alloc: Global, fault: Fault) -> Result<(FaultPlan, FaultPlan), AllocError> {
    let mut failing = Vec::new(alloc);
    match fault {
        Fault::Read(number) => {
            failing.push(number)?;
            Ok((FaultPlan::new(failing), FaultPlan::none(alloc)))
        }
        Fault::Write(number) => {
            failing.push(number)?;
            Ok((FaultPlan::none(alloc), FaultPlan::new(failing)))
        }
    }
}

// A session in a hall of its own, whose reads give and whose writes take so many bytes at most; none for want of memory.
fn served<R: Wait>(rt: &R, alloc: Global, most: usize, fault: Fault) -> Option<(Ended, MemLink)> {
    let Ok(gives) = bytes_of(alloc, CLOSES.sent) else {
        return None;
    };
    let Ok((reads, writes)) = plans(alloc, fault) else {
        return None;
    };
    let mut scene = firewall(alloc, 8)?;
    let script = LinkScript::new(gives, most.max(1), most.max(1), reads, writes);
    let link = MemLink::new(alloc, script);
    serve_link(rt, alloc, &mut scene, link, 1, 1 << 39)
}

/// How many bytes are written once so many were taken: at first, behind HELLO, behind FEATURES_REPLY, and behind the packet.
fn written_after(taken: usize) -> usize {
    match taken {
        0..=7 => 8,
        8..=39 => 16,
        40..=71 => 100,
        _ => 204,
    }
}

#[test]
fn each_read_may_fail(rt: HostRuntime) -> Result<(), Fail> {
    let alloc = rt.alloc();
    let whole = bytes_of(alloc, CLOSES.written)?;
    for number in 0..73u64 {
        let Some((ended, link)) = served(&rt, alloc, 1, Fault::Read(number)) else {
            return Err(AllocError.into());
        };
        assert!(&rt;
            ended.end == SessionEnd::ReadFault,
            "end where read {number} fails"
        );
        assert!(&rt; link.taken() as u64 == number);
        assert!(&rt; link.written().len() == written_after(link.taken()));
        assert!(&rt; whole.starts_with(link.written()));
        assert!(&rt; link.is_shut());
    }
    // the read of this number answers that the link is closed
    let Some((ended, link)) = served(&rt, alloc, 1, Fault::Read(73)) else {
        return Err(AllocError.into());
    };
    assert!(&rt; ended.end == SessionEnd::Closed);
    assert!(&rt; link.written() == whole.as_slice());
    Ok(())
}

#[test]
fn each_write_may_fail(rt: HostRuntime) -> Result<(), Fail> {
    let alloc = rt.alloc();
    let whole = bytes_of(alloc, CLOSES.written)?;
    for number in 0..204u64 {
        let Some((ended, link)) = served(&rt, alloc, 1, Fault::Write(number)) else {
            return Err(AllocError.into());
        };
        assert!(&rt;
            ended.end == SessionEnd::WriteFault,
            "end where write {number} fails"
        );
        assert!(&rt; link.written().len() as u64 == number);
        assert!(&rt; whole.starts_with(link.written()));
        assert!(&rt; link.is_shut());
    }
    let Some((ended, link)) = served(&rt, alloc, 1, Fault::Write(204)) else {
        return Err(AllocError.into());
    };
    assert!(&rt; ended.end == SessionEnd::Closed);
    assert!(&rt; link.written() == whole.as_slice());
    Ok(())
}
