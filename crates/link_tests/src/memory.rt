//! Links and listeners in memory.
ghost use Rattle.std.specs.Prelude.{◌≡◌, ◌<◌, ◌+◌};

use std::alloc::{AllocError, Global};
use std::process::Abort;
use std::test::Fail;
use vericon_edge::fault::Failed;
use vericon_edge::fault_plan::FaultPlan;
use vericon_links::link::{Got, Link, write_whole};
use vericon_links::listener::{Arrival, Listener};
use vericon_links::mem_link::{LinkScript, MemLink};
use vericon_links::mem_listener::MemListener;

/// Reads from a link that gives `abcde`, each into as many bytes.
struct ReadRow {
    /// How many bytes a read gives at most.
    most: usize,
    failing: &'static [u64],
    room: usize,
    answers: &'static [Result<Got, Failed>],
    taken: usize,
}

const READS: [ReadRow; 8] = [
    ReadRow {
        most: 9,
        failing: &[],
        room: 9,
        answers: &[Ok(Got::Bytes(5)), Ok(Got::Closed), Ok(Got::Closed)],
        taken: 5,
    },
    ReadRow {
        most: 2,
        failing: &[],
        room: 9,
        answers: &[
            Ok(Got::Bytes(2)),
            Ok(Got::Bytes(2)),
            Ok(Got::Bytes(1)),
            Ok(Got::Closed),
        ],
        taken: 5,
    },
    ReadRow {
        most: 9,
        failing: &[],
        room: 3,
        answers: &[Ok(Got::Bytes(3)), Ok(Got::Bytes(2)), Ok(Got::Closed)],
        taken: 5,
    },
    ReadRow {
        most: 1,
        failing: &[],
        room: 1,
        answers: &[Ok(Got::Bytes(1)), Ok(Got::Bytes(1)), Ok(Got::Bytes(1))],
        taken: 3,
    },
    ReadRow {
        most: 3,
        failing: &[0],
        room: 9,
        answers: &[
            Err(Failed),
            Ok(Got::Bytes(3)),
            Ok(Got::Bytes(2)),
            Ok(Got::Closed),
        ],
        taken: 5,
    },
    ReadRow {
        most: 3,
        failing: &[1],
        room: 9,
        answers: &[
            Ok(Got::Bytes(3)),
            Err(Failed),
            Ok(Got::Bytes(2)),
            Ok(Got::Closed),
        ],
        taken: 5,
    },
    ReadRow {
        most: 3,
        failing: &[2],
        room: 9,
        answers: &[
            Ok(Got::Bytes(3)),
            Ok(Got::Bytes(2)),
            Err(Failed),
            Ok(Got::Closed),
        ],
        taken: 5,
    },
    ReadRow {
        most: 3,
        failing: &[1, 2],
        room: 9,
        answers: &[
            Ok(Got::Bytes(3)),
            Err(Failed),
            Err(Failed),
            Ok(Got::Bytes(2)),
        ],
        taken: 5,
    },
];

/// `abcde` is written whole, and `f` behind it.
struct WriteRow {
    /// How many bytes a write takes at most.
    most: usize,
    failing: &'static [u64],
    is_written: bool,
    written: &'static [u8],
}

const WRITES: [WriteRow; 10] = [
    WriteRow {
        most: 9,
        failing: &[],
        is_written: true,
        written: b"abcdef",
    },
    WriteRow {
        most: 9,
        failing: &[0],
        is_written: false,
        written: b"f",
    },
    WriteRow {
        most: 9,
        failing: &[1],
        is_written: true,
        written: b"abcde",
    },
    WriteRow {
        most: 1,
        failing: &[],
        is_written: true,
        written: b"abcdef",
    },
    WriteRow {
        most: 1,
        failing: &[0],
        is_written: false,
        written: b"f",
    },
    WriteRow {
        most: 1,
        failing: &[1],
        is_written: false,
        written: b"af",
    },
    WriteRow {
        most: 1,
        failing: &[2],
        is_written: false,
        written: b"abf",
    },
    WriteRow {
        most: 1,
        failing: &[3],
        is_written: false,
        written: b"abcf",
    },
    WriteRow {
        most: 1,
        failing: &[4],
        is_written: false,
        written: b"abcdf",
    },
    WriteRow {
        most: 1,
        failing: &[5],
        is_written: true,
        written: b"abcde",
    },
];

fn plan(alloc: Global, failing: &[u64]) -> Result<FaultPlan, AllocError> {
    Ok(FaultPlan::new(failing.to_vec(alloc)?))
}

/// What a link does that gives `abcde`.
fn script(
    alloc: Global,
    most: usize,
    reads: &[u64],
    writes: &[u64],
) -> Result<LinkScript, AllocError> {
    let most = most.max(1);
    let gives = b"abcde".as_slice().to_vec(alloc)?;
    Ok(LinkScript::new(gives, most, most, plan(alloc, reads)?, plan(alloc, writes)?))
}

fn reads_as(rt: &impl Abort, alloc: Global, row: &ReadRow) -> Result<(), AllocError> {
    let mut link = MemLink::new(alloc, script(alloc, row.most, row.failing, &[])?);
    let mut into = [0u8; 9];
    let room = row.room.min(9).max(1);
    let mut gathered = Vec::new(alloc);
    for answer in row.answers.iter() {
        let given = link.read(&mut into[..room]);
        assert_eq!(rt; given, *answer);
        if let Ok(Got::Bytes(width)) = given {
            gathered.extend_from_slice(&into[..width])?;
        }
    }
    assert_eq!(rt; link.taken(), row.taken);
    assert_eq!(rt;
        gathered.as_slice(),
        &b"abcde".as_slice()[..row.taken.min(5)]
    );
    Ok(())
}

fn writes_as(rt: &impl Abort, alloc: Global, row: &WriteRow) -> Result<(), AllocError> {
    let mut link = MemLink::new(alloc, script(alloc, row.most, &[], row.failing)?);
    assert_eq!(rt; write_whole(&mut link, b"abcde").is_ok(), row.is_written);
    assert_eq!(rt;
        write_whole(&mut link, b"f").is_ok(),
        row.written.ends_with(b"f")
    );
    assert_eq!(rt; link.written(), row.written);
    Ok(())
}

#[test]
fn each_read_may_fail(rt: HostRuntime) -> Result<(), Fail> {
    for row in READS.iter() {
        reads_as(&rt, rt.alloc(), row)?;
    }
    Ok(())
}

#[test]
fn each_write_may_fail(rt: HostRuntime) -> Result<(), Fail> {
    for row in WRITES.iter() {
        writes_as(&rt, rt.alloc(), row)?;
    }
    Ok(())
}

#[test]
fn a_link_that_is_shut_fails(rt: HostRuntime) -> Result<(), Fail> {
    let mut link = MemLink::new(rt.alloc(), script(rt.alloc(), 9, &[], &[])?);
    let mut into = [0u8; 2];
    assert_eq!(rt; link.read(&mut into), Ok(Got::Bytes(2)));
    assert_eq!(rt; link.write(b"g"), Ok(1));
    assert_eq!(rt; (link.is_shut(), link.is_closed()), (false, false));
    link.shut();
    assert_eq!(rt; (link.is_shut(), link.is_closed()), (true, false));
    assert_eq!(rt; link.read(&mut into), Err(Failed));
    assert_eq!(rt; link.write(b"h"), Err(Failed));
    assert_eq!(rt; link.written(), b"g".as_slice());
    assert_eq!(rt; link.taken(), 2);
    Ok(())
}

/// Reads from a link, and gives it back with a number.
fn settle(listener: &mut MemListener, number: u32, link: MemLink)
    requires { ⟦<MemListener as Listener>⟧.back listener.old < ⟦<MemListener as Listener>⟧.came listener.old }
    ensures came { ⟦<MemListener as Listener>⟧.came listener.new ≡ ⟦<MemListener as Listener>⟧.came listener.old }
    ensures back { ⟦<MemListener as Listener>⟧.back listener.new ≡ ⟦<MemListener as Listener>⟧.back listener.old + 1 }
{
    let mut link = link;
    let mut into = [0u8; 9];
    let _ = link.read(&mut into);
    listener.give_back(number, link);
}

#[test]
fn links_come_and_go_back(rt: HostRuntime) -> Result<(), Fail> {
    let alloc = rt.alloc();
    let scripts = vec![in alloc; script(alloc, 4, &[], &[])?, script(alloc, 3, &[], &[])?]?;
    let mut listener = MemListener::new(alloc, scripts, plan(alloc, &[0])?, plan(alloc, &[2])?)?;
    assert_eq!(rt; listener.listen(6633), Err(Failed));
    assert_eq!(rt; listener.accept().is_err(), true);
    assert_eq!(rt; listener.listen(6633), Ok(()));
    let Ok(Arrival::Came(first)) = listener.accept() else {
        return Err(Fail::from("no link"));
    };
    assert_eq!(rt; listener.accept().is_err(), true);
    let Ok(Arrival::Came(second)) = listener.accept() else {
        return Err(Fail::from("no second link"));
    };
    let Ok(Arrival::Closed) = listener.accept() else {
        return Err(Fail::from("a third link"));
    };
    assert_eq!(rt; listener.uses(), 7);
    settle(&mut listener, 7, second);
    settle(&mut listener, 5, first);
    let given = listener.given();
    assert_eq!(rt; given.len(), 2);
    assert_eq!(rt; (given[0].0, given[0].1.taken()), (7, 3));
    assert_eq!(rt; (given[1].0, given[1].1.taken()), (5, 4));
    Ok(())
}
