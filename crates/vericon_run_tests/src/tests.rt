//! What a run prints, and what it hands back.
use crate::calls::{Scene, call, files_of, words_of};
use crate::expected::{FLOOD, JOINED, THREE_PACKETS};
use crate::gate::{GateLink, GateListener};
use crate::rows::{ACCEPTS, Accepts, FILES, SERVED, Served, Unserved, WORDS};
use crate::scenes::{Net, Program};
use std::alloc::Global;
use std::process::Abort;
use std::sync::{Arc, Mutex, Wait};
use std::test::Fail;
use std::thread::Threads;
use vericon_edge::fault_plan::FaultPlan;
use vericon_edge::mem_sink::MemSink;
use vericon_run::run_call;

const NOBODY: &[u8] = b"yes level 1\nvericon-journal 1\nend\nlisten fault\n";

const COUNTEREXAMPLE: &[u8] = b"counterexample level 0 condition 2 step A pktIn\nvericon-net 1\n";

const BOTH: &[u8] =
    b"yes level 0\nsession 1 closed ignored 0\nsession 2 closed ignored 0\nvericon-journal 1\nend\n";

// The firewall is served to two links whose switches send three packets.
const SCENE: Scene = Scene {
    program: Some(Program::Firewall),
    net: Some(Net::Two),
    links: 2,
    packets: 3,
    listen_fails: false,
    accept_fails: None,
    write_fails: false,
};

// Each call prints what stands in its row, and doesn't listen.
fn refuses<R: Threads + Wait + Sync + Abort>(
    rt: &R,
    alloc: Global,
    rows: &[Unserved],
) -> Result<(), Fail> {
    for (words, program, net, text, status) in rows {
        let scene = Scene {
            program: *program,
            net: *net,
            ..SCENE
        };
        let left = call(rt, alloc, words, &scene)?;
        assert_eq!(rt; left.text.as_slice(), *text);
        assert_eq!(rt; left.ran.status, *status);
        assert_eq!(rt; left.ran.listener.uses(), 0);
        assert_eq!(rt; left.ran.runtime.is_none(), true);
    }
    Ok(())
}

#[test]
fn words_are_refused(rt: HostRuntime) -> Result<(), Fail> {
    refuses(&rt, rt.alloc(), WORDS)
}

#[test]
fn files_are_refused(rt: HostRuntime) -> Result<(), Fail> {
    refuses(&rt, rt.alloc(), FILES)
}

// Each call prints what stands in its row, and gives all links back.
fn serves<R: Threads + Wait + Sync + Abort>(
    rt: &R,
    alloc: Global,
    rows: &[Served],
) -> Result<(), Fail> {
    for (words, program, links, packets, text) in rows {
        let scene = Scene {
            program: Some(*program),
            links: *links,
            packets: *packets,
            ..SCENE
        };
        let left = call(rt, alloc, words, &scene)?;
        assert_eq!(rt; left.text.as_slice(), *text);
        assert_eq!(rt; left.ran.status, 0);
        assert_eq!(rt; left.ran.runtime.is_some(), true);
    }
    Ok(())
}

#[test]
fn sessions_are_served(rt: HostRuntime) -> Result<(), Fail> {
    serves(&rt, rt.alloc(), SERVED)
}

#[test]
fn links_are_answered(rt: HostRuntime) -> Result<(), Fail> {
    let alloc = rt.alloc();
    let words = ["run", "--strengthen", "1", "--workers", "1", "P", "N"];
    let left = call(&rt, alloc, &words, &SCENE)?;
    assert_eq!(rt; left.ran.listener.given().len(), 2);
    for (place, (number, link)) in left.ran.listener.given().iter().enumerate() {
        assert_eq!(rt; *number, place as u32 + 1);
        assert_eq!(rt; link.is_shut(), true);
        let written = link.written();
        assert_eq!(rt; written.starts_with(JOINED), true);
        assert_eq!(rt; written.ends_with(THREE_PACKETS), true);
        assert_eq!(rt; written.len(), JOINED.len() + THREE_PACKETS.len());
    }
    Ok(())
}

#[test]
fn a_flood_is_sent(rt: HostRuntime) -> Result<(), Fail> {
    let alloc = rt.alloc();
    let scene = Scene {
        program: Some(Program::Learning),
        links: 1,
        packets: 1,
        ..SCENE
    };
    let left = call(&rt, alloc, &["run", "P", "N"], &scene)?;
    let [(number, link)] = left.ran.listener.given() else {
        return Err(Fail::from("not one link"));
    };
    assert_eq!(rt; *number > 0, true);
    assert_eq!(rt; link.written().starts_with(JOINED), true);
    assert_eq!(rt; link.written().ends_with(FLOOD), true);
    Ok(())
}

// Each call ends at the `accept` of its row, and all links that came are given back, answered whole.
fn stops<R: Threads + Wait + Sync + Abort>(
    rt: &R,
    alloc: Global,
    rows: &[Accepts],
) -> Result<(), Fail> {
    for (number, text, status) in rows {
        let scene = Scene {
            program: Some(Program::Learning),
            links: 3,
            packets: 1,
            accept_fails: Some(*number),
            ..SCENE
        };
        let left = call(rt, alloc, &["run", "--workers", "1", "P", "N"], &scene)?;
        assert_eq!(rt; left.text.as_slice(), *text);
        assert_eq!(rt; left.ran.status, *status);
        for (_, link) in left.ran.listener.given() {
            assert_eq!(rt; link.is_closed(), true);
            assert_eq!(rt; link.is_shut(), true);
            assert_eq!(rt; link.written().ends_with(FLOOD), true);
        }
    }
    Ok(())
}

#[test]
fn each_accept_may_fail(rt: HostRuntime) -> Result<(), Fail> {
    stops(&rt, rt.alloc(), ACCEPTS)
}

#[test]
fn nobody_listens(rt: HostRuntime) -> Result<(), Fail> {
    let scene = Scene {
        listen_fails: true,
        ..SCENE
    };
    let words = ["run", "--strengthen", "1", "P", "N"];
    let left = call(&rt, rt.alloc(), &words, &scene)?;
    assert_eq!(rt; left.ran.status, 9);
    assert_eq!(rt; left.text.as_slice(), NOBODY);
    Ok(())
}

#[test]
fn nobody_reads(rt: HostRuntime) -> Result<(), Fail> {
    let scene = Scene {
        write_fails: true,
        ..SCENE
    };
    let words = ["run", "--strengthen", "1", "P", "N"];
    let left = call(&rt, rt.alloc(), &words, &scene)?;
    assert_eq!(rt; left.ran.status, 8);
    assert_eq!(rt; left.ran.listener.uses(), 0);
    Ok(())
}

#[test]
fn a_broken_program_is_not_served(rt: HostRuntime) -> Result<(), Fail> {
    let scene = Scene {
        program: Some(Program::Armed),
        ..SCENE
    };
    let left = call(&rt, rt.alloc(), &["run", "P", "N"], &scene)?;
    assert_eq!(rt; left.ran.status, 1);
    assert_eq!(rt; left.text.starts_with(COUNTEREXAMPLE), true);
    assert_eq!(rt; left.ran.listener.uses(), 0);
    Ok(())
}

// Whichever worker takes which link.
#[test]
fn two_workers_serve_both(rt: HostRuntime) -> Result<(), Fail> {
    let alloc = rt.alloc();
    let words = [
        "run",
        "--strengthen",
        "1",
        "--workers",
        "2",
        "--sessions",
        "2",
        "P",
        "N",
    ];
    let left = call(&rt, alloc, &words, &SCENE)?;
    assert_eq!(rt; left.ran.status, 0);
    assert_eq!(rt;
        left.text
            .starts_with(b"yes level 1\nsession 1 closed ignored 0\n"),
        true
    );
    let Some(runtime) = left.ran.runtime.as_ref() else {
        return Err(Fail::from("no runtime"));
    };
    assert_eq!(rt; runtime.history().len(), 8);
    for (_, link) in left.ran.listener.given() {
        assert_eq!(rt; link.written().starts_with(JOINED), true);
    }
    Ok(())
}

const GATE_FILES: Scene = Scene {
    program: Some(Program::Learning),
    net: Some(Net::Two),
    links: 0,
    packets: 0,
    listen_fails: false,
    accept_fails: None,
    write_fails: false,
};

#[test]
fn two_sessions_at_once(rt: HostRuntime) -> Result<(), Fail> {
    let alloc = rt.alloc();
    let gate = Arc::new(alloc, Mutex::new(false))?;
    let mut links = Vec::new(alloc);
    links.push(GateLink::new(rt.clone()?, Arc::try_clone(&gate)?, false))?;
    links.push(GateLink::new(rt.clone()?, gate, true))?;
    let listener = GateListener::new(links);
    let words = words_of(
        alloc,
        &["run", "--workers", "2", "--sessions", "2", "P", "N"],
    )?;
    let mut files = files_of(alloc, &GATE_FILES)?;
    let mut out = MemSink::new(alloc, 1 << 20, FaultPlan::none(alloc));
    let ran = run_call(&rt, alloc, &words, &mut files, listener, &mut out);
    assert_eq!(rt; ran.status, 0);
    assert_eq!(rt; out.bytes(), BOTH);
    assert_eq!(rt; ran.listener.back, 2);
    Ok(())
}
