//! What each session comes to.

use crate::cases::{COMES_BACK, CUTS, Case, ENDS, FULL, bytes_of};
use crate::dialogue::{Dialogue, STEPS};
use crate::halls::{Scene, firewall, serve_link, serve_on, served};
use session_serve::SessionEnd;
use std::alloc::{AllocError, Global};
use std::process::Abort;
use std::sync::Wait;
use std::test::Fail;
use vericon_edge::fault_plan::FaultPlan;
use vericon_links::mem_link::{LinkScript, MemLink};

/// The case comes to what it says, and its link is shut.
fn comes<R: Wait + Abort>(
    rt: &R,
    alloc: Global,
    scene: &mut Scene,
    case: &Case,
    name: usize,
) -> Result<(), AllocError> {
    let written = bytes_of(alloc, case.written)?;
    let Some((ended, link)) = served(rt, alloc, scene, case) else {
        return Err(AllocError);
    };
    assert!(rt; ended.end == case.end, "end of {name}");
    assert!(rt; ended.ignored == case.ignored, "ignored in {name}");
    assert!(rt; link.written() == written.as_slice(), "written in {name}");
    assert!(rt; link.is_shut(), "shut in {name}");
    Ok(())
}

/// Each case comes to what it says, in a hall of its own.
fn come<R: Wait + Abort>(rt: &R, alloc: Global, cases: &[Case]) -> Result<(), AllocError> {
    for (i, case) in cases.iter().enumerate() {
        let Some(mut scene) = firewall(alloc, 8) else {
            return Err(AllocError);
        };
        comes(rt, alloc, &mut scene, case, i)?;
    }
    Ok(())
}

#[test]
fn each_session_ends_by_its_cause(rt: HostRuntime) -> Result<(), Fail> {
    come(&rt, rt.alloc(), ENDS)?;
    come(&rt, rt.alloc(), CUTS)?;
    Ok(())
}

#[test]
fn a_switch_comes_back(rt: HostRuntime) -> Result<(), Fail> {
    let Some(mut scene) = firewall(rt.alloc(), 8) else {
        return Err(AllocError.into());
    };
    for (i, case) in COMES_BACK.iter().enumerate() {
        comes(&rt, rt.alloc(), &mut scene, case, i)?;
    }
    Ok(())
}

#[test]
fn a_full_history_ends_a_session(rt: HostRuntime) -> Result<(), Fail> {
    let Some(mut scene) = firewall(rt.alloc(), 1) else {
        return Err(AllocError.into());
    };
    comes(&rt, rt.alloc(), &mut scene, &FULL, 0)?;
    Ok(())
}

/// As many HELLOs.
fn hellos(alloc: Global, count: usize) -> Result<Vec<u8>, AllocError> {
    let mut out = Vec::new(alloc);
    for _ in 0..count {
        out.extend_from_slice(&[1, 0, 0, 8, 0, 0, 0, 0])?;
    }
    Ok(out)
}

#[test]
fn many_messages_are_counted(rt: HostRuntime) -> Result<(), Fail> {
    let alloc = rt.alloc();
    let Some(mut scene) = firewall(alloc, 1) else {
        return Err(AllocError.into());
    };
    let script = LinkScript::new(
        hellos(alloc, 100000)?,
        1 << 20,
        1 << 20,
        FaultPlan::none(alloc),
        FaultPlan::none(alloc),
    );
    let link = MemLink::new(alloc, script);
    let Some((ended, link)) = serve_link(&rt, alloc, &mut scene, link, 1, 1 << 39) else {
        return Err(AllocError.into());
    };
    assert!(&rt; ended.end == SessionEnd::Closed);
    assert!(&rt; ended.ignored == 99999);
    assert!(&rt; link.taken() == 800000);
    Ok(())
}

#[test]
fn answers_before_it_reads(rt: HostRuntime) -> Result<(), Fail> {
    let alloc = rt.alloc();
    let Some(mut scene) = firewall(alloc, 8) else {
        return Err(AllocError.into());
    };
    let mut link = Dialogue::new(STEPS);
    let Some(ended) = serve_on(&rt, alloc, &mut scene, &mut link, 1, 1 << 39) else {
        return Err(AllocError.into());
    };
    assert!(&rt; ended.end == SessionEnd::Closed);
    assert!(&rt; ended.ignored == 1);
    assert!(&rt; link.written == 204);
    Ok(())
}
