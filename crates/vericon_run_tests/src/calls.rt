//! A call of `run` over files, a listener and a sink in memory.
use crate::scenes::{Net, Program, net_text, plan, program_text, script};
use std::alloc::{AllocError, Global};
use std::sync::Wait;
use std::test::Fail;
use std::thread::Threads;
use vericon_edge::fault_plan::FaultPlan;
use vericon_edge::files::Files;
use vericon_edge::mem_files::MemFiles;
use vericon_edge::mem_sink::MemSink;
use vericon_links::mem_link::LinkScript;
use vericon_links::mem_listener::MemListener;
use vericon_run::{Ran, run_call};

/// What is around a call: the files, how many links come, how many packets the switch of each sends, and which first calls fail.
#[derive(Clone, Copy)]
pub struct Scene {
    pub program: Option<Program>,
    pub net: Option<Net>,
    pub links: usize,
    pub packets: usize,
    pub listen_fails: bool,
    /// The number of the `accept` that fails, counted from 0.
    pub accept_fails: Option<u64>,
    pub write_fails: bool,
}

/// What a call left.
#[derive(Drop)]
pub struct Left {
    pub ran: Ran<MemListener>,
    pub text: Vec<u8>,
}

/// The words of a call.
pub fn words_of(alloc: Global, words: &[&str]) -> Result<Vec<String>, AllocError> {
    let mut owned = Vec::new(alloc);
    for word in words {
        owned.push(String::from_str(alloc, word)?)?;
    }
    Ok(owned)
}

/// The files of a scene.
pub fn files_of(alloc: Global, scene: &Scene) -> Result<MemFiles, Fail> {
    let mut files = MemFiles::new(alloc, FaultPlan::none(alloc), FaultPlan::none(alloc));
    if let Some(program) = scene.program {
        files.write_all(alloc, "P", program_text(program))?;
    }
    if let Some(net) = scene.net {
        files.write_all(alloc, "N", net_text(net))?;
    }
    Ok(files)
}

fn scripts_of(alloc: Global, scene: &Scene) -> Result<Vec<LinkScript>, AllocError> {
    let mut all = Vec::new(alloc);
    for _ in 0..scene.links {
        let Ok(()) = all.push(script(alloc, scene.packets, FaultPlan::none(alloc))?) else {
            return Err(AllocError);
        };
    }
    Ok(all)
}

// The number of the first call, where it is to fail.
fn first_of(fails: bool) -> Option<u64> {
    if fails { Some(0) } else { None }
}

/// What a call with these words leaves.
pub fn call<R: Threads + Wait + Sync>(
    rt: &R,
    alloc: Global,
    words: &[&str],
    scene: &Scene,
) -> Result<Left, Fail> {
    let words = words_of(alloc, words)?;
    let mut files = files_of(alloc, scene)?;
    let scripts = scripts_of(alloc, scene)?;
    let listens = plan(alloc, first_of(scene.listen_fails))?;
    let accepts = plan(alloc, scene.accept_fails)?;
    let listener = MemListener::new(alloc, scripts, listens, accepts)?;
    let mut out = MemSink::new(alloc, 1 << 20, plan(alloc, first_of(scene.write_fails))?);
    let ran = run_call(rt, alloc, &words, &mut files, listener, &mut out);
    Ok(Left {
        ran,
        text: out.bytes().to_vec(alloc)?,
    })
}
