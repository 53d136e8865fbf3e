//! What bench/refusals.py refuses memory to, over objects in memory, which grow. `session` serves one session and writes what its link was
//! told, as digits, and `closed` where the link closed; `check` checks a program and writes what the sink was told. The status is that of
//! the call: 7 where there was no memory, and 8 where a write failed, as one does that finds none.
#![tactic(auto)]

mod checked;
mod hall;
mod session;

use std::alloc::Global;
use std::process::ExitCode;
use std::sync::Wait;
use vericon_edge::host_sink::HostSink;
use vericon_edge::host_words::host_words;
use vericon_edge::sink::write_piece;

/// What is written, and the status.
pub type Said = (Vec<u8>, u8);

/// What the words ask for; none for want of memory.
fn said_to<R: Wait>(rt: &R, alloc: Global, words: &[String]) -> Option<Said> {
    match words {
        [word] if word.as_str() == "session" => session::said(rt, alloc),
        [word] if word.as_str() == "check" => checked::said(alloc),
        _ => Some((Vec::new(alloc), 6)),
    }
}

fn main(rt: HostRuntime) -> ExitCode {
    let alloc = rt.alloc();
    let mut out = HostSink::new(rt.stdout());
    let said = match host_words(alloc, &rt) {
        Ok(words) => said_to(&rt, alloc, &words),
        Err(_) => None,
    };
    let Some((bytes, status)) = said else {
        return ExitCode::from(7);
    };
    match write_piece(&mut out, &bytes) {
        Ok(()) => ExitCode::from(status),
        Err(_) => ExitCode::from(8),
    }
}
