//! All commands over what a process has.
ghost use Rattle.std.specs.Prelude.{◌≡◌, ◌⊎◌, ◌≤◌, false, map, string_bytes};
ghost use Rattle.command_words.specs.Calls.{asked_call, if_serves};
ghost use Rattle.link_sessions.specs.Links.{view_by};
ghost use Rattle.session_workers.specs.Told.{told_given};
ghost use Rattle.file_loads.specs.Explained.{IsExplained};
ghost use Rattle.file_loads.specs.Views.{change_of};
ghost use Rattle.vericon_app.specs.Calls.{files_named};
ghost use Rattle.vericon_app.specs.Output.{Output};
ghost use Rattle.vericon_run.specs.Accepted.{HasSaidYes};
ghost use Rattle.vericon_run.specs.Left.{HasRunLeft};
ghost use Rattle.vericon_run.specs.Outputs.{RunOutput};
ghost use Rattle.vericon_run.specs.Runs.{history_in, listener_view};

use crate::call::run_call;
use crate::ran::Ran;
use command_words::run_request;
use std::alloc::Global;
use std::env::Env;
use std::sync::Wait;
use std::thread::Threads;
use vericon_app::call::{check_call, no_memory};
use vericon_edge::files::Files;
use vericon_edge::host_words::{WordsFault, host_words};
use vericon_edge::sink::Sink;
use vericon_links::link::Link;
use vericon_links::listener::Listener;

/// Serves the call that the words are: the words of `run` by `run_call`, and all others by `check_call`, which leaves the listener as it is.
pub fn serve_words<R: Threads + Wait + Sync, F: Files, L: Listener, S: Sink>(
    rt: &R,
    alloc: Global,
    words: &[String],
    files: &mut F,
    listener: L,
    out: &mut S,
) -> Ran<L>
    requires listener { (L.came listener ≡ 0) × (L.back listener ≡ 0) }
    requires sink { S.has_failed out.old ≡ false }
    // what is written, and its status, whatever the command
    ensures output { HasRunLeft (IsExplained (change_of F.told F.read_calls F.write_calls F.read_faults F.write_faults files.old files.new) (files_named (asked_call (map string_bytes words.now))) (Output (RunOutput (listener_view (λ l. told_given (view_by L.Link.taken L.Link.written L.Link.closed L.Link.is_shut L.Link.read_faults L.Link.write_faults) (L.given l)) L.faults L.came L.back L.ended listener) (listener_view (λ l. told_given (view_by L.Link.taken L.Link.written L.Link.closed L.Link.is_shut L.Link.read_faults L.Link.write_faults) (L.given l)) L.faults L.came L.back L.ended result.listener) (history_in result.runtime)) (asked_call (map string_bytes words.now)))) (S.written out.old) (S.written out.new) (S.faults out.old) (S.faults out.new) result.status }
    ensures faults { S.faults out.old ≤ S.faults out.new }
    // the listener is used for the words of `run` alone, of an accepted program and network, once the yes was printed
    ensures serves { (result.listener ≡ listener) ⊎ HasSaidYes (if_serves (asked_call (map string_bytes words.now))) (F.told files.old) (S.written out.old) (S.written out.new) }
{
    match run_request(words) {
        Some(_) => run_call(rt, alloc, words, files, listener, out),
        None => Ran {
            status: check_call(alloc, words, files, out),
            listener,
            runtime: None,
        },
    }
}

/// Serves the call that the process's words are, and gives the status that it is to end with.
pub fn serve_process<R: Env + Threads + Wait + Sync, F: Files, L: Listener, S: Sink>(
    rt: &R,
    alloc: Global,
    files: &mut F,
    listener: L,
    out: &mut S,
) -> u8
    requires listener { (L.came listener ≡ 0) × (L.back listener ≡ 0) }
    requires sink { S.has_failed out.old ≡ false }
{
    match host_words(alloc, rt) {
        Ok(words) => serve_words(rt, alloc, &words, files, listener, out).status,
        // A word that is no text belongs to no form.
        Err(WordsFault::NotText) => serve_words(rt, alloc, &[], files, listener, out).status,
        Err(WordsFault::Memory) => no_memory(out),
    }
}
