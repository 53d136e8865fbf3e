//! The call of the command that serves sessions.
ghost use Rattle.std.specs.Prelude.{◌≡◌, ◌≤◌, ◌<◌, ◌-◌, ◌^◌, ◌⊎◌, ℕ, false, List, length, map, string_bytes};
ghost use Rattle.command_words.specs.Calls.{asked_call, if_serves};
ghost use Rattle.vericon_edge.specs.Told.{holds};
ghost use Rattle.link_sessions.specs.Links.{view_by};
ghost use Rattle.session_workers.specs.Told.{told_given};
ghost use Rattle.file_loads.specs.Explained.{IsExplained};
ghost use Rattle.file_loads.specs.Views.{OnlyReads, change_of};
ghost use Rattle.vericon_app.specs.Calls.{files_named, level_named, size_named};
ghost use Rattle.vericon_app.specs.Output.{Output};
ghost use Rattle.vericon_app.specs.Quiet.{IsUndisturbed};
ghost use Rattle.vericon_run.specs.Accepted.{HandsBack, HasSaidYes};
ghost use Rattle.vericon_run.specs.Left.{HasCause, HasRunLeft};
ghost use Rattle.vericon_run.specs.Outputs.{RunOutput};
ghost use Rattle.vericon_run.specs.Quiet.{IsRunAnswered, IsRunDecided};
ghost use Rattle.vericon_run.specs.Runs.{history_in, listener_view};
ghost use Rattle.vericon_run.specs.Words.{IsRun};

use crate::prepared::{Prepared, Start};
use crate::preparing::prepare;
use crate::ran::Ran;
use crate::serving::serve_accepted;
use std::alloc::Global;
use std::sync::Wait;
use std::thread::Threads;
use vericon_app::call::{finish, no_memory};
use vericon_edge::files::Files;
use vericon_edge::sink::Sink;
use vericon_links::link::Link;
use vericon_links::listener::Listener;

/// Serves the run that the words ask for, and gives its status, the listener and the runtime (docs/COMMANDS.md, "run"). It reads the program
/// and, where that is proven, the network; it prints the yes; and then it listens and serves. It writes no file.
///
/// | status | meaning |
/// |---|---|
/// | 0 | sessions were served: as many as were asked for came, or no more come |
/// | 1 to 6 | as those of `check_call`: nobody was served |
/// | 7 | there was no memory |
/// | 8 | the sink failed |
/// | 9 | sessions were served until the listener failed |
pub fn run_call<R: Threads + Wait + Sync, F: Files, L: Listener, S: Sink>(
    rt: &R,
    alloc: Global,
    words: &[String],
    files: &mut F,
    listener: L,
    out: &mut S,
) -> Ran<L>
    requires listener { (L.came listener ≡ 0) × (L.back listener ≡ 0) }
    requires sink { S.has_failed out.old ≡ false }
    // what is written, and its status: an output that goes with some answers of the files that are named, which the files explain, and with the
    // sessions that were served over the links that the listener was given back
    ensures output { HasRunLeft (IsExplained (change_of F.told F.read_calls F.write_calls F.read_faults F.write_faults files.old files.new) (files_named (if_serves (asked_call (map string_bytes words.now)))) (Output (RunOutput (listener_view (λ l. told_given (view_by L.Link.taken L.Link.written L.Link.closed L.Link.is_shut L.Link.read_faults L.Link.write_faults) (L.given l)) L.faults L.came L.back L.ended listener) (listener_view (λ l. told_given (view_by L.Link.taken L.Link.written L.Link.closed L.Link.is_shut L.Link.read_faults L.Link.write_faults) (L.given l)) L.faults L.came L.back L.ended result.listener) (history_in result.runtime)) (if_serves (asked_call (map string_bytes words.now))))) (S.written out.old) (S.written out.new) (S.faults out.old) (S.faults out.new) result.status }
    // the listener is used for an accepted program and network alone, once the yes was printed
    ensures serves { (result.listener ≡ listener) ⊎ HasSaidYes (if_serves (asked_call (map string_bytes words.now))) (F.told files.old) (S.written out.old) (S.written out.new) }
    // .. of which the runtime is
    ensures runtime { HandsBack (if_serves (asked_call (map string_bytes words.now))) (F.told files.old) result.runtime listener result.listener }
    // what the statuses 0, 8 and 9 stand for
    ensures cause { HasCause (if_serves (asked_call (map string_bytes words.now))) (listener_view (λ l. told_given (view_by L.Link.taken L.Link.written L.Link.closed L.Link.is_shut L.Link.read_faults L.Link.write_faults) (L.given l)) L.faults L.came L.back L.ended listener) (listener_view (λ l. told_given (view_by L.Link.taken L.Link.written L.Link.closed L.Link.is_shut L.Link.read_faults L.Link.write_faults) (L.given l)) L.faults L.came L.back L.ended result.listener) (S.faults out.old) (S.faults out.new) result.status }
    // where no fault was counted, want of memory is the only excuse
    ensures answered { IsUndisturbed (change_of F.told F.read_calls F.write_calls F.read_faults F.write_faults files.old files.new) (S.faults out.old) (S.faults out.new) → IsRunAnswered (RunOutput (listener_view (λ l. told_given (view_by L.Link.taken L.Link.written L.Link.closed L.Link.is_shut L.Link.read_faults L.Link.write_faults) (L.given l)) L.faults L.came L.back L.ended listener) (listener_view (λ l. told_given (view_by L.Link.taken L.Link.written L.Link.closed L.Link.is_shut L.Link.read_faults L.Link.write_faults) (L.given l)) L.faults L.came L.back L.ended result.listener) (history_in result.runtime)) (if_serves (asked_call (map string_bytes words.now))) (change_of F.told F.read_calls F.write_calls F.read_faults F.write_faults files.old files.new) (S.written out.old) (S.written out.new) result.status }
    // so what is told of the program and the network fixes the status
    ensures decided { (program network bytes net : List ℕ) → IsRun (if_serves (asked_call (map string_bytes words.now))) program network → F.told files.old program ≡ holds bytes → F.told files.old network ≡ holds net → IsUndisturbed (change_of F.told F.read_calls F.write_calls F.read_faults F.write_faults files.old files.new) (S.faults out.old) (S.faults out.new) → L.faults result.listener ≡ L.faults listener → L.faults listener < 2 ^ 64 - 1 → IsRunDecided (size_named (if_serves (asked_call (map string_bytes words.now)))) (level_named (if_serves (asked_call (map string_bytes words.now)))) bytes net result.status ⊎ (result.status ≡ 7) }
    // each file that is named is read once at most, and none is written
    ensures reads { OnlyReads (length (files_named (if_serves (asked_call (map string_bytes words.now))))) (change_of F.told F.read_calls F.write_calls F.read_faults F.write_faults files.old files.new) }
    ensures faults { S.faults out.old ≤ S.faults out.new }
    ensures later { L.faults listener ≤ L.faults result.listener }
{
    match prepare(alloc, words, files) {
        Ok(
            Prepared::Ready(
                Start {
                    runtime,
                    first,
                    terms,
                    port,
                },
            ),
        ) => serve_accepted(rt, alloc, &first, runtime, &terms, listener, port, out),
        Ok(Prepared::Told(outcome)) => Ran {
            status: finish(out, &outcome.text, outcome.status),
            listener,
            runtime: None,
        },
        Err(_) => Ran {
            status: no_memory(out),
            listener,
            runtime: None,
        },
    }
}
