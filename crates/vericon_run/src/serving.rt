//! An accepted program, served to the switches that come.
ghost use Rattle.std.specs.Prelude.{◌≡◌, ◌^◌, ◌<◌, ◌≤◌, ◌⊎◌, [], false, length};
ghost use Rattle.csdn_run.specs.Histories.{with_history};
ghost use Rattle.link_sessions.specs.Links.{view_by};
ghost use Rattle.session_workers.specs.Endings.{longest};
ghost use Rattle.session_workers.specs.Told.{told_given};
ghost use Rattle.run_listing.specs.Lines.{run_text};
ghost use Rattle.vericon_run.specs.Runs.{HasBegun, HasPrinted, HasRun, HasServed, IsOf, Prints, history_in, is_fault, listener_view, status_of as status_number};

use crate::ran::Ran;
use csdn_history::entry::Entry;
use csdn_run::Runtime;
use run_listing::list_run;
use session_workers::{Halt, Row, Terms, Worked, serve_sessions};
use std::alloc::Global;
use std::sync::Wait;
use std::thread::Threads;
use vericon_edge::sink::{Sink, write_piece};
use vericon_links::link::Link;
use vericon_links::listener::Listener;

// Writes a text. The answer is the status where all of it was written.
fn say<S: Sink>(out: &mut S, text: &[u8], status: u8) -> u8
    requires { S.has_failed out.old ≡ false }
    ensures prints { Prints text.now status (S.written out.old) (S.written out.new) (S.faults out.old) (S.faults out.new) result }
    ensures later { S.faults out.old ≤ S.faults out.new }
{
    match write_piece(out, text) {
        Ok(()) => status,
        Err(_) => 8,
    }
}

fn status_of(halt: Halt) -> u8
    ensures { result ≡ status_number halt }
{
    match halt {
        Halt::Done => 0,
        Halt::Fault => 9,
        Halt::Memory => 7,
    }
}

fn has_fault(halt: Halt) -> bool
    ensures { result ≡ is_fault halt }
{
    match halt {
        Halt::Done | Halt::Memory => false,
        Halt::Fault => true,
    }
}

// Prints the sessions and the journal.
fn print<S: Sink>(alloc: Global, out: &mut S, rows: &[Row], history: &[Entry], halt: Halt) -> u8
    requires sink { S.has_failed out.old ≡ false }
    requires few { (length rows.now ≤ 64) × (longest rows.now ≤ 2 ^ 20) }
    ensures prints { Prints (run_text rows.now history.now (is_fault halt)) (status_number halt) (S.written out.old) (S.written out.new) (S.faults out.old) (S.faults out.new) result }
    ensures later { S.faults out.old ≤ S.faults out.new }
{
    match list_run(alloc, rows, history, has_fault(halt)) {
        Ok(text) => say(out, &text, status_of(halt)),
        Err(_) => 7,
    }
}

// Listens, and serves the sessions that come.
fn listen_and_serve<R: Threads + Wait + Sync, L: Listener>(
    rt: &R,
    alloc: Global,
    mut listener: L,
    port: u16,
    runtime: Runtime,
    terms: &Terms,
) -> Worked<L>
    requires listener { (L.came listener ≡ 0) × (L.back listener ≡ 0) }
    requires new { runtime.history ≡ [] }
    ensures runtime { result.runtime ≡ with_history runtime result.runtime.history }
    ensures served { HasServed terms.now runtime result.runtime.history result.rows.items result.halt (listener_view (λ l. told_given (view_by L.Link.taken L.Link.written L.Link.closed L.Link.is_shut L.Link.read_faults L.Link.write_faults) (L.given l)) L.faults L.came L.back L.ended listener) (listener_view (λ l. told_given (view_by L.Link.taken L.Link.written L.Link.closed L.Link.is_shut L.Link.read_faults L.Link.write_faults) (L.given l)) L.faults L.came L.back L.ended result.listener) }
    ensures few { (length result.rows.items ≤ 64) × (longest result.rows.items ≤ 2 ^ 20) }
{
    match listener.listen(port) {
        Ok(()) => serve_sessions(rt, alloc, listener, runtime, terms),
        Err(_) => Worked {
            listener,
            runtime,
            rows: Vec::new(alloc),
            halt: Halt::Fault,
        },
    }
}

// Serves the sessions that come, and prints them, behind what was printed before.
fn serve_and_print<R: Threads + Wait + Sync, L: Listener, S: Sink>(
    rt: &R,
    alloc: Global,
    listener: L,
    port: u16,
    runtime: Runtime,
    terms: &Terms,
    out: &mut S,
) -> Ran<L>
    requires listener { (L.came listener ≡ 0) × (L.back listener ≡ 0) }
    requires new { runtime.history ≡ [] }
    requires sink { S.has_failed out.old ≡ false }
    ensures runtime { IsOf runtime result.runtime }
    ensures printed { HasPrinted terms.now runtime (history_in result.runtime) (listener_view (λ l. told_given (view_by L.Link.taken L.Link.written L.Link.closed L.Link.is_shut L.Link.read_faults L.Link.write_faults) (L.given l)) L.faults L.came L.back L.ended listener) (listener_view (λ l. told_given (view_by L.Link.taken L.Link.written L.Link.closed L.Link.is_shut L.Link.read_faults L.Link.write_faults) (L.given l)) L.faults L.came L.back L.ended result.listener) (S.written out.old) (S.written out.new) (S.faults out.old) (S.faults out.new) result.status }
    ensures later { S.faults out.old ≤ S.faults out.new }
{
    let Worked {
        listener,
        runtime,
        rows,
        halt,
    } = listen_and_serve(rt, alloc, listener, port, runtime, terms);
    let status = print(alloc, out, &rows, runtime.history(), halt);
    Ran {
        status,
        listener,
        runtime: Some(runtime),
    }
}

/// Prints the first text, listens, serves the sessions that come, and prints a line for each, the journal, and `listen fault` where the
/// listener failed. The listener is as it was, unless the first text was printed whole. The listener and the runtime come back whatever happens.
pub fn serve_accepted<R: Threads + Wait + Sync, L: Listener, S: Sink>(
    rt: &R,
    alloc: Global,
    first: &[u8],
    runtime: Runtime,
    terms: &Terms,
    listener: L,
    port: u16,
    out: &mut S,
) -> Ran<L>
    requires listener { (L.came listener ≡ 0) × (L.back listener ≡ 0) }
    requires new { runtime.history ≡ [] }
    requires sink { S.has_failed out.old ≡ false }
    ensures runtime { IsOf runtime result.runtime }
    ensures run { HasRun terms.now first.now runtime (history_in result.runtime) (listener_view (λ l. told_given (view_by L.Link.taken L.Link.written L.Link.closed L.Link.is_shut L.Link.read_faults L.Link.write_faults) (L.given l)) L.faults L.came L.back L.ended listener) (listener_view (λ l. told_given (view_by L.Link.taken L.Link.written L.Link.closed L.Link.is_shut L.Link.read_faults L.Link.write_faults) (L.given l)) L.faults L.came L.back L.ended result.listener) (S.written out.old) (S.written out.new) (S.faults out.old) (S.faults out.new) result.status }
    ensures first { HasBegun first.now (S.written out.old) (S.written out.new) ⊎ (result.listener ≡ listener) }
    ensures later { S.faults out.old ≤ S.faults out.new }
{
    match write_piece(out, first) {
        Ok(()) => serve_and_print(rt, alloc, listener, port, runtime, terms, out),
        Err(_) => Ran {
            status: 8,
            listener,
            runtime: Some(runtime),
        },
    }
}
