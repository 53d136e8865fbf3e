//! All lines of a run.
ghost use Rattle.std.specs.Prelude.{◌≡◌, ◌+◌, ◌*◌, ◌^◌, ◌<◌, ◌≤◌, ◌++◌, length, slice_get, IfOk, OnOk};
ghost use Rattle.session_workers.specs.Endings.{longest};
ghost use Rattle.run_listing.specs.Lines.{line_where, notes_of, round_lines, run_text, session_lines};

use crate::lines::put_session;
use csdn_history::entry::Entry;
use journal_text::{Note, Notes, print_journal};
use session_serve::Ended;
use session_workers::Row;
use sqlite_items::Items;
use std::alloc::{AllocError, Global};
use text_lines::put_word;

// How many sessions a seat has at most.
fn longest_of(rows: &[Row]) -> usize
    ensures { result ≡ longest rows.now }
{
    let mut most = 0;
    let mut rest = rows;
    'rows: while let [row, more @ ..] = rest {
        most = row.ends.len().max(most);
        rest = more;
    }
    most
}

// A line for the session before which the seat had so many.
fn put_where(
    out: &mut Vec<u8>,
    number: u64,
    ends: &[Ended],
    before: usize,
) -> Result<(), AllocError>
    ensures { OnOk result (out.new.items ≡ out.old.items ++ line_where number (slice_get ends.now before)) }
{
    match ends.get(before) {
        None => Ok(()),
        Some(ended) => put_session(out, number, *ended),
    }
}

// A line for the session of each seat before which the seat had so many.
fn put_round(out: &mut Vec<u8>, before: usize, first: u64, rows: &[Row]) -> Result<(), AllocError>
    requires { first + length rows.now < 2 ^ 64 }
    ensures { OnOk result (out.new.items ≡ out.old.items ++ round_lines before first rows.now) }
{
    let mut number = first;
    let mut rest = rows;
    'rows: while let [row, more @ ..] = rest {
        put_where(out, number, row.ends.as_slice(), before)?;
        number += 1;
        rest = more;
    }
    Ok(())
}

// A line for each session, in the order of their numbers.
fn put_sessions(out: &mut Vec<u8>, rows: &[Row]) -> Result<(), AllocError>
    requires { (length rows.now ≤ 64) × (longest rows.now ≤ 2 ^ 20) }
    ensures { OnOk result (out.new.items ≡ out.old.items ++ session_lines rows.now) }
{
    let most = longest_of(rows);
    let seats = rows.len() as u64;
    for before in 0..most {
        put_round(out, before, 1 + seats * before as u64, rows)?;
    }
    Ok(())
}

// The notes of a history.
fn notes(alloc: Global, history: &[Entry]) -> Result<Notes, AllocError>
    ensures { IfOk result (λ notes. notes ≡ notes_of history.now) }
{
    let mut notes = Items::new(alloc);
    let mut rest = history;
    'entries: while let [entry, more @ ..] = rest {
        notes.push(Note::Kept(*entry))?;
        rest = more;
    }
    Ok(notes)
}

/// `session N END ignored M` for each session in the order of numbers, the journal, and `listen fault` where the listener failed. Its time
/// and its memory grow with the sessions and the history.
pub fn list_run(
    alloc: Global,
    rows: &[Row],
    history: &[Entry],
    is_faulted: bool,
) -> Result<Vec<u8>, AllocError>
    requires { (length rows.now ≤ 64) × (longest rows.now ≤ 2 ^ 20) }
    ensures { IfOk result (λ text. text.items ≡ run_text rows.now history.now is_faulted) }
{
    let mut text = Vec::new(alloc);
    put_sessions(&mut text, rows)?;
    let notes = notes(alloc, history)?;
    let journal = print_journal(alloc, &notes)?;
    put_word(&mut text, journal.as_slice())?;
    if is_faulted {
        put_word(&mut text, b"listen fault\n")?;
    }
    Ok(text)
}
