//! The printer of journal texts.
ghost use Rattle.std.specs.Prelude.{◌≡◌, ◌++◌, ◌∷◌, [], IfOk, Ok, OnOk, map, true};
ghost use Rattle.std.specs.List.{flat_map, list_any};
ghost use Rattle.text_lines.specs.Machine.{reading};
ghost use Rattle.text_lines.specs.Printed.{line_text};
ghost use Rattle.journal_text.specs.JournalText.{are_notes, entry_words, header, is_end_of_rules as is_end_in, is_entry, is_note, journal_format, journal_text, note_words, version_of as version_in, version_word as word_of};

use crate::note::{Note, Notes, Version};
use csdn_core::program::Text;
use csdn_history::entry::Entry;
use sqlite_items::Items;
use std::alloc::{AllocError, Global};
use text_lines::{put_line, put_line_end, put_next_word, put_word};

/// The text of the notes (docs/FORMATS.md, "Journal text"): of the second version exactly where one says that flow
/// rules ended. Reading it gives the notes again.
pub fn print_journal(alloc: Global, notes: &Notes) -> Result<Text, AllocError>
    ensures text { IfOk result (λ text. text ≡ journal_text notes.now) }
    ensures again { IfOk result (λ text. reading journal_format text ≡ Ok notes.now) }
{
    let text = text_of(alloc, notes.as_slice())?;
    Ok(Items::from_vec(text))
}

fn text_of(alloc: Global, notes: &[Note]) -> Result<Vec<u8>, AllocError>
    ensures text { IfOk result (λ text. text.items ≡ journal_text notes.now) }
    ensures limits { OnOk result (are_notes notes.now ≡ true) }
{
    let mut out = Vec::new(alloc);
    put_header(&mut out, version_of(notes))?;
    put_notes(&mut out, notes)?;
    put_line(&mut out, b"end", &[])?;
    Ok(out)
}

// Whether a note says that flow rules ended.
fn is_end_of_rules(note: &Note) -> bool
    ensures { result ≡ is_end_in note.now }
{
    match note {
        Note::Kept(Entry::Expire { .. }) => true,
        _ => false,
    }
}

// Whether one of the notes says so.
fn says_end_of_rules(notes: &[Note]) -> bool
    ensures { result ≡ list_any is_end_in notes.now }
{
    notes.iter().any(|note| is_end_of_rules(note))
}

// The version of the text of notes.
fn version_of(notes: &[Note]) -> Version
    ensures { result ≡ version_in notes.now }
{
    if says_end_of_rules(notes) {
        Version::Second
    } else {
        Version::First
    }
}

fn version_word(version: Version) -> &'static [u8]
    ensures { result.now ≡ word_of version }
{
    match version {
        Version::First => b"1",
        Version::Second => b"2",
    }
}

fn put_header(out: &mut Vec<u8>, version: Version) -> Result<(), AllocError>
    ensures { OnOk result (out.new.items ≡ out.old.items ++ line_text (header version)) }
{
    put_word(out, b"vericon-journal")?;
    put_next_word(out, version_word(version))?;
    put_line_end(out)
}

fn put_notes(out: &mut Vec<u8>, notes: &[Note]) -> Result<(), AllocError>
    ensures text { OnOk result (out.new.items ≡ out.old.items ++ flat_map line_text (map note_words notes.now)) }
    ensures limits { OnOk result (are_notes notes.now ≡ true) }
{
    let mut rest = notes;
    'notes: while let [note, more @ ..] = rest {
        put_note(out, *note)?;
        rest = more;
    }
    Ok(())
}

fn put_note(out: &mut Vec<u8>, note: Note) -> Result<(), AllocError>
    ensures text { OnOk result (out.new.items ≡ out.old.items ++ line_text (note_words note)) }
    ensures limits { is_note note ≡ true }
{
    match note {
        Note::Kept(entry) => put_entry(out, entry),
        Note::Flow { s, a, b, i, o } => put_line(out, b"flow", &[s, a, b, i, o]),
    }
}

fn put_entry(out: &mut Vec<u8>, entry: Entry) -> Result<(), AllocError>
    ensures text { OnOk result (out.new.items ≡ out.old.items ++ line_text (entry_words entry)) }
    ensures limits { is_entry entry ≡ true }
{
    match entry {
        Entry::Join { seat, session, s } => {
            put_line(out, b"join", &[u64::from(seat), u64::from(session), s])
        }
        Entry::Packet {
            seat,
            session,
            s,
            a,
            b,
            i,
        } => put_line(
            out,
            b"packet",
            &[u64::from(seat), u64::from(session), s, a, b, i],
        ),
        Entry::Expire {
            seat,
            session,
            s,
            a,
            b,
            i,
            cookie,
        } => put_line(
            out,
            b"expire",
            &[u64::from(seat), u64::from(session), s, a, b, i, cookie],
        ),
    }
}
