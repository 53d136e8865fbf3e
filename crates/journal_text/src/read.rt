//! The reader of journal texts.
ghost use Rattle.std.specs.Prelude.{◌≡◌};
ghost use Rattle.text_lines.specs.Text.{words as words_of};
ghost use Rattle.text_lines.specs.Machine.{reading};
ghost use Rattle.text_lines.specs.Gives.{Finds, Gives};
ghost use Rattle.journal_text.specs.JournalText.{finish as finish_of, journal_format, step};
ghost use Rattle.journal_text.specs.declared.read.JournalPlace.TheVariants.{Inside};

use crate::line::{header, is_end, note};
use crate::note::{Notes, Version};
use sqlite_items::Items;
use std::alloc::Global;
use text_lines::{LineRefusal, Stop, Words, read_lines};

/// Where in a journal one is, with the notes before it.
#[derive(Drop)]
pub enum JournalPlace {
    /// Before the first line.
    Header,
    /// Behind the first line, which names this version.
    Inside(Version, Notes),
    /// Behind `end`.
    Ended(Notes),
}

/// The notes of a journal text (docs/FORMATS.md, "Journal text"). It goes over the text once.
///
/// # Errors
///
/// `Line` with the first line that is refused, counted from 1, or with the line one past the last, where `end` is
/// missing. `Memory` where memory ran out.
pub fn read_journal(alloc: Global, text: &[u8]) -> Result<Notes, LineRefusal<()>>
    ensures { Gives result (reading journal_format text.now) }
{
    read_lines(
        text,
        JournalPlace::Header,
        |place, line| take(alloc, place, line),
        finish,
    )
}

// The notes of a text that ends here.
fn finish(place: JournalPlace) -> Result<Notes, ()>
    ensures { result ≡ finish_of place }
{
    match place {
        JournalPlace::Ended(notes) => Ok(notes),
        _ => Err(()),
    }
}

// The place behind this line.
fn take(alloc: Global, place: JournalPlace, line: &[u8]) -> Result<JournalPlace, Stop<()>>
    ensures { Finds result (step place (words_of line.now)) (λ next. next) }
{
    match place {
        JournalPlace::Header => match header(Words::new(line)) {
            Some(version) => Ok(JournalPlace::Inside(version, Items::new(alloc))),
            None => Err(Stop::Refused(())),
        },
        JournalPlace::Inside(version, notes) => take_inside(version, notes, line),
        JournalPlace::Ended(_) => Err(Stop::Refused(())),
    }
}

fn take_inside(version: Version, notes: Notes, line: &[u8]) -> Result<JournalPlace, Stop<()>>
    ensures { Finds result (step (Inside version notes) (words_of line.now)) (λ next. next) }
{
    if is_end(Words::new(line)) {
        return Ok(JournalPlace::Ended(notes));
    }
    let Some(note) = note(version, Words::new(line)) else {
        return Err(Stop::Refused(()));
    };
    let mut notes = notes;
    match notes.push(note) {
        Ok(()) => Ok(JournalPlace::Inside(version, notes)),
        Err(_) => Err(Stop::Memory),
    }
}
