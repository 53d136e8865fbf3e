//! Journals whose entries can't be entered.
ghost use Rattle.std.specs.Prelude.{◌≡◌, ◌+◌, ◌<◌, ◌^◌, ◌++◌, IfOk, OnOk};
ghost use Rattle.replay_listing.specs.Refusals.{entries_in as entries_in_note, first_refused as first_refused_in, most_entries, refusal_of as refusal_in, refused_text, words_of as words_in};

use csdn_core::program::Program;
use csdn_run::is_declared;
use journal_text::Note;
use net_structs::network::Network;
use std::alloc::{AllocError, Global};
use text_lines::{put_line_end, put_number, put_word};

/// How many entries a history may have.
pub const MOST_ENTRIES: u32 = 4_194_304;

/// Why a note is refused.
#[derive(Clone, Copy, Debug, PartialEq, Eq)]
pub enum Refusal {
    /// The network lacks an element of its entry, or its entry says that a rule ended and the program ends none.
    Stranger,
    /// The history has no room for its entry.
    Full,
}

/// A note that is refused.
#[derive(Clone, Copy, Debug, PartialEq, Eq)]
pub struct Refused {
    /// Its place among all notes, from 1 on.
    pub number: u64,
    pub why: Refusal,
}

fn refusal_of(program: &Program, network: &Network, count: u64, note: &Note) -> Option<Refusal>
    ensures { result ≡ refusal_in program.now network.now count note.now }
{
    match note {
        Note::Kept(entry) => {
            if !is_declared(program, network, entry) {
                Some(Refusal::Stranger)
            } else if count < u64::from(MOST_ENTRIES) {
                None
            } else {
                Some(Refusal::Full)
            }
        }
        Note::Flow { .. } => None,
    }
}

fn entries_in(note: &Note) -> u64
    ensures value { result ≡ entries_in_note note.now }
    ensures few { result < 2 }
{
    match note {
        Note::Kept(_) => 1,
        Note::Flow { .. } => 0,
    }
}

/// The first note whose entry is refused. It goes over the notes once, and looks at no state.
pub fn first_refused(program: &Program, network: &Network, notes: &[Note]) -> Option<Refused>
    ensures { result ≡ first_refused_in program.now network.now 1 0 notes.now }
{
    let mut number = 1;
    let mut count = 0;
    let mut rest = notes;
    'notes: while let [note, more @ ..] = rest {
        if let Some(why) = refusal_of(program, network, count, note) {
            return Some(Refused { number, why });
        }
        count += entries_in(note);
        number += 1;
        rest = more;
    }
    None
}

fn words_of(why: Refusal) -> &'static [u8]
    ensures { result.now ≡ words_in why }
{
    match why {
        Refusal::Stranger => b"stranger",
        Refusal::Full => b"full",
    }
}

/// The text of a note that is refused: `entry J: stranger` or `entry J: full`.
pub fn list_refused(alloc: Global, refused: Refused) -> Result<Vec<u8>, AllocError>
    ensures { IfOk result (λ text. text.items ≡ refused_text refused) }
{
    let mut text = Vec::new(alloc);
    put_refused(&mut text, refused)?;
    Ok(text)
}

fn put_refused(out: &mut Vec<u8>, refused: Refused) -> Result<(), AllocError>
    ensures { OnOk result (out.new.items ≡ out.old.items ++ refused_text refused) }
{
    put_word(out, b"entry ")?;
    put_number(out, refused.number)?;
    put_word(out, b": ")?;
    put_word(out, words_of(refused.why))?;
    put_line_end(out)
}
