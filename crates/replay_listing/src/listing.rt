//! What is said of a session.
ghost use Rattle.std.specs.Prelude.{◌≡◌, ◌+◌, ◌<◌, ℕ, List, [], ◌∷◌, true, false, length, None, IfOk};
ghost use Rattle.csdn_core.specs.declared.program.Parts.{Parts as AnyParts};
ghost use Rattle.csdn_core.specs.Network.{IsNetwork, Network as AnyNetwork};
ghost use Rattle.csdn_history.specs.declared.entry.Entry.{Entry as AnyEntry};
ghost use Rattle.net_structs.specs.Networks.{IsServable};
ghost use Rattle.replay_listing.specs.declared.listing.Ending.{Ending as AnyEnding};
ghost use Rattle.replay_listing.specs.Journals.{noted};
ghost use Rattle.replay_listing.specs.Refusals.{first_refused as first_refused_in};
ghost use Rattle.replay_listing.specs.Replays.{IsReplay, differs_text, ending_of as ending_in};
ghost use Rattle.replay_listing.specs.Tellings.{AreLines, AreOver, IsDifference, IsOther, IsTelling, Tells, first_of};
ghost use Rattle.session_asks.specs.Told.{asks_of, same_ask};

use crate::journal::Journal;
use crate::lines::{put_differs, put_end, put_outs};
use crate::refusals::MOST_ENTRIES;
use csdn_core::program::Program;
use csdn_history::entry::Entry;
use csdn_run::Runtime;
use journal_text::Note;
use net_structs::network::Network;
use of10_session::Ask;
use of10_speech::{SpeechStop, Spoken, speak};
use session_asks::{ask_of, is_same, session_of};
use std::alloc::{AllocError, Global};

/// How a replay ended.
#[derive(Clone, Copy, Debug, PartialEq, Eq)]
pub enum Ending {
    /// The session went on until its bytes were over.
    Closed,
    /// The session ended before.
    Ended,
    /// The session's asks and its entries differ.
    Differs,
}

/// What is printed of a session, and how it ended.
#[derive(Drop)]
pub struct Replay {
    pub text: Vec<u8>,
    pub ending: Ending,
}

// The ask of the session's next entry among notes.
fn next_ask(notes: &[Note], session: u32) -> Option<Ask>
    ensures { result ≡ first_of (asks_of session (noted notes.now)) }
{
    let mut rest = notes;
    'notes: while let [note, more @ ..] = rest {
        if let Some(ask) = own_ask(note, session) {
            return Some(ask);
        }
        rest = more;
    }
    None
}

// The ask of a note, if it is an entry of the session.
fn own_ask(note: &Note, session: u32) -> Option<Ask>
    ensures { result ≡ first_of (asks_of session (noted (note.now ∷ []))) }
{
    match note {
        Note::Kept(entry) => {
            if session_of(entry) == session {
                Some(ask_of(entry))
            } else {
                None
            }
        }
        Note::Flow { .. } => None,
    }
}

// The place behind the session's entries.
fn place(entries: &[Entry], session: u32) -> u64
    ensures { result ≡ length (asks_of session entries.now) + 1 }
{
    let mut place = 1;
    let mut rest = entries;
    'entries: while let [entry, more @ ..] = rest {
        place += counted(entry, session);
        rest = more;
    }
    place
}

// 1, if the entry is the session's
fn counted(entry: &Entry, session: u32) -> u64
    ensures value { result ≡ length (asks_of session (entry.now ∷ [])) }
    ensures few { result < 2 }
{
    if session_of(entry) == session { 1 } else { 0 }
}

// Whether the asks and the entries differ at the place behind those that were answered: an ask was no entry, or an entry is
// left.
fn is_other(missing: Option<Ask>, next: Option<Ask>, stop: SpeechStop) -> Result<bool, AllocError>
    ensures { IfOk result (λ other. Tells other (IsOther missing next stop) (AreOver missing next stop)) }
{
    match missing {
        Some(ask) => match next {
            None => Ok(true),
            // an ask that is the next entry is answered
            Some(entered) => other_or_none(ask, entered),
        },
        None => match stop {
            // a session waits where an ask is missing
            SpeechStop::Waits => Err(AllocError),
            _ => Ok(next.is_some()),
        },
    }
}

fn other_or_none(ask: Ask, entered: Ask) -> Result<bool, AllocError>
    ensures { IfOk result (λ other. (other ≡ true) × (same_ask ask entered ≡ false)) }
{
    if is_same(ask, entered) {
        Err(AllocError)
    } else {
        Ok(true)
    }
}

// Where the asks of the session and its entries differ, if they do.
fn difference(journal: &Journal, stop: SpeechStop) -> Result<Option<u64>, AllocError>
    ensures { IfOk result (IsDifference journal.now stop) }
{
    let next = next_ask(journal.rest, journal.session);
    if is_other(journal.missing, next, stop)? {
        Ok(Some(place(journal.runtime.history(), journal.session)))
    } else {
        Ok(None)
    }
}

// The text of what was said.
fn told(alloc: Global, spoken: Spoken, said: &[u8]) -> Result<Replay, AllocError>
    ensures { IfOk result (λ replay. AreLines spoken said.now replay.text.items replay.ending) }
{
    let mut text = Vec::new(alloc);
    put_outs(&mut text, said)?;
    put_end(&mut text, spoken.stop, spoken.ignored)?;
    Ok(Replay {
        text,
        ending: ending_of(spoken.stop),
    })
}

fn ending_of(stop: SpeechStop) -> Ending
    ensures { result ≡ ending_in stop }
{
    match stop {
        SpeechStop::Goes => Ending::Closed,
        SpeechStop::Ends(_) => Ending::Ended,
        SpeechStop::Waits => Ending::Differs,
    }
}

fn differs(alloc: Global, place: u64) -> Result<Replay, AllocError>
    ensures { IfOk result (λ replay. (replay.text.items ≡ differs_text place) × (replay.ending ≡ Ending.Differs)) }
{
    let mut text = Vec::new(alloc);
    put_differs(&mut text, place)?;
    Ok(Replay {
        text,
        ending: Ending::Differs,
    })
}

// The text of a session that has spoken.
fn tell(alloc: Global, journal: &Journal, spoken: Spoken, said: &[u8]) -> Result<Replay, AllocError>
    ensures { IfOk result (λ replay. IsTelling journal.now spoken said.now replay.text.items replay.ending) }
{
    match difference(journal, spoken.stop)? {
        Some(place) => differs(alloc, place),
        None => told(alloc, spoken, said),
    }
}

/// What is said of a session of a journal, over the bytes that its switch sent. It goes over the notes and the bytes once, and
/// keeps one state.
pub fn list_replay(
    alloc: Global,
    program: Program,
    network: Network,
    notes: &[Note],
    session: u32,
    stream: &[u8],
) -> Result<Replay, AllocError>
    requires of_program { IsNetwork program network }
    requires servable { IsServable network }
    requires entered { first_refused_in program network 1 0 notes.now ≡ None }
    ensures { IfOk result (λ replay. IsReplay program network (noted notes.now) session stream.now replay.text.items replay.ending) }
{
    let runtime = Runtime::try_new(alloc, program, network, MOST_ENTRIES)?;
    let mut journal = Journal::new(runtime, notes, session);
    let mut said = Vec::new(alloc);
    let Ok(spoken) = speak(alloc, session, stream, &mut journal, &mut said) else {
        return Err(AllocError);
    };
    tell(alloc, &journal, spoken, &said)
}

/// A law: a session of a journal has one text, and one ending.
pub fn replays_have_one_text()
    ensures { (P : AnyParts) (N : AnyNetwork) (entries : List AnyEntry) (q : ℕ) (bytes text other : List ℕ) (ending end : AnyEnding) → IsReplay P N entries q bytes text ending → IsReplay P N entries q bytes other end → (text ≡ other) × (ending ≡ end) }
{}
