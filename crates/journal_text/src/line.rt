//! The words of a journal's lines.
ghost use Rattle.std.specs.Prelude.{◌≡◌, ◌≤◌, IfSome, IsSome, ◌↔◌, IsTrue};
ghost use Rattle.text_lines.specs.Numbers.{number_at};
ghost use Rattle.journal_text.specs.Notes.{expire_of, flow_of, has_ends as has_ends_in, header_of, is_end as is_end_line, join_of, most, most_seat, note_of, packet_of, version_named as named};

use crate::note::{Note, Version};
use csdn_history::entry::Entry;
use text_lines::Words;

const MOST: u64 = 0xffff_ffff_ffff_ffff;

const MOST_SEAT: u64 = 0xffff_ffff;

// The next word as the number of a seat or a session, and the words behind it.
fn seat_number<'a>(words: Words<'a>) -> Option<(u32, Words<'a>)>
    ensures { result ≡ number_at most_seat words.entry }
{
    let (n, words) = words.number(MOST_SEAT)?;
    Some((n as u32, words))
}

// The version that a word names.
fn version_named(word: &[u8]) -> Option<Version>
    ensures { result ≡ named word.now }
{
    if word == b"1".as_slice() {
        Some(Version::First)
    } else if word == b"2".as_slice() {
        Some(Version::Second)
    } else {
        None
    }
}

/// The version that `vericon-journal 1` or `vericon-journal 2` names; `None` for every other line.
#[tactic(auto, unfolding(crate::specs::Notes::header_of))]
pub fn header(words: Words) -> Option<Version>
    ensures { result ≡ header_of words.entry }
{
    let (name, words) = words.next()?;
    let (word, words) = words.next()?;
    words.end()?;
    if name == b"vericon-journal".as_slice() {
        version_named(word)
    } else {
        None
    }
}

// Whether a text of the version may say of flow rules that they ended.
fn has_ends(version: Version) -> bool
    ensures { result ≡ has_ends_in version }
{
    match version {
        Version::First => false,
        Version::Second => true,
    }
}

/// The note of a line's words, in a text of this version; `None` where they are none (docs/FORMATS.md, "Journal text").
#[tactic(auto, unfolding(crate::specs::Notes::note_of))]
pub fn note(version: Version, words: Words) -> Option<Note>
    ensures { result ≡ note_of version words.entry }
{
    let (key, words) = words.next()?;
    if key == b"join".as_slice() {
        join(words)
    } else if key == b"packet".as_slice() {
        packet(words)
    } else if key == b"flow".as_slice() {
        flow(words)
    } else if key == b"expire".as_slice() && has_ends(version) {
        expire(words)
    } else {
        None
    }
}

// `join SEAT SESSION S`, from the words behind `join`.
#[tactic(auto, unfolding(crate::specs::Notes::join_of))]
fn join(words: Words) -> Option<Note>
    ensures { result ≡ join_of words.entry }
{
    let (seat, words) = seat_number(words)?;
    let (session, words) = seat_number(words)?;
    let (s, words) = words.number(MOST)?;
    words.end()?;
    Some(Note::Kept(Entry::Join { seat, session, s }))
}

// `packet SEAT SESSION S A B I`, from the words behind `packet`.
#[tactic(auto, unfolding(crate::specs::Notes::packet_of))]
fn packet(words: Words) -> Option<Note>
    ensures { result ≡ packet_of words.entry }
{
    let (seat, words) = seat_number(words)?;
    let (session, words) = seat_number(words)?;
    let (s, words) = words.number(MOST)?;
    let (a, words) = words.number(MOST)?;
    let (b, words) = words.number(MOST)?;
    let (i, words) = words.number(MOST)?;
    words.end()?;
    Some(Note::Kept(Entry::Packet {
        seat,
        session,
        s,
        a,
        b,
        i,
    }))
}

// `expire SEAT SESSION S A B I COOKIE`, from the words behind `expire`.
#[tactic(auto, unfolding(crate::specs::Notes::expire_of))]
fn expire(words: Words) -> Option<Note>
    ensures { result ≡ expire_of words.entry }
{
    let (seat, words) = seat_number(words)?;
    let (session, words) = seat_number(words)?;
    let (s, words) = words.number(MOST)?;
    let (a, words) = words.number(MOST)?;
    let (b, words) = words.number(MOST)?;
    let (i, words) = words.number(MOST)?;
    let (cookie, words) = words.number(MOST)?;
    words.end()?;
    Some(Note::Kept(Entry::Expire {
        seat,
        session,
        s,
        a,
        b,
        i,
        cookie,
    }))
}

// `flow S A B I O`, from the words behind `flow`.
#[tactic(auto, unfolding(crate::specs::Notes::flow_of))]
fn flow(words: Words) -> Option<Note>
    ensures { result ≡ flow_of words.entry }
{
    let (s, words) = words.number(MOST)?;
    let (a, words) = words.number(MOST)?;
    let (b, words) = words.number(MOST)?;
    let (i, words) = words.number(MOST)?;
    let (o, words) = words.number(MOST)?;
    words.end()?;
    Some(Note::Flow { s, a, b, i, o })
}

/// Whether the words are `end` alone.
pub fn is_end(words: Words) -> bool
    ensures { result ≡ is_end_line words.entry }
{
    match words.next() {
        None => false,
        Some((key, rest)) => key == b"end".as_slice() && rest.end().is_some(),
    }
}
