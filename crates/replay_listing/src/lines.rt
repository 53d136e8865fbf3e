//! The lines of a session.
ghost use Rattle.std.specs.Prelude.{◌≡◌, ◌++◌, decimal, OnOk};
ghost use Rattle.replay_listing.specs.Replays.{AreOutLines, IsBehind, differs_text, end_line, end_words as end_words_of, out_line, rest_line, stop_words as stop_words_of};

use crate::hex::put_hex;
use of10_listing::why_name;
use of10_speech::{SpeechStop, SpokenEnd};
use of10_wire::{Opening, WireWhy, opening_of, rest_from};
use std::alloc::AllocError;
use text_lines::{put_line_end, put_number, put_word};

// `out HEX`
fn put_out(out: &mut Vec<u8>, message: &[u8]) -> Result<(), AllocError>
    ensures { OnOk result (out.new.items ≡ out.old.items ++ out_line message.now) }
{
    put_word(out, b"out ")?;
    put_hex(out, message)?;
    put_line_end(out)
}

fn put_rest(out: &mut Vec<u8>, rest: &[u8]) -> Result<(), AllocError>
    ensures { OnOk result (out.new.items ≡ out.old.items ++ rest_line rest.now) }
{
    if rest.is_empty() {
        return Ok(());
    }
    put_out(out, rest)
}

/// Appends a line for each message that was sent.
pub fn put_outs(out: &mut Vec<u8>, sent: &[u8]) -> Result<(), AllocError>
    ensures { OnOk result (IsBehind out.old.items out.new.items (AreOutLines sent.now)) }
{
    let mut rest = sent;
    'messages: while let Opening::Frame(length) = opening_of(rest) {
        put_out(out, &rest[..length])?;
        rest = rest_from(rest, length);
    }
    put_rest(out, rest)
}

fn put_numbered(out: &mut Vec<u8>, words: &[u8], n: u64) -> Result<(), AllocError>
    ensures { OnOk result (out.new.items ≡ out.old.items ++ (words.now ++ decimal n)) }
{
    put_word(out, words)?;
    put_number(out, n)
}

fn put_wire(out: &mut Vec<u8>, at: u64, why: WireWhy) -> Result<(), AllocError>
    ensures { OnOk result (out.new.items ≡ out.old.items ++ end_words_of (SpokenEnd.Wire at why)) }
{
    put_word(out, b"wire ")?;
    put_number(out, at)?;
    put_word(out, b" ")?;
    put_word(out, why_name(why))
}

fn put_spoken_end(out: &mut Vec<u8>, end: SpokenEnd) -> Result<(), AllocError>
    ensures { OnOk result (out.new.items ≡ out.old.items ++ end_words_of end) }
{
    match end {
        SpokenEnd::Incompatible => put_word(out, b"incompatible"),
        SpokenEnd::OutOfTurn { at } => put_numbered(out, b"out of turn ", at),
        SpokenEnd::UnknownSwitch { s } => put_numbered(out, b"unknown switch ", s),
        SpokenEnd::Wire { at, why } => put_wire(out, at, why),
    }
}

fn put_stop(out: &mut Vec<u8>, stop: SpeechStop) -> Result<(), AllocError>
    ensures { OnOk result (out.new.items ≡ out.old.items ++ stop_words_of stop) }
{
    match stop {
        SpeechStop::Goes => put_word(out, b"closed"),
        SpeechStop::Ends(end) => put_spoken_end(out, end),
        SpeechStop::Waits => Ok(()),
    }
}

/// Appends the line that says how the session ended, and how many messages it ignored (docs/COMMANDS.md, "replay").
pub fn put_end(out: &mut Vec<u8>, stop: SpeechStop, ignored: u64) -> Result<(), AllocError>
    ensures { OnOk result (out.new.items ≡ out.old.items ++ end_line stop ignored) }
{
    put_word(out, b"end ")?;
    put_stop(out, stop)?;
    put_word(out, b" ignored ")?;
    put_number(out, ignored)?;
    put_line_end(out)
}

/// Appends `ask K: differs`.
pub fn put_differs(out: &mut Vec<u8>, number: u64) -> Result<(), AllocError>
    ensures { OnOk result (out.new.items ≡ out.old.items ++ differs_text number) }
{
    put_word(out, b"ask ")?;
    put_number(out, number)?;
    put_word(out, b": differs\n")
}
