//! The line of a session.
ghost use Rattle.std.specs.Prelude.{◌≡◌, ◌++◌, decimal, OnOk};
ghost use Rattle.run_listing.specs.Lines.{end_words, session_line};

use of10_listing::why_name;
use of10_wire::WireWhy;
use session_serve::{Ended, SessionEnd};
use std::alloc::AllocError;
use text_lines::{put_line_end, put_number, put_word};

fn put_numbered(out: &mut Vec<u8>, words: &[u8], n: u64) -> Result<(), AllocError>
    ensures { OnOk result (out.new.items ≡ out.old.items ++ (words.now ++ decimal n)) }
{
    put_word(out, words)?;
    put_number(out, n)
}

fn put_wire(out: &mut Vec<u8>, at: u64, why: WireWhy) -> Result<(), AllocError>
    ensures { OnOk result (out.new.items ≡ out.old.items ++ end_words (SessionEnd.Wire at why)) }
{
    put_word(out, b"wire ")?;
    put_number(out, at)?;
    put_word(out, b" ")?;
    put_word(out, why_name(why))
}

fn put_end(out: &mut Vec<u8>, end: SessionEnd) -> Result<(), AllocError>
    ensures { OnOk result (out.new.items ≡ out.old.items ++ end_words end) }
{
    match end {
        SessionEnd::Closed => put_word(out, b"closed"),
        SessionEnd::ReadFault => put_word(out, b"read fault"),
        SessionEnd::WriteFault => put_word(out, b"write fault"),
        SessionEnd::Wire { at, why } => put_wire(out, at, why),
        SessionEnd::Incompatible => put_word(out, b"incompatible"),
        SessionEnd::OutOfTurn { at } => put_numbered(out, b"out of turn ", at),
        SessionEnd::UnknownSwitch { s } => put_numbered(out, b"unknown switch ", s),
        SessionEnd::HistoryFull => put_word(out, b"history full"),
        SessionEnd::StreamFull => put_word(out, b"stream full"),
        SessionEnd::Memory => put_word(out, b"memory"),
    }
}

/// Appends `session N END ignored M`.
pub fn put_session(out: &mut Vec<u8>, number: u64, ended: Ended) -> Result<(), AllocError>
    ensures { OnOk result (out.new.items ≡ out.old.items ++ session_line number ended) }
{
    put_word(out, b"session ")?;
    put_number(out, number)?;
    put_word(out, b" ")?;
    put_end(out, ended.end)?;
    put_word(out, b" ignored ")?;
    put_number(out, ended.ignored)?;
    put_line_end(out)
}
