//! A session over a link.
ghost use Rattle.std.specs.Prelude.{◌≡◌, ◌*◌, ◌+◌, ◌-◌, ◌<◌, ◌≤◌, ◌^◌, [], false, length, Ok as OkIs, IfOk, IfErr, OnOk};
ghost use Rattle.of10_stream.specs.Framings.{framing};
ghost use Rattle.of10_session.specs.Sessions.{spelled};
ghost use Rattle.of10_speech.specs.Speeches.{opening, told};
ghost use Rattle.vericon_links.specs.Links.{IsEmptyWhereTold};
ghost use Rattle.link_sessions.specs.Links.{view_by};
ghost use Rattle.link_sessions.specs.Pieces.{HasTaken, IsEndOf, IsOver, IsOverAt, Stands, end_of as end_in};
ghost use Rattle.link_sessions.specs.Said.{IsSaidOver};

use crate::ends::{Ended, SessionEnd};
use crate::pieces::hear_piece;
use of10_session::Session;
use of10_speech::{Answers, Broken, SpeechStop, SpokenEnd};
use of10_stream::Framer;
use std::alloc::{AllocError, Global};
use vericon_links::link::{Got, Link, write_whole};

/// How many bytes a read takes at most.
const PIECE: usize = 65536;

/// A session, what it has of its next message, and room for what a piece calls for.
struct Talk {
    number: u32,
    framer: Framer,
    session: Session,
    out: Vec<u8>,
    /// How many bytes were taken.
    taken: u64,
}

impl Drop for Talk {
    fn drop(self) {
        let Talk {
            number: _,
            framer: _framer,
            session: _session,
            out: _out,
            taken: _,
        } = self;
    }
}

/// The end that a session was told.
fn end_of(end: SpokenEnd) -> SessionEnd
    ensures { result ≡ end_in end }
{
    match end {
        SpokenEnd::Incompatible => SessionEnd::Incompatible,
        SpokenEnd::OutOfTurn { at } => SessionEnd::OutOfTurn { at },
        SpokenEnd::UnknownSwitch { s } => SessionEnd::UnknownSwitch { s },
        SpokenEnd::Wire { at, why } => SessionEnd::Wire { at, why },
    }
}

/// Whether a session that was told so goes on, or how it ends.
fn goes_on(heard: Result<SpeechStop, Broken>) -> Result<(), SessionEnd>
    ensures ok { OnOk result (heard ≡ OkIs SpeechStop.Goes) }
    ensures err { IfErr result (IsEndOf heard) }
{
    match heard {
        Ok(SpeechStop::Goes) => Ok(()),
        Ok(SpeechStop::Ends(end)) => Err(end_of(end)),
        Ok(SpeechStop::Waits) | Err(Broken::Full) => Err(SessionEnd::HistoryFull),
        Err(Broken::Memory) => Err(SessionEnd::Memory),
    }
}

impl Talk {
    /// A session that has greeted, in its own memory.
    fn greet(alloc: Global, number: u32) -> Result<Talk, AllocError>
        ensures begun { IfOk result (λ t. (t.number ≡ number) × (t.framer ≡ framing 0 []) × (t.session ≡ (opening number).session) × (t.taken ≡ 0)) }
        ensures greeted { IfOk result (λ t. t.out.items ≡ spelled (opening number).sent) }
    {
        let framer = Framer::try_new(alloc)?;
        let mut session = Session::new(number);
        let mut out = Vec::new(alloc);
        session.greet(alloc, &mut out)?;
        Ok(Talk {
            number,
            framer,
            session,
            out,
            taken: 0,
        })
    }

    /// Hears a piece that was taken, and writes what it calls for.
    fn answer<K: Link, P: Answers>(
        &mut self,
        alloc: Global,
        link: &mut K,
        piece: &[u8],
        program: &mut P,
    ) -> Result<(), SessionEnd>
        requires taken { HasTaken (told P.declares P.given P.asked program.old) self.old.number self.old.framer self.old.session self.old.taken piece.now (K.taken link.old) (K.written link.old) }
        requires closed { K.closed link.old ≡ false }
        requires room { self.old.taken + length piece.now < 2 ^ 63 }
        requires left { self.old.taken + length piece.now ≤ 16 * P.left program.old + self.old.framer.start }
        ensures ok { OnOk result (Stands (told P.declares P.given P.asked program.new) self.old.number self.new.framer self.new.session (self.old.taken + length piece.now) (K.taken link.new) (K.written link.new)) }
        ensures err { IfErr result (λ end. IsOverAt (told P.declares P.given P.asked program.new) (P.is_full program.new) self.old.number (self.old.taken + length piece.now) (16 * P.left program.old + self.old.framer.start) (P.left program.new) (view_by K.taken K.written K.closed K.is_shut K.read_faults K.write_faults link.old) (view_by K.taken K.written K.closed K.is_shut K.read_faults K.write_faults link.new) (record { end = end; ignored = self.new.session.ignored })) }
        ensures taken { self.new.taken ≡ self.old.taken + length piece.now }
        ensures number { self.new.number ≡ self.old.number }
        ensures source { P.source program.new ≡ P.source program.old }
        ensures closed { K.closed link.new ≡ K.closed link.old }
        ensures read_faults { K.read_faults link.new ≡ K.read_faults link.old }
        ensures write_faults { OnOk result (K.write_faults link.new ≡ K.write_faults link.old) }
        ensures going { OnOk result (16 * P.left program.old + self.old.framer.start ≤ 16 * P.left program.new + self.new.framer.start) }
    {
        let Talk {
            framer,
            session,
            out,
            taken,
            ..
        } = self;
        out.clear();
        let heard = hear_piece(alloc, framer, session, piece, program, out);
        *taken += piece.len() as u64;
        let Ok(()) = write_whole(link, out) else {
            return Err(SessionEnd::WriteFault);
        };
        goes_on(heard)
    }

    /// Takes a piece, and answers it.
    fn turn<K: Link, P: Answers>(
        &mut self,
        alloc: Global,
        link: &mut K,
        into: &mut [u8],
        program: &mut P,
    ) -> Result<(), SessionEnd>
        requires stands { Stands (told P.declares P.given P.asked program.old) self.old.number self.old.framer self.old.session self.old.taken (K.taken link.old) (K.written link.old) }
        requires closed { K.closed link.old ≡ false }
        requires some { 0 < length into.old }
        requires room { self.old.taken + length into.old < 2 ^ 63 }
        requires left { self.old.taken + length into.old ≤ 16 * P.left program.old + self.old.framer.start }
        ensures ok { OnOk result (Stands (told P.declares P.given P.asked program.new) self.old.number self.new.framer self.new.session self.new.taken (K.taken link.new) (K.written link.new)) }
        ensures err { IfErr result (λ end. IsOverAt (told P.declares P.given P.asked program.new) (P.is_full program.new) self.old.number (self.old.taken + length into.old) (16 * P.left program.old + self.old.framer.start) (P.left program.new) (view_by K.taken K.written K.closed K.is_shut K.read_faults K.write_faults link.old) (view_by K.taken K.written K.closed K.is_shut K.read_faults K.write_faults link.new) (record { end = end; ignored = self.new.session.ignored })) }
        ensures taken { self.new.taken ≤ self.old.taken + length into.old }
        ensures more { OnOk result (self.old.taken < self.new.taken) }
        ensures number { self.new.number ≡ self.old.number }
        ensures source { P.source program.new ≡ P.source program.old }
        ensures closed { OnOk result (K.closed link.new ≡ K.closed link.old) }
        ensures read_faults { OnOk result (K.read_faults link.new ≡ K.read_faults link.old) }
        ensures write_faults { OnOk result (K.write_faults link.new ≡ K.write_faults link.old) }
        ensures going { OnOk result (16 * P.left program.old + self.old.framer.start ≤ 16 * P.left program.new + self.new.framer.start) }
    {
        match link.read(into) {
            Ok(Got::Bytes(n)) => self.answer(alloc, link, &into[..n], program),
            Ok(Got::Closed) => Err(SessionEnd::Closed),
            Err(_) => Err(SessionEnd::ReadFault),
        }
    }

    /// The end of the session, with what it has counted.
    fn ended(&self, end: SessionEnd) -> Ended
        ensures { result ≡ record { end = end; ignored = self.now.session.ignored } }
    {
        Ended {
            end,
            ignored: self.session.ignored(),
        }
    }

    /// Takes pieces and answers them until the session ends.
    fn converse<K: Link, P: Answers>(
        &mut self,
        alloc: Global,
        link: &mut K,
        buffer: &mut [u8],
        most: u64,
        program: &mut P,
    ) -> Ended
        requires stands { Stands (told P.declares P.given P.asked program.old) self.old.number self.old.framer self.old.session self.old.taken (K.taken link.old) (K.written link.old) }
        requires closed { K.closed link.old ≡ false }
        requires some { 0 < length buffer.old }
        requires room { (self.old.taken ≤ most) × (most < 2 ^ 63) }
        requires left { most ≤ 16 * P.left program.old + self.old.framer.start }
        ensures said { IsOver (told P.declares P.given P.asked program.new) (P.is_full program.new) self.old.number most (16 * P.left program.old + self.old.framer.start) (P.left program.new) (view_by K.taken K.written K.closed K.is_shut K.read_faults K.write_faults link.old) (view_by K.taken K.written K.closed K.is_shut K.read_faults K.write_faults link.new) result }
        ensures source { P.source program.new ≡ P.source program.old }
    {
        while self.taken < most {
            let room = (most - self.taken).min(buffer.len() as u64) as usize;
            if let Err(end) = self.turn(alloc, link, &mut buffer[..room], program) {
                return self.ended(end);
            }
        }
        self.ended(SessionEnd::StreamFull)
    }
}

/// Holds a session over a link, which it greets first, and takes at most `most` bytes. It writes all that a message calls for before it
/// reads again.
pub fn speak_over<K: Link, P: Answers>(
    alloc: Global,
    link: &mut K,
    number: u32,
    most: u64,
    program: &mut P,
) -> Ended
    requires given { P.given program.old ≡ [] }
    requires asked { P.asked program.old ≡ [] }
    requires left { most ≤ 16 * P.left program.old }
    requires most { most < 2 ^ 63 }
    requires taken { IsEmptyWhereTold (K.taken link.old) }
    requires written { IsEmptyWhereTold (K.written link.old) }
    requires closed { K.closed link.old ≡ false }
    ensures said { IsSaidOver (told P.declares P.given P.asked program.new) (P.is_full program.new) number most (P.left program.old) (P.left program.new) (view_by K.taken K.written K.closed K.is_shut K.read_faults K.write_faults link.old) (view_by K.taken K.written K.closed K.is_shut K.read_faults K.write_faults link.new) result }
    ensures source { P.source program.new ≡ P.source program.old }
{
    let short = Ended {
        end: SessionEnd::Memory,
        ignored: 0,
    };
    let Ok(mut talk) = Talk::greet(alloc, number) else {
        return short;
    };
    let Ok(mut buffer) = vec![in alloc; 0; PIECE] else {
        return short;
    };
    let Ok(()) = write_whole(link, &talk.out) else {
        return talk.ended(SessionEnd::WriteFault);
    };
    talk.converse(alloc, link, &mut buffer, most, program)
}
