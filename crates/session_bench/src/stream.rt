//! A session that hears a stream in pieces.
ghost use Rattle.std.specs.Prelude.{◌≡◌, ◌+◌, ◌<◌, ◌^◌, [], length, false, true, OnOk};
ghost use Rattle.of10_stream.specs.Framings.{IsOpen};

use crate::trouble::Trouble;
use csdn_history::reply::Reply;
use of10_session::{Ask, Session};
use of10_speech::{Answers, SpeechStop, Unanswered, hear_next};
use of10_stream::Framer;
use of10_wire::rest_from;
use std::alloc::Global;

/// A network without elements, so that no ask is declared.
#[derive(Drop)]
struct Nothing;

impl Answers for Nothing {
    ghost declares = { λ _ _. false };

    ghost given = { λ _. [] };

    ghost asked = { λ _. [] };

    ghost is_full = { λ _. true };

    ghost left = { λ _. 2 ^ 60 };

    ghost source = { λ _. tt };

    fn ask(&mut self, _ask: Ask) -> Result<Reply, Unanswered> {
        Err(Unanswered::Stranger)
    }
}

/// Hears a whole piece, and appends what is said.
fn hear_piece(
    alloc: Global,
    framer: &mut Framer,
    session: &mut Session,
    piece: &[u8],
    out: &mut Vec<u8>,
) -> Result<(), Trouble>
    requires open { IsOpen framer.old }
    requires room { (framer.old.start + length framer.old.held) + length piece.now < 2 ^ 64 }
    ensures open { OnOk result (IsOpen framer.new) }
    ensures place { OnOk result (framer.new.start + length framer.new.held ≡ (framer.old.start + length framer.old.held) + length piece.now) }
{
    let mut at = 0;
    while at < piece.len() {
        if !session.is_listening() || session.ignored() >= 1 << 40 {
            return Err(Trouble::Over);
        }
        let heard = hear_next(
            alloc,
            framer,
            session,
            rest_from(piece, at),
            &mut Nothing,
            out,
        )?;
        match heard.stop {
            SpeechStop::Goes => at += heard.used,
            _ => return Err(Trouble::Over),
        }
    }
    Ok(())
}

/// How many bytes a session says to these bytes, which come in pieces of this size. It goes over them once.
pub fn said_to(alloc: Global, bytes: &[u8], size: u64) -> Result<u64, Trouble> {
    let size = (size.clamp(1, 1 << 32)) as usize;
    let mut framer = Framer::try_new(alloc)?;
    let mut session = Session::new(1);
    let mut out = Vec::new(alloc);
    session.greet(alloc, &mut out)?;
    let mut said = out.len() as u64;
    let mut at = 0;
    while at < bytes.len() {
        out.clear();
        let width = size.min(bytes.len() - at);
        hear_piece(
            alloc,
            &mut framer,
            &mut session,
            &bytes[at..at + width],
            &mut out,
        )?;
        said = said.saturating_add(out.len() as u64);
        at += width;
    }
    Ok(said)
}
