//! A piece of a stream that is heard whole.
ghost use Rattle.std.specs.Prelude.{◌≡◌, ◌*◌, ◌+◌, ◌<◌, ◌≤◌, ◌^◌, [], true, length, IfOk, IfErr};
ghost use Rattle.of10_speech.specs.Speeches.{told, Further};
ghost use Rattle.of10_speech.specs.Hearings.{TookFew};
ghost use Rattle.link_sessions.specs.Pieces.{HearsPiece, StandsSomewhere};

use of10_session::Session;
use of10_speech::{Answers, Broken, SpeechStop, hear_next};
use of10_stream::Framer;
use of10_wire::rest_from;
use std::alloc::Global;

/// Hears a whole piece, and appends all that it calls for, up to where the session stops.
///
/// # Errors
///
/// The history was full, or memory ran out.
pub(crate) fn hear_piece<P: Answers>(
    alloc: Global,
    framer: &mut Framer,
    session: &mut Session,
    piece: &[u8],
    program: &mut P,
    out: &mut Vec<u8>,
) -> Result<SpeechStop, Broken>
    requires stands { StandsSomewhere (told P.declares P.given P.asked program.old) framer.old session.old }
    requires room { (framer.old.start + length framer.old.held) + length piece.now < 2 ^ 63 }
    requires out { out.old.items ≡ [] }
    requires left { length framer.old.held + length piece.now ≤ 16 * P.left program.old }
    ensures hears { HearsPiece (told P.declares P.given P.asked program.old) (told P.declares P.given P.asked program.new) framer.old session.old piece.now framer.new session.new out.new.items result }
    ensures full { IfErr result (λ why. why ≡ Broken.Full → P.is_full program.new ≡ true) }
    ensures waits { IfOk result (λ stop. stop ≡ SpeechStop.Waits → P.is_full program.new ≡ true) }
    ensures further { Further (told P.declares P.given P.asked program.old) (told P.declares P.given P.asked program.new) }
    ensures source { P.source program.new ≡ P.source program.old }
    ensures few { TookFew (P.left program.old) (P.left program.new) (length framer.old.held + length piece.now) }
    ensures going { IfOk result (λ stop. stop ≡ SpeechStop.Goes → 16 * P.left program.old + framer.old.start ≤ 16 * P.left program.new + framer.new.start) }
{
    let mut at = 0;
    while at < piece.len() {
        let heard = hear_next(alloc, framer, session, rest_from(piece, at), program, out)?;
        at += heard.used;
        match heard.stop {
            SpeechStop::Goes => {}
            stop => return Ok(stop),
        }
    }
    Ok(SpeechStop::Goes)
}
