//! One step of a session that hears a stream.

ghost use Rattle.std.specs.Prelude.{◌≡◌, ◌≢◌, ◌+◌, ◌*◌, ◌++◌, ◌<◌, ◌≤◌, ◌^◌, true, [], length, IfOk, IfErr, OnErr};
ghost use Rattle.of10_msgs.specs.Sending.{IsSendable};
ghost use Rattle.of10_stream.specs.Framings.{framing, IsFrame, IsOpen, IsReady};
ghost use Rattle.of10_stream.specs.Streams.{frame_width};
ghost use Rattle.of10_session.specs.Progresses.{IsListening};
ghost use Rattle.of10_speech.specs.Speeches.{told, Further, said_to, on_ask};
ghost use Rattle.of10_speech.specs.Hearings.{Breaks, BreaksAtFrame, BreaksOff, Says, Hears, HearsFrame, TookFew, is_ended};

use crate::answers::{Answers, Unanswered};
use crate::echoes::{asks_for_echo, echo};
use crate::stops::{Broken, SpeechStop, SpokenEnd};
use of10_msgs::Message;
use of10_session::{Ask, Pending, Session, Turn, TurnEnd};
use of10_stream::{Framer, read_frame};
use of10_wire::{Opening, WireRefusal, opening_of};
use std::alloc::Global;

/// Settles the ask of a session.
fn settle<P: Answers>(
    alloc: Global,
    session: &mut Session,
    program: &mut P,
    ask: Ask,
    out: &mut Vec<u8>,
) -> Result<SpeechStop, Broken>
    requires pending { session.old.pending ≢ Pending.Nothing }
    requires room { session.old.ignored + 1 < 2 ^ 64 }
    requires left { 0 < P.left program.old }
    ensures said { IfOk result (λ stop. Says (on_ask (told P.declares P.given P.asked program.new) (length (P.given program.old)) session.old ask) stop session.new out.old.items out.new.items) }
    ensures err { OnErr result ((session.new ≡ session.old) × (out.new.items ≡ out.old.items)) }
    ensures broken { IfErr result (λ why. BreaksOff (on_ask (told P.declares P.given P.asked program.new) (length (P.given program.old)) session.old ask) (told P.declares P.given P.asked program.old) (told P.declares P.given P.asked program.new) session.old why) }
    ensures waits { IfOk result (λ stop. stop ≡ SpeechStop.Waits → P.is_full program.new ≡ true) }
    ensures full { IfErr result (λ why. why ≡ Broken.Full → P.is_full program.new ≡ true) }
    ensures left { P.left program.old ≤ P.left program.new + 1 }
    ensures further { Further (told P.declares P.given P.asked program.old) (told P.declares P.given P.asked program.new) }
    ensures source { P.source program.new ≡ P.source program.old }
    ensures counts { IfOk result (λ stop. stop ≡ SpeechStop.Goes → length (P.given program.new) ≡ length (P.given program.old) + length (on_ask (told P.declares P.given P.asked program.new) (length (P.given program.old)) session.old ask).asks) }
    ensures asked { IfOk result (λ stop. P.asked program.new ≡ P.asked program.old ++ (on_ask (told P.declares P.given P.asked program.new) (length (P.given program.old)) session.old ask).asks) }
{
    match program.ask(ask) {
        Ok(reply) => match session.answer(alloc, &reply, out) {
            Ok(()) => Ok(SpeechStop::Goes),
            Err(_) => Err(Broken::Memory),
        },
        Err(Unanswered::Stranger) => match ask {
            Ask::Join { s } => Ok(SpeechStop::Ends(SpokenEnd::UnknownSwitch { s })),
            Ask::Packet { .. } | Ask::Expire { .. } => {
                session.pass();
                Ok(SpeechStop::Goes)
            }
        },
        Err(Unanswered::NoEntry) => Ok(SpeechStop::Waits),
        Err(Unanswered::Full) => Err(Broken::Full),
        Err(Unanswered::Memory) => Err(Broken::Memory),
    }
}

/// Hears the message at a place of the stream: appends all that it calls for.
///
/// # Errors
///
/// Where the history was full or memory ran out nothing is appended, and nothing counts as ignored; the session is not to
/// be used again.
pub fn hear<P: Answers>(
    alloc: Global,
    session: &mut Session,
    place: u64,
    message: Message,
    program: &mut P,
    out: &mut Vec<u8>,
) -> Result<SpeechStop, Broken>
    requires listening { IsListening session.old }
    requires room { session.old.ignored + 1 < 2 ^ 64 }
    requires sendable { IsSendable message }
    requires left { frame_width message ≤ 16 * P.left program.old }
    ensures said { IfOk result (λ stop. Says (said_to (told P.declares P.given P.asked program.new) place (length (P.given program.old)) session.old message) stop session.new out.old.items out.new.items) }
    ensures err { OnErr result ((session.new.ignored ≡ session.old.ignored) × (out.new.items ≡ out.old.items)) }
    ensures broken { IfErr result (λ why. BreaksOff (said_to (told P.declares P.given P.asked program.new) place (length (P.given program.old)) session.old message) (told P.declares P.given P.asked program.old) (told P.declares P.given P.asked program.new) session.old why) }
    ensures waits { IfOk result (λ stop. stop ≡ SpeechStop.Waits → P.is_full program.new ≡ true) }
    ensures full { IfErr result (λ why. why ≡ Broken.Full → P.is_full program.new ≡ true) }
    ensures left { TookFew (P.left program.old) (P.left program.new) (frame_width message) }
    ensures further { Further (told P.declares P.given P.asked program.old) (told P.declares P.given P.asked program.new) }
    ensures source { P.source program.new ≡ P.source program.old }
    ensures counts { IfOk result (λ stop. stop ≡ SpeechStop.Goes → length (P.given program.new) ≡ length (P.given program.old) + length (said_to (told P.declares P.given P.asked program.new) place (length (P.given program.old)) session.old message).asks) }
    ensures asked { IfOk result (λ stop. P.asked program.new ≡ P.asked program.old ++ (said_to (told P.declares P.given P.asked program.new) place (length (P.given program.old)) session.old message).asks) }
{
    match session.step(alloc, message, out) {
        Err(_) => Err(Broken::Memory),
        Ok(Turn::Go) => Ok(SpeechStop::Goes),
        Ok(Turn::End(TurnEnd::Incompatible)) => Ok(SpeechStop::Ends(SpokenEnd::Incompatible)),
        Ok(Turn::End(TurnEnd::OutOfTurn)) => Ok(SpeechStop::Ends(SpokenEnd::OutOfTurn {
            at: place,
        })),
        Ok(Turn::Ask(ask)) => settle(alloc, session, program, ask, out),
    }
}

/// How many bytes of a piece were taken, and whether the session goes on.
#[derive(Clone, Copy, Debug, PartialEq, Eq)]
pub struct Hearing {
    pub used: usize,
    pub stop: SpeechStop,
}

/// The end of a stream by bytes that are no message.
fn ended(start: u64, refusal: WireRefusal) -> SpeechStop
    requires { start + refusal.at < 2 ^ 64 }
    ensures { result ≡ is_ended start refusal }
{
    SpeechStop::Ends(SpokenEnd::Wire {
        at: start + refusal.at as u64,
        why: refusal.why,
    })
}

/// Hears the message of a whole frame, which begins at this place of the stream. A message takes much room on the stack, which is
/// cleared at each call: so this stands apart.
#[inline(never)]
fn hear_decoded<P: Answers>(
    alloc: Global,
    session: &mut Session,
    place: u64,
    frame: &[u8],
    program: &mut P,
    out: &mut Vec<u8>,
) -> Result<SpeechStop, Broken>
    requires frame { IsFrame frame.now }
    requires short { length frame.now ≤ 65535 }
    requires room { place + length frame.now < 2 ^ 64 }
    requires listening { IsListening session.old }
    requires count { session.old.ignored + 1 < 2 ^ 64 }
    requires left { length frame.now ≤ 16 * P.left program.old }
    ensures hears { IfOk result (λ stop. HearsFrame (told P.declares P.given P.asked program.old) (told P.declares P.given P.asked program.new) (framing place frame.now) session.old (framing (place + length frame.now) []) session.new stop out.old.items out.new.items) }
    ensures err { OnErr result ((session.new.ignored ≡ session.old.ignored) × (out.new.items ≡ out.old.items)) }
    ensures broken { IfErr result (λ why. BreaksAtFrame (told P.declares P.given P.asked program.old) (told P.declares P.given P.asked program.new) (framing place frame.now) session.old why) }
    ensures waits { IfOk result (λ stop. stop ≡ SpeechStop.Waits → P.is_full program.new ≡ true) }
    ensures full { IfErr result (λ why. why ≡ Broken.Full → P.is_full program.new ≡ true) }
    ensures left { TookFew (P.left program.old) (P.left program.new) (length frame.now) }
    ensures further { Further (told P.declares P.given P.asked program.old) (told P.declares P.given P.asked program.new) }
    ensures source { P.source program.new ≡ P.source program.old }
{
    match read_frame(alloc, frame) {
        Err(_) => Err(Broken::Memory),
        Ok(Err(refusal)) => Ok(ended(place, refusal)),
        Ok(Ok(message)) => hear(alloc, session, place, message, program, out),
    }
}

/// Hears a whole frame, which begins at this place of the stream. One that asks for an echo takes memory for what is sent
/// alone.
fn hear_bytes<P: Answers>(
    alloc: Global,
    session: &mut Session,
    place: u64,
    frame: &[u8],
    program: &mut P,
    out: &mut Vec<u8>,
) -> Result<SpeechStop, Broken>
    requires frame { IsFrame frame.now }
    requires short { length frame.now ≤ 65535 }
    requires room { place + length frame.now < 2 ^ 64 }
    requires listening { IsListening session.old }
    requires count { session.old.ignored + 1 < 2 ^ 64 }
    requires left { length frame.now ≤ 16 * P.left program.old }
    ensures hears { IfOk result (λ stop. HearsFrame (told P.declares P.given P.asked program.old) (told P.declares P.given P.asked program.new) (framing place frame.now) session.old (framing (place + length frame.now) []) session.new stop out.old.items out.new.items) }
    ensures err { OnErr result ((session.new.ignored ≡ session.old.ignored) × (out.new.items ≡ out.old.items)) }
    ensures broken { IfErr result (λ why. BreaksAtFrame (told P.declares P.given P.asked program.old) (told P.declares P.given P.asked program.new) (framing place frame.now) session.old why) }
    ensures waits { IfOk result (λ stop. stop ≡ SpeechStop.Waits → P.is_full program.new ≡ true) }
    ensures full { IfErr result (λ why. why ≡ Broken.Full → P.is_full program.new ≡ true) }
    ensures left { TookFew (P.left program.old) (P.left program.new) (length frame.now) }
    ensures further { Further (told P.declares P.given P.asked program.old) (told P.declares P.given P.asked program.new) }
    ensures source { P.source program.new ≡ P.source program.old }
{
    if asks_for_echo(frame) {
        return match echo(frame, out) {
            Ok(()) => Ok(SpeechStop::Goes),
            Err(_) => Err(Broken::Memory),
        };
    }
    hear_decoded(alloc, session, place, frame, program, out)
}

/// Hears the next message of a piece, or takes all of the piece. A frame that is whole in the piece is read there, and a
/// request for an echo costs its bytes alone.
///
/// # Errors
///
/// Where the history was full or memory ran out nothing is appended, and nothing counts as ignored; the session is not to
/// be used again.
pub fn hear_next<P: Answers>(
    alloc: Global,
    framer: &mut Framer,
    session: &mut Session,
    piece: &[u8],
    program: &mut P,
    out: &mut Vec<u8>,
) -> Result<Hearing, Broken>
    requires framer { IsOpen framer.old }
    requires room { (framer.old.start + length framer.old.held) + length piece.now < 2 ^ 64 }
    requires listening { IsListening session.old }
    requires count { session.old.ignored + 1 < 2 ^ 64 }
    requires left { length framer.old.held + length piece.now ≤ 16 * P.left program.old }
    ensures hears { IfOk result (λ r. Hears (told P.declares P.given P.asked program.old) (told P.declares P.given P.asked program.new) framer.old session.old piece.now framer.new session.new r out.old.items out.new.items) }
    ensures err { OnErr result ((session.new.ignored ≡ session.old.ignored) × (out.new.items ≡ out.old.items)) }
    ensures broken { IfErr result (λ why. Breaks (told P.declares P.given P.asked program.old) (told P.declares P.given P.asked program.new) framer.old session.old piece.now why) }
    ensures waits { IfOk result (λ r. r.stop ≡ SpeechStop.Waits → P.is_full program.new ≡ true) }
    ensures full { IfErr result (λ why. why ≡ Broken.Full → P.is_full program.new ≡ true) }
    ensures left { TookFew (P.left program.old) (P.left program.new) (length framer.old.held + length piece.now) }
    ensures going { IfOk result (λ r. r.stop ≡ SpeechStop.Goes → 16 * P.left program.old + framer.old.start ≤ 16 * P.left program.new + framer.new.start) }
    ensures further { Further (told P.declares P.given P.asked program.old) (told P.declares P.given P.asked program.new) }
    ensures source { P.source program.new ≡ P.source program.old }
{
    if framer.is_empty() {
        if let Opening::Frame(len) = opening_of(piece) {
            let stop = hear_bytes(alloc, session, framer.start(), &piece[..len], program, out)?;
            framer.pass(len);
            return Ok(Hearing { used: len, stop });
        }
    }
    match framer.feed(piece) {
        Err(refusal) => Ok(Hearing {
            used: piece.len(),
            stop: SpeechStop::Ends(SpokenEnd::Wire {
                at: refusal.at,
                why: refusal.why,
            }),
        }),
        Ok(fed) => {
            if !fed.ready {
                return Ok(Hearing {
                    used: fed.used,
                    stop: SpeechStop::Goes,
                });
            }
            let stop = hear_frame(alloc, framer, session, program, out)?;
            Ok(Hearing {
                used: fed.used,
                stop,
            })
        }
    }
}

/// Hears the frame that is ready, and lets it go.
fn hear_frame<P: Answers>(
    alloc: Global,
    framer: &mut Framer,
    session: &mut Session,
    program: &mut P,
    out: &mut Vec<u8>,
) -> Result<SpeechStop, Broken>
    requires framer { IsReady framer.old }
    requires room { framer.old.start + length framer.old.held < 2 ^ 64 }
    requires listening { IsListening session.old }
    requires count { session.old.ignored + 1 < 2 ^ 64 }
    requires left { length framer.old.held ≤ 16 * P.left program.old }
    ensures hears { IfOk result (λ stop. HearsFrame (told P.declares P.given P.asked program.old) (told P.declares P.given P.asked program.new) framer.old session.old framer.new session.new stop out.old.items out.new.items) }
    ensures err { OnErr result ((session.new.ignored ≡ session.old.ignored) × (out.new.items ≡ out.old.items)) }
    ensures broken { IfErr result (λ why. BreaksAtFrame (told P.declares P.given P.asked program.old) (told P.declares P.given P.asked program.new) framer.old session.old why) }
    ensures waits { IfOk result (λ stop. stop ≡ SpeechStop.Waits → P.is_full program.new ≡ true) }
    ensures full { IfErr result (λ why. why ≡ Broken.Full → P.is_full program.new ≡ true) }
    ensures left { TookFew (P.left program.old) (P.left program.new) (length framer.old.held) }
    ensures further { Further (told P.declares P.given P.asked program.old) (told P.declares P.given P.asked program.new) }
    ensures source { P.source program.new ≡ P.source program.old }
{
    let place = framer.start();
    let stop = hear_bytes(alloc, session, place, framer.frame(), program, out)?;
    framer.next();
    Ok(stop)
}
