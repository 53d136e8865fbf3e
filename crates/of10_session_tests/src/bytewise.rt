//! A stream that comes byte by byte.

ghost use Rattle.std.specs.Prelude.{◌≡◌, ◌*◌, ◌≤◌, [], ◌++◌, length, IfOk, OnOk};
ghost use Rattle.of10_stream.specs.Framings.{framing};
ghost use Rattle.of10_session.specs.Sessions.{spelled};
ghost use Rattle.of10_speech.specs.Speeches.{opening};

use of10_session::Session;
use of10_speech::{Answers, Broken, SpeechStop, Spoken, hear_next};
use of10_stream::Framer;
use std::alloc::{AllocError, Global};

/// A framer and a session that has greeted.
fn begin(alloc: Global, out: &mut Vec<u8>) -> Result<(Framer, Session), AllocError>
    ensures framer { IfOk result (λ both. both.0 ≡ framing 0 []) }
    ensures session { IfOk result (λ both. both.1 ≡ (opening 1).session) }
    ensures bytes { OnOk result (out.new.items ≡ out.old.items ++ spelled (opening 1).sent) }
{
    let framer = Framer::try_new(alloc)?;
    let mut session = Session::new(1);
    session.greet(alloc, out)?;
    Ok((framer, session))
}

/// Appends all that a session says to these bytes, which it is given one by one.
pub fn speak_bytewise<P: Answers>(
    alloc: Global,
    bytes: &[u8],
    program: &mut P,
    out: &mut Vec<u8>,
) -> Result<Spoken, Broken>
    requires given { P.given program.old ≡ [] }
    requires asked { P.asked program.old ≡ [] }
    requires left { length bytes.now ≤ 16 * P.left program.old }
{
    let Ok((mut framer, mut session)) = begin(alloc, out) else {
        return Err(Broken::Memory);
    };
    let mut taken = Vec::new(alloc);
    for byte in bytes {
        let Ok(()) = taken.push(*byte) else {
            return Err(Broken::Memory);
        };
        let heard = hear_next(alloc, &mut framer, &mut session, &[*byte], program, out)?;
        match heard.stop {
            SpeechStop::Goes => {}
            stop => {
                return Ok(Spoken {
                    stop,
                    ignored: session.ignored(),
                });
            }
        }
    }
    Ok(Spoken {
        stop: SpeechStop::Goes,
        ignored: session.ignored(),
    })
}
