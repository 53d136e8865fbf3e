//! A session over bytes that are there.

ghost use Rattle.std.specs.Prelude.{◌≡◌, ◌*◌, ◌≤◌, [], length, IfOk};
ghost use Rattle.of10_speech.specs.Speeches.{told};
ghost use Rattle.of10_speech.specs.Hearings.{IsAnswer};

use crate::answers::Answers;
use crate::hearing::hear_next;
use crate::stops::{Broken, SpeechStop};
use of10_session::Session;
use of10_stream::Framer;
use of10_wire::rest_from;
use std::alloc::Global;

/// How a session stood when its bytes were over, or when it stopped.
#[derive(Clone, Copy, Debug, PartialEq, Eq)]
pub struct Spoken {
    pub stop: SpeechStop,
    pub ignored: u64,
}

/// Appends all that a session says to these bytes. It goes over them once.
///
/// # Errors
///
/// The history was full, or memory ran out.
pub fn speak<P: Answers>(
    alloc: Global,
    number: u32,
    bytes: &[u8],
    program: &mut P,
    out: &mut Vec<u8>,
) -> Result<Spoken, Broken>
    requires given { P.given program.old ≡ [] }
    requires asked { P.asked program.old ≡ [] }
    requires left { length bytes.now ≤ 16 * P.left program.old }
    ensures answer { IfOk result (IsAnswer (told P.declares P.given P.asked program.new) number bytes.now out.old.items out.new.items) }
    ensures declares { P.declares program.new ≡ P.declares program.old }
    ensures source { P.source program.new ≡ P.source program.old }
{
    let Ok(mut framer) = Framer::try_new(alloc) else {
        return Err(Broken::Memory);
    };
    let mut session = Session::new(number);
    let Ok(()) = session.greet(alloc, out) else {
        return Err(Broken::Memory);
    };
    let mut at = 0;
    while at < bytes.len() {
        let heard = hear_next(
            alloc,
            &mut framer,
            &mut session,
            rest_from(bytes, at),
            program,
            out,
        )?;
        at += heard.used;
        match heard.stop {
            SpeechStop::Goes => {}
            stop => {
                return Ok(Spoken {
                    stop,
                    ignored: session.ignored(),
                });
            }
        }
    }
    Ok(Spoken {
        stop: SpeechStop::Goes,
        ignored: session.ignored(),
    })
}
