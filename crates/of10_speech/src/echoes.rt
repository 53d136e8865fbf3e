//! Frames that ask for an echo, answered from their bytes: no message is made of them.

ghost use Rattle.std.specs.Prelude.{◌≡◌, ◌↔◌, ◌<◌, ◌^◌, [], ◌∷◌, ◌++◌, length, IsTrue, OnOk, OnErr};
ghost use Rattle.of10_wire.specs.MessageTypes as types;
ghost use Rattle.of10_msgs.specs.Messages.{Opens, echoed, spells};
ghost use Rattle.of10_stream.specs.Framings.{IsFrame};
ghost use Rattle.of10_session.specs.Sessions.{spelled};
ghost use Rattle.of10_speech.specs.Echoes.{request_in};

use of10_wire::{message_type, u8_at};
use std::alloc::AllocError;

/// Whether a whole frame asks for an echo.
pub(crate) fn asks_for_echo(frame: &[u8]) -> bool
    requires { IsFrame frame.now }
    ensures { IsTrue result ↔ Opens types.echo_request frame.now }
{
    u8_at(frame, 1) == message_type::ECHO_REQUEST
}

/// Appends the reply to a frame that asks for an echo: its bytes again, with the reply's type.
///
/// # Errors
///
/// Where memory ran out nothing is appended.
pub(crate) fn echo(frame: &[u8], out: &mut Vec<u8>) -> Result<(), AllocError>
    requires opens { Opens types.echo_request frame.now }
    requires whole { IsFrame frame.now }
    ensures request { spells (request_in frame.now) frame.now }
    ensures bytes { OnOk result (out.new.items ≡ out.old.items ++ spelled (echoed (request_in frame.now) ∷ [])) }
    ensures err { OnErr result (out.new.items ≡ out.old.items) }
{
    let kind = out.len() + 1;
    out.extend_from_slice(frame)?;
    out[kind] = message_type::ECHO_REPLY;
    Ok(())
}
