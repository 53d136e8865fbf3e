//! Laws of messages and bytes.

ghost use Rattle.std.specs.Prelude.{ℕ, List, ◌≡◌, ◌≢◌, ◌⊎◌};
ghost use Rattle.of10_wire.specs.declared.refusal.WireRefusal.{WireRefusal};
ghost use Rattle.of10_wire.specs.declared.refusal.WireWhy.TheVariants.{Memory};
ghost use Rattle.of10_wire.specs.Refusals.{out_of_memory};
ghost use Rattle.of10_msgs.specs.declared.message.Message.{Message};
ghost use Rattle.of10_msgs.specs.Readings.{HasOneReading};
ghost use Rattle.of10_msgs.specs.Refused.{Refuses};
ghost use Rattle.of10_msgs.specs.Sending.{IsSendable};

use crate::decoding::decode;
use crate::message::Message;
use crate::writing::encode;
use of10_wire::WireRefusal;
use std::alloc::Global;

/// A law, whatever memory there is: of each list of bytes exactly one holds, that one message is spelled by it, or
/// that one refusal stands.
pub fn one_reading()
    ensures { (bytes : List ℕ) → HasOneReading bytes }
{}

/// A law: a refusal of bytes never stands for want of memory.
pub fn refusal_named()
    ensures { (bytes : List ℕ) (e : WireRefusal) → Refuses bytes e → e.why ≢ Memory }
{}

/// Writes a message and reads it again: it is the same message, unless memory runs out.
pub fn again(alloc: Global, message: &Message) -> Result<Message, WireRefusal>
    requires { IsSendable message.now }
    ensures { (result ≡ Ok message.now) ⊎ (result ≡ Err out_of_memory) }
{
    let mut out = Vec::new(alloc);
    encode(message, &mut out)?;
    decode(alloc, &out)
}
