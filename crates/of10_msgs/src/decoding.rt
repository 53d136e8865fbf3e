//! The message that bytes are, or why they are none.

ghost use Rattle.std.specs.Prelude.{◌≡◌, ◌⊎◌, ◌≤◌, ◌<◌, ◌^◌, max, length, true, IfOk, IfErr, IsNone};
ghost use Rattle.of10_wire.specs.Refusals.{Answers, refusal, out_of_memory};
ghost use Rattle.of10_msgs.specs.declared.message.Message.{Message};
ghost use Rattle.of10_msgs.specs.Messages.{spells};
ghost use Rattle.of10_msgs.specs.Refused.{IsTypedFrame, early, Late, Refuses};
ghost use Rattle.of10_msgs.specs.Sending.{IsSendable};

use crate::lengths::lengths_of;
use crate::message::Message;
use crate::reading::{
    barrier_reply, barrier_request, echo_reply, echo_request, error, features_reply,
    features_request, flow_mod, flow_removed, get_config_reply, get_config_request, hello,
    packet_in, packet_out, port_mod, port_status, queue_get_config_reply, queue_get_config_request,
    set_config, stats_reply, stats_request, vendor,
};
use of10_wire::{Opening, WireRefusal, WireWhy, message_type, opening_of, u8_at};
use std::alloc::Global;

fn refusal(at: usize, why: WireWhy) -> Option<WireRefusal>
    ensures { result ≡ Some (refusal at why) }
{
    Some(WireRefusal { at, why })
}

/// What the header and the length already show.
#[tactic(auto, unfolding(crate::specs::Refused::early))]
fn early_refusal(bytes: &[u8]) -> Option<WireRefusal>
    ensures exact { result ≡ early bytes.now }
    ensures frame { IsNone result → IsTypedFrame bytes.now }
    ensures short { IsNone result → length bytes.now < 2 ^ 16 }
{
    match opening_of(bytes) {
        Opening::Wants(_) => refusal(2, WireWhy::BadLength),
        Opening::Refused(refusal) => Some(refusal),
        Opening::Frame(len) => {
            let lengths = lengths_of(u8_at(bytes, 1));
            if len == bytes.len() && lengths.allows(len) {
                None
            } else {
                refusal(2, WireWhy::BadLength)
            }
        }
    }
}

/// The message that a whole frame is.
fn read_frame(alloc: Global, bytes: &[u8]) -> Result<Message, WireRefusal>
    requires { IsTypedFrame bytes.now }
    ensures { Answers result (λ m. spells m bytes.now) (Late bytes.now) }
{
    match u8_at(bytes, 1) {
        message_type::HELLO => Ok(hello(alloc, bytes)?),
        message_type::ERROR => Ok(error(alloc, bytes)?),
        message_type::ECHO_REQUEST => Ok(echo_request(alloc, bytes)?),
        message_type::ECHO_REPLY => Ok(echo_reply(alloc, bytes)?),
        message_type::VENDOR => Ok(vendor(alloc, bytes)?),
        message_type::FEATURES_REQUEST => Ok(features_request(bytes)),
        message_type::FEATURES_REPLY => Ok(features_reply(alloc, bytes)?),
        message_type::GET_CONFIG_REQUEST => Ok(get_config_request(bytes)),
        message_type::GET_CONFIG_REPLY => Ok(get_config_reply(bytes)),
        message_type::SET_CONFIG => Ok(set_config(bytes)),
        message_type::PACKET_IN => Ok(packet_in(alloc, bytes)?),
        message_type::FLOW_REMOVED => Ok(flow_removed(bytes)),
        message_type::PORT_STATUS => Ok(port_status(bytes)),
        message_type::PACKET_OUT => packet_out(alloc, bytes),
        message_type::FLOW_MOD => flow_mod(alloc, bytes),
        message_type::PORT_MOD => Ok(port_mod(bytes)),
        message_type::STATS_REQUEST => stats_request(alloc, bytes),
        message_type::STATS_REPLY => stats_reply(alloc, bytes),
        message_type::BARRIER_REQUEST => Ok(barrier_request(bytes)),
        message_type::BARRIER_REPLY => Ok(barrier_reply(bytes)),
        message_type::QUEUE_GET_CONFIG_REQUEST => Ok(queue_get_config_request(bytes)),
        _ => queue_get_config_reply(alloc, bytes),
    }
}

fn read(alloc: Global, bytes: &[u8]) -> Result<Message, WireRefusal>
    ensures answer { Answers result (λ m. spells m bytes.now) (Refuses bytes.now) }
    ensures short { IfOk result (λ m. length bytes.now < 2 ^ 16) }
{
    match early_refusal(bytes) {
        Some(refusal) => Err(refusal),
        None => read_frame(alloc, bytes),
    }
}

/// The message that these bytes are, which are one whole frame (docs/OPENFLOW.md, "Frames"). It goes over them once.
///
/// # Errors
///
/// The first rule that the bytes break, with its place in bytes from 0: first what the header shows, then the length,
/// then the body from left to right (docs/OPENFLOW.md, "Refusals"). `Memory` where memory ran out.
///
/// # Example
///
/// From the tests `each_field_has_its_place` and `each_rule_refuses_at_its_place` of this crate.
///
/// ```rust
/// match decode(alloc, &[1, 2, 0, 12, 0, 0, 0, 9, b'a', b'b', b'c', b'd'])? {
///     Message::EchoRequest { xid, body } => {
///         assert!(rt; xid == 9 && body.as_slice() == b"abcd".as_slice());
///     }
///     _ => assert!(rt; false),
/// }
/// match decode(alloc, &[1, 22, 0, 9, 0, 0, 0, 1]) {
///     Ok(_) => assert!(rt; false),
///     Err(refusal) => assert_eq!(rt; refusal, WireRefusal { at: 1, why: WireWhy::BadType }),
/// }
/// ```
pub fn decode(alloc: Global, bytes: &[u8]) -> Result<Message, WireRefusal>
    // What is read is spelled so.
    ensures found { IfOk result (λ m. spells m bytes.now) }
    // What is spelled so is read, unless memory runs out.
    ensures only { (m : Message) → spells m bytes.now → (result ≡ Ok m) ⊎ (result ≡ Err out_of_memory) }
    // The refusal is the first reason, unless memory ran out.
    ensures refusal { IfErr result (λ e. (e ≡ out_of_memory) ⊎ Refuses bytes.now e) }
    // It stands among the bytes; of fewer than 2 bytes the place is that of the length which they lack.
    ensures place { IfErr result (λ e. e.at ≤ max 2 (length bytes.now)) }
    ensures sendable { IfOk result (λ m. IsSendable m) }
{
    read(alloc, bytes)
}
