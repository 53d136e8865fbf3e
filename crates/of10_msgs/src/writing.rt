//! Messages, written.

ghost use Rattle.std.specs.Prelude.{min, IsTrue, ◌↔◌, OnOk, OnErr, ◌≡◌, ◌+◌, ◌++◌, ◌≤◌, ◌<◌, ◌^◌, vec_len, vec_capacity};
ghost use Rattle.std.specs.List.{flat_map, AllByRecursion};
ghost use Rattle.of10_wire.specs.Actions.{action_slots, IsProper};
ghost use Rattle.of10_wire.specs.Layout.{width};
ghost use Rattle.of10_wire.specs.Writing.{Writes};
ghost use Rattle.of10_msgs.specs.Messages.{message_slots, kind_of, fields_of, rest, spells, zeroed};
ghost use Rattle.of10_msgs.specs.Lengths.{lengths_of, least};
ghost use Rattle.of10_msgs.specs.Sending.{IsProperMessage, IsSendable};

use crate::lengths::lengths_of;
use crate::message::Message;
use of10_wire::{
    Action, Body, Header, Part, are_proper, capped, len_all, put_all, put_bytes, put_pad, put_u8,
    put_u16, put_u32, put_u64,
};
use std::alloc::AllocError;

/// The actions, and then the bytes.
#[tactic(auto, using(crate::proofs::Tails::width_tail))]
fn put_actions_and_body(out: &mut Vec<u8>, actions: &[Action], body: &Body)
    requires room { vec_len out.old + width (flat_map action_slots actions.now ++ rest body.now) ≤ vec_capacity out.old }
    requires proper { AllByRecursion IsProper actions.now }
    requires short { width (flat_map action_slots actions.now ++ rest body.now) < 2 ^ 16 }
    ensures { Writes out.old out.new (flat_map action_slots actions.now ++ rest body.now) }
{
    put_all(out, actions);
    put_bytes(out, body.as_slice());
}

/// What stands behind the header.
#[tactic(auto, using(crate::proofs::Tails::width_tail, crate::proofs::Tails::ports_proper), unfolding(of10_wire::specs::Parts::match_slots, of10_wire::specs::Parts::port_slots))]
fn put_fields(out: &mut Vec<u8>, message: &Message)
    requires room { vec_len out.old + width (fields_of message.now) ≤ vec_capacity out.old }
    requires short { width (fields_of message.now) < 2 ^ 16 }
    requires proper { IsProperMessage message.now }
    ensures { Writes out.old out.new (fields_of message.now) }
{
    match message {
        Message::Hello { body, .. } => put_bytes(out, body.as_slice()),
        Message::Error {
            kind,
            code,
            body,
            ..
        } => {
            put_u16(out, *kind);
            put_u16(out, *code);
            put_bytes(out, body.as_slice());
        }
        Message::EchoRequest { body, .. } => put_bytes(out, body.as_slice()),
        Message::EchoReply { body, .. } => put_bytes(out, body.as_slice()),
        Message::Vendor { vendor, body, .. } => {
            put_u32(out, *vendor);
            put_bytes(out, body.as_slice());
        }
        Message::FeaturesRequest { .. } => {}
        Message::FeaturesReply {
            datapath_id,
            n_buffers,
            n_tables,
            capabilities,
            actions,
            ports,
            ..
        } => {
            put_u64(out, *datapath_id);
            put_u32(out, *n_buffers);
            put_u8(out, *n_tables);
            put_pad::<3>(out);
            put_u32(out, *capabilities);
            put_u32(out, *actions);
            put_all(out, ports.as_slice());
        }
        Message::GetConfigRequest { .. } => {}
        Message::GetConfigReply {
            flags,
            miss_send_len,
            ..
        } => {
            put_u16(out, *flags);
            put_u16(out, *miss_send_len);
        }
        Message::SetConfig {
            flags,
            miss_send_len,
            ..
        } => {
            put_u16(out, *flags);
            put_u16(out, *miss_send_len);
        }
        Message::PacketIn {
            buffer_id,
            total_len,
            in_port,
            reason,
            body,
            ..
        } => {
            put_u32(out, *buffer_id);
            put_u16(out, *total_len);
            put_u16(out, *in_port);
            put_u8(out, *reason);
            put_pad::<1>(out);
            put_bytes(out, body.as_slice());
        }
        Message::FlowRemoved {
            flow,
            cookie,
            priority,
            reason,
            duration_sec,
            duration_nsec,
            idle_timeout,
            packet_count,
            byte_count,
            ..
        } => {
            flow.put(out);
            put_u64(out, *cookie);
            put_u16(out, *priority);
            put_u8(out, *reason);
            put_pad::<1>(out);
            put_u32(out, *duration_sec);
            put_u32(out, *duration_nsec);
            put_u16(out, *idle_timeout);
            put_pad::<2>(out);
            put_u64(out, *packet_count);
            put_u64(out, *byte_count);
        }
        Message::PortStatus { reason, desc, .. } => {
            put_u8(out, *reason);
            put_pad::<7>(out);
            desc.put(out);
        }
        Message::PacketOut {
            buffer_id,
            in_port,
            actions,
            body,
            ..
        } => {
            let actions = actions.as_slice();
            put_u32(out, *buffer_id);
            put_u16(out, *in_port);
            put_u16(out, len_all(actions) as u16);
            put_actions_and_body(out, actions, body);
        }
        Message::FlowMod {
            flow,
            cookie,
            command,
            idle_timeout,
            hard_timeout,
            priority,
            buffer_id,
            out_port,
            flags,
            actions,
            ..
        } => {
            flow.put(out);
            put_u64(out, *cookie);
            put_u16(out, *command);
            put_u16(out, *idle_timeout);
            put_u16(out, *hard_timeout);
            put_u16(out, *priority);
            put_u32(out, *buffer_id);
            put_u16(out, *out_port);
            put_u16(out, *flags);
            put_all(out, actions.as_slice());
        }
        Message::PortMod {
            port_no,
            hw_addr,
            config,
            mask,
            advertise,
            ..
        } => {
            put_u16(out, *port_no);
            put_bytes(out, hw_addr);
            put_u32(out, *config);
            put_u32(out, *mask);
            put_u32(out, *advertise);
            put_pad::<4>(out);
        }
        Message::StatsRequest { flags, body, .. } => {
            put_u16(out, body.kind());
            put_u16(out, *flags);
            body.put(out);
        }
        Message::StatsReply { flags, body, .. } => {
            put_u16(out, body.kind());
            put_u16(out, *flags);
            body.put(out);
        }
        Message::BarrierRequest { .. } => {}
        Message::BarrierReply { .. } => {}
        Message::QueueGetConfigRequest { port, .. } => {
            put_u16(out, *port);
            put_pad::<2>(out);
        }
        Message::QueueGetConfigReply { port, queues, .. } => {
            put_u16(out, *port);
            put_pad::<6>(out);
            put_all(out, queues.as_slice());
        }
    }
}

/// Writes a message that takes `len` bytes.
#[tactic(auto, unfolding(crate::specs::Messages::message_slots))]
fn put_message(out: &mut Vec<u8>, message: &Message, len: usize)
    requires len { len ≡ width (message_slots message.now) }
    requires room { vec_len out.old + len ≤ vec_capacity out.old }
    requires short { len < 2 ^ 16 }
    requires proper { IsProperMessage message.now }
    ensures { Writes out.old out.new (message_slots message.now) }
{
    let header = Header {
        version: message.version(),
        kind: message.kind(),
        length: len as u16,
        xid: message.xid(),
    };
    header.put(out);
    put_fields(out, message);
}

/// How many bytes the message takes beyond those that each of its type has, up to 131,072.
#[tactic(auto, using(crate::proofs::Tails::width_tail), unfolding(crate::specs::Messages::message_slots, of10_wire::specs::Parts::match_slots, of10_wire::specs::Parts::port_slots))]
fn more_len(message: &Message) -> usize
    ensures len { min (least (lengths_of (kind_of message.now)) + result) 65536 ≡ min (width (message_slots message.now)) 65536 }
    ensures small { result ≤ 131072 }
{
    match message {
        Message::Hello { body, .. } => capped(body.len()),
        Message::Error { body, .. } => capped(body.len()),
        Message::EchoRequest { body, .. } => capped(body.len()),
        Message::EchoReply { body, .. } => capped(body.len()),
        Message::Vendor { body, .. } => capped(body.len()),
        Message::FeaturesReply { ports, .. } => len_all(ports.as_slice()),
        Message::PacketIn { body, .. } => capped(body.len()),
        Message::PacketOut { actions, body, .. } => {
            len_all(actions.as_slice()) + capped(body.len())
        }
        Message::FlowMod { actions, .. } => len_all(actions.as_slice()),
        Message::StatsRequest { body, .. } => body.len(),
        Message::StatsReply { body, .. } => body.len(),
        Message::QueueGetConfigReply { queues, .. } => len_all(queues.as_slice()),
        _ => 0,
    }
}

/// How many bytes the message takes, up to 65,536.
fn message_len(message: &Message) -> usize
    ensures { result ≡ min (width (message_slots message.now)) 65536 }
{
    capped(lengths_of(message.kind()).least() + more_len(message))
}

/// Whether the message's parts can be written.
fn has_proper_parts(message: &Message) -> bool
    ensures { IsTrue result ↔ IsProperMessage message.now }
{
    match message {
        Message::PacketOut { actions, .. } => are_proper(actions.as_slice()),
        Message::FlowMod { actions, .. } => are_proper(actions.as_slice()),
        Message::StatsReply { body, .. } => body.is_proper(),
        Message::QueueGetConfigReply { queues, .. } => are_proper(queues.as_slice()),
        _ => true,
    }
}

/// Whether the message has a frame: whether it takes at most 65,535 bytes, the body of each vendor action is a multiple
/// of 8 bytes, and no queue property `Other` has kind 1.
pub fn is_sendable(message: &Message) -> bool
    ensures { IsTrue result ↔ IsSendable message.now }
{
    message_len(message) < 65536 && has_proper_parts(message)
}

/// Appends the message's spelling, with each pad as zeros.
///
/// # Errors
///
/// Where memory ran out the vector is unchanged.
pub fn encode(message: &Message, out: &mut Vec<u8>) -> Result<(), AllocError>
    requires { IsSendable message.now }
    ensures appended { OnOk result (out.new.items ≡ out.old.items ++ zeroed message.now) }
    ensures spelled { OnOk result (spells message.now (zeroed message.now)) }
    ensures err { OnErr result (out.new.items ≡ out.old.items) }
{
    let len = message_len(message);
    out.reserve(len)?;
    put_message(out, message, len);
    Ok(())
}
