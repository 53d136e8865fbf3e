//! Whole frames of one type, read.

ghost use Rattle.std.specs.Prelude.{◌≡◌, ◌+◌, ◌-◌, ◌≤◌, ◌<◌, ◌^◌, ◌%◌, length, Some, IfOk};
ghost use Rattle.of10_wire.specs.Layout.{number};
ghost use Rattle.of10_wire.specs.MessageTypes as types;
ghost use Rattle.of10_wire.specs.Refusals.{Answers};
ghost use Rattle.of10_stats.specs.Requests.{request_refusal};
ghost use Rattle.of10_stats.specs.Replies.{RefusesReply};
ghost use Rattle.of10_msgs.specs.Messages.{spells, Opens};
ghost use Rattle.of10_msgs.specs.Refused.{LatePacketOut, LateFlowMod, LateQueueReply};

use crate::message::Message;
use of10_stats::{read_reply, read_request};
use of10_wire::{
    WireRefusal, WireWhy, array_at, body_at, fixed_at, fixed_from, items_at, u8_at, u16_at, u32_at,
    u64_at,
};
use std::alloc::{AllocError, Global};

/// Reads a whole HELLO frame (OpenFlow Switch Specification 1.0.0, section 5.5.1): 8 bytes or more, of any version.
#[tactic(auto, unfolding(of10_wire::specs::Layout::Stand, crate::specs::Messages::message_slots))]
pub fn hello(alloc: Global, bytes: &[u8]) -> Result<Message, AllocError>
    requires kind { number 1 1 bytes.now ≡ types.hello }
    requires len { number 2 2 bytes.now ≡ length bytes.now }
    requires least { 8 ≤ length bytes.now }
    ensures { IfOk result (λ m. spells m bytes.now) }
{
    let body = body_at(alloc, bytes, 8, bytes.len())?;
    Ok(Message::Hello {
        xid: u32_at(bytes, 4),
        version: u8_at(bytes, 0),
        body,
    })
}

/// Reads a whole ERROR frame (OpenFlow Switch Specification 1.0.0, section 5.4.4): 12 bytes or more.
#[tactic(auto, unfolding(of10_wire::specs::Layout::Stand, crate::specs::Messages::message_slots))]
pub fn error(alloc: Global, bytes: &[u8]) -> Result<Message, AllocError>
    requires opens { Opens types.error bytes.now }
    requires least { 12 ≤ length bytes.now }
    ensures { IfOk result (λ m. spells m bytes.now) }
{
    let body = body_at(alloc, bytes, 12, bytes.len())?;
    Ok(Message::Error {
        xid: u32_at(bytes, 4),
        kind: u16_at(bytes, 8),
        code: u16_at(bytes, 10),
        body,
    })
}

/// Reads a whole ECHO_REQUEST frame (OpenFlow Switch Specification 1.0.0, section 5.5.2): 8 bytes or more.
#[tactic(auto, unfolding(of10_wire::specs::Layout::Stand, crate::specs::Messages::message_slots))]
pub fn echo_request(alloc: Global, bytes: &[u8]) -> Result<Message, AllocError>
    requires opens { Opens types.echo_request bytes.now }
    requires least { 8 ≤ length bytes.now }
    ensures { IfOk result (λ m. spells m bytes.now) }
{
    let body = body_at(alloc, bytes, 8, bytes.len())?;
    Ok(Message::EchoRequest {
        xid: u32_at(bytes, 4),
        body,
    })
}

/// Reads a whole ECHO_REPLY frame (OpenFlow Switch Specification 1.0.0, section 5.5.3): 8 bytes or more.
#[tactic(auto, unfolding(of10_wire::specs::Layout::Stand, crate::specs::Messages::message_slots))]
pub fn echo_reply(alloc: Global, bytes: &[u8]) -> Result<Message, AllocError>
    requires opens { Opens types.echo_reply bytes.now }
    requires least { 8 ≤ length bytes.now }
    ensures { IfOk result (λ m. spells m bytes.now) }
{
    let body = body_at(alloc, bytes, 8, bytes.len())?;
    Ok(Message::EchoReply {
        xid: u32_at(bytes, 4),
        body,
    })
}

/// Reads a whole VENDOR frame (OpenFlow Switch Specification 1.0.0, section 5.5.4): 12 bytes or more.
#[tactic(auto, unfolding(of10_wire::specs::Layout::Stand, crate::specs::Messages::message_slots))]
pub fn vendor(alloc: Global, bytes: &[u8]) -> Result<Message, AllocError>
    requires opens { Opens types.vendor bytes.now }
    requires least { 12 ≤ length bytes.now }
    ensures { IfOk result (λ m. spells m bytes.now) }
{
    let body = body_at(alloc, bytes, 12, bytes.len())?;
    Ok(Message::Vendor {
        xid: u32_at(bytes, 4),
        vendor: u32_at(bytes, 8),
        body,
    })
}

/// Reads a whole FEATURES_REQUEST frame (OpenFlow Switch Specification 1.0.0, section 5.3.1): 8 bytes.
#[tactic(auto, unfolding(of10_wire::specs::Layout::Stand, crate::specs::Messages::message_slots))]
pub fn features_request(bytes: &[u8]) -> Message
    requires opens { Opens types.features_request bytes.now }
    requires len { length bytes.now ≡ 8 }
    ensures { spells result bytes.now }
{
    Message::FeaturesRequest {
        xid: u32_at(bytes, 4),
    }
}

/// Reads a whole FEATURES_REPLY frame (OpenFlow Switch Specification 1.0.0, section 5.3.1): 32 bytes, and 48 for each
/// port.
#[tactic(auto, unfolding(of10_wire::specs::Layout::Stand, crate::specs::Messages::message_slots))]
pub fn features_reply(alloc: Global, bytes: &[u8]) -> Result<Message, AllocError>
    requires opens { Opens types.features_reply bytes.now }
    requires least { 32 ≤ length bytes.now }
    requires whole { (length bytes.now - 32) % 48 ≡ 0 }
    ensures { IfOk result (λ m. spells m bytes.now) }
{
    let ports = fixed_from(alloc, bytes, 32)?;
    Ok(Message::FeaturesReply {
        xid: u32_at(bytes, 4),
        datapath_id: u64_at(bytes, 8),
        n_buffers: u32_at(bytes, 16),
        n_tables: u8_at(bytes, 20),
        capabilities: u32_at(bytes, 24),
        actions: u32_at(bytes, 28),
        ports,
    })
}

/// Reads a whole GET_CONFIG_REQUEST frame (OpenFlow Switch Specification 1.0.0, section 5.3.2): 8 bytes.
#[tactic(auto, unfolding(of10_wire::specs::Layout::Stand, crate::specs::Messages::message_slots))]
pub fn get_config_request(bytes: &[u8]) -> Message
    requires opens { Opens types.get_config_request bytes.now }
    requires len { length bytes.now ≡ 8 }
    ensures { spells result bytes.now }
{
    Message::GetConfigRequest {
        xid: u32_at(bytes, 4),
    }
}

/// Reads a whole GET_CONFIG_REPLY frame (OpenFlow Switch Specification 1.0.0, section 5.3.2): 12 bytes.
#[tactic(auto, unfolding(of10_wire::specs::Layout::Stand, crate::specs::Messages::message_slots))]
pub fn get_config_reply(bytes: &[u8]) -> Message
    requires opens { Opens types.get_config_reply bytes.now }
    requires len { length bytes.now ≡ 12 }
    ensures { spells result bytes.now }
{
    Message::GetConfigReply {
        xid: u32_at(bytes, 4),
        flags: u16_at(bytes, 8),
        miss_send_len: u16_at(bytes, 10),
    }
}

/// Reads a whole SET_CONFIG frame (OpenFlow Switch Specification 1.0.0, section 5.3.2): 12 bytes.
#[tactic(auto, unfolding(of10_wire::specs::Layout::Stand, crate::specs::Messages::message_slots))]
pub fn set_config(bytes: &[u8]) -> Message
    requires opens { Opens types.set_config bytes.now }
    requires len { length bytes.now ≡ 12 }
    ensures { spells result bytes.now }
{
    Message::SetConfig {
        xid: u32_at(bytes, 4),
        flags: u16_at(bytes, 8),
        miss_send_len: u16_at(bytes, 10),
    }
}

/// Reads a whole PACKET_IN frame (OpenFlow Switch Specification 1.0.0, section 5.4.1): 18 bytes or more.
#[tactic(auto, unfolding(of10_wire::specs::Layout::Stand, crate::specs::Messages::message_slots))]
pub fn packet_in(alloc: Global, bytes: &[u8]) -> Result<Message, AllocError>
    requires opens { Opens types.packet_in bytes.now }
    requires least { 18 ≤ length bytes.now }
    ensures { IfOk result (λ m. spells m bytes.now) }
{
    let body = body_at(alloc, bytes, 18, bytes.len())?;
    Ok(Message::PacketIn {
        xid: u32_at(bytes, 4),
        buffer_id: u32_at(bytes, 8),
        total_len: u16_at(bytes, 12),
        in_port: u16_at(bytes, 14),
        reason: u8_at(bytes, 16),
        body,
    })
}

/// Reads a whole FLOW_REMOVED frame (OpenFlow Switch Specification 1.0.0, section 5.4.2): 88 bytes.
#[tactic(auto, unfolding(of10_wire::specs::Layout::Stand, of10_wire::specs::Parts::match_slots, crate::specs::Messages::message_slots))]
pub fn flow_removed(bytes: &[u8]) -> Message
    requires opens { Opens types.flow_removed bytes.now }
    requires len { length bytes.now ≡ 88 }
    ensures { spells result bytes.now }
{
    Message::FlowRemoved {
        xid: u32_at(bytes, 4),
        flow: fixed_at(bytes, 8),
        cookie: u64_at(bytes, 48),
        priority: u16_at(bytes, 56),
        reason: u8_at(bytes, 58),
        duration_sec: u32_at(bytes, 60),
        duration_nsec: u32_at(bytes, 64),
        idle_timeout: u16_at(bytes, 68),
        packet_count: u64_at(bytes, 72),
        byte_count: u64_at(bytes, 80),
    }
}

/// Reads a whole PORT_STATUS frame (OpenFlow Switch Specification 1.0.0, section 5.4.3): 64 bytes.
#[tactic(auto, unfolding(of10_wire::specs::Layout::Stand, of10_wire::specs::Parts::port_slots, crate::specs::Messages::message_slots))]
pub fn port_status(bytes: &[u8]) -> Message
    requires opens { Opens types.port_status bytes.now }
    requires len { length bytes.now ≡ 64 }
    ensures { spells result bytes.now }
{
    Message::PortStatus {
        xid: u32_at(bytes, 4),
        reason: u8_at(bytes, 8),
        desc: fixed_at(bytes, 16),
    }
}

/// Reads a whole PACKET_OUT frame (OpenFlow Switch Specification 1.0.0, section 5.3.6): 16 bytes or more. Refused are,
/// in order, more bytes of actions than are there (`BadLength` at 14), and the first action that is none.
#[tactic(auto, unfolding(of10_wire::specs::Layout::Stand, crate::specs::Messages::message_slots))]
pub fn packet_out(alloc: Global, bytes: &[u8]) -> Result<Message, WireRefusal>
    requires opens { Opens types.packet_out bytes.now }
    requires least { 16 ≤ length bytes.now }
    ensures { Answers result (λ m. spells m bytes.now) (LatePacketOut bytes.now) }
{
    let end = 16 + u16_at(bytes, 14) as usize;
    if bytes.len() < end {
        return Err(WireRefusal {
            at: 14,
            why: WireWhy::BadLength,
        });
    }
    let actions = items_at(alloc, bytes, 16, end, 0)?;
    let body = body_at(alloc, bytes, end, bytes.len())?;
    Ok(Message::PacketOut {
        xid: u32_at(bytes, 4),
        buffer_id: u32_at(bytes, 8),
        in_port: u16_at(bytes, 12),
        actions,
        body,
    })
}

/// Reads a whole FLOW_MOD frame (OpenFlow Switch Specification 1.0.0, section 5.3.3): 72 bytes or more. Refused is the
/// first action that is none.
#[tactic(auto, unfolding(of10_wire::specs::Layout::Stand, of10_wire::specs::Parts::match_slots, crate::specs::Messages::message_slots))]
pub fn flow_mod(alloc: Global, bytes: &[u8]) -> Result<Message, WireRefusal>
    requires opens { Opens types.flow_mod bytes.now }
    requires least { 72 ≤ length bytes.now }
    ensures { Answers result (λ m. spells m bytes.now) (LateFlowMod bytes.now) }
{
    let actions = items_at(alloc, bytes, 72, bytes.len(), 0)?;
    Ok(Message::FlowMod {
        xid: u32_at(bytes, 4),
        flow: fixed_at(bytes, 8),
        cookie: u64_at(bytes, 48),
        command: u16_at(bytes, 56),
        idle_timeout: u16_at(bytes, 58),
        hard_timeout: u16_at(bytes, 60),
        priority: u16_at(bytes, 62),
        buffer_id: u32_at(bytes, 64),
        out_port: u16_at(bytes, 68),
        flags: u16_at(bytes, 70),
        actions,
    })
}

/// Reads a whole PORT_MOD frame (OpenFlow Switch Specification 1.0.0, section 5.3.3): 32 bytes.
#[tactic(auto, unfolding(of10_wire::specs::Layout::Stand, crate::specs::Messages::message_slots))]
pub fn port_mod(bytes: &[u8]) -> Message
    requires opens { Opens types.port_mod bytes.now }
    requires len { length bytes.now ≡ 32 }
    ensures { spells result bytes.now }
{
    Message::PortMod {
        xid: u32_at(bytes, 4),
        port_no: u16_at(bytes, 8),
        hw_addr: array_at(bytes, 10),
        config: u32_at(bytes, 16),
        mask: u32_at(bytes, 20),
        advertise: u32_at(bytes, 24),
    }
}

/// Reads a whole STATS_REQUEST frame (OpenFlow Switch Specification 1.0.0, section 5.3.5): 12 bytes or more. Refused as
/// by `read_request`.
#[tactic(auto, unfolding(of10_wire::specs::Layout::Stand, crate::specs::Messages::message_slots))]
pub fn stats_request(alloc: Global, bytes: &[u8]) -> Result<Message, WireRefusal>
    requires opens { Opens types.stats_request bytes.now }
    requires least { 12 ≤ length bytes.now }
    ensures { Answers result (λ m. spells m bytes.now) (λ e. request_refusal bytes.now ≡ Some e) }
{
    let body = read_request(alloc, bytes)?;
    Ok(Message::StatsRequest {
        xid: u32_at(bytes, 4),
        flags: u16_at(bytes, 10),
        body,
    })
}

/// Reads a whole STATS_REPLY frame (OpenFlow Switch Specification 1.0.0, section 5.3.5): 12 bytes or more. Refused as
/// by `read_reply`.
#[tactic(auto, unfolding(of10_wire::specs::Layout::Stand, crate::specs::Messages::message_slots))]
pub fn stats_reply(alloc: Global, bytes: &[u8]) -> Result<Message, WireRefusal>
    requires opens { Opens types.stats_reply bytes.now }
    requires least { 12 ≤ length bytes.now }
    ensures { Answers result (λ m. spells m bytes.now) (RefusesReply bytes.now) }
{
    let body = read_reply(alloc, bytes)?;
    Ok(Message::StatsReply {
        xid: u32_at(bytes, 4),
        flags: u16_at(bytes, 10),
        body,
    })
}

/// Reads a whole BARRIER_REQUEST frame (OpenFlow Switch Specification 1.0.0, section 5.3.7): 8 bytes.
#[tactic(auto, unfolding(of10_wire::specs::Layout::Stand, crate::specs::Messages::message_slots))]
pub fn barrier_request(bytes: &[u8]) -> Message
    requires opens { Opens types.barrier_request bytes.now }
    requires len { length bytes.now ≡ 8 }
    ensures { spells result bytes.now }
{
    Message::BarrierRequest {
        xid: u32_at(bytes, 4),
    }
}

/// Reads a whole BARRIER_REPLY frame (OpenFlow Switch Specification 1.0.0, section 5.3.7): 8 bytes.
#[tactic(auto, unfolding(of10_wire::specs::Layout::Stand, crate::specs::Messages::message_slots))]
pub fn barrier_reply(bytes: &[u8]) -> Message
    requires opens { Opens types.barrier_reply bytes.now }
    requires len { length bytes.now ≡ 8 }
    ensures { spells result bytes.now }
{
    Message::BarrierReply {
        xid: u32_at(bytes, 4),
    }
}

/// Reads a whole QUEUE_GET_CONFIG_REQUEST frame (OpenFlow Switch Specification 1.0.0, section 5.3.4): 12 bytes.
#[tactic(auto, unfolding(of10_wire::specs::Layout::Stand, crate::specs::Messages::message_slots))]
pub fn queue_get_config_request(bytes: &[u8]) -> Message
    requires opens { Opens types.queue_get_config_request bytes.now }
    requires len { length bytes.now ≡ 12 }
    ensures { spells result bytes.now }
{
    Message::QueueGetConfigRequest {
        xid: u32_at(bytes, 4),
        port: u16_at(bytes, 8),
    }
}

/// Reads a whole QUEUE_GET_CONFIG_REPLY frame (OpenFlow Switch Specification 1.0.0, section 5.3.4): 16 bytes or more.
/// Refused is the first queue or property that is none.
#[tactic(auto, unfolding(of10_wire::specs::Layout::Stand, crate::specs::Messages::message_slots))]
pub fn queue_get_config_reply(alloc: Global, bytes: &[u8]) -> Result<Message, WireRefusal>
    requires opens { Opens types.queue_get_config_reply bytes.now }
    requires least { 16 ≤ length bytes.now }
    ensures { Answers result (λ m. spells m bytes.now) (LateQueueReply bytes.now) }
{
    let queues = items_at(alloc, bytes, 16, bytes.len(), 0)?;
    Ok(Message::QueueGetConfigReply {
        xid: u32_at(bytes, 4),
        port: u16_at(bytes, 8),
        queues,
    })
}
