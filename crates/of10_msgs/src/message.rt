//! Messages.

ghost use Rattle.std.specs.Prelude.{◌≡◌};
ghost use Rattle.of10_msgs.specs.Messages.{version_of, kind_of, xid_of, echoed};

use of10_stats::{Queues, StatsReply, StatsRequest};
use of10_wire::{Actions, Body, FlowMatch, PhyPort, Ports, message_type};

/// A message of OpenFlow 1.0 (OpenFlow Switch Specification 1.0.0, section 5). Pads, lengths and the numbers that
/// choose a variant are no fields. Every value of each field is kept.
pub enum Message {
    /// The first message of either side, with the highest version that it speaks (section 5.5.1).
    Hello {
        xid: u32,
        version: u8,
        body: Body,
    },
    /// Says what was wrong with a message (section 5.4.4).
    Error {
        xid: u32,
        kind: u16,
        code: u16,
        body: Body,
    },
    /// Asks for the same bytes back (section 5.5.2).
    EchoRequest {
        xid: u32,
        body: Body,
    },
    /// The bytes of an echo request, sent back (section 5.5.3).
    EchoReply {
        xid: u32,
        body: Body,
    },
    /// A message of a vendor's own (section 5.5.4).
    Vendor {
        xid: u32,
        vendor: u32,
        body: Body,
    },
    /// Asks a switch what it is (section 5.3.1).
    FeaturesRequest {
        xid: u32,
    },
    /// What a switch is, and its ports (section 5.3.1).
    FeaturesReply {
        xid: u32,
        datapath_id: u64,
        n_buffers: u32,
        n_tables: u8,
        capabilities: u32,
        actions: u32,
        ports: Ports,
    },
    /// Asks a switch for its settings (section 5.3.2).
    GetConfigRequest {
        xid: u32,
    },
    /// The settings of a switch (section 5.3.2).
    GetConfigReply {
        xid: u32,
        flags: u16,
        miss_send_len: u16,
    },
    /// Sets the settings of a switch (section 5.3.2).
    SetConfig {
        xid: u32,
        flags: u16,
        miss_send_len: u16,
    },
    /// A packet that came to a switch, or its first bytes (section 5.4.1).
    PacketIn {
        xid: u32,
        buffer_id: u32,
        total_len: u16,
        in_port: u16,
        reason: u8,
        body: Body,
    },
    /// A rule that a switch no longer has (section 5.4.2).
    FlowRemoved {
        xid: u32,
        flow: FlowMatch,
        cookie: u64,
        priority: u16,
        reason: u8,
        duration_sec: u32,
        duration_nsec: u32,
        idle_timeout: u16,
        packet_count: u64,
        byte_count: u64,
    },
    /// A port that was added, removed or changed (section 5.4.3).
    PortStatus {
        xid: u32,
        reason: u8,
        desc: PhyPort,
    },
    /// A packet for a switch to send (section 5.3.6).
    PacketOut {
        xid: u32,
        buffer_id: u32,
        in_port: u16,
        actions: Actions,
        body: Body,
    },
    /// Changes the rules of a switch (section 5.3.3): 0 adds one, 1 and 2 modify, 3 and 4 delete, loosely and strictly.
    FlowMod {
        xid: u32,
        flow: FlowMatch,
        cookie: u64,
        command: u16,
        idle_timeout: u16,
        hard_timeout: u16,
        priority: u16,
        buffer_id: u32,
        out_port: u16,
        flags: u16,
        actions: Actions,
    },
    /// Changes a port of a switch (section 5.3.3).
    PortMod {
        xid: u32,
        port_no: u16,
        hw_addr: [u8; 6],
        config: u32,
        mask: u32,
        advertise: u32,
    },
    /// Asks a switch for statistics (section 5.3.5).
    StatsRequest {
        xid: u32,
        flags: u16,
        body: StatsRequest,
    },
    /// The statistics of a switch, or a part of them (section 5.3.5).
    StatsReply {
        xid: u32,
        flags: u16,
        body: StatsReply,
    },
    /// Asks a switch to finish what it was sent before (section 5.3.7).
    BarrierRequest {
        xid: u32,
    },
    /// Says that this is done (section 5.3.7).
    BarrierReply {
        xid: u32,
    },
    /// Asks a switch for the queues of a port (section 5.3.4).
    QueueGetConfigRequest {
        xid: u32,
        port: u16,
    },
    /// The queues of a port (section 5.3.4).
    QueueGetConfigReply {
        xid: u32,
        port: u16,
        queues: Queues,
    },
}

impl Message {
    /// The version in the header.
    pub fn version(&self) -> u8
        ensures { result ≡ version_of self.now }
    {
        match self {
            Message::Hello { version, .. } => *version,
            _ => 1,
        }
    }

    /// The number of the type.
    pub fn kind(&self) -> u8
        ensures { result ≡ kind_of self.now }
    {
        match self {
            Message::Hello { .. } => message_type::HELLO,
            Message::Error { .. } => message_type::ERROR,
            Message::EchoRequest { .. } => message_type::ECHO_REQUEST,
            Message::EchoReply { .. } => message_type::ECHO_REPLY,
            Message::Vendor { .. } => message_type::VENDOR,
            Message::FeaturesRequest { .. } => message_type::FEATURES_REQUEST,
            Message::FeaturesReply { .. } => message_type::FEATURES_REPLY,
            Message::GetConfigRequest { .. } => message_type::GET_CONFIG_REQUEST,
            Message::GetConfigReply { .. } => message_type::GET_CONFIG_REPLY,
            Message::SetConfig { .. } => message_type::SET_CONFIG,
            Message::PacketIn { .. } => message_type::PACKET_IN,
            Message::FlowRemoved { .. } => message_type::FLOW_REMOVED,
            Message::PortStatus { .. } => message_type::PORT_STATUS,
            Message::PacketOut { .. } => message_type::PACKET_OUT,
            Message::FlowMod { .. } => message_type::FLOW_MOD,
            Message::PortMod { .. } => message_type::PORT_MOD,
            Message::StatsRequest { .. } => message_type::STATS_REQUEST,
            Message::StatsReply { .. } => message_type::STATS_REPLY,
            Message::BarrierRequest { .. } => message_type::BARRIER_REQUEST,
            Message::BarrierReply { .. } => message_type::BARRIER_REPLY,
            Message::QueueGetConfigRequest { .. } => message_type::QUEUE_GET_CONFIG_REQUEST,
            Message::QueueGetConfigReply { .. } => message_type::QUEUE_GET_CONFIG_REPLY,
        }
    }

    /// The number that pairs a reply with its request.
    pub fn xid(&self) -> u32
        ensures { result ≡ xid_of self.now }
    {
        match self {
            Message::Hello { xid, .. }
            | Message::Error { xid, .. }
            | Message::EchoRequest { xid, .. }
            | Message::EchoReply { xid, .. }
            | Message::Vendor { xid, .. }
            | Message::FeaturesRequest { xid }
            | Message::FeaturesReply { xid, .. }
            | Message::GetConfigRequest { xid }
            | Message::GetConfigReply { xid, .. }
            | Message::SetConfig { xid, .. }
            | Message::PacketIn { xid, .. }
            | Message::FlowRemoved { xid, .. }
            | Message::PortStatus { xid, .. }
            | Message::PacketOut { xid, .. }
            | Message::FlowMod { xid, .. }
            | Message::PortMod { xid, .. }
            | Message::StatsRequest { xid, .. }
            | Message::StatsReply { xid, .. }
            | Message::BarrierRequest { xid }
            | Message::BarrierReply { xid }
            | Message::QueueGetConfigRequest { xid, .. }
            | Message::QueueGetConfigReply { xid, .. } => *xid,
        }
    }
}

impl Message {
    /// The reply to an echo request, with its number and its bytes; any other message as it is. It takes no memory.
    pub fn into_echo_reply(self) -> Message
        ensures { result ≡ echoed self }
    {
        match self {
            Message::EchoRequest { xid, body } => Message::EchoReply { xid, body },
            other => other,
        }
    }
}

impl Drop for Message {
    fn drop(self) {
        match self {
            Message::Hello {
                xid: _xid,
                version: _version,
                body: _body,
            } => {}
            Message::Error {
                xid: _xid,
                kind: _kind,
                code: _code,
                body: _body,
            } => {}
            Message::EchoRequest {
                xid: _xid,
                body: _body,
            } => {}
            Message::EchoReply {
                xid: _xid,
                body: _body,
            } => {}
            Message::Vendor {
                xid: _xid,
                vendor: _vendor,
                body: _body,
            } => {}
            Message::FeaturesRequest { xid: _xid } => {}
            Message::FeaturesReply {
                xid: _xid,
                datapath_id: _datapath_id,
                n_buffers: _n_buffers,
                n_tables: _n_tables,
                capabilities: _capabilities,
                actions: _actions,
                ports: _ports,
            } => {}
            Message::GetConfigRequest { xid: _xid } => {}
            Message::GetConfigReply {
                xid: _xid,
                flags: _flags,
                miss_send_len: _miss_send_len,
            } => {}
            Message::SetConfig {
                xid: _xid,
                flags: _flags,
                miss_send_len: _miss_send_len,
            } => {}
            Message::PacketIn {
                xid: _xid,
                buffer_id: _buffer_id,
                total_len: _total_len,
                in_port: _in_port,
                reason: _reason,
                body: _body,
            } => {}
            Message::FlowRemoved {
                xid: _xid,
                flow: _flow,
                cookie: _cookie,
                priority: _priority,
                reason: _reason,
                duration_sec: _duration_sec,
                duration_nsec: _duration_nsec,
                idle_timeout: _idle_timeout,
                packet_count: _packet_count,
                byte_count: _byte_count,
            } => {}
            Message::PortStatus {
                xid: _xid,
                reason: _reason,
                desc: _desc,
            } => {}
            Message::PacketOut {
                xid: _xid,
                buffer_id: _buffer_id,
                in_port: _in_port,
                actions: _actions,
                body: _body,
            } => {}
            Message::FlowMod {
                xid: _xid,
                flow: _flow,
                cookie: _cookie,
                command: _command,
                idle_timeout: _idle_timeout,
                hard_timeout: _hard_timeout,
                priority: _priority,
                buffer_id: _buffer_id,
                out_port: _out_port,
                flags: _flags,
                actions: _actions,
            } => {}
            Message::PortMod {
                xid: _xid,
                port_no: _port_no,
                hw_addr: _hw_addr,
                config: _config,
                mask: _mask,
                advertise: _advertise,
            } => {}
            Message::StatsRequest {
                xid: _xid,
                flags: _flags,
                body: _body,
            } => {}
            Message::StatsReply {
                xid: _xid,
                flags: _flags,
                body: _body,
            } => {}
            Message::BarrierRequest { xid: _xid } => {}
            Message::BarrierReply { xid: _xid } => {}
            Message::QueueGetConfigRequest {
                xid: _xid,
                port: _port,
            } => {}
            Message::QueueGetConfigReply {
                xid: _xid,
                port: _port,
                queues: _queues,
            } => {}
        }
    }
}
