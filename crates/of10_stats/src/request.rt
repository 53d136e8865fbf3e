//! What a STATS_REQUEST asks for.

ghost use Rattle.std.specs.Prelude.{◌≡◌, ◌≤◌, ◌<◌, ◌^◌, ◌-◌, ◌+◌, length, Some, None};
ghost use Rattle.of10_wire.specs.Layout.{number};
ghost use Rattle.of10_wire.specs.Refusals.{Answers, refusal};
ghost use Rattle.of10_stats.specs.Kinds.{is_stats_kind};
ghost use Rattle.of10_stats.specs.Requests.{request_kind, request_slots, allows_request, request_refusal, IsRequest};

use of10_wire::{
    Body, FlowMatch, Part, WireRefusal, WireWhy, body_at, capped, fixed_at, put_bytes, put_pad,
    put_u8, put_u16, put_u32, u8_at, u16_at, u32_at,
};
use std::alloc::{AllocError, Global};

/// The statistics that are asked for (OpenFlow Switch Specification 1.0.0, section 5.3.5).
pub enum StatsRequest {
    /// What the switch is.
    Desc,
    /// The rules that match, each by itself.
    Flow {
        flow: FlowMatch,
        table_id: u8,
        out_port: u16,
    },
    /// The rules that match, together.
    Aggregate {
        flow: FlowMatch,
        table_id: u8,
        out_port: u16,
    },
    Table,
    Port {
        port_no: u16,
    },
    Queue {
        port_no: u16,
        queue_id: u32,
    },
    Vendor {
        vendor: u32,
        body: Body,
    },
}

impl Drop for StatsRequest {
    fn drop(self) {
        match self {
            StatsRequest::Desc => {}
            StatsRequest::Flow {
                flow: _flow,
                table_id: _table_id,
                out_port: _out_port,
            } => {}
            StatsRequest::Aggregate {
                flow: _flow,
                table_id: _table_id,
                out_port: _out_port,
            } => {}
            StatsRequest::Table => {}
            StatsRequest::Port { port_no: _port_no } => {}
            StatsRequest::Queue {
                port_no: _port_no,
                queue_id: _queue_id,
            } => {}
            StatsRequest::Vendor {
                vendor: _vendor,
                body: _body,
            } => {}
        }
    }
}

/// Whether the body of a request of this kind may have so many bytes.
fn allows_request(kind: u16, len: usize) -> bool
    ensures { result ≡ allows_request kind len }
{
    match kind {
        0 | 3 => len == 0,
        1 | 2 => len == 44,
        4 | 5 => len == 8,
        _ => len >= 4,
    }
}

/// Why the kind or the length of a request is refused, if it is.
#[tactic(auto, unfolding(crate::specs::Requests::request_refusal))]
fn request_refusal(bytes: &[u8]) -> Option<WireRefusal>
    requires { 12 ≤ length bytes.now }
    ensures { result ≡ request_refusal bytes.now }
{
    let kind = u16_at(bytes, 8);
    let at = if kind > 5 && kind != 65535 {
        8
    } else if !allows_request(kind, bytes.len() - 12) {
        12
    } else {
        return None;
    };
    Some(WireRefusal {
        at,
        why: WireWhy::BadStat,
    })
}

/// The request in a STATS_REQUEST, whose kind stands at 8 and whose body stands at 12 (docs/OPENFLOW.md, "Statistics").
/// Refused are, in order, another kind (`BadStat` at 8) and a length that the kind's layout doesn't allow (`BadStat` at
/// 12).
#[tactic(auto, unfolding(of10_wire::specs::Layout::Stand, of10_wire::specs::Parts::match_slots, crate::specs::Requests::request_slots, crate::specs::Requests::request_refusal))]
pub fn read_request(alloc: Global, bytes: &[u8]) -> Result<StatsRequest, WireRefusal>
    requires { 12 ≤ length bytes.now }
    ensures { Answers result (IsRequest bytes.now) (λ e. request_refusal bytes.now ≡ Some e) }
{
    if let Some(refusal) = request_refusal(bytes) {
        return Err(refusal);
    }
    match u16_at(bytes, 8) {
        0 => Ok(StatsRequest::Desc),
        1 => Ok(StatsRequest::Flow {
            flow: fixed_at(bytes, 12),
            table_id: u8_at(bytes, 52),
            out_port: u16_at(bytes, 54),
        }),
        2 => Ok(StatsRequest::Aggregate {
            flow: fixed_at(bytes, 12),
            table_id: u8_at(bytes, 52),
            out_port: u16_at(bytes, 54),
        }),
        3 => Ok(StatsRequest::Table),
        4 => Ok(StatsRequest::Port {
            port_no: u16_at(bytes, 12),
        }),
        5 => Ok(StatsRequest::Queue {
            port_no: u16_at(bytes, 12),
            queue_id: u32_at(bytes, 16),
        }),
        _ => Ok(StatsRequest::Vendor {
            vendor: u32_at(bytes, 12),
            body: body_at(alloc, bytes, 16, bytes.len())?,
        }),
    }
}

impl StatsRequest {
    /// The number of the kind of statistics.
    pub fn kind(&self) -> u16
        ensures { result ≡ request_kind self.now }
    {
        match self {
            StatsRequest::Desc => 0,
            StatsRequest::Flow { .. } => 1,
            StatsRequest::Aggregate { .. } => 2,
            StatsRequest::Table => 3,
            StatsRequest::Port { .. } => 4,
            StatsRequest::Queue { .. } => 5,
            StatsRequest::Vendor { .. } => 65535,
        }
    }
}

impl Part for StatsRequest {
    ghost slots = { request_slots };

    ghost proper = { λ request. Unit };

    #[tactic(auto, unfolding(of10_wire::specs::Parts::match_slots, crate::specs::Requests::request_slots))]
    fn len(&self) -> usize {
        match self {
            StatsRequest::Desc => 0,
            StatsRequest::Flow { .. } => 44,
            StatsRequest::Aggregate { .. } => 44,
            StatsRequest::Table => 0,
            StatsRequest::Port { .. } => 8,
            StatsRequest::Queue { .. } => 8,
            StatsRequest::Vendor { body, .. } => capped(4 + capped(body.len())),
        }
    }

    fn is_proper(&self) -> bool {
        true
    }

    #[tactic(auto, unfolding(of10_wire::specs::Parts::match_slots, crate::specs::Requests::request_slots))]
    fn put(&self, out: &mut Vec<u8>) {
        match self {
            StatsRequest::Desc => {}
            StatsRequest::Flow {
                flow,
                table_id,
                out_port,
            } => {
                flow.put(out);
                put_u8(out, *table_id);
                put_pad::<1>(out);
                put_u16(out, *out_port);
            }
            StatsRequest::Aggregate {
                flow,
                table_id,
                out_port,
            } => {
                flow.put(out);
                put_u8(out, *table_id);
                put_pad::<1>(out);
                put_u16(out, *out_port);
            }
            StatsRequest::Table => {}
            StatsRequest::Port { port_no } => {
                put_u16(out, *port_no);
                put_pad::<6>(out);
            }
            StatsRequest::Queue { port_no, queue_id } => {
                put_u16(out, *port_no);
                put_pad::<2>(out);
                put_u32(out, *queue_id);
            }
            StatsRequest::Vendor { vendor, body } => {
                put_u32(out, *vendor);
                put_bytes(out, body.as_slice());
            }
        }
    }
}
