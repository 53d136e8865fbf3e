//! What a STATS_REPLY tells.

ghost use Rattle.std.specs.Prelude.{◌≡◌, ◌≤◌, ◌<◌, ◌^◌, ◌-◌, ◌+◌, length, Some, None};
ghost use Rattle.of10_wire.specs.Layout.{number};
ghost use Rattle.of10_wire.specs.Refusals.{Answers, refusal};
ghost use Rattle.of10_stats.specs.Kinds.{is_stats_kind};
ghost use Rattle.of10_stats.specs.Replies.{reply_kind, reply_slots, allows_reply, reply_refusal, IsReply, IsProperReply, RefusesReply};

use crate::counters::{PortCounters, QueueCounters, Table};
use crate::entry::FlowEntries;
use of10_wire::{
    Body, Part, WireRefusal, WireWhy, are_proper, array_at, body_at, capped, fixed_from, items_at,
    len_all, put_all, put_bytes, put_pad, put_u32, put_u64, u16_at, u32_at, u64_at,
};
use sqlite_items::Items;
use std::alloc::{AllocError, Global};

/// The statistics that a switch tells (OpenFlow Switch Specification 1.0.0, section 5.3.5).
pub enum StatsReply {
    /// What the switch is. The texts are kept with all their bytes.
    Desc {
        mfr_desc: [u8; 256],
        hw_desc: [u8; 256],
        sw_desc: [u8; 256],
        serial_num: [u8; 32],
        dp_desc: [u8; 256],
    },
    /// The rules that match, each by itself.
    Flow {
        entries: FlowEntries,
    },
    /// The rules that match, together.
    Aggregate {
        packet_count: u64,
        byte_count: u64,
        flow_count: u32,
    },
    Table {
        entries: Items<Table>,
    },
    Port {
        entries: Items<PortCounters>,
    },
    Queue {
        entries: Items<QueueCounters>,
    },
    Vendor {
        vendor: u32,
        body: Body,
    },
}

impl Drop for StatsReply {
    fn drop(self) {
        match self {
            StatsReply::Desc {
                mfr_desc: _mfr_desc,
                hw_desc: _hw_desc,
                sw_desc: _sw_desc,
                serial_num: _serial_num,
                dp_desc: _dp_desc,
            } => {}
            StatsReply::Flow { entries: _entries } => {}
            StatsReply::Aggregate {
                packet_count: _packet_count,
                byte_count: _byte_count,
                flow_count: _flow_count,
            } => {}
            StatsReply::Table { entries: _entries } => {}
            StatsReply::Port { entries: _entries } => {}
            StatsReply::Queue { entries: _entries } => {}
            StatsReply::Vendor {
                vendor: _vendor,
                body: _body,
            } => {}
        }
    }
}

/// Whether the body of a reply of this kind may have so many bytes.
fn allows_reply(kind: u16, len: usize) -> bool
    ensures { result ≡ allows_reply kind len }
{
    match kind {
        0 => len == 1056,
        1 => true,
        2 => len == 24,
        3 => len % 64 == 0,
        4 => len % 104 == 0,
        5 => len % 32 == 0,
        _ => len >= 4,
    }
}

/// Why the kind or the length of a reply is refused, if it is.
#[tactic(auto, unfolding(crate::specs::Replies::reply_refusal))]
fn reply_refusal(bytes: &[u8]) -> Option<WireRefusal>
    requires { 12 ≤ length bytes.now }
    ensures { result ≡ reply_refusal bytes.now }
{
    let kind = u16_at(bytes, 8);
    let at = if kind > 5 && kind != 65535 {
        8
    } else if !allows_reply(kind, bytes.len() - 12) {
        12
    } else {
        return None;
    };
    Some(WireRefusal {
        at,
        why: WireWhy::BadStat,
    })
}

/// The reply in a STATS_REPLY, whose kind stands at 8 and whose body stands at 12 (docs/OPENFLOW.md, "Statistics").
/// Refused are, in order, another kind (`BadStat` at 8), a length that the kind's layout doesn't allow (`BadStat` at
/// 12), and the first flow entry or action that is none.
#[tactic(auto, unfolding(of10_wire::specs::Layout::Stand, crate::specs::Replies::reply_slots, crate::specs::Replies::reply_refusal))]
pub fn read_reply(alloc: Global, bytes: &[u8]) -> Result<StatsReply, WireRefusal>
    requires { 12 ≤ length bytes.now }
    ensures { Answers result (IsReply bytes.now) (RefusesReply bytes.now) }
{
    if let Some(refusal) = reply_refusal(bytes) {
        return Err(refusal);
    }
    match u16_at(bytes, 8) {
        0 => Ok(StatsReply::Desc {
            mfr_desc: array_at(bytes, 12),
            hw_desc: array_at(bytes, 268),
            sw_desc: array_at(bytes, 524),
            serial_num: array_at(bytes, 780),
            dp_desc: array_at(bytes, 812),
        }),
        1 => Ok(StatsReply::Flow {
            entries: items_at(alloc, bytes, 12, bytes.len(), 0)?,
        }),
        2 => Ok(StatsReply::Aggregate {
            packet_count: u64_at(bytes, 12),
            byte_count: u64_at(bytes, 20),
            flow_count: u32_at(bytes, 28),
        }),
        3 => Ok(StatsReply::Table {
            entries: fixed_from(alloc, bytes, 12)?,
        }),
        4 => Ok(StatsReply::Port {
            entries: fixed_from(alloc, bytes, 12)?,
        }),
        5 => Ok(StatsReply::Queue {
            entries: fixed_from(alloc, bytes, 12)?,
        }),
        _ => Ok(StatsReply::Vendor {
            vendor: u32_at(bytes, 12),
            body: body_at(alloc, bytes, 16, bytes.len())?,
        }),
    }
}

impl StatsReply {
    /// The number of the kind of statistics.
    pub fn kind(&self) -> u16
        ensures { result ≡ reply_kind self.now }
    {
        match self {
            StatsReply::Desc { .. } => 0,
            StatsReply::Flow { .. } => 1,
            StatsReply::Aggregate { .. } => 2,
            StatsReply::Table { .. } => 3,
            StatsReply::Port { .. } => 4,
            StatsReply::Queue { .. } => 5,
            StatsReply::Vendor { .. } => 65535,
        }
    }
}

impl Part for StatsReply {
    ghost slots = { reply_slots };

    ghost proper = { IsProperReply };

    #[tactic(auto, unfolding(crate::specs::Replies::reply_slots))]
    fn len(&self) -> usize {
        match self {
            StatsReply::Desc { .. } => 1056,
            StatsReply::Flow { entries } => len_all(entries.as_slice()),
            StatsReply::Aggregate { .. } => 24,
            StatsReply::Table { entries } => len_all(entries.as_slice()),
            StatsReply::Port { entries } => len_all(entries.as_slice()),
            StatsReply::Queue { entries } => len_all(entries.as_slice()),
            StatsReply::Vendor { body, .. } => capped(4 + capped(body.len())),
        }
    }

    fn is_proper(&self) -> bool {
        match self {
            StatsReply::Flow { entries } => are_proper(entries.as_slice()),
            _ => true,
        }
    }

    #[tactic(auto, using(crate::proofs::Proper::tables_proper, crate::proofs::Proper::ports_proper, crate::proofs::Proper::queues_proper), unfolding(crate::specs::Replies::reply_slots))]
    fn put(&self, out: &mut Vec<u8>) {
        match self {
            StatsReply::Desc {
                mfr_desc,
                hw_desc,
                sw_desc,
                serial_num,
                dp_desc,
            } => {
                put_bytes(out, mfr_desc);
                put_bytes(out, hw_desc);
                put_bytes(out, sw_desc);
                put_bytes(out, serial_num);
                put_bytes(out, dp_desc);
            }
            StatsReply::Flow { entries } => put_all(out, entries.as_slice()),
            StatsReply::Aggregate {
                packet_count,
                byte_count,
                flow_count,
            } => {
                put_u64(out, *packet_count);
                put_u64(out, *byte_count);
                put_u32(out, *flow_count);
                put_pad::<4>(out);
            }
            StatsReply::Table { entries } => put_all(out, entries.as_slice()),
            StatsReply::Port { entries } => put_all(out, entries.as_slice()),
            StatsReply::Queue { entries } => put_all(out, entries.as_slice()),
            StatsReply::Vendor { vendor, body } => {
                put_u32(out, *vendor);
                put_bytes(out, body.as_slice());
            }
        }
    }
}
