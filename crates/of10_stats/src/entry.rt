//! The flow entries of a statistics reply.

ghost use Rattle.std.specs.Prelude.{◌≡◌, ◌≤◌, length, false};
ghost use Rattle.of10_wire.specs.Layout.{number};
ghost use Rattle.of10_stats.specs.Entries.{entry_slots, is_no_entry, IsProperEntry, RefusesEntry};

use of10_wire::{
    Actions, FlowMatch, Item, Part, WireRefusal, WireWhy, are_proper, capped, fixed_at, items_at,
    len_all, put_all, put_pad, put_u8, put_u16, put_u32, put_u64, u8_at, u16_at, u32_at, u64_at,
};
use sqlite_items::Items;
use std::alloc::Global;

/// A rule of a switch, and what it counted (OpenFlow Switch Specification 1.0.0, section 5.3.5, `ofp_flow_stats`).
pub struct FlowEntry {
    pub table_id: u8,
    pub flow: FlowMatch,
    pub duration_sec: u32,
    pub duration_nsec: u32,
    pub priority: u16,
    pub idle_timeout: u16,
    pub hard_timeout: u16,
    pub cookie: u64,
    pub packet_count: u64,
    pub byte_count: u64,
    pub actions: Actions,
}

impl Drop for FlowEntry {
    fn drop(self) {
        let FlowEntry {
            table_id: _table_id,
            flow: _flow,
            duration_sec: _duration_sec,
            duration_nsec: _duration_nsec,
            priority: _priority,
            idle_timeout: _idle_timeout,
            hard_timeout: _hard_timeout,
            cookie: _cookie,
            packet_count: _packet_count,
            byte_count: _byte_count,
            actions: _actions,
        } = self;
    }
}

/// A list of flow entries. Contracts see it as a list.
pub type FlowEntries = Items<FlowEntry>;

/// Whether no flow entry begins these bytes.
#[tactic(auto, unfolding(crate::specs::Entries::is_no_entry))]
fn is_no_entry(bytes: &[u8]) -> bool
    ensures exact { result ≡ is_no_entry bytes.now }
    ensures room { result ≡ false → (88 ≤ number 2 0 bytes.now) × (number 2 0 bytes.now ≤ length bytes.now) }
{
    if bytes.len() < 88 {
        return true;
    }
    let len = u16_at(bytes, 0) as usize;
    len < 88 || bytes.len() < len
}

impl Item for FlowEntry {
    ghost refuses = { RefusesEntry };

    #[tactic(auto, unfolding(of10_wire::specs::Layout::Stand, of10_wire::specs::Parts::match_slots, crate::specs::Entries::entry_slots))]
    fn read_first(
        alloc: Global,
        bytes: &[u8],
        place: usize,
    ) -> Result<(FlowEntry, usize), WireRefusal> {
        if is_no_entry(bytes) {
            return Err(WireRefusal {
                at: place,
                why: WireWhy::BadStat,
            });
        }
        let len = u16_at(bytes, 0) as usize;
        let actions = items_at(alloc, bytes, 88, len, place)?;
        let entry = FlowEntry {
            table_id: u8_at(bytes, 2),
            flow: fixed_at(bytes, 4),
            duration_sec: u32_at(bytes, 44),
            duration_nsec: u32_at(bytes, 48),
            priority: u16_at(bytes, 52),
            idle_timeout: u16_at(bytes, 54),
            hard_timeout: u16_at(bytes, 56),
            cookie: u64_at(bytes, 64),
            packet_count: u64_at(bytes, 72),
            byte_count: u64_at(bytes, 80),
            actions,
        };
        Ok((entry, len))
    }
}

impl Part for FlowEntry {
    ghost slots = { entry_slots };

    ghost proper = { IsProperEntry };

    #[tactic(auto, unfolding(of10_wire::specs::Parts::match_slots, crate::specs::Entries::entry_slots))]
    fn len(&self) -> usize {
        capped(88 + len_all(self.actions.as_slice()))
    }

    fn is_proper(&self) -> bool {
        are_proper(self.actions.as_slice())
    }

    #[tactic(auto, unfolding(of10_wire::specs::Parts::match_slots, crate::specs::Entries::entry_slots))]
    fn put(&self, out: &mut Vec<u8>) {
        let actions = self.actions.as_slice();
        put_u16(out, (88 + len_all(actions)) as u16);
        put_u8(out, self.table_id);
        put_pad::<1>(out);
        self.flow.put(out);
        put_u32(out, self.duration_sec);
        put_u32(out, self.duration_nsec);
        put_u16(out, self.priority);
        put_u16(out, self.idle_timeout);
        put_u16(out, self.hard_timeout);
        put_pad::<6>(out);
        put_u64(out, self.cookie);
        put_u64(out, self.packet_count);
        put_u64(out, self.byte_count);
        put_all(out, actions);
    }
}
