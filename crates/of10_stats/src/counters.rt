//! The entries of one width in statistics replies.

ghost use Rattle.of10_stats.specs.Counters.{table_slots, port_counters_slots, queue_counters_slots};

use of10_wire::{
    FixedPart, Part, array_at, put_bytes, put_pad, put_u8, put_u16, put_u32, put_u64, u8_at,
    u16_at, u32_at, u64_at,
};

/// A table of a switch (OpenFlow Switch Specification 1.0.0, section 5.3.5, `ofp_table_stats`).
#[derive(Clone, Copy, Debug, PartialEq, Eq)]
pub struct Table {
    pub table_id: u8,
    /// All 32 bytes, those behind the first zero among them.
    pub name: [u8; 32],
    pub wildcards: u32,
    pub max_entries: u32,
    pub active_count: u32,
    pub lookup_count: u64,
    pub matched_count: u64,
}

/// What a port counted (section 5.3.5, `ofp_port_stats`).
#[derive(Clone, Copy, Debug, PartialEq, Eq)]
pub struct PortCounters {
    pub port_no: u16,
    pub rx_packets: u64,
    pub tx_packets: u64,
    pub rx_bytes: u64,
    pub tx_bytes: u64,
    pub rx_dropped: u64,
    pub tx_dropped: u64,
    pub rx_errors: u64,
    pub tx_errors: u64,
    pub rx_frame_err: u64,
    pub rx_over_err: u64,
    pub rx_crc_err: u64,
    pub collisions: u64,
}

/// What a queue counted (section 5.3.5, `ofp_queue_stats`).
#[derive(Clone, Copy, Debug, PartialEq, Eq)]
pub struct QueueCounters {
    pub port_no: u16,
    pub queue_id: u32,
    pub tx_bytes: u64,
    pub tx_packets: u64,
    pub tx_errors: u64,
}

impl Part for Table {
    ghost slots = { table_slots };

    ghost proper = { λ table. Unit };

    #[tactic(auto, unfolding(crate::specs::Counters::table_slots))]
    fn len(&self) -> usize {
        64
    }

    fn is_proper(&self) -> bool {
        true
    }

    #[tactic(auto, unfolding(crate::specs::Counters::table_slots))]
    fn put(&self, out: &mut Vec<u8>) {
        put_u8(out, self.table_id);
        put_pad::<3>(out);
        put_bytes(out, &self.name);
        put_u32(out, self.wildcards);
        put_u32(out, self.max_entries);
        put_u32(out, self.active_count);
        put_u64(out, self.lookup_count);
        put_u64(out, self.matched_count);
    }
}

impl FixedPart for Table {
    ghost WIDTH = { 64 };

    const WIDTH: usize = 64;

    #[tactic(auto, unfolding(of10_wire::specs::Layout::Stand, crate::specs::Counters::table_slots))]
    fn read(bytes: &[u8]) -> Table {
        Table {
            table_id: u8_at(bytes, 0),
            name: array_at(bytes, 4),
            wildcards: u32_at(bytes, 36),
            max_entries: u32_at(bytes, 40),
            active_count: u32_at(bytes, 44),
            lookup_count: u64_at(bytes, 48),
            matched_count: u64_at(bytes, 56),
        }
    }
}

impl Part for PortCounters {
    ghost slots = { port_counters_slots };

    ghost proper = { λ port. Unit };

    #[tactic(auto, unfolding(crate::specs::Counters::port_counters_slots))]
    fn len(&self) -> usize {
        104
    }

    fn is_proper(&self) -> bool {
        true
    }

    #[tactic(auto, unfolding(crate::specs::Counters::port_counters_slots))]
    fn put(&self, out: &mut Vec<u8>) {
        put_u16(out, self.port_no);
        put_pad::<6>(out);
        put_u64(out, self.rx_packets);
        put_u64(out, self.tx_packets);
        put_u64(out, self.rx_bytes);
        put_u64(out, self.tx_bytes);
        put_u64(out, self.rx_dropped);
        put_u64(out, self.tx_dropped);
        put_u64(out, self.rx_errors);
        put_u64(out, self.tx_errors);
        put_u64(out, self.rx_frame_err);
        put_u64(out, self.rx_over_err);
        put_u64(out, self.rx_crc_err);
        put_u64(out, self.collisions);
    }
}

impl FixedPart for PortCounters {
    ghost WIDTH = { 104 };

    const WIDTH: usize = 104;

    #[tactic(auto, unfolding(of10_wire::specs::Layout::Stand, crate::specs::Counters::port_counters_slots))]
    fn read(bytes: &[u8]) -> PortCounters {
        PortCounters {
            port_no: u16_at(bytes, 0),
            rx_packets: u64_at(bytes, 8),
            tx_packets: u64_at(bytes, 16),
            rx_bytes: u64_at(bytes, 24),
            tx_bytes: u64_at(bytes, 32),
            rx_dropped: u64_at(bytes, 40),
            tx_dropped: u64_at(bytes, 48),
            rx_errors: u64_at(bytes, 56),
            tx_errors: u64_at(bytes, 64),
            rx_frame_err: u64_at(bytes, 72),
            rx_over_err: u64_at(bytes, 80),
            rx_crc_err: u64_at(bytes, 88),
            collisions: u64_at(bytes, 96),
        }
    }
}

impl Part for QueueCounters {
    ghost slots = { queue_counters_slots };

    ghost proper = { λ queue. Unit };

    #[tactic(auto, unfolding(crate::specs::Counters::queue_counters_slots))]
    fn len(&self) -> usize {
        32
    }

    fn is_proper(&self) -> bool {
        true
    }

    #[tactic(auto, unfolding(crate::specs::Counters::queue_counters_slots))]
    fn put(&self, out: &mut Vec<u8>) {
        put_u16(out, self.port_no);
        put_pad::<2>(out);
        put_u32(out, self.queue_id);
        put_u64(out, self.tx_bytes);
        put_u64(out, self.tx_packets);
        put_u64(out, self.tx_errors);
    }
}

impl FixedPart for QueueCounters {
    ghost WIDTH = { 32 };

    const WIDTH: usize = 32;

    #[tactic(auto, unfolding(of10_wire::specs::Layout::Stand, crate::specs::Counters::queue_counters_slots))]
    fn read(bytes: &[u8]) -> QueueCounters {
        QueueCounters {
            port_no: u16_at(bytes, 0),
            queue_id: u32_at(bytes, 4),
            tx_bytes: u64_at(bytes, 8),
            tx_packets: u64_at(bytes, 16),
            tx_errors: u64_at(bytes, 24),
        }
    }
}
