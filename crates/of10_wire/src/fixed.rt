//! The parts of fixed width, read and written.

ghost use Rattle.of10_wire.specs.Layout.{Spells};
ghost use Rattle.of10_wire.specs.Headers.{header_slots};
ghost use Rattle.of10_wire.specs.Parts.{match_slots, port_slots};

use crate::parts::{FixedPart, Part};
use crate::read::{array_at, u8_at, u16_at, u32_at};
use crate::types::{FlowMatch, Header, PhyPort};
use crate::write::{put_bytes, put_pad, put_u8, put_u16, put_u32};

/// The header that these bytes are.
pub fn header(bytes: &[u8; 8]) -> Header
    ensures { Spells (header_slots result) bytes.now }
{
    Header::read(bytes)
}

/// The match that these bytes are.
pub fn flow_match(bytes: &[u8; 40]) -> FlowMatch
    ensures { Spells (match_slots result) bytes.now }
{
    FlowMatch::read(bytes)
}

/// The port that these bytes are.
pub fn phy_port(bytes: &[u8; 48]) -> PhyPort
    ensures { Spells (port_slots result) bytes.now }
{
    PhyPort::read(bytes)
}

impl Part for Header {
    ghost slots = { header_slots };

    ghost proper = { λ header. Unit };

    fn len(&self) -> usize {
        8
    }

    fn is_proper(&self) -> bool {
        true
    }

    fn put(&self, out: &mut Vec<u8>) {
        put_u8(out, self.version);
        put_u8(out, self.kind);
        put_u16(out, self.length);
        put_u32(out, self.xid);
    }
}

impl FixedPart for Header {
    ghost WIDTH = { 8 };

    const WIDTH: usize = 8;

    #[tactic(auto, unfolding(crate::specs::Layout::Stand))]
    fn read(bytes: &[u8]) -> Header {
        Header {
            version: u8_at(bytes, 0),
            kind: u8_at(bytes, 1),
            length: u16_at(bytes, 2),
            xid: u32_at(bytes, 4),
        }
    }
}

impl Part for FlowMatch {
    ghost slots = { match_slots };

    ghost proper = { λ flow. Unit };

    #[tactic(auto, unfolding(crate::specs::Parts::match_slots))]
    fn len(&self) -> usize {
        40
    }

    fn is_proper(&self) -> bool {
        true
    }

    #[tactic(auto, unfolding(crate::specs::Parts::match_slots))]
    fn put(&self, out: &mut Vec<u8>) {
        put_u32(out, self.wildcards);
        put_u16(out, self.in_port);
        put_bytes(out, &self.dl_src);
        put_bytes(out, &self.dl_dst);
        put_u16(out, self.dl_vlan);
        put_u8(out, self.dl_vlan_pcp);
        put_pad::<1>(out);
        put_u16(out, self.dl_type);
        put_u8(out, self.nw_tos);
        put_u8(out, self.nw_proto);
        put_pad::<2>(out);
        put_u32(out, self.nw_src);
        put_u32(out, self.nw_dst);
        put_u16(out, self.tp_src);
        put_u16(out, self.tp_dst);
    }
}

impl FixedPart for FlowMatch {
    ghost WIDTH = { 40 };

    const WIDTH: usize = 40;

    #[tactic(auto, unfolding(crate::specs::Layout::Stand, crate::specs::Parts::match_slots))]
    fn read(bytes: &[u8]) -> FlowMatch {
        FlowMatch {
            wildcards: u32_at(bytes, 0),
            in_port: u16_at(bytes, 4),
            dl_src: array_at(bytes, 6),
            dl_dst: array_at(bytes, 12),
            dl_vlan: u16_at(bytes, 18),
            dl_vlan_pcp: u8_at(bytes, 20),
            dl_type: u16_at(bytes, 22),
            nw_tos: u8_at(bytes, 24),
            nw_proto: u8_at(bytes, 25),
            nw_src: u32_at(bytes, 28),
            nw_dst: u32_at(bytes, 32),
            tp_src: u16_at(bytes, 36),
            tp_dst: u16_at(bytes, 38),
        }
    }
}

impl Part for PhyPort {
    ghost slots = { port_slots };

    ghost proper = { λ port. Unit };

    #[tactic(auto, unfolding(crate::specs::Parts::port_slots))]
    fn len(&self) -> usize {
        48
    }

    fn is_proper(&self) -> bool {
        true
    }

    #[tactic(auto, unfolding(crate::specs::Parts::port_slots))]
    fn put(&self, out: &mut Vec<u8>) {
        put_u16(out, self.port_no);
        put_bytes(out, &self.hw_addr);
        put_bytes(out, &self.name);
        put_u32(out, self.config);
        put_u32(out, self.state);
        put_u32(out, self.curr);
        put_u32(out, self.advertised);
        put_u32(out, self.supported);
        put_u32(out, self.peer);
    }
}

impl FixedPart for PhyPort {
    ghost WIDTH = { 48 };

    const WIDTH: usize = 48;

    #[tactic(auto, unfolding(crate::specs::Layout::Stand, crate::specs::Parts::port_slots))]
    fn read(bytes: &[u8]) -> PhyPort {
        PhyPort {
            port_no: u16_at(bytes, 0),
            hw_addr: array_at(bytes, 2),
            name: array_at(bytes, 8),
            config: u32_at(bytes, 24),
            state: u32_at(bytes, 28),
            curr: u32_at(bytes, 32),
            advertised: u32_at(bytes, 36),
            supported: u32_at(bytes, 40),
            peer: u32_at(bytes, 44),
        }
    }
}
