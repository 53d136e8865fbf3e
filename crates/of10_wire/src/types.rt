//! The parts of fixed width.

use sqlite_items::Items;

/// The first 8 bytes of a frame (OpenFlow Switch Specification 1.0.0, section 5.1, `ofp_header`).
#[derive(Clone, Copy, Debug, PartialEq, Eq)]
pub struct Header {
    /// 1 in OpenFlow 1.0, any in a HELLO.
    pub version: u8,
    /// The type of the message.
    pub kind: u8,
    /// The bytes of the whole frame, the header among them.
    pub length: u16,
    /// The number that pairs a reply with its request.
    pub xid: u32,
}

/// Which packets a rule is for (section 5.2.3, `ofp_match`). Every value of each field is kept.
#[derive(Clone, Copy, Debug, PartialEq, Eq)]
pub struct FlowMatch {
    /// A bit for each field that isn't looked at.
    pub wildcards: u32,
    pub in_port: u16,
    pub dl_src: [u8; 6],
    pub dl_dst: [u8; 6],
    pub dl_vlan: u16,
    pub dl_vlan_pcp: u8,
    pub dl_type: u16,
    pub nw_tos: u8,
    pub nw_proto: u8,
    pub nw_src: u32,
    pub nw_dst: u32,
    pub tp_src: u16,
    pub tp_dst: u16,
}

/// A port of a switch (section 5.2.1, `ofp_phy_port`).
#[derive(Clone, Copy, Debug, PartialEq, Eq)]
pub struct PhyPort {
    pub port_no: u16,
    pub hw_addr: [u8; 6],
    /// All 16 bytes, those behind the first zero among them.
    pub name: [u8; 16],
    pub config: u32,
    pub state: u32,
    pub curr: u32,
    pub advertised: u32,
    pub supported: u32,
    pub peer: u32,
}

/// A list of ports. Contracts see it as a list.
pub type Ports = Items<PhyPort>;
