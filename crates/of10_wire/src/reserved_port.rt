//! Numbers in place of a port (OpenFlow Switch Specification 1.0.0, section 5.2.1, `ofp_port`): those that a controller writes
//! here.

/// The port that the packet came in at.
pub const IN_PORT: u16 = 0xfff8;

/// All ports but the one that the packet came in at.
pub const ALL: u16 = 0xfffc;

/// No port.
pub const NONE: u16 = 0xffff;
