//! Entries of a history.

/// What a controller's history records, with the seat and the session that brought it. In it `s` is the switch, `a` the
/// source, `b` the destination and `i` the ingress port.
#[derive(Clone, Copy, Debug, PartialEq, Eq)]
pub enum Entry {
    /// A switch joined.
    Join {
        seat: u32,
        session: u32,
        s: u64,
    },
    /// A packet came in.
    Packet {
        seat: u32,
        session: u32,
        s: u64,
        a: u64,
        b: u64,
        i: u64,
    },
    /// A switch says that the flow rule of a match ended, with the cookie of the rule.
    Expire {
        seat: u32,
        session: u32,
        s: u64,
        a: u64,
        b: u64,
        i: u64,
        cookie: u64,
    },
}
