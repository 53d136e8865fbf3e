//! What happens in a network, and what an execution did.
use sqlite_items::Items;

/// An event of a network: one atomic step. In it `s` is the switch, `a` the source, `b` the destination, `i` the
/// ingress port and `o` the egress port.
#[derive(Clone, Copy, Debug, PartialEq, Eq)]
pub enum Event {
    /// A switch reports a packet that came in.
    PktIn {
        s: u64,
        a: u64,
        b: u64,
        i: u64,
    },
    /// A switch sends a packet by one of its flow rules.
    PktFlow {
        s: u64,
        a: u64,
        b: u64,
        i: u64,
        o: u64,
    },
    /// The flow rules of one match end, after a time without packets.
    Expire {
        s: u64,
        a: u64,
        b: u64,
        i: u64,
    },
}

/// The packet of which formulas may speak: its switch, source, destination and ingress port.
#[derive(Clone, Copy, Debug, PartialEq, Eq)]
pub enum Packet {
    /// There is none, and `rcv_this` holds of nothing.
    Nothing,
    At { s: u64, a: u64, b: u64, i: u64 },
}

/// What a flow rule fits: the packets of one switch with this source, destination and ingress port.
#[derive(Clone, Copy, Debug, PartialEq, Eq)]
pub struct Match {
    pub s: u64,
    pub a: u64,
    pub b: u64,
    pub i: u64,
}

/// How a packet is sent out at once.
#[derive(Clone, Copy, Debug, PartialEq, Eq)]
pub enum Out {
    /// From one port.
    Port(u64),
    /// From every port but its own.
    Flood,
}

/// A list of matches.
pub type Matches = Items<Match>;

/// A list of ways in which one packet is sent out.
pub type Outs = Items<Out>;

/// What an execution did.
#[derive(Drop)]
pub struct Tally {
    /// The matches whose set of output ports is another one than before, in the order of the first command that
    /// changed it.
    pub changed: Matches,
    /// The forwards and floods in the order of the commands, each once at its first place.
    pub outs: Outs,
}
