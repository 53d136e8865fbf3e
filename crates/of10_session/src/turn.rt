//! What comes after a message.

/// What a session asks the network's program.
#[derive(Clone, Copy, Debug, PartialEq, Eq)]
pub enum Ask {
    /// The rules of a switch that joined.
    Join {
        s: u64,
    },
    /// What to do with a packet, by its switch, source, destination and ingress port.
    Packet {
        s: u64,
        a: u64,
        b: u64,
        i: u64,
    },
    /// To take note that the rule of a match ended, by its switch, source, destination and ingress port, with the
    /// cookie of the rule.
    Expire {
        s: u64,
        a: u64,
        b: u64,
        i: u64,
        cookie: u64,
    },
}

/// Why a message ends its session.
#[derive(Clone, Copy, Debug, PartialEq, Eq)]
pub enum TurnEnd {
    /// The switch speaks another version.
    Incompatible,
    /// The message is none that may come now.
    OutOfTurn,
}

/// What comes after a message: the next one, an answer to an ask, or nothing more.
#[derive(Clone, Copy, Debug, PartialEq, Eq)]
pub enum Turn {
    /// The session goes on with the next message.
    Go,
    /// It waits for the answer to this ask.
    Ask(Ask),
    /// It ends.
    End(TurnEnd),
}
