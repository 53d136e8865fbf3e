//! How far a session comes.

use of10_wire::WireWhy;

/// How a session ends by what it is told.
#[derive(Clone, Copy, Debug, PartialEq, Eq)]
pub enum SpokenEnd {
    /// The switch speaks another version.
    Incompatible,
    /// The message at this place is none that may come there.
    OutOfTurn { at: u64 },
    /// The network lacks the switch.
    UnknownSwitch { s: u64 },
    /// The bytes at this place are no message.
    Wire { at: u64, why: WireWhy },
}

/// Whether a session goes on, waits for an entry, or has ended.
#[derive(Clone, Copy, Debug, PartialEq, Eq)]
pub enum SpeechStop {
    Goes,
    Waits,
    Ends(SpokenEnd),
}

/// Why a message was not heard to its end.
#[derive(Clone, Copy, Debug, PartialEq, Eq)]
pub enum Broken {
    /// The history has no room for a further entry.
    Full,
    Memory,
}
