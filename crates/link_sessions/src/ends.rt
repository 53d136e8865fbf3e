//! How a session ends.

use of10_wire::WireWhy;

/// Why a session ended.
#[derive(Clone, Copy, Debug, PartialEq, Eq)]
pub enum SessionEnd {
    /// The switch gives no more bytes.
    Closed,
    /// A read failed.
    ReadFault,
    /// A write failed.
    WriteFault,
    /// The bytes at this place are no message.
    Wire { at: u64, why: WireWhy },
    /// The switch speaks another version.
    Incompatible,
    /// The message at this place is none that may come there.
    OutOfTurn { at: u64 },
    /// The network lacks the switch.
    UnknownSwitch { s: u64 },
    /// The history has no room for a further entry.
    HistoryFull,
    /// As many bytes were taken as a session may take.
    StreamFull,
    Memory,
}

/// The end of a session, and how many messages were ignored.
#[derive(Clone, Copy, Debug, PartialEq, Eq)]
pub struct Ended {
    pub end: SessionEnd,
    pub ignored: u64,
}
