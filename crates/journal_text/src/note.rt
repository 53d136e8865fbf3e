//! The notes of a journal.
use csdn_history::entry::Entry;
use sqlite_items::Items;

/// The notes of a journal, in order.
pub type Notes = Items<Note>;

/// A note of a journal.
#[derive(Clone, Copy, Debug, PartialEq, Eq)]
pub enum Note {
    /// An entry of a controller's history.
    Kept(Entry),
    /// A switch sent a packet by one of its flow rules: its switch, source, destination, ingress port and egress port.
    Flow {
        s: u64,
        a: u64,
        b: u64,
        i: u64,
        o: u64,
    },
}

/// The version of a journal's text.
#[derive(Clone, Copy, Debug, PartialEq, Eq)]
pub enum Version {
    /// It says of no flow rules that they ended.
    First,
    /// It may say so.
    Second,
}
