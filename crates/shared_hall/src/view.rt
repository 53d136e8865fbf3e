//! What a seat knows. No value of these types is made but of `Setting`.
use csdn_history::entry::Entry;
use csdn_run::Runtime;
use std::collections::LinkedList;
use std::snapshot::Snapshot;

/// A seat's number, how often it acted, and the entries that it has seen.
pub struct Account {
    pub number: u32,
    pub acts: u64,
    pub seen: LinkedList<Entry>,
}

/// Whether a seat has a ticket; and in its turn the entries for which the runtime stands.
pub enum Stage {
    Idle,
    Waiting(u64),
    Serving(u64, LinkedList<Entry>),
}

/// What a seat knows of its hall, with its own account and those that it keeps as ended.
pub struct View {
    pub opening: Runtime,
    pub seats: u32,
    pub own: Account,
    /// The seats of this number and above may be cut from it.
    pub next: u32,
    /// The number of seats that it stands for; 0 once it is spent.
    pub parts: u64,
    pub stage: Stage,
    pub ended: LinkedList<Account>,
}

/// What a hall is told once: the runtime at the opening, and the number of seats.
#[derive(Drop)]
pub struct Setting {
    pub opening: Snapshot<Runtime>,
    pub seats: u32,
}
