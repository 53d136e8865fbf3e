//! The blocks of a log text.

use clause_log::{Clauses, Log};
use sqlite_items::Items;

/// The bytes of a text.
pub type Text = Items<u8>;

/// The blocks of a log text, in order.
pub type Blocks = Items<Block>;

/// A named block of a log text: clauses, and where it has step lines, the log of these.
#[derive(Drop)]
pub struct Block {
    pub name: Text,
    pub clauses: Clauses,
    pub log: Option<Log>,
}
