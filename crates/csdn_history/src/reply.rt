//! Answers to entries.
use csdn_core::event::{Match, Outs};
use sqlite_items::Items;

/// Elements of one sort, as the output ports of a match.
pub type Elements = Items<u64>;

/// A list of flow rules.
pub type Rules = Items<Rule>;

/// A flow rule: all output ports of a match, rising; none where the match has no rule any more.
#[derive(Drop)]
pub struct Rule {
    pub key: Match,
    pub ports: Elements,
    /// The number of the entry that gave the match its ports; 0 where rules don't end.
    pub cookie: u64,
    /// The seconds without packets after which the rule ends; 0 where rules don't end.
    pub idle: u16,
}

/// What a controller answers to an entry.
#[derive(Drop)]
pub struct Reply {
    /// The rules that the switch is told: at a join all of its own, and after a packet those of the matches that it
    /// changed.
    pub rules: Rules,
    /// How the packet of the entry is sent out at once.
    pub outs: Outs,
}
