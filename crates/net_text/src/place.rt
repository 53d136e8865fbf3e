//! How far the reader of a network has come.
use csdn_core::event::Packet;
use net_structs::case::Case;
use net_structs::network::{Elements, Network};
use net_structs::state::State;
use sqlite_items::Items;

/// For each constant of the program, its value where its line has come.
pub type Values = Items<Option<u64>>;

/// A network whose constants don't all have their values yet.
#[derive(Drop)]
pub struct Open {
    pub network: Network,
    pub values: Values,
}

/// Which lines may come next, with what was read.
#[derive(Drop)]
pub enum NetPlace {
    /// The first line.
    Header,
    /// The line of the switches.
    Switches,
    /// The line of the hosts, behind these switches.
    Hosts(Elements),
    /// The line of the ports, behind these switches and hosts.
    Ports(Elements, Elements),
    /// Constants and tuples of static relations; `state` or `end`.
    Items(Open),
    /// Tuples of the state; a packet or `end`.
    Facts(Open, State),
    /// `end`, behind the packet.
    Closing(Open, State, Packet),
    /// No line more.
    Ended(Case),
}
