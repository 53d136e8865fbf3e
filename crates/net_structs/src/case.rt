//! A network with a state and a packet.
use crate::network::Network;
use crate::state::State;
use csdn_core::event::Packet;

/// A network, and where there is one a state and the packet of the event at hand.
#[derive(Drop)]
pub struct Case {
    pub network: Network,
    pub state: Option<State>,
    pub packet: Packet,
}
