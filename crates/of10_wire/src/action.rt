//! What a switch does with a packet.

use crate::body::Body;
use sqlite_items::Items;

/// An action (OpenFlow Switch Specification 1.0.0, section 5.2.4).
pub enum Action {
    /// Sends the packet out of a port, at most so many bytes of it to the controller.
    Output { port: u16, max_len: u16 },
    SetVlanVid { vlan_vid: u16 },
    SetVlanPcp { vlan_pcp: u8 },
    StripVlan,
    SetDlSrc { dl_addr: [u8; 6] },
    SetDlDst { dl_addr: [u8; 6] },
    SetNwSrc { nw_addr: u32 },
    SetNwDst { nw_addr: u32 },
    SetNwTos { nw_tos: u8 },
    SetTpSrc { tp_port: u16 },
    SetTpDst { tp_port: u16 },
    /// Puts the packet into a queue of a port.
    Enqueue { port: u16, queue_id: u32 },
    /// An action of a vendor's own. It can be sent where its body is a multiple of 8 bytes.
    Vendor { vendor: u32, body: Body },
}

// Each field is bound: a derived drop would be put in line wherever an action is held.
impl Drop for Action {
    fn drop(self) {
        match self {
            Action::Output {
                port: _port,
                max_len: _max_len,
            } => {}
            Action::SetVlanVid {
                vlan_vid: _vlan_vid,
            } => {}
            Action::SetVlanPcp {
                vlan_pcp: _vlan_pcp,
            } => {}
            Action::StripVlan => {}
            Action::SetDlSrc { dl_addr: _dl_addr } => {}
            Action::SetDlDst { dl_addr: _dl_addr } => {}
            Action::SetNwSrc { nw_addr: _nw_addr } => {}
            Action::SetNwDst { nw_addr: _nw_addr } => {}
            Action::SetNwTos { nw_tos: _nw_tos } => {}
            Action::SetTpSrc { tp_port: _tp_port } => {}
            Action::SetTpDst { tp_port: _tp_port } => {}
            Action::Enqueue {
                port: _port,
                queue_id: _queue_id,
            } => {}
            Action::Vendor {
                vendor: _vendor,
                body: _body,
            } => {}
        }
    }
}

/// A list of actions. Contracts see it as a list.
pub type Actions = Items<Action>;
