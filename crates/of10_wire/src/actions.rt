//! Actions, read and written.

ghost use Rattle.std.specs.Prelude.{◌≡◌, ◌≤◌, ◌+◌, ◌<◌, ◌^◌, ◌∷◌, [], length, false, IfOk, vec_len, vec_capacity};
ghost use Rattle.of10_wire.specs.Layout.{Number, Stand, width, number};
ghost use Rattle.of10_wire.specs.Actions.{action_slots, allows_action_len, is_no_action, IsProper, RefusesAction};
ghost use Rattle.of10_wire.specs.Writing.{Writes};

use crate::action::Action;
use crate::lists::capped;
use crate::parts::{Item, Part};
use crate::read::{array_at, body_at, u8_at, u16_at, u32_at};
use crate::refusal::{WireRefusal, WireWhy};
use crate::write::{put_bytes, put_pad, put_u8, put_u16, put_u32};
use std::alloc::{AllocError, Global};

/// Whether an action of this type may have this length.
fn allows_action_len(kind: u16, len: u16) -> bool
    ensures { result ≡ allows_action_len kind len }
{
    match kind {
        4 | 5 | 11 => len == 16,
        0..=10 => len == 8,
        65535 => len >= 8 && len % 8 == 0,
        _ => false,
    }
}

/// Whether no action begins these bytes.
#[tactic(auto, unfolding(crate::specs::Actions::is_no_action))]
fn is_no_action(bytes: &[u8]) -> bool
    ensures exact { result ≡ is_no_action bytes.now }
    ensures room { result ≡ false → (8 ≤ number 2 2 bytes.now) × (number 2 2 bytes.now ≤ length bytes.now) }
{
    if bytes.len() < 4 {
        return true;
    }
    let len = u16_at(bytes, 2);
    !allows_action_len(u16_at(bytes, 0), len) || bytes.len() < len as usize
}

/// The action that begins these bytes.
#[tactic(auto, unfolding(crate::specs::Actions::is_no_action, crate::specs::Layout::Stand, crate::specs::Actions::action_slots))]
fn action(alloc: Global, bytes: &[u8]) -> Result<Action, AllocError>
    requires { is_no_action bytes.now ≡ false }
    ensures stand { IfOk result (λ a. Stand 0 (action_slots a) bytes.now) }
    ensures width { IfOk result (λ a. width (action_slots a) ≡ number 2 2 bytes.now) }
{
    let len = u16_at(bytes, 2) as usize;
    match u16_at(bytes, 0) {
        0 => Ok(Action::Output {
            port: u16_at(bytes, 4),
            max_len: u16_at(bytes, 6),
        }),
        1 => Ok(Action::SetVlanVid {
            vlan_vid: u16_at(bytes, 4),
        }),
        2 => Ok(Action::SetVlanPcp {
            vlan_pcp: u8_at(bytes, 4),
        }),
        3 => Ok(Action::StripVlan),
        4 => Ok(Action::SetDlSrc {
            dl_addr: array_at(bytes, 4),
        }),
        5 => Ok(Action::SetDlDst {
            dl_addr: array_at(bytes, 4),
        }),
        6 => Ok(Action::SetNwSrc {
            nw_addr: u32_at(bytes, 4),
        }),
        7 => Ok(Action::SetNwDst {
            nw_addr: u32_at(bytes, 4),
        }),
        8 => Ok(Action::SetNwTos {
            nw_tos: u8_at(bytes, 4),
        }),
        9 => Ok(Action::SetTpSrc {
            tp_port: u16_at(bytes, 4),
        }),
        10 => Ok(Action::SetTpDst {
            tp_port: u16_at(bytes, 4),
        }),
        11 => Ok(Action::Enqueue {
            port: u16_at(bytes, 4),
            queue_id: u32_at(bytes, 12),
        }),
        _ => Ok(Action::Vendor {
            vendor: u32_at(bytes, 4),
            body: body_at(alloc, bytes, 8, len)?,
        }),
    }
}

impl Item for Action {
    ghost refuses = { RefusesAction };

    fn read_first(
        alloc: Global,
        bytes: &[u8],
        place: usize,
    ) -> Result<(Action, usize), WireRefusal> {
        if is_no_action(bytes) {
            return Err(WireRefusal {
                at: place,
                why: WireWhy::BadAction,
            });
        }
        let action = action(alloc, bytes)?;
        Ok((action, u16_at(bytes, 2) as usize))
    }
}

/// The type and the length of an action.
fn put_type(out: &mut Vec<u8>, kind: u16, len: u16)
    requires { vec_len out.old + 4 ≤ vec_capacity out.old }
    ensures { Writes out.old out.new (Number 2 kind ∷ Number 2 len ∷ []) }
{
    put_u16(out, kind);
    put_u16(out, len);
}

impl Part for Action {
    ghost slots = { action_slots };

    ghost proper = { IsProper };

    #[tactic(auto, unfolding(crate::specs::Actions::action_slots))]
    fn len(&self) -> usize {
        match self {
            Action::SetDlSrc { .. } | Action::SetDlDst { .. } | Action::Enqueue { .. } => 16,
            Action::Vendor { body, .. } => capped(8 + capped(body.len())),
            _ => 8,
        }
    }

    fn is_proper(&self) -> bool {
        match self {
            Action::Vendor { body, .. } => body.len() % 8 == 0,
            _ => true,
        }
    }

    #[tactic(auto, unfolding(crate::specs::Actions::action_slots))]
    fn put(&self, out: &mut Vec<u8>) {
        match self {
            Action::Output { port, max_len } => {
                put_type(out, 0, 8);
                put_u16(out, *port);
                put_u16(out, *max_len);
            }
            Action::SetVlanVid { vlan_vid } => {
                put_type(out, 1, 8);
                put_u16(out, *vlan_vid);
                put_pad::<2>(out);
            }
            Action::SetVlanPcp { vlan_pcp } => {
                put_type(out, 2, 8);
                put_u8(out, *vlan_pcp);
                put_pad::<3>(out);
            }
            Action::StripVlan => {
                put_type(out, 3, 8);
                put_pad::<4>(out);
            }
            Action::SetDlSrc { dl_addr } => {
                put_type(out, 4, 16);
                put_bytes(out, dl_addr);
                put_pad::<6>(out);
            }
            Action::SetDlDst { dl_addr } => {
                put_type(out, 5, 16);
                put_bytes(out, dl_addr);
                put_pad::<6>(out);
            }
            Action::SetNwSrc { nw_addr } => {
                put_type(out, 6, 8);
                put_u32(out, *nw_addr);
            }
            Action::SetNwDst { nw_addr } => {
                put_type(out, 7, 8);
                put_u32(out, *nw_addr);
            }
            Action::SetNwTos { nw_tos } => {
                put_type(out, 8, 8);
                put_u8(out, *nw_tos);
                put_pad::<3>(out);
            }
            Action::SetTpSrc { tp_port } => {
                put_type(out, 9, 8);
                put_u16(out, *tp_port);
                put_pad::<2>(out);
            }
            Action::SetTpDst { tp_port } => {
                put_type(out, 10, 8);
                put_u16(out, *tp_port);
                put_pad::<2>(out);
            }
            Action::Enqueue { port, queue_id } => {
                put_type(out, 11, 16);
                put_u16(out, *port);
                put_pad::<6>(out);
                put_u32(out, *queue_id);
            }
            Action::Vendor { vendor, body } => {
                put_type(out, 65535, (8 + body.len()) as u16);
                put_u32(out, *vendor);
                put_bytes(out, body.as_slice());
            }
        }
    }
}
