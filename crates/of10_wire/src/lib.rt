//! The parts of OpenFlow 1.0 frames: how numbers and bytes lie in them, the header and its rules, matches, ports
//! and actions, and lists of parts.
//!
//! The crates above read and write whole frames with it. A layout is a list of slots, in `specs/Layout`:
//! a reader shows that the slots stand in the bytes, a writer that it appended them.
#![tactic(auto)]

mod action;
mod actions;
mod body;
mod fixed;
mod lists;
pub mod message_type;
mod parts;
mod read;
mod refusal;
pub mod reserved_port;
mod rules;
mod types;
mod write;

pub use action::{Action, Actions};
pub use body::Body;
pub use fixed::{flow_match, header, phy_port};
pub use lists::{are_proper, capped, fixed_at, fixed_from, items_at, len_all, put_all};
pub use parts::{FixedPart, Item, Part};
pub use read::{array_at, body_at, rest_from, u8_at, u16_at, u32_at, u64_at};
pub use refusal::{WireRefusal, WireWhy};
pub use rules::{Opening, header_refusal, opening_of};
pub use types::{FlowMatch, Header, PhyPort, Ports};
pub use write::{put_bytes, put_other_u16, put_pad, put_u8, put_u16, put_u32, put_u64};

#[cfg(test)]
mod vectors;
