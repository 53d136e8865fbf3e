//! Texts of networks with a state and a packet.
//!
//! docs/FORMATS.md gives the format. `specs/Lines.antt` says what a line's words mean, with the reasons of a refusal in
//! their order, and `specs/NetText.antt` the order of lines and how a case is spelled.
#![tactic(auto)]

mod line;
mod place;
mod print;
mod read;
mod refusal;

pub use print::{Text, print_net};
pub use read::read_net;
pub use refusal::NetWhy;
