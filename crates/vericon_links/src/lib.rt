//! Links and the listener that they come from: with the files and the sink of vericon_edge all that is outside the program.
//!
//! A link is a stream of bytes both ways, as a connection of a switch. A trait says what each object tells of itself and why each of its
//! calls may fail. The objects in memory tell all, and fail in the calls that a plan lists. Those over sockets tell no bytes: they are
//! the trusted edge.
#![tactic(auto)]

pub mod link;
pub mod listener;
pub mod mem_link;
pub mod mem_listener;
pub mod tcp_link;
pub mod tcp_listen;
