//! The controller's side of one OpenFlow session: what is said to each message of a switch, and to each answer of the
//! network's program.
//!
//! [`Session::step`] takes a message and says what comes next: the next message, an [`Ask`] that waits for its answer, or
//! the session's end. [`Session::answer`] and [`Session::pass`] end an ask. `specs/Sessions.antt` is the machine's table,
//! and `specs/Replies.antt` says how rules and packets are sent.
#![tactic(auto)]

mod laws;
mod reply;
mod session;
mod turn;

pub use laws::{all_sendable, one_ask};
pub use session::{Pending, Phase, Session};
pub use turn::{Ask, Turn, TurnEnd};
