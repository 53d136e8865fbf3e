//! The hall: seats that take turns at one runtime, by tickets. Under any schedule all calls stand in one history.
//!
//! `specs/Halls.antt` says what a call does and what the runtime holds at the end; `specs/Rules.antt` says what is true
//! between any two steps, `specs/Plays.antt` what each step tells the seat that makes it, and `specs/Told.antt` what a session of a seat
//! is answered.
#![tactic(auto)]

mod closing;
mod hall;
mod laws;
mod opening;
mod rule;
mod view;

pub use hall::{Hall, HallSeat};
pub use laws::seats_are_told;
pub use view::{Account, Setting, Stage, View};
