//! A seat of a hall that answers the asks of one session: each ask that is declared is entered, with the numbers of the seat and of
//! the session. `specs/Additions.antt` says what a session is told by the entries that its seat adds for it.
#![tactic(auto)]

mod entries;
mod laws;

pub use entries::SeatEntries;
pub use laws::sessions_stay_told;
