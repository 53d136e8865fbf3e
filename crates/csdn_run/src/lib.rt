//! The runtime: a program over a network, with the history of what was entered, and the replies.
//!
//! `specs/Standings.antt` says what the entries of a history do, `specs/Replies.antt` what is answered to an entry, and
//! `specs/Histories.antt` what a runtime is seen as, `specs/Sessions.antt` what one session is answered, and `specs/Happenings.antt`
//! which events a history is.
#![tactic(auto)]

mod joins;
mod key;
mod laws;
mod marks;
mod rules;
mod runtime;
mod standing;

pub use laws::{histories_are_runs, replies_name_elements};
pub use marks::Marks;
pub use runtime::{RunRefusal, Runtime};
pub use standing::is_declared;
