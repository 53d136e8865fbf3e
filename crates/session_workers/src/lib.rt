//! Workers that serve sessions side by side: each has a seat of one hall, and they take their links from one listener.
//!
//! `specs/Courses.antt` says what a worker does, and `specs/Endings.antt` what is known of all sessions along the whole history.
#![tactic(auto)]

mod desk;
mod door;
mod gathering;
mod giving;
mod halt;
mod hiring;
mod row;
mod sessions;
mod shift;
mod team;
mod terms;
mod worker;

pub use halt::Halt;
pub use row::Row;
pub use sessions::{Worked, serve_sessions};
pub use terms::Terms;
