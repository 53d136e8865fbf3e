//! The one place where a program's handlers are executed.
//!
//! `specs/Courses.antt` says what an execution comes to that takes the least element at each `pick`, with what it is counted
//! to have done, `specs/Answers.antt` which events are refused, and `specs/Drafts.antt` what a state is that is being changed.
//! What a step is stands in `csdn_core`.
#![tactic(auto)]

mod commands;
mod draft;
mod events;
mod laws;
mod sends;
mod setting;
mod settle;
mod start;
mod tallies;

pub use draft::StateDraft;
pub use events::{StepRefusal, begin, begin_quiet, fire, fire_quiet};
pub use laws::{changed_matches_differ, steps_keep_elements, tallies_name_elements};
pub use start::initial;
