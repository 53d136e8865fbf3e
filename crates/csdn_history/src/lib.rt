//! What a controller's history records, and what the controller answers: nothing of it is looked at by the meaning of
//! programs, so it may grow without proving that anew.
#![tactic(auto)]

pub mod entry;
pub mod reply;
