//! Lists what a stream of OpenFlow 1.0 holds: a line for each message, and one for what is left.
#![tactic(auto)]

mod lines;
mod listing;

pub use lines::why_name;
pub use listing::{Listing, list_frames, listings_have_one_text};

#[cfg(test)]
mod tests;
