//! What holds of each tree that a text reads as: its places rise in the order of the text, its names are names and its
//! numerals ports. The rules on names and sorts rest on it.
#![tactic(auto)]

mod laws;

pub use laws::trees_are_from_text;
