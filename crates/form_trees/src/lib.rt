//! Normal forms as trees, each part with its extent: how many nodes its copies have, how many free constants it needs, and whether
//! its quantifiers may all be brought before it.
#![tactic(auto)]

pub mod building;
pub mod extents;
pub mod trees;
