//! The tree of a program's text: what the reader answers, the sorts are checked on and the printer prints.
//!
//! One node for each rule of the grammar that is not a mere passing on (docs/LANGUAGE.md, "The tree"). Places are bytes
//! from the beginning of the text.
#![tactic(auto)]

pub mod names;
pub mod syntax;
pub mod tiers;
