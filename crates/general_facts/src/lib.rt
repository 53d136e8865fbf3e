//! Facts on lists and numbers that the standard library doesn't state, each once, for the proofs of all crates.
//!
//! There is no code here. A fact belongs here if it names nothing of this product and two crates need it; before it is
//! written, `rt lemma` says whether the standard library has it.
#![tactic(auto)]
