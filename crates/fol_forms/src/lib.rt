//! Formulas made from formulas, and counts of them.
//!
//! Each form is that of its definition in `specs/`; [`laws`] says what each is true of. Counts are exact, and stand at
//! 2^64 - 1 where they are larger.
#![tactic(auto)]

pub mod close;
pub mod constants;
pub mod count;
pub mod fragment;
pub mod instances;
pub mod laws;
pub mod normal;
pub mod refusal;
pub mod renumber;
pub mod replace;
pub mod signed;
