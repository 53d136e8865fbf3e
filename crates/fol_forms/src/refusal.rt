//! Why a form is not made.
ghost use Rattle.std.specs.Prelude.{◌≡◌, Result, Ok, Err};
ghost use Rattle.fol_forms.specs.Answers.{widened};

use csdn_core::syntax::Formula;
use std::alloc::AllocError;
use thiserror::Error;

/// The most nodes that a form is made with.
pub const MOST_NODES: u64 = 1_048_576;

/// Why a form is not made.
#[derive(Debug, Drop, Error)]
pub enum FormRefusal {
    /// It has more than 1,048,576 nodes.
    #[error("more than 1048576 nodes")]
    Large,
    #[error("out of memory")]
    Memory,
}

/// What was made, with want of memory as a refusal.
pub fn or_memory(made: Result<Formula, AllocError>) -> Result<Formula, FormRefusal>
    ensures { result ≡ widened made }
{
    match made {
        Ok(formula) => Ok(formula),
        Err(_) => Err(FormRefusal::Memory),
    }
}
