//! What can go wrong in a trial.
use csdn_read::ProgramRefusal;
use fol_forms::refusal::FormRefusal;
use net_structs::read::NetRefusal;
use net_text::NetWhy;
use std::alloc::AllocError;
use text_lines::LineRefusal;
use thiserror::Error;

/// Why a trial has no outcome.
#[derive(Debug, Drop, Error)]
pub enum Trouble {
    #[error("out of memory")]
    Memory(#[from] AllocError),
    #[error("the text is no program: {0}")]
    Program(#[from] ProgramRefusal),
    #[error("there is no network: {0}")]
    Net(#[from] NetRefusal),
    #[error("the text of a case is no network: {0}")]
    NetText(#[from] LineRefusal<NetWhy>),
    #[error("a condition has no formula: {0}")]
    Form(#[from] FormRefusal),
    #[error("a formula binds too many variables at once")]
    Deep,
}

/// Puts an element behind the others.
pub fn put<T: Drop>(list: &mut Vec<T>, element: T) -> Result<(), AllocError> {
    list.push(element)?;
    Ok(())
}
