//! What can go wrong in a trial.
use csdn_read::ProgramRefusal;
use csdn_step::StepRefusal;
use fol_forms::refusal::FormRefusal;
use net_text::NetWhy;
use std::alloc::AllocError;
use text_lines::LineRefusal;
use thiserror::Error;

/// Why a trial has no outcome.
#[derive(Debug, Drop, Error)]
pub enum Trouble {
    #[error("out of memory")]
    Memory(#[from] AllocError),
    #[error("the text is no program: {0}")]
    Program(#[from] ProgramRefusal),
    #[error("there is no network: {0}")]
    Net(#[from] LineRefusal<NetWhy>),
    #[error("an event was refused: {0}")]
    Event(#[from] StepRefusal),
    #[error("a condition has no formula: {0}")]
    Form(#[from] FormRefusal),
    #[error("a formula binds too many variables at once")]
    Deep,
}
