//! The fault of a call that gives no reason.
use thiserror::Error;

/// What was asked for was not done, and the object has counted a fault.
#[derive(Clone, Copy, Debug, PartialEq, Eq, Error)]
#[error("the call failed")]
pub struct Failed;
