//! Why bytes are no frame.

ghost use Rattle.std.specs.Prelude.{◌≡◌};
ghost use Rattle.of10_wire.specs.Refusals.{out_of_memory};

use std::alloc::{AllocError, AllocFailed};
use thiserror::Error;

/// The rule that bytes break.
#[derive(Clone, Copy, Debug, PartialEq, Eq)]
pub enum WireWhy {
    /// Nothing is wrong with the bytes: memory ran out.
    Memory,
    /// Another version than 1, in a message other than HELLO.
    BadVersion,
    /// No type of OpenFlow 1.0.
    BadType,
    /// A length that the frame or its layout doesn't have.
    BadLength,
    /// No action begins here.
    BadAction,
    /// No statistics of a known kind, or no entry of them begins here.
    BadStat,
    /// No queue, or no property of one, begins here.
    BadProperty,
}

/// Where bytes break a rule, counted from their first, and which.
#[derive(Clone, Copy, Debug, PartialEq, Eq, Error)]
#[error("{why:?} at {at}")]
pub struct WireRefusal {
    pub at: usize,
    pub why: WireWhy,
}

impl From<AllocError> for WireRefusal {
    ghost from_gives = { λ _ e. e ≡ out_of_memory };

    fn from(_e: AllocError) -> WireRefusal {
        WireRefusal {
            at: 0,
            why: WireWhy::Memory,
        }
    }
}

impl<T: Drop> From<AllocFailed<T>> for WireRefusal {
    ghost from_gives = { λ _ e. e ≡ out_of_memory };

    fn from(_e: AllocFailed<T>) -> WireRefusal {
        WireRefusal {
            at: 0,
            why: WireWhy::Memory,
        }
    }
}
