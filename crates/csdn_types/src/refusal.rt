//! Refusals of trees.
use std::alloc::AllocError;
use thiserror::Error;

/// The first rule on names and sorts that a program breaks, with the byte place where it does (docs/LANGUAGE.md, "Names,
/// sorts and limits").
#[derive(Clone, Copy, Debug, Drop, Error, PartialEq, Eq)]
pub enum SortRefusal {
    #[error("out of memory")]
    Memory,
    /// A name is declared or bound a second time.
    #[error("duplicate name at {at}")]
    Duplicate { at: usize },
    /// A name is not declared.
    #[error("unknown name at {at}")]
    Unknown { at: usize },
    /// A relation is declared with too many sorts, or used with another number of terms than it has.
    #[error("wrong number of terms at {at}")]
    WrongArity { at: usize },
    /// A term is not of the sort of its place.
    #[error("wrong sort at {at}")]
    WrongSort { at: usize },
    /// A relation or a term stands where it may not.
    #[error("not allowed at {at}")]
    NotAllowed { at: usize },
    /// A limit is passed.
    #[error("too many at {at}")]
    TooMany { at: usize },
}

impl From<AllocError> for SortRefusal {
    ghost use Rattle.csdn_types.specs.declared.refusal.SortRefusal.TheVariants.{Memory};
    ghost use Rattle.std.specs.Prelude.{◌≡◌};

    ghost from_gives = { λ _ e. e ≡ Memory };

    fn from(_: AllocError) -> Self {
        SortRefusal::Memory
    }
}
