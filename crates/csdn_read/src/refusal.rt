//! Why bytes are no program.
ghost use Rattle.std.specs.Prelude.{◌≡◌};
ghost use Rattle.csdn_read.specs.Refusals.{told_text, told_sorts};

use csdn_text::TextRefusal;
use csdn_types::refusal::SortRefusal;
use thiserror::Error;

/// What is wrong at a place: the first six with the text, the others with names, sorts and limits (docs/LANGUAGE.md).
#[derive(Clone, Copy, Debug, PartialEq, Eq)]
pub enum ProgramWhy {
    TooLong,
    BadByte,
    BadName,
    BadNumber,
    Unexpected,
    TooDeep,
    Duplicate,
    Unknown,
    WrongArity,
    WrongSort,
    NotAllowed,
    TooMany,
}

/// Why there is no program. A place is a byte from the beginning of the text.
#[derive(Clone, Copy, Debug, PartialEq, Eq, Error)]
pub enum ProgramRefusal {
    /// There was no memory.
    #[error("out of memory")]
    Memory,
    /// The bytes are refused at this place. That of a text which is too long is 65,536, its first byte too many.
    #[error("refused at byte {at}: {why:?}")]
    At { at: usize, why: ProgramWhy },
}

impl From<TextRefusal> for ProgramRefusal {
    ghost from_gives = { λ refusal told. told ≡ told_text refusal };

    fn from(refusal: TextRefusal) -> ProgramRefusal {
        let (at, why) = match refusal {
            TextRefusal::Memory => return ProgramRefusal::Memory,
            TextRefusal::TooLong => (65_536, ProgramWhy::TooLong),
            TextRefusal::BadByte { at } => (at, ProgramWhy::BadByte),
            TextRefusal::BadName { at } => (at, ProgramWhy::BadName),
            TextRefusal::BadNumber { at } => (at, ProgramWhy::BadNumber),
            TextRefusal::Unexpected { at } => (at, ProgramWhy::Unexpected),
            TextRefusal::TooDeep { at } => (at, ProgramWhy::TooDeep),
        };
        ProgramRefusal::At { at, why }
    }
}

impl From<SortRefusal> for ProgramRefusal {
    ghost from_gives = { λ refusal told. told ≡ told_sorts refusal };

    fn from(refusal: SortRefusal) -> ProgramRefusal {
        let (at, why) = match refusal {
            SortRefusal::Memory => return ProgramRefusal::Memory,
            SortRefusal::Duplicate { at } => (at, ProgramWhy::Duplicate),
            SortRefusal::Unknown { at } => (at, ProgramWhy::Unknown),
            SortRefusal::WrongArity { at } => (at, ProgramWhy::WrongArity),
            SortRefusal::WrongSort { at } => (at, ProgramWhy::WrongSort),
            SortRefusal::NotAllowed { at } => (at, ProgramWhy::NotAllowed),
            SortRefusal::TooMany { at } => (at, ProgramWhy::TooMany),
        };
        ProgramRefusal::At { at, why }
    }
}
