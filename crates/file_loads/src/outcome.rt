//! What a command answers.
ghost use Rattle.std.specs.Prelude.{◌≡◌};
ghost use Rattle.file_loads.specs.Status.{code_of};

/// How a call ended.
#[derive(Clone, Copy, Debug, PartialEq, Eq)]
pub enum Status {
    /// Yes, or done.
    Done,
    /// A condition is broken.
    Counterexample,
    /// A block's log isn't accepted.
    NotAccepted,
    /// An invariant was false after a note.
    Broken,
    /// A condition is too large to be looked at, or isn't decided.
    Unknown,
    /// A text was refused.
    Refused,
    /// No network meets the topology invariants.
    NoNetwork,
    /// A file was not read.
    ReadFault,
    /// The words have no stated form.
    Usage,
    /// There was no memory.
    Memory,
    /// The sink failed, or a file was not written.
    WriteFault,
}

impl Status {
    /// The number that the program ends with.
    pub fn code(self) -> u8
        ensures { result ≡ code_of self }
    {
        match self {
            Status::Done => 0,
            Status::Counterexample | Status::NotAccepted | Status::Broken => 1,
            Status::Unknown => 2,
            Status::Refused => 3,
            Status::NoNetwork => 4,
            Status::ReadFault => 5,
            Status::Usage => 6,
            Status::Memory => 7,
            Status::WriteFault => 8,
        }
    }
}

/// All that a command prints, and its status.
#[derive(Drop)]
pub struct Outcome {
    pub text: Vec<u8>,
    pub status: Status,
}
