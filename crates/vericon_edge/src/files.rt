//! Files, as a command sees them.
ghost use Rattle.std.specs.Prelude.{◌≡◌, ◌≤◌, ℕ, List};
ghost use Rattle.vericon_edge.specs.Counts.{counted};
ghost use Rattle.vericon_edge.specs.Told.{Told};
ghost use Rattle.vericon_edge.specs.FileAnswers.{ReadAnswers, WriteAnswers};

use std::alloc::Global;
use thiserror::Error;

/// Why a file was not read or written.
#[derive(Debug, Drop, PartialEq, Eq, Error)]
pub enum FileFault {
    /// There was no memory for the call. No fault was counted.
    #[error("out of memory")]
    Memory,
    /// The name isn't held. Where names are not told, a read fault was counted.
    #[error("there is no such file")]
    Missing,
    /// The name holds more bytes than were asked for at most. No fault was counted.
    #[error("the file is too long")]
    TooLong,
    /// The call failed, and a fault was counted.
    #[error("the file could not be read or written")]
    Failed,
}

/// Files by their names, each with a list of bytes.
///
/// An object may tell what its names hold. It counts its reads and its writes, and those that failed;
/// no count ever falls.
pub trait Files {
    /// What is told of a name.
    ghost told: { Self → List ℕ → Told };

    /// How often a read was asked for.
    ghost read_calls: { Self → ℕ };

    /// How often a write was asked for.
    ghost write_calls: { Self → ℕ };

    /// How often a read has failed.
    ghost read_faults: { Self → ℕ };

    /// How often a write has failed.
    ghost write_faults: { Self → ℕ };

    /// All bytes that a name holds, which are `most` at most. No file changes.
    ///
    /// Errors: `Missing`, `TooLong`, `Failed` and `Memory`.
    fn read_all(&mut self, alloc: Global, name: &str, most: usize) -> Result<Vec<u8>, FileFault>
        ensures answer { ReadAnswers (told self.old name.now) most (read_faults self.old) (read_faults self.new) result }
        ensures told { told self.new ≡ told self.old }
        ensures later { read_faults self.old ≤ read_faults self.new }
        ensures writes { write_faults self.new ≡ write_faults self.old }
        ensures one_read { read_calls self.new ≡ counted (read_calls self.old) }
        ensures no_write { write_calls self.new ≡ write_calls self.old };

    /// Makes a name hold exactly these bytes. No other name changes.
    ///
    /// Errors: `Failed`, after which nothing is told of the name; and `Memory`, which changes nothing.
    fn write_all(&mut self, alloc: Global, name: &str, bytes: &[u8]) -> Result<(), FileFault>
        ensures answer { WriteAnswers (told self.old name.now) (told self.new name.now) bytes.now (write_faults self.old) (write_faults self.new) result }
        ensures others { (other : List ℕ) → (other ≡ name.now → ⊥) → told self.new other ≡ told self.old other }
        ensures later { write_faults self.old ≤ write_faults self.new }
        ensures reads { read_faults self.new ≡ read_faults self.old }
        ensures one_write { write_calls self.new ≡ counted (write_calls self.old) }
        ensures no_read { read_calls self.new ≡ read_calls self.old };
}
