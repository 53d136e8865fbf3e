//! A link that gives no message before it has been answered.
ghost use Rattle.std.specs.Prelude.{◌≡◌, ◌≤◌, false, IfSome, length};

use vericon_edge::fault::Failed;
use vericon_links::link::{Got, Link};

/// What a switch sends once so many bytes were written to it.
pub struct Step {
    pub written: usize,
    pub sent: &'static [u8],
}

/// A link that gives each step in one read, and fails where it is read before its time. It tells no bytes.
#[derive(Drop)]
pub struct Dialogue {
    steps: &'static [Step],
    at: usize,
    pub written: usize,
    closed: bool,
    is_shut: bool,
    read_faults: u64,
    write_faults: u64,
}

impl Dialogue {
    /// Before the first step.
    pub fn new(steps: &'static [Step]) -> Dialogue
        ensures { result.closed ≡ false }
    {
        Dialogue {
            steps,
            at: 0,
            written: 0,
            closed: false,
            is_shut: false,
            read_faults: 0,
            write_faults: 0,
        }
    }

    /// How many bytes the next step puts at the front of the slice; none where it is before its time.
    fn give(&mut self, into: &mut [u8]) -> Option<usize>
        ensures width { IfSome result (λ n. n ≤ length into.new) }
        ensures closed { self.new.closed ≡ self.old.closed }
        ensures is_shut { self.new.is_shut ≡ self.old.is_shut }
        ensures read_faults { self.new.read_faults ≡ self.old.read_faults }
        ensures write_faults { self.new.write_faults ≡ self.old.write_faults }
    {
        let Some(step) = self.steps.get(self.at) else {
            return Some(0);
        };
        if self.written < step.written {
            return None;
        }
        let width = step.sent.len().min(into.len());
        into[..width].copy_from_slice(&step.sent[..width]);
        self.at = self.at.saturating_add(1);
        Some(width)
    }
}

impl Link for Dialogue {
    ghost use Rattle.std.specs.Prelude.{None};

    ghost taken = { λ _. None };

    ghost written = { λ _. None };

    ghost closed = { λ d. d.closed };

    ghost is_shut = { λ d. d.is_shut };

    ghost read_faults = { λ d. d.read_faults };

    ghost write_faults = { λ d. d.write_faults };

    fn read(&mut self, into: &mut [u8]) -> Result<Got, Failed> {
        match self.give(into) {
            None => {
                self.read_faults = self.read_faults.saturating_add(1);
                Err(Failed)
            }
            Some(0) => {
                self.closed = true;
                Ok(Got::Closed)
            }
            Some(width) => Ok(Got::Bytes(width)),
        }
    }

    fn write(&mut self, piece: &[u8]) -> Result<usize, Failed> {
        self.written = self.written.saturating_add(piece.len());
        Ok(piece.len())
    }

    fn shut(&mut self) {
        self.is_shut = true;
    }
}

/// HELLO, FEATURES_REPLY of switch 1, and a packet from host 1 to host 2.
pub const STEPS: &[Step] = &[
    Step {
        written: 8,
        sent: &[1, 0, 0, 8, 0, 0, 0, 0],
    },
    Step {
        written: 16,
        sent: &[
            1, 6, 0, 32, 0, 0, 0, 2, 0, 0, 0, 0, 0, 0, 0, 1, 0, 0, 1, 0, 1, 0, 0, 0, 0, 0, 0, 0, 0,
            0, 15, 255,
        ],
    },
    Step {
        written: 100,
        sent: &[
            1, 10, 0, 32, 0, 0, 0, 0, 0, 0, 0, 5, 0, 14, 0, 1, 0, 0, 0, 0, 0, 0, 0, 2, 0, 0, 0, 0,
            0, 1, 8, 0,
        ],
    },
    Step {
        written: 204,
        sent: &[1, 0, 0, 8, 0, 0, 0, 0],
    },
];
