//! Why no more sessions begin.

/// Why no more links are asked for.
#[derive(Clone, Copy, Debug, PartialEq, Eq)]
pub enum Halt {
    /// There were as many sessions as there may be, or no more links come.
    Done,
    /// The listener failed.
    Fault,
    /// There was no memory for a further session.
    Memory,
}
