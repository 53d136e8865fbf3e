//! How the listener stands.

/// Whether a further link may come.
#[derive(Clone, Copy, Debug, PartialEq, Eq)]
pub enum Door {
    Open,
    /// No more come.
    Closed,
    /// The listener failed.
    Broken,
}
