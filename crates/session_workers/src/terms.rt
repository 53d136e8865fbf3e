//! How much is served.
ghost use Rattle.std.specs.Prelude.{◌^◌, ◌<◌, ◌≤◌};

/// How many workers there are, how many sessions they serve together at most, and of how many bytes each.
#[derive(Clone, Copy)]
pub struct Terms {
    pub workers: u32,
    pub sessions: u32,
    pub most: u64,
    ghost some_worker: { 0 < workers },
    ghost few_workers: { workers ≤ 64 },
    ghost few_sessions: { sessions ≤ 2 ^ 20 },
    ghost some_byte: { 0 < most },
    ghost few_bytes: { most ≤ 2 ^ 39 },
}
