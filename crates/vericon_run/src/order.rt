//! What a run is to do.
ghost use Rattle.std.specs.Prelude.{◌≤◌};
ghost use Rattle.csdn_conditions.specs.Classes.{greatest_size};

use session_workers::Terms;

/// The size by which conditions are decided, the highest level that is tried, how many entries the history has at most, how much is served,
/// and the port that is listened on.
#[derive(Clone, Copy)]
pub struct Order {
    pub size: u64,
    pub most: u8,
    pub room: u32,
    pub terms: Terms,
    pub port: u16,
    ghost small: { size ≤ greatest_size },
    ghost low: { most ≤ 9 },
    ghost some_room: { 1 ≤ room },
    ghost few_entries: { room ≤ 4194304 },
}
