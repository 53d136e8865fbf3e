//! Which calls of an object in memory are to fail.
ghost use Rattle.std.specs.Prelude.{◌≡◌, ◌↔◌, [], Contains, IsTrue};
ghost use Rattle.vericon_edge.specs.Counts.{counted};

use std::alloc::Global;

/// The numbers of the calls that are to fail, where the first call has number 0.
#[derive(Drop)]
pub struct FaultPlan {
    pub failing: Vec<u64>,
    /// How many calls there were.
    pub calls: u64,
}

impl FaultPlan {
    /// No call fails.
    pub fn none(alloc: Global) -> FaultPlan
        ensures failing { result.failing.items ≡ [] }
        ensures calls { result.calls ≡ 0 }
    {
        FaultPlan::new(Vec::new(alloc))
    }

    /// The calls with these numbers fail.
    pub fn new(failing: Vec<u64>) -> FaultPlan
        ensures failing { result.failing ≡ failing }
        ensures calls { result.calls ≡ 0 }
    {
        FaultPlan { failing, calls: 0 }
    }

    /// Counts a call, and says whether it is to fail.
    pub fn count_call(&mut self) -> bool
        ensures due { IsTrue result ↔ Contains self.old.failing.items self.old.calls }
        ensures failing { self.new.failing ≡ self.old.failing }
        ensures calls { self.new.calls ≡ counted self.old.calls }
    {
        let call = self.calls;
        self.calls = call.saturating_add(1);
        self.failing.contains(&call)
    }
}
