//! A sink in memory.
ghost use Rattle.std.specs.Prelude.{◌≡◌, ◌<◌, ◌≤◌, false, Some, [], OnOk};
ghost use Rattle.std.specs.Result.{is_err};

use crate::fault::Failed;
use crate::fault_plan::FaultPlan;
use crate::sink::Sink;
use std::alloc::Global;

/// A sink in memory. It tells all bytes written.
#[derive(Drop)]
pub struct MemSink {
    bytes: Vec<u8>,
    /// How many bytes a call takes at most.
    most: usize,
    writes: FaultPlan,
    faults: u64,
    has_failed: bool,
    ghost takes_some: { 0 < most },
}

impl MemSink {
    /// Nothing is written. A call takes `most` bytes at most, and the calls that the plan lists fail.
    pub fn new(alloc: Global, most: usize, writes: FaultPlan) -> MemSink
        requires { 0 < most }
        ensures bytes { result.bytes.items ≡ [] }
        ensures most { result.most ≡ most }
        ensures writes { result.writes ≡ writes }
        ensures faults { result.faults ≡ 0 }
        ensures has_failed { result.has_failed ≡ false }
    {
        MemSink {
            bytes: Vec::new(alloc),
            most,
            writes,
            faults: 0,
            has_failed: false,
        }
    }

    /// All bytes written.
    pub fn bytes(&self) -> &[u8]
        ensures { result.now ≡ self.now.bytes.items }
    {
        self.bytes.as_slice()
    }
}

impl Sink for MemSink {
    ghost use Rattle.vericon_edge.specs.FaultPlan.{IsNextDue};
    ghost use Rattle.vericon_edge.specs.Written.{WriteAnswers};

    ghost written = { λ s. Some s.bytes.items };

    ghost faults = { λ s. s.faults };

    ghost has_failed = { λ s. s.has_failed };

    /// A write that finds no memory fails, too.
    fn write(&mut self, piece: &[u8]) -> Result<usize, Failed>
        requires { self.old.has_failed ≡ false }
        ensures answer { WriteAnswers (Some self.old.bytes.items) (Some self.new.bytes.items) piece.now self.old.faults self.new.faults result }
        ensures later { self.old.faults ≤ self.new.faults }
        ensures failed { self.new.has_failed ≡ is_err result }
        ensures unplanned { OnOk result (IsNextDue self.old.writes → ⊥) }
    {
        let taken = piece.len().min(self.most);
        let fails = self.writes.count_call();
        if fails || self.bytes.extend_from_slice(&piece[..taken]).is_err() {
            self.faults = self.faults.saturating_add(1);
            self.has_failed = true;
            return Err(Failed);
        }
        Ok(taken)
    }
}

#[cfg(test)]
mod tests {
    use super::*;
    use crate::sink::write_piece;
    use std::test::Fail;

    #[test]
    fn a_planned_fault_cuts_the_piece(rt: HostRuntime) -> Result<(), Fail> {
        let alloc = rt.alloc();
        let mut sink = MemSink::new(alloc, 3, FaultPlan::new(vec![in alloc; 4]?));
        assert_eq!(rt; write_piece(&mut sink, b"usage\n"), Ok(()));
        assert_eq!(rt; sink.bytes(), b"usage\n".as_slice());
        assert_eq!(rt; write_piece(&mut sink, b"no network\n"), Err(Failed));
        assert_eq!(rt; sink.bytes(), b"usage\nno net".as_slice());
        Ok(())
    }
}
