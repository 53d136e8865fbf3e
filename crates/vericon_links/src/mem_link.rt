//! A link in memory.
ghost use Rattle.std.specs.Prelude.{◌≡◌, ◌<◌, ◌≤◌, length, take};

use crate::link::{Got, Link};
use std::alloc::Global;
use vericon_edge::fault::Failed;
use vericon_edge::fault_plan::FaultPlan;

/// What a link in memory is to do.
#[derive(Drop)]
pub struct LinkScript {
    /// All bytes that it gives; then it is closed.
    gives: Vec<u8>,
    /// How many bytes a read gives at most.
    most_read: usize,
    /// How many bytes a write takes at most.
    most_written: usize,
    reads: FaultPlan,
    writes: FaultPlan,
    ghost gives_some: { 0 < most_read },
    ghost takes_some: { 0 < most_written },
}

impl LinkScript {
    /// Gives these bytes, at most `most_read` a read, and takes at most `most_written` a write. The reads and the writes that the plans
    /// list fail.
    pub fn new(
        gives: Vec<u8>,
        most_read: usize,
        most_written: usize,
        reads: FaultPlan,
        writes: FaultPlan,
    ) -> LinkScript
        requires gives_some { 0 < most_read }
        requires takes_some { 0 < most_written }
        ensures gives { result.gives ≡ gives }
        ensures most_read { result.most_read ≡ most_read }
        ensures most_written { result.most_written ≡ most_written }
        ensures reads { result.reads ≡ reads }
        ensures writes { result.writes ≡ writes }
    {
        LinkScript {
            gives,
            most_read,
            most_written,
            reads,
            writes,
        }
    }
}

/// A link in memory. It tells all bytes taken from it and written to it.
#[derive(Drop)]
pub struct MemLink {
    script: LinkScript,
    /// How many of the bytes that it gives were taken.
    taken: usize,
    written: Vec<u8>,
    closed: bool,
    is_shut: bool,
    read_faults: u64,
    write_faults: u64,
    ghost within: { taken ≤ length script.gives.items },
}

impl MemLink {
    ghost use Rattle.std.specs.Prelude.{Some};
    ghost use Rattle.vericon_links.specs.Links.{IsUnused};
    ghost use Rattle.vericon_links.specs.MemLinks.{script_of, taken_of};

    /// A link that does what this script says. Nothing was taken or written.
    pub fn new(alloc: Global, script: LinkScript) -> MemLink
        ensures script { script_of result ≡ script }
        ensures unused { IsUnused (Some (taken_of result)) (Some result.written.items) result.closed result.is_shut result.read_faults result.write_faults }
    {
        MemLink {
            script,
            taken: 0,
            written: Vec::new(alloc),
            closed: false,
            is_shut: false,
            read_faults: 0,
            write_faults: 0,
        }
    }

    /// All bytes written.
    pub fn written(&self) -> &[u8]
        ensures { result.now ≡ self.now.written.items }
    {
        self.written.as_slice()
    }

    /// How many bytes were taken.
    pub fn taken(&self) -> usize
        ensures { result ≡ length (taken_of self.now) }
    {
        self.taken
    }

    /// Whether a read has found no more bytes.
    pub fn is_closed(&self) -> bool
        ensures { result ≡ self.now.closed }
    {
        self.closed
    }

    /// Whether the link was shut.
    pub fn is_shut(&self) -> bool
        ensures { result ≡ self.now.is_shut }
    {
        self.is_shut
    }
}

/// Copies the first bytes of what is left to the front of the slice.
fn copy_front(into: &mut [u8], left: &[u8], width: usize)
    requires room { width ≤ length into.old }
    requires there { width ≤ length left.now }
    ensures front { take width into.new ≡ take width left.now }
    ensures len { length into.new ≡ length into.old }
{
    into[..width].copy_from_slice(&left[..width]);
}

impl Link for MemLink {
    ghost use Rattle.std.specs.Prelude.{Some, ◌↔◌, IsErr, OnOk};
    ghost use Rattle.vericon_edge.specs.Written.{WriteAnswers};
    ghost use Rattle.vericon_links.specs.Links.{ReadAnswers};
    ghost use Rattle.vericon_links.specs.MemLinks.{taken_of, next_width, ReadFails, WriteFails, Gives};

    ghost taken = { λ m. Some (taken_of m) };

    ghost written = { λ m. Some m.written.items };

    ghost closed = { λ m. m.closed };

    ghost is_shut = { λ m. m.is_shut };

    ghost read_faults = { λ m. m.read_faults };

    ghost write_faults = { λ m. m.write_faults };

    /// A read fails exactly where it is planned or the link is shut, and else gives as many bytes as there are and may be given.
    fn read(&mut self, into: &mut [u8]) -> Result<Got, Failed>
        requires { 0 < length into.old }
        ensures answer { ReadAnswers (Some (taken_of self.old)) (Some (taken_of self.new)) into.new self.old.closed self.new.closed self.old.read_faults self.new.read_faults result }
        ensures later { self.old.read_faults ≤ self.new.read_faults }
        ensures written { Some self.new.written.items ≡ Some self.old.written.items }
        ensures write_faults { self.new.write_faults ≡ self.old.write_faults }
        ensures is_shut { self.new.is_shut ≡ self.old.is_shut }
        ensures planned { IsErr result ↔ ReadFails self.old }
        ensures gives { Gives (next_width self.old (length into.old)) result }
    {
        if self.script.reads.count_call() || self.is_shut {
            self.read_faults = self.read_faults.saturating_add(1);
            return Err(Failed);
        }
        let left = &self.script.gives[self.taken..];
        let width = left.len().min(into.len()).min(self.script.most_read);
        if width == 0 {
            self.closed = true;
            return Ok(Got::Closed);
        }
        copy_front(into, left, width);
        self.taken += width;
        Ok(Got::Bytes(width))
    }

    /// A write that finds no memory fails, too.
    fn write(&mut self, piece: &[u8]) -> Result<usize, Failed>
        ensures answer { WriteAnswers (Some self.old.written.items) (Some self.new.written.items) piece.now self.old.write_faults self.new.write_faults result }
        ensures later { self.old.write_faults ≤ self.new.write_faults }
        ensures taken { Some (taken_of self.new) ≡ Some (taken_of self.old) }
        ensures read_faults { self.new.read_faults ≡ self.old.read_faults }
        ensures closed { self.new.closed ≡ self.old.closed }
        ensures is_shut { self.new.is_shut ≡ self.old.is_shut }
        ensures unplanned { OnOk result (WriteFails self.old → ⊥) }
    {
        let width = piece.len().min(self.script.most_written);
        let fails = self.script.writes.count_call() || self.is_shut;
        if fails || self.written.extend_from_slice(&piece[..width]).is_err() {
            self.write_faults = self.write_faults.saturating_add(1);
            return Err(Failed);
        }
        Ok(width)
    }

    fn shut(&mut self) {
        self.is_shut = true;
    }
}
