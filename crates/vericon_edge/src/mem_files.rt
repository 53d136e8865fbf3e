//! Files in memory.
ghost use Rattle.std.specs.Prelude.{◌≡◌, ◌≤◌, ◌<◌, ◌∷◌, ◌↔◌, ℕ, List, MatchOption, OnOk, OnErr, IsErrOf, string_bytes};
ghost use Rattle.vericon_edge.specs.declared.fault_plan.FaultPlan.{FaultPlan};
ghost use Rattle.vericon_edge.specs.Counts.{counted};
ghost use Rattle.vericon_edge.specs.Told.{Told, absent};
ghost use Rattle.vericon_edge.specs.FileAnswers.{ReadAnswers, WriteAnswers};
ghost use Rattle.vericon_edge.specs.FaultPlan.{IsNextDue};
ghost use Rattle.vericon_edge.specs.MemFiles.{told_of, told_by, contents, read_plan, write_plan};

use crate::fault_plan::FaultPlan;
use crate::files::{FileFault, Files};
use std::alloc::{AllocError, Global};

/// What a name holds.
#[derive(Drop)]
enum Content {
    /// These bytes.
    Whole(Vec<u8>),
    /// What a failed write left: no bytes, of which nothing is told.
    Cut,
}

/// A name, and what it holds.
#[derive(Drop)]
struct MemFile {
    name: String,
    content: Content,
}

/// Files in memory. They tell all that they hold, save where a write failed.
#[derive(Drop)]
pub struct MemFiles {
    /// The newest first: a newer file hides an older one of its name.
    files: Vec<MemFile>,
    reads: FaultPlan,
    writes: FaultPlan,
    read_faults: u64,
    write_faults: u64,
}

/// What a name holds.
fn content_of<'a>(files: &'a [MemFile], name: &str) -> Option<&'a Content>
    ensures { MatchOption result (told_by files.now name.now ≡ absent) (λ content. told_by files.now name.now ≡ told_of content.now) }
{
    let mut rest = files;
    while let [file, others @ ..] = rest {
        if file.name.as_str() == name {
            return Some(&file.content);
        }
        rest = others;
    }
    None
}

impl MemFiles {
    /// No files. The reads and the writes that these plans list fail.
    pub fn new(alloc: Global, reads: FaultPlan, writes: FaultPlan) -> MemFiles
        ensures contents { (name : List ℕ) → contents result name ≡ absent }
        ensures reads { read_plan result ≡ reads }
        ensures writes { write_plan result ≡ writes }
    {
        MemFiles {
            files: Vec::new(alloc),
            reads,
            writes,
            read_faults: 0,
            write_faults: 0,
        }
    }

    /// Makes a name hold this content.
    fn put(&mut self, alloc: Global, name: &str, content: Content) -> Result<(), AllocError>
        ensures ok { OnOk result (contents self.new name.now ≡ told_of content) }
        ensures others { (other : List ℕ) → (other ≡ name.now → ⊥) → contents self.new other ≡ contents self.old other }
        ensures err { OnErr result (contents self.new name.now ≡ contents self.old name.now) }
        ensures reads { self.new.read_faults ≡ self.old.read_faults }
        ensures writes { self.new.write_faults ≡ self.old.write_faults }
        ensures read_plan { read_plan self.new ≡ read_plan self.old }
        ensures write_plan { write_plan self.new ≡ write_plan self.old }
    {
        let name = String::from_str(alloc, name)?;
        self.files.insert(0, MemFile { name, content })?;
        Ok(())
    }
}

impl Files for MemFiles {
    ghost told = { contents };

    ghost read_calls = { λ m. m.reads.calls };

    ghost write_calls = { λ m. m.writes.calls };

    ghost read_faults = { λ m. m.read_faults };

    ghost write_faults = { λ m. m.write_faults };

    fn read_all(&mut self, alloc: Global, name: &str, most: usize) -> Result<Vec<u8>, FileFault>
        ensures answer { ReadAnswers (contents self.old name.now) most self.old.read_faults self.new.read_faults result }
        ensures told { contents self.new ≡ contents self.old }
        ensures later { self.old.read_faults ≤ self.new.read_faults }
        ensures writes { self.new.write_faults ≡ self.old.write_faults }
        ensures one_read { self.new.reads.calls ≡ counted self.old.reads.calls }
        ensures no_write { self.new.writes.calls ≡ self.old.writes.calls }
        // exactly the planned reads fail
        ensures planned { IsErrOf result FileFault.Failed ↔ IsNextDue (read_plan self.old) }
    {
        if self.reads.count_call() {
            self.read_faults = self.read_faults.saturating_add(1);
            return Err(FileFault::Failed);
        }
        match content_of(self.files.as_slice(), name) {
            None => Err(FileFault::Missing),
            Some(Content::Cut) => Ok(Vec::new(alloc)),
            Some(Content::Whole(bytes)) if bytes.len() > most => Err(FileFault::TooLong),
            Some(Content::Whole(bytes)) => match bytes.as_slice().to_vec(alloc) {
                Ok(copy) => Ok(copy),
                Err(_) => Err(FileFault::Memory),
            },
        }
    }

    fn write_all(&mut self, alloc: Global, name: &str, bytes: &[u8]) -> Result<(), FileFault>
        ensures answer { WriteAnswers (contents self.old name.now) (contents self.new name.now) bytes.now self.old.write_faults self.new.write_faults result }
        ensures others { (other : List ℕ) → (other ≡ name.now → ⊥) → contents self.new other ≡ contents self.old other }
        ensures later { self.old.write_faults ≤ self.new.write_faults }
        ensures reads { self.new.read_faults ≡ self.old.read_faults }
        ensures one_write { self.new.writes.calls ≡ counted self.old.writes.calls }
        ensures no_read { self.new.reads.calls ≡ self.old.reads.calls }
        // none but the planned writes fail
        ensures planned { IsErrOf result FileFault.Failed → IsNextDue (write_plan self.old) }
        ensures unplanned { OnOk result (IsNextDue (write_plan self.old) → ⊥) }
    {
        if self.writes.count_call() {
            if self.put(alloc, name, Content::Cut).is_err() {
                return Err(FileFault::Memory);
            }
            self.write_faults = self.write_faults.saturating_add(1);
            return Err(FileFault::Failed);
        }
        let Ok(copy) = bytes.to_vec(alloc) else {
            return Err(FileFault::Memory);
        };
        match self.put(alloc, name, Content::Whole(copy)) {
            Ok(()) => Ok(()),
            Err(_) => Err(FileFault::Memory),
        }
    }
}

#[cfg(test)]
mod tests {
    use super::*;
    use std::test::Fail;

    #[test]
    fn planned_calls_fail_and_others_answer(rt: HostRuntime) -> Result<(), Fail> {
        let alloc = rt.alloc();
        let reads = FaultPlan::new(vec![in alloc; 1]?);
        let writes = FaultPlan::new(vec![in alloc; 2]?);
        let mut files = MemFiles::new(alloc, reads, writes);
        assert_eq!(rt; files.read_all(alloc, "p", 3), Err(FileFault::Missing));
        files.write_all(alloc, "p", b"abc")?;
        assert_eq!(rt; files.read_all(alloc, "p", 3), Err(FileFault::Failed));
        assert_eq!(rt;
            files.read_all(alloc, "p", 3)?.as_slice(),
            b"abc".as_slice()
        );
        assert_eq!(rt; files.read_all(alloc, "p", 2), Err(FileFault::TooLong));
        files.write_all(alloc, "p", b"de")?;
        assert_eq!(rt; files.read_all(alloc, "p", 2)?.as_slice(), b"de".as_slice());
        assert_eq!(rt; files.write_all(alloc, "p", b"f"), Err(FileFault::Failed));
        assert_eq!(rt; files.read_all(alloc, "p", 2)?.len(), 0);
        Ok(())
    }
}
