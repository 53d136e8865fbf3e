//! `clauses FILE`: whether the logs of a file are accepted, and answers to clauses without a log.
ghost use Rattle.std.specs.Prelude.{◌≡◌, [], ◌∷◌, IfOk, if◌then◌else◌};
ghost use Rattle.file_loads.specs.declared.read.FileKind.TheVariants.{Logs};
ghost use Rattle.file_loads.specs.Status.{code_of};
ghost use Rattle.file_loads.specs.Views.{OnlyReads, change_of};
ghost use Rattle.file_loads.specs.Explained.{IsExplained};
ghost use Rattle.vericon_app.specs.Clauses.{BlocksOutput, ClausesOutput};

use clause_listing::{Listing, list_clauses};
use file_loads::lines::refused_line;
use file_loads::outcome::{Outcome, Status};
use file_loads::read::{FileKind, Load, read_file};
use std::alloc::{AllocError, Global};
use text_lines::LineRefusal;
use vericon_edge::files::Files;

/// What is said of blocks.
fn listed(listing: Listing) -> Outcome
    ensures text { result.text.items ≡ listing.text.items }
    ensures status { code_of result.status ≡ (if listing.all_accepted then 0 else 1) }
{
    let status = if listing.all_accepted {
        Status::Done
    } else {
        Status::NotAccepted
    };
    Outcome {
        text: listing.text,
        status,
    }
}

/// Lists the blocks that bytes are.
fn list_blocks(alloc: Global, name: &str, bytes: &[u8]) -> Result<Outcome, AllocError>
    ensures { IfOk result (λ outcome. BlocksOutput name.now bytes.now outcome.text.items (code_of outcome.status)) }
{
    match list_clauses(alloc, bytes) {
        Ok(listing) => Ok(listed(listing)),
        Err(LineRefusal::Line { number, .. }) => refused_line(alloc, name, number),
        Err(LineRefusal::Memory) => Err(AllocError),
    }
}

/// What `clauses` says of a file (docs/COMMANDS.md, "clauses"). It reads at most once.
pub fn clauses<F: Files>(alloc: Global, files: &mut F, name: &str) -> Result<Outcome, AllocError>
    ensures output { IfOk result (λ outcome. IsExplained (change_of F.told F.read_calls F.write_calls F.read_faults F.write_faults files.old files.new) (record { kind = Logs; name = name.now } ∷ []) (ClausesOutput name.now) outcome.text.items (code_of outcome.status)) }
    ensures reads { OnlyReads 1 (change_of F.told F.read_calls F.write_calls F.read_faults F.write_faults files.old files.new) }
{
    match read_file(alloc, files, FileKind::Logs, name)? {
        Load::Loaded(bytes) => list_blocks(alloc, name, &bytes),
        Load::Refused(outcome) => Ok(outcome),
    }
}
