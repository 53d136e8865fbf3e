//! `frames FILE`: what OpenFlow messages a file holds.
ghost use Rattle.std.specs.Prelude.{◌≡◌, [], ◌∷◌, IfOk};
ghost use Rattle.file_loads.specs.declared.read.FileKind.TheVariants.{Frames as FramesFile};
ghost use Rattle.file_loads.specs.Status.{code_of};
ghost use Rattle.file_loads.specs.Views.{OnlyReads, change_of};
ghost use Rattle.file_loads.specs.Explained.{IsExplained};
ghost use Rattle.vericon_app.specs.Frames.{ListingOutput, FramesOutput};

use file_loads::outcome::{Outcome, Status};
use file_loads::read::{FileKind, Load, read_file};
use of10_listing::list_frames;
use std::alloc::{AllocError, Global};
use vericon_edge::files::Files;

/// Lists the messages that bytes are.
fn list_bytes(alloc: Global, bytes: &[u8]) -> Result<Outcome, AllocError>
    ensures { IfOk result (λ outcome. ListingOutput bytes.now outcome.text.items (code_of outcome.status)) }
{
    let listing = list_frames(alloc, bytes)?;
    let status = if listing.is_whole {
        Status::Done
    } else {
        Status::Refused
    };
    Ok(Outcome {
        text: listing.text,
        status,
    })
}

/// What `frames` says of a file (docs/COMMANDS.md, "frames"). It reads at most once.
pub fn frames<F: Files>(alloc: Global, files: &mut F, name: &str) -> Result<Outcome, AllocError>
    ensures output { IfOk result (λ outcome. IsExplained (change_of F.told F.read_calls F.write_calls F.read_faults F.write_faults files.old files.new) (record { kind = FramesFile; name = name.now } ∷ []) (FramesOutput name.now) outcome.text.items (code_of outcome.status)) }
    ensures reads { OnlyReads 1 (change_of F.told F.read_calls F.write_calls F.read_faults F.write_faults files.old files.new) }
{
    match read_file(alloc, files, FileKind::Frames, name)? {
        Load::Loaded(bytes) => list_bytes(alloc, &bytes),
        Load::Refused(outcome) => Ok(outcome),
    }
}
