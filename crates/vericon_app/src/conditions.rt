//! `conditions [--strengthen N] [--instances N] PROGRAM`: what has to be decided of a program, and which of it can be.
ghost use Rattle.std.specs.Prelude.{◌≡◌, ◌≤◌, [], ◌∷◌, IfOk};
ghost use Rattle.csdn_conditions.specs.Classes.{greatest_size};
ghost use Rattle.file_loads.specs.declared.read.FileKind.TheVariants.{Program as ProgramFile};
ghost use Rattle.file_loads.specs.Status.{code_of};
ghost use Rattle.file_loads.specs.Views.{OnlyReads, change_of};
ghost use Rattle.file_loads.specs.Explained.{IsExplained};
ghost use Rattle.vericon_app.specs.Conditions.{ClassesOutput, ConditionsOutput};

use condition_listing::list_conditions;
use csdn_core::program::Program;
use file_loads::load::load_program;
use file_loads::outcome::{Outcome, Status};
use file_loads::read::Load;
use std::alloc::{AllocError, Global};
use vericon_edge::files::Files;

/// The classes of a program's conditions by a size, at a level.
fn class_lines(
    alloc: Global,
    program: &Program,
    size: u64,
    level: u8,
) -> Result<Outcome, AllocError>
    requires size { size ≤ greatest_size }
    requires level { level ≤ 9 }
    ensures { IfOk result (λ outcome. ClassesOutput size level program.now outcome.text.items (code_of outcome.status)) }
{
    let text = list_conditions(alloc, program, size, level)?;
    Ok(Outcome {
        text,
        status: Status::Done,
    })
}

/// What `conditions` says of a program by a size, at a level (docs/COMMANDS.md, "conditions"). It reads at most once.
pub fn conditions<F: Files>(
    alloc: Global,
    files: &mut F,
    name: &str,
    size: u64,
    level: u8,
) -> Result<Outcome, AllocError>
    requires size { size ≤ greatest_size }
    requires level { level ≤ 9 }
    ensures output { IfOk result (λ outcome. IsExplained (change_of F.told F.read_calls F.write_calls F.read_faults F.write_faults files.old files.new) (record { kind = ProgramFile; name = name.now } ∷ []) (ConditionsOutput size level name.now) outcome.text.items (code_of outcome.status)) }
    ensures reads { OnlyReads 1 (change_of F.told F.read_calls F.write_calls F.read_faults F.write_faults files.old files.new) }
{
    match load_program(alloc, files, name)? {
        Load::Loaded(program) => class_lines(alloc, &program, size, level),
        Load::Refused(outcome) => Ok(outcome),
    }
}
