//! `trace PROGRAM NET JOURNAL`: what a journal's notes lead to.
ghost use Rattle.std.specs.Prelude.{◌≡◌, [], ◌∷◌, IfOk};
ghost use Rattle.file_loads.specs.declared.read.FileKind.TheVariants.{Program as ProgramFile, Network as NetworkFile, Journal as JournalFile};
ghost use Rattle.file_loads.specs.Status.{code_of};
ghost use Rattle.file_loads.specs.Views.{OnlyReads, change_of};
ghost use Rattle.file_loads.specs.Explained.{IsExplained};
ghost use Rattle.file_loads.specs.Outputs.{Then};
ghost use Rattle.file_loads.specs.Loads.{WithCase, WithNotes};
ghost use Rattle.vericon_app.specs.Trace.{NotesOutput, TraceOutput, status_of as status_number};

use csdn_core::program::Program;
use file_loads::load::{load_case, load_notes, load_program};
use file_loads::outcome::{Outcome, Status};
use file_loads::read::Load;
use journal_text::Note;
use net_structs::case::Case;
use std::alloc::{AllocError, Global};
use trace_listing::{Ending, list_trace};
use vericon_edge::files::Files;

fn status_of(ending: Ending) -> Status
    ensures { code_of result ≡ status_number ending }
{
    match ending {
        Ending::Unbroken => Status::Done,
        Ending::Broken => Status::Broken,
        Ending::Stopped => Status::Refused,
    }
}

/// The trace of notes in a case.
fn trace_notes(
    alloc: Global,
    program: &Program,
    case: Case,
    notes: &[Note],
) -> Result<Outcome, AllocError>
    ensures { IfOk result (λ outcome. NotesOutput program.now case notes.now outcome.text.items (code_of outcome.status)) }
{
    let trace = list_trace(alloc, program, case, notes)?;
    Ok(Outcome {
        text: trace.text,
        status: status_of(trace.ending),
    })
}

/// What is said of a program, a case and the file of a journal.
fn trace_case<F: Files>(
    alloc: Global,
    files: &mut F,
    journal: &str,
    program: &Program,
    case: Case,
) -> Result<Outcome, AllocError>
    ensures output { IfOk result (λ outcome. IsExplained (change_of F.told F.read_calls F.write_calls F.read_faults F.write_faults files.old files.new) (record { kind = JournalFile; name = journal.now } ∷ []) (WithNotes journal.now (λ notes. Then (NotesOutput program.now case notes))) outcome.text.items (code_of outcome.status)) }
    ensures reads { OnlyReads 1 (change_of F.told F.read_calls F.write_calls F.read_faults F.write_faults files.old files.new) }
{
    match load_notes(alloc, files, journal)? {
        Load::Loaded(notes) => trace_notes(alloc, program, case, notes.as_slice()),
        Load::Refused(outcome) => Ok(outcome),
    }
}

/// What is said of a program, and the files of a network and a journal.
fn trace_program<F: Files>(
    alloc: Global,
    files: &mut F,
    net: &str,
    journal: &str,
    program: &Program,
) -> Result<Outcome, AllocError>
    ensures output { IfOk result (λ outcome. IsExplained (change_of F.told F.read_calls F.write_calls F.read_faults F.write_faults files.old files.new) (record { kind = NetworkFile; name = net.now } ∷ record { kind = JournalFile; name = journal.now } ∷ []) (WithCase program.now net.now (λ kase. WithNotes journal.now (λ notes. Then (NotesOutput program.now kase notes)))) outcome.text.items (code_of outcome.status)) }
    ensures reads { OnlyReads 2 (change_of F.told F.read_calls F.write_calls F.read_faults F.write_faults files.old files.new) }
{
    match load_case(alloc, files, program, net)? {
        Load::Loaded(case) => trace_case(alloc, files, journal, program, case),
        Load::Refused(outcome) => Ok(outcome),
    }
}

/// What `trace` says of a program, a network and a journal (docs/COMMANDS.md, "trace"). It reads each file at most
/// once.
pub fn trace<F: Files>(
    alloc: Global,
    files: &mut F,
    name: &str,
    net: &str,
    journal: &str,
) -> Result<Outcome, AllocError>
    ensures output { IfOk result (λ outcome. IsExplained (change_of F.told F.read_calls F.write_calls F.read_faults F.write_faults files.old files.new) (record { kind = ProgramFile; name = name.now } ∷ record { kind = NetworkFile; name = net.now } ∷ record { kind = JournalFile; name = journal.now } ∷ []) (TraceOutput name.now net.now journal.now) outcome.text.items (code_of outcome.status)) }
    ensures reads { OnlyReads 3 (change_of F.told F.read_calls F.write_calls F.read_faults F.write_faults files.old files.new) }
{
    match load_program(alloc, files, name)? {
        Load::Loaded(program) => trace_program(alloc, files, net, journal, &program),
        Load::Refused(outcome) => Ok(outcome),
    }
}
