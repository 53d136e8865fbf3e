//! `replay PROGRAM NET JOURNAL SESSION STREAM`: what was sent to one session of a journal.
ghost use Rattle.std.specs.Prelude.{◌≡◌, [], ◌∷◌, None, IfOk};
ghost use Rattle.csdn_core.specs.Network.{IsNetwork};
ghost use Rattle.net_structs.specs.Networks.{IsServable};
ghost use Rattle.file_loads.specs.declared.read.FileKind.TheVariants.{Program as ProgramFile, Network as NetworkFile, Journal as JournalFile, Frames as StreamFile};
ghost use Rattle.file_loads.specs.Status.{code_of};
ghost use Rattle.file_loads.specs.Views.{OnlyReads, change_of};
ghost use Rattle.file_loads.specs.Explained.{IsExplained};
ghost use Rattle.file_loads.specs.Outputs.{Then};
ghost use Rattle.file_loads.specs.Lines.{Says};
ghost use Rattle.file_loads.specs.Loads.{WithBytes, WithNotes};
ghost use Rattle.file_loads.specs.Networks.{WithNetwork};
ghost use Rattle.replay_listing.specs.Refusals.{first_refused as first_refused_in, refused_text};
ghost use Rattle.vericon_app.specs.Replay.{EntriesOutput, ReplayOutput, StreamOutput, status_of as status_number};

use csdn_core::program::Program;
use file_loads::load::{load_notes, load_program};
use file_loads::networks::load_network;
use file_loads::outcome::{Outcome, Status};
use file_loads::read::{FileKind, Load, read_file};
use journal_text::Note;
use net_facts::texts_give_cases;
use net_structs::network::Network;
use replay_listing::{Ending, Refused, first_refused, list_refused, list_replay};
use std::alloc::{AllocError, Global};
use vericon_edge::files::Files;

fn status_of(ending: Ending) -> Status
    ensures { code_of result ≡ status_number ending }
{
    match ending {
        Ending::Closed => Status::Done,
        Ending::Ended | Ending::Differs => Status::Refused,
    }
}

/// What a session of notes says to these bytes.
fn replay_bytes(
    alloc: Global,
    program: Program,
    network: Network,
    notes: &[Note],
    session: u32,
    bytes: &[u8],
) -> Result<Outcome, AllocError>
    requires of_program { IsNetwork program network }
    requires servable { IsServable network }
    requires entered { first_refused_in program network 1 0 notes.now ≡ None }
    ensures { IfOk result (λ outcome. StreamOutput program network notes.now session bytes.now outcome.text.items (code_of outcome.status)) }
{
    let replay = list_replay(alloc, program, network, notes, session, bytes)?;
    Ok(Outcome {
        text: replay.text,
        status: status_of(replay.ending),
    })
}

/// What a session of notes says to the bytes of a file.
fn replay_stream<F: Files>(
    alloc: Global,
    files: &mut F,
    program: Program,
    network: Network,
    notes: &[Note],
    session: u32,
    stream: &str,
) -> Result<Outcome, AllocError>
    requires of_program { IsNetwork program network }
    requires servable { IsServable network }
    requires entered { first_refused_in program network 1 0 notes.now ≡ None }
    ensures output { IfOk result (λ outcome. IsExplained (change_of F.told F.read_calls F.write_calls F.read_faults F.write_faults files.old files.new) (record { kind = StreamFile; name = stream.now } ∷ []) (WithBytes StreamFile stream.now (λ bytes. Then (StreamOutput program network notes.now session bytes))) outcome.text.items (code_of outcome.status)) }
    ensures reads { OnlyReads 1 (change_of F.told F.read_calls F.write_calls F.read_faults F.write_faults files.old files.new) }
{
    match read_file(alloc, files, FileKind::Frames, stream)? {
        Load::Loaded(bytes) => replay_bytes(alloc, program, network, notes, session, &bytes),
        Load::Refused(outcome) => Ok(outcome),
    }
}

/// `entry J: WHY`
fn refuse(alloc: Global, refused: Refused) -> Result<Outcome, AllocError>
    ensures { IfOk result (Says (refused_text refused) 3) }
{
    let text = list_refused(alloc, refused)?;
    Ok(Outcome {
        text,
        status: Status::Refused,
    })
}

/// What is said of notes and the file of a stream. Where a note can't be entered, no stream is read.
fn replay_notes<F: Files>(
    alloc: Global,
    files: &mut F,
    program: Program,
    network: Network,
    notes: &[Note],
    session: u32,
    stream: &str,
) -> Result<Outcome, AllocError>
    requires of_program { IsNetwork program network }
    requires servable { IsServable network }
    ensures output { IfOk result (λ outcome. IsExplained (change_of F.told F.read_calls F.write_calls F.read_faults F.write_faults files.old files.new) (record { kind = StreamFile; name = stream.now } ∷ []) (EntriesOutput program network session stream.now notes.now) outcome.text.items (code_of outcome.status)) }
    ensures reads { OnlyReads 1 (change_of F.told F.read_calls F.write_calls F.read_faults F.write_faults files.old files.new) }
{
    match first_refused(&program, &network, notes) {
        Some(refused) => refuse(alloc, refused),
        None => replay_stream(alloc, files, program, network, notes, session, stream),
    }
}

/// What is said of a program and a network, and the files of a journal and a stream.
fn replay_network<F: Files>(
    alloc: Global,
    files: &mut F,
    program: Program,
    network: Network,
    journal: &str,
    session: u32,
    stream: &str,
) -> Result<Outcome, AllocError>
    requires of_program { IsNetwork program network }
    requires servable { IsServable network }
    ensures output { IfOk result (λ outcome. IsExplained (change_of F.told F.read_calls F.write_calls F.read_faults F.write_faults files.old files.new) (record { kind = JournalFile; name = journal.now } ∷ record { kind = StreamFile; name = stream.now } ∷ []) (WithNotes journal.now (EntriesOutput program network session stream.now)) outcome.text.items (code_of outcome.status)) }
    ensures reads { OnlyReads 2 (change_of F.told F.read_calls F.write_calls F.read_faults F.write_faults files.old files.new) }
{
    match load_notes(alloc, files, journal)? {
        Load::Loaded(notes) => replay_notes(
            alloc,
            files,
            program,
            network,
            notes.as_slice(),
            session,
            stream,
        ),
        Load::Refused(outcome) => Ok(outcome),
    }
}

/// What is said of a program, and the files of a network, a journal and a stream.
fn replay_program<F: Files>(
    alloc: Global,
    files: &mut F,
    program: Program,
    net: &str,
    journal: &str,
    session: u32,
    stream: &str,
) -> Result<Outcome, AllocError>
    ensures output { IfOk result (λ outcome. IsExplained (change_of F.told F.read_calls F.write_calls F.read_faults F.write_faults files.old files.new) (record { kind = NetworkFile; name = net.now } ∷ record { kind = JournalFile; name = journal.now } ∷ record { kind = StreamFile; name = stream.now } ∷ []) (WithNetwork program net.now (λ N. WithNotes journal.now (EntriesOutput program N session stream.now))) outcome.text.items (code_of outcome.status)) }
    ensures reads { OnlyReads 3 (change_of F.told F.read_calls F.write_calls F.read_faults F.write_faults files.old files.new) }
{
    // Its contract says that what a text reads as is a network of the program.
    texts_give_cases();
    match load_network(alloc, files, &program, net)? {
        Load::Loaded(network) => replay_network(
            alloc, files, program, network, journal, session, stream,
        ),
        Load::Refused(outcome) => Ok(outcome),
    }
}

/// What `replay` says of a program, a network without a state, a journal, a session's number and the bytes of its
/// switch (docs/COMMANDS.md, "replay"). It reads each file at most once.
pub fn replay<F: Files>(
    alloc: Global,
    files: &mut F,
    name: &str,
    net: &str,
    journal: &str,
    session: u32,
    stream: &str,
) -> Result<Outcome, AllocError>
    ensures output { IfOk result (λ outcome. IsExplained (change_of F.told F.read_calls F.write_calls F.read_faults F.write_faults files.old files.new) (record { kind = ProgramFile; name = name.now } ∷ record { kind = NetworkFile; name = net.now } ∷ record { kind = JournalFile; name = journal.now } ∷ record { kind = StreamFile; name = stream.now } ∷ []) (ReplayOutput name.now net.now journal.now session stream.now) outcome.text.items (code_of outcome.status)) }
    ensures reads { OnlyReads 4 (change_of F.told F.read_calls F.write_calls F.read_faults F.write_faults files.old files.new) }
{
    match load_program(alloc, files, name)? {
        Load::Loaded(program) => replay_program(
            alloc, files, program, net, journal, session, stream,
        ),
        Load::Refused(outcome) => Ok(outcome),
    }
}
