//! Files that are read as a program, a network or a journal.
ghost use Rattle.std.specs.Prelude.{◌≡◌, IfOk};
ghost use Rattle.file_loads.specs.declared.read.FileKind.TheVariants.{Program as ProgramFile, Network, Journal};
ghost use Rattle.csdn_read.specs.Programs.{Keeps, Spells};
ghost use Rattle.file_loads.specs.Lines.{Says};
ghost use Rattle.file_loads.specs.Views.{OnlyReads, change_of};
ghost use Rattle.file_loads.specs.Loads.{IsNotProgram, IsCase, IsNotCase, AreNotes, AreNotNotes};
ghost use Rattle.file_loads.specs.Gives.{Gives, Reads};
ghost use Rattle.net_listing.specs.Listings.{network_refusal_text};

use crate::lines::{refused, refused_line};
use crate::outcome::{Outcome, Status};
use crate::read::{FileKind, Load, read_file};
use csdn_core::program::Program;
use csdn_read::{ProgramRefusal, read_program, read_tree};
use csdn_tree::syntax::RawProgram;
use journal_text::{Notes, read_journal};
use net_listing::network_refusal_line;
use net_structs::case::Case;
use net_text::{NetWhy, read_net};
use std::alloc::{AllocError, Global};
use text_lines::LineRefusal;
use vericon_edge::files::Files;

// The program that bytes spell.
fn program_of(alloc: Global, name: &str, bytes: &[u8]) -> Result<Load<Program>, AllocError>
    ensures { IfOk result (Reads bytes.now Spells (IsNotProgram name.now)) }
{
    match read_program(alloc, bytes) {
        Ok(program) => Ok(Load::Loaded(program)),
        Err(ProgramRefusal::At { at, why }) => {
            let outcome = refused(alloc, name, at, why)?;
            Ok(Load::Refused(outcome))
        }
        Err(ProgramRefusal::Memory) => Err(AllocError),
    }
}

/// The program of a file, or what is said where there is none. It reads once; its time grows with the bytes.
pub fn load_program<F: Files>(
    alloc: Global,
    files: &mut F,
    name: &str,
) -> Result<Load<Program>, AllocError>
    ensures load { IfOk result (Gives (change_of F.told F.read_calls F.write_calls F.read_faults F.write_faults files.old files.new) ProgramFile name.now Spells (IsNotProgram name.now)) }
    ensures reads { OnlyReads 1 (change_of F.told F.read_calls F.write_calls F.read_faults F.write_faults files.old files.new) }
{
    match read_file(alloc, files, FileKind::Program, name)? {
        Load::Loaded(bytes) => program_of(alloc, name, &bytes),
        Load::Refused(outcome) => Ok(Load::Refused(outcome)),
    }
}

// The tree of the program that bytes spell.
fn tree_of(alloc: Global, name: &str, bytes: &[u8]) -> Result<Load<RawProgram>, AllocError>
    ensures { IfOk result (Reads bytes.now Keeps (IsNotProgram name.now)) }
{
    match read_tree(alloc, bytes) {
        Ok(tree) => Ok(Load::Loaded(tree)),
        Err(ProgramRefusal::At { at, why }) => {
            let outcome = refused(alloc, name, at, why)?;
            Ok(Load::Refused(outcome))
        }
        Err(ProgramRefusal::Memory) => Err(AllocError),
    }
}

/// The tree of a file's program, or what is said where there is none. It reads once; its time grows with the bytes.
pub fn load_tree<F: Files>(
    alloc: Global,
    files: &mut F,
    name: &str,
) -> Result<Load<RawProgram>, AllocError>
    ensures load { IfOk result (Gives (change_of F.told F.read_calls F.write_calls F.read_faults F.write_faults files.old files.new) ProgramFile name.now Keeps (IsNotProgram name.now)) }
    ensures reads { OnlyReads 1 (change_of F.told F.read_calls F.write_calls F.read_faults F.write_faults files.old files.new) }
{
    match read_file(alloc, files, FileKind::Program, name)? {
        Load::Loaded(bytes) => tree_of(alloc, name, &bytes),
        Load::Refused(outcome) => Ok(Load::Refused(outcome)),
    }
}

/// `NET refused line N: WHY`
fn bad_line(alloc: Global, net: &str, number: u64, why: NetWhy) -> Result<Outcome, AllocError>
    ensures { IfOk result (Says (network_refusal_text net.now number why) 3) }
{
    let text = network_refusal_line(alloc, net.as_bytes(), number, why)?;
    Ok(Outcome {
        text,
        status: Status::Refused,
    })
}

// The case that bytes are.
pub(crate) fn case_of(
    alloc: Global,
    program: &Program,
    name: &str,
    bytes: &[u8],
) -> Result<Load<Case>, AllocError>
    ensures { IfOk result (Reads bytes.now (IsCase program.now) (IsNotCase program.now name.now)) }
{
    match read_net(alloc, program, bytes) {
        Ok(case) => Ok(Load::Loaded(case)),
        Err(LineRefusal::Line { number, why }) => {
            let outcome = bad_line(alloc, name, number, why)?;
            Ok(Load::Refused(outcome))
        }
        Err(LineRefusal::Memory) => Err(AllocError),
    }
}

/// The case of a file: a network of the program, with its state and its packet; or what is said where there is none.
/// It reads once.
pub fn load_case<F: Files>(
    alloc: Global,
    files: &mut F,
    program: &Program,
    name: &str,
) -> Result<Load<Case>, AllocError>
    ensures load { IfOk result (Gives (change_of F.told F.read_calls F.write_calls F.read_faults F.write_faults files.old files.new) Network name.now (IsCase program.now) (IsNotCase program.now name.now)) }
    ensures reads { OnlyReads 1 (change_of F.told F.read_calls F.write_calls F.read_faults F.write_faults files.old files.new) }
{
    match read_file(alloc, files, FileKind::Network, name)? {
        Load::Loaded(bytes) => case_of(alloc, program, name, &bytes),
        Load::Refused(outcome) => Ok(Load::Refused(outcome)),
    }
}

// The notes that bytes are.
fn notes_of(alloc: Global, name: &str, bytes: &[u8]) -> Result<Load<Notes>, AllocError>
    ensures { IfOk result (Reads bytes.now AreNotes (AreNotNotes name.now)) }
{
    match read_journal(alloc, bytes) {
        Ok(notes) => Ok(Load::Loaded(notes)),
        Err(LineRefusal::Line { number, .. }) => {
            let outcome = refused_line(alloc, name, number)?;
            Ok(Load::Refused(outcome))
        }
        Err(LineRefusal::Memory) => Err(AllocError),
    }
}

/// The notes of a journal's file, or what is said where there are none. It reads once; its time grows with the bytes.
pub fn load_notes<F: Files>(
    alloc: Global,
    files: &mut F,
    name: &str,
) -> Result<Load<Notes>, AllocError>
    ensures load { IfOk result (Gives (change_of F.told F.read_calls F.write_calls F.read_faults F.write_faults files.old files.new) Journal name.now AreNotes (AreNotNotes name.now)) }
    ensures reads { OnlyReads 1 (change_of F.told F.read_calls F.write_calls F.read_faults F.write_faults files.old files.new) }
{
    match read_file(alloc, files, FileKind::Journal, name)? {
        Load::Loaded(bytes) => notes_of(alloc, name, &bytes),
        Load::Refused(outcome) => Ok(Load::Refused(outcome)),
    }
}
