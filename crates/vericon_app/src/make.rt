//! `make N FILE`: writes the text of a program of any size, and checks it.
ghost use Rattle.std.specs.Prelude.{◌≡◌, ◌++◌, [], IfOk, length};
ghost use Rattle.csdn_conditions.specs.Kinds.{kinds};
ghost use Rattle.file_loads.specs.Status.{code_of};
ghost use Rattle.file_loads.specs.Lines.{Says, refused_text};
ghost use Rattle.file_loads.specs.Views.{Touches, change_of};
ghost use Rattle.file_loads.specs.Explained.{IsExplained};
ghost use Rattle.vericon_app.specs.Make.{IsProgramLines, MadeOutput, MakeOutput, conditions_line, made_line};

use crate::check::verdict;
use csdn_conditions::class::USUAL_SIZE;
use csdn_conditions::kinds::condition_count;
use csdn_core::program::Program;
use csdn_read::{ProgramRefusal, ProgramWhy, read_program};
use file_loads::lines::refused;
use file_loads::outcome::Outcome;
use file_loads::write::write_before;
use made_program::text_of;
use std::alloc::{AllocError, Global};
use text_lines::{put_line_end, put_number, put_word};
use vericon_edge::files::Files;

/// `made N bytes B`
fn made(alloc: Global, count: u64, bytes: usize) -> Result<Vec<u8>, AllocError>
    ensures { IfOk result (λ text. text.items ≡ made_line count bytes) }
{
    let mut text = Vec::new(alloc);
    put_word(&mut text, b"made ")?;
    put_number(&mut text, count)?;
    put_word(&mut text, b" bytes ")?;
    put_number(&mut text, bytes as u64)?;
    put_line_end(&mut text)?;
    Ok(text)
}

/// `conditions C`
fn counted(alloc: Global, program: &Program) -> Result<Vec<u8>, AllocError>
    ensures { IfOk result (λ text. text.items ≡ conditions_line (length (kinds program.now 0))) }
{
    let mut text = Vec::new(alloc);
    put_word(&mut text, b"conditions ")?;
    put_number(&mut text, u64::from(condition_count(program, 0)))?;
    put_line_end(&mut text)?;
    Ok(text)
}

/// What is said of a text that spells this program: its length, how many conditions the program has, and what `check` says of it.
fn program_lines(
    alloc: Global,
    count: u64,
    bytes: usize,
    program: &Program,
) -> Result<Outcome, AllocError>
    ensures { IfOk result (λ outcome. IsProgramLines count bytes program.now outcome.text.items (code_of outcome.status)) }
{
    let said = verdict(alloc, program, USUAL_SIZE, 0)?;
    let conditions = counted(alloc, program)?;
    let mut text = made(alloc, count, bytes)?;
    put_word(&mut text, &conditions)?;
    put_word(&mut text, &said.text)?;
    Ok(Outcome {
        text,
        status: said.status,
    })
}

/// What is said of a text that spells none.
fn refused_lines(
    alloc: Global,
    count: u64,
    bytes: usize,
    name: &str,
    at: usize,
    why: ProgramWhy,
) -> Result<Outcome, AllocError>
    ensures { IfOk result (Says (made_line count bytes ++ refused_text name.now at why) 3) }
{
    let told = refused(alloc, name, at, why)?;
    let mut text = made(alloc, count, bytes)?;
    put_word(&mut text, &told.text)?;
    Ok(Outcome {
        text,
        status: told.status,
    })
}

/// What is said of a text of this count.
fn lines_of(alloc: Global, count: u64, name: &str, bytes: &[u8]) -> Result<Outcome, AllocError>
    ensures { IfOk result (λ outcome. MadeOutput count bytes.now name.now outcome.text.items (code_of outcome.status)) }
{
    match read_program(alloc, bytes) {
        Ok(program) => program_lines(alloc, count, bytes.len(), &program),
        Err(ProgramRefusal::At { at, why }) => {
            refused_lines(alloc, count, bytes.len(), name, at, why)
        }
        Err(ProgramRefusal::Memory) => Err(AllocError),
    }
}

/// Writes the made text of this count to a file, and says what it is (docs/COMMANDS.md, "make"). Nothing is said where
/// it was not written.
pub fn make<F: Files>(
    alloc: Global,
    files: &mut F,
    count: u64,
    name: &str,
) -> Result<Outcome, AllocError>
    ensures output { IfOk result (λ outcome. IsExplained (change_of F.told F.read_calls F.write_calls F.read_faults F.write_faults files.old files.new) [] (MakeOutput count name.now) outcome.text.items (code_of outcome.status)) }
    ensures touches { Touches 0 (Some name.now) (change_of F.told F.read_calls F.write_calls F.read_faults F.write_faults files.old files.new) }
{
    let text = text_of(alloc, count)?;
    let outcome = lines_of(alloc, count, name, &text)?;
    write_before(alloc, files, name, &text, outcome)
}
