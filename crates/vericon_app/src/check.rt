//! `check [--strengthen N] [--instances N] [--log FILE] PROGRAM`: whether a program holds its invariants.
ghost use Rattle.std.specs.Prelude.{◌≡◌, ◌≤◌, [], ◌∷◌, IfOk, drop, option_map};
ghost use Rattle.csdn_conditions.specs.Classes.{greatest_size};
ghost use Rattle.csdn_conditions.specs.Conditions.{conditions};
ghost use Rattle.vericon_decide.specs.Levels.{AreProofsOf, IsUnmet};
ghost use Rattle.vericon_decide.specs.Answers.{IsYes, IsCounter, IsUnknown};
ghost use Rattle.file_loads.specs.declared.read.FileKind.TheVariants.{Program as ProgramFile};
ghost use Rattle.file_loads.specs.Status.{code_of};
ghost use Rattle.file_loads.specs.Views.{Touches, change_of};
ghost use Rattle.file_loads.specs.Explained.{IsExplained};
ghost use Rattle.vericon_app.specs.Check.{IsYesLine, YesOutput, IsNotProven, IsFinding, ProgramOutput, CheckOutput};

use answer_listing::{counterexample_of, log_of, no_network_line, unproven_line, yes_line};
use csdn_core::program::Program;
use file_loads::load::load_program;
use file_loads::outcome::{Outcome, Status};
use file_loads::read::Load;
use file_loads::write::write_before;
use net_structs::case::Case;
use std::alloc::{AllocError, Global};
use vericon_decide::answer::{Answer, UnknownWhy, decide};
use vericon_decide::verdict::Proof;
use vericon_edge::files::Files;

/// `yes level LEVEL`
pub fn yes(alloc: Global, level: u8) -> Result<Outcome, AllocError>
    ensures { IfOk result (λ outcome. IsYesLine level outcome.text.items (code_of outcome.status)) }
{
    let text = yes_line(alloc, level)?;
    Ok(Outcome {
        text,
        status: Status::Done,
    })
}

/// `counterexample level N condition I KIND`, and the case.
fn say_broken(
    alloc: Global,
    program: &Program,
    size: u64,
    most: u8,
    level: u8,
    index: u32,
    case: &Case,
) -> Result<Outcome, AllocError>
    requires within { most ≤ 9 }
    requires broken { IsCounter program.now size most level index case.now }
    ensures { IfOk result (λ outcome. IsNotProven size most program.now outcome.text.items (code_of outcome.status)) }
{
    let text = counterexample_of(alloc, program, level, index, case)?;
    Ok(Outcome {
        text,
        status: Status::Counterexample,
    })
}

/// `unknown level N condition I KIND: WHY`
fn say_undecided(
    alloc: Global,
    program: &Program,
    size: u64,
    most: u8,
    level: u8,
    index: u32,
    why: UnknownWhy,
) -> Result<Outcome, AllocError>
    requires within { most ≤ 9 }
    requires unknown { IsUnknown program.now size most level index why }
    ensures { IfOk result (λ outcome. IsNotProven size most program.now outcome.text.items (code_of outcome.status)) }
{
    let text = unproven_line(alloc, program, level, index, why)?;
    Ok(Outcome {
        text,
        status: Status::Unknown,
    })
}

/// `no network`, by a proof that none meets the topology invariants.
fn say_unmet(
    alloc: Global,
    program: &Program,
    size: u64,
    most: u8,
    proof: &Proof,
) -> Result<Outcome, AllocError>
    requires { IsUnmet program.now size proof.now }
    ensures { IfOk result (λ outcome. IsNotProven size most program.now outcome.text.items (code_of outcome.status)) }
{
    let text = no_network_line(alloc)?;
    Ok(Outcome {
        text,
        status: Status::NoNetwork,
    })
}

/// What was found of a program.
#[derive(Drop)]
pub enum Finding {
    /// It is proven at this level, by these proofs.
    Proven { level: u8, proofs: Vec<Proof> },
    /// It is not, and this is said of it.
    Told(Outcome),
}

/// What is found of a program by a size, at the levels up to `most`.
pub fn find(alloc: Global, program: &Program, size: u64, most: u8) -> Result<Finding, AllocError>
    requires size { size ≤ greatest_size }
    requires most { most ≤ 9 }
    ensures { IfOk result (IsFinding size most program.now) }
{
    match decide(alloc, program, size, most)? {
        Answer::Yes { level, proofs } => Ok(Finding::Proven { level, proofs }),
        Answer::Counter { level, index, case } => {
            let told = say_broken(alloc, program, size, most, level, index, &case)?;
            Ok(Finding::Told(told))
        }
        Answer::Unknown { level, index, why } => {
            let told = say_undecided(alloc, program, size, most, level, index, why)?;
            Ok(Finding::Told(told))
        }
        Answer::NoNetwork { proof } => {
            let told = say_unmet(alloc, program, size, most, &proof)?;
            Ok(Finding::Told(told))
        }
    }
}

/// What is said of a program by a size and at the levels up to `most`, where no log is asked for.
pub fn verdict(alloc: Global, program: &Program, size: u64, most: u8) -> Result<Outcome, AllocError>
    requires size { size ≤ greatest_size }
    requires most { most ≤ 9 }
    ensures { IfOk result (λ outcome. ProgramOutput size most None program.now [] None outcome.text.items (code_of outcome.status)) }
{
    match find(alloc, program, size, most)? {
        Finding::Proven {
            level,
            proofs: _proofs,
        } => yes(alloc, level),
        Finding::Told(outcome) => Ok(outcome),
    }
}

/// Writes the log of these proofs to a file, and then says yes.
fn log_proofs<F: Files>(
    alloc: Global,
    files: &mut F,
    name: &str,
    program: &Program,
    level: u8,
    proofs: Vec<Proof>,
) -> Result<Outcome, AllocError>
    requires within { level ≤ 9 }
    requires proofs { AreProofsOf program.now (drop 1 (conditions program.now level)) proofs.items }
    ensures output { IfOk result (λ outcome. IsExplained (change_of F.told F.read_calls F.write_calls F.read_faults F.write_faults files.old files.new) [] (YesOutput (Some name.now) program.now level) outcome.text.items (code_of outcome.status)) }
    ensures touches { Touches 0 (Some name.now) (change_of F.told F.read_calls F.write_calls F.read_faults F.write_faults files.old files.new) }
{
    let text = log_of(alloc, program, level, proofs)?;
    let outcome = yes(alloc, level)?;
    write_before(alloc, files, name, text.as_slice(), outcome)
}

/// What is said of a program that these proofs prove. Where a log is asked for, it is written first.
fn proven<F: Files>(
    alloc: Global,
    files: &mut F,
    log: Option<&str>,
    program: &Program,
    size: u64,
    most: u8,
    level: u8,
    proofs: Vec<Proof>,
) -> Result<Outcome, AllocError>
    requires within { most ≤ 9 }
    requires proven { IsYes program.now size most level proofs.items }
    ensures output { IfOk result (λ outcome. IsExplained (change_of F.told F.read_calls F.write_calls F.read_faults F.write_faults files.old files.new) [] (YesOutput (option_map (λ name. name.now) log.entry) program.now level) outcome.text.items (code_of outcome.status)) }
    ensures touches { Touches 0 (option_map (λ name. name.now) log.entry) (change_of F.told F.read_calls F.write_calls F.read_faults F.write_faults files.old files.new) }
{
    match log {
        None => yes(alloc, level),
        Some(name) => log_proofs(alloc, files, name, program, level, proofs),
    }
}

/// What is said of a program, by a size and at the levels up to `most`.
fn check_program<F: Files>(
    alloc: Global,
    files: &mut F,
    size: u64,
    most: u8,
    log: Option<&str>,
    program: &Program,
) -> Result<Outcome, AllocError>
    requires size { size ≤ greatest_size }
    requires most { most ≤ 9 }
    ensures output { IfOk result (λ outcome. IsExplained (change_of F.told F.read_calls F.write_calls F.read_faults F.write_faults files.old files.new) [] (ProgramOutput size most (option_map (λ name. name.now) log.entry) program.now) outcome.text.items (code_of outcome.status)) }
    ensures touches { Touches 0 (option_map (λ name. name.now) log.entry) (change_of F.told F.read_calls F.write_calls F.read_faults F.write_faults files.old files.new) }
{
    match find(alloc, program, size, most)? {
        Finding::Proven { level, proofs } => {
            proven(alloc, files, log, program, size, most, level, proofs)
        }
        Finding::Told(outcome) => Ok(outcome),
    }
}

/// What `check` says of a file, by a size and at the levels up to `most` (docs/COMMANDS.md, "check"). Where the answer is
/// yes and the name of a log is given, the log is written to that file. It reads at most once.
pub fn check<F: Files>(
    alloc: Global,
    files: &mut F,
    size: u64,
    most: u8,
    log: Option<&str>,
    name: &str,
) -> Result<Outcome, AllocError>
    requires size { size ≤ greatest_size }
    requires most { most ≤ 9 }
    ensures output { IfOk result (λ outcome. IsExplained (change_of F.told F.read_calls F.write_calls F.read_faults F.write_faults files.old files.new) (record { kind = ProgramFile; name = name.now } ∷ []) (CheckOutput size most (option_map (λ name. name.now) log.entry) name.now) outcome.text.items (code_of outcome.status)) }
    ensures touches { Touches 1 (option_map (λ name. name.now) log.entry) (change_of F.told F.read_calls F.write_calls F.read_faults F.write_faults files.old files.new) }
{
    match load_program(alloc, files, name)? {
        Load::Loaded(program) => check_program(alloc, files, size, most, log, &program),
        Load::Refused(outcome) => Ok(outcome),
    }
}
