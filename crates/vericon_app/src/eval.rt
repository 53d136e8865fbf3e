//! `eval PROGRAM NET`: which invariants are true in a network. `eval PROGRAM NET LEVEL INDEX`: and whether a condition is.
ghost use Rattle.std.specs.Prelude.{◌≡◌, ◌<◌, ◌≤◌, [], ◌∷◌, IfOk, if◌then◌else◌, length};
ghost use Rattle.csdn_conditions.specs.Kinds.{kinds};
ghost use Rattle.file_loads.specs.declared.read.FileKind.TheVariants.{Program as ProgramFile, Network as NetworkFile};
ghost use Rattle.file_loads.specs.Status.{code_of};
ghost use Rattle.file_loads.specs.Views.{OnlyReads, change_of};
ghost use Rattle.file_loads.specs.Explained.{IsExplained};
ghost use Rattle.file_loads.specs.Outputs.{Then};
ghost use Rattle.file_loads.specs.Loads.{WithCase};
ghost use Rattle.vericon_app.specs.Eval.{TruthOutput, IsTold, ConditionOutput, CaseOutput, EvalOutput};

use condition_listing::judge;
use csdn_conditions::kinds::condition_count;
use csdn_core::program::Program;
use file_loads::lines::usage;
use file_loads::load::{load_case, load_program};
use file_loads::outcome::{Outcome, Status};
use file_loads::read::Load;
use net_listing::list_invariants;
use net_structs::case::Case;
use net_structs::state::State;
use std::alloc::{AllocError, Global};
use vericon_edge::files::Files;

/// The truth of a program's invariants in a case.
fn truths(alloc: Global, program: &Program, case: &Case) -> Result<Outcome, AllocError>
    ensures { IfOk result (λ outcome. TruthOutput program.now case.now outcome.text.items (code_of outcome.status)) }
{
    let text = list_invariants(alloc, program, case)?;
    Ok(Outcome {
        text,
        status: Status::Done,
    })
}

fn status_of(is_small: bool) -> Status
    ensures { code_of result ≡ (if is_small then 0 else 2) }
{
    if is_small {
        Status::Done
    } else {
        Status::Unknown
    }
}

/// The truth of a program's invariants and of a condition in a case with this state.
fn condition_lines(
    alloc: Global,
    program: &Program,
    case: &Case,
    state: &State,
    level: u8,
    index: u32,
) -> Result<Outcome, AllocError>
    requires level { level ≤ 9 }
    requires index { index < length (kinds program.now level) }
    ensures { IfOk result (λ outcome. IsTold program.now level index case.now state.now outcome.text.items (code_of outcome.status)) }
{
    let mut text = list_invariants(alloc, program, case)?;
    let told = judge(alloc, program, &case.network, state, level, index)?;
    text.extend_from_slice(&told.text)?;
    Ok(Outcome {
        text,
        status: status_of(told.is_small),
    })
}

/// .. or `usage`, where it has no state or there is no such condition.
fn condition_in(
    alloc: Global,
    program: &Program,
    case: &Case,
    level: u8,
    index: u32,
) -> Result<Outcome, AllocError>
    requires { level ≤ 9 }
    ensures { IfOk result (λ outcome. ConditionOutput program.now level index case.now outcome.text.items (code_of outcome.status)) }
{
    if index >= condition_count(program, level) {
        return usage(alloc);
    }
    match &case.state {
        None => usage(alloc),
        Some(state) => condition_lines(alloc, program, case, state, level, index),
    }
}

/// What is said of a program and a case, and of a condition, where its number is given.
fn case_lines(
    alloc: Global,
    program: &Program,
    case: &Case,
    level: u8,
    index: Option<u32>,
) -> Result<Outcome, AllocError>
    requires { level ≤ 9 }
    ensures { IfOk result (λ outcome. CaseOutput level index program.now case.now outcome.text.items (code_of outcome.status)) }
{
    match index {
        None => truths(alloc, program, case),
        Some(index) => condition_in(alloc, program, case, level, index),
    }
}

/// What is said of a program and the file of a network.
fn eval_program<F: Files>(
    alloc: Global,
    files: &mut F,
    net: &str,
    program: &Program,
    level: u8,
    index: Option<u32>,
) -> Result<Outcome, AllocError>
    requires { level ≤ 9 }
    ensures output { IfOk result (λ outcome. IsExplained (change_of F.told F.read_calls F.write_calls F.read_faults F.write_faults files.old files.new) (record { kind = NetworkFile; name = net.now } ∷ []) (WithCase program.now net.now (λ kase. Then (CaseOutput level index program.now kase))) outcome.text.items (code_of outcome.status)) }
    ensures reads { OnlyReads 1 (change_of F.told F.read_calls F.write_calls F.read_faults F.write_faults files.old files.new) }
{
    match load_case(alloc, files, program, net)? {
        Load::Loaded(case) => case_lines(alloc, program, &case, level, index),
        Load::Refused(outcome) => Ok(outcome),
    }
}

/// What `eval` says of a program and a network, and of the condition with this number at this level, where the number
/// is given (docs/COMMANDS.md, "eval"). It reads each file at most once.
pub fn eval<F: Files>(
    alloc: Global,
    files: &mut F,
    name: &str,
    net: &str,
    level: u8,
    index: Option<u32>,
) -> Result<Outcome, AllocError>
    requires { level ≤ 9 }
    ensures output { IfOk result (λ outcome. IsExplained (change_of F.told F.read_calls F.write_calls F.read_faults F.write_faults files.old files.new) (record { kind = ProgramFile; name = name.now } ∷ record { kind = NetworkFile; name = net.now } ∷ []) (EvalOutput level index name.now net.now) outcome.text.items (code_of outcome.status)) }
    ensures reads { OnlyReads 2 (change_of F.told F.read_calls F.write_calls F.read_faults F.write_faults files.old files.new) }
{
    match load_program(alloc, files, name)? {
        Load::Loaded(program) => eval_program(alloc, files, net, &program, level, index),
        Load::Refused(outcome) => Ok(outcome),
    }
}
