//! The call of a command that uses no network.
ghost use Rattle.std.specs.Prelude.{◌≡◌, ◌≤◌, ◌+◌, ◌⊎◌, ℕ, false, List, length, map, string_bytes, IfOk};
ghost use Rattle.command_words.specs.Calls.{asked_call, unless_serves};
ghost use Rattle.file_loads.specs.Status.{code_of};
ghost use Rattle.file_loads.specs.Lines.{memory_text};
ghost use Rattle.file_loads.specs.Views.{Touches, Writes, change_of};
ghost use Rattle.file_loads.specs.Explained.{IsExplained};
ghost use Rattle.vericon_app.specs.Calls.{IsCheck, files_of, files_named, level_named, log_named, size_named, written_name, written_named};
ghost use Rattle.vericon_app.specs.Output.{CommandOutput, Output, serves_none};
ghost use Rattle.vericon_app.specs.Left.{HasLeft, Finishes};
ghost use Rattle.vericon_app.specs.Verified.{IsVerified};
ghost use Rattle.vericon_app.specs.Broken.{IsShownBroken};
ghost use Rattle.vericon_app.specs.Logs.{IsLogged};
ghost use Rattle.vericon_app.specs.Quiet.{IsUndisturbed, IsAnswered};
ghost use Rattle.vericon_app.specs.Decided.{IsDecided};
ghost use Rattle.vericon_edge.specs.Told.{holds};

use crate::check::check;
use crate::clauses::clauses;
use crate::conditions::conditions;
use crate::eval::eval;
use crate::frames::frames;
use crate::make::make;
use crate::numbers::{level_in, number_in, size_in};
use crate::replay::replay;
use crate::show::show;
use crate::trace::trace;
use command_words::request::Request;
use command_words::request_but_run;
use command_words::table::Command;
use csdn_conditions::laws::start_is_initial;
use file_loads::lines::usage;
use file_loads::outcome::{Outcome, Status};
use std::alloc::{AllocError, Global};
use vericon_edge::files::Files;
use vericon_edge::sink::{Sink, write_piece};

/// What the command that a call names says.
fn answer_request<F: Files>(
    alloc: Global,
    request: &Request,
    files: &mut F,
) -> Result<Outcome, AllocError>
    ensures output { IfOk result (λ outcome. IsExplained (change_of F.told F.read_calls F.write_calls F.read_faults F.write_faults files.old files.new) (files_of request.now.command request.now) (CommandOutput serves_none request.now.command request.now) outcome.text.items (code_of outcome.status)) }
    ensures touches { Touches (length (files_of request.now.command request.now)) (written_name request.now.command request.now) (change_of F.told F.read_calls F.write_calls F.read_faults F.write_faults files.old files.new) }
{
    let file = request.operand(0);
    let net = request.operand(1);
    let journal = request.operand(2);
    let condition_level = level_in(request.number(2));
    let index = request.number(3);
    let stream = request.operand(4);
    let log = request.option("--log");
    let size = size_in(request.option_size("--instances"));
    let most = level_in(request.option_number("--strengthen"));
    match request.command() {
        Command::Check => check(alloc, files, size, most, log, file),
        Command::Show => show(alloc, files, file),
        Command::Eval => eval(alloc, files, file, net, condition_level, index),
        Command::Trace => trace(alloc, files, file, net, journal),
        Command::Conditions => conditions(alloc, files, file, size, most),
        Command::Clauses => clauses(alloc, files, file),
        Command::Frames => frames(alloc, files, file),
        Command::Make => make(alloc, files, u64::from(number_in(request.number(0))), net),
        Command::Replay => replay(alloc, files, file, net, journal, number_in(index), stream),
        Command::Run => usage(alloc),
    }
}

/// What the call says that the words are.
fn answer_words<F: Files>(
    alloc: Global,
    words: &[String],
    files: &mut F,
) -> Result<Outcome, AllocError>
    ensures output { IfOk result (λ outcome. IsExplained (change_of F.told F.read_calls F.write_calls F.read_faults F.write_faults files.old files.new) (files_named (unless_serves (asked_call (map string_bytes words.now)))) (Output serves_none (unless_serves (asked_call (map string_bytes words.now)))) outcome.text.items (code_of outcome.status)) }
    ensures touches { Touches (length (files_named (unless_serves (asked_call (map string_bytes words.now))))) (written_named (unless_serves (asked_call (map string_bytes words.now)))) (change_of F.told F.read_calls F.write_calls F.read_faults F.write_faults files.old files.new) }
{
    match request_but_run(words) {
        None => usage(alloc),
        Some(request) => answer_request(alloc, &request, files),
    }
}

/// Writes a text. The answer is the status where all of it was written, and else 8.
pub fn finish<S: Sink>(out: &mut S, text: &[u8], status: Status) -> u8
    requires { S.has_failed out.old ≡ false }
    ensures finishes { Finishes text.now (code_of status) (S.written out.old) (S.written out.new) (S.faults out.old) (S.faults out.new) result }
    ensures later { S.faults out.old ≤ S.faults out.new }
{
    match write_piece(out, text) {
        Ok(()) => status.code(),
        Err(_) => Status::WriteFault.code(),
    }
}

/// Writes `memory` and a line end, since there was no memory for the call. The answer is status 7, or 8 where that was
/// not written.
pub fn no_memory<S: Sink>(out: &mut S) -> u8
    requires { S.has_failed out.old ≡ false }
    ensures finishes { Finishes memory_text 7 (S.written out.old) (S.written out.new) (S.faults out.old) (S.faults out.new) result }
    ensures later { S.faults out.old ≤ S.faults out.new }
{
    finish(out, b"memory\n", Status::Memory)
}

/// Serves the command that the words name, and gives its status (docs/COMMANDS.md). It writes its lines to the sink,
/// and no file but the log that `check` was asked for, or the program that `make` makes.
///
/// | status | meaning |
/// |---|---|
/// | 0 | yes, or done |
/// | 1 | a condition is broken, and the network and the state that are printed show it; or an invariant was false after a note; or a block's log isn't accepted |
/// | 2 | a condition can't be decided, or is too large to be looked at |
/// | 3 | a text was refused |
/// | 4 | no network meets the topology invariants |
/// | 5 | the file is missing, or was not read |
/// | 6 | the words have no stated form |
/// | 7 | there was no memory |
/// | 8 | the sink failed, or the log or the made program was not written |
///
/// # Example
///
/// From the test `each_call_prints_the_lines_of_its_row` of command_tests, over files and a sink in memory.
///
/// ```rust
/// let mut files = MemFiles::new(alloc, FaultPlan::none(alloc), FaultPlan::none(alloc));
/// files.write_all(alloc, "p", b"rel armed(); safety A: not armed(); pktIn(s, src->dst, i) { skip; }")?;
/// let words = vec![in alloc; String::from_str(alloc, "check")?, String::from_str(alloc, "p")?]?;
/// let mut out = MemSink::new(alloc, 4096, FaultPlan::none(alloc));
/// assert_eq!(rt; check_call(alloc, &words, &mut files, &mut out), 0);
/// assert_eq!(rt; out.bytes(), b"yes level 0\n".as_slice());
/// ```
pub fn check_call<F: Files, S: Sink>(
    alloc: Global,
    words: &[String],
    files: &mut F,
    out: &mut S,
) -> u8
    requires { S.has_failed out.old ≡ false }
    // what is written, and its status: an output that goes with some answers of the files that are named, and with some write, which the files explain
    ensures output { HasLeft (IsExplained (change_of F.told F.read_calls F.write_calls F.read_faults F.write_faults files.old files.new) (files_named (unless_serves (asked_call (map string_bytes words.now)))) (Output serves_none (unless_serves (asked_call (map string_bytes words.now))))) (S.written out.old) (S.written out.new) (S.faults out.old) (S.faults out.new) result }
    // a yes: the program is inductive, and holds its invariants in every network and every run, and there is a network
    ensures yes { (name : List ℕ) → IsCheck (unless_serves (asked_call (map string_bytes words.now))) name → result ≡ 0 → IsVerified (level_named (unless_serves (asked_call (map string_bytes words.now)))) (F.told files.old name) }
    // a counterexample: what is written shows a case of the condition that it names, and reads back; where that is of the start, some run breaks the invariant
    ensures broken { (name : List ℕ) → IsCheck (unless_serves (asked_call (map string_bytes words.now))) name → result ≡ 1 → IsShownBroken (F.told files.old name) (S.written out.old) (S.written out.new) }
    // .. and where a log was asked for, its file holds a block for each condition, whose clauses are tied to the condition's sentence and refuted
    ensures logged { (name log : List ℕ) → IsCheck (unless_serves (asked_call (map string_bytes words.now))) name → log_named (unless_serves (asked_call (map string_bytes words.now))) ≡ Some log → result ≡ 0 → IsLogged (level_named (unless_serves (asked_call (map string_bytes words.now)))) (F.told files.old name) (F.told files.old log) (F.told files.new log) }
    // where no fault was counted, want of memory is the only excuse
    ensures answered { IsUndisturbed (change_of F.told F.read_calls F.write_calls F.read_faults F.write_faults files.old files.new) (S.faults out.old) (S.faults out.new) → IsAnswered serves_none (unless_serves (asked_call (map string_bytes words.now))) (change_of F.told F.read_calls F.write_calls F.read_faults F.write_faults files.old files.new) (S.written out.old) (S.written out.new) result }
    // so what `check` is told fixes its status
    ensures decided { (name bytes : List ℕ) → IsCheck (unless_serves (asked_call (map string_bytes words.now))) name → F.told files.old name ≡ holds bytes → IsUndisturbed (change_of F.told F.read_calls F.write_calls F.read_faults F.write_faults files.old files.new) (S.faults out.old) (S.faults out.new) → IsDecided (size_named (unless_serves (asked_call (map string_bytes words.now)))) (level_named (unless_serves (asked_call (map string_bytes words.now)))) bytes result ⊎ (result ≡ 7) }
    // each file that is named is read once at most; and none is written but the log or the made program, once at most
    ensures once { F.read_calls files.new ≤ F.read_calls files.old + length (files_named (unless_serves (asked_call (map string_bytes words.now)))) }
    ensures writes { Writes (written_named (unless_serves (asked_call (map string_bytes words.now)))) (change_of F.told F.read_calls F.write_calls F.read_faults F.write_faults files.old files.new) }
    ensures reads { F.read_faults files.old ≤ F.read_faults files.new }
    ensures faults { S.faults out.old ≤ S.faults out.new }
{
    // Its contract says when a case begins at the start.
    start_is_initial();
    match answer_words(alloc, words, files) {
        Ok(outcome) => finish(out, outcome.text.as_slice(), outcome.status),
        Err(_) => no_memory(out),
    }
}
