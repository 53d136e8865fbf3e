//! The reader of calls.
ghost use Rattle.std.specs.Prelude.{◌≡◌, map, string_bytes, option_map};
ghost use Rattle.command_words.specs.Rows.{command_row};
ghost use Rattle.command_words.specs.Kinds.{behind_kinds as kinds_behind};
ghost use Rattle.command_words.specs.Calls.{row_of as row_in, are_all as are_all_words, end_there, is_call as is_right_call, call_of, call_by, asked_call, if_serves, serves as serves_sessions, unless_serves};

use crate::kinds::behind_kinds;
use crate::options::{are_options, begins_with_option, behind_options};
use crate::request::Request;
use crate::table::{COMMANDS, Command, CommandRow, Kind};

/// Whether words are the operands of a command.
fn are_operands(operands: &[Kind], further: &[Kind], words: &[String]) -> bool
    ensures { result ≡ end_there further.now (kinds_behind operands.now (map string_bytes words.now)) }
{
    match behind_kinds(operands, words) {
        None => false,
        Some([]) => true,
        Some(more) => are_all(further, more),
    }
}

/// Whether the words are of these kinds.
fn are_all(kinds: &[Kind], words: &[String]) -> bool
    ensures { result ≡ are_all_words (kinds_behind kinds.now (map string_bytes words.now)) }
{
    match behind_kinds(kinds, words) {
        None => false,
        Some(more) => more.is_empty(),
    }
}

/// The row of the command that a word names.
fn row_of<'a>(rows: &'a [CommandRow], word: &str) -> Option<&'a CommandRow>
    ensures { option_map (λ row. command_row row.now) result ≡ row_in (map command_row rows.now) word.now }
{
    let mut rest = rows;
    while let [row, more @ ..] = rest {
        if row.0 == word {
            return Some(row);
        }
        rest = more;
    }
    None
}

/// Whether options and operands are those of a call.
fn is_call(row: &CommandRow, options: &[String], operands: &[String]) -> bool
    ensures { result ≡ is_right_call (command_row row.now) (map string_bytes options.now) (map string_bytes operands.now) }
{
    are_options(row.2, options)
        && !begins_with_option(row.2, operands)
        && are_operands(row.3, row.4, operands)
}

/// The call of a command with these words behind its name.
#[tactic(auto, unfolding(crate::specs::Calls::call_by))]
fn read_row<'a>(row: &CommandRow, words: &'a [String]) -> Option<Request<'a>>
    ensures { result ≡ call_by (command_row row.now) (map string_bytes words.now) }
{
    let operands = behind_options(row.2, words);
    let options = &words[..words.len() - operands.len()];
    if !is_call(row, options, operands) {
        return None;
    }
    Some(Request {
        command: row.1,
        options,
        operands,
    })
}

/// The call that these words are, by this table of commands; `None`, where they are the call of none.
///
/// Its time grows with the number of words, and with the square of the number of options. It takes no memory.
#[tactic(auto, unfolding(crate::specs::Calls::call_of))]
pub fn read_call<'a>(rows: &[CommandRow], words: &'a [String]) -> Option<Request<'a>>
    ensures { result ≡ call_of (map command_row rows.now) (map string_bytes words.now) }
{
    match words {
        [] => None,
        [name, words_left @ ..] => match row_of(rows, name.as_str()) {
            Some(row) => read_row(row, words_left),
            None => None,
        },
    }
}

/// The call that these words are; `None`, where they are the call of no command.
#[tactic(auto, unfolding(crate::specs::Calls::asked_call, crate::specs::Rows::commands))]
fn request_of(words: &[String]) -> Option<Request<'_>>
    ensures { result ≡ asked_call (map string_bytes words.now) }
{
    read_call(&COMMANDS, words)
}

/// Whether a command serves sessions.
fn serves(command: Command) -> bool
    ensures { result ≡ serves_sessions command }
{
    match command {
        Command::Check
        | Command::Show
        | Command::Eval
        | Command::Trace
        | Command::Conditions
        | Command::Clauses
        | Command::Frames
        | Command::Make
        | Command::Replay => false,
        Command::Run => true,
    }
}

/// The call of `run` that these words are; `None`, where they are the call of no command, or of another.
pub fn run_request(words: &[String]) -> Option<Request<'_>>
    ensures { result ≡ if_serves (asked_call (map string_bytes words.now)) }
{
    match request_of(words) {
        Some(request) if serves(request.command()) => Some(request),
        _ => None,
    }
}

/// The call that these words are; `None`, where they are the call of no command, or of `run`.
pub fn request_but_run(words: &[String]) -> Option<Request<'_>>
    ensures { result ≡ unless_serves (asked_call (map string_bytes words.now)) }
{
    match request_of(words) {
        Some(request) if !serves(request.command()) => Some(request),
        _ => None,
    }
}

#[cfg(test)]
mod tests;
