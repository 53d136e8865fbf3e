//! What the words of a call ask for.
ghost use Rattle.std.specs.Prelude.{◌≡◌, [], option_map, slice_index_or};
ghost use Rattle.command_words.specs.Options.{value_of as option_value};
ghost use Rattle.command_words.specs.Calls.{number_at, option_number as number_of_option, option_size as size_of_option};

use crate::kinds::{number_in, size_in};
use crate::options::value_of;
use crate::table::Command;
use std::marker::Model;

/// The call of a command, seen in contracts as its command, its options with their values and its operands.
#[derive(Drop)]
pub struct Request<'a> {
    pub(crate) command: Command,
    pub(crate) options: &'a [String],
    pub(crate) operands: &'a [String],
}

impl<'a> Model for Request<'a> {
    ghost use Rattle.std.specs.Prelude.{map, string_bytes};
    ghost use Rattle.command_words.specs.Call.{Call};

    ghost Value = { Call };

    ghost view = { λ r. record { command = r.command; options = map string_bytes r.options.now; operands = map string_bytes r.operands.now } };
}

impl<'a> Request<'a> {
    /// The command.
    pub fn command(&self) -> Command
        ensures { result ≡ self.now.command }
    {
        self.command
    }

    /// The operand with this number, where the first has number 0; an empty word, where there are not so many.
    pub fn operand(&self, index: usize) -> &'a str
        ensures { result.now ≡ slice_index_or self.now.operands index [] }
    {
        match self.operands.get(index) {
            Some(word) => word.as_str(),
            None => "",
        }
    }

    /// The number that this operand is; `None`, where there is no such operand, or it is none.
    pub fn number(&self, index: usize) -> Option<u32>
        ensures { result ≡ number_at self.now.operands index }
    {
        match self.operands.get(index) {
            Some(word) => number_in(word.as_str()),
            None => None,
        }
    }

    /// The value of this option; `None` where it was not given.
    pub fn option(&self, option: &str) -> Option<&'a str>
        ensures { option_map (λ value. value.now) result ≡ option_value option.now self.now.options }
    {
        value_of(self.options, option)
    }

    /// The number that the value of this option is; `None`, where it was not given, or its value is none.
    pub fn option_number(&self, option: &str) -> Option<u32>
        ensures { result ≡ number_of_option option.now self.now.options }
    {
        match self.option(option) {
            Some(value) => number_in(value),
            None => None,
        }
    }

    /// The number of at most 64 bits that the value of this option is; `None`, where it was not given, or its value is none.
    pub fn option_size(&self, option: &str) -> Option<u64>
        ensures { result ≡ size_of_option option.now self.now.options }
    {
        match self.option(option) {
            Some(value) => size_in(value),
            None => None,
        }
    }
}
