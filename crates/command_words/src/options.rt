//! Options with their values.
ghost use Rattle.std.specs.Prelude.{◌≡◌, map, string_bytes, option_map};
ghost use Rattle.command_words.specs.Rows.{option_row};
ghost use Rattle.command_words.specs.Options.{kind_of as option_kind, is_option as spells_option, is_right as option_is_right, behind_options as words_behind, value_of as option_value, are_options as are_options_with_values, option_first};

use crate::kinds::fits;
use crate::table::{Kind, OptionRow};

/// What the value of the option is that a word spells.
fn kind_of(rows: &[OptionRow], word: &str) -> Option<Kind>
    ensures { result ≡ option_kind (map option_row rows.now) word.now }
{
    let mut rest = rows;
    while let [row, more @ ..] = rest {
        if row.0 == word {
            return Some(row.1);
        }
        rest = more;
    }
    None
}

fn is_option(rows: &[OptionRow], word: &str) -> bool
    ensures { result ≡ spells_option (map option_row rows.now) word.now }
{
    kind_of(rows, word).is_some()
}

/// The words behind the options and their values.
pub fn behind_options<'a>(rows: &[OptionRow], words: &'a [String]) -> &'a [String]
    ensures { map string_bytes result.now ≡ words_behind (map option_row rows.now) (map string_bytes words.now) }
{
    let mut rest = words;
    while let [word, _value, more @ ..] = rest {
        if !is_option(rows, word.as_str()) {
            return rest;
        }
        rest = more;
    }
    rest
}

/// The value of the first such option among options and their values; `None` where it is not there.
pub fn value_of<'a>(options: &'a [String], option: &str) -> Option<&'a str>
    ensures { option_map (λ value. value.now) result ≡ option_value option.now (map string_bytes options.now) }
{
    let mut rest = options;
    while let [word, value, more @ ..] = rest {
        if word.as_str() == option {
            return Some(value.as_str());
        }
        rest = more;
    }
    None
}

/// Whether an option has a value of its kind, and isn't given again behind it.
fn is_right(rows: &[OptionRow], option: &str, value: &str, behind: &[String]) -> bool
    ensures { result ≡ option_is_right (map option_row rows.now) option.now value.now (map string_bytes behind.now) }
{
    match kind_of(rows, option) {
        Some(kind) => fits(kind, value) && value_of(behind, option).is_none(),
        None => false,
    }
}

/// Whether each option is given once, with a value of its kind.
///
/// It calls itself once for each option, as long as these are different.
pub fn are_options(rows: &[OptionRow], options: &[String]) -> bool
    ensures { result ≡ are_options_with_values (map option_row rows.now) (map string_bytes options.now) }
{
    match options {
        [option, value, more @ ..] => {
            is_right(rows, option.as_str(), value.as_str(), more) && are_options(rows, more)
        }
        _ => true,
    }
}

/// Whether the first word spells an option.
pub fn begins_with_option(rows: &[OptionRow], words: &[String]) -> bool
    ensures { result ≡ option_first (map option_row rows.now) (map string_bytes words.now) }
{
    match words {
        [] => false,
        [word, ..] => is_option(rows, word.as_str()),
    }
}
