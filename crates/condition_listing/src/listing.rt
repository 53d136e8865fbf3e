//! The classes of conditions.
ghost use Rattle.std.specs.Prelude.{◌≡◌, ◌<◌, ◌≤◌, ◌++◌, IfOk, OnOk, length};
ghost use Rattle.text_lines.specs.Printed.{line_text};
ghost use Rattle.csdn_conditions.specs.Classes.{greatest_size};
ghost use Rattle.csdn_conditions.specs.Kinds.{kinds};
ghost use Rattle.csdn_conditions.specs.Conditions.{conditions};
ghost use Rattle.csdn_conditions.specs.Answers.{OfCondition};
ghost use Rattle.condition_listing.specs.Words.{condition_words};
ghost use Rattle.condition_listing.specs.Listings.{IsListed, AddsLine};

use crate::words::{put_class, put_kind};
use csdn_conditions::class::{Class, condition_class};
use csdn_conditions::kinds::{CondKind, condition_count, condition_kind};
use csdn_core::program::Program;
use std::alloc::{AllocError, Global};
use text_lines::{put_line_end, put_number};

/// A line for each condition of a level: its number, its kind and its class by a size (docs/COMMANDS.md,
/// "conditions").
pub fn list_conditions(
    alloc: Global,
    program: &Program,
    size: u64,
    level: u8,
) -> Result<Vec<u8>, AllocError>
    requires size { size ≤ greatest_size }
    requires level { level ≤ 9 }
    ensures { IfOk result (λ text. IsListed program.now size 0 (conditions program.now level) text.items) }
{
    let mut out = Vec::new(alloc);
    let count = condition_count(program, level);
    'conditions: for index in 0..count {
        put_condition(alloc, &mut out, program, size, level, index)?;
    }
    Ok(out)
}

fn put_condition(
    alloc: Global,
    out: &mut Vec<u8>,
    program: &Program,
    size: u64,
    level: u8,
    index: u32,
) -> Result<(), AllocError>
    requires size { size ≤ greatest_size }
    requires level { level ≤ 9 }
    requires index { index < length (kinds program.now level) }
    ensures { OnOk result (OfCondition program.now level index (λ c. AddsLine program.now size index c out.old.items out.new.items)) }
{
    let class = condition_class(alloc, program, size, level, index)?;
    let kind = condition_kind(program, level, index);
    put_line_of(out, program, index, kind, class)
}

// `I KIND CLASS`
fn put_line_of(
    out: &mut Vec<u8>,
    program: &Program,
    index: u32,
    kind: CondKind,
    class: Class,
) -> Result<(), AllocError>
    ensures { OnOk result (out.new.items ≡ out.old.items ++ line_text (condition_words program.now index kind class)) }
{
    put_number(out, u64::from(index))?;
    put_kind(out, program, kind)?;
    put_class(out, class)?;
    put_line_end(out)
}
