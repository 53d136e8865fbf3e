//! Conditions and reasons in words.
ghost use Rattle.std.specs.Prelude.{◌≡◌, ◌<◌, ◌≤◌, ◌++◌, ◌∷◌, [], IfOk, OnOk, length};
ghost use Rattle.text_lines.specs.Printed.{spaced};
ghost use Rattle.csdn_conditions.specs.Kinds.{kinds};
ghost use Rattle.vericon_decide.specs.declared.answer.UnknownWhy.TheVariants.{Instances};
ghost use Rattle.answer_listing.specs.Words.{IsUnprovenLine, condition_text, no_network_text, unproven_text, why_words, yes_text};

use condition_listing::put_kind;
use csdn_conditions::kinds::{CondKind, condition_kind};
use csdn_core::program::Program;
use std::alloc::{AllocError, Global};
use text_lines::{put_line_end, put_next_number, put_next_word, put_number, put_word};
use vericon_decide::answer::UnknownWhy;

/// Appends `I KIND`: the number of a condition in decimal, and the words of its kind.
pub fn put_condition(
    out: &mut Vec<u8>,
    program: &Program,
    index: u32,
    kind: CondKind,
) -> Result<(), AllocError>
    ensures { OnOk result (out.new.items ≡ out.old.items ++ condition_text program.now index kind) }
{
    put_number(out, u64::from(index))?;
    put_kind(out, program, kind)
}

fn put_instances(out: &mut Vec<u8>, count: u64) -> Result<(), AllocError>
    ensures { OnOk result (out.new.items ≡ out.old.items ++ spaced (why_words (Instances count))) }
{
    put_next_word(out, b"instances")?;
    put_next_number(out, count)
}

fn put_one(out: &mut Vec<u8>, word: &[u8]) -> Result<(), AllocError>
    ensures { OnOk result (out.new.items ≡ out.old.items ++ spaced (word.now ∷ [])) }
{
    put_next_word(out, word)
}

// The words of a reason, each with a space before it.
fn put_why(out: &mut Vec<u8>, why: UnknownWhy) -> Result<(), AllocError>
    ensures { OnOk result (out.new.items ≡ out.old.items ++ spaced (why_words why)) }
{
    match why {
        UnknownWhy::Nodes => put_one(out, b"nodes"),
        UnknownWhy::Outside => put_one(out, b"outside"),
        UnknownWhy::Instances(count) => put_instances(out, count),
    }
}

// `unknown level N condition I KIND: WHY`
fn put_unproven(
    alloc: Global,
    program: &Program,
    level: u8,
    index: u32,
    kind: CondKind,
    why: UnknownWhy,
) -> Result<Vec<u8>, AllocError>
    ensures { IfOk result (λ text. text.items ≡ unproven_text program.now level index kind why) }
{
    let mut out = Vec::new(alloc);
    put_word(&mut out, b"unknown level ")?;
    put_number(&mut out, u64::from(level))?;
    put_word(&mut out, b" condition ")?;
    put_condition(&mut out, program, index, kind)?;
    put_word(&mut out, b":")?;
    put_why(&mut out, why)?;
    put_line_end(&mut out)?;
    Ok(out)
}

/// `unknown level N condition I KIND: WHY`: the condition of this number isn't decided, for this reason.
pub fn unproven_line(
    alloc: Global,
    program: &Program,
    level: u8,
    index: u32,
    why: UnknownWhy,
) -> Result<Vec<u8>, AllocError>
    requires level { level ≤ 9 }
    requires index { index < length (kinds program.now level) }
    ensures { IfOk result (λ text. IsUnprovenLine program.now level index why text.items) }
{
    let kind = condition_kind(program, level, index);
    put_unproven(alloc, program, level, index, kind, why)
}

/// `yes level LEVEL` and a line end, with LEVEL in decimal.
pub fn yes_line(alloc: Global, level: u8) -> Result<Vec<u8>, AllocError>
    ensures { IfOk result (λ text. text.items ≡ yes_text level) }
{
    let mut out = Vec::new(alloc);
    put_word(&mut out, b"yes level ")?;
    put_number(&mut out, u64::from(level))?;
    put_line_end(&mut out)?;
    Ok(out)
}

/// `no network`: no network meets the topology invariants.
pub fn no_network_line(alloc: Global) -> Result<Vec<u8>, AllocError>
    ensures { IfOk result (λ text. text.items ≡ no_network_text) }
{
    let mut out = Vec::new(alloc);
    put_word(&mut out, b"no network")?;
    put_line_end(&mut out)?;
    Ok(out)
}
