//! The words of kinds and classes.
ghost use Rattle.std.specs.Prelude.{◌≡◌, ◌++◌, ◌∷◌, [], OnOk, codes, decimal};
ghost use Rattle.text_lines.specs.Printed.{spaced};
ghost use Rattle.csdn_conditions.specs.declared.class.Class.TheVariants.{Instances};
ghost use Rattle.condition_listing.specs.Words.{class_words, event_word as event_word_of, kind_words, name_at};

use csdn_conditions::class::Class;
use csdn_conditions::kinds::{CondKind, EventKind};
use csdn_core::program::{Invariant, Program};
use std::alloc::AllocError;
use text_lines::{put_next_number, put_next_word};

fn event_word(event: EventKind) -> &'static [u8]
    ensures { result.now ≡ event_word_of event }
{
    match event {
        EventKind::PktIn => b"pktIn",
        EventKind::PktFlow => b"pktFlow",
        EventKind::Expire => b"expire",
    }
}

// The name of the invariant of this number.
fn name_of(invariants: &[Invariant], number: u32) -> &[u8]
    ensures { result.now ≡ name_at invariants.now number }
{
    match invariants.get(number as usize) {
        Some(invariant) => invariant.name.as_slice(),
        None => &[],
    }
}

// Each word with a space before it.
fn put_three(out: &mut Vec<u8>, a: &[u8], b: &[u8], c: &[u8]) -> Result<(), AllocError>
    ensures { OnOk result (out.new.items ≡ out.old.items ++ spaced (a.now ∷ b.now ∷ c.now ∷ [])) }
{
    put_next_word(out, a)?;
    put_next_word(out, b)?;
    put_next_word(out, c)
}

fn put_init(out: &mut Vec<u8>, k: u8, name: &[u8]) -> Result<(), AllocError>
    ensures { OnOk result (out.new.items ≡ out.old.items ++ spaced (codes "init" ∷ decimal k ∷ name.now ∷ [])) }
{
    put_next_word(out, b"init")?;
    put_next_number(out, u64::from(k))?;
    put_next_word(out, name)
}

/// Appends the words of a kind, each with a space before it (docs/COMMANDS.md, "conditions").
pub fn put_kind(out: &mut Vec<u8>, program: &Program, kind: CondKind) -> Result<(), AllocError>
    ensures { OnOk result (out.new.items ≡ out.old.items ++ spaced (kind_words program.now kind)) }
{
    let parts = program.parts();
    match kind {
        CondKind::Network => put_one(out, b"network"),
        CondKind::Init { k, v } => put_init(out, k, name_of(parts.safety.as_slice(), v)),
        CondKind::Step { v, event } => put_three(
            out,
            b"step",
            name_of(parts.safety.as_slice(), v),
            event_word(event),
        ),
        CondKind::Trans { t, event } => put_three(
            out,
            b"trans",
            name_of(parts.trans.as_slice(), t),
            event_word(event),
        ),
    }
}

fn put_one(out: &mut Vec<u8>, word: &[u8]) -> Result<(), AllocError>
    ensures { OnOk result (out.new.items ≡ out.old.items ++ spaced (word.now ∷ [])) }
{
    put_next_word(out, word)
}

fn put_instances(out: &mut Vec<u8>, count: u64) -> Result<(), AllocError>
    ensures { OnOk result (out.new.items ≡ out.old.items ++ spaced (class_words (Instances count))) }
{
    put_next_word(out, b"instances")?;
    put_next_number(out, count)
}

/// Appends the words of a class, each with a space before it (docs/COMMANDS.md, "conditions").
pub fn put_class(out: &mut Vec<u8>, class: Class) -> Result<(), AllocError>
    ensures { OnOk result (out.new.items ≡ out.old.items ++ spaced (class_words class)) }
{
    match class {
        Class::Inside => put_one(out, b"inside"),
        Class::Nodes => put_one(out, b"nodes"),
        Class::Outside => put_one(out, b"outside"),
        Class::Instances(count) => put_instances(out, count),
    }
}
