//! Commands: whole lines, those of a block two spaces deeper.
#![tactic(auto, using(crate::specs::Steps::command_steps, csdn_tree::specs::NodeSteps::raw_node_steps))]

ghost use Rattle.std.specs.Prelude.{◌≡◌, ◌++◌, IfOk, OnOk, codes};
ghost use Rattle.csdn_print.specs.declared.forms.Lead.TheVariants.{Nothing};
ghost use Rattle.csdn_print.specs.Words as words;
ghost use Rattle.csdn_print.specs.Words.{◌·◌};
ghost use Rattle.csdn_print.specs.Formulas.{formula_text};
ghost use Rattle.csdn_print.specs.Commands as spec;

use crate::forms::Lead;
use crate::formulas::put_formula;
use crate::words::{put_bind, put_flow, put_packet, put_terms};
use csdn_core::terms::Sort;
use csdn_tree::names::{RawName, RawTerm};
use csdn_tree::syntax::{ChangeWord, RawCommand, RawFlow, RawFormula, RawPacket, SwitchWord};
use std::alloc::{AllocError, Global};
use text_lines::put_word;

fn is_skip(command: &RawCommand) -> bool
    ensures { result ≡ spec.is_skip command.now }
{
    match command {
        RawCommand::Skip => true,
        RawCommand::Seq(_, _) => false,
        RawCommand::If(_, _, _) => false,
        RawCommand::Pick(_, _, _, _, _) => false,
        RawCommand::Change(_, _, _) => false,
        RawCommand::Switch(_, _) => false,
        RawCommand::Flood(_) => false,
    }
}

/// The spaces before the lines of a block in lines with these.
fn inner(alloc: Global, indent: &[u8]) -> Result<Vec<u8>, AllocError>
    ensures { IfOk result (λ spaces. spaces.items ≡ spec.inner indent.now) }
{
    let mut spaces = b"  ".to_vec(alloc)?;
    spaces.extend_from_slice(indent)?;
    Ok(spaces)
}

fn change_word(word: ChangeWord) -> &'static [u8]
    ensures { result.now ≡ spec.change_word word }
{
    match word {
        ChangeWord::Insert => b"insert",
        ChangeWord::Remove => b"remove",
    }
}

fn switch_word(word: SwitchWord) -> &'static [u8]
    ensures { result.now ≡ spec.switch_word word }
{
    match word {
        SwitchWord::Install => b"install",
        SwitchWord::Uninstall => b"uninstall",
        SwitchWord::Forward => b"forward",
    }
}

/// A change of a relation.
fn put_change(
    out: &mut Vec<u8>,
    indent: &[u8],
    word: ChangeWord,
    name: &RawName,
    terms: &[RawTerm],
) -> Result<(), AllocError>
    ensures { OnOk result (out.new.items ≡ out.old.items ++ (indent.now · name.now.text · codes "." · spec.change_word word · words.terms_text terms.now · codes ";\n")) }
{
    put_word(out, indent)?;
    put_word(out, name.text.as_slice())?;
    put_word(out, b".")?;
    put_word(out, change_word(word))?;
    put_terms(out, terms)?;
    put_word(out, b";\n")
}

/// A command of a switch over two hosts and two ports.
fn put_switch(
    out: &mut Vec<u8>,
    indent: &[u8],
    word: SwitchWord,
    flow: &RawFlow,
) -> Result<(), AllocError>
    ensures { OnOk result (out.new.items ≡ out.old.items ++ (indent.now · flow.now.switch.text · codes "." · spec.switch_word word · words.flow_text flow.now · codes ";\n")) }
{
    put_word(out, indent)?;
    put_word(out, flow.switch.text.as_slice())?;
    put_word(out, b".")?;
    put_word(out, switch_word(word))?;
    put_flow(out, flow)?;
    put_word(out, b";\n")
}

fn put_flood(out: &mut Vec<u8>, indent: &[u8], packet: &RawPacket) -> Result<(), AllocError>
    ensures { OnOk result (out.new.items ≡ out.old.items ++ (indent.now · packet.now.switch.text · codes ".flood" · words.packet_text packet.now · codes ";\n")) }
{
    put_word(out, indent)?;
    put_word(out, packet.switch.text.as_slice())?;
    put_word(out, b".flood")?;
    put_packet(out, packet)?;
    put_word(out, b";\n")
}

fn put_skip(out: &mut Vec<u8>, indent: &[u8]) -> Result<(), AllocError>
    ensures { OnOk result (out.new.items ≡ out.old.items ++ (indent.now · codes "skip;\n")) }
{
    put_word(out, indent)?;
    put_word(out, b"skip;\n")
}

/// `if` and its condition, and a space.
fn put_condition(out: &mut Vec<u8>, indent: &[u8], condition: &RawFormula) -> Result<(), AllocError>
    ensures { OnOk result (out.new.items ≡ out.old.items ++ (indent.now · codes "if " · formula_text Nothing condition.now · codes " ")) }
{
    put_word(out, indent)?;
    put_word(out, b"if ")?;
    put_formula(out, Lead::Nothing, condition)?;
    put_word(out, b" ")
}

/// `pick`, its name and its condition, and a space.
fn put_choice(
    out: &mut Vec<u8>,
    indent: &[u8],
    name: &RawName,
    sort: Sort,
    condition: &RawFormula,
) -> Result<(), AllocError>
    ensures { OnOk result (out.new.items ≡ out.old.items ++ (indent.now · codes "pick " · name.now.text · codes ":" · words.sort_text sort · codes " where "
        · formula_text Nothing condition.now · codes " ")) }
{
    put_word(out, indent)?;
    put_word(out, b"pick ")?;
    put_bind(out, name, sort)?;
    put_word(out, b" where ")?;
    put_formula(out, Lead::Nothing, condition)?;
    put_word(out, b" ")
}

/// Appends a command in lines with these spaces before them (docs/FORMATS.md, "Printed programs").
#[cycle(command)]
pub fn put_command(
    alloc: Global,
    out: &mut Vec<u8>,
    indent: &[u8],
    command: &RawCommand,
) -> Result<(), AllocError>
    ensures { OnOk result (out.new.items ≡ out.old.items ++ spec.command_text indent.now command.now) }
{
    match command {
        RawCommand::Skip => put_skip(out, indent),
        RawCommand::Seq(a, b) => put_sequence(alloc, out, indent, a.get(), b.get()),
        RawCommand::If(p, a, b) => put_if(alloc, out, indent, p.get(), a.get(), b.get()),
        RawCommand::Pick(name, sort, p, a, b) => {
            put_pick(alloc, out, indent, name, *sort, p.get(), a.get(), b.get())
        }
        RawCommand::Change(word, name, terms) => {
            put_change(out, indent, *word, name, terms.as_slice())
        }
        RawCommand::Switch(word, flow) => put_switch(out, indent, *word, flow),
        RawCommand::Flood(packet) => put_flood(out, indent, packet),
    }
}

/// A command and those behind it.
#[cycle(command)]
fn put_sequence(
    alloc: Global,
    out: &mut Vec<u8>,
    indent: &[u8],
    a: &RawCommand,
    b: &RawCommand,
) -> Result<(), AllocError>
    ensures { OnOk result (out.new.items ≡ out.old.items ++ (spec.command_text indent.now a.now · spec.command_text indent.now b.now)) }
{
    put_command(alloc, out, indent, a)?;
    put_command(alloc, out, indent, b)
}

#[cycle(command)]
fn put_if(
    alloc: Global,
    out: &mut Vec<u8>,
    indent: &[u8],
    condition: &RawFormula,
    body: &RawCommand,
    other: &RawCommand,
) -> Result<(), AllocError>
    ensures { OnOk result (out.new.items ≡ out.old.items ++ (indent.now · codes "if " · formula_text Nothing condition.now · codes " "
        · spec.block_text indent.now (spec.command_text (spec.inner indent.now) body.now)
        · spec.otherwise_text indent.now (spec.is_skip other.now) (spec.command_text (spec.inner indent.now) other.now) · codes "\n")) }
{
    put_condition(out, indent, condition)?;
    put_branches(alloc, out, indent, body, other)
}

#[cycle(command)]
fn put_pick(
    alloc: Global,
    out: &mut Vec<u8>,
    indent: &[u8],
    name: &RawName,
    sort: Sort,
    condition: &RawFormula,
    body: &RawCommand,
    other: &RawCommand,
) -> Result<(), AllocError>
    ensures { OnOk result (out.new.items ≡ out.old.items ++ (indent.now · codes "pick " · name.now.text · codes ":" · words.sort_text sort · codes " where "
        · formula_text Nothing condition.now · codes " "
        · spec.block_text indent.now (spec.command_text (spec.inner indent.now) body.now)
        · spec.otherwise_text indent.now (spec.is_skip other.now) (spec.command_text (spec.inner indent.now) other.now) · codes "\n")) }
{
    put_choice(out, indent, name, sort, condition)?;
    put_branches(alloc, out, indent, body, other)
}

/// Appends commands in braces, the closing one on a line of its own.
#[cycle(command)]
pub fn put_block(
    alloc: Global,
    out: &mut Vec<u8>,
    indent: &[u8],
    body: &RawCommand,
) -> Result<(), AllocError>
    ensures { OnOk result (out.new.items ≡ out.old.items ++ spec.block_text indent.now (spec.command_text (spec.inner indent.now) body.now)) }
{
    let spaces = inner(alloc, indent)?;
    put_word(out, b"{\n")?;
    put_command(alloc, out, &spaces, body)?;
    put_word(out, indent)?;
    put_word(out, b"}")
}

/// A block, and an `else` with its block where it isn't `skip` alone.
#[cycle(command)]
fn put_branches(
    alloc: Global,
    out: &mut Vec<u8>,
    indent: &[u8],
    body: &RawCommand,
    other: &RawCommand,
) -> Result<(), AllocError>
    ensures { OnOk result (out.new.items ≡ out.old.items ++ (spec.block_text indent.now (spec.command_text (spec.inner indent.now) body.now)
        · spec.otherwise_text indent.now (spec.is_skip other.now) (spec.command_text (spec.inner indent.now) other.now) · codes "\n")) }
{
    put_block(alloc, out, indent, body)?;
    if !is_skip(other) {
        put_word(out, b" else ")?;
        put_block(alloc, out, indent, other)?;
    }
    put_word(out, b"\n")
}
