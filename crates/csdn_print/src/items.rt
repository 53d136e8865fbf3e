//! Items: declarations, invariants and handlers.
ghost use Rattle.std.specs.Prelude.{◌≡◌, ◌++◌, OnOk, codes, map};
ghost use Rattle.csdn_tree.specs.declared.syntax.RawItem.TheVariants as item;
ghost use Rattle.csdn_print.specs.Words as words;
ghost use Rattle.csdn_print.specs.Words.{◌·◌};
ghost use Rattle.csdn_print.specs.Programs as spec;

use crate::commands::put_block;
use crate::forms::Lead;
use crate::formulas::put_formula;
use crate::words::{put_bind, put_port, put_sorts, put_terms};
use csdn_core::terms::Sort;
use csdn_tree::names::RawName;
use csdn_tree::syntax::{
    InvariantKind, RawFormula, RawHandler, RawItem, RawPattern, RawRelation, RawRow, RawTimeout,
};
use std::alloc::{AllocError, Global};
use text_lines::{put_number, put_word};

fn put_more_rows(out: &mut Vec<u8>, mut rows: &[RawRow]) -> Result<(), AllocError>
    ensures { OnOk result (out.new.items ≡ out.old.items ++ words.more_listed (map (λ r. words.terms_text r.terms) rows.entry.now)) }
{
    'more: while let [row, rest @ ..] = rows {
        put_word(out, b", ")?;
        put_terms(out, row.terms.as_slice())?;
        rows = rest;
    }
    Ok(())
}

/// An initial value, where there are rows.
fn put_initial(out: &mut Vec<u8>, rows: &[RawRow]) -> Result<(), AllocError>
    ensures { OnOk result (out.new.items ≡ out.old.items ++ spec.initial_text rows.now) }
{
    let [first, rest @ ..] = rows else {
        return Ok(());
    };
    put_word(out, b" = {")?;
    put_terms(out, first.terms.as_slice())?;
    put_more_rows(out, rest)?;
    put_word(out, b"}")
}

fn put_relation(out: &mut Vec<u8>, relation: &RawRelation) -> Result<(), AllocError>
    ensures { OnOk result (out.new.items ≡ out.old.items ++ spec.relation_text relation.now) }
{
    if relation.fixed {
        put_word(out, b"static ")?;
        put_word(out, relation.name.text.as_slice())?;
        put_sorts(out, relation.sorts.as_slice())?;
    } else {
        put_word(out, b"rel ")?;
        put_word(out, relation.name.text.as_slice())?;
        put_sorts(out, relation.sorts.as_slice())?;
        put_initial(out, relation.rows.as_slice())?;
    }
    put_word(out, b";")
}

fn put_constant(out: &mut Vec<u8>, name: &RawName, sort: Sort) -> Result<(), AllocError>
    ensures { OnOk result (out.new.items ≡ out.old.items ++ spec.item_text (item.Constant name.now sort)) }
{
    put_word(out, b"const ")?;
    put_bind(out, name, sort)?;
    put_word(out, b";")
}

fn invariant_word(kind: InvariantKind) -> &'static [u8]
    ensures { result.now ≡ spec.invariant_word kind }
{
    match kind {
        InvariantKind::Topology => b"topology ",
        InvariantKind::Safety => b"safety ",
        InvariantKind::Trans => b"trans ",
    }
}

fn put_invariant(
    out: &mut Vec<u8>,
    kind: InvariantKind,
    name: &RawName,
    formula: &RawFormula,
) -> Result<(), AllocError>
    ensures { OnOk result (out.new.items ≡ out.old.items ++ spec.item_text (item.Invariant kind name.now formula.now)) }
{
    put_word(out, invariant_word(kind))?;
    put_word(out, name.text.as_slice())?;
    put_word(out, b": ")?;
    put_formula(out, Lead::Nothing, formula)?;
    put_word(out, b";")
}

fn put_pattern(out: &mut Vec<u8>, pattern: &RawPattern) -> Result<(), AllocError>
    ensures { OnOk result (out.new.items ≡ out.old.items ++ spec.pattern_text pattern.now) }
{
    match pattern {
        RawPattern::Any(name) => put_word(out, name.text.as_slice()),
        RawPattern::Port(port) => put_port(out, port),
    }
}

/// The packet that a handler is for: two hosts and a port.
fn put_received(
    out: &mut Vec<u8>,
    source: &RawName,
    target: &RawName,
    ingress: &RawPattern,
) -> Result<(), AllocError>
    ensures { OnOk result (out.new.items ≡ out.old.items ++ (source.now.text · codes "->" · target.now.text · codes ", " · spec.pattern_text ingress.now)) }
{
    put_word(out, source.text.as_slice())?;
    put_word(out, b"->")?;
    put_word(out, target.text.as_slice())?;
    put_word(out, b", ")?;
    put_pattern(out, ingress)
}

fn put_handler(alloc: Global, out: &mut Vec<u8>, handler: &RawHandler) -> Result<(), AllocError>
    ensures { OnOk result (out.new.items ≡ out.old.items ++ spec.item_text (item.Handler handler.now)) }
{
    put_word(out, b"pktIn(")?;
    put_word(out, handler.switch.text.as_slice())?;
    put_word(out, b", ")?;
    put_received(out, &handler.source, &handler.target, &handler.ingress)?;
    put_word(out, b") ")?;
    put_block(alloc, out, b"", &handler.body)
}

fn put_timeout(out: &mut Vec<u8>, timeout: &RawTimeout) -> Result<(), AllocError>
    ensures { OnOk result (out.new.items ≡ out.old.items ++ spec.item_text (item.Timeout timeout.now)) }
{
    put_word(out, b"timeout ")?;
    put_number(out, u64::from(timeout.seconds))?;
    put_word(out, b";")
}

/// Appends an item, without the end of its line.
pub fn put_item(alloc: Global, out: &mut Vec<u8>, raw: &RawItem) -> Result<(), AllocError>
    ensures { OnOk result (out.new.items ≡ out.old.items ++ spec.item_text raw.now) }
{
    match raw {
        RawItem::Relation(relation) => put_relation(out, relation),
        RawItem::Constant(name, sort) => put_constant(out, name, *sort),
        RawItem::Invariant(kind, name, formula) => put_invariant(out, *kind, name, formula),
        RawItem::Handler(handler) => put_handler(alloc, out, handler),
        RawItem::Timeout(timeout) => put_timeout(out, timeout),
    }
}
