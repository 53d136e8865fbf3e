//! Names, terms, rows and sorts.
ghost use Rattle.std.specs.Prelude.{◌≡◌, ◌++◌, OnOk, codes, map};
ghost use Rattle.csdn_print.specs.Words.{◌·◌};
ghost use Rattle.csdn_print.specs.Words as spec;

use csdn_core::terms::Sort;
use csdn_tree::names::{RawName, RawNumeral, RawTerm};
use csdn_tree::syntax::{RawFlow, RawPacket};
use std::alloc::AllocError;
use text_lines::{put_number, put_word};

/// The word of a sort: `SW`, `HO` or `PR`.
pub fn sort_text(sort: Sort) -> &'static [u8]
    ensures { result.now ≡ spec.sort_text sort }
{
    match sort {
        Sort::Sw => b"SW",
        Sort::Ho => b"HO",
        Sort::Pr => b"PR",
    }
}

/// Appends `prt(k)`, with k in decimal.
pub fn put_port(out: &mut Vec<u8>, port: &RawNumeral) -> Result<(), AllocError>
    ensures { OnOk result (out.new.items ≡ out.old.items ++ spec.port_text port.now) }
{
    put_word(out, b"prt(")?;
    put_number(out, u64::from(port.number))?;
    put_word(out, b")")
}

/// Appends a term: a name's bytes, or `prt(k)`.
pub fn put_term(out: &mut Vec<u8>, term: &RawTerm) -> Result<(), AllocError>
    ensures { OnOk result (out.new.items ≡ out.old.items ++ spec.term_text term.now) }
{
    match term {
        RawTerm::Name(name) => put_word(out, name.text.as_slice()),
        RawTerm::Port(port) => put_port(out, port),
    }
}

fn put_more_terms(out: &mut Vec<u8>, mut terms: &[RawTerm]) -> Result<(), AllocError>
    ensures { OnOk result (out.new.items ≡ out.old.items ++ spec.more_listed (map spec.term_text terms.entry.now)) }
{
    'more: while let [term, rest @ ..] = terms {
        put_word(out, b", ")?;
        put_term(out, term)?;
        terms = rest;
    }
    Ok(())
}

/// Appends terms, with `, ` between them, in parentheses.
pub fn put_terms(out: &mut Vec<u8>, terms: &[RawTerm]) -> Result<(), AllocError>
    ensures { OnOk result (out.new.items ≡ out.old.items ++ spec.terms_text terms.now) }
{
    put_word(out, b"(")?;
    if let [first, rest @ ..] = terms {
        put_term(out, first)?;
        put_more_terms(out, rest)?;
    }
    put_word(out, b")")
}

fn put_more_sorts(out: &mut Vec<u8>, mut sorts: &[Sort]) -> Result<(), AllocError>
    ensures { OnOk result (out.new.items ≡ out.old.items ++ spec.more_listed (map spec.sort_text sorts.entry.now)) }
{
    'more: while let [sort, rest @ ..] = sorts {
        put_word(out, b", ")?;
        put_word(out, sort_text(*sort))?;
        sorts = rest;
    }
    Ok(())
}

/// Appends sorts, with `, ` between them, in parentheses.
pub fn put_sorts(out: &mut Vec<u8>, sorts: &[Sort]) -> Result<(), AllocError>
    ensures { OnOk result (out.new.items ≡ out.old.items ++ spec.sorts_text sorts.now) }
{
    put_word(out, b"(")?;
    if let [first, rest @ ..] = sorts {
        put_word(out, sort_text(*first))?;
        put_more_sorts(out, rest)?;
    }
    put_word(out, b")")
}

/// Two terms with an arrow between them.
fn put_arrow(out: &mut Vec<u8>, from: &RawTerm, to: &RawTerm) -> Result<(), AllocError>
    ensures { OnOk result (out.new.items ≡ out.old.items ++ (spec.term_text from.now · codes "->" · spec.term_text to.now)) }
{
    put_term(out, from)?;
    put_word(out, b"->")?;
    put_term(out, to)
}

/// Appends `(source->target, ingress->egress)`.
pub fn put_flow(out: &mut Vec<u8>, flow: &RawFlow) -> Result<(), AllocError>
    ensures { OnOk result (out.new.items ≡ out.old.items ++ spec.flow_text flow.now) }
{
    put_word(out, b"(")?;
    put_arrow(out, &flow.source, &flow.target)?;
    put_word(out, b", ")?;
    put_arrow(out, &flow.ingress, &flow.egress)?;
    put_word(out, b")")
}

/// Appends `(source->target, ingress)`.
pub fn put_packet(out: &mut Vec<u8>, packet: &RawPacket) -> Result<(), AllocError>
    ensures { OnOk result (out.new.items ≡ out.old.items ++ spec.packet_text packet.now) }
{
    put_word(out, b"(")?;
    put_arrow(out, &packet.source, &packet.target)?;
    put_word(out, b", ")?;
    put_term(out, &packet.ingress)?;
    put_word(out, b")")
}

/// Appends `name:SORT`.
pub fn put_bind(out: &mut Vec<u8>, name: &RawName, sort: Sort) -> Result<(), AllocError>
    ensures { OnOk result (out.new.items ≡ out.old.items ++ (name.now.text · codes ":" · spec.sort_text sort)) }
{
    put_word(out, name.text.as_slice())?;
    put_word(out, b":")?;
    put_word(out, sort_text(sort))
}
