//! Formulas.
#![tactic(auto, using(crate::specs::Steps::formula_steps, csdn_tree::specs::NodeSteps::raw_node_steps))]

ghost use Rattle.std.specs.Prelude.{◌≡◌, ◌++◌, OnOk, codes};
ghost use Rattle.csdn_print.specs.declared.forms.Lead.TheVariants.{Nothing, Binds};
ghost use Rattle.csdn_print.specs.Words as words;
ghost use Rattle.csdn_print.specs.Words.{◌·◌};
ghost use Rattle.csdn_print.specs.Formulas as spec;
ghost use Rattle.csdn_tree.specs.Tiers.{left_of, right_of};

use crate::forms::{Lead, connective_text, lead_text, quantifier_text};
use crate::words::{put_bind, put_flow, put_packet, put_term, put_terms};
use csdn_core::terms::Sort;
use csdn_tree::names::{RawName, RawTerm};
use csdn_tree::syntax::{Connective, FlowWord, Quantifier, RawFlow, RawFormula, RawPacket};
use csdn_tree::tiers::{Tier, left_of, right_of};
use std::alloc::AllocError;
use text_lines::put_word;

/// The level that a place beside a word needs.
fn tier_level(tier: Tier) -> u8
    ensures { result ≡ spec.tier_level tier }
{
    match tier {
        Tier::Single => 5,
        Tier::Joins(Connective::And) => 4,
        Tier::Joins(Connective::Or) => 3,
        Tier::Joins(Connective::Implies) => 2,
        Tier::Joins(Connective::Iff) => 1,
    }
}

/// How tightly a formula holds together.
fn level(p: &RawFormula) -> u8
    ensures { result ≡ spec.level p.now }
{
    match p {
        RawFormula::True => 5,
        RawFormula::False => 5,
        RawFormula::Atom(_, _) => 5,
        RawFormula::Same(_, _) => 5,
        RawFormula::Flow(_, _, _) => 5,
        RawFormula::RcvThis(_, _) => 5,
        RawFormula::Not(_) => 5,
        RawFormula::Two(word, _, _) => tier_level(Tier::Joins(*word)),
        RawFormula::Bind(_, _, _, _) => 0,
    }
}

fn put_atom(
    out: &mut Vec<u8>,
    lead: Lead,
    name: &RawName,
    terms: &[RawTerm],
) -> Result<(), AllocError>
    ensures { OnOk result (out.new.items ≡ out.old.items ++ (spec.lead_text lead · name.now.text · words.terms_text terms.now)) }
{
    put_word(out, lead_text(lead))?;
    put_word(out, name.text.as_slice())?;
    put_terms(out, terms)
}

fn put_same(
    out: &mut Vec<u8>,
    lead: Lead,
    left: &RawTerm,
    right: &RawTerm,
) -> Result<(), AllocError>
    ensures { OnOk result (out.new.items ≡ out.old.items ++ (spec.lead_text lead · words.term_text left.now · codes " = " · words.term_text right.now)) }
{
    put_word(out, lead_text(lead))?;
    put_term(out, left)?;
    put_word(out, b" = ")?;
    put_term(out, right)
}

fn flow_word(word: FlowWord) -> &'static [u8]
    ensures { result.now ≡ spec.flow_word word }
{
    match word {
        FlowWord::Ft => b".ft",
        FlowWord::Sent => b".sent",
    }
}

fn put_flow_atom(
    out: &mut Vec<u8>,
    lead: Lead,
    word: FlowWord,
    flow: &RawFlow,
) -> Result<(), AllocError>
    ensures { OnOk result (out.new.items ≡ out.old.items ++ (spec.lead_text lead · flow.now.switch.text · spec.flow_word word · words.flow_text flow.now)) }
{
    put_word(out, lead_text(lead))?;
    put_word(out, flow.switch.text.as_slice())?;
    put_word(out, flow_word(word))?;
    put_flow(out, flow)
}

fn put_packet_atom(out: &mut Vec<u8>, lead: Lead, packet: &RawPacket) -> Result<(), AllocError>
    ensures { OnOk result (out.new.items ≡ out.old.items ++ (spec.lead_text lead · packet.now.switch.text · codes ".rcv_this" · words.packet_text packet.now)) }
{
    put_word(out, lead_text(lead))?;
    put_word(out, packet.switch.text.as_slice())?;
    put_word(out, b".rcv_this")?;
    put_packet(out, packet)
}

/// A word, with what parts it from what it stands behind.
fn put_behind(out: &mut Vec<u8>, lead: Lead, word: &[u8]) -> Result<(), AllocError>
    ensures { OnOk result (out.new.items ≡ out.old.items ++ (spec.lead_text lead · word.now)) }
{
    put_word(out, lead_text(lead))?;
    put_word(out, word)
}

/// Appends a formula, with what parts it from what it stands behind.
#[cycle(formula)]
pub fn put_formula(out: &mut Vec<u8>, lead: Lead, p: &RawFormula) -> Result<(), AllocError>
    ensures { OnOk result (out.new.items ≡ out.old.items ++ spec.formula_text lead p.now) }
{
    match p {
        RawFormula::Bind(which, name, sort, p) => {
            put_quantified(out, lead, *which, name, *sort, p.get())
        }
        RawFormula::True => put_behind(out, lead, b"true"),
        RawFormula::False => put_behind(out, lead, b"false"),
        RawFormula::Atom(name, terms) => put_atom(out, lead, name, terms.as_slice()),
        RawFormula::Same(left, right) => put_same(out, lead, left, right),
        RawFormula::Flow(_, word, flow) => put_flow_atom(out, lead, *word, flow),
        RawFormula::RcvThis(_, packet) => put_packet_atom(out, lead, packet),
        RawFormula::Not(p) => put_not(out, lead, p.get()),
        RawFormula::Two(word, p, r) => put_two(out, lead, *word, p.get(), r.get()),
    }
}

/// `not` and its operand.
#[cycle(formula)]
fn put_not(out: &mut Vec<u8>, lead: Lead, p: &RawFormula) -> Result<(), AllocError>
    ensures { OnOk result (out.new.items ≡ out.old.items ++ (spec.lead_text lead · codes "not " · spec.operand 5 (spec.level p.now) (spec.formula_text Nothing p.now))) }
{
    put_behind(out, lead, b"not ")?;
    put_operand(out, 5, p)
}

/// A formula where a level is needed: in parentheses where its own is below.
#[cycle(formula)]
fn put_operand(out: &mut Vec<u8>, needed: u8, p: &RawFormula) -> Result<(), AllocError>
    ensures { OnOk result (out.new.items ≡ out.old.items ++ spec.operand needed (spec.level p.now) (spec.formula_text Nothing p.now)) }
{
    if level(p) < needed {
        put_word(out, b"(")?;
        put_formula(out, Lead::Nothing, p)?;
        put_word(out, b")")
    } else {
        put_formula(out, Lead::Nothing, p)
    }
}

/// Two formulas and the word between them.
#[cycle(formula)]
fn put_two(
    out: &mut Vec<u8>,
    lead: Lead,
    word: Connective,
    p: &RawFormula,
    r: &RawFormula,
) -> Result<(), AllocError>
    ensures { OnOk result (out.new.items ≡ out.old.items ++ (spec.lead_text lead
        · spec.operand (spec.tier_level (left_of word)) (spec.level p.now) (spec.formula_text Nothing p.now) · spec.connective_text word
        · spec.operand (spec.tier_level (right_of word)) (spec.level r.now) (spec.formula_text Nothing r.now))) }
{
    put_word(out, lead_text(lead))?;
    put_operand(out, tier_level(left_of(word)), p)?;
    put_word(out, connective_text(word))?;
    put_operand(out, tier_level(right_of(word)), r)
}

/// A quantifier with its name, and what it binds it in.
#[cycle(formula)]
fn put_quantified(
    out: &mut Vec<u8>,
    lead: Lead,
    which: Quantifier,
    name: &RawName,
    sort: Sort,
    p: &RawFormula,
) -> Result<(), AllocError>
    ensures { OnOk result (out.new.items ≡ out.old.items ++ (spec.quantifier_text lead which · name.now.text · codes ":" · words.sort_text sort
        · spec.formula_text (Binds which) p.now)) }
{
    put_word(out, quantifier_text(lead, which))?;
    put_bind(out, name, sort)?;
    put_formula(out, Lead::Binds(which), p)
}
