//! The words of a network's lines.
ghost use Rattle.std.specs.Prelude.{◌≡◌, ◌≤◌, ◌+◌, [], IfOk, IfSome, OnOk, length, option_map, slice_set, Some};
ghost use Rattle.text_lines.specs.Text.{next, ended};
ghost use Rattle.text_lines.specs.Numbers.{number_of};
ghost use Rattle.text_lines.specs.Gives.{Finds};
ghost use Rattle.net_text.specs.declared.refusal.NetWhy.TheVariants.{Number};
ghost use Rattle.net_text.specs.Lines.{most, or_why, wants as wanted, behind as behind_of, cells_of, constant_from, constant_of, elements_from, flow_of, has_value as has_value_in, header_of, no_values as no_values_of, packet_of, ports_of, relation_from, sort_of, tuple_of, values_from};

use crate::place::{Open, Values};
use crate::refusal::{NetWhy, Stop};
use csdn_core::event::Packet;
use csdn_core::program::{Constant, Program, Relation};
use csdn_core::terms::{FLOW_SORTS, RelId, Sort};
use net_structs::cells::Cells;
use net_structs::network::{Elements, Network};
use net_structs::read::{are_elements, missing_port};
use sqlite_items::Items;
use std::alloc::{AllocError, Global};
use text_lines::{Words, are_distinct, read_number};

const MOST: u64 = 0xffff_ffff_ffff_ffff;

const PACKET_SORTS: [Sort; 4] = [Sort::Sw, Sort::Ho, Sort::Ho, Sort::Pr];

fn wants(holds: bool, why: NetWhy) -> Result<(), Stop>
    ensures { Finds result (wanted holds why) (λ u. u) }
{
    if holds {
        Ok(())
    } else {
        Err(Stop::Refused(why))
    }
}

// The next word, and the words behind it.
fn word_or<'a>(words: Words<'a>, why: NetWhy) -> Result<(&'a [u8], Words<'a>), Stop>
    ensures { Finds result (or_why (next words.entry) why) (λ w. (w.0.now, w.1)) }
{
    match words.next() {
        Some(found) => Ok(found),
        None => Err(Stop::Refused(why)),
    }
}

fn end_or(words: Words, why: NetWhy) -> Result<(), Stop>
    ensures { Finds result (or_why (ended words.entry) why) (λ u. u) }
{
    match words.end() {
        Some(()) => Ok(()),
        None => Err(Stop::Refused(why)),
    }
}

fn number_or(word: &[u8]) -> Result<u64, Stop>
    ensures { Finds result (or_why (number_of most word.now) Number) (λ n. n) }
{
    match read_number(word, MOST) {
        Some(n) => Ok(n),
        None => Err(Stop::Refused(NetWhy::Number)),
    }
}

/// Reads `vericon-net 1`. Every other line is refused for `Header`.
#[tactic(auto, unfolding(crate::specs::Lines::header_of))]
pub fn header(words: Words) -> Result<(), Stop>
    ensures { Finds result (header_of words.entry) (λ u. u) }
{
    let (name, words) = word_or(words, NetWhy::Header)?;
    let (version, words) = word_or(words, NetWhy::Header)?;
    wants(
        name == b"vericon-net".as_slice() && version == b"1".as_slice(),
        NetWhy::Header,
    )?;
    end_or(words, NetWhy::Header)
}

/// The words behind the first, which has to be `key`; else the line is refused for `Shape`.
#[tactic(auto, unfolding(crate::specs::Lines::behind))]
pub fn behind<'a>(key: &[u8], words: Words<'a>) -> Result<Words<'a>, Stop>
    ensures { Finds result (behind_of key.now words.entry) (λ rest. rest) }
{
    let (word, rest) = word_or(words, NetWhy::Shape)?;
    wants(word == key, NetWhy::Shape)?;
    Ok(rest)
}

// Appends the elements that the words are.
fn elements(words: Words, found: &mut Elements) -> Result<(), Stop>
    ensures { Finds result (elements_from found.old words.entry) (λ u. found.new) }
{
    let mut words = words;
    'words: loop {
        let Some((word, rest)) = words.next() else {
            return Ok(());
        };
        let Some(n) = read_number(word, MOST) else {
            return Err(Stop::Refused(NetWhy::Number));
        };
        if found.push(n).is_err() {
            return Err(Stop::Memory);
        }
        words = rest;
    }
}

/// The elements of a sort, from the words behind `sw`, `ho` or `pr`. Refused are, in order, a word that is no element
/// (`Number`), no words (`Empty`), and an element twice (`Repeated`).
#[tactic(auto, unfolding(crate::specs::Lines::sort_of))]
pub fn sort(alloc: Global, words: Words) -> Result<Elements, Stop>
    ensures { Finds result (sort_of words.entry) (λ es. es) }
{
    let mut found = Items::new(alloc);
    elements(words, &mut found)?;
    if found.len() == 0 {
        return Err(Stop::Refused(NetWhy::Empty));
    }
    match are_distinct(alloc, found.as_slice()) {
        Ok(true) => Ok(found),
        Ok(false) => Err(Stop::Refused(NetWhy::Repeated)),
        Err(_) => Err(Stop::Memory),
    }
}

fn no_values(alloc: Global, constants: &[Constant]) -> Result<Values, AllocError>
    ensures { IfOk result (λ values. values ≡ no_values_of constants.now) }
{
    let mut values = Items::new(alloc);
    let mut rest = constants;
    'constants: while let [_, more @ ..] = rest {
        values.push(None)?;
        rest = more;
    }
    Ok(values)
}

/// The network of these switches and hosts, and of the ports that the words behind `pr` are, without tuples and without
/// values of constants. Refused as by `sort`, and then where a port that the program names is missing (`NoPort`).
#[tactic(auto, unfolding(crate::specs::Lines::ports_of))]
pub fn ports(
    alloc: Global,
    program: &Program,
    sw: &Elements,
    ho: &Elements,
    words: Words,
) -> Result<Open, Stop>
    ensures { Finds result (ports_of program.now sw.now ho.now words.entry) (λ draft. draft) }
{
    let pr = sort(alloc, words)?;
    let Ok(network) = Network::bare(alloc, sw, ho, &pr) else {
        return Err(Stop::Memory);
    };
    if missing_port(&network, program.numerals()).is_some() {
        return Err(Stop::Refused(NetWhy::NoPort));
    }
    match no_values(alloc, program.parts().constants.as_slice()) {
        Ok(values) => Ok(Open { network, values }),
        Err(_) => Err(Stop::Memory),
    }
}

fn constant_at(constants: &[Constant], name: &[u8]) -> Option<(usize, Sort)>
    ensures { result ≡ constant_from 0 constants.now name.now }
{
    let mut at = 0;
    let mut rest = constants;
    'constants: while let [constant, more @ ..] = rest {
        if constant.name.as_slice() == name {
            return Some((at, constant.sort));
        }
        at += 1;
        rest = more;
    }
    None
}

fn has_value(values: &Values, constant: Option<(usize, Sort)>) -> bool
    ensures { result ≡ has_value_in values.now constant }
{
    match constant {
        None => false,
        Some((at, _)) => match values.get(at) {
            None => false,
            Some(value) => value.is_some(),
        },
    }
}

/// The network with the value of `c NAME E`, from the words behind `c`. Refused are, in order, another number of words
/// than two or a constant that has its value (`Shape`), a word that is no element (`Number`), a name that is no
/// constant's (`Name`), and an element of another sort (`Stranger`).
#[tactic(auto, unfolding(crate::specs::Lines::constant_of))]
pub fn constant(program: &Program, draft: Open, words: Words) -> Result<Open, Stop>
    ensures { Finds result (constant_of program.now draft words.entry) (λ new. new) }
{
    let (name, words) = word_or(words, NetWhy::Shape)?;
    let (word, words) = word_or(words, NetWhy::Shape)?;
    end_or(words, NetWhy::Shape)?;
    let found = constant_at(program.parts().constants.as_slice(), name);
    wants(!has_value(&draft.values, found), NetWhy::Shape)?;
    let e = number_or(word)?;
    let Some((at, sort)) = found else {
        return Err(Stop::Refused(NetWhy::Name));
    };
    wants(draft.network.has(sort, e), NetWhy::Stranger)?;
    let Open { network, values } = draft;
    Ok(Open {
        network,
        values: with_value(values, at, e),
    })
}

fn with_value(values: Values, at: usize, e: u64) -> Values
    ensures { result ≡ slice_set values at (Some e) }
{
    let mut values = values;
    if at < values.len() {
        values.set(at, Some(e));
    }
    values
}

/// The values of the constants, in the order of the program; `None` where one of them has none.
pub fn all_values(alloc: Global, values: &Values) -> Result<Option<Elements>, AllocError>
    ensures { IfOk result (λ found. found ≡ values_from [] values.now) }
{
    let mut found = Items::new(alloc);
    let mut rest = values.as_slice();
    'values: while let [value, more @ ..] = rest {
        let Some(e) = *value else {
            return Ok(None);
        };
        found.push(e)?;
        rest = more;
    }
    Ok(Some(found))
}

fn relation_at<'a>(program: &'a Program, name: &[u8]) -> Option<(RelId, &'a Relation)>
    ensures value { option_map (λ r. (r.0.0, r.1.now)) result ≡ relation_from 0 program.now.relations name.now }
    ensures arity { IfSome result (λ r. length r.1.now.sorts ≤ 5) }
{
    let mut at = 0;
    let mut rest = program.parts().relations.as_slice();
    'relations: while let [relation, more @ ..] = rest {
        if relation.name.as_slice() == name {
            return Some((RelId(at), relation));
        }
        at += 1;
        rest = more;
    }
    None
}

#[tactic(auto, unfolding(crate::specs::Lines::cells_of))]
fn cells(network: &Network, sorts: &[Sort], elements: &[u64]) -> Result<Cells, Stop>
    requires { length sorts.now ≤ 5 }
    ensures { Finds result (cells_of network.now sorts.now elements.now) (λ cells. cells) }
{
    if elements.len() != sorts.len() {
        return Err(Stop::Refused(NetWhy::Arity));
    }
    wants(are_elements(network, sorts, elements), NetWhy::Stranger)?;
    Ok(Cells::of(elements))
}

/// The relation and the tuple of `t NAME E ..`, from the words behind `t`. Refused are, in order, no words (`Shape`), a
/// word that is no element (`Number`), a name that is not that of a relation of this kind (`Name`), another number of
/// elements than it has (`Arity`), and an element of another sort (`Stranger`).
#[tactic(auto, unfolding(crate::specs::Lines::tuple_of))]
pub fn tuple(
    alloc: Global,
    program: &Program,
    is_static: bool,
    network: &Network,
    words: Words,
) -> Result<(RelId, Cells), Stop>
    ensures { Finds result (tuple_of program.now is_static network.now words.entry) (λ t. (t.0.0, t.1)) }
{
    let (name, words) = word_or(words, NetWhy::Shape)?;
    let mut found = Items::new(alloc);
    elements(words, &mut found)?;
    let Some((rel, relation)) = relation_at(program, name) else {
        return Err(Stop::Refused(NetWhy::Name));
    };
    wants(relation.fixed == is_static, NetWhy::Name)?;
    let cells = cells(network, relation.sorts.as_slice(), found.as_slice())?;
    Ok((rel, cells))
}

/// The tuple of `ft E E E E E` and of `sent E E E E E`, from the words behind their first. Refused are, in order, a
/// word that is no element (`Number`), another number of words than five (`Arity`), and an element of another sort
/// (`Stranger`).
#[tactic(auto, unfolding(crate::specs::Lines::flow_of))]
pub fn flow(alloc: Global, network: &Network, words: Words) -> Result<Cells, Stop>
    ensures { Finds result (flow_of network.now words.entry) (λ cells. cells) }
{
    let mut found = Items::new(alloc);
    elements(words, &mut found)?;
    cells(network, &FLOW_SORTS, found.as_slice())
}

/// The packet of `packet E E E E`, from the words behind `packet`: switch, source, destination and ingress port.
/// Refused are, in order, another number of words than four (`Shape`), a word that is no element (`Number`), and an
/// element of another sort (`Stranger`).
#[tactic(auto, unfolding(crate::specs::Lines::packet_of))]
pub fn packet(network: &Network, words: Words) -> Result<Packet, Stop>
    ensures { Finds result (packet_of network.now words.entry) (λ packet. packet) }
{
    let (s, words) = word_or(words, NetWhy::Shape)?;
    let (a, words) = word_or(words, NetWhy::Shape)?;
    let (b, words) = word_or(words, NetWhy::Shape)?;
    let (i, words) = word_or(words, NetWhy::Shape)?;
    end_or(words, NetWhy::Shape)?;
    let s = number_or(s)?;
    let a = number_or(a)?;
    let b = number_or(b)?;
    let i = number_or(i)?;
    wants(
        are_elements(network, &PACKET_SORTS, &[s, a, b, i]),
        NetWhy::Stranger,
    )?;
    Ok(Packet::At { s, a, b, i })
}
