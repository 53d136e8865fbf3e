//! Networks from their parts.
ghost use Rattle.std.specs.Prelude.{◌≡◌, IfOk, []};
ghost use Rattle.std.specs.Ordering.{nat_cmp};
ghost use Rattle.std.specs.List.Sorted.{IsStrictlySortedBy};
ghost use Rattle.csdn_core.specs.Network.{elements as elements_of, IsNetwork};
ghost use Rattle.net_structs.specs.Networks.{fixed_cmp, fixed_rows as fixed_rows_of, in_order};
ghost use Rattle.net_structs.specs.Refusals.{IsAnswer, IsRising, empty_sort as first_empty, fault_in, have_elements, is_empty as is_empty_list, is_static_tuple, missing_port as first_missing, strange_const_from, strange_row_from};

use crate::cells::Cells;
use crate::network::{Elements, FixedRow, Network, listed};
use crate::row::{Row, Rows};
use csdn_core::program::{Constant, Program};
use csdn_core::terms::{Pred, Sort};
use std::alloc::{AllocError, Global};
use std::collections::BTreeSet;
use thiserror::Error;

/// What a network is read from.
#[derive(Drop)]
pub struct NetParts {
    /// The switches, in any order.
    pub sw: Elements,
    /// The hosts, in any order.
    pub ho: Elements,
    /// The ports, in any order.
    pub pr: Elements,
    /// The values of the constants, in the program's order.
    pub consts: Elements,
    /// The tuples of the static relations, in any order.
    pub rows: Rows,
}

/// Why parts are no network of a program.
#[derive(Debug, Drop, Error)]
pub enum NetRefusal {
    /// The first sort without elements, in the order SW, HO, PR.
    #[error("a sort has no elements")]
    EmptySort { sort: Sort },
    /// The first element of the sort's list that stands earlier in it.
    #[error("element {element} stands twice")]
    RepeatedElement { sort: Sort, element: u64 },
    /// The first numeral of the program that is no port.
    #[error("port {k} is missing")]
    MissingPort { k: u16 },
    /// The first constant whose value isn't of its sort; or the place at which constants and values end unevenly.
    #[error("the value of constant {place} is not of its sort")]
    StrangeConst { place: usize },
    /// The first row that isn't a tuple of a static relation with elements of its sorts.
    #[error("row {row} is not of its sorts")]
    StrangeElement { row: usize },
    #[error("out of memory")]
    Memory,
}

impl Network {
    /// The network of these parts. Those that are no network of the program are refused, and of the refusals that apply the
    /// first in the order of `NetRefusal`, with the sorts in the order SW, HO, PR. A repeated row is read once.
    pub fn try_new(alloc: Global, program: &Program, parts: NetParts) -> Result<Network, NetRefusal>
        ensures answer { IsAnswer program.now parts result }
        ensures network { IfOk result (λ network. IsNetwork program.now network) }
    {
        from_parts(alloc, program, parts)
    }
}

fn from_parts(alloc: Global, program: &Program, parts: NetParts) -> Result<Network, NetRefusal>
    ensures { IsAnswer program.now parts result }
{
    if let Some(sort) = empty_sort(&parts) {
        return Err(NetRefusal::EmptySort { sort });
    }
    let sw = rising(alloc, Sort::Sw, &parts.sw)?;
    let ho = rising(alloc, Sort::Ho, &parts.ho)?;
    let pr = rising(alloc, Sort::Pr, &parts.pr)?;
    let Ok(fixed) = fixed_rows(alloc, &parts.rows) else {
        return Err(NetRefusal::Memory);
    };
    let NetParts { consts, rows, .. } = parts;
    let network = Network {
        sw,
        ho,
        pr,
        consts,
        rows: fixed,
    };
    match fault(&network, program, rows.as_slice()) {
        Some(refusal) => Err(refusal),
        None => Ok(network),
    }
}

fn empty_sort(parts: &NetParts) -> Option<Sort>
    ensures { result ≡ first_empty parts.now }
{
    if is_empty(parts.sw.as_slice()) {
        Some(Sort::Sw)
    } else if is_empty(parts.ho.as_slice()) {
        Some(Sort::Ho)
    } else if is_empty(parts.pr.as_slice()) {
        Some(Sort::Pr)
    } else {
        None
    }
}

fn is_empty(elements: &[u64]) -> bool
    ensures { result ≡ is_empty_list elements.now }
{
    match elements {
        [] => true,
        [_, ..] => false,
    }
}

// The elements in order.
fn rising(alloc: Global, sort: Sort, elements: &Elements) -> Result<Elements, NetRefusal>
    ensures answer { IsRising sort elements.now result (in_order nat_cmp elements.now) }
    ensures sorted { IfOk result (λ rising. IsStrictlySortedBy nat_cmp rising) }
{
    let mut set = BTreeSet::new(alloc);
    let mut rest = elements.as_slice();
    'elements: while let [element, more @ ..] = rest {
        let element = *element;
        match set.insert(element) {
            Ok(true) => rest = more,
            Ok(false) => return Err(NetRefusal::RepeatedElement { sort, element }),
            Err(_) => return Err(NetRefusal::Memory),
        }
    }
    match listed(alloc, &set) {
        Ok(elements) => Ok(elements),
        Err(_) => Err(NetRefusal::Memory),
    }
}

fn fixed_rows(alloc: Global, rows: &Rows) -> Result<BTreeSet<FixedRow>, AllocError>
    ensures keys { IfOk result (λ set. set.keys ≡ in_order fixed_cmp (fixed_rows_of rows.now)) }
    ensures sorted { IfOk result (λ set. IsStrictlySortedBy fixed_cmp set.keys) }
{
    let mut set = BTreeSet::new(alloc);
    let mut rest = rows.as_slice();
    'rows: while let [row, more @ ..] = rest {
        if let Pred::Stored(rel) = row.pred {
            set.insert(FixedRow {
                rel,
                cells: row.cells.copy(),
            })?;
        }
        rest = more;
    }
    Ok(set)
}

// What is wrong with the network beside its program.
fn fault(network: &Network, program: &Program, rows: &[Row]) -> Option<NetRefusal>
    ensures { result ≡ fault_in program.now network.now rows.now }
{
    if let Some(k) = missing_port(network, program.numerals()) {
        return Some(NetRefusal::MissingPort { k });
    }
    if let Some(place) = strange_const(
        network,
        program.parts().constants.as_slice(),
        network.values(),
    ) {
        return Some(NetRefusal::StrangeConst { place });
    }
    match strange_row(network, program, rows) {
        Some(row) => Some(NetRefusal::StrangeElement { row }),
        None => None,
    }
}

/// The first of the numerals that is no port; `None` where all are.
pub fn missing_port(network: &Network, numerals: &[u16]) -> Option<u16>
    ensures { result ≡ first_missing network.now.ports numerals.now }
{
    let mut rest = numerals;
    'numerals: while let [k, more @ ..] = rest {
        if !network.has(Sort::Pr, u64::from(*k)) {
            return Some(*k);
        }
        rest = more;
    }
    None
}

fn strange_const(network: &Network, constants: &[Constant], values: &[u64]) -> Option<usize>
    ensures { result ≡ strange_const_from 0 network.now constants.now values.now }
{
    let mut constants = constants;
    let mut values = values;
    let mut place = 0;
    'constants: while let [constant, more_constants @ ..] = constants {
        let [value, more_values @ ..] = values else {
            return Some(place);
        };
        if !network.has(constant.sort, *value) {
            return Some(place);
        }
        constants = more_constants;
        values = more_values;
        place += 1;
    }
    match values {
        [] => None,
        [_, ..] => Some(place),
    }
}

fn strange_row(network: &Network, program: &Program, rows: &[Row]) -> Option<usize>
    ensures { result ≡ strange_row_from 0 program.now network.now rows.now }
{
    let mut rest = rows;
    let mut place = 0;
    'rows: while let [row, more @ ..] = rest {
        if !is_static(network, program, row.pred, &row.cells) {
            return Some(place);
        }
        rest = more;
        place += 1;
    }
    None
}

fn is_static(network: &Network, program: &Program, pred: Pred, cells: &Cells) -> bool
    ensures { result ≡ is_static_tuple program.now network.now pred cells.now }
{
    match pred {
        Pred::Stored(rel) => match program.parts().relations.get(rel.0 as usize) {
            Some(relation) => relation.fixed
                && are_elements(network, relation.sorts.as_slice(), cells.as_slice()),
            None => false,
        },
        Pred::Ft | Pred::Sent | Pred::RcvThis => false,
    }
}

/// Whether there are as many cells as sorts, and each cell is an element of its sort.
pub fn are_elements(network: &Network, sorts: &[Sort], cells: &[u64]) -> bool
    ensures { result ≡ have_elements network.now sorts.now cells.now }
{
    match sorts {
        [] => cells.is_empty(),
        [sort, sorts @ ..] => match cells {
            [] => false,
            [cell, cells @ ..] => network.has(*sort, *cell) && are_elements(network, sorts, cells),
        },
    }
}
