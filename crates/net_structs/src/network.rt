//! Networks.
ghost use Rattle.std.specs.Prelude.{◌≡◌, ◌↔◌, ◌<◌, ◌≤◌, ◌^◌, All, IsTrue, IfOk, OnOk, OnErr, not, slice_index, refl};
ghost use Rattle.std.specs.List.Sorted.{IsStrictlyIncreasing, IsStrictlySortedBy};
ghost use Rattle.net_structs.specs.Rows.{row_cmp};
ghost use Rattle.std.specs.Ordering.{as_partial_cmp, eq_by_cmp, nat_cmp};
ghost use Rattle.std.specs.Cmp.{eq_by_cmp_equiv, partial_equiv_from_equiv, partial_order_from_total};
ghost use Rattle.csdn_core.specs.Network.{elements as elements_of, is_static_row};
ghost use Rattle.net_structs.specs.Networks.{IsServable, as_stored, bare_network, fixed_cmp, fixed_total, has as has_element, in_order, with_static};

use crate::cells::Cells;
use crate::row::{Row, Rows};
use csdn_core::terms::{ConstId, Pred, RelId, Sort};
use sqlite_items::Items;
use std::alloc::{AllocError, Global};
use std::cmp::Ordering;
use std::collections::BTreeSet;
use std::marker::Model;

/// Elements of a sort.
pub type Elements = Items<u64>;

/// A tuple of a static relation. They are ordered by their relations, in the program's order, and then by their elements.
#[derive(Drop)]
pub struct FixedRow {
    pub rel: RelId,
    pub cells: Cells,
}

impl PartialEq for FixedRow {
    ghost eq = { eq_by_cmp fixed_cmp };

    ghost laws = { partial_equiv_from_equiv (eq_by_cmp_equiv fixed_total) };

    fn eq(&self, other: &FixedRow) -> bool {
        self.cmp(other) == Ordering::Equal
    }
}

impl Eq for FixedRow {
    ghost laws = { eq_by_cmp_equiv fixed_total };
}

impl PartialOrd for FixedRow {
    ghost partial_cmp = { as_partial_cmp fixed_cmp };

    ghost laws = { partial_order_from_total fixed_total };

    fn partial_cmp(&self, other: &FixedRow) -> Option<Ordering> {
        Some(self.cmp(other))
    }
}

impl Ord for FixedRow {
    ghost cmp = { fixed_cmp };

    ghost total = { fixed_total };

    ghost matches_partial_cmp = { λ x y. refl };

    ghost matches_eq = { λ x y. refl };

    fn cmp(&self, other: &FixedRow) -> Ordering {
        self.rel
            .0
            .cmp(&other.rel.0)
            .then(self.cells.cmp(&other.cells))
    }
}

/// A network of a program: what doesn't change while it runs. Clauses see it as `csdn_core` defines it.
pub struct Network {
    pub(crate) sw: Elements,
    pub(crate) ho: Elements,
    pub(crate) pr: Elements,
    pub(crate) consts: Elements,
    pub(crate) rows: BTreeSet<FixedRow>,
}

impl Drop for Network {
    fn drop(self) {
        let Network {
            sw: _sw,
            ho: _ho,
            pr: _pr,
            consts: _consts,
            rows: _rows,
        } = self;
    }
}

impl Model for Network {
    ghost use Rattle.std.specs.Prelude.{map};
    ghost use Rattle.std.specs.List.Sorted.{IsStrictlySortedBy};
    ghost use Rattle.std.specs.Ordering.{nat_cmp};
    ghost use Rattle.csdn_core.specs.Network.{Network as SpecNetwork};
    ghost use Rattle.net_structs.specs.Networks.{static_of, fixed_cmp};

    ghost Value = { SpecNetwork };

    ghost view = { λ n. record { switches = n.sw; hosts = n.ho; ports = n.pr; constants = n.consts; rows = map static_of n.rows.keys } };

    ghost invariant = { λ n. IsStrictlySortedBy nat_cmp n.sw × IsStrictlySortedBy nat_cmp n.ho × IsStrictlySortedBy nat_cmp n.pr × IsStrictlySortedBy fixed_cmp n.rows.keys };
}

impl Network {
    /// The network of these sorts, without values of constants and without tuples. A repeated element is read once.
    pub fn bare(
        alloc: Global,
        sw: &Elements,
        ho: &Elements,
        pr: &Elements,
    ) -> Result<Network, AllocError>
        ensures { IfOk result (λ network. network ≡ bare_network sw.now ho.now pr.now) }
    {
        Ok(Network {
            sw: ordered(alloc, sw)?,
            ho: ordered(alloc, ho)?,
            pr: ordered(alloc, pr)?,
            consts: Items::new(alloc),
            rows: BTreeSet::new(alloc),
        })
    }

    /// The network with these values of its constants.
    pub fn with_values(self, values: Elements) -> Network
        ensures { result ≡ record self { constants = values } }
    {
        let mut network = self;
        network.consts = values;
        network
    }

    /// Puts a tuple into a static relation, and says whether it is new there.
    pub fn insert(&mut self, rel: RelId, cells: &Cells) -> Result<bool, AllocError>
        ensures is_new { IfOk result (λ is_new. is_new ≡ not (is_static_row self.old rel.0 cells.now)) }
        ensures put { OnOk result (self.new ≡ with_static self.old rel.0 cells.now) }
        ensures err { OnErr result (self.new ≡ self.old) }
    {
        let is_new = self.rows.insert(FixedRow {
            rel,
            cells: cells.copy(),
        })?;
        Ok(is_new)
    }

    /// The elements of a sort, rising.
    pub fn elements(&self, sort: Sort) -> &[u64]
        ensures elements { result.now ≡ elements_of self.now sort }
        ensures rising { IsStrictlyIncreasing result.now }
    {
        match sort {
            Sort::Sw => self.sw.as_slice(),
            Sort::Ho => self.ho.as_slice(),
            Sort::Pr => self.pr.as_slice(),
        }
    }

    /// Whether a sort has an element. It takes log n steps.
    pub fn has(&self, sort: Sort, element: u64) -> bool
        ensures { result ≡ has_element (elements_of self.now sort) element }
    {
        self.elements(sort).binary_search(&element).is_ok()
    }

    /// The value of a constant of the network's program; 0 for an id that is none's.
    pub fn value(&self, id: ConstId) -> u64
        ensures { result ≡ slice_index self.now.constants id.0 }
    {
        let values = self.consts.as_slice();
        let place = id.0 as usize;
        if place < values.len() {
            values[place]
        } else {
            0
        }
    }

    /// The values of the constants, in the program's order.
    pub fn values(&self) -> &[u64]
        ensures { result.now ≡ self.now.constants }
    {
        self.consts.as_slice()
    }

    /// Whether a tuple is in a static relation. It takes log n steps.
    pub fn holds(&self, rel: RelId, cells: &Cells) -> bool
        ensures { result ≡ is_static_row self.now rel.0 cells.now }
    {
        let row = FixedRow {
            rel,
            cells: cells.copy(),
        };
        self.rows.contains(&row)
    }

    /// The tuples of the static relations, rising.
    pub fn rows(&self, alloc: Global) -> Result<Rows, AllocError>
        ensures rows { IfOk result (λ rows. rows ≡ as_stored self.now.rows) }
        ensures rising { IfOk result (λ rows. IsStrictlySortedBy row_cmp rows) }
    {
        let mut rows = Items::new(alloc);
        'rows: for row in &self.rows {
            rows.push(Row {
                pred: Pred::Stored(row.rel),
                cells: row.cells.copy(),
            })?;
        }
        Ok(rows)
    }

    /// Whether OpenFlow can name its hosts and ports: each host is below 2^48, each port is from 1 to 65,280, and there are
    /// at most 4,096 ports.
    pub fn is_servable(&self) -> bool
        ensures { IsTrue result ↔ IsServable self.now }
    {
        are_addresses(self.ho.as_slice())
            && are_port_numbers(self.pr.as_slice())
            && self.pr.len() <= 4096
    }
}

// The elements in order, each once.
fn ordered(alloc: Global, elements: &Elements) -> Result<Elements, AllocError>
    ensures order { IfOk result (λ ordered. ordered ≡ in_order nat_cmp elements.now) }
    ensures sorted { IfOk result (λ ordered. IsStrictlySortedBy nat_cmp ordered) }
{
    let mut set = BTreeSet::new(alloc);
    let mut rest = elements.as_slice();
    'elements: while let [element, more @ ..] = rest {
        set.insert(*element)?;
        rest = more;
    }
    listed(alloc, &set)
}

/// The members of a set of numbers.
pub(crate) fn listed(alloc: Global, set: &BTreeSet<u64>) -> Result<Elements, AllocError>
    ensures keys { IfOk result (λ elements. elements ≡ set.now.keys) }
    ensures sorted { IfOk result (λ elements. IsStrictlySortedBy nat_cmp elements) }
{
    let mut elements = Items::new(alloc);
    'elements: for element in set {
        elements.push(*element)?;
    }
    Ok(elements)
}

fn are_addresses(hosts: &[u64]) -> bool
    ensures { IsTrue result ↔ All (λ m. m < 2 ^ 48) hosts.now }
{
    hosts.iter().all(|m| *m < 1 << 48)
}

fn are_port_numbers(ports: &[u64]) -> bool
    ensures { IsTrue result ↔ All (λ k. (1 ≤ k) × (k ≤ 65280)) ports.now }
{
    ports.iter().all(|k| 1 <= *k && *k <= 65280)
}
