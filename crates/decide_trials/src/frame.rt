//! The elements of small networks, and the tuples over them.
use csdn_core::program::Program;
use csdn_core::terms::{FLOW_SORTS, Pred, RelId, Sort};
use net_structs::cells::Cells;
use net_structs::network::Elements;
use net_structs::row::Row;
use sqlite_items::Items;
use std::alloc::{AllocError, Global};

/// The most tuples of which all sets are gone through.
const MOST_TUPLES: usize = 12;

/// How many switches, hosts and ports there are.
#[derive(Clone, Copy, Debug, PartialEq, Eq)]
pub struct Size {
    pub switches: u64,
    pub hosts: u64,
    pub ports: usize,
}

/// The elements of a network.
#[derive(Drop)]
pub struct Frame {
    pub switches: Elements,
    pub hosts: Elements,
    pub ports: Elements,
}

impl Frame {
    /// The least switches and hosts, and the ports that the program names with the least others; none where the program names
    /// more ports than there are.
    pub fn of(alloc: Global, program: &Program, size: Size) -> Result<Option<Frame>, AllocError> {
        let ports = ports_of(alloc, program, size.ports)?;
        if ports.len() > size.ports {
            return Ok(None);
        }
        Ok(Some(Frame {
            switches: least(alloc, size.switches)?,
            hosts: least(alloc, size.hosts)?,
            ports,
        }))
    }

    fn elements(&self, sort: Sort) -> &[u64] {
        match sort {
            Sort::Sw => self.switches.as_slice(),
            Sort::Ho => self.hosts.as_slice(),
            Sort::Pr => self.ports.as_slice(),
        }
    }

    /// All tuples of elements of these sorts, of which there are at most five.
    pub fn tuples(&self, alloc: Global, sorts: &[Sort]) -> Result<Vec<Cells>, AllocError> {
        let mut tuples = Vec::new(alloc);
        tuples.push(Cells::new())?;
        for sort in sorts {
            tuples = extended(alloc, &tuples, self.elements(*sort))?;
        }
        Ok(tuples)
    }

    /// All tuples of the static relations.
    pub fn fixed_rows(&self, alloc: Global, program: &Program) -> Result<Vec<Row>, AllocError> {
        self.stored_rows(alloc, program, true)
    }

    /// All tuples that a state may have.
    pub fn state_rows(&self, alloc: Global, program: &Program) -> Result<Vec<Row>, AllocError> {
        let mut rows = self.stored_rows(alloc, program, false)?;
        self.push_rows(alloc, &mut rows, Pred::Ft, &FLOW_SORTS)?;
        self.push_rows(alloc, &mut rows, Pred::Sent, &FLOW_SORTS)?;
        Ok(rows)
    }

    fn stored_rows(
        &self,
        alloc: Global,
        program: &Program,
        fixed: bool,
    ) -> Result<Vec<Row>, AllocError> {
        let relations = program.parts().relations.as_slice();
        let mut rows = Vec::new(alloc);
        for (place, relation) in relations.iter().enumerate() {
            if relation.fixed == fixed {
                let pred = Pred::Stored(RelId(place as u32));
                self.push_rows(alloc, &mut rows, pred, relation.sorts.as_slice())?;
            }
        }
        Ok(rows)
    }

    // A relation that would make the tuples too many is left out: it stays empty in all that is gone through.
    fn push_rows(
        &self,
        alloc: Global,
        rows: &mut Vec<Row>,
        pred: Pred,
        sorts: &[Sort],
    ) -> Result<(), AllocError> {
        let tuples = self.tuples(alloc, sorts)?;
        if rows.len().saturating_add(tuples.len()) > MOST_TUPLES {
            return Ok(());
        }
        for tuple in &tuples {
            rows.push(Row {
                pred,
                cells: tuple.copy(),
            })?;
        }
        Ok(())
    }
}

/// Each tuple with each of the elements behind it.
fn extended(alloc: Global, tuples: &[Cells], elements: &[u64]) -> Result<Vec<Cells>, AllocError> {
    let mut longer = Vec::new(alloc);
    for tuple in tuples {
        push_extended(&mut longer, tuple, elements)?;
    }
    Ok(longer)
}

fn push_extended(
    longer: &mut Vec<Cells>,
    tuple: &Cells,
    elements: &[u64],
) -> Result<(), AllocError> {
    for element in elements {
        let mut cells = tuple.copy();
        // no list of sorts has more than five
        if cells.as_slice().len() < 5 {
            cells.push(*element);
        }
        longer.push(cells)?;
    }
    Ok(())
}

/// The numbers from 1 on.
fn least(alloc: Global, count: u64) -> Result<Elements, AllocError> {
    let mut elements = Items::new(alloc);
    for element in 1..=count {
        elements.push(element)?;
    }
    Ok(elements)
}

/// The ports that the program names, and the least others where they are fewer than `count`, which is at most two.
fn ports_of(alloc: Global, program: &Program, count: usize) -> Result<Elements, AllocError> {
    let mut ports = named_ports(alloc, program)?;
    for port in 1..=2 {
        if ports.len() < count && !ports.as_slice().contains(&port) {
            ports.push(port)?;
        }
    }
    Ok(ports)
}

fn named_ports(alloc: Global, program: &Program) -> Result<Elements, AllocError> {
    let mut ports = Items::new(alloc);
    for numeral in program.numerals() {
        ports.push(u64::from(*numeral))?;
    }
    Ok(ports)
}
