//! The numbers of classes.
#![tactic(auto)]

ghost use Rattle.std.specs.Prelude.{◌≡◌, suc, IfOk, map, slice_index_or};
ghost use Rattle.decision_laws.specs.Classes.{position_in};
ghost use Rattle.decision_laws.specs.Vocabulary.{places_from};
ghost use Rattle.class_networks.specs.Judgements.{constants_in, numbers_in};
ghost use Rattle.class_networks.specs.Numberings.{AreClasses, AreNumbers, number_at};

use crate::classes::{classes_of, first_of, position};
use crate::judgement::Judgement;
use crate::ports::{free_numbers, numeral_of, unnumbered};
use csdn_core::terms::Sort;
use net_structs::network::Elements;
use sqlite_items::Items;
use std::alloc::{AllocError, Global};

/// The classes that get numbers in their order, by their first constants, and the numbers for those of ports.
#[derive(Drop)]
pub struct Classes {
    pub switches: Elements,
    pub hosts: Elements,
    /// The classes of ports without a numeral.
    pub ports: Elements,
    /// The numbers from 1 on that are no numeral.
    pub free: Elements,
}

/// The numbers of the constants of each sort.
#[derive(Drop)]
pub struct Numbers {
    pub switches: Elements,
    pub hosts: Elements,
    pub ports: Elements,
}

impl Numbers {
    /// The number of a constant; 0 for a place that has none.
    pub fn of(&self, sort: Sort, place: u64) -> u64
        ensures { result ≡ number_at self.now sort place }
    {
        match sort {
            Sort::Sw => item(self.switches.as_slice(), place as usize),
            Sort::Ho => item(self.hosts.as_slice(), place as usize),
            Sort::Pr => item(self.ports.as_slice(), place as usize),
        }
    }
}

// The number at a place; 0 where there is none.
fn item(numbers: &[u64], place: usize) -> u64
    ensures { result ≡ slice_index_or numbers.now place 0 }
{
    match numbers.get(place) {
        Some(number) => *number,
        None => 0,
    }
}

/// The numbers of all constants. It takes as many steps as there are pairs of constants of a sort.
pub fn numbers_of(alloc: Global, judgement: &Judgement) -> Result<Numbers, AllocError>
    ensures { IfOk result (AreNumbers judgement.now) }
{
    let classes = make_classes(alloc, judgement)?;
    Ok(Numbers {
        switches: numbered(alloc, judgement, &classes, Sort::Sw)?,
        hosts: numbered(alloc, judgement, &classes, Sort::Ho)?,
        ports: numbered(alloc, judgement, &classes, Sort::Pr)?,
    })
}

fn make_classes(alloc: Global, judgement: &Judgement) -> Result<Classes, AllocError>
    ensures { IfOk result (AreClasses judgement.now) }
{
    let ports = classes_of(alloc, judgement, Sort::Pr)?;
    Ok(Classes {
        switches: classes_of(alloc, judgement, Sort::Sw)?,
        hosts: classes_of(alloc, judgement, Sort::Ho)?,
        ports: unnumbered(alloc, judgement, ports.as_slice())?,
        free: free_numbers(alloc, judgement)?,
    })
}

// The numbers of the constants of a sort.
fn numbered(
    alloc: Global,
    judgement: &Judgement,
    classes: &Classes,
    sort: Sort,
) -> Result<Elements, AllocError>
    requires { AreClasses judgement.now classes.now }
    ensures { IfOk result (λ numbers. numbers ≡ map (numbers_in judgement.now sort) (places_from 0 (constants_in judgement.now sort))) }
{
    let mut numbers = Items::new(alloc);
    let count = judgement.count(sort);
    for place in 0..count {
        let number = number_of(judgement, classes, sort, place)?;
        numbers.push(number)?;
    }
    Ok(numbers)
}

// The number of a constant's class.
fn number_of(
    judgement: &Judgement,
    classes: &Classes,
    sort: Sort,
    place: u64,
) -> Result<u64, AllocError>
    requires { AreClasses judgement.now classes.now }
    ensures { IfOk result (λ number. number ≡ numbers_in judgement.now sort place) }
{
    let first = first_of(judgement, sort, place)?;
    match sort {
        Sort::Sw => Ok(counted(first, classes.switches.as_slice())),
        Sort::Ho => Ok(counted(first, classes.hosts.as_slice())),
        Sort::Pr => match numeral_of(judgement, place)? {
            Some(numeral) => Ok(u64::from(numeral)),
            None => Ok(free_at(first, classes)),
        },
    }
}

// The number of the class of a first constant, where they are counted from 1 on.
fn counted(first: u64, classes: &[u64]) -> u64
    ensures { result ≡ suc (position_in first classes.now) }
{
    position(first, classes) as u64 + 1
}

// The free number of the class of a first constant.
fn free_at(first: u64, classes: &Classes) -> u64
    ensures { result ≡ slice_index_or classes.now.free (position_in first classes.now.ports) 0 }
{
    item(
        classes.free.as_slice(),
        position(first, classes.ports.as_slice()),
    )
}
