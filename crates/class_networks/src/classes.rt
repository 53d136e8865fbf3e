//! Classes of equal constants.
#![tactic(auto)]

ghost use Rattle.std.specs.Prelude.{◌≡◌, ◌++◌, ◌∷◌, [], ◌≤◌, ◌==◌, IfOk, OnOk, length, if◌then◌else◌};
ghost use Rattle.decision_laws.specs.Classes.{position_in};
ghost use Rattle.class_networks.specs.Judgements.{classes_in, first_in};

use crate::judgement::Judgement;
use csdn_core::terms::Sort;
use net_structs::network::Elements;
use sqlite_items::Items;
use std::alloc::{AllocError, Global};

/// The first constant of a constant's class. It looks at each constant before that one.
pub fn first_of(judgement: &Judgement, sort: Sort, place: u64) -> Result<u64, AllocError>
    ensures { IfOk result (λ first. first ≡ first_in judgement.now sort place) }
{
    let count = judgement.count(sort);
    for other in 0..count {
        if judgement.are_equal(sort, other, place)? {
            return Ok(other);
        }
    }
    Ok(count)
}

/// The first constants of the classes of a sort, rising.
pub fn classes_of(alloc: Global, judgement: &Judgement, sort: Sort) -> Result<Elements, AllocError>
    ensures { IfOk result (λ classes. classes ≡ classes_in judgement.now sort) }
{
    let mut classes = Items::new(alloc);
    let count = judgement.count(sort);
    for place in 0..count {
        push_class(judgement, sort, place, &mut classes)?;
    }
    Ok(classes)
}

// Appends a constant that is the first of its class.
fn push_class(
    judgement: &Judgement,
    sort: Sort,
    place: u64,
    classes: &mut Elements,
) -> Result<(), AllocError>
    ensures { OnOk result (classes.new ≡ classes.old ++ (if first_in judgement.now sort place == place then place ∷ [] else [])) }
{
    if first_of(judgement, sort, place)? == place {
        classes.push(place)?;
    }
    Ok(())
}

/// How many numbers stand before the first one that is this one. It takes as many steps.
pub fn position(number: u64, numbers: &[u64]) -> usize
    ensures place { result ≡ position_in number numbers.now }
    ensures few { result ≤ length numbers.now }
{
    let mut place = 0;
    let mut rest = numbers;
    'numbers: while let [other, more @ ..] = rest {
        if number == *other {
            return place;
        }
        place += 1;
        rest = more;
    }
    place
}
