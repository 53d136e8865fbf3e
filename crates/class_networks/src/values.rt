//! The values of constants.
#![tactic(auto)]

ghost use Rattle.std.specs.Prelude.{◌≡◌, IfOk, length, map};
ghost use Rattle.decision_laws.specs.Vocabulary.{places_from};
ghost use Rattle.class_networks.specs.Made.{value_in};

use crate::numbers::Numbers;
use csdn_core::program::Parts;
use csdn_core::terms::ConstId;
use ground_inst::name_places::{constant_place, constant_sort};
use net_structs::network::Elements;
use sqlite_items::Items;
use std::alloc::{AllocError, Global};

/// The values of the declared constants in their order: the numbers of their classes.
pub fn values_of(alloc: Global, parts: &Parts, numbers: &Numbers) -> Result<Elements, AllocError>
    ensures { IfOk result (λ values. values ≡ map (value_in parts.now numbers.now) (places_from 0 (length parts.now.constants))) }
{
    let mut values = Items::new(alloc);
    let count = parts.constants.len();
    for place in 0..count {
        let value = value_of(parts, numbers, place)?;
        values.push(value)?;
    }
    Ok(values)
}

// The number of a declared constant's class.
fn value_of(parts: &Parts, numbers: &Numbers, place: usize) -> Result<u64, AllocError>
    ensures { IfOk result (λ value. value ≡ value_in parts.now numbers.now place) }
{
    let id = constant_id(place)?;
    Ok(numbers.of(constant_sort(parts, id), constant_place(parts, id) as u64))
}

fn constant_id(place: usize) -> Result<ConstId, AllocError>
    ensures { IfOk result (λ id. id ≡ record { 0 = place }) }
{
    match u32::try_from(place) {
        Ok(id) => Ok(ConstId(id)),
        Err(_) => Err(AllocError),
    }
}
