//! The names that a program has of a sort.
#![tactic(auto)]

ghost use Rattle.std.specs.Prelude.{◌≡◌, ◌≤◌, length, take};
ghost use Rattle.fol_forms.specs.Constants.{constants_from, names_of, one_if as one_if_same};

use csdn_core::program::{Constant, Parts};
use csdn_core::terms::Sort;

/// 1 where the sorts are the same, else 0.
pub fn one_if(a: Sort, b: Sort) -> usize
    ensures { result ≡ one_if_same a b }
{
    if a.is_same(b) { 1 } else { 0 }
}

/// How many of the first `stop` constants have a sort. It takes as many steps.
pub fn constants_before(constants: &[Constant], sort: Sort, stop: usize) -> usize
    ensures count { result ≡ length (constants_from sort 0 (take stop constants.now)) }
    ensures few { result ≤ length constants.now }
{
    let first = &constants[..stop.min(constants.len())];
    let mut count = 0;
    for constant in first {
        count += one_if(constant.sort, sort);
    }
    count
}

/// How many names a sort has: the declared constants, and for the ports the numerals.
pub fn known(parts: &Parts, sort: Sort) -> usize
    ensures { result ≡ length (names_of parts.now sort) }
{
    let constants = parts.constants.as_slice();
    let declared = constants_before(constants, sort, constants.len());
    match sort {
        Sort::Pr => declared + parts.numerals.as_slice().len(),
        _ => declared,
    }
}
