//! The places of names among the constants of their sorts.
ghost use Rattle.std.specs.Prelude.{◌≡◌, ◌≤◌, length, map};
ghost use Rattle.csdn_core.specs.declared.terms.Sort.TheVariants.{Pr as PortSort};
ghost use Rattle.csdn_core.specs.declared.terms.Term.TheVariants.{Const as ConstTerm, Port as PortTerm};
ghost use Rattle.decision_laws.specs.Copies.{index_of};
ghost use Rattle.decision_laws.specs.Vocabulary.{sort_of_constant};
ghost use Rattle.fol_forms.specs.Constants.{names_of};

use csdn_core::program::Parts;
use csdn_core::terms::{ConstId, Sort};
use fol_forms::constants::constants_before;

// The place of the first of some numerals that is this one.
fn position(numerals: &[u16], numeral: u16) -> usize
    ensures place { result ≡ index_of (PortTerm numeral) (map PortTerm numerals.now) }
    ensures few { result ≤ length numerals.now }
{
    for (place, other) in numerals.iter().enumerate() {
        if *other == numeral {
            return place;
        }
    }
    numerals.len()
}

/// The sort of a declared constant.
pub fn constant_sort(parts: &Parts, id: ConstId) -> Sort
    ensures { result ≡ sort_of_constant parts.now id.0 }
{
    match parts.constants.as_slice().get(id.0 as usize) {
        Some(constant) => constant.sort,
        None => Sort::Sw,
    }
}

/// The place of a declared constant among the names of its sort.
pub fn constant_place(parts: &Parts, id: ConstId) -> usize
    ensures { result ≡ index_of (ConstTerm id) (names_of parts.now (sort_of_constant parts.now id.0)) }
{
    constants_before(
        parts.constants.as_slice(),
        constant_sort(parts, id),
        id.0 as usize,
    )
}

/// The place of a numeral among the names of the ports.
pub fn numeral_place(parts: &Parts, numeral: u16) -> usize
    ensures { result ≡ index_of (PortTerm numeral) (names_of parts.now PortSort) }
{
    let constants = parts.constants.as_slice();
    constants_before(constants, Sort::Pr, constants.len())
        + position(parts.numerals.as_slice(), numeral)
}
