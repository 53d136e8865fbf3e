//! The numbers of ports.
#![tactic(auto)]

ghost use Rattle.std.specs.Prelude.{◌≡◌, ◌++◌, ◌∷◌, [], ◌+◌, ◌==◌, not, IfOk, OnOk, length, filter, is_none, if◌then◌else◌};
ghost use Rattle.std.specs.List.{list_any};
ghost use Rattle.csdn_core.specs.declared.terms.Sort.TheVariants.{Pr as PortSort};
ghost use Rattle.decision_laws.specs.Classes.{numeral_among as among};
ghost use Rattle.decision_laws.specs.Copies.{Equation as EquationFact, numeral_place as place_of_numeral};
ghost use Rattle.class_networks.specs.Judgements.{constants_in, free_in, numeral_in, says, words_in};

use crate::judgement::Judgement;
use csdn_core::terms::Sort;
use ground_inst::name_places::numeral_place;
use net_structs::network::Elements;
use sqlite_items::Items;
use std::alloc::{AllocError, Global};

/// The numeral that is judged equal to a port. It looks at each numeral before that one.
pub fn numeral_of(judgement: &Judgement, place: u64) -> Result<Option<u16>, AllocError>
    ensures { IfOk result (λ numeral. numeral ≡ numeral_in judgement.now place) }
{
    numeral_among(judgement, judgement.parts.numerals.as_slice(), place)
}

// The first of these numerals that is judged equal to a port.
fn numeral_among(
    judgement: &Judgement,
    numerals: &[u16],
    place: u64,
) -> Result<Option<u16>, AllocError>
    ensures { IfOk result (λ numeral. numeral ≡ among (words_in judgement.now) (constants_in judgement.now) (says judgement.now) numerals.now place) }
{
    let mut rest = numerals;
    'numerals: while let [numeral, more @ ..] = rest {
        if is_equal(judgement, *numeral, place)? {
            return Ok(Some(*numeral));
        }
        rest = more;
    }
    Ok(None)
}

// Whether a numeral is judged equal to a port.
fn is_equal(judgement: &Judgement, numeral: u16, place: u64) -> Result<bool, AllocError>
    ensures { IfOk result (λ equal. equal ≡ says judgement.now (EquationFact PortSort (place_of_numeral (words_in judgement.now) numeral) place)) }
{
    let known = numeral_place(judgement.parts, numeral) as u64;
    judgement.are_equal(Sort::Pr, known, place)
}

/// Those classes of ports, by their first constants, that have no numeral.
pub fn unnumbered(
    alloc: Global,
    judgement: &Judgement,
    classes: &[u64],
) -> Result<Elements, AllocError>
    ensures { IfOk result (λ kept. kept ≡ filter (λ a. is_none (numeral_in judgement.now a)) classes.now) }
{
    let mut kept = Items::new(alloc);
    let mut rest = classes;
    'classes: while let [class, more @ ..] = rest {
        push_unnumbered(judgement, *class, &mut kept)?;
        rest = more;
    }
    Ok(kept)
}

// Appends a class that has no numeral.
fn push_unnumbered(judgement: &Judgement, class: u64, kept: &mut Elements) -> Result<(), AllocError>
    ensures { OnOk result (kept.new ≡ kept.old ++ (if is_none (numeral_in judgement.now class) then class ∷ [] else [])) }
{
    match numeral_of(judgement, class)? {
        Some(_) => Ok(()),
        None => kept.push(class),
    }
}

/// The numbers from 1 on that are no numeral: at least as many as there are ports.
pub fn free_numbers(alloc: Global, judgement: &Judgement) -> Result<Elements, AllocError>
    ensures { IfOk result (λ free. free ≡ free_in judgement.now) }
{
    let numerals = judgement.parts.numerals.as_slice();
    let count = count_of_free(numerals, judgement.count(Sort::Pr))?;
    let mut free = Items::new(alloc);
    for before in 0..count {
        push_free(numerals, before + 1, &mut free)?;
    }
    Ok(free)
}

// As many numbers as there are numerals and ports.
fn count_of_free(numerals: &[u16], ports: u64) -> Result<u64, AllocError>
    ensures { IfOk result (λ count. count ≡ length numerals.now + ports) }
{
    (numerals.len() as u64).checked_add(ports).ok_or(AllocError)
}

// Appends a number that is no numeral.
fn push_free(numerals: &[u16], number: u64, free: &mut Elements) -> Result<(), AllocError>
    ensures { OnOk result (free.new ≡ free.old ++ (if not (list_any (λ m. number == m) numerals.now) then number ∷ [] else [])) }
{
    if !is_numeral(numerals, number) {
        free.push(number)?;
    }
    Ok(())
}

fn is_numeral(numerals: &[u16], number: u64) -> bool
    ensures { result ≡ list_any (λ m. number == m) numerals.now }
{
    let mut rest = numerals;
    'numerals: while let [numeral, more @ ..] = rest {
        if number == u64::from(*numeral) {
            return true;
        }
        rest = more;
    }
    false
}
