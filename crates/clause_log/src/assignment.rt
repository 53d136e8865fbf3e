//! A partial assignment in a map, and what a clause says under it.

ghost use Rattle.std.specs.Prelude.{◌≡◌, IfOk, OnOk};
ghost use Rattle.clause_log.specs.Assignments.{assign as assign_literal, is_conflict as has_false_alone, literal_value, no_values, unit_literal, with_false};
ghost use Rattle.clause_log.specs.Values.{assigned};

use crate::lit::Lit;
use std::alloc::{AllocError, Global};
use std::collections::BTreeMap;

/// The truth values of the atoms that have one.
pub type Values = BTreeMap<u64, bool>;

/// The literal's truth value; `None` where its atom has none.
pub fn value_of(values: &Values, l: Lit) -> Option<bool>
    ensures { result ≡ literal_value (assigned values.now) l }
{
    match values.get(&l.atom()) {
        None => None,
        Some(value) => Some(if l.is_positive() { *value } else { !*value }),
    }
}

/// Makes the literal true.
pub fn assign(values: &mut Values, l: Lit) -> Result<(), AllocError>
    ensures { OnOk result (assigned values.new ≡ assign_literal l (assigned values.old)) }
{
    values.insert(l.atom(), l.is_positive())?;
    Ok(())
}

/// The assignment that makes these literals false, and gives no other atom a value.
pub fn false_alone(alloc: Global, literals: &[Lit]) -> Result<Values, AllocError>
    ensures { IfOk result (λ m. assigned m ≡ with_false no_values literals.now) }
{
    let mut values = BTreeMap::new(alloc);
    let mut rest = literals;
    'literals: while let [l, more @ ..] = rest {
        assign(&mut values, l.negated())?;
        rest = more;
    }
    Ok(values)
}

/// Whether the clause has false literals alone.
pub fn is_conflict(values: &Values, clause: &[Lit]) -> bool
    ensures { result ≡ has_false_alone (assigned values.now) clause.now }
{
    let mut rest = clause;
    'literals: while let [l, more @ ..] = rest {
        match value_of(values, *l) {
            Some(false) => {}
            _ => return false,
        }
        rest = more;
    }
    true
}

/// The literal that the clause forces: the only one that isn't false, where it has no value yet; `None` where there is
/// no such literal.
pub fn unit(values: &Values, clause: &[Lit]) -> Option<Lit>
    ensures { result ≡ unit_literal (assigned values.now) clause.now }
{
    let mut rest = clause;
    let mut found: Option<Lit> = None;
    'literals: while let [l, more @ ..] = rest {
        match value_of(values, *l) {
            Some(true) => return None,
            Some(false) => {}
            None => {
                if found.is_some() {
                    return None;
                }
                found = Some(*l);
            }
        }
        rest = more;
    }
    found
}
