//! What a clause says under the values of a trail.

ghost use Rattle.std.specs.Prelude.{◌≡◌};
ghost use Rattle.clause_search.specs.Trails.{values_of};
ghost use Rattle.clause_search.specs.Searches.{Does, Leaves};

use crate::trail::Trail;
use clause_log::Lit;

/// What a clause does under the values of a trail.
#[derive(Clone, Copy, Debug)]
pub enum Verdict {
    /// It has a true literal, or two without a value.
    Quiet,
    /// Its only literal that isn't false, which has no value yet.
    Forces(Lit),
    /// Its literals are false.
    Conflict,
}

/// What the values of a trail leave of a clause.
#[derive(Clone, Copy, Debug)]
pub enum Choice {
    /// One of its literals is true.
    True,
    /// None is true, and this one has no value.
    Open(Lit),
    /// Its literals are false.
    False,
}

/// What the clause does; it is quiet where it has a true literal, or two without a value.
pub fn verdict_of(trail: &Trail, clause: &[Lit]) -> Verdict
    ensures { Does (values_of trail.now) clause.now result }
{
    let mut rest = clause;
    let mut found: Option<Lit> = None;
    'literals: while let [l, more @ ..] = rest {
        match trail.value(*l) {
            Some(true) => return Verdict::Quiet,
            Some(false) => {}
            None => {
                if found.is_some() {
                    return Verdict::Quiet;
                }
                found = Some(*l);
            }
        }
        rest = more;
    }
    match found {
        Some(l) => Verdict::Forces(l),
        None => Verdict::Conflict,
    }
}

/// What is left of the clause: a true literal, else the last one without a value.
pub fn choice_of(trail: &Trail, clause: &[Lit]) -> Choice
    ensures { Leaves (values_of trail.now) clause.now result }
{
    let mut rest = clause;
    let mut found: Option<Lit> = None;
    'literals: while let [l, more @ ..] = rest {
        match trail.value(*l) {
            Some(true) => return Choice::True,
            Some(false) => {}
            None => found = Some(*l),
        }
        rest = more;
    }
    match found {
        Some(l) => Choice::Open(l),
        None => Choice::False,
    }
}
