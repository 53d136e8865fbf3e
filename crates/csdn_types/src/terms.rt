//! Terms, and relations with their terms.
ghost use Rattle.std.specs.Prelude.{◌≡◌, ◌≤◌, length, Option, Some, None, unwrap_or, MatchResult};
ghost use Rattle.csdn_tree.specs.Places.{place as place_of};
ghost use Rattle.csdn_tree.specs.declared.names.RawTerm.TheVariants.{Name};
ghost use Rattle.csdn_types.specs.declared.refusal.SortRefusal.TheVariants.{Unknown};
ghost use Rattle.csdn_types.specs.Answers.{Answers, IsFirst};
ghost use Rattle.csdn_types.specs.Faults.{term_faults, terms_faults, same_faults, known_faults, sort_faults, atom_faults, is_forbidden as is_forbidden_there, stands_outside as stands_there};
ghost use Rattle.csdn_types.specs.Typed.{known_term, term_of, terms_of};
ghost use Rattle.csdn_types.specs.Scope.{meaning, relation_named};

use crate::refusal::SortRefusal;
use crate::scope::{Scope, SortedTerm};
use csdn_core::program::Relation;
use csdn_core::terms::{FormulaPlace, RelId, Sort, Term, Terms};
use csdn_tree::names::{RawName, RawTerm};

/// What a relation is used for.
#[derive(Clone, Copy)]
pub enum Use {
    /// In a formula at this place of a program.
    InFormula(FormulaPlace),
    /// In `insert` or `remove`.
    Write,
}

/// A relation and its terms.
#[derive(Drop)]
pub struct Written {
    pub id: RelId,
    pub terms: Terms,
}

/// What stands at a place, where a term of a sort belongs.
fn of_sort(at: usize, sort: Sort, meant: Option<SortedTerm>) -> Result<Term, SortRefusal>
    ensures { Answers (sort_faults at sort meant) (known_term meant) result }
{
    match meant {
        None => Err(SortRefusal::Unknown { at }),
        Some(known) => {
            if known.sort.is_same(sort) {
                Ok(known.term)
            } else {
                Err(SortRefusal::WrongSort { at })
            }
        }
    }
}

/// What a term stands for, where one of this sort belongs. Refused at its first byte are a name that stands for nothing
/// (`Unknown`) and another sort (`WrongSort`).
pub fn term(scope: &Scope, sort: Sort, raw: &RawTerm) -> Result<Term, SortRefusal>
    ensures { Answers (term_faults scope.now sort raw.now) (term_of scope.now raw.now) result }
{
    of_sort(raw.at(), sort, scope.meaning(raw))
}

/// What a name stands for, where a term of this sort belongs: a variable or a constant. Refused as by `term`.
pub fn named_term(scope: &Scope, sort: Sort, name: &RawName) -> Result<Term, SortRefusal>
    ensures { Answers (term_faults scope.now sort (Name name.now)) (term_of scope.now (Name name.now)) result }
{
    of_sort(name.at, sort, scope.named(name.text.as_slice()))
}

/// What terms stand for, one after another, where terms of these sorts belong. Refused is the first of them that `term`
/// refuses.
pub fn terms(scope: &Scope, sorts: &[Sort], raw: &[RawTerm]) -> Result<Terms, SortRefusal>
    requires as_many { length raw.now ≡ length sorts.now }
    requires few { length sorts.now ≤ 5 }
    ensures { Answers (terms_faults scope.now sorts.now raw.now) (terms_of scope.now raw.now) result }
{
    let mut done = Terms::new();
    for (i, each) in raw.iter().enumerate() {
        let found = term(scope, sorts[i], each)?;
        done.push(found);
    }
    Ok(done)
}

fn stands_outside(place: FormulaPlace, declaration: &Relation) -> bool
    ensures { result ≡ stands_there place declaration.now }
{
    match place {
        FormulaPlace::Topology => !declaration.fixed,
        _ => false,
    }
}

fn is_forbidden(use_of: Use, declaration: &Relation) -> bool
    ensures { result ≡ is_forbidden_there use_of declaration.now }
{
    match use_of {
        Use::InFormula(place) => stands_outside(place, declaration),
        Use::Write => declaration.fixed,
    }
}

/// The use of a declared relation. Refused is the first of these: a name that is no relation's (`Unknown`), another
/// number of terms (`WrongArity`), a relation that may not be used so (`NotAllowed`), each at the name; then a term.
pub fn used(
    scope: &Scope,
    use_of: Use,
    name: &RawName,
    raw: &[RawTerm],
) -> Result<Written, SortRefusal>
    ensures { Answers (atom_faults use_of scope.now name.now raw.now) (record { id = record { 0 = unwrap_or (relation_named scope.now name.now.text) 0 }; terms = terms_of scope.now raw.now }) result }
{
    let at = name.at;
    match scope.relation(name.text.as_slice()) {
        None => Err(SortRefusal::Unknown { at }),
        Some(id) => {
            let declaration = scope.declaration(id);
            if raw.len() != declaration.sorts.len() {
                return Err(SortRefusal::WrongArity { at });
            }
            if is_forbidden(use_of, declaration) {
                return Err(SortRefusal::NotAllowed { at });
            }
            let terms = terms(scope, declaration.sorts.as_slice(), raw)?;
            Ok(Written { id, terms })
        }
    }
}

/// What a term of any sort stands for. Refused at its first byte is a name that stands for nothing (`Unknown`).
pub fn any_term(scope: &Scope, raw: &RawTerm) -> Result<SortedTerm, SortRefusal>
    ensures { MatchResult result (λ k. meaning scope.now raw.now ≡ Some k) (λ e. (meaning scope.now raw.now ≡ None) × (e ≡ Unknown (place_of raw.now))) }
{
    match scope.meaning(raw) {
        None => Err(SortRefusal::Unknown { at: raw.at() }),
        Some(known) => Ok(known),
    }
}

/// The two sides of `=`. The right one has to be of the sort of the left one; refused are, in order, the left one as by
/// `any_term` and the right one as by `term`.
pub fn same(scope: &Scope, left: &RawTerm, right: &RawTerm) -> Result<(Term, Term), SortRefusal>
    ensures { Answers (same_faults scope.now left.now right.now) (term_of scope.now left.now, term_of scope.now right.now) result }
{
    let left = any_term(scope, left)?;
    let right = term(scope, left.sort, right)?;
    Ok((left.term, right))
}
