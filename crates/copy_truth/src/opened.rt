//! Variables that are left open, and terms with them.
#![tactic(auto)]

ghost use Rattle.std.specs.Prelude.{◌≡◌, ◌==◌, true, not, IfSome};
ghost use Rattle.std.specs.List.{list_all};
ghost use Rattle.ground_inst.specs.Walk.{scope, ways_of};
ghost use Rattle.copy_truth.specs.Early.{AreColumns, IsColumn, is_known as is_known_there, is_this as is_this_there, is_variable as is_variable_there};
ghost use Rattle.copy_truth.specs.Outlook.{IsOpenIn};

use csdn_core::terms::{Sort, Term, VarId};
use ground_inst::places::{Binding, Names, place_of, sort_of};

/// The place of an open variable, at which no constant stands.
pub const OPEN: u64 = 0xffff_ffff_ffff_ffff;

/// A variable of a sort.
#[derive(Clone, Copy)]
pub struct Variable {
    pub var: VarId,
    pub sort: Sort,
}

impl Variable {
    /// The variable, standing for the constant at a place.
    pub fn at(self, place: u64) -> Binding
        ensures { result ≡ record { var = self.var; sort = self.sort; place = place } }
    {
        Binding {
            var: self.var,
            sort: self.sort,
            place,
        }
    }
}

/// Whether a term is this variable.
pub fn is_this(var: VarId, term: Term) -> bool
    ensures { result ≡ is_this_there var term }
{
    match term {
        Term::Var(other) => other.0 == var.0,
        Term::Const(_) => false,
        Term::Port(_) => false,
    }
}

/// Whether a term stands for a constant, and is no open variable.
pub fn is_known(names: &Names, env: &[Binding], term: Term) -> bool
    ensures { result ≡ is_known_there (ways_of names.now).voc (scope env.now) term }
{
    !(place_of(names, env, term) == OPEN)
}

/// Whether all these terms do.
pub fn are_known(names: &Names, env: &[Binding], terms: &[Term]) -> bool
    ensures { result ≡ list_all (is_known_there (ways_of names.now).voc (scope env.now)) terms.now }
{
    match terms {
        [] => true,
        [term, others @ ..] => is_known(names, env, *term) && are_known(names, env, others),
    }
}

/// Whether no variable is open.
pub fn are_bound(env: &[Binding]) -> bool
    ensures { result ≡ list_all (λ b. not (b.place == OPEN)) env.now }
{
    match env {
        [] => true,
        [binding, others @ ..] => !(binding.place == OPEN) && are_bound(others),
    }
}

/// The variable that a term is, if it's open.
pub fn open_variable(names: &Names, env: &[Binding], term: Term) -> Option<Variable>
    ensures { IfSome result (IsOpenIn (scope env.now)) }
{
    match term {
        Term::Var(var) => {
            if !(place_of(names, env, term) == OPEN) {
                return None;
            }
            let sort = sort_of(names, env, term);
            Some(Variable { var, sort })
        }
        Term::Const(_) => None,
        Term::Port(_) => None,
    }
}

/// The first open variable among terms.
pub fn first_open(names: &Names, env: &[Binding], terms: &[Term]) -> Option<Variable>
    ensures { IfSome result (IsOpenIn (scope env.now)) }
{
    match terms {
        [] => None,
        [term, others @ ..] => match open_variable(names, env, *term) {
            None => first_open(names, env, others),
            Some(x) => Some(x),
        },
    }
}

fn is_variable(term: Term) -> bool
    ensures { result ≡ is_variable_there term }
{
    match term {
        Term::Var(_) => true,
        Term::Const(_) => false,
        Term::Port(_) => false,
    }
}

// Whether a term stands for a constant of a sort, or is an open variable of it.
fn is_column(names: &Names, env: &[Binding], term: Term, sort: Sort) -> bool
    ensures { result ≡ true → IsColumn (ways_of names.now) (scope env.now) term sort }
{
    if !sort_of(names, env, term).is_same(sort) {
        return false;
    }
    let place = place_of(names, env, term);
    if place == OPEN {
        return is_variable(term);
    }
    place < names.facts.counts.of(sort)
}

/// Whether these terms stand for constants of these sorts, or are open variables of them.
pub fn are_columns(names: &Names, env: &[Binding], terms: &[Term], sorts: &[Sort]) -> bool
    ensures { result ≡ true → AreColumns (ways_of names.now) (scope env.now) terms.now sorts.now }
{
    match terms {
        [] => sorts.is_empty(),
        [term, others @ ..] => match sorts {
            [] => false,
            [sort, rest @ ..] => {
                is_column(names, env, *term, *sort) && are_columns(names, env, others, rest)
            }
        },
    }
}
