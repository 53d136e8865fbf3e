//! What is said of the atoms.
#![tactic(auto)]

ghost use Rattle.std.specs.Prelude.{◌≡◌};
ghost use Rattle.clause_log.specs.Literals.{literal_true, truths};

use clause_log::{Lit, Valuation};
use ground_inst::places::Names;
use std::alloc::Global;

/// The program's names and the facts of a sentence, the atoms that its clauses name, and the true ones among them. What searches
/// keep is taken from `alloc`.
#[derive(Clone, Copy)]
pub struct Reading<'a> {
    pub names: Names<'a>,
    pub named: &'a Valuation,
    pub trues: &'a Valuation,
    pub alloc: Global,
}

/// Whether a literal is true.
pub fn is_true(trues: &Valuation, l: Lit) -> bool
    ensures { result ≡ literal_true (truths trues.now) l }
{
    let value = trues.value(l.atom());
    if l.is_positive() { value } else { !value }
}
