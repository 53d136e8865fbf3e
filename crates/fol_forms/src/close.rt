//! Formulas under a row of universal quantifiers.
#![tactic(auto)]

ghost use Rattle.std.specs.Prelude.{◌≡◌, ◌<◌, ◌↔◌, IfOk, Err};
ghost use Rattle.csdn_core.specs.Nodes.{nodes};
ghost use Rattle.fol_forms.specs.declared.refusal.FormRefusal.TheVariants.{Large};
ghost use Rattle.fol_forms.specs.Closed.{closed};
ghost use Rattle.fol_forms.specs.Limits.{capped, most_nodes};

use crate::count::{node_count, sum};
use crate::refusal::{FormRefusal, MOST_NODES, or_memory};
use csdn_core::syntax::Formula;
use csdn_core::terms::{Sort, VarId};
use sqlite_items::{Boxed, Items};
use std::alloc::{AllocError, Global};

/// A variable and its sort.
#[derive(Clone, Copy, Debug, PartialEq, Eq)]
pub struct Bind {
    pub var: VarId,
    pub sort: Sort,
}

/// Variables that are bound one in another, the outermost first.
pub type Binds = Items<Bind>;

/// The formula with one `forall` for each bind, the first one outermost. `Large` exactly where that has more than 1,048,576
/// nodes.
pub fn close(alloc: Global, formula: Formula, binds: &Binds) -> Result<Formula, FormRefusal>
    ensures form { IfOk result (λ p. p ≡ closed binds.now formula) }
    ensures large { (result ≡ Err Large) ↔ (most_nodes < nodes (closed binds.now formula)) }
{
    let count = count_of(&formula, binds);
    if count > MOST_NODES {
        return Err(FormRefusal::Large);
    }
    or_memory(closed_by(alloc, formula, binds.as_slice()))
}

fn count_of(formula: &Formula, binds: &Binds) -> u64
    ensures { result ≡ capped (nodes (closed binds.now formula.now)) }
{
    let count = node_count(formula);
    let more = binds.len() as u64;
    sum(count, more)
}

/// The formula with one `forall` for each bind, the first one outermost, however many nodes that has.
#[tactic(auto, using(crate::proofs::ClosedTruth::closed_before))]
pub fn closed_by(alloc: Global, formula: Formula, binds: &[Bind]) -> Result<Formula, AllocError>
    ensures { IfOk result (λ p. p ≡ closed binds.now formula) }
{
    let mut closed = formula;
    let mut left = binds.len();
    'binds: while left > 0 {
        left -= 1;
        let bind = binds[left];
        closed = Formula::Forall(bind.var, bind.sort, Boxed::new(alloc, closed)?);
    }
    Ok(closed)
}
