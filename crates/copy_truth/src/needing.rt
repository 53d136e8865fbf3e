//! What the copies of a tree take: nodes, and free constants.
#![tactic(auto)]

ghost use Rattle.std.specs.Prelude.{◌≡◌, ◌+◌, IfOk};
ghost use Rattle.decision_laws.specs.Weights.{weight};
ghost use Rattle.fol_forms.specs.Constants.{need as need_of};
ghost use Rattle.fol_forms.specs.Counts.{count_of};
ghost use Rattle.form_trees.specs.Trees.{IsMeasured, tree_form};
ghost use Rattle.ground_inst.specs.Walk.{ways_of};

use fol_forms::instances::Counts;
use form_trees::trees::{FormTree, extent_of};
use ground_inst::places::Names;
use std::alloc::AllocError;

/// The first free constant of each sort behind the copies of a tree, where they take those from `base` on. It takes one step and no
/// memory; `AllocError` where there are 2^64.
pub fn past(names: &Names, tree: &FormTree, base: Counts) -> Result<Counts, AllocError>
    requires { IsMeasured (ways_of names.now).count tree.now }
    ensures { IfOk result (λ after. count_of after ≡ (λ t. count_of base t + need_of (tree_form tree.now) t)) }
{
    let need = extent_of(tree).need;
    let sw = sum(base.sw, need.sw)?;
    let ho = sum(base.ho, need.ho)?;
    let pr = sum(base.pr, need.pr)?;
    Ok(Counts { sw, ho, pr })
}

/// How many conjunctions and disjunctions the copies of a tree have. It takes one step and no memory.
pub fn nodes_of(names: &Names, tree: &FormTree) -> u64
    requires { IsMeasured (ways_of names.now).count tree.now }
    ensures { result ≡ weight (ways_of names.now).count (tree_form tree.now) }
{
    extent_of(tree).nodes
}

/// The sum. `AllocError` where it is no u64; it takes no memory.
pub fn sum(a: u64, b: u64) -> Result<u64, AllocError>
    ensures { IfOk result (λ c. c ≡ a + b) }
{
    a.checked_add(b).ok_or(AllocError)
}
