//! Copies that are a truth value.
#![tactic(auto)]

ghost use Rattle.std.specs.Prelude.{◌≡◌};
ghost use Rattle.fol_forms.specs.Counts.{count_of};
ghost use Rattle.form_trees.specs.Trees.{tree_form};
ghost use Rattle.ground_inst.specs.Walk.{copied_value as value_copied};

use fol_forms::instances::Counts;
use form_trees::trees::{FormTree, Part, part_of};

/// Which truth value the copies of a tree are, if they are one. It takes no memory.
pub fn tree_value(counts: &Counts, tree: &FormTree) -> Option<bool>
    ensures { result ≡ value_copied (count_of counts.now) (tree_form tree.now) }
{
    match part_of(tree) {
        Part::Truth(value) => Some(value),
        Part::Forall(_, sort, p) => match counts.of(sort) {
            0 => Some(true),
            1 => tree_value(counts, p),
            _ => None,
        },
        Part::Exists(_, _, p) => tree_value(counts, p),
        _ => None,
    }
}
