//! The variables that a tree binds.
#![tactic(auto)]

ghost use Rattle.std.specs.Prelude.{◌≡◌, ◌++◌, ◌∷◌, ◌<◌, ◌==◌, true, not, OnOk};
ghost use Rattle.std.specs.List.{list_all};
ghost use Rattle.csdn_core.specs.declared.terms.Sort.{Sort as AnySort};
ghost use Rattle.form_trees.specs.Trees.{tree_form};
ghost use Rattle.ground_inst.specs.Walk.{ways_of};
ghost use Rattle.copy_truth.specs.Matrix.{binders as binders_of};

use crate::opened::{OPEN, Variable, are_bound};
use csdn_core::terms::Sort;
use form_trees::trees::{FormTree, Part, part_of};
use ground_inst::places::{Binding, Names};
use ground_inst::walk::bind;
use std::alloc::AllocError;

/// Whether no variable is open, and each sort has a constant: only then are more variables left open.
pub fn can_open(names: &Names, env: &[Binding]) -> bool
    ensures known { result ≡ true → list_all (λ b. not (b.place == OPEN)) env.now ≡ true }
    ensures filled { result ≡ true → (s : AnySort) → 0 < (ways_of names.now).count s }
{
    has_constants(names) && are_bound(env)
}

// Whether each sort has a constant.
fn has_constants(names: &Names) -> bool
    ensures { result ≡ true → (s : AnySort) → 0 < (ways_of names.now).count s }
{
    let counts = &names.facts.counts;
    counts.of(Sort::Sw) > 0 && counts.of(Sort::Ho) > 0 && counts.of(Sort::Pr) > 0
}

#[cycle(open_binders)]
/// Leaves all variables open that a tree binds. It takes as many steps as the tree has parts.
pub fn open_binders(tree: &FormTree, env: &mut Vec<Binding>) -> Result<(), AllocError>
    ensures { OnOk result (env.new.items ≡ env.old.items ++ binders_of (tree_form tree.now)) }
{
    match part_of(tree) {
        Part::Truth(_) => Ok(()),
        Part::Tuple(_, _, _) => Ok(()),
        Part::Equation(_, _, _) => Ok(()),
        Part::Both(p, q) => open_sides(p, q, env),
        Part::Either(p, q) => open_sides(p, q, env),
        Part::Forall(var, sort, p) => open_bound(Variable { var, sort }, p, env),
        Part::Exists(var, sort, p) => open_bound(Variable { var, sort }, p, env),
    }
}

#[cycle(open_binders)]
// Leaves all variables open that two trees bind.
fn open_sides(p: &FormTree, q: &FormTree, env: &mut Vec<Binding>) -> Result<(), AllocError>
    ensures { OnOk result (env.new.items ≡ env.old.items ++ (binders_of (tree_form p.now) ++ binders_of (tree_form q.now))) }
{
    open_binders(p, env)?;
    open_binders(q, env)
}

#[cycle(open_binders)]
// Leaves a variable open, and all that its body binds.
fn open_bound(x: Variable, body: &FormTree, env: &mut Vec<Binding>) -> Result<(), AllocError>
    ensures { OnOk result (env.new.items ≡ env.old.items ++ record { var = x.var; sort = x.sort; place = OPEN } ∷ binders_of (tree_form body.now)) }
{
    bind(env, x.at(OPEN))?;
    open_binders(body, env)
}
