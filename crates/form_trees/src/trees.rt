//! Normal forms as trees.
#![tactic(auto)]

ghost use Rattle.std.specs.Prelude.{◌≡◌, ◌<◌, ℕ};
ghost use Rattle.csdn_core.specs.declared.terms.Sort.{Sort as AnySort};
ghost use Rattle.form_trees.specs.Trees.{AreMeasured, IsExtent, IsMeasured, form_seen, largest, no_extent, tree_form, tree_size};

use csdn_core::terms::{Pred, Sort, Term, Terms, VarId};
use fol_forms::instances::Counts;
use sqlite_items::Boxed;

/// How many conjunctions and disjunctions the copies of a normal form have, how many constants of each sort its `exists` need, and
/// whether it is plain: all its quantifiers are `forall`s, and may be brought before it.
#[derive(Clone, Copy)]
pub struct Extent {
    pub nodes: u64,
    pub need: Counts,
    pub is_plain: bool,
}

/// A normal form, each part with its extent.
#[derive(Drop)]
pub enum FormTree {
    Truth(bool),
    /// An atom, or with the sign `false` a negated one.
    Tuple(bool, Pred, Terms),
    /// Two terms stand for one element, or with the sign `false` they don't.
    Equation(bool, Term, Term),
    /// Both are true.
    Both(Extent, Boxed<FormTree>, Boxed<FormTree>),
    /// One is true, or both are.
    Either(Extent, Boxed<FormTree>, Boxed<FormTree>),
    Forall(Extent, VarId, Sort, Boxed<FormTree>),
    Exists(Extent, VarId, Sort, Boxed<FormTree>),
}

/// What a tree begins with.
#[derive(Clone, Copy)]
pub enum Part<'a> {
    Truth(bool),
    Tuple(bool, Pred, &'a Terms),
    Equation(bool, Term, Term),
    Both(&'a FormTree, &'a FormTree),
    Either(&'a FormTree, &'a FormTree),
    Forall(VarId, Sort, &'a FormTree),
    Exists(VarId, Sort, &'a FormTree),
}

/// What a tree begins with. It takes one step and no memory.
#[tactic(auto, using(crate::proofs::TreeSteps::tree_steps))]
pub fn part_of<'a>(tree: &'a FormTree) -> Part<'a>
    ensures form { tree_form tree.now ≡ form_seen result }
    ensures measured { (n : AnySort → ℕ) → IsMeasured n tree.now → AreMeasured n result }
    ensures smaller { largest result < tree_size tree.now }
{
    match tree {
        FormTree::Truth(value) => Part::Truth(*value),
        FormTree::Tuple(sign, relation, terms) => Part::Tuple(*sign, *relation, terms),
        FormTree::Equation(sign, t, u) => Part::Equation(*sign, *t, *u),
        FormTree::Both(_, p, q) => Part::Both(p.get(), q.get()),
        FormTree::Either(_, p, q) => Part::Either(p.get(), q.get()),
        FormTree::Forall(_, var, sort, p) => Part::Forall(*var, *sort, p.get()),
        FormTree::Exists(_, var, sort, p) => Part::Exists(*var, *sort, p.get()),
    }
}

/// The extent of a tree, where it is measured. It takes one step and no memory.
#[tactic(auto, using(crate::proofs::TreeSteps::tree_steps))]
pub fn extent_of(tree: &FormTree) -> Extent
    ensures { (n : AnySort → ℕ) → IsMeasured n tree.now → IsExtent n (tree_form tree.now) result }
{
    match tree {
        FormTree::Truth(_) => nothing(),
        FormTree::Tuple(_, _, _) => nothing(),
        FormTree::Equation(_, _, _) => nothing(),
        FormTree::Both(extent, _, _) => *extent,
        FormTree::Either(extent, _, _) => *extent,
        FormTree::Forall(extent, _, _, _) => *extent,
        FormTree::Exists(extent, _, _, _) => *extent,
    }
}

/// That of a truth value, an atom or an equation.
pub fn nothing() -> Extent
    ensures { result ≡ no_extent }
{
    let need = Counts {
        sw: 0,
        ho: 0,
        pr: 0,
    };
    Extent {
        nodes: 0,
        need,
        is_plain: true,
    }
}
