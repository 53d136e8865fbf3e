//! The extents of normal forms, from those of their parts.
#![tactic(auto)]

ghost use Rattle.std.specs.Prelude.{◌≡◌, ◌+◌, ℕ, IfOk, max};
ghost use Rattle.csdn_core.specs.declared.terms.Sort.{Sort as AnySort};
ghost use Rattle.csdn_core.specs.declared.terms.VarId.{VarId as AnyVar};
ghost use Rattle.fol_forms.specs.Constants.{need as need_of};
ghost use Rattle.fol_forms.specs.Counts.{count_of};
ghost use Rattle.fol_forms.specs.Forms.{Form, And, Or, ForAll, ForSome};
ghost use Rattle.form_trees.specs.Plain.{IsRectified};
ghost use Rattle.form_trees.specs.Trees.{IsExtent};

use crate::trees::{Extent, nothing};
use csdn_core::terms::Sort;
use fol_forms::instances::Counts;
use ground_inst::bases::{larger, one_more};
use ground_inst::weights::{each, node};
use std::alloc::AllocError;

/// That of a conjunction. `AllocError` where its copies have 2^64 nodes or need as many constants.
pub fn conjunction(p: Extent, q: Extent) -> Result<Extent, AllocError>
    ensures { (n : AnySort → ℕ) (f g : Form) → IsRectified (And f g) → IsExtent n f p → IsExtent n g q → IfOk result (λ e. IsExtent n (And f g) e) }
{
    let need = sums(p.need, q.need)?;
    beside(need, p, q)
}

/// That of a disjunction. `AllocError` where its copies have 2^64 nodes.
pub fn disjunction(p: Extent, q: Extent) -> Result<Extent, AllocError>
    ensures { (n : AnySort → ℕ) (f g : Form) → IsRectified (Or f g) → IsExtent n f p → IsExtent n g q → IfOk result (λ e. IsExtent n (Or f g) e) }
{
    let need = larger(p.need, q.need);
    beside(need, p, q)
}

/// That of a `forall` of some variable and sort, with so many constants of the sort. `AllocError` where its copies have 2^64 nodes.
pub fn universal(count: u64, p: Extent) -> Result<Extent, AllocError>
    ensures { (n : AnySort → ℕ) (v : AnyVar) (s : AnySort) (f : Form) → n s ≡ count → IsRectified (ForAll v s f) → IsExtent n f p → IfOk result (λ e. IsExtent n (ForAll v s f) e) }
{
    let nodes = each(count, p.nodes)?;
    Ok(Extent {
        nodes,
        need: nothing().need,
        is_plain: p.is_plain,
    })
}

/// That of an `exists` of some variable. `AllocError` where its copies need 2^64 constants.
pub fn existential(sort: Sort, p: Extent) -> Result<Extent, AllocError>
    ensures { (n : AnySort → ℕ) (v : AnyVar) (f : Form) → IsExtent n f p → IfOk result (λ e. IsExtent n (ForSome v sort f) e) }
{
    let need = one_more(p.need, sort)?;
    Ok(Extent {
        nodes: p.nodes,
        need,
        is_plain: false,
    })
}

// Those of a conjunction and of a disjunction, which differ in what they need.
fn beside(need: Counts, p: Extent, q: Extent) -> Result<Extent, AllocError>
    ensures both { (n : AnySort → ℕ) (f g : Form) → IsRectified (And f g) → IsExtent n f p → IsExtent n g q → ((t : AnySort) → count_of need t ≡ need_of f t + need_of g t) → IfOk result (λ e. IsExtent n (And f g) e) }
    ensures either { (n : AnySort → ℕ) (f g : Form) → IsRectified (Or f g) → IsExtent n f p → IsExtent n g q → ((t : AnySort) → count_of need t ≡ max (need_of f t) (need_of g t)) → IfOk result (λ e. IsExtent n (Or f g) e) }
{
    let nodes = node(p.nodes, q.nodes)?;
    Ok(Extent {
        nodes,
        need,
        is_plain: p.is_plain && q.is_plain,
    })
}

// The sum for each sort. `AllocError` where one is 2^64 or more.
#[tactic(auto, unfolding(fol_forms::specs::Counts::count_of))]
fn sums(a: Counts, b: Counts) -> Result<Counts, AllocError>
    ensures { IfOk result (λ both. (t : AnySort) → count_of both t ≡ count_of a t + count_of b t) }
{
    let sw = a.sw.checked_add(b.sw).ok_or(AllocError)?;
    let ho = a.ho.checked_add(b.ho).ok_or(AllocError)?;
    let pr = a.pr.checked_add(b.pr).ok_or(AllocError)?;
    Ok(Counts { sw, ho, pr })
}
