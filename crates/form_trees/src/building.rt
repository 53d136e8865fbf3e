//! Formulas as trees.
#![tactic(auto)]

ghost use Rattle.std.specs.Prelude.{◌≡◌, ◌+◌, ℕ, suc, IfOk, OnOk, map};
ghost use Rattle.csdn_core.specs.Truth.{with_var};
ghost use Rattle.csdn_core.specs.declared.terms.Sort.{Sort as AnySort};
ghost use Rattle.fol_forms.specs.Counts.{count_of};
ghost use Rattle.fol_forms.specs.Forms.{Fixed, Atom, Same, And, Or, ForAll, ForSome, form_of, normal_form};
ghost use Rattle.fol_forms.specs.Names.{new_numbers};
ghost use Rattle.fol_forms.specs.Renumber.{renamed as renamed_of};
ghost use Rattle.form_trees.specs.Numbered.{numbered, numbered_from, quantifiers};
ghost use Rattle.form_trees.specs.Plain.{IsRectified};
ghost use Rattle.form_trees.specs.Trees.{IsMeasured, tree_form};

use crate::extents::{conjunction, disjunction, existential, universal};
use crate::trees::{FormTree, extent_of};
use csdn_core::syntax::Formula;
use csdn_core::terms::{Pred, Sort, Term, Terms, VarId};
use fol_forms::instances::Counts;
use fol_forms::renumber::{Renaming, renamed, renamed_all};
use fol_forms::signed::{Signed, view};
use sqlite_items::Boxed;
use std::alloc::{AllocError, Global};

// The variables in scope, and the next number.
#[derive(Drop)]
struct Numbers {
    scope: Vec<Renaming>,
    next: u32,
}

/// The normal form of a formula as a tree, each quantifier with a variable of its own, measured over so many constants of each
/// sort. `AllocError` also where copies have 2^64 nodes or need as many constants, or where there are 2^32 quantifiers.
/// It takes as many steps as the normal form has nodes, and for each term as many as variables are in scope.
pub fn form_tree(
    alloc: Global,
    counts: &Counts,
    formula: &Formula,
) -> Result<Boxed<FormTree>, AllocError>
    ensures form { IfOk result (λ tree. tree_form tree ≡ numbered (form_of formula.now)) }
    ensures measured { IfOk result (λ tree. IsRectified (tree_form tree) → IsMeasured (count_of counts.now) tree) }
{
    let mut numbers = Numbers {
        scope: Vec::new(alloc),
        next: 0,
    };
    made(alloc, counts, formula, true, &mut numbers)
}

// The tree of the normal form, or for the sign `false` of that of the negation.
#[cycle(made)]
fn made(
    alloc: Global,
    counts: &Counts,
    formula: &Formula,
    sign: bool,
    numbers: &mut Numbers,
) -> Result<Boxed<FormTree>, AllocError>
    ensures form { IfOk result (λ tree. tree_form tree ≡ numbered_from (new_numbers numbers.old.scope.items) numbers.old.next (normal_form sign formula.now)) }
    ensures measured { IfOk result (λ tree. IsRectified (tree_form tree) → IsMeasured (count_of counts.now) tree) }
    ensures next { OnOk result (numbers.new.next ≡ numbers.old.next + quantifiers (normal_form sign formula.now)) }
    ensures scope { OnOk result (numbers.new.scope.items ≡ numbers.old.scope.items) }
{
    match view(formula, sign) {
        Signed::Truth(value) => truth(alloc, value),
        Signed::Atom(sign, relation, terms) => {
            tuple(alloc, sign, relation, terms, numbers.scope.as_slice())
        }
        Signed::Equal(sign, t, u) => same(alloc, sign, t, u, numbers.scope.as_slice()),
        Signed::Both(p, q) => {
            let p = made(alloc, counts, p.formula, p.sign, numbers)?;
            let q = made(alloc, counts, q.formula, q.sign, numbers)?;
            both(alloc, p, q)
        }
        Signed::Either(p, q) => {
            let p = made(alloc, counts, p.formula, p.sign, numbers)?;
            let q = made(alloc, counts, q.formula, q.sign, numbers)?;
            either(alloc, p, q)
        }
        Signed::Cases(p, q) => {
            let kept = pair(alloc, counts, p.formula, p.sign, q.formula, q.sign, numbers)?;
            let negated = pair(
                alloc, counts, p.formula, !p.sign, q.formula, !q.sign, numbers,
            )?;
            either(alloc, kept, negated)
        }
        Signed::Forall(var, sort, p) => {
            let under = under(alloc, counts, var, p.formula, p.sign, numbers)?;
            forall(alloc, counts, under.var, sort, under.body)
        }
        Signed::Exists(var, sort, p) => {
            let under = under(alloc, counts, var, p.formula, p.sign, numbers)?;
            exists(alloc, under.var, sort, under.body)
        }
    }
}

// The conjunction of two normal forms.
#[cycle(made)]
fn pair(
    alloc: Global,
    counts: &Counts,
    p: &Formula,
    p_sign: bool,
    q: &Formula,
    q_sign: bool,
    numbers: &mut Numbers,
) -> Result<Boxed<FormTree>, AllocError>
    ensures form { IfOk result (λ tree. tree_form tree ≡ numbered_from (new_numbers numbers.old.scope.items) numbers.old.next (And (normal_form p_sign p.now) (normal_form q_sign q.now))) }
    ensures measured { IfOk result (λ tree. IsRectified (tree_form tree) → IsMeasured (count_of counts.now) tree) }
    ensures next { OnOk result (numbers.new.next ≡ numbers.old.next + quantifiers (And (normal_form p_sign p.now) (normal_form q_sign q.now))) }
    ensures scope { OnOk result (numbers.new.scope.items ≡ numbers.old.scope.items) }
{
    let first = made(alloc, counts, p, p_sign, numbers)?;
    let second = made(alloc, counts, q, q_sign, numbers)?;
    both(alloc, first, second)
}

// What stands under a quantifier, and the new number of its variable.
#[derive(Drop)]
struct Quantified {
    var: VarId,
    body: Boxed<FormTree>,
}

#[cycle(made)]
fn under(
    alloc: Global,
    counts: &Counts,
    var: VarId,
    formula: &Formula,
    sign: bool,
    numbers: &mut Numbers,
) -> Result<Quantified, AllocError>
    ensures var { IfOk result (λ u. u.var ≡ record { 0 = numbers.old.next }) }
    ensures form { IfOk result (λ u. tree_form u.body ≡ numbered_from (with_var (new_numbers numbers.old.scope.items) var numbers.old.next) (suc numbers.old.next) (normal_form sign formula.now)) }
    ensures measured { IfOk result (λ u. IsRectified (tree_form u.body) → IsMeasured (count_of counts.now) u.body) }
    ensures next { OnOk result (numbers.new.next ≡ numbers.old.next + suc (quantifiers (normal_form sign formula.now))) }
    ensures scope { OnOk result (numbers.new.scope.items ≡ numbers.old.scope.items) }
{
    let number = numbers.next;
    numbers.next = next_number(number)?;
    numbers.scope.push(Renaming { var, number })?;
    let body = made(alloc, counts, formula, sign, numbers)?;
    numbers.scope.pop();
    Ok(Quantified {
        var: VarId(number),
        body,
    })
}

fn next_number(number: u32) -> Result<u32, AllocError>
    ensures { IfOk result (λ next. next ≡ suc number) }
{
    number.checked_add(1).ok_or(AllocError)
}

#[tactic(auto, using(crate::proofs::TreeSteps::tree_steps, crate::proofs::TreeSteps::leaf_steps))]
fn truth(alloc: Global, value: bool) -> Result<Boxed<FormTree>, AllocError>
    ensures form { IfOk result (λ tree. tree_form tree ≡ Fixed value) }
    ensures measured { (n : AnySort → ℕ) → IfOk result (λ tree. IsMeasured n tree) }
{
    Boxed::new(alloc, FormTree::Truth(value))
}

// An atom, whose variables have their new numbers.
#[tactic(auto, using(crate::proofs::TreeSteps::tree_steps, crate::proofs::TreeSteps::leaf_steps))]
fn tuple(
    alloc: Global,
    sign: bool,
    relation: Pred,
    terms: &Terms,
    scope: &[Renaming],
) -> Result<Boxed<FormTree>, AllocError>
    ensures form { IfOk result (λ tree. tree_form tree ≡ Atom sign relation (map (renamed_of (new_numbers scope.now)) terms.now)) }
    ensures measured { (n : AnySort → ℕ) → IfOk result (λ tree. IsMeasured n tree) }
{
    let terms = renamed_all(scope, terms.as_slice());
    Boxed::new(alloc, FormTree::Tuple(sign, relation, terms))
}

// An equation, whose variables have their new numbers.
#[tactic(auto, using(crate::proofs::TreeSteps::tree_steps, crate::proofs::TreeSteps::leaf_steps))]
fn same(
    alloc: Global,
    sign: bool,
    t: Term,
    u: Term,
    scope: &[Renaming],
) -> Result<Boxed<FormTree>, AllocError>
    ensures form { IfOk result (λ tree. tree_form tree ≡ Same sign (renamed_of (new_numbers scope.now) t) (renamed_of (new_numbers scope.now) u)) }
    ensures measured { (n : AnySort → ℕ) → IfOk result (λ tree. IsMeasured n tree) }
{
    let t = renamed(scope, t);
    let u = renamed(scope, u);
    Boxed::new(alloc, FormTree::Equation(sign, t, u))
}

// The conjunction of two trees.
#[tactic(auto, using(crate::proofs::TreeSteps::tree_steps))]
fn both(
    alloc: Global,
    p: Boxed<FormTree>,
    q: Boxed<FormTree>,
) -> Result<Boxed<FormTree>, AllocError>
    ensures form { IfOk result (λ tree. tree_form tree ≡ And (tree_form p) (tree_form q)) }
    ensures measured { (n : AnySort → ℕ) → (IsRectified (tree_form p) → IsMeasured n p) → (IsRectified (tree_form q) → IsMeasured n q) → IfOk result (λ tree. IsRectified (tree_form tree) → IsMeasured n tree) }
{
    let extent = conjunction(extent_of(p.get()), extent_of(q.get()))?;
    Boxed::new(alloc, FormTree::Both(extent, p, q))
}

// The disjunction of two trees.
#[tactic(auto, using(crate::proofs::TreeSteps::tree_steps))]
fn either(
    alloc: Global,
    p: Boxed<FormTree>,
    q: Boxed<FormTree>,
) -> Result<Boxed<FormTree>, AllocError>
    ensures form { IfOk result (λ tree. tree_form tree ≡ Or (tree_form p) (tree_form q)) }
    ensures measured { (n : AnySort → ℕ) → (IsRectified (tree_form p) → IsMeasured n p) → (IsRectified (tree_form q) → IsMeasured n q) → IfOk result (λ tree. IsRectified (tree_form tree) → IsMeasured n tree) }
{
    let extent = disjunction(extent_of(p.get()), extent_of(q.get()))?;
    Boxed::new(alloc, FormTree::Either(extent, p, q))
}

#[tactic(auto, using(crate::proofs::TreeSteps::tree_steps))]
fn forall(
    alloc: Global,
    counts: &Counts,
    var: VarId,
    sort: Sort,
    p: Boxed<FormTree>,
) -> Result<Boxed<FormTree>, AllocError>
    ensures form { IfOk result (λ tree. tree_form tree ≡ ForAll var sort (tree_form p)) }
    ensures measured { (IsRectified (tree_form p) → IsMeasured (count_of counts.now) p) → IfOk result (λ tree. IsRectified (tree_form tree) → IsMeasured (count_of counts.now) tree) }
{
    let extent = universal(counts.of(sort), extent_of(p.get()))?;
    Boxed::new(alloc, FormTree::Forall(extent, var, sort, p))
}

#[tactic(auto, using(crate::proofs::TreeSteps::tree_steps))]
fn exists(
    alloc: Global,
    var: VarId,
    sort: Sort,
    p: Boxed<FormTree>,
) -> Result<Boxed<FormTree>, AllocError>
    ensures form { IfOk result (λ tree. tree_form tree ≡ ForSome var sort (tree_form p)) }
    ensures measured { (n : AnySort → ℕ) → (IsRectified (tree_form p) → IsMeasured n p) → IfOk result (λ tree. IsRectified (tree_form tree) → IsMeasured n tree) }
{
    let extent = existential(sort, extent_of(p.get()))?;
    Boxed::new(alloc, FormTree::Exists(extent, var, sort, p))
}
