//! The clauses of the copies of a sentence that a valuation breaks.
//!
//! Parts without a named node are not looked into: they count as what they are, so that their clauses are true. The others are
//! walked through. A simplified formula has no truth value inside: `AllocError` for one.
#![tactic(auto)]

ghost use Rattle.std.specs.Prelude.{◌≡◌, ◌⊎◌, ◌<◌, ◌&&◌, [], not, true, false, IfOk, OnOk};
ghost use Rattle.fol_forms.specs.Forms.{And, Atom, ForAll, ForSome, Or, Same};
ghost use Rattle.decision_laws.specs.Weights.{weight as weight_of};
ghost use Rattle.form_trees.specs.Plain.{IsPlain};
ghost use Rattle.form_trees.specs.Trees.{IsMeasured, tree_form};
ghost use Rattle.ground_inst.specs.Walk.{copies_at, scope, state_of, ways_of};
ghost use Rattle.copy_truth.specs.Judged.{judged_copies};
ghost use Rattle.lazy_ground.specs.Readings.{HasFreeParts, IsFree, IsGiven, given_unless as given_by, makes_node, named_by, node_value};
ghost use Rattle.lazy_ground.specs.Found.{Looks, LooksAt, LooksBound, LooksInto, LooksMember};
ghost use Rattle.lazy_ground.specs.Members.{HasAllFalse, may_be_false as may_be_false_at};

use crate::reading::{has_free_parts, is_free};
use clause_log::Lit;
use copy_truth::breaking::member_candidates;
use copy_truth::candidates::Candidates;
use copy_truth::judging::judge;
use copy_truth::needing::{nodes_of, past, sum};
use copy_truth::opened::Variable;
use copy_truth::reading::{Reading, is_true};
use csdn_core::terms::{Pred, Sort, Term, Terms, VarId};
use form_trees::trees::{FormTree, Part, extent_of, part_of};
use ground_inst::bases::{larger, one_more};
use ground_inst::places::{Binding, equation_literal, literal, tuple_literal};
use ground_inst::rows::Rows;
use ground_inst::walk::{Work, bind, number, push_either, push_member};
use std::alloc::AllocError;

// A pass looks for more clauses than these,
const FEW: usize = 10;

// and for one more for each so many named atoms.
const ATOMS_OF_ONE: usize = 120;

/// The literal of the whole of some copies, and what it is.
#[derive(Clone, Copy)]
pub struct Seen {
    pub literal: Lit,
    pub value: bool,
}

#[cycle(look)]
/// Appends clauses of the copies of a tree that the completed valuation breaks, and answers the literal of the whole. Where its
/// truth value is given, it is not looked for. The foralls of a tree that stand one in another are one block; `marks` gets, for
/// each clause, the number of its block, which for the tree itself is `block`.
pub fn look(
    r: &Reading,
    tree: &FormTree,
    given: Option<bool>,
    block: u64,
    marks: &mut Vec<u64>,
    work: &mut Work,
) -> Result<Seen, AllocError>
    requires measured { IsMeasured (ways_of r.now.names).count tree.now }
    ensures { IfOk result (λ seen. Looks r.now (tree_form tree.now) given (state_of work.old) (state_of work.new) seen) }
{
    match part_of(tree) {
        Part::Truth(_) => Err(AllocError),
        Part::Tuple(sign, pred, terms) => look_tuple(r, sign, pred, terms, given, work),
        Part::Equation(sign, t, u) => look_equation(r, sign, t, u, given, work),
        Part::Both(_, _) => look_node(r, tree, given, block, marks, work),
        Part::Either(_, _) => look_node(r, tree, given, block, marks, work),
        Part::Forall(var, sort, p) => {
            let count = r.names.facts.counts.of(sort);
            if count > 1 {
                return look_node(r, tree, given, block, marks, work);
            }
            look_only(r, var, sort, p, given, block, marks, work)
        }
        Part::Exists(var, sort, p) => look_free(r, var, sort, p, given, block, marks, work),
    }
}

// The literal of an atom, and what it is.
fn look_tuple(
    r: &Reading,
    sign: bool,
    relation: Pred,
    terms: &Terms,
    given: Option<bool>,
    work: &mut Work,
) -> Result<Seen, AllocError>
    ensures { IfOk result (λ seen. Looks r.now (Atom sign relation terms.now) given (state_of work.old) (state_of work.new) seen) }
{
    let l = tuple_literal(&r.names, work.env.as_slice(), sign, relation, terms)?;
    let value = is_true(r.trues, l);
    Ok(Seen { literal: l, value })
}

// The literal of an equation, and what it is.
fn look_equation(
    r: &Reading,
    sign: bool,
    t: Term,
    u: Term,
    given: Option<bool>,
    work: &mut Work,
) -> Result<Seen, AllocError>
    ensures { IfOk result (λ seen. Looks r.now (Same sign t u) given (state_of work.old) (state_of work.new) seen) }
{
    let l = equation_literal(&r.names, work.env.as_slice(), sign, t, u)?;
    let value = is_true(r.trues, l);
    Ok(Seen { literal: l, value })
}

// What the copies of a tree are, where that is not given.
fn judge_unless(
    r: &Reading,
    tree: &FormTree,
    given: Option<bool>,
    work: &mut Work,
) -> Result<bool, AllocError>
    requires measured { IsMeasured (ways_of r.now.names).count tree.now }
    ensures value { IfOk result (λ b. IsGiven given (judged_copies r.now (tree_form tree.now) (state_of work.old).env (state_of work.old).base) → b ≡ judged_copies r.now (tree_form tree.now) (state_of work.old).env (state_of work.old).base) }
    ensures same { OnOk result (state_of work.new ≡ state_of work.old) }
{
    match given {
        Some(value) => Ok(value),
        None => judge(r, tree, &mut work.env, work.base),
    }
}

// What the conjunction or disjunction that comes next counts as.
fn value_at(r: &Reading, tree: &FormTree, work: &mut Work) -> Result<bool, AllocError>
    requires measured { IsMeasured (ways_of r.now.names).count tree.now }
    ensures value { IfOk result (λ b. b ≡ node_value r.now (state_of work.old).next (copies_at (ways_of r.now.names) (tree_form tree.now) (state_of work.old))) }
    ensures same { OnOk result (state_of work.new ≡ state_of work.old) }
{
    if r.named.value(work.next) {
        return Ok(r.trues.value(work.next));
    }
    judge(r, tree, &mut work.env, work.base)
}

// Passes copies that are one conjunction or disjunction, of so many nodes of which none is named.
fn skip(
    r: &Reading,
    tree: &FormTree,
    count: u64,
    given: Option<bool>,
    work: &mut Work,
) -> Result<Seen, AllocError>
    requires measured { IsMeasured (ways_of r.now.names).count tree.now }
    ensures { IfOk result (λ seen. count ≡ weight_of (ways_of r.now.names).count (tree_form tree.now) → IsFree (named_by r.now) (state_of work.old).next count → makes_node (ways_of r.now.names).count (tree_form tree.now) ≡ true → Looks r.now (tree_form tree.now) given (state_of work.old) (state_of work.new) seen) }
{
    let value = judge_unless(r, tree, given, work)?;
    let top = literal(true, work.next)?;
    work.next = sum(work.next, count)?;
    work.base = past(&r.names, tree, work.base)?;
    Ok(Seen {
        literal: top,
        value,
    })
}

#[cycle(look)]
// The same of copies that are one conjunction or disjunction.
fn look_node(
    r: &Reading,
    tree: &FormTree,
    given: Option<bool>,
    block: u64,
    marks: &mut Vec<u64>,
    work: &mut Work,
) -> Result<Seen, AllocError>
    requires measured { IsMeasured (ways_of r.now.names).count tree.now }
    ensures { IfOk result (λ seen. makes_node (ways_of r.now.names).count (tree_form tree.now) ≡ true → Looks r.now (tree_form tree.now) given (state_of work.old) (state_of work.new) seen) }
{
    let count = nodes_of(&r.names, tree);
    if is_free(r.named, work.next, count) {
        return skip(r, tree, count, given, work);
    }
    let value = value_at(r, tree, work)?;
    let top = literal(true, work.next)?;
    look_inside(r, tree, count, value, block, marks, work)?;
    Ok(Seen {
        literal: top,
        value,
    })
}

// Whether a conjunction or disjunction of so many nodes has no clause that is false, since it is false, and none of its parts is named.
fn is_over(r: &Reading, value: bool, count: u64, next: u64) -> bool
    ensures value { result ≡ true → value ≡ false }
    ensures free { result ≡ true → HasFreeParts (named_by r.now) next count }
{
    !value && has_free_parts(r.named, next, count)
}

// Whether a pass has found enough clauses, more of them where many atoms are named: others may be found in the next one.
fn is_enough(r: &Reading, rows: &Rows) -> bool
    ensures { result ≡ true → rows.now ≡ [] → ⊥ }
{
    let count = rows.len();
    count > FEW && count - FEW > r.named.true_atoms().len() / ATOMS_OF_ONE
}

// Whether a conjunction or disjunction of so many nodes is passed: it has no clause that is false, or enough are found.
fn is_done(r: &Reading, value: bool, count: u64, next: u64, rows: &Rows) -> bool
    ensures { result ≡ true → (rows.now ≡ [] → ⊥) ⊎ ((value ≡ false) × HasFreeParts (named_by r.now) next count) }
{
    is_enough(r, rows) || is_over(r, value, count, next)
}

#[cycle(look)]
// The clauses of a conjunction or disjunction of so many nodes with this value, and of its parts.
fn look_inside(
    r: &Reading,
    tree: &FormTree,
    count: u64,
    value: bool,
    block: u64,
    marks: &mut Vec<u64>,
    work: &mut Work,
) -> Result<(), AllocError>
    requires measured { IsMeasured (ways_of r.now.names).count tree.now }
    requires count { count ≡ weight_of (ways_of r.now.names).count (tree_form tree.now) }
    ensures { OnOk result (makes_node (ways_of r.now.names).count (tree_form tree.now) ≡ true → LooksInto r.now (tree_form tree.now) value (state_of work.old) (state_of work.new)) }
{
    if is_done(r, value, count, work.next, &work.rows) {
        work.next = sum(work.next, count)?;
        work.base = past(&r.names, tree, work.base)?;
        return Ok(());
    }
    look_into(r, tree, value, block, marks, work)
}

#[cycle(look)]
// The clauses of a conjunction or disjunction with this value, and of its parts.
fn look_into(
    r: &Reading,
    tree: &FormTree,
    value: bool,
    block: u64,
    marks: &mut Vec<u64>,
    work: &mut Work,
) -> Result<(), AllocError>
    requires measured { IsMeasured (ways_of r.now.names).count tree.now }
    ensures { OnOk result (LooksInto r.now (tree_form tree.now) value (state_of work.old) (state_of work.new)) }
{
    match part_of(tree) {
        Part::Truth(_) => Err(AllocError),
        Part::Tuple(_, _, _) => Err(AllocError),
        Part::Equation(_, _, _) => Err(AllocError),
        Part::Both(p, q) => look_into_both(r, p, q, value, marks, work),
        Part::Either(p, q) => look_into_either(r, p, q, value, marks, work),
        Part::Forall(var, sort, p) => {
            let is_plain = extent_of(tree).is_plain;
            look_into_all(r, var, sort, p, is_plain, value, block, marks, work)
        }
        Part::Exists(_, _, _) => Err(AllocError),
    }
}

// Keeps, beside a clause, of which block it is.
fn note(marks: &mut Vec<u64>, block: u64) -> Result<(), AllocError> {
    marks.push(block)?;
    Ok(())
}

// No value is given where it has to be known.
fn given_unless(wanted: bool) -> Option<bool>
    ensures { result ≡ given_by wanted }
{
    if wanted { None } else { Some(true) }
}

// Whether what has to be true is not.
fn is_missing(wanted: bool, value: bool) -> bool
    ensures { result ≡ (wanted && not value) }
{
    wanted && !value
}

#[cycle(look)]
// The clauses of a member of the conjunction with this number, and its own clause. Answers whether members are still looked at.
fn look_member(
    r: &Reading,
    tree: &FormTree,
    x: u64,
    asked: bool,
    block: u64,
    marks: &mut Vec<u64>,
    work: &mut Work,
) -> Result<bool, AllocError>
    requires measured { IsMeasured (ways_of r.now.names).count tree.now }
    ensures { IfOk result (λ still. LooksMember r.now (tree_form tree.now) x asked (state_of work.old) (state_of work.new) still) }
{
    let seen = look(r, tree, given_unless(asked), block, marks, work)?;
    if is_missing(asked, seen.value) {
        note(marks, block)?;
        push_member(&mut work.rows, x, seen.literal)?;
        return Ok(false);
    }
    Ok(asked)
}

#[cycle(look)]
// The clauses of a conjunction of two.
fn look_into_both(
    r: &Reading,
    p: &FormTree,
    q: &FormTree,
    value: bool,
    marks: &mut Vec<u64>,
    work: &mut Work,
) -> Result<(), AllocError>
    requires left { IsMeasured (ways_of r.now.names).count p.now }
    requires right { IsMeasured (ways_of r.now.names).count q.now }
    ensures { OnOk result (LooksInto r.now (And (tree_form p.now) (tree_form q.now)) value (state_of work.old) (state_of work.new)) }
{
    let x = number(work)?;
    let first = work.next;
    look_member(r, p, x, value, first, marks, work)?;
    let second = work.next;
    look_member(r, q, x, value, second, marks, work)?;
    Ok(())
}

#[cycle(look)]
// The clauses of a disjunction. Both sides take the same free constants.
fn look_into_either(
    r: &Reading,
    p: &FormTree,
    q: &FormTree,
    value: bool,
    marks: &mut Vec<u64>,
    work: &mut Work,
) -> Result<(), AllocError>
    requires left { IsMeasured (ways_of r.now.names).count p.now }
    requires right { IsMeasured (ways_of r.now.names).count q.now }
    ensures { OnOk result (LooksInto r.now (Or (tree_form p.now) (tree_form q.now)) value (state_of work.old) (state_of work.new)) }
{
    let x = number(work)?;
    let start = work.base;
    let first = work.next;
    let a = look(r, p, given_unless(value), first, marks, work)?;
    let after = work.base;
    work.base = start;
    let wanted = is_missing(value, a.value);
    let second = work.next;
    let b = look(r, q, given_unless(wanted), second, marks, work)?;
    work.base = larger(after, work.base);
    if is_missing(wanted, b.value) {
        note(marks, x)?;
        return push_either(&mut work.rows, x, a.literal, b.literal);
    }
    Ok(())
}

#[cycle(look)]
// The clauses of the copies of a body, its variable standing for this constant.
fn look_at(
    r: &Reading,
    binding: Binding,
    tree: &FormTree,
    given: Option<bool>,
    block: u64,
    marks: &mut Vec<u64>,
    work: &mut Work,
) -> Result<Seen, AllocError>
    requires measured { IsMeasured (ways_of r.now.names).count tree.now }
    ensures { IfOk result (λ seen. LooksAt r.now (tree_form tree.now) binding.var binding.sort binding.place given (state_of work.old) (state_of work.new) seen) }
{
    bind(&mut work.env, binding)?;
    let seen = look(r, tree, given, block, marks, work)?;
    work.env.pop();
    Ok(seen)
}

#[cycle(look)]
// The clauses of a `forall` over one constant.
fn look_only(
    r: &Reading,
    var: VarId,
    sort: Sort,
    tree: &FormTree,
    given: Option<bool>,
    block: u64,
    marks: &mut Vec<u64>,
    work: &mut Work,
) -> Result<Seen, AllocError>
    requires measured { IsMeasured (ways_of r.now.names).count tree.now }
    ensures { IfOk result (λ seen. Looks r.now (ForAll var sort (tree_form tree.now)) given (state_of work.old) (state_of work.new) seen) }
{
    if r.names.facts.counts.of(sort) != 1 {
        return Err(AllocError);
    }
    let start = work.base;
    let binding = Binding {
        var,
        sort,
        place: 0,
    };
    let seen = look_at(r, binding, tree, given, block, marks, work)?;
    work.base = start;
    Ok(seen)
}

#[cycle(look)]
// The clauses of an `exists`: its variable stands for the first free constant.
fn look_free(
    r: &Reading,
    var: VarId,
    sort: Sort,
    tree: &FormTree,
    given: Option<bool>,
    block: u64,
    marks: &mut Vec<u64>,
    work: &mut Work,
) -> Result<Seen, AllocError>
    requires measured { IsMeasured (ways_of r.now.names).count tree.now }
    ensures { IfOk result (λ seen. Looks r.now (ForSome var sort (tree_form tree.now)) given (state_of work.old) (state_of work.new) seen) }
{
    let place = work.base.of(sort);
    work.base = one_more(work.base, sort)?;
    look_at(
        r,
        Binding { var, sort, place },
        tree,
        given,
        block,
        marks,
        work,
    )
}

#[cycle(look)]
// The clauses of a member of the conjunction with this number, its variable standing for this constant, and its own clause.
fn look_bound(
    r: &Reading,
    binding: Binding,
    tree: &FormTree,
    x: u64,
    asked: bool,
    block: u64,
    marks: &mut Vec<u64>,
    work: &mut Work,
) -> Result<bool, AllocError>
    requires measured { IsMeasured (ways_of r.now.names).count tree.now }
    ensures { IfOk result (λ still. LooksBound r.now (tree_form tree.now) binding.var binding.sort binding.place x asked (state_of work.old) (state_of work.new) still) }
{
    bind(&mut work.env, binding)?;
    let still = look_member(r, tree, x, asked, block, marks, work)?;
    work.env.pop();
    Ok(still)
}

// The members of a `forall`: its variable, the number of its conjunction, how many nodes each member has, and the constants at
// which a member may be false, where members are looked at.
#[derive(Clone, Copy)]
struct Members {
    var: VarId,
    sort: Sort,
    number: u64,
    nodes: u64,
    candidates: Option<Candidates>,
}

// Whether a member may be false.
fn may_be_false(candidates: Option<Candidates>, place: u64) -> bool
    ensures { result ≡ may_be_false_at candidates place }
{
    match candidates {
        None => true,
        Some(candidates) => candidates.has(place),
    }
}

// Those at which a member of a `forall` may be false, where that is asked for.
fn candidates_if(
    r: &Reading,
    asked: bool,
    var: VarId,
    sort: Sort,
    tree: &FormTree,
    is_plain: bool,
    env: &mut Vec<Binding>,
) -> Result<Option<Candidates>, AllocError>
    requires plain { is_plain ≡ true → IsPlain (ForAll var sort (tree_form tree.now)) }
    ensures value { IfOk result (HasAllFalse r.now (tree_form tree.now) var sort (scope env.old.items)) }
    ensures env { OnOk result (env.new.items ≡ env.old.items) }
{
    if !asked {
        return Ok(None);
    }
    let candidates = member_candidates(r, Variable { var, sort }, tree, is_plain, env)?;
    Ok(Some(candidates))
}

// Whether a member has no clause that is false: none of its nodes is named, and it is true or isn't asked for.
fn is_passed(r: &Reading, members: Members, place: u64, asked: bool, next: u64) -> bool
    ensures free { result ≡ true → IsFree (named_by r.now) next members.nodes }
    ensures certain { result ≡ true → asked ≡ true → may_be_false_at members.candidates place ≡ false }
{
    if asked && may_be_false(members.candidates, place) {
        return false;
    }
    is_free(r.named, next, members.nodes)
}

#[cycle(look)]
// The clauses of a member of a `forall`, and its own clause; it is passed where that is seen to be true, and no node is named.
fn look_place(
    r: &Reading,
    members: Members,
    place: u64,
    tree: &FormTree,
    asked: bool,
    block: u64,
    marks: &mut Vec<u64>,
    work: &mut Work,
) -> Result<bool, AllocError>
    requires measured { IsMeasured (ways_of r.now.names).count tree.now }
    requires place { place < (ways_of r.now.names).count members.sort }
    requires nodes { members.nodes ≡ weight_of (ways_of r.now.names).count (tree_form tree.now) }
    requires candidates { HasAllFalse r.now (tree_form tree.now) members.var members.sort (state_of work.old).env members.candidates }
    ensures { IfOk result (λ still. LooksBound r.now (tree_form tree.now) members.var members.sort place members.number asked (state_of work.old) (state_of work.new) still) }
{
    if is_passed(r, members, place, asked, work.next) {
        work.next = sum(work.next, members.nodes)?;
        return Ok(asked);
    }
    let binding = Binding {
        var: members.var,
        sort: members.sort,
        place,
    };
    look_bound(r, binding, tree, members.number, asked, block, marks, work)
}

#[cycle(look)]
// The clauses of a `forall` over more than one constant: one of a false member at most.
fn look_into_all(
    r: &Reading,
    var: VarId,
    sort: Sort,
    tree: &FormTree,
    is_plain: bool,
    value: bool,
    block: u64,
    marks: &mut Vec<u64>,
    work: &mut Work,
) -> Result<(), AllocError>
    requires measured { IsMeasured (ways_of r.now.names).count tree.now }
    requires plain { is_plain ≡ true → IsPlain (ForAll var sort (tree_form tree.now)) }
    ensures { OnOk result (LooksInto r.now (ForAll var sort (tree_form tree.now)) value (state_of work.old) (state_of work.new)) }
{
    let count = r.names.facts.counts.of(sort);
    if count < 2 {
        return Err(AllocError);
    }
    let start = work.base;
    let number = number(work)?;
    let nodes = nodes_of(&r.names, tree);
    let candidates = candidates_if(r, value, var, sort, tree, is_plain, &mut work.env)?;
    let members = Members {
        var,
        sort,
        number,
        nodes,
        candidates,
    };
    let mut asked = value;
    'places: for place in 0..count {
        work.base = start;
        asked = look_place(r, members, place, tree, asked, block, marks, work)?;
    }
    work.base = start;
    Ok(())
}
