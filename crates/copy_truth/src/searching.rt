//! Whether a matrix with open variables is false somewhere, by search.
//!
//! The variable with the fewest constants that are left to it is tried first, whatever `forall` binds it.
#![tactic(auto)]

ghost use Rattle.std.specs.Prelude.{◌≡◌, ◌<◌, ◌≤◌, ◌++◌, ◌∷◌, [], ℕ, Bool, false, true, drop, take, length, Some, None, IfOk, OnOk, List, get_or, slice_set};
ghost use Rattle.std.specs.Borrow.{Bor};
ghost use Rattle.csdn_core.specs.declared.terms.Sort.{Sort as AnySort};
ghost use Rattle.decision_laws.specs.Copies.{Scope};
ghost use Rattle.form_trees.specs.declared.trees.FormTree.{FormTree as AnyTree};
ghost use Rattle.form_trees.specs.Trees.{tree_form, tree_size};
ghost use Rattle.fol_forms.specs.Forms.{Or};
ghost use Rattle.ground_inst.specs.Walk.{entry, scope, ways_of};
ghost use Rattle.copy_truth.specs.Early.{HoldsOutside, IsFalseSomewhere, IsTrueThroughout, at_constant, leaf_form};
ghost use Rattle.copy_truth.specs.Candidates.{has_place};
ghost use Rattle.copy_truth.specs.Goals.{HasKept, IsBest, IsChoice, IsFound, IsSight, IsTried, Keeps, any_true};
ghost use Rattle.copy_truth.specs.Matrix.{matrix};

use crate::candidates::Candidates;
use crate::facts::Leaf;
use crate::literals::{Outlook, leaf_outlook};
use crate::misses::misses;
use crate::opened::Variable;
use crate::reading::Reading;
use form_trees::trees::{FormTree, Part, part_of};
use ground_inst::places::Binding;
use ground_inst::walk::bind;
use std::alloc::AllocError;

// How many searches may stand in one another; the stack has room for as many.
const DEEPEST: usize = 10_000;

// A variable with so few constants is tried before a conjunction is split.
const FEW: u32 = 2;

// With so few constants no search is made for a member of a `forall`: its copies are as quickly judged.
const FEW_MISSES: u32 = 4;

/// An open variable, and those of its constants with which no goal is known to be true.
#[derive(Clone, Copy)]
struct Choice {
    x: Variable,
    candidates: Candidates,
    count: u32,
}

/// What is seen of goals.
#[derive(Clone, Copy)]
struct Sight {
    /// One of them is true, whatever open variables stand for.
    is_true: bool,
    /// The choice with the fewest constants.
    best: Option<Choice>,
    /// The place of a conjunction that is kept.
    split: Option<usize>,
}

impl Sight {
    // Of no goals.
    fn first() -> Sight
        ensures { result ≡ record { is_true = false; best = None; split = None } }
    {
        Sight {
            is_true: false,
            best: None,
            split: None,
        }
    }

    // One of the goals is true.
    fn settled(self) -> Sight
        ensures { result ≡ record { is_true = true; best = self.best; split = self.split } }
    {
        Sight {
            is_true: true,
            best: self.best,
            split: self.split,
        }
    }

    // A conjunction is kept.
    fn with_split(self, place: usize) -> Sight
        ensures { result ≡ record { is_true = self.is_true; best = self.best; split = Some place } }
    {
        Sight {
            is_true: self.is_true,
            best: self.best,
            split: Some(place),
        }
    }

    // The better one of two choices.
    fn with_choice(self, choice: Choice) -> Sight
        ensures is_true { result.is_true ≡ self.is_true }
        ensures best { (n : AnySort → ℕ) (test : Scope → Bool) (env : Scope) → IsBest n test env self.best → IsBest n test env (Some choice) → IsBest n test env result.best }
    {
        Sight {
            is_true: self.is_true,
            best: better(self.best, choice),
            split: self.split,
        }
    }
}

// That with fewer constants.
fn better(best: Option<Choice>, choice: Choice) -> Option<Choice>
    ensures { (n : AnySort → ℕ) (test : Scope → Bool) (env : Scope) → IsBest n test env best → IsBest n test env (Some choice) → IsBest n test env result }
{
    match best {
        None => Some(choice),
        Some(other) => {
            if other.count <= choice.count {
                Some(other)
            } else {
                Some(choice)
            }
        }
    }
}

// How many of a variable's constants are among these.
fn count_of_candidates(r: &Reading, x: Variable, candidates: Candidates) -> u32 {
    candidates.count_below(r.names.facts.counts.of(x.sort))
}

// Keeps a goal that may be false where a variable stands for one of some constants.
fn keep_open<'a>(
    r: &Reading,
    tree: &'a FormTree,
    x: Variable,
    candidates: Candidates,
    goals: &mut Vec<&'a FormTree>,
    sight: Sight,
) -> Result<Sight, AllocError>
    ensures { (env : Scope) → IsChoice (ways_of r.now.names).count (matrix r.now (tree_form tree.now)) env x candidates → IfOk result (λ new. Keeps r.now (tree_form tree.now) env sight goals.old.items new goals.new.items) }
{
    goals.push(tree)?;
    let count = count_of_candidates(r, x, candidates);
    Ok(sight.with_choice(Choice {
        x,
        candidates,
        count,
    }))
}

// Keeps a goal that is split later.
fn keep_split<'a>(
    r: &Reading,
    tree: &'a FormTree,
    goals: &mut Vec<&'a FormTree>,
    sight: Sight,
) -> Result<Sight, AllocError>
    ensures { IfOk result (λ new. (env : Scope) → Keeps r.now (tree_form tree.now) env sight goals.old.items new goals.new.items) }
{
    let place = goals.len();
    goals.push(tree)?;
    Ok(sight.with_split(place))
}

// Keeps an atom or an equation, if something can be false of it.
fn keep_leaf<'a>(
    r: &Reading,
    tree: &'a FormTree,
    sign: bool,
    leaf: &Leaf,
    goals: &mut Vec<&'a FormTree>,
    env: &mut Vec<Binding>,
    sight: Sight,
) -> Result<Sight, AllocError>
    requires { tree_form tree.now ≡ leaf_form sign leaf.now }
    ensures sight { IfOk result (λ new. Keeps r.now (tree_form tree.now) (scope env.old.items) sight goals.old.items new goals.new.items) }
    ensures env { OnOk result (env.new.items ≡ env.old.items) }
{
    match leaf_outlook(r, sign, leaf, env)? {
        Outlook::True => Ok(sight.settled()),
        Outlook::False => Ok(sight),
        Outlook::Open(x, candidates) => keep_open(r, tree, x, candidates, goals, sight),
    }
}

#[cycle(keep)]
// Keeps those parts of a goal that are not false: conjunctions, and what is open.
fn keep<'a>(
    r: &Reading,
    tree: &'a FormTree,
    goals: &mut Vec<&'a FormTree>,
    env: &mut Vec<Binding>,
    sight: Sight,
) -> Result<Sight, AllocError>
    ensures sight { IfOk result (λ new. Keeps r.now (tree_form tree.now) (scope env.old.items) sight goals.old.items new goals.new.items) }
    ensures env { OnOk result (env.new.items ≡ env.old.items) }
{
    match part_of(tree) {
        Part::Truth(value) => Ok(if value { sight.settled() } else { sight }),
        Part::Tuple(sign, relation, terms) => {
            keep_leaf(
                r,
                tree,
                sign,
                &Leaf::Tuple(relation, terms),
                goals,
                env,
                sight,
            )
        }
        Part::Equation(sign, t, u) => {
            keep_leaf(r, tree, sign, &Leaf::Equation(t, u), goals, env, sight)
        }
        Part::Both(_, _) => keep_split(r, tree, goals, sight),
        Part::Either(p, q) => keep_either(r, p, q, goals, env, sight),
        Part::Forall(_, _, p) => keep(r, p, goals, env, sight),
        Part::Exists(_, _, p) => keep(r, p, goals, env, sight),
    }
}

#[cycle(keep)]
// The same for both sides of a disjunction.
fn keep_either<'a>(
    r: &Reading,
    p: &'a FormTree,
    q: &'a FormTree,
    goals: &mut Vec<&'a FormTree>,
    env: &mut Vec<Binding>,
    sight: Sight,
) -> Result<Sight, AllocError>
    ensures sight { IfOk result (λ new. Keeps r.now (Or (tree_form p.now) (tree_form q.now)) (scope env.old.items) sight goals.old.items new goals.new.items) }
    ensures env { OnOk result (env.new.items ≡ env.old.items) }
{
    let first = keep(r, p, goals, env, sight)?;
    if first.is_true {
        return Ok(first);
    }
    keep(r, q, goals, env, first)
}

// The same for the goal at a place.
fn keep_at<'a>(
    r: &Reading,
    goals: &mut Vec<&'a FormTree>,
    place: usize,
    env: &mut Vec<Binding>,
    sight: Sight,
) -> Result<Sight, AllocError>
    ensures sight { IfOk result (λ new. (d : Bor AnyTree) → Keeps r.now (tree_form (get_or goals.old.items place d).now) (scope env.old.items) sight goals.old.items new goals.new.items) }
    ensures env { OnOk result (env.new.items ≡ env.old.items) }
{
    if place >= goals.len() {
        return Err(AllocError);
    }
    let tree = goals[place];
    keep(r, tree, goals, env, sight)
}

// The same for all goals from a place on; what is kept stands behind them.
fn keep_all<'a>(
    r: &Reading,
    goals: &mut Vec<&'a FormTree>,
    from: usize,
    env: &mut Vec<Binding>,
) -> Result<Sight, AllocError>
    ensures sight { IfOk result (λ new. HasKept r.now goals.old.items (any_true r.now (drop from goals.old.items)) (scope env.old.items) new goals.new.items) }
    ensures env { OnOk result (env.new.items ≡ env.old.items) }
{
    let end = goals.len();
    let mut place = from;
    let mut sight = Sight::first();
    'goals: while place < end {
        sight = keep_at(r, goals, place, env, sight)?;
        if sight.is_true {
            return Ok(sight);
        }
        place += 1;
    }
    Ok(sight)
}

#[cycle(find)]
// Whether the goals from a place on are all false, where open variables stand for some constants; only so deep. Goals and bindings
// are the same at the end.
fn find<'a>(
    r: &Reading,
    goals: &mut Vec<&'a FormTree>,
    from: usize,
    env: &mut Vec<Binding>,
    depth: usize,
) -> Result<bool, AllocError>
    ensures found { IfOk result (IsFound (ways_of r.now.names).count (any_true r.now (drop from goals.old.items)) (scope env.old.items)) }
    ensures goals { OnOk result (goals.new.items ≡ goals.old.items) }
    ensures env { OnOk result (env.new.items ≡ env.old.items) }
{
    if depth == 0 {
        return Err(AllocError);
    }
    let start = goals.len();
    let sight = keep_all(r, goals, from, env)?;
    let found = look(r, goals, start, env, sight, depth - 1)?;
    goals.truncate(start);
    Ok(found)
}

#[cycle(find)]
// The same for the goals of which this was seen; those that are kept, from a place on, may change.
fn look<'a>(
    r: &Reading,
    goals: &mut Vec<&'a FormTree>,
    start: usize,
    env: &mut Vec<Binding>,
    sight: Sight,
    depth: usize,
) -> Result<bool, AllocError>
    ensures found { IfOk result (λ b. (test : Scope → Bool) → IsSight (ways_of r.now.names).count test (any_true r.now (drop start goals.old.items)) (scope env.old.items) sight → IsFound (ways_of r.now.names).count test (scope env.old.items) b) }
    ensures goals { OnOk result (take start goals.new.items ≡ take start goals.old.items) }
    ensures env { OnOk result (env.new.items ≡ env.old.items) }
{
    if sight.is_true {
        return Ok(false);
    }
    if goals.len() <= start {
        return Ok(true);
    }
    match sight.best {
        None => split(r, goals, start, sight.split, env, depth),
        Some(choice) => {
            if choice.count <= FEW || sight.split.is_none() {
                try_each(r, goals, start, env, choice, depth)
            } else {
                split(r, goals, start, sight.split, env, depth)
            }
        }
    }
}

#[cycle(find)]
// The same for the goals from a place on, by the constants of a variable.
fn try_each<'a>(
    r: &Reading,
    goals: &mut Vec<&'a FormTree>,
    start: usize,
    env: &mut Vec<Binding>,
    choice: Choice,
    depth: usize,
) -> Result<bool, AllocError>
    ensures found { IfOk result (λ b. IsChoice (ways_of r.now.names).count (any_true r.now (drop start goals.old.items)) (scope env.old.items) choice.x choice.candidates → IsFound (ways_of r.now.names).count (any_true r.now (drop start goals.old.items)) (scope env.old.items) b) }
    ensures goals { OnOk result (goals.new.items ≡ goals.old.items) }
    ensures env { OnOk result (env.new.items ≡ env.old.items) }
{
    let count = r.names.facts.counts.of(choice.x.sort);
    'places: for place in 0..count {
        if try_at(r, goals, start, env, choice, place, depth)? {
            return Ok(true);
        }
    }
    Ok(false)
}

#[cycle(find)]
// The same where the variable stands for the constant at a place; no, if that isn't among the candidates.
fn try_at<'a>(
    r: &Reading,
    goals: &mut Vec<&'a FormTree>,
    start: usize,
    env: &mut Vec<Binding>,
    choice: Choice,
    place: u64,
    depth: usize,
) -> Result<bool, AllocError>
    ensures found { IfOk result (λ b. IsTried (ways_of r.now.names).count (any_true r.now (drop start goals.old.items)) (scope env.old.items) choice.x choice.candidates place b) }
    ensures goals { OnOk result (goals.new.items ≡ goals.old.items) }
    ensures env { OnOk result (env.new.items ≡ env.old.items) }
{
    if !choice.candidates.has(place) {
        return Ok(false);
    }
    bind(env, choice.x.at(place))?;
    let found = find(r, goals, start, env, depth)?;
    env.pop();
    Ok(found)
}

#[cycle(find)]
// The same by the sides of the conjunction at a place.
fn split<'a>(
    r: &Reading,
    goals: &mut Vec<&'a FormTree>,
    start: usize,
    place: Option<usize>,
    env: &mut Vec<Binding>,
    depth: usize,
) -> Result<bool, AllocError>
    ensures found { IfOk result (IsFound (ways_of r.now.names).count (any_true r.now (drop start goals.old.items)) (scope env.old.items)) }
    ensures goals { OnOk result (take start goals.new.items ≡ take start goals.old.items) }
    ensures env { OnOk result (env.new.items ≡ env.old.items) }
{
    let place = within(place, start, goals.len())?;
    match part_of(goals[place]) {
        Part::Both(p, q) => {
            if find_with(r, goals, start, place, p, env, depth)? {
                return Ok(true);
            }
            find_with(r, goals, start, place, q, env, depth)
        }
        _ => Err(AllocError),
    }
}

#[cycle(find)]
// The same with another goal at a place.
fn find_with<'a>(
    r: &Reading,
    goals: &mut Vec<&'a FormTree>,
    start: usize,
    place: usize,
    tree: &'a FormTree,
    env: &mut Vec<Binding>,
    depth: usize,
) -> Result<bool, AllocError>
    requires { place < length goals.old.items }
    ensures found { IfOk result (IsFound (ways_of r.now.names).count (any_true r.now (drop start (slice_set goals.old.items place tree.entry))) (scope env.old.items)) }
    ensures goals { OnOk result (goals.new.items ≡ slice_set goals.old.items place tree.entry) }
    ensures env { OnOk result (env.new.items ≡ env.old.items) }
{
    goals[place] = tree;
    find(r, goals, start, env, depth)
}

// A place, which is at least this, and below that.
fn within(place: Option<usize>, start: usize, end: usize) -> Result<usize, AllocError>
    ensures { IfOk result (λ p. (start ≤ p) × (p < end)) }
{
    match place {
        None => Err(AllocError),
        Some(at) => {
            if at < start || at >= end {
                return Err(AllocError);
            }
            Ok(at)
        }
    }
}

// Whether the matrix of a tree is false, where open variables stand for some constants.
fn search(r: &Reading, tree: &FormTree, env: &mut Vec<Binding>) -> Result<bool, AllocError>
    ensures found { IfOk result (IsFound (ways_of r.now.names).count (matrix r.now (tree_form tree.now)) (scope env.old.items)) }
    ensures env { OnOk result (env.new.items ≡ env.old.items) }
{
    let mut goals = Vec::new(r.alloc);
    goals.push(tree)?;
    find(r, &mut goals, 0, env, DEEPEST)
}

/// Whether open variables may stand for constants with which the matrix of a tree is false. The bindings are the same at the end.
/// It may take time that is exponential in the number of open variables; `AllocError` also where more than 10,000 constants and
/// sides of conjunctions are chosen one in another.
pub fn is_broken(r: &Reading, tree: &FormTree, env: &mut Vec<Binding>) -> Result<bool, AllocError>
    requires filled { (s : AnySort) → 0 < (ways_of r.now.names).count s }
    ensures yes { IfOk result (λ b. b ≡ true → IsFalseSomewhere r.now (tree_form tree.now) (scope env.old.items)) }
    ensures no { IfOk result (λ b. b ≡ false → IsTrueThroughout r.now (tree_form tree.now) (scope env.old.items)) }
    ensures env { OnOk result (env.new.items ≡ env.old.items) }
{
    search(r, tree, env)
}

/// Constants of an open variable: where it stands for none of them, the matrix of a tree is true, whatever other open variables stand
/// for. The bindings are the same at the end.
pub fn search_misses(
    r: &Reading,
    x: Variable,
    tree: &FormTree,
    env: &mut Vec<Binding>,
) -> Result<Candidates, AllocError>
    requires filled { (s : AnySort) → 0 < (ways_of r.now.names).count s }
    ensures value { IfOk result (λ c. HoldsOutside r.now (tree_form tree.now) (scope env.old.items) x c) }
    ensures env { OnOk result (env.new.items ≡ env.old.items) }
{
    let missed = misses(r, x, Candidates::all(), tree, env)?;
    if count_of_candidates(r, x, missed) <= FEW_MISSES || search(r, tree, env)? {
        return Ok(missed);
    }
    Ok(Candidates::fewest())
}
