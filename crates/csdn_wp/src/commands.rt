//! Weakest preconditions of commands.
ghost use Rattle.std.specs.Prelude.{◌≤◌, List, IfOk};
ghost use Rattle.csdn_core.specs.Sorted.{Bind as Scoped};
ghost use Rattle.csdn_wp.specs.After.{MayPrecede, IsPrecondition};
ghost use Rattle.csdn_core.specs.declared.syntax.Formula.TheVariants.{Not, And, Implies, Exists, Forall};
ghost use Rattle.csdn_core.specs.declared.syntax.Command.TheVariants.{Seq};
ghost use Rattle.fol_forms.specs.Limits.{most_nodes};
ghost use Rattle.csdn_wp.specs.Makes.{Makes};
ghost use Rattle.csdn_wp.specs.Preconditions.{wp as wp_of};

use crate::build::{boxed, copied, fitting, left_beside, left_beside_one, negated, no_element};
use csdn_core::program::Program;
use csdn_core::syntax::{Command, Formula};
use csdn_core::terms::Pred;
use fol_forms::close::Bind;
use fol_forms::refusal::{FormRefusal, MOST_NODES, or_memory};
use fol_forms::replace::{add_flood, add_row, drop_row};
use sqlite_items::Boxed;
use std::alloc::Global;

/// What is true exactly where every execution of the command ends where the formula is true. The command is one of the
/// program; no variable of it is bound in the formula, and none that it picks is free there. `Large` exactly where that
/// has more than 1,048,576 nodes.
///
/// # Example
///
/// From the test `makes_the_precondition_of_a_body` of csdn_conditions_tests: five quantifiers and a negation, and in
/// place of the atom `(ft(..) or same) and not same`, where `same` has five equations.
///
/// ```rust
/// // safety none: forall S:SW, A:HO, B:HO, I:PR, O:PR. not S.ft(A->B, I->O);
/// // pktIn(s, src->dst, i) { s.install(src->dst, i->i); s.uninstall(src->dst, i->i); }
/// let before = wp(alloc, &program, &handler.body, &invariant.formula)?;
/// assert_eq!(rt; node_count(&before), 28);
/// ```
pub fn wp(
    alloc: Global,
    program: &Program,
    command: &Command,
    post: &Formula,
) -> Result<Formula, FormRefusal>
    ensures form { Makes most_nodes (wp_of command.now post.now) result }
    ensures exact { IfOk result (λ made. (bs : List Scoped) → MayPrecede program.now bs command.now post.now → IsPrecondition program.now bs command.now post.now made) }
{
    precondition(alloc, command, post, MOST_NODES)
}

/// What `wp` makes, in a room of so many nodes; `Large` exactly where it has more.
#[cycle(preconditions)]
#[tactic(auto, using(crate::proofs::CommandSteps::wp_steps, csdn_core::proofs::NodeSteps::command_node_steps))]
pub fn precondition(
    alloc: Global,
    command: &Command,
    post: &Formula,
    room: u64,
) -> Result<Formula, FormRefusal>
    requires { room ≤ most_nodes }
    ensures { Makes room (wp_of command.now post.now) result }
{
    match command {
        Command::Skip => fitting(or_memory(post.copy(alloc))?, room),
        Command::Seq(a, b) => of_sequence(alloc, a.get(), b.get(), post, room),
        Command::If(p, a, b) => of_conditional(alloc, p.get(), a.get(), b.get(), post, room),
        Command::Pick(var, sort, p, a, b) => {
            let bind = Bind {
                var: *var,
                sort: *sort,
            };
            of_choice(alloc, bind, p.get(), a.get(), b.get(), post, room)
        }
        Command::Insert(rel, terms) => fitting(
            add_row(alloc, post, Pred::Stored(*rel), terms)?,
            room,
        ),
        Command::Remove(rel, terms) => fitting(
            drop_row(alloc, post, Pred::Stored(*rel), terms)?,
            room,
        ),
        Command::Install(terms) => fitting(add_row(alloc, post, Pred::Ft, terms)?, room),
        Command::Uninstall(terms) => fitting(drop_row(alloc, post, Pred::Ft, terms)?, room),
        Command::Forward(terms) => fitting(add_row(alloc, post, Pred::Sent, terms)?, room),
        Command::Flood(terms) => fitting(add_flood(alloc, post, terms)?, room),
    }
}

#[cycle(preconditions)]
fn of_sequence(
    alloc: Global,
    a: &Command,
    b: &Command,
    post: &Formula,
    room: u64,
) -> Result<Formula, FormRefusal>
    requires { room ≤ most_nodes }
    ensures { Makes room (wp_of a.now (wp_of b.now post.now)) result }
{
    let after = boxed(alloc, precondition(alloc, b, post, room)?)?;
    precondition(alloc, a, after.get(), room)
}

/// Where the condition is true, the precondition: `condition -> ..`, in a room of so many nodes; `Large` exactly where
/// it has more.
#[cycle(preconditions)]
pub fn under(
    alloc: Global,
    condition: Boxed<Formula>,
    command: &Command,
    post: &Formula,
    room: u64,
) -> Result<Formula, FormRefusal>
    requires { room ≤ most_nodes }
    ensures { Makes room (Implies condition (wp_of command.now post.now)) result }
{
    let left = left_beside(room, condition.get())?;
    let after = boxed(alloc, precondition(alloc, command, post, left)?)?;
    Ok(Formula::Implies(condition, after))
}

// The same for each element.
#[cycle(preconditions)]
fn under_each(
    alloc: Global,
    bind: Bind,
    condition: Boxed<Formula>,
    command: &Command,
    post: &Formula,
    room: u64,
) -> Result<Formula, FormRefusal>
    requires { room ≤ most_nodes }
    ensures { Makes room (Forall bind.var bind.sort (Implies condition (wp_of command.now post.now))) result }
{
    let left = left_beside_one(room)?;
    let each = boxed(alloc, under(alloc, condition, command, post, left)?)?;
    Ok(Formula::Forall(bind.var, bind.sort, each))
}

// The first formula, and where the condition is true the precondition.
#[cycle(preconditions)]
fn and_under(
    alloc: Global,
    first: Boxed<Formula>,
    condition: Boxed<Formula>,
    command: &Command,
    post: &Formula,
    room: u64,
) -> Result<Formula, FormRefusal>
    requires { room ≤ most_nodes }
    ensures { Makes room (And first (Implies condition (wp_of command.now post.now))) result }
{
    let left = left_beside(room, first.get())?;
    let second = boxed(alloc, under(alloc, condition, command, post, left)?)?;
    Ok(Formula::And(first, second))
}

// The second part has at least the nodes of `post`, which are kept free for it.
#[cycle(preconditions)]
fn of_conditional(
    alloc: Global,
    p: &Formula,
    a: &Command,
    b: &Command,
    post: &Formula,
    room: u64,
) -> Result<Formula, FormRefusal>
    requires { room ≤ most_nodes }
    ensures { Makes room (And (Implies p.now (wp_of a.now post.now)) (Implies (Not p.now) (wp_of b.now post.now))) result }
{
    let left = left_beside(room, post)?;
    let first = boxed(alloc, under(alloc, copied(alloc, p)?, a, post, left)?)?;
    let otherwise = negated(alloc, p)?;
    and_under(alloc, first, otherwise, b, post, room)
}

#[cycle(preconditions)]
fn of_choice(
    alloc: Global,
    bind: Bind,
    p: &Formula,
    a: &Command,
    b: &Command,
    post: &Formula,
    room: u64,
) -> Result<Formula, FormRefusal>
    requires { room ≤ most_nodes }
    ensures { Makes room (And (Forall bind.var bind.sort (Implies p.now (wp_of a.now post.now))) (Implies (Not (Exists bind.var bind.sort p.now)) (wp_of b.now post.now))) result }
{
    let left = left_beside(room, post)?;
    let first = boxed(
        alloc,
        under_each(alloc, bind, copied(alloc, p)?, a, post, left)?,
    )?;
    let otherwise = no_element(alloc, bind, p)?;
    and_under(alloc, first, otherwise, b, post, room)
}
