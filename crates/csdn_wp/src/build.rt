//! Formulas put together, and the room that they take.
ghost use Rattle.std.specs.Prelude.{◌≡◌, ◌+◌, ◌≤◌};
ghost use Rattle.csdn_core.specs.declared.syntax.Formula.TheVariants.{Not, Exists};
ghost use Rattle.csdn_core.specs.Nodes.{nodes};
ghost use Rattle.fol_forms.specs.Limits.{most_nodes};
ghost use Rattle.csdn_wp.specs.Makes.{Gives, Leaves, Makes};

use csdn_core::syntax::Formula;
use fol_forms::close::Bind;
use fol_forms::count::{and_one, node_count};
use fol_forms::refusal::{FormRefusal, or_memory};
use sqlite_items::Boxed;
use std::alloc::Global;

/// The formula in a box. The one refusal is `Memory`.
pub fn boxed(alloc: Global, formula: Formula) -> Result<Boxed<Formula>, FormRefusal>
    ensures { Gives formula result }
{
    match Boxed::new(alloc, formula) {
        Ok(formula) => Ok(formula),
        Err(_) => Err(FormRefusal::Memory),
    }
}

/// An equal formula in a box. The one refusal is `Memory`.
pub fn copied(alloc: Global, formula: &Formula) -> Result<Boxed<Formula>, FormRefusal>
    ensures { Gives formula.now result }
{
    boxed(alloc, or_memory(formula.copy(alloc))?)
}

/// `not` the formula, which is copied. The one refusal is `Memory`.
pub fn negated(alloc: Global, formula: &Formula) -> Result<Boxed<Formula>, FormRefusal>
    ensures { Gives (Not formula.now) result }
{
    let formula = copied(alloc, formula)?;
    boxed(alloc, Formula::Not(formula))
}

/// `not (exists var:sort. formula)`, with a copy of the formula. The one refusal is `Memory`.
pub fn no_element(
    alloc: Global,
    bind: Bind,
    formula: &Formula,
) -> Result<Boxed<Formula>, FormRefusal>
    ensures { Gives (Not (Exists bind.var bind.sort formula.now)) result }
{
    let formula = copied(alloc, formula)?;
    let some = boxed(alloc, Formula::Exists(bind.var, bind.sort, formula))?;
    boxed(alloc, Formula::Not(some))
}

/// What is left of the room, in nodes, beside one node; `Large` where there is no room for it.
pub fn left_beside_one(room: u64) -> Result<u64, FormRefusal>
    ensures { Leaves room 1 result }
{
    if room < 1 {
        return Err(FormRefusal::Large);
    }
    Ok(room - 1)
}

/// What is left of the room, in nodes, beside the formula and one node more; `Large` where there is no room for these.
pub fn left_beside(room: u64, formula: &Formula) -> Result<u64, FormRefusal>
    requires { room ≤ most_nodes }
    ensures { Leaves room (nodes formula.now + 1) result }
{
    let count = and_one(node_count(formula));
    if count > room {
        return Err(FormRefusal::Large);
    }
    Ok(room - count)
}

/// The formula, where it has at most `room` nodes; else `Large`.
pub fn fitting(formula: Formula, room: u64) -> Result<Formula, FormRefusal>
    requires { room ≤ most_nodes }
    ensures { Makes room formula result }
{
    if node_count(&formula) > room {
        return Err(FormRefusal::Large);
    }
    Ok(formula)
}
