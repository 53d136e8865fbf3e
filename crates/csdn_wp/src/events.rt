//! Weakest preconditions of events.
ghost use Rattle.std.specs.Prelude.{◌≤◌, ◌^◌};
ghost use Rattle.fol_forms.specs.Limits.{most_nodes};
ghost use Rattle.fol_forms.specs.Renumber.{renumber as renumber_of};
ghost use Rattle.csdn_wp.specs.EventPreconditions.{wp_in as wp_in_of, wp_flow as wp_flow_of, wp_expire as wp_expire_of, for_rules as for_rules_of};
ghost use Rattle.csdn_wp.specs.Makes.{Makes};

use crate::build::boxed;
use crate::members::{closed_in, members};
use crate::vars::{first_vars, flow_binds, flow_terms, terms_of};
use csdn_core::program::Program;
use csdn_core::syntax::Formula;
use csdn_core::terms::Pred;
use fol_forms::count::node_count;
use fol_forms::refusal::{FormRefusal, MOST_NODES};
use fol_forms::renumber::renumber;
use fol_forms::replace::{add_row, drop_match, fix_packet, no_packet};
use sqlite_items::Boxed;
use std::alloc::Global;

/// The variables of programs have smaller numbers.
const FIRST_NEW: u32 = 0x8000_0000;

/// What is true exactly where the formula is true after every packet that comes in. `Large` exactly where that has more
/// than 1,048,576 nodes.
pub fn wp_in(alloc: Global, program: &Program, post: &Formula) -> Result<Formula, FormRefusal>
    ensures { Makes most_nodes (wp_in_of program.now post.now) result }
{
    let post = boxed(alloc, renumbered(alloc, post, FIRST_NEW)?)?;
    let mut earlier = Vec::new(alloc);
    let handlers = program.parts().handlers.as_slice();
    members(alloc, handlers, &mut earlier, post.get(), MOST_NODES)
}

/// What is true exactly where the formula is true after every packet that a flow table sends. `Large` exactly where
/// that has more than 1,048,576 nodes.
pub fn wp_flow(alloc: Global, post: &Formula) -> Result<Formula, FormRefusal>
    ensures { Makes most_nodes (wp_flow_of post.now) result }
{
    let post = boxed(alloc, renumbered(alloc, post, 5)?)?;
    let fixed = boxed(
        alloc,
        fix_packet(alloc, post.get(), &terms_of(first_vars()))?,
    )?;
    let after = boxed(
        alloc,
        add_row(alloc, fixed.get(), Pred::Sent, &flow_terms())?,
    )?;
    for_rules(alloc, after)
}

/// What is true exactly where the formula is true, without a packet, after the rules of any match have ended. `Large`
/// exactly where that has more than 1,048,576 nodes.
pub fn wp_expire(alloc: Global, post: &Formula) -> Result<Formula, FormRefusal>
    ensures { Makes most_nodes (wp_expire_of post.now) result }
{
    let post = boxed(alloc, renumbered(alloc, post, 5)?)?;
    let quiet = boxed(alloc, no_packet(alloc, post.get())?)?;
    let after = boxed(
        alloc,
        drop_match(alloc, quiet.get(), &terms_of(first_vars()))?,
    )?;
    for_rules(alloc, after)
}

// The formula holds for every tuple of the flow tables.
fn for_rules(alloc: Global, formula: Boxed<Formula>) -> Result<Formula, FormRefusal>
    ensures { Makes most_nodes (for_rules_of formula) result }
{
    let enabled = boxed(alloc, Formula::Atom(Pred::Ft, flow_terms()))?;
    let binds = flow_binds(alloc)?;
    closed_in(
        alloc,
        Formula::Implies(enabled, formula),
        &binds,
        MOST_NODES,
    )
}

// The numbers that come after the first one end below 2^32, since there are few nodes.
fn renumbered(alloc: Global, post: &Formula, from: u32) -> Result<Formula, FormRefusal>
    requires { from ≤ 2 ^ 31 }
    ensures { Makes most_nodes (renumber_of post.now from) result }
{
    if node_count(post) > MOST_NODES {
        return Err(FormRefusal::Large);
    }
    renumber(alloc, post, from)
}
