//! What a precondition asks of each handler.
ghost use Rattle.std.specs.Prelude.{◌≡◌, ◌≤◌, ◌++◌, [], ◌∷◌, IfErr, OnOk};
ghost use Rattle.csdn_core.specs.declared.syntax.Formula.TheVariants.{And};
ghost use Rattle.fol_forms.specs.declared.refusal.FormRefusal.TheVariants.{Memory};
ghost use Rattle.fol_forms.specs.Closed.{closed};
ghost use Rattle.fol_forms.specs.Limits.{most_nodes};
ghost use Rattle.csdn_wp.specs.EventPreconditions.{guarded as guarded_of, member as member_of, members as members_of};
ghost use Rattle.csdn_wp.specs.Makes.{Makes};
ghost use Rattle.csdn_wp.specs.Preconditions.{wp as wp_of};

use crate::build::{boxed, fitting, left_beside};
use crate::commands::{precondition, under};
use crate::guards::guard;
use crate::vars::{PacketVars, binds_of, first_vars, handler_vars, terms_of};
use csdn_core::program::Handler;
use csdn_core::syntax::{Command, Formula};
use fol_forms::close::{Binds, close};
use fol_forms::refusal::FormRefusal;
use fol_forms::replace::fix_packet;
use sqlite_items::Boxed;
use std::alloc::Global;

/// The members from these handlers on, where `earlier` are the ports of the handlers before them, in a room of so many
/// nodes; `Large` exactly where they have more.
#[cycle(members)]
pub fn members(
    alloc: Global,
    handlers: &[Handler],
    earlier: &mut Vec<u16>,
    post: &Formula,
    room: u64,
) -> Result<Formula, FormRefusal>
    requires { room ≤ most_nodes }
    ensures { Makes room (members_of handlers.now earlier.old.items post.now) result }
{
    match handlers {
        [] => member(
            alloc,
            earlier.as_slice(),
            first_vars(),
            None,
            &Command::Skip,
            post,
            room,
        ),
        [handler, rest @ ..] => members_from(alloc, handler, rest, earlier, post, room),
    }
}

#[cycle(members)]
fn members_from(
    alloc: Global,
    handler: &Handler,
    rest: &[Handler],
    earlier: &mut Vec<u16>,
    post: &Formula,
    room: u64,
) -> Result<Formula, FormRefusal>
    requires { room ≤ most_nodes }
    ensures { Makes room (members_of (handler.now ∷ rest.now) earlier.old.items post.now) result }
{
    let vars = handler_vars(handler);
    let ports = earlier.as_slice();
    let first = member(alloc, ports, vars, handler.port, &handler.body, post, room)?;
    match handler.port {
        None => Ok(first),
        Some(port) => {
            let first = boxed(alloc, first)?;
            and_later(alloc, first, port, rest, earlier, post, room)
        }
    }
}

// The first member, and those that follow a handler of this port.
#[cycle(members)]
fn and_later(
    alloc: Global,
    first: Boxed<Formula>,
    port: u16,
    handlers: &[Handler],
    earlier: &mut Vec<u16>,
    post: &Formula,
    room: u64,
) -> Result<Formula, FormRefusal>
    requires { room ≤ most_nodes }
    ensures { Makes room (And first (members_of handlers.now (earlier.old.items ++ port ∷ []) post.now)) result }
{
    let left = left_beside(room, first.get())?;
    remember(earlier, port)?;
    let later = boxed(alloc, members(alloc, handlers, earlier, post, left)?)?;
    Ok(Formula::And(first, later))
}

fn remember(earlier: &mut Vec<u16>, port: u16) -> Result<(), FormRefusal>
    ensures pushed { OnOk result (earlier.new.items ≡ earlier.old.items ++ port ∷ []) }
    ensures memory { IfErr result (λ refusal. refusal ≡ Memory) }
{
    match earlier.push(port) {
        Ok(()) => Ok(()),
        Err(_) => Err(FormRefusal::Memory),
    }
}

#[tactic(auto, unfolding(crate::specs::EventPreconditions::member))]
fn member(
    alloc: Global,
    earlier: &[u16],
    vars: PacketVars,
    port: Option<u16>,
    body: &Command,
    post: &Formula,
    room: u64,
) -> Result<Formula, FormRefusal>
    requires { room ≤ most_nodes }
    ensures { Makes room (member_of earlier.now vars port body.now post.now) result }
{
    let fixed = boxed(alloc, fix_packet(alloc, post, &terms_of(vars))?)?;
    let guard = guard(alloc, earlier, port, vars.i)?;
    let binds = binds_of(alloc, vars)?;
    let inner = guarded(alloc, guard, body, fixed.get(), room)?;
    closed_in(alloc, inner, &binds, room)
}

#[tactic(auto, using(csdn_core::proofs::Shapes::shapes))]
fn guarded(
    alloc: Global,
    guard: Option<Boxed<Formula>>,
    body: &Command,
    post: &Formula,
    room: u64,
) -> Result<Formula, FormRefusal>
    requires { room ≤ most_nodes }
    ensures { Makes room (guarded_of guard (wp_of body.now post.now)) result }
{
    match guard {
        None => precondition(alloc, body, post, room),
        Some(guard) => under(alloc, guard, body, post, room),
    }
}

/// The formula under the binds, where that has at most `room` nodes; else `Large`.
pub fn closed_in(
    alloc: Global,
    formula: Formula,
    binds: &Binds,
    room: u64,
) -> Result<Formula, FormRefusal>
    requires { room ≤ most_nodes }
    ensures { Makes room (closed binds.now formula) result }
{
    fitting(close(alloc, formula, binds)?, room)
}
