//! Which packets are left to a handler.
ghost use Rattle.std.specs.Prelude.{◌≡◌, [], ◌∷◌, Some};
ghost use Rattle.csdn_core.specs.declared.syntax.Formula.TheVariants.{Not};
ghost use Rattle.csdn_wp.specs.EventPreconditions.{and_also as and_also_of, guard as guard_of, is_port as is_port_of};
ghost use Rattle.csdn_wp.specs.Makes.{Gives};

use crate::build::boxed;
use csdn_core::syntax::Formula;
use csdn_core::terms::{Term, VarId};
use fol_forms::refusal::FormRefusal;
use sqlite_items::Boxed;
use std::alloc::Global;

fn is_port(i: VarId, port: u16) -> Formula
    ensures { result ≡ is_port_of i port }
{
    Formula::Same(Term::Var(i), Term::Port(port))
}

fn is_another(alloc: Global, i: VarId, port: u16) -> Result<Boxed<Formula>, FormRefusal>
    ensures { Gives (Not (is_port_of i port)) result }
{
    let is_it = boxed(alloc, is_port(i, port))?;
    boxed(alloc, Formula::Not(is_it))
}

/// The port is none of the earlier ones, and it is the pattern's own; none where that says nothing.
#[cycle(guards)]
pub fn guard(
    alloc: Global,
    earlier: &[u16],
    port: Option<u16>,
    i: VarId,
) -> Result<Option<Boxed<Formula>>, FormRefusal>
    ensures { Gives (guard_of earlier.now port i) result }
{
    match earlier {
        [] => own_guard(alloc, port, i),
        [first, rest @ ..] => guard_from(alloc, *first, rest, port, i),
    }
}

#[cycle(guards)]
#[tactic(auto, using(csdn_core::proofs::Shapes::shapes))]
fn guard_from(
    alloc: Global,
    first: u16,
    rest: &[u16],
    port: Option<u16>,
    i: VarId,
) -> Result<Option<Boxed<Formula>>, FormRefusal>
    ensures { Gives (guard_of (first ∷ rest.now) port i) result }
{
    let another = is_another(alloc, i, first)?;
    let later = guard(alloc, rest, port, i)?;
    and_also(alloc, another, later)
}

fn own_guard(
    alloc: Global,
    port: Option<u16>,
    i: VarId,
) -> Result<Option<Boxed<Formula>>, FormRefusal>
    ensures { Gives (guard_of [] port i) result }
{
    match port {
        None => Ok(None),
        Some(port) => Ok(Some(boxed(alloc, is_port(i, port))?)),
    }
}

#[tactic(auto, using(csdn_core::proofs::Shapes::shapes))]
fn and_also(
    alloc: Global,
    first: Boxed<Formula>,
    later: Option<Boxed<Formula>>,
) -> Result<Option<Boxed<Formula>>, FormRefusal>
    ensures { Gives (Some (and_also_of first later)) result }
{
    match later {
        None => Ok(Some(first)),
        Some(later) => Ok(Some(boxed(alloc, Formula::And(first, later))?)),
    }
}
