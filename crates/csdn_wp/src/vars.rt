//! The variables that stand for a packet.
ghost use Rattle.std.specs.Prelude.{◌≡◌, ◌++◌, [], ◌∷◌};
ghost use Rattle.csdn_wp.specs.Makes.{Gives, IsWidened};
ghost use Rattle.csdn_wp.specs.EventPreconditions.{binds_of as binds_in, first_vars as first_of, flow_binds as flow_binds_of, flow_terms as flow_terms_of, handler_vars as vars_in, terms_of as terms_in};

use csdn_core::program::Handler;
use csdn_core::terms::{Sort, Term, Terms, VarId};
use fol_forms::close::{Bind, Binds};
use fol_forms::refusal::FormRefusal;
use sqlite_items::Items;
use std::alloc::{AllocError, Global};

/// The variables of a packet: switch, source, destination and ingress port.
#[derive(Clone, Copy, Debug, PartialEq, Eq)]
pub struct PacketVars {
    pub s: VarId,
    pub a: VarId,
    pub b: VarId,
    pub i: VarId,
}

/// The variables that stand for the packet of a handler.
pub fn handler_vars(handler: &Handler) -> PacketVars
    ensures { result ≡ vars_in handler.now }
{
    PacketVars {
        s: handler.s,
        a: handler.a,
        b: handler.b,
        i: handler.i,
    }
}

/// The variables with the numbers 0 to 3, where no handler names them.
pub fn first_vars() -> PacketVars
    ensures { result ≡ first_of }
{
    PacketVars {
        s: VarId(0),
        a: VarId(1),
        b: VarId(2),
        i: VarId(3),
    }
}

/// The four variables as terms, in the order of `rcv_this`.
pub fn terms_of(vars: PacketVars) -> Terms
    ensures { result ≡ terms_in vars }
{
    let mut terms = Terms::new();
    terms.push(Term::Var(vars.s));
    terms.push(Term::Var(vars.a));
    terms.push(Term::Var(vars.b));
    terms.push(Term::Var(vars.i));
    terms
}

fn bind(var: VarId, sort: Sort) -> Bind
    ensures { result ≡ record { var = var; sort = sort } }
{
    Bind { var, sort }
}

/// The four variables with their sorts, in the order of `rcv_this`.
pub fn binds_of(alloc: Global, vars: PacketVars) -> Result<Binds, FormRefusal>
    ensures { Gives (binds_in vars) result }
{
    let binds = [
        bind(vars.s, Sort::Sw),
        bind(vars.a, Sort::Ho),
        bind(vars.b, Sort::Ho),
        bind(vars.i, Sort::Pr),
    ];
    or_refused(Items::from_slice(alloc, &binds))
}

/// A tuple of the flow tables: `first_vars`, and the variable with the number 4 for the egress port.
pub fn flow_terms() -> Terms
    ensures { result ≡ flow_terms_of }
{
    let mut terms = terms_of(first_vars());
    terms.push(Term::Var(VarId(4)));
    terms
}

/// The five variables of `flow_terms` with their sorts, in their order.
pub fn flow_binds(alloc: Global) -> Result<Binds, FormRefusal>
    ensures { Gives flow_binds_of result }
{
    let vars = first_vars();
    let binds = [
        bind(vars.s, Sort::Sw),
        bind(vars.a, Sort::Ho),
        bind(vars.b, Sort::Ho),
        bind(vars.i, Sort::Pr),
        bind(VarId(4), Sort::Pr),
    ];
    or_refused(Items::from_slice(alloc, &binds))
}

fn or_refused(binds: Result<Binds, AllocError>) -> Result<Binds, FormRefusal>
    ensures { IsWidened binds result }
{
    match binds {
        Ok(binds) => Ok(binds),
        Err(_) => Err(FormRefusal::Memory),
    }
}
