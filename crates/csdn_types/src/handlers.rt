//! Handlers.
#![tactic(auto, using(crate::proofs::First::first_steps))]

ghost use Rattle.std.specs.Prelude.{◌≡◌, ◌≤◌, ◌<◌, ◌+◌, ◌++◌, OnOk};
ghost use Rattle.csdn_types.specs.Answers.{Answers};
ghost use Rattle.csdn_core.specs.declared.terms.Sort.TheVariants.{Pr};
ghost use Rattle.csdn_types.specs.Typed.{next_var};
ghost use Rattle.csdn_types.specs.Commands.{later};
ghost use Rattle.csdn_tree.specs.Binders.{command_binders};
ghost use Rattle.csdn_types.specs.Items.{ingress_faults, ingress_name, ingress_term, port_of, handler_faults, handler_of};
ghost use Rattle.csdn_types.specs.Scope.{bound};
ghost use Rattle.csdn_core.specs.Sorted.{most_numbers};

use crate::atoms::bind;
use crate::commands::command;
use crate::own::OwnTerms;
use crate::refusal::SortRefusal;
use crate::scope::Scope;
use csdn_core::program::Handler;
use csdn_core::terms::{Sort, Term, VarId};
use csdn_tree::syntax::{RawHandler, RawPattern};
use std::alloc::Global;

/// The variable of a handler's port.
fn ingress(alloc: Global, scope: &mut Scope, raw: &RawPattern) -> Result<VarId, SortRefusal>
    requires { scope.old.next < most_numbers }
    ensures answers { Answers (ingress_faults scope.old raw.now) (next_var scope.old) result }
    ensures scope { OnOk result (scope.new ≡ bound scope.old (ingress_name raw.now) Pr) }
{
    match raw {
        RawPattern::Any(name) => {
            let var = bind(alloc, scope, name, Sort::Pr)?;
            Ok(var)
        }
        RawPattern::Port(_) => {
            let var = scope.bind_hidden(alloc, Sort::Pr)?;
            Ok(var)
        }
    }
}

fn port(raw: &RawPattern) -> Option<u16>
    ensures { result ≡ port_of raw.now }
{
    match raw {
        RawPattern::Any(_) => None,
        RawPattern::Port(numeral) => Some(numeral.number),
    }
}

fn own_ingress(var: VarId, raw: &RawPattern) -> Term
    ensures { result ≡ ingress_term var.0 raw.now }
{
    match raw {
        RawPattern::Any(_) => Term::Var(var),
        RawPattern::Port(numeral) => Term::Port(numeral.number),
    }
}

/// The handler that a tree stands for, where `count` handlers come before it. Refused is the first rule that is broken,
/// at its byte (docs/LANGUAGE.md, "Names, sorts and limits").
pub fn handler(
    alloc: Global,
    scope: &mut Scope,
    count: usize,
    raw: &RawHandler,
) -> Result<Handler, SortRefusal>
    requires { scope.old.next + (4 + command_binders raw.now.body) ≤ most_numbers }
    ensures answers { Answers (handler_faults scope.old count raw.now) (handler_of scope.old raw.now) result }
    ensures scope { OnOk result (scope.new ≡ later scope.old (4 + command_binders raw.now.body)) }
{
    if 32 <= count {
        return Err(SortRefusal::TooMany { at: raw.at });
    }
    let s = bind(alloc, scope, &raw.switch, Sort::Sw)?;
    let a = bind(alloc, scope, &raw.source, Sort::Ho)?;
    let b = bind(alloc, scope, &raw.target, Sort::Ho)?;
    let i = ingress(alloc, scope, &raw.ingress)?;
    let own = OwnTerms {
        switch: Term::Var(s),
        source: Term::Var(a),
        target: Term::Var(b),
        ingress: own_ingress(i, &raw.ingress),
    };
    let body = command(alloc, scope, &own, &raw.body)?;
    scope.leave();
    scope.leave();
    scope.leave();
    scope.leave();
    Ok(Handler {
        port: port(&raw.ingress),
        s,
        a,
        b,
        i,
        body,
    })
}
