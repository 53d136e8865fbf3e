//! Replies, as tests write them down.

ghost use Rattle.std.specs.Prelude.{◌≡◌, ◌∷◌, [], All, IfOk};
ghost use Rattle.of10_session.specs.Replies.{IsServable, IsServableRule, IsServableOut};
ghost use Rattle.of10_session_tests.specs.Scripts.{rule_list, out_list, reply_of as reply_said};

use csdn_core::event::{Match, Out, Outs};
use csdn_history::reply::{Elements, Reply, Rule, Rules};
use sqlite_items::Items;
use std::alloc::{AllocError, Global};

/// The rule of a reply, at switch 1.
#[derive(Clone, Copy, Debug, PartialEq, Eq)]
pub enum Change {
    Same,
    /// The match has this one port.
    Has {
        a: u32,
        b: u32,
        i: u16,
        port: u16,
        cookie: u64,
        idle: u16,
    },
    /// The match has no port any more.
    Gone {
        a: u32,
        b: u32,
        i: u16,
        cookie: u64,
    },
}

/// Where a packet goes on.
#[derive(Clone, Copy, Debug, PartialEq, Eq)]
pub enum Sending {
    Nowhere,
    To(u16),
    Everywhere,
}

/// The reply to one ask.
#[derive(Clone, Copy, Debug, PartialEq, Eq)]
pub struct Step {
    pub change: Change,
    pub sending: Sending,
}

fn matching(a: u32, b: u32, i: u16) -> Match
    ensures { result ≡ record { s = 1; a = a; b = b; i = i } }
{
    Match {
        s: 1,
        a: u64::from(a),
        b: u64::from(b),
        i: u64::from(i),
    }
}

fn one_port(alloc: Global, port: u16) -> Result<Elements, AllocError>
    ensures { IfOk result (λ ports. ports ≡ port ∷ []) }
{
    Items::from_slice(alloc, &[u64::from(port)])
}

fn one_rule(alloc: Global, rule: Rule) -> Result<Rules, AllocError>
    ensures { IfOk result (λ rules. rules ≡ rule ∷ []) }
{
    let mut rules = Vec::new(alloc);
    rules.push(rule)?;
    Ok(Items::from_vec(rules))
}

#[tactic(auto, using(crate::proofs::Ones::all_one, crate::proofs::Ones::all_none, crate::proofs::Ones::servable_has, crate::proofs::Ones::servable_gone))]
fn rules_of(alloc: Global, change: Change) -> Result<Rules, AllocError>
    ensures is { IfOk result (λ rules. rules ≡ rule_list change) }
    ensures servable { IfOk result (All IsServableRule) }
{
    match change {
        Change::Same => Ok(Items::new(alloc)),
        Change::Has {
            a,
            b,
            i,
            port,
            cookie,
            idle,
        } => {
            let rule = Rule {
                key: matching(a, b, i),
                ports: one_port(alloc, port)?,
                cookie,
                idle,
            };
            one_rule(alloc, rule)
        }
        Change::Gone { a, b, i, cookie } => {
            let rule = Rule {
                key: matching(a, b, i),
                ports: Items::new(alloc),
                cookie,
                idle: 0,
            };
            one_rule(alloc, rule)
        }
    }
}

#[tactic(auto, using(crate::proofs::Ones::all_one, crate::proofs::Ones::all_none))]
fn outs_of(alloc: Global, sending: Sending) -> Result<Outs, AllocError>
    ensures is { IfOk result (λ outs. outs ≡ out_list sending) }
    ensures servable { IfOk result (All IsServableOut) }
{
    match sending {
        Sending::Nowhere => Ok(Items::new(alloc)),
        Sending::To(port) => Items::from_slice(alloc, &[Out::Port(u64::from(port))]),
        Sending::Everywhere => Items::from_slice(alloc, &[Out::Flood]),
    }
}

/// The reply of a step.
pub fn reply_of(alloc: Global, step: Step) -> Result<Reply, AllocError>
    ensures is { IfOk result (λ reply. reply ≡ reply_said step) }
    ensures servable { IfOk result IsServable }
{
    let rules = rules_of(alloc, step.change)?;
    let outs = outs_of(alloc, step.sending)?;
    Ok(Reply { rules, outs })
}
