//! Rules of a reply.
ghost use Rattle.std.specs.Prelude.{◌≡◌, ◌++◌, [], ◌∷◌, if◌then◌else◌, filter, map, IfOk, OnOk};
ghost use Rattle.csdn_step.specs.Courses.{sends as sends_in};
ghost use Rattle.csdn_run.specs.Replies.{cookie_for, idle_for, rule_in};
ghost use Rattle.csdn_run.specs.Sights.{marks_seen, state_seen};

use crate::marks::Marks;
use csdn_core::event::Match;
use csdn_core::program::Program;
use csdn_core::terms::{Pred, Sort};
use csdn_history::reply::{Elements, Rule, Rules};
use csdn_step::StateDraft;
use net_structs::cells::Cells;
use net_structs::network::Network;
use net_structs::state::State;
use sqlite_items::Items;
use std::alloc::{AllocError, Global};

/// Where entries are taken: the program, its network, and what memory is taken from.
#[derive(Drop)]
pub struct Setting<'a> {
    pub alloc: Global,
    pub program: &'a Program,
    pub network: &'a Network,
}

/// What rules are read from.
#[derive(Drop)]
pub enum Sight<'a> {
    /// A state, with its marks.
    Kept(&'a State, &'a Marks),
    /// What an entry of this number makes of a state.
    Drafted(&'a StateDraft, u64),
}

impl Sight<'_> {
    // Whether a flow rule of the match sends from the port.
    fn sends(&self, key: &Match, o: u64) -> bool
        ensures { result ≡ sends_in (state_seen self.now) key.now o }
    {
        let cells = Cells::of(&[key.s, key.a, key.b, key.i, o]);
        match self {
            Sight::Kept(state, _) => state.has(Pred::Ft, &cells),
            Sight::Drafted(draft, _) => draft.has(Pred::Ft, &cells),
        }
    }

    fn mark(&self, key: &Match) -> u64
        ensures { result ≡ marks_seen self.now key.now }
    {
        match self {
            Sight::Kept(_, marks) => marks.get(key),
            Sight::Drafted(_, number) => *number,
        }
    }
}

// All outputs of a match, rising. It costs the ports of the network.
fn outputs(setting: &Setting, sight: &Sight, key: &Match) -> Result<Elements, AllocError>
    ensures { IfOk result (λ ports. ports ≡ filter (sends_in (state_seen sight.now) key.now) setting.now.network.now.ports) }
{
    let mut ports = Items::new(setting.alloc);
    let mut rest = setting.network.elements(Sort::Pr);
    'ports: while let [o, more @ ..] = rest {
        push_if(&mut ports, sight.sends(key, *o), *o)?;
        rest = more;
    }
    Ok(ports)
}

fn push_if(ports: &mut Elements, is_wanted: bool, o: u64) -> Result<(), AllocError>
    ensures { OnOk result (ports.new ≡ ports.old ++ (if is_wanted then o ∷ [] else [])) }
{
    if is_wanted {
        ports.push(o)?;
    }
    Ok(())
}

fn cookie_of(timeout: Option<u16>, mark: u64) -> u64
    ensures { result ≡ cookie_for timeout mark }
{
    match timeout {
        None => 0,
        Some(_) => mark,
    }
}

fn idle_of(timeout: Option<u16>) -> u16
    ensures { result ≡ idle_for timeout }
{
    match timeout {
        None => 0,
        Some(seconds) => seconds,
    }
}

fn rule(setting: &Setting, sight: &Sight, key: &Match) -> Result<Rule, AllocError>
    ensures { IfOk result (λ rule. rule ≡ rule_in setting.now.program.now setting.now.network.now (state_seen sight.now) (marks_seen sight.now key.now) key.now) }
{
    let timeout = setting.program.parts().timeout;
    let ports = outputs(setting, sight, key)?;
    Ok(Rule {
        key: *key,
        ports,
        cookie: cookie_of(timeout, sight.mark(key)),
        idle: idle_of(timeout),
    })
}

/// The rules of these matches, in their order. It looks at each port of the network for each match.
pub fn rules(setting: &Setting, sight: &Sight, keys: &[Match]) -> Result<Rules, AllocError>
    ensures { IfOk result (λ rules. rules ≡ map (λ m. rule_in setting.now.program.now setting.now.network.now (state_seen sight.now) (marks_seen sight.now m) m) keys.now) }
{
    let mut rules = Items::new(setting.alloc);
    let mut rest = keys;
    'keys: while let [key, more @ ..] = rest {
        rules.push(rule(setting, sight, key)?)?;
        rest = more;
    }
    Ok(rules)
}
