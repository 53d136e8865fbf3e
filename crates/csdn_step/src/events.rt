//! Events.
ghost use Rattle.std.specs.Prelude.{◌≡◌, ◌+◌, ◌≤◌, ℕ, [], ◌∷◌, IfOk, OnErr, OnOk, option_copied};
ghost use Rattle.csdn_core.specs.declared.event.Event.TheVariants.{PktIn as SpecPktIn};
ghost use Rattle.csdn_core.specs.Run.{Step, first_fit as first_fit_of, fits as fits_in, for_packet};
ghost use Rattle.std.specs.List.{list_any};
ghost use Rattle.net_structs.specs.Networks.{has as has_element};
ghost use Rattle.net_structs.specs.Rows.{held};
ghost use Rattle.csdn_step.specs.Answers.{IsAnswer, first_refusal, is_enabled as is_enabled_in, is_of_network as is_of};
ghost use Rattle.csdn_core.specs.Depth.{command_depth};
ghost use Rattle.csdn_step.specs.Courses.{course, drafted, executed, expired, fired, from_state, handled, quieted, sends};
ghost use Rattle.csdn_step.specs.Drafts.{standing, start_of};
ghost use Rattle.csdn_step.specs.declared.setting.Sending.TheVariants.{Kept as KeptSending, Left as LeftSending};

use crate::commands::execute;
use crate::draft::StateDraft;
use crate::setting::{Sending, Setting};
use crate::settle::settle;
use csdn_core::event::{Event, Match, Tally};
use csdn_core::program::{Handler, Program};
use csdn_core::terms::{MOST_VARIABLES, Pred, Sort};
use net_structs::cells::Cells;
use net_structs::env::Env;
use net_structs::network::Network;
use net_structs::state::State;
use sqlite_items::Items;
use std::alloc::{AllocError, Global};
use thiserror::Error;

/// Why an event is not fired.
#[derive(Debug, Drop, Error)]
pub enum StepRefusal {
    /// The network lacks an element of the event.
    #[error("the network lacks an element of the event")]
    Stranger,
    /// No rule sends the packet so.
    #[error("no flow rule is there for the packet")]
    NotEnabled,
    #[error("out of memory")]
    Memory,
}

impl From<AllocError> for StepRefusal {
    ghost use Rattle.csdn_step.specs.declared.events.StepRefusal.TheVariants.{Memory};
    ghost use Rattle.std.specs.Prelude.{◌≡◌};

    ghost from_gives = { λ e refusal. refusal ≡ Memory };

    fn from(_error: AllocError) -> StepRefusal {
        StepRefusal::Memory
    }
}

/// Lets an event happen in a draft of the state, with the least element at each `pick`, and tells what was done. The state is
/// empty until the draft is kept or undone, which takes no memory; it is unchanged after a refusal. Refusals in order:
/// `Stranger` exactly where the network lacks an element of the event; `NotEnabled` exactly where the tuple of a packet flow
/// isn't in `ft`, or the program of an expire has no timeout or `ft` has no tuple of its match; `Memory`. It costs what the
/// handler looks at and changes.
pub fn begin(
    alloc: Global,
    program: &Program,
    network: &Network,
    state: &mut State,
    event: &Event,
) -> Result<(StateDraft, Tally), StepRefusal>
    ensures answer { IsAnswer (first_refusal program.now network.now (held state.old) event.now) result }
    ensures step { IfOk result (λ begun. Step program.now network.now (held state.old) event.now (standing begun.0)) }
    ensures least { IfOk result (λ begun. drafted begun.0 begun.1 ≡ fired program.now network.now KeptSending event.now (from_state (held state.old))) }
    ensures start { IfOk result (λ begun. start_of begun.0 ≡ state.old) }
    ensures same { OnErr result (state.new ≡ state.old) }
{
    if !is_of_network(network, event) {
        return Err(StepRefusal::Stranger);
    }
    if !is_enabled(alloc, program, network, state, event)? {
        return Err(StepRefusal::NotEnabled);
    }
    let setting = Setting {
        program,
        network,
        sending: Sending::Kept,
    };
    let begun = happen(alloc, &setting, state, event)?;
    Ok(begun)
}

/// Lets a packet come in as `begin` does, but leaves `sent` as it is. Refusals in order: `Stranger` exactly where the network
/// lacks an element of the packet; `Memory`.
pub fn begin_quiet(
    alloc: Global,
    program: &Program,
    network: &Network,
    state: &mut State,
    s: u64,
    a: u64,
    b: u64,
    i: u64,
) -> Result<(StateDraft, Tally), StepRefusal>
    ensures answer { IsAnswer (first_refusal program.now network.now (held state.old) (SpecPktIn s a b i)) result }
    ensures quiet { IfOk result (λ begun. drafted begun.0 begun.1 ≡ quieted (held state.old) (fired program.now network.now KeptSending (SpecPktIn s a b i) (from_state (held state.old)))) }
    ensures start { IfOk result (λ begun. start_of begun.0 ≡ state.old) }
    ensures same { OnErr result (state.new ≡ state.old) }
{
    // a program's parts are well-sorted
    let _parts = program.parts();
    let event = Event::PktIn { s, a, b, i };
    if !is_of_network(network, &event) {
        return Err(StepRefusal::Stranger);
    }
    let setting = Setting {
        program,
        network,
        sending: Sending::Left,
    };
    let begun = happen(alloc, &setting, state, &event)?;
    Ok(begun)
}

/// Lets an event happen as `begin` does, for good. It refuses as `begin` does, and the state is then unchanged.
///
/// # Example
///
/// From the test `events_come_to_what_they_say` of csdn_step_tests: of two ports that fit the lesser is picked.
///
/// ```rust
/// // rel c(PR, HO);
/// // pktIn(s, a->b, i) {
/// //   pick o:PR where c(o, b) { s.install(a->b, i->o); s.forward(a->b, i->o); } else { s.flood(a->b, i); }
/// // }
/// // over switches 1 and 2, hosts 4, 5 and 6, and ports 1, 2 and 3, in a state with `c 2 5` and `c 3 5`
/// let packet = Event::PktIn { s: 1, a: 4, b: 5, i: 1 };
/// let tally = fire(alloc, &program, &network, &mut state, &packet)?;
/// assert!(rt; tally.changed.as_slice() == [Match { s: 1, a: 4, b: 5, i: 1 }].as_slice());
/// assert!(rt; tally.outs.as_slice() == [Out::Port(2)].as_slice());
/// assert!(rt; state.has(Pred::Ft, &Cells::of(&[1, 4, 5, 1, 2])));
/// assert!(rt; state.has(Pred::Sent, &Cells::of(&[1, 4, 5, 1, 2])));
/// ```
pub fn fire(
    alloc: Global,
    program: &Program,
    network: &Network,
    state: &mut State,
    event: &Event,
) -> Result<Tally, StepRefusal>
    ensures answer { IsAnswer (first_refusal program.now network.now (held state.old) event.now) result }
    ensures step { OnOk result (Step program.now network.now (held state.old) event.now (held state.new)) }
    ensures least { IfOk result (λ tally. course state.new tally ≡ fired program.now network.now KeptSending event.now (from_state (held state.old))) }
    ensures same { OnErr result (state.new ≡ state.old) }
{
    let (draft, tally) = begin(alloc, program, network, state, event)?;
    *state = draft.kept();
    Ok(tally)
}

/// Lets a packet come in as `begin_quiet` does, for good. It refuses as `begin_quiet` does, and the state is then unchanged.
pub fn fire_quiet(
    alloc: Global,
    program: &Program,
    network: &Network,
    state: &mut State,
    s: u64,
    a: u64,
    b: u64,
    i: u64,
) -> Result<Tally, StepRefusal>
    ensures answer { IsAnswer (first_refusal program.now network.now (held state.old) (SpecPktIn s a b i)) result }
    ensures quiet { IfOk result (λ tally. course state.new tally ≡ quieted (held state.old) (fired program.now network.now KeptSending (SpecPktIn s a b i) (from_state (held state.old)))) }
    ensures same { OnErr result (state.new ≡ state.old) }
{
    let (draft, tally) = begin_quiet(alloc, program, network, state, s, a, b, i)?;
    *state = draft.kept();
    Ok(tally)
}

fn is_of_network(network: &Network, event: &Event) -> bool
    ensures { result ≡ is_of network.now event.now }
{
    match event {
        Event::PktIn { s, a, b, i } | Event::Expire { s, a, b, i } => {
            network.has(Sort::Sw, *s)
                && (network.has(Sort::Ho, *a)
                    && (network.has(Sort::Ho, *b) && network.has(Sort::Pr, *i)))
        }
        Event::PktFlow { s, a, b, i, o } => {
            network.has(Sort::Sw, *s)
                && (network.has(Sort::Ho, *a)
                    && (network.has(Sort::Ho, *b)
                        && (network.has(Sort::Pr, *i) && network.has(Sort::Pr, *o))))
        }
    }
}

fn is_enabled(
    alloc: Global,
    program: &Program,
    network: &Network,
    state: &State,
    event: &Event,
) -> Result<bool, AllocError>
    ensures { IfOk result (λ is_enabled. is_enabled ≡ is_enabled_in program.now network.now (held state.now) event.now) }
{
    match event {
        Event::PktIn { .. } => Ok(true),
        Event::PktFlow { s, a, b, i, o } => {
            Ok(state.has(Pred::Ft, &Cells::of(&[*s, *a, *b, *i, *o])))
        }
        Event::Expire { s, a, b, i } => {
            if program.parts().timeout.is_none() {
                return Ok(false);
            }
            has_rule(alloc, network, state, &of_packet(*s, *a, *b, *i))
        }
    }
}

fn of_packet(s: u64, a: u64, b: u64, i: u64) -> Match
    ensures { result ≡ record { s = s; a = a; b = b; i = i } }
{
    Match { s, a, b, i }
}

// Whether a flow rule of the match is there.
fn has_rule(
    alloc: Global,
    network: &Network,
    state: &State,
    key: &Match,
) -> Result<bool, AllocError>
    ensures { IfOk result (λ has_rule. has_rule ≡ list_any (λ o. sends (held state.now) key.now o) network.now.ports) }
{
    let ports = state.outputs(alloc, key)?;
    Ok(has_port(network, ports.as_slice()))
}

fn has_port(network: &Network, ports: &[u64]) -> bool
    ensures { result ≡ list_any (λ o. has_element network.now.ports o) ports.now }
{
    ports.iter().any(|o| network.has(Sort::Pr, *o))
}

fn empty_tally(alloc: Global) -> Tally
    ensures changed { result.changed ≡ [] }
    ensures outs { result.outs ≡ [] }
{
    Tally {
        changed: Items::new(alloc),
        outs: Items::new(alloc),
    }
}

// Lets an event happen in a draft.
fn happen(
    alloc: Global,
    setting: &Setting,
    state: &mut State,
    event: &Event,
) -> Result<(StateDraft, Tally), AllocError>
    ensures done { IfOk result (λ begun. drafted begun.0 begun.1 ≡ fired setting.now.program.now setting.now.network.now setting.now.sending event.now (from_state (held state.old))) }
    ensures start { IfOk result (λ begun. start_of begun.0 ≡ state.old) }
    ensures same { OnErr result (state.new ≡ state.old) }
{
    let mut draft = StateDraft::begin(alloc, setting.program, state)?;
    match change(alloc, setting, &mut draft, event) {
        Ok(tally) => Ok((draft, tally)),
        Err(error) => {
            *state = draft.undone();
            Err(error)
        }
    }
}

// What an event does with a draft in which nothing is done yet.
fn change(
    alloc: Global,
    setting: &Setting,
    draft: &mut StateDraft,
    event: &Event,
) -> Result<Tally, AllocError>
    requires { held (start_of draft.old) ≡ standing draft.old }
    ensures done { IfOk result (λ tally. drafted draft.new tally ≡ fired setting.now.program.now setting.now.network.now setting.now.sending event.now (from_state (standing draft.old))) }
    ensures start { start_of draft.new ≡ start_of draft.old }
{
    match event {
        Event::PktIn { s, a, b, i } => {
            let tally = handle(alloc, setting, draft, *s, *a, *b, *i)?;
            settle(alloc, setting.network, draft, tally)
        }
        Event::PktFlow { s, a, b, i, o } => {
            draft.insert(Pred::Sent, &Cells::of(&[*s, *a, *b, *i, *o]))?;
            Ok(empty_tally(alloc))
        }
        Event::Expire { s, a, b, i } => expire(alloc, draft, of_packet(*s, *a, *b, *i)),
    }
}

// Ends the flow rules of a match.
fn expire(alloc: Global, draft: &mut StateDraft, key: Match) -> Result<Tally, AllocError>
    ensures done { IfOk result (λ tally. drafted draft.new tally ≡ expired (from_state (standing draft.old)) key) }
    ensures start { start_of draft.new ≡ start_of draft.old }
{
    draft.remove_flows(alloc, &key)?;
    let mut tally = empty_tally(alloc);
    tally.changed.push(key)?;
    Ok(tally)
}

// The first handler whose port pattern fits.
fn first_fit(handlers: &[Handler], i: u64) -> Option<&Handler>
    ensures { option_copied result ≡ first_fit_of handlers.now i }
{
    let mut rest = handlers;
    'handlers: while let [handler, more @ ..] = rest {
        if fits(handler.port, i) {
            return Some(handler);
        }
        rest = more;
    }
    None
}

fn fits(port: Option<u16>, i: u64) -> bool
    ensures { result ≡ fits_in port i }
{
    match port {
        None => true,
        Some(k) => i == u64::from(k),
    }
}

// Hands a packet to the handler that fits.
fn handle(
    alloc: Global,
    setting: &Setting,
    draft: &mut StateDraft,
    s: u64,
    a: u64,
    b: u64,
    i: u64,
) -> Result<Tally, AllocError>
    ensures done { IfOk result (λ tally. drafted draft.new tally ≡ handled setting.now.program.now setting.now.network.now setting.now.sending (first_fit_of setting.now.program.now.handlers i) s a b i (from_state (standing draft.old))) }
    ensures start { start_of draft.new ≡ start_of draft.old }
{
    match first_fit(setting.program.parts().handlers.as_slice(), i) {
        None => Ok(empty_tally(alloc)),
        Some(handler) => run(alloc, setting, draft, handler, s, a, b, i),
    }
}

// Executes a handler's body, its variables standing for the packet.
fn run(
    alloc: Global,
    setting: &Setting,
    draft: &mut StateDraft,
    handler: &Handler,
    s: u64,
    a: u64,
    b: u64,
    i: u64,
) -> Result<Tally, AllocError>
    requires { 4 + command_depth handler.now.body ≤ 24 }
    ensures done { IfOk result (λ tally. drafted draft.new tally ≡ executed setting.now.program.now setting.now.network.now setting.now.sending handler.now.body (for_packet handler.now s a b i) (from_state (standing draft.old))) }
    ensures start { start_of draft.new ≡ start_of draft.old }
{
    let mut env = Env::try_new(alloc, MOST_VARIABLES)?;
    env.push(handler.s, s);
    env.push(handler.a, a);
    env.push(handler.b, b);
    env.push(handler.i, i);
    let mut tally = empty_tally(alloc);
    execute(setting, draft, &mut tally, &mut env, &handler.body)?;
    Ok(tally)
}
