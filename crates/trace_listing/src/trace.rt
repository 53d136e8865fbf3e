//! A whole journal.
ghost use Rattle.std.specs.Prelude.{◌≡◌, ◌≤◌, ◌<◌, ◌+◌, ◌++◌, ◌^◌, [], length, IfOk, OnOk, OnErr};
ghost use Rattle.std.specs.List.Sorted.{IsStrictlySortedBy};
ghost use Rattle.net_structs.specs.Rows.{held, row_cmp};
ghost use Rattle.net_text.specs.NetText.{net_text};
ghost use Rattle.trace_listing.specs.Traces.{IsTrace, IsEnding, start_of, standing_of, traced, last_case};

use crate::invariants::Setting;
use crate::notes::{put_note, put_refusal};
use crate::progress::{Progress, Taken, take};
use csdn_core::event::Packet;
use csdn_core::program::Program;
use csdn_core::terms::MOST_VARIABLES;
use csdn_step::initial;
use journal_text::Note;
use net_structs::case::Case;
use net_structs::env::Env;
use net_structs::network::Network;
use net_structs::state::State;
use net_text::print_net;
use std::alloc::{AllocError, Global};

/// How a trace ended.
#[derive(Clone, Copy, Debug, PartialEq, Eq)]
pub enum Ending {
    /// All notes happened, and no invariant was false after any.
    Unbroken,
    /// All notes happened, and an invariant was false after one of them.
    Broken,
    /// A note was refused.
    Stopped,
}

impl Ending {
    ghost use Rattle.trace_listing.specs.Traces.{is_stopped as is_stopped_in};

    fn is_stopped(self) -> bool
        ensures { result ≡ is_stopped_in self }
    {
        match self {
            Ending::Stopped => true,
            Ending::Unbroken | Ending::Broken => false,
        }
    }
}

/// What is printed of a journal, and how it ended.
#[derive(Drop)]
pub struct Trace {
    pub text: Vec<u8>,
    pub ending: Ending,
}

/// Lets the notes of a journal happen, from the state of the case, or from the initial one where it has none. For each
/// there is a line, and at the end the case of the last state; a note that is refused ends it (docs/COMMANDS.md,
/// "trace").
pub fn list_trace(
    alloc: Global,
    program: &Program,
    case: Case,
    notes: &[Note],
) -> Result<Trace, AllocError>
    ensures { IfOk result (λ trace. IsTrace program.now case.network (start_of program.now case.network case.state) notes.now trace.text.items trace.ending) }
{
    let Case { network, state, .. } = case;
    let state = start(alloc, program, &network, state)?;
    list_from(alloc, program, network, state, notes)
}

// The state that was read, or the initial one.
fn start(
    alloc: Global,
    program: &Program,
    network: &Network,
    state: Option<State>,
) -> Result<State, AllocError>
    ensures { IfOk result (λ found. held found ≡ start_of program.now network.now state) }
{
    match state {
        Some(state) => Ok(state),
        None => initial(alloc, program, network),
    }
}

fn list_from(
    alloc: Global,
    program: &Program,
    network: Network,
    state: State,
    notes: &[Note],
) -> Result<Trace, AllocError>
    ensures { IfOk result (λ trace. IsTrace program.now network (held state) notes.now trace.text.items trace.ending) }
{
    let mut progress = Progress::try_new(alloc, state)?;
    let mut text = Vec::new(alloc);
    let ending = put_notes(alloc, &mut text, program, &network, &mut progress, notes)?;
    if ending.is_stopped() {
        return Ok(Trace { text, ending });
    }
    let Progress { state, .. } = progress;
    put_last(alloc, &mut text, program, network, state)?;
    Ok(Trace { text, ending })
}

// The case of the last state. The tuples of a state rise.
fn put_last(
    alloc: Global,
    out: &mut Vec<u8>,
    program: &Program,
    network: Network,
    state: State,
) -> Result<(), AllocError>
    ensures text { OnOk result (out.new.items ≡ out.old.items ++ net_text program.now (last_case network state)) }
    ensures rising { OnOk result (IsStrictlySortedBy row_cmp state) }
{
    state.rises();
    let case = Case {
        network,
        state: Some(state),
        packet: Packet::Nothing,
    };
    let text = print_net(alloc, program, &case)?;
    out.extend_from_slice(text.as_slice())
}

// The lines of the notes, the first of which has the number 1.
fn put_notes(
    alloc: Global,
    out: &mut Vec<u8>,
    program: &Program,
    network: &Network,
    progress: &mut Progress,
    notes: &[Note],
) -> Result<Ending, AllocError>
    requires { progress.old.count ≡ 0 }
    ensures text { OnOk result (out.new.items ≡ out.old.items ++ (traced program.now network.now 1 (standing_of progress.old) notes.now).text) }
    ensures ending { IfOk result (λ ending. IsEnding (traced program.now network.now 1 (standing_of progress.old) notes.now) ending (held progress.new.state)) }
{
    let setting = Setting { program, network };
    let mut env = Env::try_new(alloc, MOST_VARIABLES)?;
    let mut unbroken = true;
    let mut number = 1;
    let mut rest = notes;
    'notes: while let [note, more @ ..] = rest {
        match take(alloc, &setting, progress, note)? {
            Taken::Refused(refusal) => {
                put_refusal(out, number, refusal)?;
                return Ok(Ending::Stopped);
            }
            Taken::Happened(packet) => {
                let is_true = put_note(out, &setting, &mut env, &progress.state, &packet, number)?;
                unbroken &= is_true;
            }
        }
        number += 1;
        rest = more;
    }
    Ok(if unbroken {
        Ending::Unbroken
    } else {
        Ending::Broken
    })
}
