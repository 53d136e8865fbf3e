//! What notes lead to: the state with what is sent, and the marks of matches.
ghost use Rattle.std.specs.Prelude.{◌≡◌, ◌+◌, ◌<◌, ◌^◌, if◌then◌else◌, IfOk, Some as SomeOf, None as NoneOf, OnOk};
ghost use Rattle.net_structs.specs.Rows.{held};
ghost use Rattle.csdn_core.specs.declared.event.Event.TheVariants.{Expire as Expiring};
ghost use Rattle.csdn_core.specs.declared.event.Packet.TheVariants.{Nothing};
ghost use Rattle.journal_text.specs.declared.note.Note.TheVariants.{Kept, Flow};
ghost use Rattle.csdn_step.specs.declared.setting.Sending.TheVariants.{Kept as WithSent};
ghost use Rattle.csdn_step.specs.Courses.{fired, from_state};
ghost use Rattle.csdn_step.specs.Answers.{is_enabled};
ghost use Rattle.csdn_run.specs.Marked.{mark_of};
ghost use Rattle.csdn_run.specs.Standings.{ended, ended_now, marked, with_marks};
ghost use Rattle.trace_listing.specs.Traces.{IsTaken, acts as acts_in, after_event, done, event_refusal, opening_at, packet_of, standing_of};

use crate::invariants::Setting;
use csdn_core::event::{Event, Match, Packet};
use csdn_history::entry::Entry;
use csdn_run::{Marks, is_declared};
use csdn_step::{StepRefusal, fire};
use journal_text::Note;
use net_structs::state::State;
use std::alloc::{AllocError, Global};

/// Why a note is refused.
#[derive(Clone, Copy, Debug, PartialEq, Eq)]
pub enum Refusal {
    /// The network lacks an element of it; or it says that rules ended, and the program ends none.
    Stranger,
    /// No rule sends the packet so.
    NotEnabled,
}

/// What came of a note.
#[derive(Clone, Copy)]
pub enum Taken {
    Refused(Refusal),
    /// It happened, and transition invariants are asked of this packet, if they are asked at all.
    Happened(Option<Packet>),
}

/// What the notes so far have led to.
#[derive(Drop)]
pub struct Progress {
    pub state: State,
    marks: Marks,
    /// How many entries there were.
    count: u64,
}

impl Progress {
    /// What there is before the first note.
    pub fn try_new(alloc: Global, state: State) -> Result<Progress, AllocError>
        ensures standing { IfOk result (λ progress. standing_of progress ≡ opening_at (held state)) }
        ensures count { IfOk result (λ progress. progress.count ≡ 0) }
    {
        let marks = Marks::try_new(alloc)?;
        Ok(Progress {
            state,
            marks,
            count: 0,
        })
    }
}

// Sets the marks of these matches.
fn set_each(marks: &mut Marks, keys: &[Match], number: u64) -> Result<(), AllocError>
    ensures { OnOk result (mark_of marks.new ≡ with_marks (mark_of marks.old) keys.now number) }
{
    let mut rest = keys;
    'keys: while let [key, more @ ..] = rest {
        marks.set(key, number)?;
        rest = more;
    }
    Ok(())
}

// Notes that an entry happened, and which matches it changed.
fn mark(progress: &mut Progress, changed: &[Match]) -> Result<(), AllocError>
    requires { progress.old.count + 1 < 2 ^ 64 }
    ensures state { progress.new.state ≡ progress.old.state }
    ensures marks { OnOk result (mark_of progress.new.marks ≡ with_marks (mark_of progress.old.marks) changed.now (progress.old.count + 1)) }
    ensures count { progress.new.count ≡ progress.old.count + 1 }
{
    progress.count += 1;
    set_each(&mut progress.marks, changed, progress.count)
}

// Lets a packet come in.
fn receive(
    alloc: Global,
    setting: &Setting,
    progress: &mut Progress,
    event: &Event,
) -> Result<(), AllocError>
    requires { progress.old.count + 1 < 2 ^ 64 }
    ensures { OnOk result (standing_of progress.new ≡ marked (standing_of progress.old) (fired setting.now.program.now setting.now.network.now WithSent event.now (from_state (held progress.old.state)))) }
{
    match fire(
        alloc,
        setting.program,
        setting.network,
        &mut progress.state,
        event,
    ) {
        Ok(tally) => mark(progress, tally.changed.as_slice()),
        // the network has its elements
        Err(_) => Err(AllocError),
    }
}

// An entry that does nothing has a number too.
fn pass(progress: &mut Progress)
    requires { progress.old.count + 1 < 2 ^ 64 }
    ensures { standing_of progress.new ≡ marked (standing_of progress.old) (from_state (held progress.old.state)) }
{
    progress.count += 1;
}

// Ends the flow rules of a match, if there are any, and says whether there are.
fn expire(
    alloc: Global,
    setting: &Setting,
    progress: &mut Progress,
    key: Match,
) -> Result<bool, AllocError>
    requires { progress.old.count + 1 < 2 ^ 64 }
    ensures acts { IfOk result (λ acts. acts ≡ is_enabled setting.now.program.now setting.now.network.now (held progress.old.state) (Expiring key.s key.a key.b key.i)) }
    ensures standing { OnOk result (standing_of progress.new ≡ marked (standing_of progress.old) (ended_now setting.now.program.now setting.now.network.now (held progress.old.state) key)) }
{
    let Match { s, a, b, i } = key;
    let event = Event::Expire { s, a, b, i };
    match fire(
        alloc,
        setting.program,
        setting.network,
        &mut progress.state,
        &event,
    ) {
        Ok(tally) => {
            mark(progress, tally.changed.as_slice())?;
            Ok(true)
        }
        Err(StepRefusal::NotEnabled) => {
            pass(progress);
            Ok(false)
        }
        // the network has its elements
        Err(StepRefusal::Stranger | StepRefusal::Memory) => Err(AllocError),
    }
}

// Takes word that the flow rules of a match ended, and says whether they do.
fn end(
    alloc: Global,
    setting: &Setting,
    progress: &mut Progress,
    key: Match,
    cookie: u64,
) -> Result<bool, AllocError>
    requires { progress.old.count + 1 < 2 ^ 64 }
    ensures acts { IfOk result (λ acts. acts ≡ acts_in setting.now.program.now setting.now.network.now (standing_of progress.old) key cookie) }
    ensures standing { OnOk result (standing_of progress.new ≡ marked (standing_of progress.old) (ended setting.now.program.now setting.now.network.now (standing_of progress.old) key cookie)) }
{
    if progress.marks.get(&key) == cookie {
        expire(alloc, setting, progress, key)
    } else {
        pass(progress);
        Ok(false)
    }
}

// What word that flow rules ended comes to. The answer is the packet of which transition invariants speak, if they do.
fn end_rules(
    alloc: Global,
    setting: &Setting,
    progress: &mut Progress,
    key: Match,
    cookie: u64,
) -> Result<Option<Packet>, AllocError>
    requires { progress.old.count + 1 < 2 ^ 64 }
    ensures packet { IfOk result (λ packet. packet ≡ (if acts_in setting.now.program.now setting.now.network.now (standing_of progress.old) key cookie then SomeOf Nothing else NoneOf)) }
    ensures standing { OnOk result (standing_of progress.new ≡ marked (standing_of progress.old) (ended setting.now.program.now setting.now.network.now (standing_of progress.old) key cookie)) }
{
    let acts = end(alloc, setting, progress, key, cookie)?;
    Ok(if acts { Some(Packet::Nothing) } else { None })
}

// Takes an entry that is declared. The answer is the packet of which transition invariants speak, if they do.
fn enter(
    alloc: Global,
    setting: &Setting,
    progress: &mut Progress,
    entry: &Entry,
) -> Result<Option<Packet>, AllocError>
    requires { progress.old.count + 1 < 2 ^ 64 }
    ensures packet { IfOk result (λ packet. packet ≡ packet_of setting.now.program.now setting.now.network.now (standing_of progress.old) entry.now) }
    ensures standing { OnOk result (standing_of progress.new ≡ marked (standing_of progress.old) (done setting.now.program.now setting.now.network.now (standing_of progress.old) entry.now)) }
{
    match *entry {
        Entry::Join { .. } => {
            pass(progress);
            Ok(None)
        }
        Entry::Packet { s, a, b, i, .. } => {
            receive(alloc, setting, progress, &Event::PktIn { s, a, b, i })?;
            Ok(Some(Packet::At { s, a, b, i }))
        }
        Entry::Expire {
            s,
            a,
            b,
            i,
            cookie,
            ..
        } => end_rules(alloc, setting, progress, Match { s, a, b, i }, cookie),
    }
}

// Takes an entry, unless it is not declared.
#[tactic(auto, unfolding(crate::specs::Traces::refusal_of, crate::specs::Traces::after, crate::specs::Traces::looked_at))]
fn take_entry(
    alloc: Global,
    setting: &Setting,
    progress: &mut Progress,
    entry: &Entry,
) -> Result<Taken, AllocError>
    requires { progress.old.count + 1 < 2 ^ 64 }
    ensures { IfOk result (λ taken. IsTaken setting.now.program.now setting.now.network.now (standing_of progress.old) (Kept entry.now) taken (standing_of progress.new)) }
{
    if !is_declared(setting.program, setting.network, entry) {
        return Ok(Taken::Refused(Refusal::Stranger));
    }
    let packet = enter(alloc, setting, progress, entry)?;
    Ok(Taken::Happened(packet))
}

// Lets an event happen, unless it is refused.
fn happen(
    alloc: Global,
    setting: &Setting,
    state: &mut State,
    event: &Event,
) -> Result<Option<Refusal>, AllocError>
    ensures refusal { IfOk result (λ refusal. refusal ≡ event_refusal setting.now.program.now setting.now.network.now (held state.old) event.now) }
    ensures after { IfOk result (λ refusal. refusal ≡ NoneOf → held state.new ≡ after_event setting.now.program.now setting.now.network.now (held state.old) event.now) }
{
    match fire(alloc, setting.program, setting.network, state, event) {
        Ok(_) => Ok(None),
        Err(StepRefusal::Stranger) => Ok(Some(Refusal::Stranger)),
        Err(StepRefusal::NotEnabled) => Ok(Some(Refusal::NotEnabled)),
        Err(StepRefusal::Memory) => Err(AllocError),
    }
}

// Lets a rule send a packet, unless that is refused.
#[tactic(auto, unfolding(crate::specs::Traces::refusal_of, crate::specs::Traces::after, crate::specs::Traces::looked_at))]
fn take_flow(
    alloc: Global,
    setting: &Setting,
    progress: &mut Progress,
    s: u64,
    a: u64,
    b: u64,
    i: u64,
    o: u64,
) -> Result<Taken, AllocError>
    ensures { IfOk result (λ taken. IsTaken setting.now.program.now setting.now.network.now (standing_of progress.old) (Flow s a b i o) taken (standing_of progress.new)) }
{
    let event = Event::PktFlow { s, a, b, i, o };
    match happen(alloc, setting, &mut progress.state, &event)? {
        Some(refusal) => Ok(Taken::Refused(refusal)),
        None => Ok(Taken::Happened(Some(Packet::At { s, a, b, i }))),
    }
}

/// Lets a note happen, unless it is refused.
pub fn take(
    alloc: Global,
    setting: &Setting,
    progress: &mut Progress,
    note: &Note,
) -> Result<Taken, AllocError>
    requires { progress.old.count + 1 < 2 ^ 64 }
    ensures { IfOk result (λ taken. IsTaken setting.now.program.now setting.now.network.now (standing_of progress.old) note.now taken (standing_of progress.new)) }
{
    match note {
        Note::Kept(entry) => take_entry(alloc, setting, progress, entry),
        Note::Flow { s, a, b, i, o } => take_flow(alloc, setting, progress, *s, *a, *b, *i, *o),
    }
}
