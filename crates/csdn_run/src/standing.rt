//! What a runtime keeps, and what an entry does with it.
ghost use Rattle.std.specs.Prelude.{◌≡◌, ◌+◌, ◌<◌, ◌^◌, [], true, map, IfOk, OnOk, OnErr};
ghost use Rattle.net_structs.specs.Rows.{held};
ghost use Rattle.std.specs.List.{list_all};
ghost use Rattle.csdn_core.specs.declared.event.Event.TheVariants.{PktIn as SpecPktIn};
ghost use Rattle.csdn_step.specs.declared.setting.Sending.TheVariants.{Kept as KeptSending};
ghost use Rattle.csdn_step.specs.Courses.{fired, from_state, quieted};
ghost use Rattle.csdn_step.specs.Drafts.{standing, start_of};
ghost use Rattle.csdn_run.specs.Marked.{has_room, mark_of};
ghost use Rattle.csdn_run.specs.Replies.{reply_in, reply_to_join, reply_to_packet, rule_in};
ghost use Rattle.csdn_run.specs.Sights.{standing_of};
ghost use Rattle.csdn_run.specs.Standings.{ended, ended_now, entered, is_declared as is_declared_in, is_packet_of as is_packet_in, marked, opening, with_marks};

use crate::joins::matches_of;
use crate::marks::{Marks, make_rooms, put_each};
use crate::rules::{Setting, Sight, rules};
use csdn_core::event::{Event, Match, Outs, Tally};
use csdn_core::program::Program;
use csdn_core::terms::Sort;
use csdn_history::entry::Entry;
use csdn_history::reply::{Reply, Rules};
use csdn_step::{StateDraft, StepRefusal, begin, begin_quiet, initial};
use net_structs::network::Network;
use net_structs::state::State;
use sqlite_items::Items;
use std::alloc::{AllocError, Global};

/// What the entries of a history have led to.
#[derive(Drop)]
pub struct Kept {
    pub(crate) state: State,
    pub(crate) marks: Marks,
    /// How many entries there were.
    pub(crate) count: u64,
}

impl Kept {
    /// What there is before the first entry.
    pub fn try_new(alloc: Global, program: &Program, network: &Network) -> Result<Kept, AllocError>
        ensures standing { IfOk result (λ kept. standing_of kept ≡ opening program.now network.now) }
    {
        Ok(Kept {
            state: initial(alloc, program, network)?,
            marks: Marks::try_new(alloc)?,
            count: 0,
        })
    }
}

fn is_packet_of(network: &Network, s: u64, a: u64, b: u64, i: u64) -> bool
    ensures { result ≡ is_packet_in network.now s a b i }
{
    network.has(Sort::Sw, s)
        && (network.has(Sort::Ho, a) && (network.has(Sort::Ho, b) && network.has(Sort::Pr, i)))
}

/// Whether the network has the elements of an entry; and the program ends rules, where the entry says that one ended.
pub fn is_declared(program: &Program, network: &Network, entry: &Entry) -> bool
    ensures { result ≡ is_declared_in program.now network.now entry.now }
{
    match *entry {
        Entry::Join { s, .. } => network.has(Sort::Sw, s),
        Entry::Packet { s, a, b, i, .. } => is_packet_of(network, s, a, b, i),
        Entry::Expire { s, a, b, i, .. } => {
            is_packet_of(network, s, a, b, i) && program.parts().timeout.is_some()
        }
    }
}

/// Takes an entry that is declared. Where memory runs out, all is as it was.
#[tactic(auto, unfolding(crate::specs::Standings::entered, crate::specs::Replies::reply_in))]
pub fn enter(setting: &Setting, kept: &mut Kept, entry: &Entry) -> Result<Reply, AllocError>
    requires declared { is_declared_in setting.now.program.now setting.now.network.now entry.now ≡ true }
    requires count { kept.old.count + 1 < 2 ^ 64 }
    ensures standing { OnOk result (standing_of kept.new ≡ entered setting.now.program.now setting.now.network.now (standing_of kept.old) entry.now) }
    ensures reply { IfOk result (λ reply. reply ≡ reply_in setting.now.program.now setting.now.network.now (standing_of kept.old) entry.now) }
    ensures same { OnErr result (standing_of kept.new ≡ standing_of kept.old) }
{
    match *entry {
        Entry::Join { s, .. } => join(setting, kept, s),
        Entry::Packet { s, a, b, i, .. } => receive(setting, kept, s, a, b, i),
        Entry::Expire {
            s,
            a,
            b,
            i,
            cookie,
            ..
        } => end(setting, kept, Match { s, a, b, i }, cookie),
    }
}

// What a switch that joins is told. Nothing but the number of the next entry changes.
fn join(setting: &Setting, kept: &mut Kept, s: u64) -> Result<Reply, AllocError>
    requires { kept.old.count + 1 < 2 ^ 64 }
    ensures standing { OnOk result (standing_of kept.new ≡ marked (standing_of kept.old) (from_state (held kept.old.state))) }
    ensures reply { IfOk result (λ reply. reply ≡ reply_to_join setting.now.program.now setting.now.network.now (standing_of kept.old) s) }
    ensures same { OnErr result (standing_of kept.new ≡ standing_of kept.old) }
{
    let keys = matches_of(setting, &kept.state, s)?;
    let sight = Sight::Kept(&kept.state, &kept.marks);
    let rules = rules(setting, &sight, keys.as_slice())?;
    kept.count += 1;
    Ok(Reply {
        rules,
        outs: Items::new(setting.alloc),
    })
}

// Takes all the memory that is wanted to keep what an entry of this number makes of the state: the rules of the matches that
// it changed, and room for their marks.
fn prepare(
    setting: &Setting,
    marks: &mut Marks,
    draft: &StateDraft,
    changed: &[Match],
    number: u64,
) -> Result<Rules, AllocError>
    ensures rules { IfOk result (λ rules. rules ≡ map (rule_in setting.now.program.now setting.now.network.now (standing draft.now) number) changed.now) }
    ensures same { mark_of marks.new ≡ mark_of marks.old }
    ensures room { OnOk result (list_all (has_room marks.new) changed.now ≡ true) }
{
    make_rooms(marks, changed)?;
    rules(setting, &Sight::Drafted(draft, number), changed)
}

// Keeps what an entry made of the state. It takes no memory.
fn keep(kept: &mut Kept, draft: StateDraft, changed: &[Match])
    requires room { list_all (has_room kept.old.marks) changed.now ≡ true }
    requires count { kept.old.count + 1 < 2 ^ 64 }
    ensures state { held kept.new.state ≡ standing draft }
    ensures marks { mark_of kept.new.marks ≡ with_marks (mark_of kept.old.marks) changed.now (kept.old.count + 1) }
    ensures count { kept.new.count ≡ kept.old.count + 1 }
{
    kept.count += 1;
    put_each(&mut kept.marks, changed, kept.count);
    kept.state = draft.kept();
}

// Keeps what an entry made of the state, or undoes it where memory runs out.
fn settle(
    setting: &Setting,
    kept: &mut Kept,
    draft: StateDraft,
    changed: &[Match],
) -> Result<Rules, AllocError>
    requires { kept.old.count + 1 < 2 ^ 64 }
    ensures rules { IfOk result (λ rules. rules ≡ map (rule_in setting.now.program.now setting.now.network.now (standing draft) (kept.old.count + 1)) changed.now) }
    ensures state { OnOk result (held kept.new.state ≡ standing draft) }
    ensures marks { OnOk result (mark_of kept.new.marks ≡ with_marks (mark_of kept.old.marks) changed.now (kept.old.count + 1)) }
    ensures count { OnOk result (kept.new.count ≡ kept.old.count + 1) }
    ensures undone { OnErr result (kept.new.state ≡ start_of draft) }
    ensures same_marks { OnErr result (mark_of kept.new.marks ≡ mark_of kept.old.marks) }
    ensures same_count { OnErr result (kept.new.count ≡ kept.old.count) }
{
    let number = kept.count + 1;
    match prepare(setting, &mut kept.marks, &draft, changed, number) {
        Ok(rules) => {
            keep(kept, draft, changed);
            Ok(rules)
        }
        Err(error) => {
            kept.state = draft.undone();
            Err(error)
        }
    }
}

// Takes a packet of the network.
fn receive(
    setting: &Setting,
    kept: &mut Kept,
    s: u64,
    a: u64,
    b: u64,
    i: u64,
) -> Result<Reply, AllocError>
    requires { kept.old.count + 1 < 2 ^ 64 }
    ensures standing { OnOk result (standing_of kept.new ≡ marked (standing_of kept.old) (quieted (held kept.old.state) (fired setting.now.program.now setting.now.network.now KeptSending (SpecPktIn s a b i) (from_state (held kept.old.state))))) }
    ensures reply { IfOk result (λ reply. reply ≡ reply_to_packet setting.now.program.now setting.now.network.now (standing_of kept.old) (quieted (held kept.old.state) (fired setting.now.program.now setting.now.network.now KeptSending (SpecPktIn s a b i) (from_state (held kept.old.state))))) }
    ensures same { OnErr result (standing_of kept.new ≡ standing_of kept.old) }
{
    let begun = begin_quiet(
        setting.alloc,
        setting.program,
        setting.network,
        &mut kept.state,
        s,
        a,
        b,
        i,
    );
    match begun {
        Ok((draft, tally)) => {
            let Tally { changed, outs } = tally;
            let rules = settle(setting, kept, draft, changed.as_slice())?;
            Ok(Reply { rules, outs })
        }
        // the network has its elements
        Err(_) => Err(AllocError),
    }
}

// An entry that does nothing has a number too.
fn pass(kept: &mut Kept)
    requires { kept.old.count + 1 < 2 ^ 64 }
    ensures { standing_of kept.new ≡ marked (standing_of kept.old) (from_state (held kept.old.state)) }
{
    kept.count += 1;
}

// Ends the flow rules of a match, if there are any.
fn expire(setting: &Setting, kept: &mut Kept, key: Match) -> Result<(), AllocError>
    requires { kept.old.count + 1 < 2 ^ 64 }
    ensures standing { OnOk result (standing_of kept.new ≡ marked (standing_of kept.old) (ended_now setting.now.program.now setting.now.network.now (held kept.old.state) key)) }
    ensures same { OnErr result (standing_of kept.new ≡ standing_of kept.old) }
{
    let Match { s, a, b, i } = key;
    let event = Event::Expire { s, a, b, i };
    let begun = begin(
        setting.alloc,
        setting.program,
        setting.network,
        &mut kept.state,
        &event,
    );
    match begun {
        Ok((draft, tally)) => {
            settle(setting, kept, draft, tally.changed.as_slice())?;
            Ok(())
        }
        Err(StepRefusal::NotEnabled) => {
            pass(kept);
            Ok(())
        }
        // the network has its elements
        Err(StepRefusal::Stranger | StepRefusal::Memory) => Err(AllocError),
    }
}

// Takes word that the flow rules of a match ended.
fn end(setting: &Setting, kept: &mut Kept, key: Match, cookie: u64) -> Result<Reply, AllocError>
    requires { kept.old.count + 1 < 2 ^ 64 }
    ensures standing { OnOk result (standing_of kept.new ≡ marked (standing_of kept.old) (ended setting.now.program.now setting.now.network.now (standing_of kept.old) key cookie)) }
    ensures reply { IfOk result (λ reply. reply ≡ record { rules = []; outs = [] }) }
    ensures same { OnErr result (standing_of kept.new ≡ standing_of kept.old) }
{
    if kept.marks.get(&key) == cookie {
        expire(setting, kept, key)?;
    } else {
        pass(kept);
    }
    Ok(Reply {
        rules: Items::new(setting.alloc),
        outs: Items::new(setting.alloc),
    })
}
