//! A listener in memory.
ghost use Rattle.std.specs.Prelude.{◌≡◌, ◌≤◌, ◌+◌, vec_len, vec_capacity};

use crate::listener::{Arrival, Listener};
use crate::mem_link::{LinkScript, MemLink};
use std::alloc::{AllocError, Global};
use vericon_edge::fault::Failed;
use vericon_edge::fault_plan::FaultPlan;

/// A listener in memory. It tells the links given back, and has room for all that will come.
#[derive(Drop)]
pub struct MemListener {
    alloc: Global,
    /// What the links that are still to come will do, the last of them first.
    coming: Vec<LinkScript>,
    given: Vec<(u32, MemLink)>,
    listens: FaultPlan,
    accepts: FaultPlan,
    listens_now: bool,
    uses: u64,
    came: u64,
    back: u64,
    ended: bool,
    faults: u64,
    ghost all_back: { back ≡ vec_len given },
    ghost room: { came + vec_len coming ≤ vec_capacity given },
}

impl MemListener {
    ghost use Rattle.std.specs.Prelude.{[], false, IfOk};
    ghost use Rattle.vericon_links.specs.MemListeners.{coming};

    /// The links that do what these scripts say will come, one after another. The calls of `listen` and of `accept` that the plans list
    /// fail.
    pub fn new(
        alloc: Global,
        scripts: Vec<LinkScript>,
        listens: FaultPlan,
        accepts: FaultPlan,
    ) -> Result<MemListener, AllocError>
        ensures coming { IfOk result (λ l. coming l ≡ scripts.items) }
        ensures listens { IfOk result (λ l. l.listens ≡ listens) }
        ensures accepts { IfOk result (λ l. l.accepts ≡ accepts) }
        ensures given { IfOk result (λ l. l.given.items ≡ []) }
        ensures listens_now { IfOk result (λ l. l.listens_now ≡ false) }
        ensures uses { IfOk result (λ l. l.uses ≡ 0) }
        ensures came { IfOk result (λ l. l.came ≡ 0) }
        ensures back { IfOk result (λ l. l.back ≡ 0) }
        ensures ended { IfOk result (λ l. l.ended ≡ false) }
        ensures faults { IfOk result (λ l. l.faults ≡ 0) }
    {
        let mut coming = scripts;
        coming.as_mut_slice().reverse();
        let given = Vec::with_capacity(alloc, coming.len())?;
        Ok(MemListener {
            alloc,
            coming,
            given,
            listens,
            accepts,
            listens_now: false,
            uses: 0,
            came: 0,
            back: 0,
            ended: false,
            faults: 0,
        })
    }

    /// The links given back, each with its number.
    pub fn given(&self) -> &[(u32, MemLink)]
        ensures { result.now ≡ self.now.given.items }
    {
        self.given.as_slice()
    }

    /// How often it was told to listen or asked for a link.
    pub fn uses(&self) -> u64
        ensures { result ≡ self.now.uses }
    {
        self.uses
    }
}

impl Listener for MemListener {
    ghost use Rattle.std.specs.Prelude.{Some, false, ◌<◌, ◌^◌, ◌↔◌, IsErr, length};
    ghost use Rattle.vericon_edge.specs.Counts.{counted};
    ghost use Rattle.vericon_edge.specs.FaultPlan.{IsNextDue};
    ghost use Rattle.vericon_links.specs.Faults.{CountsFault};
    ghost use Rattle.vericon_links.specs.Links.{IsUnused};
    ghost use Rattle.vericon_links.specs.Listeners.{AcceptAnswers, IfCame};
    ghost use Rattle.vericon_links.specs.MemLinks.{taken_of};
    ghost use Rattle.vericon_links.specs.MemListeners.{coming, AcceptFails, ComesNext};

    type Link = MemLink;

    ghost uses = { λ l. l.uses };

    ghost came = { λ l. l.came };

    ghost back = { λ l. l.back };

    ghost ended = { λ l. l.ended };

    ghost faults = { λ l. l.faults };

    ghost given = { λ l. Some l.given.items };

    /// Fails exactly where it is planned.
    fn listen(&mut self, _port: u16) -> Result<(), Failed>
        ensures cause { CountsFault self.old.faults self.new.faults result }
        ensures later { self.old.faults ≤ self.new.faults }
        ensures uses { self.new.uses ≡ counted self.old.uses }
        ensures came { self.new.came ≡ self.old.came }
        ensures back { self.new.back ≡ self.old.back }
        ensures ended { self.new.ended ≡ self.old.ended }
        ensures given { Some self.new.given.items ≡ Some self.old.given.items }
        ensures planned { IsErr result ↔ IsNextDue self.old.listens }
    {
        self.uses = self.uses.saturating_add(1);
        if self.listens.count_call() {
            self.faults = self.faults.saturating_add(1);
            return Err(Failed);
        }
        self.listens_now = true;
        Ok(())
    }

    /// Fails exactly where it is planned or nobody listens, and else gives the next link, while there is one.
    fn accept(&mut self) -> Result<Arrival<MemLink>, Failed>
        requires { self.old.came < 2 ^ 32 }
        ensures answer { AcceptAnswers self.old.came self.new.came self.old.ended self.new.ended result }
        ensures unused { IfCame result (λ link. IsUnused (Some (taken_of link)) (Some link.written.items) link.closed link.is_shut link.read_faults link.write_faults) }
        ensures cause { CountsFault self.old.faults self.new.faults result }
        ensures later { self.old.faults ≤ self.new.faults }
        ensures uses { self.new.uses ≡ counted self.old.uses }
        ensures back { self.new.back ≡ self.old.back }
        ensures given { Some self.new.given.items ≡ Some self.old.given.items }
        ensures planned { IsErr result ↔ AcceptFails self.old }
        ensures next { ComesNext (coming self.old) (coming self.new) result }
    {
        self.uses = self.uses.saturating_add(1);
        if self.accepts.count_call() || !self.listens_now {
            self.faults = self.faults.saturating_add(1);
            return Err(Failed);
        }
        let Some(script) = self.coming.pop() else {
            self.ended = true;
            return Ok(Arrival::Closed);
        };
        self.came += 1;
        Ok(Arrival::Came(MemLink::new(self.alloc, script)))
    }

    fn give_back(&mut self, number: u32, link: MemLink) {
        self.back += 1;
        self.given.push_reserved((number, link));
    }
}
