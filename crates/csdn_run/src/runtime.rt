//! The runtime.
ghost use Rattle.std.specs.Prelude.{◌≡◌, ◌↔◌, ◌<◌, ◌≤◌, ◌++◌, [], ◌∷◌, true, false, length, IfOk, OnOk, OnErr, Err as ErrIs};
ghost use Rattle.net_structs.specs.Networks.{IsServable};
ghost use Rattle.csdn_core.specs.Network.{IsNetwork};
ghost use Rattle.csdn_core.specs.WellSorted.{IsWellSorted};
ghost use Rattle.csdn_run.specs.Histories.{with_history, IsRunAnswer, first_refusal};
ghost use Rattle.csdn_run.specs.Replies.{reply as reply_of};
ghost use Rattle.csdn_run.specs.Standings.{is_declared as is_declared_in};

use crate::rules::Setting;
use crate::standing::{Kept, enter, is_declared};
use csdn_core::program::Program;
use csdn_history::entry::Entry;
use csdn_history::reply::Reply;
use net_structs::network::Network;
use std::alloc::{AllocError, Global};
use std::marker::Model;
use thiserror::Error;

/// Why an entry isn't entered.
#[derive(Debug, Drop, Error)]
pub enum RunRefusal {
    /// The entry isn't declared: the network lacks an element of it, or it says that a rule ended and the program ends none.
    #[error("the network lacks an element of the entry, or no rule ends by itself")]
    Stranger,
    /// The history has as many entries as it may have.
    #[error("the history is full")]
    HistoryFull,
    #[error("out of memory")]
    Memory,
}

/// A program over a network, with the history of what was entered. Clauses see it as these, with the room for entries.
pub struct Runtime {
    alloc: Global,
    program: Program,
    network: Network,
    room: u32,
    history: Vec<Entry>,
    kept: Kept,
}

impl Drop for Runtime {
    fn drop(self) {
        let Runtime {
            alloc: _,
            program: _program,
            network: _network,
            room: _,
            history: _history,
            kept: _kept,
        } = self;
    }
}

impl Model for Runtime {
    ghost use Rattle.csdn_run.specs.Histories.{Running, Stands, running};
    ghost use Rattle.csdn_core.specs.contracts.syntax.Formula as formula;
    ghost use Rattle.csdn_core.specs.contracts.syntax.Command as command;
    ghost use Rattle.std.specs.Coded.{codes};

    ghost Value = { Running };

    ghost coded = { Prim.hlevel (codes, formula.the_row.coded, command.the_row.coded) };

    ghost view = { λ r. running r.program r.network r.room r.history.items };

    ghost invariant = { λ r. Stands (running r.program r.network r.room r.history.items) r.kept };
}

impl Runtime {
    /// A runtime with an empty history, which may have `room` entries.
    pub fn try_new(
        alloc: Global,
        program: Program,
        network: Network,
        room: u32,
    ) -> Result<Runtime, AllocError>
        requires of_program { IsNetwork program network }
        requires servable { IsServable network }
        requires room { (1 ≤ room) × (room ≤ 4194304) }
        ensures { IfOk result (λ runtime. runtime ≡ record { program = program; network = network; room = room; history = [] }) }
    {
        let kept = Kept::try_new(alloc, &program, &network)?;
        Ok(Runtime {
            alloc,
            program,
            network,
            room,
            history: Vec::new(alloc),
            kept,
        })
    }

    /// Enters an entry, and gives the reply to it. Refusals in order: `Stranger` exactly where the entry isn't declared;
    /// `HistoryFull` exactly where the history has as many entries as there is room for; `Memory`. After a refusal all is
    /// unchanged: all memory is taken first. A packet costs what its handler looks at and changes, with the ports of the
    /// network for each match that it changes; a join looks at all flow rules.
    pub fn apply(&mut self, entry: &Entry) -> Result<Reply, RunRefusal>
        ensures answer { IsRunAnswer (first_refusal self.old entry.now) result }
        ensures reply { IfOk result (λ reply. reply ≡ reply_of self.old.program self.old.network self.old.history entry.now) }
        ensures entered { OnOk result (self.new ≡ with_history self.old (self.old.history ++ entry.now ∷ [])) }
        ensures same { OnErr result (self.new ≡ self.old) }
    {
        if !is_declared(&self.program, &self.network, entry) {
            return Err(RunRefusal::Stranger);
        }
        if self.history.len() >= self.room as usize {
            return Err(RunRefusal::HistoryFull);
        }
        if self.history.reserve(1).is_err() {
            return Err(RunRefusal::Memory);
        }
        let setting = Setting {
            alloc: self.alloc,
            program: &self.program,
            network: &self.network,
        };
        match enter(&setting, &mut self.kept, entry) {
            Ok(reply) => {
                self.history.push_reserved(*entry);
                Ok(reply)
            }
            Err(_) => Err(RunRefusal::Memory),
        }
    }

    /// What is known of the program and the network of a runtime. It costs nothing.
    pub fn stands(&self)
        ensures sorted { IsWellSorted self.now.program }
        ensures network { IsNetwork self.now.program self.now.network }
        ensures servable { IsServable self.now.network }
    {
        // a program's parts are well-sorted
        let _parts = self.program.parts();
    }

    /// The program.
    pub fn program(&self) -> &Program
        ensures { result.now ≡ self.now.program }
    {
        &self.program
    }

    /// The network.
    pub fn network(&self) -> &Network
        ensures { result.now ≡ self.now.network }
    {
        &self.network
    }

    /// The entries so far, in their order.
    pub fn history(&self) -> &[Entry]
        ensures { result.now ≡ self.now.history }
    {
        self.history.as_slice()
    }
}
