//! A program over one switch, two hosts and two ports.
ghost use Rattle.std.specs.Prelude.{◌≡◌, IfOk};
ghost use Rattle.csdn_core.specs.Network.{structure};
ghost use Rattle.csdn_core.specs.Run.{no_values};
ghost use Rattle.csdn_core.specs.Truth.{truth as truth_of};
ghost use Rattle.net_structs.specs.Rows.{held};

use crate::depth::binds_at_most;
use crate::trouble::Trouble;
use csdn_core::event::{Event, Packet};
use csdn_core::program::Program;
use csdn_core::syntax::Formula;
use csdn_read::read_program;
use csdn_step::{StepRefusal, fire};
use net_structs::env::Env;
use net_structs::network::Network;
use net_structs::state::State;
use net_structs::truth::truth;
use net_text::read_net;
use std::alloc::Global;

/// The network's text: one switch, two hosts and two ports.
const NETWORK: &[u8] = b"vericon-net 1\nsw 1\nho 1 2\npr 1 2\nend\n";

/// The most variables that a formula may bind at once.
const ROOM: usize = 64;

/// A program and a network of it.
#[derive(Drop)]
pub struct World {
    pub program: Program,
    pub network: Network,
}

impl World {
    /// The program of a text, over the network of these trials.
    pub fn read(alloc: Global, text: &[u8]) -> Result<World, Trouble> {
        let program = read_program(alloc, text)?;
        let case = read_net(alloc, &program, NETWORK)?;
        Ok(World {
            program,
            network: case.network,
        })
    }

    /// Whether a formula without free variables is true.
    pub fn is_true(
        &self,
        alloc: Global,
        state: &State,
        packet: &Packet,
        formula: &Formula,
    ) -> Result<bool, Trouble>
        ensures { IfOk result (λ is_true. is_true ≡ truth_of (structure self.now.program self.now.network (held state.now) packet.now) formula.now no_values) }
    {
        if !binds_at_most(formula, ROOM) {
            return Err(Trouble::Deep);
        }
        let mut env = Env::try_new(alloc, ROOM)?;
        Ok(truth(
            &self.program,
            &self.network,
            state,
            packet,
            &mut env,
            formula,
        ))
    }

    /// Whether an invariant is true once an event has happened; true where the event can't happen.
    pub fn is_true_after(
        &self,
        alloc: Global,
        state: &State,
        event: &Event,
        invariant: &Formula,
    ) -> Result<bool, Trouble> {
        let mut after = state.copy()?;
        match fire(alloc, &self.program, &self.network, &mut after, event) {
            Ok(_) => self.is_true(alloc, &after, &packet_of(event), invariant),
            Err(StepRefusal::NotEnabled) => Ok(true),
            Err(refusal) => Err(Trouble::from(refusal)),
        }
    }
}

/// The packet of an event; an expiry has none.
fn packet_of(event: &Event) -> Packet {
    match event {
        Event::PktIn { s, a, b, i } | Event::PktFlow { s, a, b, i, .. } => Packet::At {
            s: *s,
            a: *a,
            b: *b,
            i: *i,
        },
        Event::Expire { .. } => Packet::Nothing,
    }
}
