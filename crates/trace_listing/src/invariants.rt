//! The first invariant that is false.
ghost use Rattle.std.specs.Prelude.{◌≡◌, [], option_map};
ghost use Rattle.csdn_core.specs.Network.{structure};
ghost use Rattle.csdn_core.specs.declared.event.Packet.TheVariants.{Nothing};
ghost use Rattle.net_structs.specs.Rows.{held};
ghost use Rattle.net_listing.specs.Falses.{first_false as first_false_of};
ghost use Rattle.trace_listing.specs.Traces.{first_broken as first_broken_of, first_false_transition as first_false_transition_of};

use csdn_core::event::Packet;
use csdn_core::program::Program;
use net_listing::{first_false, safety_of, trans_of};
use net_structs::env::Env;
use net_structs::network::Network;
use net_structs::state::State;

/// What doesn't change while a journal is traced.
#[derive(Drop)]
pub struct Setting<'a> {
    pub program: &'a Program,
    pub network: &'a Network,
}

// The name of the first transition invariant that is false, where they are asked.
fn first_false_transition<'a>(
    setting: &Setting<'a>,
    env: &mut Env,
    state: &State,
    packet: &Option<Packet>,
) -> Option<&'a [u8]>
    requires pairs { env.old.pairs ≡ [] }
    requires room { env.old.room ≡ 24 }
    ensures name { option_map (λ n. n.now) result ≡ first_false_transition_of setting.now.program.now setting.now.network.now (held state.now) packet.now }
    ensures env { env.new ≡ env.old }
{
    match packet {
        None => None,
        Some(packet) => first_false(
            setting.program,
            setting.network,
            env,
            trans_of(setting.program),
            state,
            packet,
        ),
    }
}

// That of the safety invariants.
fn first_false_safety<'a>(setting: &Setting<'a>, env: &mut Env, state: &State) -> Option<&'a [u8]>
    requires pairs { env.old.pairs ≡ [] }
    requires room { env.old.room ≡ 24 }
    ensures name { option_map (λ n. n.now) result ≡ first_false_of (structure setting.now.program.now setting.now.network.now (held state.now) Nothing) setting.now.program.now.safety }
    ensures env { env.new ≡ env.old }
{
    first_false(
        setting.program,
        setting.network,
        env,
        safety_of(setting.program),
        state,
        &Packet::Nothing,
    )
}

/// The name of the first invariant that is false: of a safety invariant, and else of a transition invariant, which speaks of
/// the packet, where there is something to ask it of.
#[tactic(auto, unfolding(crate::specs::Traces::first_broken))]
pub fn first_broken<'a>(
    setting: &Setting<'a>,
    env: &mut Env,
    state: &State,
    packet: &Option<Packet>,
) -> Option<&'a [u8]>
    requires pairs { env.old.pairs ≡ [] }
    requires room { env.old.room ≡ 24 }
    ensures name { option_map (λ n. n.now) result ≡ first_broken_of setting.now.program.now setting.now.network.now (held state.now) packet.now }
    ensures env { env.new ≡ env.old }
{
    match first_false_safety(setting, env, state) {
        Some(name) => Some(name),
        None => first_false_transition(setting, env, state, packet),
    }
}
