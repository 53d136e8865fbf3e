//! The first invariant that is false.
ghost use Rattle.std.specs.Prelude.{◌≡◌, ◌≤◌, [], All, IfOk, option_map};
ghost use Rattle.csdn_core.specs.Depth.{depth};
ghost use Rattle.csdn_core.specs.Network.{structure};
ghost use Rattle.csdn_core.specs.Run.{empty_state, no_values};
ghost use Rattle.csdn_core.specs.Truth.{truth as truth_of};
ghost use Rattle.csdn_core.specs.declared.event.Packet.TheVariants.{Nothing};
ghost use Rattle.net_structs.specs.Rows.{held};
ghost use Rattle.net_listing.specs.Falses.{first_false as first_false_of};

use crate::listing::topology_of;
use csdn_core::event::Packet;
use csdn_core::program::{Invariant, Program};
use csdn_core::terms::MOST_VARIABLES;
use net_structs::env::Env;
use net_structs::network::Network;
use net_structs::state::State;
use net_structs::truth::truth;
use std::alloc::{AllocError, Global};

// Whether an invariant is true.
fn is_true(
    program: &Program,
    network: &Network,
    env: &mut Env,
    invariant: &Invariant,
    state: &State,
    packet: &Packet,
) -> bool
    requires shallow { depth invariant.now.formula ≤ 24 }
    requires pairs { env.old.pairs ≡ [] }
    requires room { env.old.room ≡ 24 }
    ensures value { result ≡ truth_of (structure program.now network.now (held state.now) packet.now) invariant.now.formula no_values }
    ensures env { env.new ≡ env.old }
{
    truth(program, network, state, packet, env, &invariant.formula)
}

/// The name of the first of these invariants that is false in a network and a state, with a packet. It takes no memory; the time is that of
/// `truth` for each up to that one.
pub fn first_false<'a>(
    program: &Program,
    network: &Network,
    env: &mut Env,
    invariants: &'a [Invariant],
    state: &State,
    packet: &Packet,
) -> Option<&'a [u8]>
    requires shallow { All (λ v. depth v.formula ≤ 24) invariants.now }
    requires pairs { env.old.pairs ≡ [] }
    requires room { env.old.room ≡ 24 }
    ensures name { option_map (λ n. n.now) result ≡ first_false_of (structure program.now network.now (held state.now) packet.now) invariants.now }
    ensures env { env.new ≡ env.old }
{
    let mut rest = invariants;
    'invariants: while let [invariant, more @ ..] = rest {
        if !is_true(program, network, env, invariant, state, packet) {
            return Some(invariant.name.as_slice());
        }
        rest = more;
    }
    None
}

/// The name of the first topology invariant that is false in a network. The time is that of `truth` for each up to that one.
pub fn first_false_topology<'a>(
    alloc: Global,
    program: &'a Program,
    network: &Network,
) -> Result<Option<&'a [u8]>, AllocError>
    ensures { IfOk result (λ found. option_map (λ name. name.now) found ≡ first_false_of (structure program.now network.now empty_state Nothing) program.now.topology) }
{
    let mut env = Env::try_new(alloc, MOST_VARIABLES)?;
    let empty = State::try_empty(alloc, program)?;
    Ok(first_false(
        program,
        network,
        &mut env,
        topology_of(program),
        &empty,
        &Packet::Nothing,
    ))
}
