//! The truth of a program's invariants.
ghost use Rattle.std.specs.Prelude.{◌≡◌, ◌≤◌, ◌++◌, ◌∷◌, [], All, IfOk, OnOk, Some, codes};
ghost use Rattle.std.specs.List.{flat_map};
ghost use Rattle.text_lines.specs.Printed.{line_text};
ghost use Rattle.csdn_core.specs.Network.{structure};
ghost use Rattle.csdn_core.specs.Depth.{depth};
ghost use Rattle.net_structs.specs.Rows.{held};
ghost use Rattle.net_listing.specs.Listings.{listing, state_lines, transition_lines, truth_lines, truth_word, truth_words};
ghost use Rattle.csdn_core.specs.declared.event.Packet.TheVariants.{Nothing};

use csdn_core::event::Packet;
use csdn_core::program::{Invariant, Program};
use csdn_core::terms::MOST_VARIABLES;
use net_structs::case::Case;
use net_structs::env::Env;
use net_structs::network::Network;
use net_structs::state::State;
use net_structs::truth::truth;
use std::alloc::{AllocError, Global};
use text_lines::{put_line_end, put_next_word, put_word};

/// A line for each topology invariant; where there is a state one for each safety invariant; and where there is a
/// packet one for each transition invariant (docs/COMMANDS.md, "eval").
pub fn list_invariants(alloc: Global, program: &Program, case: &Case) -> Result<Vec<u8>, AllocError>
    ensures { IfOk result (λ text. text.items ≡ listing program.now case.now) }
{
    let mut out = Vec::new(alloc);
    let mut env = Env::try_new(alloc, MOST_VARIABLES)?;
    let empty = State::try_empty(alloc, program)?;
    // Topology invariants don't look at the state.
    put_truths(
        &mut out,
        &mut env,
        b"topology",
        topology_of(program),
        program,
        &case.network,
        &empty,
        &Packet::Nothing,
    )?;
    put_state(&mut out, &mut env, program, case)?;
    Ok(out)
}

/// The topology invariants.
pub fn topology_of(program: &Program) -> &[Invariant]
    ensures value { result.now ≡ program.now.topology }
    ensures shallow { All (λ v. depth v.formula ≤ 24) result.now }
{
    program.parts().topology.as_slice()
}

/// The safety invariants, each of which binds at most 24 variables at once.
pub fn safety_of(program: &Program) -> &[Invariant]
    ensures value { result.now ≡ program.now.safety }
    ensures shallow { All (λ v. depth v.formula ≤ 24) result.now }
{
    program.parts().safety.as_slice()
}

/// The transition invariants.
pub fn trans_of(program: &Program) -> &[Invariant]
    ensures value { result.now ≡ program.now.trans }
    ensures shallow { All (λ v. depth v.formula ≤ 24) result.now }
{
    program.parts().trans.as_slice()
}

fn put_transitions(
    out: &mut Vec<u8>,
    env: &mut Env,
    program: &Program,
    network: &Network,
    state: &State,
    packet: &Packet,
) -> Result<(), AllocError>
    requires pairs { env.old.pairs ≡ [] }
    requires room { env.old.room ≡ 24 }
    ensures text { OnOk result (out.new.items ≡ out.old.items ++ flat_map line_text (transition_lines program.now network.now state.now packet.now)) }
    ensures env { env.new ≡ env.old }
{
    match packet {
        Packet::Nothing => Ok(()),
        Packet::At { .. } => put_truths(
            out,
            env,
            b"trans",
            trans_of(program),
            program,
            network,
            state,
            packet,
        ),
    }
}

fn put_state(
    out: &mut Vec<u8>,
    env: &mut Env,
    program: &Program,
    case: &Case,
) -> Result<(), AllocError>
    requires pairs { env.old.pairs ≡ [] }
    requires room { env.old.room ≡ 24 }
    ensures text { OnOk result (out.new.items ≡ out.old.items ++ flat_map line_text (state_lines program.now case.now.network case.now.state case.now.packet)) }
    ensures env { env.new ≡ env.old }
{
    match &case.state {
        None => Ok(()),
        Some(state) => put_in_state(out, env, program, &case.network, state, &case.packet),
    }
}

fn put_in_state(
    out: &mut Vec<u8>,
    env: &mut Env,
    program: &Program,
    network: &Network,
    state: &State,
    packet: &Packet,
) -> Result<(), AllocError>
    requires pairs { env.old.pairs ≡ [] }
    requires room { env.old.room ≡ 24 }
    ensures text { OnOk result (out.new.items ≡ out.old.items ++ flat_map line_text (state_lines program.now network.now (Some state.now) packet.now)) }
    ensures env { env.new ≡ env.old }
{
    put_truths(
        out,
        env,
        b"safety",
        safety_of(program),
        program,
        network,
        state,
        &Packet::Nothing,
    )?;
    put_transitions(out, env, program, network, state, packet)
}

// A line for each invariant, whether it is true.
fn put_truths(
    out: &mut Vec<u8>,
    env: &mut Env,
    kind: &[u8],
    invariants: &[Invariant],
    program: &Program,
    network: &Network,
    state: &State,
    packet: &Packet,
) -> Result<(), AllocError>
    requires shallow { All (λ v. depth v.formula ≤ 24) invariants.now }
    requires pairs { env.old.pairs ≡ [] }
    requires room { env.old.room ≡ 24 }
    ensures text { OnOk result (out.new.items ≡ out.old.items ++ flat_map line_text (truth_lines kind.now (structure program.now network.now (held state.now) packet.now) invariants.now)) }
    ensures env { env.new ≡ env.old }
{
    let mut rest = invariants;
    'invariants: while let [invariant, more @ ..] = rest {
        put_truth(out, env, kind, invariant, program, network, state, packet)?;
        rest = more;
    }
    Ok(())
}

fn put_truth(
    out: &mut Vec<u8>,
    env: &mut Env,
    kind: &[u8],
    invariant: &Invariant,
    program: &Program,
    network: &Network,
    state: &State,
    packet: &Packet,
) -> Result<(), AllocError>
    requires shallow { depth invariant.now.formula ≤ 24 }
    requires pairs { env.old.pairs ≡ [] }
    requires room { env.old.room ≡ 24 }
    ensures text { OnOk result (out.new.items ≡ out.old.items ++ line_text (truth_words kind.now (structure program.now network.now (held state.now) packet.now) invariant.now)) }
    ensures env { env.new ≡ env.old }
{
    let is_true = truth(program, network, state, packet, env, &invariant.formula);
    put_three(out, kind, invariant.name.as_slice(), word(is_true))
}

// A line of three words.
fn put_three(out: &mut Vec<u8>, a: &[u8], b: &[u8], c: &[u8]) -> Result<(), AllocError>
    ensures { OnOk result (out.new.items ≡ out.old.items ++ line_text (a.now ∷ b.now ∷ c.now ∷ [])) }
{
    put_word(out, a)?;
    put_next_word(out, b)?;
    put_next_word(out, c)?;
    put_line_end(out)
}

fn word(is_true: bool) -> &'static [u8]
    ensures { result.now ≡ truth_word is_true }
{
    if is_true { b"true" } else { b"false" }
}
