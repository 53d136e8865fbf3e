//! From a valuation to its network and state.
#![tactic(auto)]

ghost use Rattle.std.specs.Prelude.{◌≡◌, IfOk};
ghost use Rattle.clause_log.specs.Literals.{truths};
ghost use Rattle.decision_laws.specs.Laws.{IsSentence, IsJudgement, judged};
ghost use Rattle.ground_inst.specs.Facts.{AreFactsOf};
ghost use Rattle.net_structs.specs.Networks.{in_order};
ghost use Rattle.net_structs.specs.Rows.{row_cmp};
ghost use Rattle.class_networks.specs.Cases.{IsNetworkOf, MakesTrue};
ghost use Rattle.class_networks.specs.Made.{IsMade, made_network, stored_rows};

use crate::judgement::Judgement;
use crate::numbers::{Numbers, numbers_of};
use crate::sides::{put_fixed, put_stored};
use crate::tuples::rows_of;
use crate::values::values_of;
use clause_log::Valuation;
use csdn_core::event::Packet;
use csdn_core::program::{Parts, Program};
use ground_inst::sentence::Ground;
use net_structs::case::Case;
use net_structs::network::Network;
use net_structs::row::Row;
use net_structs::state::State;
use std::alloc::{AllocError, Global};

/// The network and state of a valuation whose judgement of a sentence's facts is fair and makes its copies true, as that of a
/// valuation that makes each clause of the sentence true. Their elements are the classes of equal constants: switches and hosts from 1 on, a port with a numeral as that numeral, and the other ports as the least numbers from
/// 1 on that are no numeral. The sentence is true in them. It takes as many looks at the valuation as there are pairs of constants
/// of a sort, and a look at each true atom for each relation that the sentence uses.
pub fn network_of(
    alloc: Global,
    program: &Program,
    made: &Ground,
    valuation: &Valuation,
) -> Result<Case, AllocError>
    requires sentence { IsSentence program.now made.now.sentence }
    requires facts { AreFactsOf program.now made.now.sentence made.now.facts }
    requires judgement { IsJudgement program.now made.now.sentence (judged program.now made.now.sentence (truths valuation.now)) }
    ensures network { IfOk result (IsNetworkOf program.now made.now.sentence (truths valuation.now)) }
    ensures case { IfOk result (MakesTrue program.now made.now.sentence) }
{
    let judgement = Judgement {
        parts: program.parts(),
        facts: &made.facts,
        valuation,
    };
    case_of(alloc, program, &judgement)
}

// The network and state of a judgement of the program's facts.
fn case_of(alloc: Global, program: &Program, judgement: &Judgement) -> Result<Case, AllocError>
    ensures { IfOk result (IsMade judgement.now) }
{
    let numbers = numbers_of(alloc, judgement)?;
    let rows = rows_of(alloc, judgement, &numbers)?;
    let network = network_with(alloc, judgement.parts, &numbers, rows.as_slice())?;
    let state = state_with(alloc, program, judgement.parts, rows.as_slice())?;
    Ok(Case {
        network,
        state: Some(state),
        packet: Packet::Nothing,
    })
}

// The network whose elements are the numbers of constants, with those of these tuples that are of static relations.
fn network_with(
    alloc: Global,
    parts: &Parts,
    numbers: &Numbers,
    rows: &[Row],
) -> Result<Network, AllocError>
    ensures { IfOk result (λ network. network ≡ made_network parts.now numbers.now rows.now) }
{
    let bare = Network::bare(alloc, &numbers.switches, &numbers.hosts, &numbers.ports)?;
    let mut network = bare.with_values(values_of(alloc, parts, numbers)?);
    put_fixed(parts, rows, &mut network)?;
    Ok(network)
}

// The state with the other tuples.
fn state_with(
    alloc: Global,
    program: &Program,
    parts: &Parts,
    rows: &[Row],
) -> Result<State, AllocError>
    ensures { IfOk result (λ state. state ≡ in_order row_cmp (stored_rows parts.now rows.now)) }
{
    let mut state = State::try_empty(alloc, program)?;
    put_stored(parts, rows, &mut state)?;
    Ok(state)
}
