//! Where a network starts.
ghost use Rattle.std.specs.Prelude.{◌≡◌, IfOk, OnOk};
ghost use Rattle.csdn_core.specs.Execution.{tuple};
ghost use Rattle.csdn_core.specs.Run.{initial as initial_of};
ghost use Rattle.net_structs.specs.Binds.{assignment};
ghost use Rattle.net_structs.specs.Rows.{held};
ghost use Rattle.csdn_step.specs.Starting.{started};

use csdn_core::event::Packet;
use csdn_core::program::{Program, StartRow};
use csdn_core::terms::{Pred, Terms};
use net_structs::cells::Cells;
use net_structs::env::Env;
use net_structs::network::Network;
use net_structs::state::State;
use net_structs::view::{View, values};
use std::alloc::{AllocError, Global};

/// The state at the start: each `rel` has the tuples that the program lists, and `ft` and `sent` are empty.
pub fn initial(alloc: Global, program: &Program, network: &Network) -> Result<State, AllocError>
    ensures { IfOk result (λ state. held state ≡ initial_of program.now network.now) }
{
    let mut state = State::try_empty(alloc, program)?;
    let env = Env::try_new(alloc, 0)?;
    put_rows(
        program,
        network,
        &mut state,
        &env,
        program.parts().start.as_slice(),
    )?;
    Ok(state)
}

// Puts the tuples of rows into their relations.
fn put_rows(
    program: &Program,
    network: &Network,
    state: &mut State,
    env: &Env,
    rows: &[StartRow],
) -> Result<(), AllocError>
    ensures { OnOk result (held state.new ≡ started program.now network.now (assignment env.now.pairs) rows.now (held state.old)) }
{
    let mut rest = rows;
    'rows: while let [row, more @ ..] = rest {
        let cells = cells_of(program, network, state, env, &row.terms);
        state.insert(Pred::Stored(row.rel), &cells)?;
        rest = more;
    }
    Ok(())
}

// The tuple that a list of terms stands for.
fn cells_of(program: &Program, network: &Network, state: &State, env: &Env, terms: &Terms) -> Cells
    ensures { result ≡ tuple program.now network.now terms.now (assignment env.now.pairs) (held state.now) }
{
    let view = View::whole(program, network, state, &Packet::Nothing);
    values(&view, env, terms.as_slice())
}
