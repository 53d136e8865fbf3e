//! Which tuples are the network's, and which the state's.
#![tactic(auto)]

ghost use Rattle.std.specs.Prelude.{◌≡◌, OnOk};
ghost use Rattle.csdn_core.specs.Network.{is_fixed as is_fixed_number};
ghost use Rattle.decision_laws.specs.Classes.{is_static as is_static_relation};
ghost use Rattle.net_structs.specs.Networks.{put_in_order, static_cmp};
ghost use Rattle.net_structs.specs.Rows.{row_cmp};
ghost use Rattle.class_networks.specs.Made.{fixed_row, fixed_rows, stored_rows};

use csdn_core::program::Parts;
use csdn_core::terms::{Pred, RelId};
use net_structs::network::Network;
use net_structs::row::Row;
use net_structs::state::State;
use std::alloc::AllocError;

/// Puts the tuples of static relations into a network.
pub fn put_fixed(parts: &Parts, rows: &[Row], network: &mut Network) -> Result<(), AllocError>
    ensures { OnOk result (network.new ≡ record network.old { rows = put_in_order static_cmp network.old.rows (fixed_rows parts.now rows.now) }) }
{
    let mut rest = rows;
    'rows: while let [row, more @ ..] = rest {
        put_fixed_row(parts, row, network)?;
        rest = more;
    }
    Ok(())
}

// Puts a tuple into a network, where it is of a static relation.
fn put_fixed_row(parts: &Parts, row: &Row, network: &mut Network) -> Result<(), AllocError>
    ensures { OnOk result (network.new ≡ record network.old { rows = put_in_order static_cmp network.old.rows (fixed_row parts.now row.now) }) }
{
    match row.pred {
        Pred::Stored(rel) => {
            if is_fixed(parts, rel) {
                network.insert(rel, &row.cells)?;
            }
            Ok(())
        }
        Pred::Ft | Pred::Sent | Pred::RcvThis => Ok(()),
    }
}

/// Puts the tuples of the other relations into a state.
pub fn put_stored(parts: &Parts, rows: &[Row], state: &mut State) -> Result<(), AllocError>
    ensures { OnOk result (state.new ≡ put_in_order row_cmp state.old (stored_rows parts.now rows.now)) }
{
    let mut rest = rows;
    'rows: while let [row, more @ ..] = rest {
        if !is_static(parts, row.pred) {
            state.insert(row.pred, &row.cells)?;
        }
        rest = more;
    }
    Ok(())
}

fn is_static(parts: &Parts, pred: Pred) -> bool
    ensures { result ≡ is_static_relation parts.now pred }
{
    match pred {
        Pred::Stored(rel) => is_fixed(parts, rel),
        Pred::Ft | Pred::Sent | Pred::RcvThis => false,
    }
}

fn is_fixed(parts: &Parts, rel: RelId) -> bool
    ensures { result ≡ is_fixed_number parts.now rel.0 }
{
    match parts.relations.get(rel.0 as usize) {
        Some(relation) => relation.fixed,
        None => false,
    }
}
