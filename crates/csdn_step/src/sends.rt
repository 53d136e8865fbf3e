//! Packets sent from many ports.
ghost use Rattle.std.specs.Prelude.{◌≡◌, [], ◌∷◌, ◌≤◌, length, OnOk};
ghost use Rattle.csdn_core.specs.Execution.{flooded};
ghost use Rattle.csdn_step.specs.Drafts.{standing, start_of};

use crate::draft::StateDraft;
use csdn_core::terms::Pred;
use net_structs::cells::Cells;
use std::alloc::AllocError;

/// Sends a packet from every port but its own.
pub fn flood(draft: &mut StateDraft, ports: &[u64], cells: &Cells) -> Result<(), AllocError>
    ensures flooded { OnOk result (standing draft.new ≡ flooded (standing draft.old) ports.now cells.now) }
    ensures start { start_of draft.new ≡ start_of draft.old }
{
    match cells.as_slice() {
        [s, a, b, i] => flood_packet(draft, ports, *s, *a, *b, *i),
        _ => Ok(()),
    }
}

fn flood_packet(
    draft: &mut StateDraft,
    ports: &[u64],
    s: u64,
    a: u64,
    b: u64,
    i: u64,
) -> Result<(), AllocError>
    ensures flooded { OnOk result (standing draft.new ≡ flooded (standing draft.old) ports.now (s ∷ a ∷ b ∷ i ∷ [])) }
    ensures start { start_of draft.new ≡ start_of draft.old }
{
    let mut rest = ports;
    'ports: while let [o, more @ ..] = rest {
        send_other(draft, s, a, b, i, *o)?;
        rest = more;
    }
    Ok(())
}

// Sends a packet from a port, unless that is its own.
fn send_other(
    draft: &mut StateDraft,
    s: u64,
    a: u64,
    b: u64,
    i: u64,
    o: u64,
) -> Result<(), AllocError>
    ensures sent { OnOk result (standing draft.new ≡ flooded (standing draft.old) (o ∷ []) (s ∷ a ∷ b ∷ i ∷ [])) }
    ensures start { start_of draft.new ≡ start_of draft.old }
{
    if o != i {
        draft.insert(Pred::Sent, &Cells::of(&[s, a, b, i, o]))?;
    }
    Ok(())
}
