//! Which matches have other outputs than before.
ghost use Rattle.std.specs.Prelude.{◌≡◌, ◌++◌, [], ◌∷◌, if◌then◌else◌, filter, IfOk, OnOk};
ghost use Rattle.net_structs.specs.Rows.{held};
ghost use Rattle.csdn_step.specs.Courses.{differs as differs_in, drafted, settled};
ghost use Rattle.csdn_step.specs.Drafts.{standing, start_of};

use crate::draft::StateDraft;
use csdn_core::event::{Match, Matches, Tally};
use net_structs::network::Network;
use sqlite_items::Items;
use std::alloc::{AllocError, Global};

/// The tally, of whose matches those are left that have another set of outputs than when the changes began.
pub fn settle(
    alloc: Global,
    network: &Network,
    draft: &StateDraft,
    tally: Tally,
) -> Result<Tally, AllocError>
    ensures { IfOk result (λ left. drafted draft.now left ≡ settled network.now.ports (held (start_of draft.now)) (drafted draft.now tally)) }
{
    let Tally { changed, outs } = tally;
    let changed = differing(alloc, network, draft, changed.as_slice())?;
    Ok(Tally { changed, outs })
}

fn differing(
    alloc: Global,
    network: &Network,
    draft: &StateDraft,
    matches: &[Match],
) -> Result<Matches, AllocError>
    ensures { IfOk result (λ changed. changed ≡ filter (λ m. differs_in network.now.ports (held (start_of draft.now)) (standing draft.now) m) matches.now) }
{
    let mut changed = Items::new(alloc);
    let mut rest = matches;
    'matches: while let [key, more @ ..] = rest {
        let differs = draft.differs(alloc, network, key)?;
        push_if(&mut changed, differs, *key)?;
        rest = more;
    }
    Ok(changed)
}

fn push_if(matches: &mut Matches, is_wanted: bool, key: Match) -> Result<(), AllocError>
    ensures { OnOk result (matches.new ≡ matches.old ++ (if is_wanted then key ∷ [] else [])) }
{
    if is_wanted {
        matches.push(key)?;
    }
    Ok(())
}
