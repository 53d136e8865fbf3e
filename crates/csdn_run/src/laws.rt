//! What holds of every history, as contracts of functions that do nothing.
ghost use Rattle.std.specs.Prelude.{◌≡◌, List, true};
ghost use Rattle.csdn_core.specs.declared.program.Parts.{Parts as AnyParts};
ghost use Rattle.csdn_core.specs.Network.{IsNetwork, Network as AnyNetwork};
ghost use Rattle.csdn_core.specs.Run.{initial};
ghost use Rattle.csdn_core.specs.WellSorted.{IsWellSorted};
ghost use Rattle.csdn_history.specs.declared.entry.Entry.{Entry as AnyEntry};
ghost use Rattle.csdn_run.specs.Happenings.{IsRunTo, events};
ghost use Rattle.csdn_run.specs.OfNetwork.{IsReplyOf};
ghost use Rattle.csdn_run.specs.Replies.{reply};
ghost use Rattle.csdn_run.specs.Standings.{after, is_declared, opening};

/// The reply to an entry that is declared names elements of the network alone.
pub fn replies_name_elements()
    ensures { (P : AnyParts) (N : AnyNetwork) → IsWellSorted P → IsNetwork P N → (entries : List AnyEntry) (entry : AnyEntry) → is_declared P N entry ≡ true → IsReplyOf N (reply P N entries entry) }
{}

/// A history leads to the last state of a run of the events that its entries are, but for `sent`, which is left out.
pub fn histories_are_runs()
    ensures { (P : AnyParts) (N : AnyNetwork) → IsWellSorted P → (entries : List AnyEntry) → IsRunTo P N (initial P N) (events P N (opening P N) entries) (after P N entries).state }
{}
