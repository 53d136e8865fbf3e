//! What holds of every journal, as contracts of functions that do nothing.
ghost use Rattle.std.specs.Prelude.{◌≡◌, ℕ, List, Some};
ghost use Rattle.csdn_core.specs.declared.program.Parts.{Parts as AnyParts};
ghost use Rattle.csdn_core.specs.Network.{Network as AnyNetwork, State as AnyState};
ghost use Rattle.csdn_core.specs.Run.{Run};
ghost use Rattle.csdn_run.specs.Standings.{Standing as AnyStanding};
ghost use Rattle.journal_text.specs.declared.note.Note.{Note as AnyNote};
ghost use Rattle.trace_listing.specs.declared.trace.Ending.{Ending as AnyEnding};
ghost use Rattle.trace_listing.specs.Traces.{IsTrace, events_of, traced};

/// Where every note of a journal happens, its events are a run to the last state.
pub fn traces_are_runs()
    ensures { (P : AnyParts) (N : AnyNetwork) (j : ℕ) (w : AnyStanding) (y : AnyState) (notes : List AnyNote) → (traced P N j w notes).last ≡ Some y → Run P N w.state (events_of P N w notes) y }
{}

/// A journal has one text and one ending, in each network and state.
pub fn traces_have_one_text()
    ensures { (P : AnyParts) (N : AnyNetwork) (x : AnyState) (notes : List AnyNote) (text other : List ℕ) (ending end : AnyEnding) → IsTrace P N x notes text ending → IsTrace P N x notes other end → (text ≡ other) × (ending ≡ end) }
{}
