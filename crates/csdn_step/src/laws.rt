//! What holds of every step, as contracts of functions that do nothing.
ghost use Rattle.std.specs.Prelude.{◌≡◌, ◌↔◌, true, Contains, IsTrue};
ghost use Rattle.csdn_core.specs.declared.event.Event.{Event as AnyEvent};
ghost use Rattle.csdn_core.specs.declared.event.Match.{Match as AnyMatch};
ghost use Rattle.csdn_core.specs.declared.program.Parts.{Parts as AnyParts};
ghost use Rattle.csdn_core.specs.Network.{IsNetwork, Network as AnyNetwork, State as AnyState};
ghost use Rattle.csdn_core.specs.Run.{Step, initial};
ghost use Rattle.csdn_core.specs.WellSorted.{IsWellSorted};
ghost use Rattle.net_structs.specs.StateTuples.{IsOfElements};
ghost use Rattle.csdn_step.specs.declared.setting.Sending.TheVariants.{Kept as KeptSending};
ghost use Rattle.csdn_step.specs.Answers.{is_enabled as is_enabled_in, is_of_network as is_of};
ghost use Rattle.csdn_step.specs.Courses.{differs, fired, from_state};
ghost use Rattle.csdn_step.specs.OfNetwork.{TellsElements};

/// The state at the start has tuples of the network's elements alone, and every step keeps it so.
pub fn steps_keep_elements()
    ensures start { (P : AnyParts) (N : AnyNetwork) → IsWellSorted P → IsNetwork P N → IsOfElements P N (initial P N) }
    ensures step { (P : AnyParts) (N : AnyNetwork) → IsWellSorted P → IsNetwork P N → (x y : AnyState) (event : AnyEvent) → Step P N x event y → IsOfElements P N x → IsOfElements P N y }
{}

/// What an event of a network's elements is told to have changed and sent names elements of the network.
pub fn tallies_name_elements()
    ensures { (P : AnyParts) (N : AnyNetwork) → IsWellSorted P → IsNetwork P N → (x : AnyState) (event : AnyEvent) → is_of N event ≡ true → TellsElements N (fired P N KeptSending event (from_state x)) }
{}

/// The matches that an event is told to have changed are exactly those whose set of outputs after it is another than before.
pub fn changed_matches_differ()
    ensures { (P : AnyParts) (N : AnyNetwork) (x : AnyState) (event : AnyEvent) → is_enabled_in P N x event ≡ true → (m : AnyMatch) → Contains (fired P N KeptSending event (from_state x)).changed m ↔ IsTrue (differs N.ports x (fired P N KeptSending event (from_state x)).state m) }
{}
