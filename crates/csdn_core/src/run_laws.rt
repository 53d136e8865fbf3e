//! What holds of the runs of every program, each law as the contract of a function that does nothing: they say in other
//! words what the definitions mean.
ghost use Rattle.std.specs.Prelude.{◌≡◌, ◌↔◌, List};
ghost use Rattle.csdn_core.specs.declared.event.Event.{Event as AnyEvent};
ghost use Rattle.csdn_core.specs.declared.program.Parts.{Parts as AnyParts};
ghost use Rattle.csdn_core.specs.declared.event.Packet.{Packet as AnyPacket};
ghost use Rattle.csdn_core.specs.declared.terms.FormulaPlace.{FormulaPlace};
ghost use Rattle.csdn_core.specs.declared.syntax.Formula.{Formula as AnyFormula};
ghost use Rattle.csdn_core.specs.Truth.{Structure, Assignment, truth};
ghost use Rattle.csdn_core.specs.Network.{Network, State, structure, IsNetwork};
ghost use Rattle.csdn_core.specs.Run.{initial, no_values, Run};
ghost use Rattle.csdn_core.specs.Sorted.{Signature, IsAllowed};
ghost use Rattle.csdn_core.specs.SortedIn.{Scope, any_relation, no_scope, IsSortedIn};
ghost use Rattle.csdn_core.specs.WellSorted.{signature};
ghost use Rattle.csdn_core.specs.Agreement.{IsStructureOf, AgreeOn, AgreeInScope, AgreeOnElements};
ghost use Rattle.csdn_core.specs.Holds.{Holds};
ghost use Rattle.csdn_core.specs.History.{HoldsInAllHistories};
ghost use Rattle.csdn_core.specs.Finite.{IsFinite};

/// A program keeps its invariants exactly where, in every network that meets its topology invariants and in every history
/// from the initial state, each safety invariant is true in every state and each transition invariant after every event.
/// A history is a list of events and a list of states, one longer, whose neighbours are steps.
pub fn holds_in_histories()
    ensures { (P : AnyParts) → Holds P ↔ HoldsInAllHistories P }
{}

/// Every state that a run reaches has finitely many tuples.
pub fn reached_states_are_finite()
    ensures { (P : AnyParts) (N : Network) (events : List AnyEvent) (y : State) → Run P N (initial P N) events y → IsFinite y }
{}

/// Truth looks only at what a formula names: in two structures that have the same elements, constants and, in the
/// relations that a well-sorted formula may name at its place, the same tuples of elements, and under two assignments that
/// give the variables in scope the same elements of their sorts, the formula has the same truth.
pub fn truth_sees_what_is_named()
    ensures { (S : Signature) (place : FormulaPlace) (M K : Structure) → IsStructureOf S M → AgreeOn S (IsAllowed S place) M K → (scope : Scope) (p : AnyFormula) (e d : Assignment) → IsSortedIn S (IsAllowed S place) scope p → AgreeInScope M scope e d → truth M p e ≡ truth K p d }
{}

/// Truth looks only at tuples of a network's elements: in two states that agree on them, a well-sorted sentence has the
/// same truth.
pub fn truth_looks_at_elements()
    ensures { (P : AnyParts) (N : Network) → IsNetwork P N → (x y : State) → AgreeOnElements P N x y → (packet : AnyPacket) (p : AnyFormula) → IsSortedIn (signature P) any_relation no_scope p → truth (structure P N x packet) p no_values ≡ truth (structure P N y packet) p no_values }
{}
