//! What holds of the conditions of every program.
ghost use Rattle.std.specs.Prelude.{◌≡◌, ◌↔◌, ◌<◌, ℕ, List, length, IsTrue, IsFalse, Some, slice_get};
ghost use Rattle.csdn_core.specs.declared.program.Parts.{Parts as AnyParts};
ghost use Rattle.csdn_core.specs.declared.event.Event.{Event as AnyEvent};
ghost use Rattle.csdn_core.specs.declared.event.Packet.{Packet as AnyPacket};
ghost use Rattle.csdn_core.specs.declared.event.Packet.TheVariants.{Nothing};
ghost use Rattle.csdn_core.specs.declared.syntax.Formula.{Formula as AnyFormula};
ghost use Rattle.csdn_core.specs.Truth.{truth};
ghost use Rattle.csdn_core.specs.Network.{Network, State, IsNetwork, structure};
ghost use Rattle.csdn_core.specs.Holds.{IsInductive, IsTopology};
ghost use Rattle.csdn_core.specs.Run.{no_values, Run};
ghost use Rattle.csdn_core.specs.WellSorted.{IsWellSorted};
ghost use Rattle.csdn_conditions.specs.declared.kinds.CondKind.TheVariants.{Network as NetworkKind};
ghost use Rattle.csdn_conditions.specs.declared.sentence.Condition.{Condition as AnyCondition};
ghost use Rattle.csdn_conditions.specs.Start.{start};
ghost use Rattle.csdn_conditions.specs.Conditions.{condition, conditions, after_events, sentence};
ghost use Rattle.csdn_conditions.specs.Closed.{IsClosed};
ghost use Rattle.csdn_core.specs.Satisfied.{HasNetwork};
ghost use Rattle.csdn_conditions.specs.Valid.{IsValid, HasCase};
ghost use Rattle.csdn_conditions.specs.Initial.{IsInitial};

/// `start` is true in a state exactly where the state is the initial one, as far as a network's elements go.
pub fn start_is_initial()
    ensures { (P : AnyParts) → IsWellSorted P → (N : Network) (x : State) (packet : AnyPacket) → IsTrue (truth (structure P N x packet) (start P) no_values) ↔ IsInitial P N x }
{}

/// The hypothesis and the goal of each condition are sentences: well-sorted, without free variables and without `rcv_this`.
pub fn conditions_are_closed()
    ensures { (P : AnyParts) → IsWellSorted P → (n i : ℕ) (c : AnyCondition) → slice_get (conditions P n) i ≡ Some c → IsClosed P c.hypothesis × IsClosed P c.goal }
{}

/// The first condition of a level is valid exactly where no network meets the topology invariants. A well-sorted program is
/// n-inductive exactly where each other condition of level n is valid.
pub fn conditions_are_exact()
    ensures network { (P : AnyParts) → IsWellSorted P → (n : ℕ) → IsValid P (condition P n NetworkKind) ↔ ((N : Network) → IsTopology P N → ⊥) }
    ensures sound { (P : AnyParts) → IsWellSorted P → (n : ℕ) → ((i : ℕ) (c : AnyCondition) → slice_get (conditions P n) i ≡ Some c → 0 < i → IsValid P c) → IsInductive n P }
    ensures complete { (P : AnyParts) → IsWellSorted P → (n : ℕ) → IsInductive n P → (i : ℕ) (c : AnyCondition) → slice_get (conditions P n) i ≡ Some c → 0 < i → IsValid P c }
{}

/// What a formula comes to after k events is true in a state exactly where every run of k events from it ends where the
/// formula is true; and where it is false, some such run ends where the formula is false.
pub fn after_events_are_exact()
    ensures exact { (P : AnyParts) → IsWellSorted P → (N : Network) → IsNetwork P N → (k : ℕ) (q : AnyFormula) → IsClosed P q → (x : State) → IsTrue (truth (structure P N x Nothing) (after_events P k q) no_values) ↔ ((events : List AnyEvent) (y : State) → length events ≡ k → Run P N x events y → IsTrue (truth (structure P N y Nothing) q no_values)) }
    ensures breaks { (P : AnyParts) → IsWellSorted P → (N : Network) → IsNetwork P N → (k : ℕ) (q : AnyFormula) → IsClosed P q → (x : State) → IsFalse (truth (structure P N x Nothing) (after_events P k q) no_values) → (events : List AnyEvent) × (y : State) × (length events ≡ k) × Run P N x events y × IsFalse (truth (structure P N y Nothing) q no_values) }
{}

/// A condition has a case exactly where some network and state make its sentence true, and is valid exactly where it has none.
/// The first condition of a level has one exactly where some network meets the topology invariants. The sentence is closed
/// where the hypothesis and the goal are.
pub fn cases_break_conditions()
    ensures sentence { (P : AnyParts) (c : AnyCondition) → HasCase P c ↔ HasNetwork P (sentence c) }
    ensures closed { (P : AnyParts) (c : AnyCondition) → IsClosed P c.hypothesis → IsClosed P c.goal → IsClosed P (sentence c) }
    ensures valid { (P : AnyParts) (c : AnyCondition) → IsValid P c ↔ (HasCase P c → ⊥) }
    ensures network { (P : AnyParts) → IsWellSorted P → (n : ℕ) → HasCase P (condition P n NetworkKind) ↔ ((N : Network) × IsTopology P N) }
{}
