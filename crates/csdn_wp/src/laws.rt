//! What weakest preconditions are true of.
ghost use Rattle.std.specs.Prelude.{◌≡◌, ◌≢◌, ℕ, ◌↔◌, List, IsTrue, IsFalse, is_some};
ghost use Rattle.csdn_core.specs.declared.terms.FormulaPlace.{FormulaPlace};
ghost use Rattle.csdn_core.specs.declared.terms.FormulaPlace.TheVariants.{Trans};
ghost use Rattle.csdn_core.specs.declared.event.Packet.{Packet as AnyPacket};
ghost use Rattle.csdn_core.specs.Variables.{free_in};
ghost use Rattle.csdn_core.specs.declared.event.Event.TheVariants.{PktIn, PktFlow, Expire};
ghost use Rattle.csdn_core.specs.declared.event.Packet.TheVariants.{Nothing, At};
ghost use Rattle.csdn_core.specs.declared.program.Parts.{Parts as AnyParts};
ghost use Rattle.csdn_core.specs.declared.syntax.Formula.{Formula as AnyFormula};
ghost use Rattle.csdn_core.specs.declared.syntax.Command.{Command as AnyCommand};
ghost use Rattle.csdn_core.specs.Truth.{Assignment, truth};
ghost use Rattle.csdn_core.specs.Network.{Network, State, IsNetwork, structure};
ghost use Rattle.csdn_core.specs.Run.{Step, no_values};
ghost use Rattle.csdn_core.specs.Sorted.{Bind};
ghost use Rattle.csdn_core.specs.WellSorted.{IsSorted, IsWellSorted, signature};
ghost use Rattle.csdn_wp.specs.Preconditions.{wp};
ghost use Rattle.csdn_wp.specs.EventPreconditions.{wp_in, wp_flow, wp_expire};
ghost use Rattle.csdn_wp.specs.After.{MayPrecede, IsPrecondition, BreaksBefore};
ghost use Rattle.csdn_core.specs.SortedIn.{no_scope, any_relation, no_rcv_this, IsSortedIn};

/// A command's precondition is true in a state, under an assignment, exactly where every execution of the command from that
/// state ends where the formula is true. The command is one of the program in a scope, whose variables have elements of their
/// sorts; no variable of the command is bound in the formula. Where the precondition is false, some execution ends where the
/// formula is false.
pub fn wp_is_exact()
    ensures exact { (P : AnyParts) (bs : List Bind) (c : AnyCommand) (q : AnyFormula) → MayPrecede P bs c q → IsPrecondition P bs c q (wp c q) }
    ensures breaks { (P : AnyParts) (bs : List Bind) (c : AnyCommand) (q : AnyFormula) → MayPrecede P bs c q → BreaksBefore P bs c q (wp c q) }
{}

/// The precondition of packets that come in is true in a state exactly where the formula is true after each of them, with the
/// event's packet; where it is false, some packet ends where the formula is false. It is a well-sorted sentence again, and
/// doesn't speak of the packet.
pub fn wp_in_is_exact()
    ensures exact { (P : AnyParts) → IsWellSorted P → (N : Network) → IsNetwork P N → (q : AnyFormula) → IsSortedIn (signature P) any_relation no_scope q → (x : State) → IsTrue (truth (structure P N x Nothing) (wp_in P q) no_values) ↔ ((s a b i : ℕ) (y : State) → Step P N x (PktIn s a b i) y → IsTrue (truth (structure P N y (At s a b i)) q no_values)) }
    ensures breaks { (P : AnyParts) → IsWellSorted P → (N : Network) → IsNetwork P N → (q : AnyFormula) → IsSortedIn (signature P) any_relation no_scope q → (x : State) → IsFalse (truth (structure P N x Nothing) (wp_in P q) no_values) → (s : ℕ) × (a : ℕ) × (b : ℕ) × (i : ℕ) × (y : State) × Step P N x (PktIn s a b i) y × IsFalse (truth (structure P N y (At s a b i)) q no_values) }
    ensures sentence { (P : AnyParts) → IsWellSorted P → (q : AnyFormula) → IsSortedIn (signature P) any_relation no_scope q → IsSortedIn (signature P) no_rcv_this no_scope (wp_in P q) }
{}

/// The precondition of packets that a flow table sends is true in a state exactly where the formula is true after each of
/// them, with the event's packet; where it is false, some such packet ends where the formula is false. It is a well-sorted
/// sentence again, and doesn't speak of the packet.
pub fn wp_flow_is_exact()
    ensures exact { (P : AnyParts) (N : Network) (q : AnyFormula) → IsSortedIn (signature P) any_relation no_scope q → (x : State) → IsTrue (truth (structure P N x Nothing) (wp_flow q) no_values) ↔ ((s a b i o : ℕ) (y : State) → Step P N x (PktFlow s a b i o) y → IsTrue (truth (structure P N y (At s a b i)) q no_values)) }
    ensures breaks { (P : AnyParts) (N : Network) (q : AnyFormula) → IsSortedIn (signature P) any_relation no_scope q → (x : State) → IsFalse (truth (structure P N x Nothing) (wp_flow q) no_values) → (s : ℕ) × (a : ℕ) × (b : ℕ) × (i : ℕ) × (o : ℕ) × (y : State) × Step P N x (PktFlow s a b i o) y × IsFalse (truth (structure P N y (At s a b i)) q no_values) }
    ensures sentence { (P : AnyParts) (q : AnyFormula) → IsSortedIn (signature P) any_relation no_scope q → IsSortedIn (signature P) no_rcv_this no_scope (wp_flow q) }
{}

/// Where the program has a timeout, the precondition of expiries is true in a state exactly where the formula is true, without
/// a packet, after the rules of any match have ended; where it is false, some expiry ends where the formula is false. It is a
/// well-sorted sentence again, and doesn't speak of the packet.
pub fn wp_expire_is_exact()
    ensures exact { (P : AnyParts) (N : Network) (q : AnyFormula) → IsSortedIn (signature P) any_relation no_scope q → IsTrue (is_some P.timeout) → (x : State) → IsTrue (truth (structure P N x Nothing) (wp_expire q) no_values) ↔ ((s a b i : ℕ) (y : State) → Step P N x (Expire s a b i) y → IsTrue (truth (structure P N y Nothing) q no_values)) }
    ensures breaks { (P : AnyParts) (N : Network) (q : AnyFormula) → IsSortedIn (signature P) any_relation no_scope q → IsTrue (is_some P.timeout) → (x : State) → IsFalse (truth (structure P N x Nothing) (wp_expire q) no_values) → (s : ℕ) × (a : ℕ) × (b : ℕ) × (i : ℕ) × (y : State) × Step P N x (Expire s a b i) y × IsFalse (truth (structure P N y Nothing) q no_values) }
    ensures sentence { (P : AnyParts) (q : AnyFormula) → IsSortedIn (signature P) any_relation no_scope q → IsSortedIn (signature P) no_rcv_this no_scope (wp_expire q) }
{}

/// What may stand as an invariant is a well-sorted sentence; outside of transition invariants it doesn't speak of the packet.
pub fn invariants_are_sentences()
    ensures any { (P : AnyParts) (F : AnyFormula) (place : FormulaPlace) → IsSorted (signature P) place F → IsSortedIn (signature P) any_relation no_scope F }
    ensures quiet { (P : AnyParts) (F : AnyFormula) (place : FormulaPlace) → IsSorted (signature P) place F → place ≢ Trans → IsSortedIn (signature P) no_rcv_this no_scope F }
{}

/// No variable is free in a well-sorted sentence. One that doesn't speak of the packet is one of any kind, so that its own
/// preconditions are sentences too, and has the same truth with every packet.
pub fn sentences_stand_alone()
    ensures closed { (P : AnyParts) (F : AnyFormula) → IsSortedIn (signature P) any_relation no_scope F → (v : ℕ) → IsFalse (free_in F v) }
    ensures any { (P : AnyParts) (F : AnyFormula) → IsSortedIn (signature P) no_rcv_this no_scope F → IsSortedIn (signature P) any_relation no_scope F }
    ensures packet { (P : AnyParts) (N : Network) (x : State) (packet : AnyPacket) (F : AnyFormula) (e : Assignment) → IsSortedIn (signature P) no_rcv_this no_scope F → truth (structure P N x packet) F e ≡ truth (structure P N x Nothing) F e }
{}
