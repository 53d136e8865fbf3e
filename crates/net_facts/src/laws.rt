//! Laws of network texts.
ghost use Rattle.std.specs.Prelude.{◌≡◌, ◌↔◌, ℕ, List, Result, Ok, IfOk, MatchResult};
ghost use Rattle.std.specs.List.Sorted.{IsStrictlySortedBy};
ghost use Rattle.std.specs.Ordering.{nat_cmp};
ghost use Rattle.text_lines.specs.Machine.{reading};
ghost use Rattle.text_lines.specs.declared.read.LineRefusal.{LineRefusal as AnyRefusal};
ghost use Rattle.text_lines.specs.declared.read.LineRefusal.TheVariants.{Memory};
ghost use Rattle.text_lines.specs.Gives.{Gives};
ghost use Rattle.csdn_core.specs.declared.terms.Sort.{Sort};
ghost use Rattle.csdn_core.specs.declared.program.Parts.{Parts as AnyParts};
ghost use Rattle.csdn_core.specs.Holds.{IsInductive};
ghost use Rattle.csdn_conditions.specs.Among.{IsInductiveFinitely};
ghost use Rattle.csdn_core.specs.Network.{IsNetwork, Network, State, elements};
ghost use Rattle.csdn_core.specs.WellSorted.{IsWellSorted};
ghost use Rattle.net_structs.specs.declared.case.Case.{Case as AnyCase};
ghost use Rattle.net_structs.specs.declared.read.NetParts.{NetParts as AnyNetParts};
ghost use Rattle.net_structs.specs.Networks.{static_cmp};
ghost use Rattle.net_structs.specs.Refusals.{IsAnswer};
ghost use Rattle.net_text.specs.declared.refusal.NetWhy.{NetWhy as AnyWhy};
ghost use Rattle.net_text.specs.NetText.{net_format, net_text};
ghost use Rattle.net_facts.specs.Cases.{IsCase, IsInOrder};
ghost use Rattle.net_facts.specs.Listed.{HasTruthOfList};
ghost use Rattle.net_facts.specs.Example.{quiet_program};

/// What is printed of a case reads as that case; so the reader answers it, or that there is no memory.
pub fn cases_read_back()
    ensures reading { (P : AnyParts) (case : AnyCase) → IsWellSorted P → IsCase P case → IsInOrder case → reading (net_format P) (net_text P case) ≡ Ok case }
    ensures answer { (P : AnyParts) (case : AnyCase) → IsWellSorted P → IsCase P case → IsInOrder case → (answer : Result AnyCase (AnyRefusal AnyWhy)) → Gives answer (reading (net_format P) (net_text P case)) → MatchResult answer (λ again. again ≡ case) (λ why. why ≡ Memory) }
{}

/// What a text reads as is a case of the program, in order; so it is printed and read again.
pub fn texts_give_cases()
    ensures case { (P : AnyParts) (text : List ℕ) (answer : Result AnyCase (AnyRefusal AnyWhy)) → Gives answer (reading (net_format P) text) → IfOk answer (IsCase P) }
    ensures in_order { (P : AnyParts) (text : List ℕ) (answer : Result AnyCase (AnyRefusal AnyWhy)) → Gives answer (reading (net_format P) text) → IfOk answer IsInOrder }
    ensures again { (P : AnyParts) (text : List ℕ) (answer : Result AnyCase (AnyRefusal AnyWhy)) → IsWellSorted P → Gives answer (reading (net_format P) text) → IfOk answer (λ case. reading (net_format P) (net_text P case) ≡ Ok case) }
{}

/// The network that parts are accepted as is in order.
pub fn accepted_networks_are_in_order()
    ensures elements { (P : AnyParts) (parts : AnyNetParts) (N : Network) → IsAnswer P parts (Ok N) → (s : Sort) → IsStrictlySortedBy nat_cmp (elements N s) }
    ensures rows { (P : AnyParts) (parts : AnyNetParts) (N : Network) → IsAnswer P parts (Ok N) → IsStrictlySortedBy static_cmp N.rows }
{}

/// In every network each state, whatever tuples it has, gives each well-sorted formula the truth that a list of tuples of the
/// network's elements gives it, under each assignment of elements to the variables in scope.
pub fn states_have_truth_of_lists()
    ensures { (P : AnyParts) (N : Network) → IsNetwork P N → (x : State) → HasTruthOfList P N x }
{}

/// A well-sorted program is n-inductive exactly where it is over the states of finitely many tuples.
pub fn finite_states_suffice()
    ensures { (P : AnyParts) → IsWellSorted P → (n : ℕ) → IsInductive n P ↔ IsInductiveFinitely n P }
{}

/// A program of one relation and one invariant, by hand: it is well-sorted, and 0-inductive over finite states; so it is
/// 0-inductive.
pub fn finite_states_example()
    ensures sorted { IsWellSorted quiet_program }
    ensures finitely { IsInductiveFinitely 0 quiet_program }
    ensures inductive { IsInductive 0 quiet_program }
{}
