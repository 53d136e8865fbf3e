//! What holds of the answers to every program, as contracts of functions that do nothing.
ghost use Rattle.std.specs.Prelude.{◌↔◌, ℕ, IsTrue};
ghost use Rattle.csdn_core.specs.declared.program.Parts.{Parts as AnyParts};
ghost use Rattle.csdn_core.specs.WellSorted.{IsWellSorted};
ghost use Rattle.vericon_decide.specs.declared.answer.Answer.{Answer as AnyAnswer};
ghost use Rattle.vericon_decide.specs.Answers.{IsAnswer, AreOne, IsYesAt, IsLeastProvable, IsProvableWithin, IsUnmeetable, IsBreakable, is_counter, is_unknown, is_no_network};

/// Two answers to one program are one: of the same variant, level, number and reason.
pub fn answers_exclude()
    ensures { (P : AnyParts) (size most : ℕ) (a b : AnyAnswer) → IsAnswer P size most a → IsAnswer P size most b → AreOne a b }
{}

/// When each answer comes. No network: exactly where the network condition can be decided and no network meets the topology
/// invariants. Yes at a level: exactly where it is the least, of at most `most`, each of whose conditions can be decided, at which
/// the program is inductive, and some network meets the topology invariants. A counterexample: exactly where neither of these
/// holds, and a condition of level `most` other than the network condition can be decided and has a case. Unknown: exactly where
/// none of these holds.
pub fn answers_are_exact()
    ensures no_network { (P : AnyParts) (size most : ℕ) (a : AnyAnswer) → IsAnswer P size most a → IsTrue (is_no_network a) ↔ IsUnmeetable P size }
    ensures yes { (P : AnyParts) → IsWellSorted P → (size most : ℕ) (a : AnyAnswer) → IsAnswer P size most a → (n : ℕ) → IsYesAt n a ↔ IsLeastProvable P size most n }
    ensures counter { (P : AnyParts) → IsWellSorted P → (size most : ℕ) (a : AnyAnswer) → IsAnswer P size most a → IsTrue (is_counter a) ↔ ((IsUnmeetable P size → ⊥) × (IsProvableWithin P size most → ⊥) × IsBreakable P size most) }
    ensures unknown { (P : AnyParts) → IsWellSorted P → (size most : ℕ) (a : AnyAnswer) → IsAnswer P size most a → IsTrue (is_unknown a) ↔ ((IsUnmeetable P size → ⊥) × (IsProvableWithin P size most → ⊥) × (IsBreakable P size most → ⊥)) }
{}
