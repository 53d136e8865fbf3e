//! Laws as contracts of functions that do nothing.
ghost use Rattle.std.specs.Prelude.{◌≡◌, ◌≢◌, ◌↔◌, ℕ, ◌+◌, ◌<◌, ◌==◌, Bool, true, List, [], ◌∷◌, ◌++◌, length, max, AllPairs, IsTrue};
ghost use Rattle.std.specs.List.{list_all};
ghost use Rattle.csdn_core.specs.declared.terms.Sort.{Sort as AnySort};
ghost use Rattle.csdn_core.specs.declared.terms.Sort.TheVariants.{Pr};
ghost use Rattle.csdn_core.specs.declared.program.Parts.{Parts as AnyParts};
ghost use Rattle.csdn_core.specs.declared.syntax.Formula.{Formula as AnyFormula};
ghost use Rattle.csdn_core.specs.Network.{Network, State, IsNetwork, elements};
ghost use Rattle.csdn_core.specs.Members.{IsIn};
ghost use Rattle.clause_log.specs.Literals.{IsModel, Literal, clause_true, is_clause};
ghost use Rattle.clause_log.specs.Refutations.{Step, is_refutation};
ghost use Rattle.fol_forms.specs.Forms.{Form, form_of};
ghost use Rattle.fol_forms.specs.Constants.{counts, instances};
ghost use Rattle.decision_laws.specs.Vocabulary.{Vocabulary, places_from};
ghost use Rattle.decision_laws.specs.Copies.{AreBelow, Fact, Scope, copies, judge};
ghost use Rattle.decision_laws.specs.Classes.{Meaning, AreOfJudgement, ListTheSame, number, network_of, state_of};
ghost use Rattle.decision_laws.specs.Clauses.{size, IsNaming};
ghost use Rattle.decision_laws.specs.Numbers.{tuple_count, tuple_of};
ghost use Rattle.decision_laws.specs.Weights.{weight};
ghost use Rattle.decision_laws.specs.Sublists.{ArePart, AreBroken, left_of};
ghost use Rattle.decision_laws.specs.Example.{program, sentence, r, example_counts, example_copies, example_node_clauses, example_equality_clauses, example_judgement, example_network, small_program, contradiction, contradiction_clauses, contradiction_log, first_clauses, seven_and_nine, broken_clauses, reordered_network};
ghost use Rattle.csdn_core.specs.Satisfied.{IsTrueIn, HasNetwork};
ghost use Rattle.decision_laws.specs.Laws.{words, sentence_copies, IsSentence, IsJudgement, AgreesOnNames, naming, name, judged, atoms, clauses, AreTied, AreTiedBy, HasModel};
ghost use Rattle.decision_laws.specs.Simplified.{simplified};

/// A sentence that is true in a network and state has a fair judgement of its copies.
pub fn network_gives_judgement()
    ensures { (P : AnyParts) (F : AnyFormula) → IsSentence P F → (N : Network) (x : State) → IsNetwork P N → IsTrueIn P F N x → (j : Fact → Bool) × IsJudgement P F j × AgreesOnNames P F N x j }
{}

/// The classes of equal constants of a fair judgement that makes the copies true are the elements of a network and state in
/// which the sentence is true, in whatever order they are listed.
pub fn judgement_gives_network()
    ensures network { (P : AnyParts) (F : AnyFormula) (j : Fact → Bool) → IsSentence P F → IsJudgement P F j → IsNetwork P (network_of P (form_of F) j) × IsTrueIn P F (network_of P (form_of F) j) (state_of P (form_of F) j) }
    ensures numbers { (P : AnyParts) (F : AnyFormula) (j : Fact → Bool) → IsJudgement P F j → AreOfJudgement P (form_of F) j (number P (form_of F) j) (network_of P (form_of F) j) (state_of P (form_of F) j) }
    ensures counted { (P : AnyParts) (F : AnyFormula) (j : Fact → Bool) → IsJudgement P F j → (s : AnySort) → s ≢ Pr → elements (network_of P (form_of F) j) s ≡ places_from 1 (length (elements (network_of P (form_of F) j) s)) }
    ensures listed { (P : AnyParts) (F : AnyFormula) (j : Fact → Bool) → IsJudgement P F j → (N : Network) → ListTheSame (network_of P (form_of F) j) N → ((s : AnySort) → AllPairs (λ m n. m ≢ n) (elements N s)) → IsNetwork P N × AreOfJudgement P (form_of F) j (number P (form_of F) j) N (state_of P (form_of F) j) }
    ensures any { (P : AnyParts) (F : AnyFormula) (j : Fact → Bool) (ρ : Meaning) (N : Network) (x : State) → IsSentence P F → IsJudgement P F j → AreOfJudgement P (form_of F) j ρ N x → IsTrueIn P F N x }
    ensures names { (P : AnyParts) (F : AnyFormula) (j : Fact → Bool) (ρ : Meaning) (N : Network) (x : State) → AreOfJudgement P (form_of F) j ρ N x → AgreesOnNames P F N x j }
{}

/// The clauses of a sentence are tied to it, and have a model exactly where a fair judgement makes its copies true.
pub fn clauses_have_models()
    ensures model { (P : AnyParts) (F : AnyFormula) → IsSentence P F → (v : ℕ → Bool) → IsModel v (clauses P F) → IsJudgement P F (judged P F v) }
    ensures judged { (P : AnyParts) (F : AnyFormula) → IsSentence P F → (j : Fact → Bool) → IsJudgement P F j → IsModel (λ x. judge j (name P F x)) (clauses P F) }
    ensures tied { (P : AnyParts) (F : AnyFormula) → IsSentence P F → AreTiedBy P F (name P F) (clauses P F) }
    ensures bounded { (P : AnyParts) (F : AnyFormula) → IsSentence P F → IsTrue (list_all (is_clause (atoms P F)) (clauses P F)) }
    ensures network { (P : AnyParts) (F : AnyFormula) → IsSentence P F → HasModel (clauses P F) ↔ HasNetwork P F }
{}

/// Clauses that are tied to a sentence, by any names, have a model where the sentence has a network, so that it has none where
/// a log refutes them.
pub fn tied_clauses_have_models()
    ensures model { (P : AnyParts) (F : AnyFormula) → IsSentence P F → (cs : List (List Literal)) → AreTied P F cs → HasNetwork P F → HasModel cs }
    ensures refuted { (P : AnyParts) (F : AnyFormula) → IsSentence P F → (cs : List (List Literal)) (steps : List Step) → AreTied P F cs → IsTrue (is_refutation cs steps) → HasNetwork P F → ⊥ }
{}

/// The copies of a form have as many nodes wherever they are made: fewer than the instances of the sentence, so that one with at
/// most 16,777,216 instances has at most 16,777,215 nodes.
pub fn copies_have_weights()
    ensures few { (P : AnyParts) (F : AnyFormula) → size (sentence_copies P F) < max 1 (instances (counts P F) (form_of F)) }
    ensures weight { (voc : Vocabulary) (n : AnySort → ℕ) (f : Form) (env : Scope) (base : AnySort → ℕ) → size (copies voc n f env base) ≡ weight n f }
{}

/// The numbers of atoms need no table: each fact over the constants has one, which leads back. A number below the count of a
/// relation's tuples is that of a tuple of constants.
pub fn numbers_name_facts()
    ensures facts { (P : AnyParts) (F : AnyFormula) → IsNaming (words P F) (counts P F) (naming P F) }
    ensures tuples { (n : AnySort → ℕ) (ss : List AnySort) (k : ℕ) → k < tuple_count n ss → AreBelow n ss (tuple_of n ss k) }
{}

/// Some of the clauses, each once, are tied and have a model where the sentence has a network. Clauses that a model of them
/// breaks are new, and so many fewer are left.
pub fn some_clauses_suffice()
    ensures tied { (P : AnyParts) (F : AnyFormula) → IsSentence P F → (cs : List (List Literal)) → ArePart (clauses P F) cs → AreTiedBy P F (name P F) cs }
    ensures model { (P : AnyParts) (F : AnyFormula) → IsSentence P F → (cs : List (List Literal)) → ArePart (clauses P F) cs → HasNetwork P F → HasModel cs }
    ensures whole { (whole cs : List (List Literal)) (v : ℕ → Bool) → ((c : List Literal) → IsIn c whole → IsTrue (clause_true v c)) → IsModel v whole }
    ensures part { (whole cs new : List (List Literal)) (v : ℕ → Bool) → ArePart whole cs → IsModel v cs → AreBroken whole v new → ArePart whole (cs ++ new) }
    ensures left { (whole cs new : List (List Literal)) (v : ℕ → Bool) → ArePart whole cs → IsModel v cs → AreBroken whole v new → left_of whole (cs ++ new) + length new ≡ left_of whole cs }
{}

/// The definitions at a worked example, computed by hand: the step condition of a program that keeps a relation of hosts to
/// one host at most. Its constants, its copies and its clauses; and a judgement that makes the copies true, with its network,
/// in which four constants are two hosts.
pub fn uniqueness_example()
    ensures counts { (s : AnySort) → counts program sentence s ≡ example_counts s }
    ensures copies { sentence_copies program sentence ≡ example_copies }
    ensures weight { weight (counts program sentence) (simplified (form_of sentence)) ≡ 42 }
    ensures sentence { IsSentence program sentence }
    ensures atoms { atoms program sentence ≡ 64 }
    ensures clauses { clauses program sentence ≡ example_node_clauses ++ example_equality_clauses }
    ensures judgement { IsJudgement program sentence example_judgement }
    ensures network { network_of program (form_of sentence) example_judgement ≡ example_network }
    ensures state { (a : ℕ) → state_of program (form_of sentence) example_judgement r (a ∷ []) ≡ (a == 2) }
{}

/// The clauses of a contradiction, computed by hand, and a log that refutes them: it has no network.
pub fn contradiction_example()
    ensures sentence { IsSentence small_program contradiction }
    ensures clauses { clauses small_program contradiction ≡ contradiction_clauses }
    ensures refuted { IsTrue (is_refutation contradiction_clauses contradiction_log) }
    ensures network { HasNetwork small_program contradiction → ⊥ }
{}

/// Clauses of the contradiction as they are asked for, by hand: two of them are tied to it, and a model of the two breaks a
/// third, which is new, so that five of eight are left.
pub fn clauses_on_demand_example()
    ensures part { ArePart contradiction_clauses first_clauses }
    ensures tied { AreTiedBy small_program contradiction (name small_program contradiction) first_clauses }
    ensures model { IsModel seven_and_nine first_clauses }
    ensures broken { AreBroken contradiction_clauses seven_and_nine broken_clauses }
    ensures before { left_of contradiction_clauses first_clauses ≡ 6 }
    ensures after { left_of contradiction_clauses (first_clauses ++ broken_clauses) ≡ 5 }
{}

/// The network of the worked example with its hosts listed in another order, by hand: it is one of the program and of the
/// judgement too, and the sentence is true in it.
pub fn another_order_example()
    ensures same { ListTheSame example_network reordered_network }
    ensures network { IsNetwork program reordered_network }
    ensures judgement { AreOfJudgement program (form_of sentence) example_judgement (number program (form_of sentence) example_judgement) reordered_network (state_of program (form_of sentence) example_judgement) }
    ensures holds { IsTrueIn program sentence reordered_network (state_of program (form_of sentence) example_judgement) }
{}
