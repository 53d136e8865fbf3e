//! What the forms are true of.
ghost use Rattle.std.specs.Prelude.{◌≡◌, ◌↔◌, ◌<◌, ℕ, Bool, length, List, [], ◌∷◌, IsTrue};
ghost use Rattle.csdn_core.specs.declared.terms.Term.{Term as AnyTerm};
ghost use Rattle.csdn_core.specs.declared.terms.Pred.{Pred as AnyPred};
ghost use Rattle.csdn_core.specs.declared.terms.Pred.TheVariants.{Ft, RcvThis};
ghost use Rattle.csdn_core.specs.declared.syntax.Formula.{Formula as AnyFormula};
ghost use Rattle.csdn_core.specs.SortedIn.{Scope};
ghost use Rattle.csdn_core.specs.Truth.{Structure, Assignment, truth, values};
ghost use Rattle.csdn_core.specs.Variables.{vars_of, free_in, BindsOutside};
ghost use Rattle.fol_forms.specs.Forms.{Form, normal_form, signed};
ghost use Rattle.fol_forms.specs.Forms.{form_of};
ghost use Rattle.fol_forms.specs.declared.close.Bind.{Bind as AnyBind};
ghost use Rattle.fol_forms.specs.Closed.{closed, IsTrueForAll};
ghost use Rattle.fol_forms.specs.Renumber.{renumber};
ghost use Rattle.fol_forms.specs.Replace.{add_row, drop_row, drop_match, add_flood, fix_packet, no_packet};
ghost use Rattle.fol_forms.specs.Substitution.{AllFit, KeepsSorts, SendsToPorts, with_row, without_row, without_match, with_flood, with_packet, without_packet};
ghost use Rattle.fol_forms.specs.Written.{written};

/// A normal form has the formula's truth, or that of its negation; and it is its own normal form.
pub fn normal_forms_keep_truth()
    ensures truth { (M : Structure) (sign : Bool) (F : AnyFormula) (e : Assignment) → truth M (written (normal_form sign F)) e ≡ signed sign (truth M F e) }
    ensures again { (p : Form) → form_of (written p) ≡ p }
{}

/// `add_row` is true exactly where the formula is true once the tuple is in the relation, where no variable of the terms is
/// bound in the formula and the relation's atoms have as many terms.
pub fn add_row_is_exact()
    ensures { (M : Structure) (r : AnyPred) (ts : List AnyTerm) (e : Assignment) (F : AnyFormula) → AllFit r (length ts) F → BindsOutside (vars_of ts) F → truth M (add_row F r ts) e ≡ truth (with_row M r (values M e ts)) F e }
{}

/// `drop_row` is true exactly where the formula is true once the tuple is out of the relation.
pub fn drop_row_is_exact()
    ensures { (M : Structure) (r : AnyPred) (ts : List AnyTerm) (e : Assignment) (F : AnyFormula) → AllFit r (length ts) F → BindsOutside (vars_of ts) F → truth M (drop_row F r ts) e ≡ truth (without_row M r (values M e ts)) F e }
{}

/// `fix_packet` is true exactly where the formula is true when the packet is the tuple.
pub fn fix_packet_is_exact()
    ensures { (M : Structure) (ts : List AnyTerm) (e : Assignment) (F : AnyFormula) → AllFit RcvThis (length ts) F → BindsOutside (vars_of ts) F → truth M (fix_packet F ts) e ≡ truth (with_packet M (values M e ts)) F e }
{}

/// `no_packet` is true exactly where the formula is true when there is no packet.
pub fn no_packet_is_exact()
    ensures { (M : Structure) (e : Assignment) (F : AnyFormula) → truth M (no_packet F) e ≡ truth (without_packet M) F e }
{}

/// `drop_match` is true exactly where the formula is true once every rule of the match is out of the flow tables, where each
/// atom of `ft` has five terms.
pub fn drop_match_is_exact()
    ensures { (M : Structure) (s a b i : AnyTerm) (e : Assignment) (F : AnyFormula) → AllFit Ft 5 F → BindsOutside (vars_of (s ∷ a ∷ b ∷ i ∷ [])) F → truth M (drop_match F (s ∷ a ∷ b ∷ i ∷ [])) e ≡ truth (without_match M (values M e (s ∷ a ∷ b ∷ i ∷ []))) F e }
{}

/// `add_flood` is true exactly where the formula is true once the packet was sent from every port but its own. Here sorts
/// matter: each atom of `sent` has five terms, the last of which stands for a port, and each variable in scope has an element
/// of its sort.
pub fn add_flood_is_exact()
    ensures { (M : Structure) (s a b i : AnyTerm) (e : Assignment) (F : AnyFormula) (Γ : Scope) → SendsToPorts M Γ F → BindsOutside (vars_of (s ∷ a ∷ b ∷ i ∷ [])) F → KeepsSorts M Γ e → truth M (add_flood F (s ∷ a ∷ b ∷ i ∷ [])) e ≡ truth (with_flood M (values M e (s ∷ a ∷ b ∷ i ∷ []))) F e }
{}

/// `renumber` keeps truth, where no free variable of the formula has a number from `from` on.
pub fn renumber_keeps_truth()
    ensures { (M : Structure) (F : AnyFormula) (from : ℕ) (e : Assignment) → ((v : ℕ) → IsTrue (free_in F v) → v < from) → truth M (renumber F from) e ≡ truth M F e }
{}

/// `close` is true exactly where the formula is true for all values of its binds.
pub fn close_is_exact()
    ensures { (M : Structure) (bs : List AnyBind) (F : AnyFormula) (e : Assignment) → IsTrue (truth M (closed bs F) e) ↔ IsTrueForAll M bs F e }
{}
