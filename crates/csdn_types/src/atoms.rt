//! Formulas.
ghost use Rattle.std.specs.Prelude.{◌≡◌, ◌≤◌, ◌<◌, ◌+◌, ◌^◌, ◌++◌, OnOk, not, is_some, nat_le, length, unwrap_or};
ghost use Rattle.csdn_core.specs.declared.terms.Pred.TheVariants.{RcvThis as RcvThisPred};
ghost use Rattle.csdn_types.specs.Typed.{term_of};
ghost use Rattle.std.specs.Prelude.{[], ◌∷◌};
ghost use Rattle.csdn_core.specs.declared.syntax.Formula.TheVariants as t;
ghost use Rattle.csdn_core.specs.Sorted.{most_variables};
ghost use Rattle.csdn_types.specs.declared.refusal.SortRefusal.TheVariants.{NotAllowed};
ghost use Rattle.csdn_core.specs.declared.terms.Sort.TheVariants.{Sw};
ghost use Rattle.csdn_types.specs.Answers.{Answers, IsFirst, IsTyped};
ghost use Rattle.csdn_types.specs.Faults.{faults, fault_if, atom_faults, term_faults, flow_faults, packet_faults, variable_faults, word_is_outside as word_outside, packet_is_outside as packet_outside};
ghost use Rattle.csdn_types.specs.Typed.{after, typed, next_var, flow_of, packet_of, pred_of};
ghost use Rattle.csdn_tree.specs.Binders.{binders};
ghost use Rattle.csdn_tree.specs.declared.names.RawTerm.TheVariants.{Name};
ghost use Rattle.csdn_types.specs.Scope.{bound, relation_named};
ghost use Rattle.csdn_core.specs.Sorted.{most_numbers};

use crate::refusal::SortRefusal;
use crate::scope::Scope;
use crate::terms::{named_term, term};
use csdn_core::syntax::Formula;
use csdn_core::terms::{FormulaPlace, MOST_VARIABLES, Pred, Sort, Term, Terms, VarId};
use csdn_tree::names::RawName;
use csdn_tree::syntax::{FlowWord, RawFlow, RawFormula, RawPacket};
use std::alloc::Global;

/// Brings a name into scope, under the next number. Refused at its byte are, in order, a name that stands for a
/// constant or a variable in scope (`Duplicate`), and any name where 24 variables are in scope already (`TooMany`).
#[tactic(auto, using(crate::proofs::First::first_steps))]
pub fn bind(
    alloc: Global,
    scope: &mut Scope,
    name: &RawName,
    sort: Sort,
) -> Result<VarId, SortRefusal>
    requires { scope.old.next < most_numbers }
    ensures answers { Answers (variable_faults scope.old name.now) (next_var scope.old) result }
    ensures bound { OnOk result (scope.new ≡ bound scope.old name.now sort) }
{
    let at = name.at;
    if scope.named(name.text.as_slice()).is_some() {
        return Err(SortRefusal::Duplicate { at });
    }
    if MOST_VARIABLES <= scope.depth() {
        return Err(SortRefusal::TooMany { at });
    }
    let var = scope.bind(alloc, name, sort)?;
    Ok(var)
}

/// A switch and a packet's terms as a row.
pub fn packet_row(switch: Term, source: Term, target: Term, ingress: Term) -> Terms
    ensures { result ≡ switch ∷ source ∷ target ∷ ingress ∷ [] }
{
    let mut terms = Terms::new();
    terms.push(switch);
    terms.push(source);
    terms.push(target);
    terms.push(ingress);
    terms
}

/// A switch, a packet's terms and the port at which it leaves as a row.
pub fn flow_row(switch: Term, source: Term, target: Term, ingress: Term, egress: Term) -> Terms
    ensures { result ≡ switch ∷ source ∷ target ∷ ingress ∷ egress ∷ [] }
{
    let mut terms = packet_row(switch, source, target, ingress);
    terms.push(egress);
    terms
}

/// The row of `ft`, `sent`, `install` and `uninstall`: this switch, source, destination, ingress port and egress port.
/// Refused is the first term, from left to right, that is unknown or of another sort.
#[tactic(auto, using(crate::proofs::First::first_steps))]
pub fn flow(scope: &Scope, switch: Term, raw: &RawFlow) -> Result<Terms, SortRefusal>
    ensures { Answers (flow_faults scope.now raw.now) (switch ∷ flow_of scope.now raw.now) result }
{
    let source = term(scope, Sort::Ho, &raw.source)?;
    let target = term(scope, Sort::Ho, &raw.target)?;
    let ingress = term(scope, Sort::Pr, &raw.ingress)?;
    let egress = term(scope, Sort::Pr, &raw.egress)?;
    Ok(flow_row(switch, source, target, ingress, egress))
}

/// The row of `rcv_this`: this switch, source, destination and ingress port. Refused is the first term, from left to
/// right, that is unknown or of another sort.
#[tactic(auto, using(crate::proofs::First::first_steps))]
pub fn packet(scope: &Scope, switch: Term, raw: &RawPacket) -> Result<Terms, SortRefusal>
    ensures { Answers (packet_faults scope.now raw.now) (switch ∷ packet_of scope.now raw.now) result }
{
    let source = term(scope, Sort::Ho, &raw.source)?;
    let target = term(scope, Sort::Ho, &raw.target)?;
    let ingress = term(scope, Sort::Pr, &raw.ingress)?;
    Ok(packet_row(switch, source, target, ingress))
}

fn word_is_outside(place: FormulaPlace, word: FlowWord) -> bool
    ensures { result ≡ word_outside place word }
{
    match (place, word) {
        (FormulaPlace::Topology, _) => true,
        (FormulaPlace::Handler, FlowWord::Sent) => true,
        _ => false,
    }
}

fn packet_is_outside(place: FormulaPlace) -> bool
    ensures { result ≡ packet_outside place }
{
    match place {
        FormulaPlace::Trans => false,
        _ => true,
    }
}

fn pred(word: FlowWord) -> Pred
    ensures { result ≡ pred_of word }
{
    match word {
        FlowWord::Ft => Pred::Ft,
        FlowWord::Sent => Pred::Sent,
    }
}

/// `switch.ft(..)` or `switch.sent(..)`, whose word stands at the byte `at`. Refused is the first of these: the switch;
/// `NotAllowed` at the word, which no topology invariant may name, nor a handler `sent`; a term behind it.
#[tactic(auto, using(crate::proofs::First::first_steps))]
pub fn flow_atom(
    scope: &Scope,
    place: FormulaPlace,
    at: usize,
    word: FlowWord,
    raw: &RawFlow,
) -> Result<Formula, SortRefusal>
    ensures { Answers (term_faults scope.now Sw (Name raw.now.switch) ++ (fault_if (word_outside place word) (NotAllowed at) ++ flow_faults scope.now raw.now)) (t.Atom (pred_of word) (term_of scope.now (Name raw.now.switch) ∷ flow_of scope.now raw.now)) result }
{
    let switch = named_term(scope, Sort::Sw, &raw.switch)?;
    if word_is_outside(place, word) {
        return Err(SortRefusal::NotAllowed { at });
    }
    let terms = flow(scope, switch, raw)?;
    Ok(Formula::Atom(pred(word), terms))
}

/// `switch.rcv_this(..)`, whose word stands at the byte `at`. Refused is the first of these: the switch; `NotAllowed`
/// at the word, which transition invariants alone may name; a term behind it.
#[tactic(auto, using(crate::proofs::First::first_steps))]
pub fn packet_atom(
    scope: &Scope,
    place: FormulaPlace,
    at: usize,
    raw: &RawPacket,
) -> Result<Formula, SortRefusal>
    ensures { Answers (term_faults scope.now Sw (Name raw.now.switch) ++ (fault_if (packet_outside place) (NotAllowed at) ++ packet_faults scope.now raw.now)) (t.Atom RcvThisPred (term_of scope.now (Name raw.now.switch) ∷ packet_of scope.now raw.now)) result }
{
    let switch = named_term(scope, Sort::Sw, &raw.switch)?;
    if packet_is_outside(place) {
        return Err(SortRefusal::NotAllowed { at });
    }
    let terms = packet(scope, switch, raw)?;
    Ok(Formula::Atom(Pred::RcvThis, terms))
}
