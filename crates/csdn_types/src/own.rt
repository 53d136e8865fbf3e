//! What a handler may send: its own packet.
ghost use Rattle.std.specs.Prelude.{◌≡◌, ◌∷◌, ◌++◌, not};
ghost use Rattle.csdn_tree.specs.declared.names.RawTerm.TheVariants.{Name};
ghost use Rattle.csdn_types.specs.declared.refusal.SortRefusal.TheVariants.{NotAllowed};
ghost use Rattle.csdn_core.specs.declared.terms.Sort.TheVariants.{Sw};
ghost use Rattle.csdn_types.specs.Answers.{Answers, IsFirst};
ghost use Rattle.csdn_types.specs.Faults.{fault_if, term_faults, flow_faults};
ghost use Rattle.csdn_types.specs.Typed.{term_of, flow_of, packet_of};
ghost use Rattle.csdn_core.specs.Same.{same_term};
ghost use Rattle.csdn_types.specs.Commands.{own_faults, install_faults, forward_faults, switch_faults, flood_faults};

use crate::atoms::{flow, flow_row, packet_row};
use crate::refusal::SortRefusal;
use crate::scope::Scope;
use crate::terms::{named_term, term};
use csdn_core::terms::{Sort, Term, Terms};
use csdn_tree::names::{RawName, RawTerm};
use csdn_tree::syntax::{RawFlow, RawPacket, SwitchWord};

/// The terms that stand for the packet of a handler, and its switch.
#[derive(Clone, Copy)]
pub struct OwnTerms {
    pub switch: Term,
    pub source: Term,
    pub target: Term,
    pub ingress: Term,
}

fn is_same_term(a: Term, b: Term) -> bool
    ensures { result ≡ same_term a b }
{
    match (a, b) {
        (Term::Var(v), Term::Var(w)) => v == w,
        (Term::Const(k), Term::Const(l)) => k == l,
        (Term::Port(m), Term::Port(n)) => m == n,
        _ => false,
    }
}

/// What a term stands for, where it has to be one of the handler's own.
fn own_only(at: usize, own: Term, found: Term) -> Result<Term, SortRefusal>
    ensures { Answers (fault_if (not (same_term found own)) (NotAllowed at)) found result }
{
    if is_same_term(found, own) {
        Ok(found)
    } else {
        Err(SortRefusal::NotAllowed { at })
    }
}

/// A term that has to be one of the handler's own.
#[tactic(auto, using(crate::proofs::First::first_steps))]
fn own_term(scope: &Scope, sort: Sort, own: Term, raw: &RawTerm) -> Result<Term, SortRefusal>
    ensures { Answers (own_faults scope.now sort own raw.now) (term_of scope.now raw.now) result }
{
    let found = term(scope, sort, raw)?;
    own_only(raw.at(), own, found)
}

/// A name that has to stand for the handler's own switch.
#[tactic(auto, using(crate::proofs::First::first_steps))]
fn own_switch(scope: &Scope, own: &OwnTerms, name: &RawName) -> Result<Term, SortRefusal>
    ensures { Answers (own_faults scope.now Sw own.now.switch (Name name.now)) (term_of scope.now (Name name.now)) result }
{
    let found = named_term(scope, Sort::Sw, name)?;
    own_only(name.at, own.switch, found)
}

/// The flow rule that is put in or taken out: the handler's own switch, and any source, destination, ingress port and
/// egress port. Refused is the first term, from left to right, that is unknown, of another sort, or another switch
/// (`NotAllowed`).
#[tactic(auto, using(crate::proofs::First::first_steps))]
fn install(scope: &Scope, own: &OwnTerms, raw: &RawFlow) -> Result<Terms, SortRefusal>
    ensures { Answers (install_faults own.now scope.now raw.now) (term_of scope.now (Name raw.now.switch) ∷ flow_of scope.now raw.now) result }
{
    let switch = own_switch(scope, own, &raw.switch)?;
    let terms = flow(scope, switch, raw)?;
    Ok(terms)
}

/// The packet that `forward` sends: the handler's own switch, source, destination and ingress port, and any egress
/// port. Refused is the first term, from left to right, that is unknown, of another sort, or not the handler's own
/// (`NotAllowed`).
#[tactic(auto, using(crate::proofs::First::first_steps))]
fn forward(scope: &Scope, own: &OwnTerms, raw: &RawFlow) -> Result<Terms, SortRefusal>
    ensures { Answers (forward_faults own.now scope.now raw.now) (term_of scope.now (Name raw.now.switch) ∷ flow_of scope.now raw.now) result }
{
    let switch = own_switch(scope, own, &raw.switch)?;
    let source = own_term(scope, Sort::Ho, own.source, &raw.source)?;
    let target = own_term(scope, Sort::Ho, own.target, &raw.target)?;
    let ingress = own_term(scope, Sort::Pr, own.ingress, &raw.ingress)?;
    let egress = term(scope, Sort::Pr, &raw.egress)?;
    Ok(flow_row(switch, source, target, ingress, egress))
}

/// The terms of what the switch does.
pub fn switch_terms(
    scope: &Scope,
    own: &OwnTerms,
    word: SwitchWord,
    raw: &RawFlow,
) -> Result<Terms, SortRefusal>
    ensures { Answers (switch_faults word own.now scope.now raw.now) (term_of scope.now (Name raw.now.switch) ∷ flow_of scope.now raw.now) result }
{
    match word {
        SwitchWord::Install => install(scope, own, raw),
        SwitchWord::Uninstall => install(scope, own, raw),
        SwitchWord::Forward => forward(scope, own, raw),
    }
}

/// The packet that `flood` sends: the handler's own switch, source, destination and ingress port. Refused is the first
/// term, from left to right, that is unknown, of another sort, or not the handler's own (`NotAllowed`).
#[tactic(auto, using(crate::proofs::First::first_steps))]
pub fn flood(scope: &Scope, own: &OwnTerms, raw: &RawPacket) -> Result<Terms, SortRefusal>
    ensures { Answers (flood_faults own.now scope.now raw.now) (term_of scope.now (Name raw.now.switch) ∷ packet_of scope.now raw.now) result }
{
    let switch = own_switch(scope, own, &raw.switch)?;
    let source = own_term(scope, Sort::Ho, own.source, &raw.source)?;
    let target = own_term(scope, Sort::Ho, own.target, &raw.target)?;
    let ingress = own_term(scope, Sort::Pr, own.ingress, &raw.ingress)?;
    Ok(packet_row(switch, source, target, ingress))
}
