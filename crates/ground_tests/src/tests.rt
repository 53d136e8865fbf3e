//! Two sentences whose clauses are worked by hand: that a relation has one host at most, and a contradiction of numerals.

ghost use Rattle.std.specs.Prelude.{◌≡◌, [], ◌∷◌, false, IfOk};
ghost use Rattle.csdn_core.specs.declared.syntax.Formula.TheVariants.{Atom as AtomOf};
ghost use Rattle.csdn_core.specs.Tree.{conjunction, disjunction, implication, negation, universal};
ghost use Rattle.decision_laws.specs.Example.{contradiction as contradiction_of, equal as equation_of, has as atom_of, one as one_of, one_after as one_after_of, goal as goal_of, r, sentence as sentence_of, variable};

use clause_log::{Clauses, Lit};
use csdn_core::program::{Parts, Relation};
use csdn_core::syntax::Formula;
use csdn_core::terms::{Pred, RelId, Sort, Term, Terms, VarId};
use decision_laws::laws::{contradiction_example, uniqueness_example};
use ground_inst::facts::facts_of;
use ground_inst::making::clauses_of;
use ground_inst::room::room_of;
use ground_inst::simplify::simplify;
use sqlite_items::{Boxed, Items};
use std::alloc::{AllocError, Global};
use std::test::Fail;

// A program with one relation, of one sort.
fn parts_of(alloc: Global, sort: Sort, numerals: &[u16]) -> Result<Parts, AllocError>
    ensures relations { IfOk result (λ parts. parts.relations ≡ record { name = []; sorts = sort ∷ []; fixed = false } ∷ []) }
    ensures constants { IfOk result (λ parts. parts.constants ≡ []) }
    ensures numerals { IfOk result (λ parts. parts.numerals ≡ numerals.now) }
{
    let mut relations = Items::new(alloc);
    relations.push(Relation {
        name: Items::new(alloc),
        sorts: Items::from_slice(alloc, &[sort])?,
        fixed: false,
    })?;
    Ok(Parts {
        relations,
        constants: Items::new(alloc),
        start: Items::new(alloc),
        topology: Items::new(alloc),
        safety: Items::new(alloc),
        trans: Items::new(alloc),
        handlers: Items::new(alloc),
        numerals: Items::from_slice(alloc, numerals)?,
        timeout: None,
    })
}

fn boxed(alloc: Global, formula: Formula) -> Result<Boxed<Formula>, AllocError>
    ensures { IfOk result (λ p. p ≡ formula) }
{
    Boxed::new(alloc, formula)
}

fn atom(alloc: Global, term: Term) -> Result<Boxed<Formula>, AllocError>
    ensures { IfOk result (λ p. p ≡ AtomOf r (term ∷ [])) }
{
    let mut terms = Terms::new();
    terms.push(term);
    boxed(alloc, Formula::Atom(Pred::Stored(RelId(0)), terms))
}

fn has(alloc: Global, x: u32) -> Result<Boxed<Formula>, AllocError>
    ensures { IfOk result (λ p. p ≡ atom_of x) }
{
    atom(alloc, Term::Var(VarId(x)))
}

fn equal(alloc: Global, x: u32, y: u32) -> Result<Boxed<Formula>, AllocError>
    ensures { IfOk result (λ p. p ≡ equation_of x y) }
{
    boxed(
        alloc,
        Formula::Same(Term::Var(VarId(x)), Term::Var(VarId(y))),
    )
}

#[tactic(auto, using(csdn_core::proofs::Shapes::shapes))]
fn forall(
    alloc: Global,
    x: u32,
    sort: Sort,
    p: Boxed<Formula>,
) -> Result<Boxed<Formula>, AllocError>
    ensures { IfOk result (λ f. f ≡ universal (variable x) sort p) }
{
    boxed(alloc, Formula::Forall(VarId(x), sort, p))
}

#[tactic(auto, using(csdn_core::proofs::Shapes::shapes))]
fn not(alloc: Global, p: Boxed<Formula>) -> Result<Boxed<Formula>, AllocError>
    ensures { IfOk result (λ f. f ≡ negation p) }
{
    boxed(alloc, Formula::Not(p))
}

#[tactic(auto, using(csdn_core::proofs::Shapes::shapes))]
fn and(alloc: Global, p: Boxed<Formula>, q: Boxed<Formula>) -> Result<Boxed<Formula>, AllocError>
    ensures { IfOk result (λ f. f ≡ conjunction p q) }
{
    boxed(alloc, Formula::And(p, q))
}

#[tactic(auto, using(csdn_core::proofs::Shapes::shapes))]
fn or(alloc: Global, p: Boxed<Formula>, q: Boxed<Formula>) -> Result<Boxed<Formula>, AllocError>
    ensures { IfOk result (λ f. f ≡ disjunction p q) }
{
    boxed(alloc, Formula::Or(p, q))
}

#[tactic(auto, using(csdn_core::proofs::Shapes::shapes))]
fn implies(
    alloc: Global,
    p: Boxed<Formula>,
    q: Boxed<Formula>,
) -> Result<Boxed<Formula>, AllocError>
    ensures { IfOk result (λ f. f ≡ implication p q) }
{
    boxed(alloc, Formula::Implies(p, q))
}

// One host at most has the relation: X is 0 and Y is 1.
fn one(alloc: Global) -> Result<Boxed<Formula>, AllocError>
    ensures { IfOk result (λ p. p ≡ one_of) }
{
    let both = and(alloc, has(alloc, 0)?, has(alloc, 1)?)?;
    let body = implies(alloc, both, equal(alloc, 0, 1)?)?;
    let inner = forall(alloc, 1, Sort::Ho, body)?;
    forall(alloc, 0, Sort::Ho, inner)
}

// The host has the relation, or is the source.
fn has_after(alloc: Global, x: u32) -> Result<Boxed<Formula>, AllocError>
    ensures { IfOk result (λ p. p ≡ disjunction (atom_of x) (equation_of x 3)) }
{
    or(alloc, has(alloc, x)?, equal(alloc, x, 3)?)
}

// The same, after the source has the relation.
fn one_after(alloc: Global) -> Result<Boxed<Formula>, AllocError>
    ensures { IfOk result (λ p. p ≡ one_after_of) }
{
    let both = and(alloc, has_after(alloc, 6)?, has_after(alloc, 7)?)?;
    let body = implies(alloc, both, equal(alloc, 6, 7)?)?;
    let inner = forall(alloc, 7, Sort::Ho, body)?;
    forall(alloc, 6, Sort::Ho, inner)
}

// The goal, for every packet.
fn goal(alloc: Global) -> Result<Boxed<Formula>, AllocError>
    ensures { IfOk result (λ p. p ≡ goal_of) }
{
    let port = forall(alloc, 5, Sort::Pr, one_after(alloc)?)?;
    let destination = forall(alloc, 4, Sort::Ho, port)?;
    let source = forall(alloc, 3, Sort::Ho, destination)?;
    forall(alloc, 2, Sort::Sw, source)
}

fn sentence(alloc: Global) -> Result<Boxed<Formula>, AllocError>
    ensures { IfOk result (λ p. p ≡ sentence_of) }
{
    let hypothesis = and(alloc, boxed(alloc, Formula::True)?, one(alloc)?)?;
    let negated = not(alloc, goal(alloc)?)?;
    and(alloc, hypothesis, negated)
}

fn contradiction(alloc: Global) -> Result<Boxed<Formula>, AllocError>
    ensures { IfOk result (λ p. p ≡ contradiction_of) }
{
    let kept = atom(alloc, Term::Port(1))?;
    let negated = not(alloc, atom(alloc, Term::Port(1))?)?;
    and(alloc, kept, negated)
}

// Whether a clause has these literals, negated ones as negative numbers.
fn is_clause(clauses: &Clauses, at: usize, numbers: &[i64]) -> bool {
    at < clauses.len() && are_literals(clauses.clause(at), numbers)
}

fn are_literals(literals: &[Lit], numbers: &[i64]) -> bool {
    literals.len() == numbers.len()
        && literals.iter().zip(numbers).all(|(literal, number)| {
            literal.is_positive() == (*number > 0) && literal.atom() == number.unsigned_abs()
        })
}

#[test]
fn one_host_at_most(rt: HostRuntime) -> Result<(), Fail> {
    let alloc = rt.alloc();
    uniqueness_example();
    let parts = parts_of(alloc, Sort::Ho, &[])?;
    let sentence = sentence(alloc)?;
    let facts = facts_of(alloc, &parts, sentence.get())?;
    assert_eq!(rt; facts.count, 22);
    let clauses = clauses_of(alloc, &parts, &facts, sentence.get())?;
    assert_eq!(rt; clauses.atoms(), 64);
    assert_eq!(rt; clauses.len(), 91);
    assert!(rt; is_clause(&clauses, 0, &[-27, -19]));
    assert!(rt; is_clause(&clauses, 1, &[-26, 27, 2]));
    assert!(rt; is_clause(&clauses, 60, &[23]));
    assert!(rt; is_clause(&clauses, 90, &[-16, -22, 21]));
    let room = room_of(&parts, &facts, simplify(alloc, sentence.get())?.get());
    assert_eq!(rt; room.clauses, 91);
    Ok(())
}

#[test]
fn numerals_contradict(rt: HostRuntime) -> Result<(), Fail> {
    let alloc = rt.alloc();
    contradiction_example();
    let parts = parts_of(alloc, Sort::Pr, &[1, 2])?;
    let sentence = contradiction(alloc)?;
    let facts = facts_of(alloc, &parts, sentence.get())?;
    let clauses = clauses_of(alloc, &parts, &facts, sentence.get())?;
    assert_eq!(rt; clauses.atoms(), 9);
    assert_eq!(rt; clauses.len(), 8);
    assert!(rt; is_clause(&clauses, 2, &[9]));
    assert!(rt; is_clause(&clauses, 7, &[-5]));
    Ok(())
}
