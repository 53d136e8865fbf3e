//! Sorts, terms, relations and the lists of terms that an atom takes.
ghost use Rattle.std.specs.Prelude.{◌≡◌, ◌<◌, ◌≤◌, [], ◌∷◌, ◌++◌, length};
ghost use Rattle.csdn_core.specs.Network.{same_pred};
ghost use Rattle.csdn_core.specs.Same.{same_sort};

use arrayvec::ArrayVec;
use std::marker::Model;

/// The three sorts of elements of a network.
#[derive(Clone, Copy, Debug, PartialEq, Eq)]
pub enum Sort {
    /// Switches.
    Sw,
    /// Hosts.
    Ho,
    /// Ports.
    Pr,
}

impl Sort {
    /// Whether it is the same sort.
    pub fn is_same(self, other: Sort) -> bool
        ensures { result ≡ same_sort self other }
    {
        match (self, other) {
            (Sort::Sw, Sort::Sw) => true,
            (Sort::Ho, Sort::Ho) => true,
            (Sort::Pr, Sort::Pr) => true,
            _ => false,
        }
    }
}

/// The sorts of `ft` and `sent`: switch, source, destination, ingress port, egress port.
pub const FLOW_SORTS: [Sort; 5] = [Sort::Sw, Sort::Ho, Sort::Ho, Sort::Pr, Sort::Pr];

/// The most variables that may be in scope.
pub const MOST_VARIABLES: usize = 24;

/// The number of a variable. Each bound variable of a program has a number of its own.
#[derive(Clone, Copy, Debug, PartialEq, Eq)]
pub struct VarId(pub u32);

/// The place of a relation among the relations that a program declares.
#[derive(Clone, Copy, Debug, PartialEq, Eq)]
pub struct RelId(pub u32);

/// The place of a constant among the constants that a program declares.
#[derive(Clone, Copy, Debug, PartialEq, Eq)]
pub struct ConstId(pub u32);

/// What stands for an element.
#[derive(Clone, Copy, Debug, PartialEq, Eq)]
pub enum Term {
    Var(VarId),
    Const(ConstId),
    /// `prt(k)`: the port k itself.
    Port(u16),
}

/// A relation: one that the program declares, or one of the three that are built in.
#[derive(Clone, Copy, Debug, PartialEq, Eq)]
pub enum Pred {
    Stored(RelId),
    /// The flow tables: switch, source, destination, ingress port, egress port.
    Ft,
    /// The packets sent: switch, source, destination, ingress port, egress port.
    Sent,
    /// The packet at hand: switch, source, destination, ingress port.
    RcvThis,
}

impl Pred {
    /// Whether it is the same relation.
    pub fn is_same(self, other: Pred) -> bool
        ensures { result ≡ same_pred self other }
    {
        match (self, other) {
            (Pred::Stored(r), Pred::Stored(q)) => r == q,
            (Pred::Ft, Pred::Ft) => true,
            (Pred::Sent, Pred::Sent) => true,
            (Pred::RcvThis, Pred::RcvThis) => true,
            _ => false,
        }
    }
}

/// Where a formula stands, which decides what relations it may name.
#[derive(Clone, Copy, Debug, PartialEq, Eq)]
pub enum FormulaPlace {
    /// In a topology invariant.
    Topology,
    /// In a safety invariant.
    Safety,
    /// In a transition invariant.
    Trans,
    /// In a condition of a handler.
    Handler,
}

impl Default for Term {
    fn default() -> Self {
        Term::Port(0)
    }
}

/// At most five terms.
#[derive(Drop)]
pub struct Terms {
    terms: ArrayVec<Term, 5>,
}

impl Model for Terms {
    ghost use Rattle.std.specs.Prelude.{List};
    ghost use Rattle.csdn_core.specs.declared.terms.Term.{Term};

    ghost Value = { List Term };

    ghost view = { λ t. t.terms.items };
}

impl Terms {
    /// No terms.
    pub fn new() -> Terms
        ensures { result ≡ [] }
    {
        Terms {
            terms: ArrayVec::new(),
        }
    }

    /// Puts a term behind the others.
    pub fn push(&mut self, term: Term)
        requires { length self.old < 5 }
        ensures { self.new ≡ self.old ++ term ∷ [] }
    {
        self.terms.push(term);
    }

    /// The terms, in their order: at most five.
    pub fn as_slice(&self) -> &[Term]
        ensures value { result.now ≡ self.now }
        ensures fits { length result.now ≤ 5 }
    {
        self.terms.as_slice()
    }

    /// The same terms.
    pub fn copy(&self) -> Terms
        ensures { result ≡ self.now }
    {
        copy_of(self.terms.as_slice())
    }
}

fn copy_of(terms: &[Term]) -> Terms
    requires { length terms.now ≤ 5 }
    ensures { result ≡ terms.now }
{
    let mut copied = ArrayVec::new();
    for term in terms {
        copied.push(*term);
    }
    Terms { terms: copied }
}
