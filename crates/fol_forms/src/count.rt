//! How many nodes a formula has.
#![tactic(auto)]

ghost use Rattle.std.specs.Prelude.{◌≡◌, ◌+◌};
ghost use Rattle.csdn_core.specs.Nodes.{nodes};
ghost use Rattle.fol_forms.specs.Limits.{capped};

use csdn_core::syntax::Formula;

/// A sum; 2^64 - 1 where that is larger.
#[tactic(auto, unfolding(crate::specs::Limits::capped))]
pub fn sum(a: u64, b: u64) -> u64
    ensures { result ≡ capped (a + b) }
{
    a.saturating_add(b)
}

/// A sum and one more; 2^64 - 1 where that is larger.
#[tactic(auto, unfolding(crate::specs::Limits::capped))]
pub fn sum_and_one(a: u64, b: u64) -> u64
    ensures { result ≡ capped (a + b + 1) }
{
    a.saturating_add(b).saturating_add(1)
}

/// One more; 2^64 - 1 where that is larger.
#[tactic(auto, unfolding(crate::specs::Limits::capped))]
pub fn and_one(a: u64) -> u64
    ensures { result ≡ capped (a + 1) }
{
    a.saturating_add(1)
}

/// How many nodes a formula has: truth values, atoms, equations, negations, connectives and bound variables. 2^64 - 1 where
/// it has more. It takes no memory.
#[tactic(auto, using(csdn_core::proofs::NodeSteps::node_steps, crate::proofs::Leaves::leaf_nodes, crate::proofs::Capped::capped_sums))]
pub fn node_count(formula: &Formula) -> u64
    ensures { result ≡ capped (nodes formula.now) }
{
    match formula {
        Formula::True | Formula::False | Formula::Atom(_, _) | Formula::Same(_, _) => 1,
        Formula::Not(p) => and_one(node_count(p.get())),
        Formula::And(p, q) | Formula::Or(p, q) | Formula::Implies(p, q) | Formula::Iff(p, q) => {
            sum_and_one(node_count(p.get()), node_count(q.get()))
        }
        Formula::Forall(_, _, p) | Formula::Exists(_, _, p) => and_one(node_count(p.get())),
    }
}
