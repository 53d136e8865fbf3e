//! How many variables a formula binds at once.
#![tactic(auto, using(csdn_core::proofs::DepthSteps::depth_steps, crate::specs::Leaves::leaf_depths))]

ghost use Rattle.std.specs.Prelude.{◌≡◌, ◌≤◌, true};
ghost use Rattle.csdn_core.specs.Depth.{depth};

use csdn_core::syntax::Formula;

/// Whether a formula binds no more variables at once.
pub fn binds_at_most(formula: &Formula, most: usize) -> bool
    ensures { result ≡ true → depth formula.now ≤ most }
{
    match formula {
        Formula::True | Formula::False | Formula::Atom(_, _) | Formula::Same(_, _) => true,
        Formula::Not(p) => binds_at_most(p.get(), most),
        Formula::And(p, q) | Formula::Or(p, q) | Formula::Implies(p, q) | Formula::Iff(p, q) =>
            binds_at_most(p.get(), most) && binds_at_most(q.get(), most),
        Formula::Forall(_, _, p) | Formula::Exists(_, _, p) => {
            most > 0 && binds_at_most(p.get(), most - 1)
        }
    }
}
