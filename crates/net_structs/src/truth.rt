//! Truth of formulas.
#![tactic(auto, using(csdn_core::proofs::TruthSteps::truth_steps, csdn_core::proofs::NodeSteps::node_steps, csdn_core::proofs::DepthSteps::depth_steps))]

ghost use Rattle.std.specs.Prelude.{◌≡◌, ◌<◌, ◌≤◌, ◌+◌, length};
ghost use Rattle.std.specs.List.{list_any, list_all};
ghost use Rattle.csdn_core.specs.Truth.{truth as truth_of, with_var};
ghost use Rattle.csdn_core.specs.Network.{elements as elements_of, structure};
ghost use Rattle.net_structs.specs.Binds.{assignment};
ghost use Rattle.csdn_core.specs.Depth.{depth};
ghost use Rattle.net_structs.specs.Rows.{held};
ghost use Rattle.net_structs.specs.Views.{but, world};

use crate::env::Env;
use crate::network::Network;
use crate::state::State;
use crate::view::{View, holds, value, values};
use csdn_core::event::Packet;
use csdn_core::program::Program;
use csdn_core::syntax::Formula;
use csdn_core::terms::{Sort, VarId};

/// Whether a formula is true in a network and a state, where `env` says what its free variables stand for; one that `env`
/// doesn't name stands for 0. `env` needs room for the variables that the formula binds at once, and is left as it was.
/// It takes no memory.
pub fn truth(
    program: &Program,
    network: &Network,
    state: &State,
    packet: &Packet,
    env: &mut Env,
    formula: &Formula,
) -> bool
    requires { length env.old.pairs + depth formula.now ≤ env.old.room }
    ensures value { result ≡ truth_of (structure program.now network.now (held state.now) packet.now) formula.now (assignment env.old.pairs) }
    ensures same { env.new ≡ env.old }
{
    let view = View::whole(program, network, state, packet);
    is_true(&view, env, formula)
}

/// Whether a formula is true in a state without the tuples of `gone`. For the rest it is `truth`.
pub fn truth_without(
    program: &Program,
    network: &Network,
    state: &State,
    gone: &State,
    packet: &Packet,
    env: &mut Env,
    formula: &Formula,
) -> bool
    requires { length env.old.pairs + depth formula.now ≤ env.old.room }
    ensures value { result ≡ truth_of (structure program.now network.now (but (held state.now) (held gone.now)) packet.now) formula.now (assignment env.old.pairs) }
    ensures same { env.new ≡ env.old }
{
    let view = View {
        program,
        network,
        state,
        gone: Some(gone),
        packet,
    };
    is_true(&view, env, formula)
}

#[cycle(truth)]
fn is_true(view: &View, env: &mut Env, formula: &Formula) -> bool
    requires { length env.old.pairs + depth formula.now ≤ env.old.room }
    ensures value { result ≡ truth_of (world view.now) formula.now (assignment env.old.pairs) }
    ensures same { env.new ≡ env.old }
{
    match formula {
        Formula::True => true,
        Formula::False => false,
        Formula::Atom(pred, terms) => holds(view, *pred, &values(view, env, terms.as_slice())),
        Formula::Same(t, u) => value(view, env, *t) == value(view, env, *u),
        Formula::Not(p) => !is_true(view, env, p.get()),
        Formula::And(p, q) => is_true(view, env, p.get()) && is_true(view, env, q.get()),
        Formula::Or(p, q) => is_true(view, env, p.get()) || is_true(view, env, q.get()),
        Formula::Implies(p, q) => !is_true(view, env, p.get()) || is_true(view, env, q.get()),
        Formula::Iff(p, q) => is_true(view, env, p.get()) == is_true(view, env, q.get()),
        Formula::Forall(var, sort, p) => is_true_of_all(view, env, *var, *sort, p.get()),
        Formula::Exists(var, sort, p) => is_true_of_some(view, env, *var, *sort, p.get()),
    }
}

#[cycle(truth)]
fn is_true_of(view: &View, env: &mut Env, var: VarId, element: u64, formula: &Formula) -> bool
    requires { length env.old.pairs + (depth formula.now + 1) ≤ env.old.room }
    ensures value { result ≡ truth_of (world view.now) formula.now (with_var (assignment env.old.pairs) var element) }
    ensures same { env.new ≡ env.old }
{
    env.push(var, element);
    let is_true = is_true(view, env, formula);
    env.pop();
    is_true
}

#[cycle(truth)]
fn is_true_of_all(view: &View, env: &mut Env, var: VarId, sort: Sort, formula: &Formula) -> bool
    requires { length env.old.pairs + (depth formula.now + 1) ≤ env.old.room }
    ensures value { result ≡ list_all (λ m. truth_of (world view.now) formula.now (with_var (assignment env.old.pairs) var m)) (elements_of view.now.network.now sort) }
    ensures same { env.new ≡ env.old }
{
    let elements = view.network.elements(sort);
    for element in elements {
        if !is_true_of(view, env, var, *element, formula) {
            return false;
        }
    }
    true
}

#[cycle(truth)]
fn is_true_of_some(view: &View, env: &mut Env, var: VarId, sort: Sort, formula: &Formula) -> bool
    requires { length env.old.pairs + (depth formula.now + 1) ≤ env.old.room }
    ensures value { result ≡ list_any (λ m. truth_of (world view.now) formula.now (with_var (assignment env.old.pairs) var m)) (elements_of view.now.network.now sort) }
    ensures same { env.new ≡ env.old }
{
    let elements = view.network.elements(sort);
    for element in elements {
        if is_true_of(view, env, var, *element, formula) {
            return true;
        }
    }
    false
}
