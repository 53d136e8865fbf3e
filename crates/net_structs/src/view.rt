//! What formulas speak of.
ghost use Rattle.std.specs.Prelude.{◌≡◌, ◌≤◌, length};
ghost use Rattle.csdn_core.specs.Truth.{value as value_of, values as values_of};
ghost use Rattle.csdn_core.specs.Network.{holds_in, is_fixed as is_fixed_in, is_packet, same_cells, structure};
ghost use Rattle.net_structs.specs.Binds.{assignment};
ghost use Rattle.net_structs.specs.Rows.{held};
ghost use Rattle.net_structs.specs.Views.{shown, world};

use crate::cells::Cells;
use crate::env::Env;
use crate::network::Network;
use crate::state::State;
use csdn_core::event::Packet;
use csdn_core::program::Program;
use csdn_core::terms::{Pred, RelId, Term};

/// A program, one of its networks, a state of it, and the packet at hand. Where `gone` is there, its tuples count as taken out
/// of the state.
#[derive(Drop)]
pub struct View<'a> {
    pub program: &'a Program,
    pub network: &'a Network,
    pub state: &'a State,
    pub gone: Option<&'a State>,
    pub packet: &'a Packet,
}

impl<'a> View<'a> {
    /// The view of a whole state.
    pub fn whole(
        program: &'a Program,
        network: &'a Network,
        state: &'a State,
        packet: &'a Packet,
    ) -> View<'a>
        ensures { world result ≡ structure program.now network.now (held state.now) packet.now }
    {
        View {
            program,
            network,
            state,
            gone: None,
            packet,
        }
    }
}

fn is_same(a: &[u64], b: &[u64]) -> bool
    ensures { result ≡ same_cells a.now b.now }
{
    a == b
}

// Whether the program says that a relation is static.
fn is_fixed(program: &Program, rel: RelId) -> bool
    ensures { result ≡ is_fixed_in program.now rel.0 }
{
    match program.parts().relations.get(rel.0 as usize) {
        Some(relation) => relation.fixed,
        None => false,
    }
}

// Whether a tuple is the packet's.
fn is_of_packet(packet: &Packet, cells: &[u64]) -> bool
    ensures { result ≡ is_packet packet.now cells.now }
{
    match packet {
        Packet::Nothing => false,
        Packet::At { s, a, b, i } => is_same(cells, &[*s, *a, *b, *i]),
    }
}

// Whether a tuple is in the state that is shown.
fn is_shown(view: &View, pred: Pred, cells: &Cells) -> bool
    ensures { result ≡ shown view.now pred cells.now }
{
    match view.gone {
        None => view.state.has(pred, cells),
        Some(gone) => view.state.has(pred, cells) && !gone.has(pred, cells),
    }
}

/// Whether a tuple is in a relation. It takes log n steps.
pub fn holds(view: &View, pred: Pred, cells: &Cells) -> bool
    ensures { result ≡ holds_in view.now.program.now view.now.network.now (shown view.now) view.now.packet.now pred cells.now }
{
    match pred {
        Pred::Stored(rel) => {
            if is_fixed(view.program, rel) {
                view.network.holds(rel, cells)
            } else {
                is_shown(view, pred, cells)
            }
        }
        Pred::Ft | Pred::Sent => is_shown(view, pred, cells),
        Pred::RcvThis => is_of_packet(view.packet, cells.as_slice()),
    }
}

/// The element that a term stands for; 0 for a variable that `env` doesn't name.
pub fn value(view: &View, env: &Env, term: Term) -> u64
    ensures { result ≡ value_of (world view.now) (assignment env.now.pairs) term }
{
    match term {
        Term::Var(var) => env.value(var),
        Term::Const(id) => view.network.value(id),
        Term::Port(number) => u64::from(number),
    }
}

/// The tuple that a list of terms stands for.
pub fn values(view: &View, env: &Env, terms: &[Term]) -> Cells
    requires { length terms.now ≤ 5 }
    ensures { result ≡ values_of (world view.now) (assignment env.now.pairs) terms.now }
{
    let mut cells = Cells::new();
    for term in terms {
        cells.push(value(view, env, *term));
    }
    cells
}
