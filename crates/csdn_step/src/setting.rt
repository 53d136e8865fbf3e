//! Where a command is executed.
ghost use Rattle.std.specs.Prelude.{◌≡◌, ◌<◌, ◌≤◌, ◌+◌, length};
ghost use Rattle.csdn_core.specs.Truth.{with_var};
ghost use Rattle.csdn_core.specs.Execution.{is_true as is_true_in, tuple};
ghost use Rattle.net_structs.specs.Binds.{assignment};
ghost use Rattle.csdn_core.specs.Depth.{depth};
ghost use Rattle.csdn_step.specs.Drafts.{standing};

use crate::draft::StateDraft;
use csdn_core::event::Packet;
use csdn_core::program::Program;
use csdn_core::syntax::Formula;
use csdn_core::terms::{Terms, VarId};
use net_structs::cells::Cells;
use net_structs::env::Env;
use net_structs::network::Network;
use net_structs::truth::truth_without;
use net_structs::view::{View, values};

/// Whether the packets sent are put into the state.
#[derive(Clone, Copy, Debug, PartialEq, Eq)]
pub enum Sending {
    Kept,
    Left,
}

/// What doesn't change while a handler is executed.
#[derive(Drop)]
pub struct Setting<'a> {
    pub program: &'a Program,
    pub network: &'a Network,
    pub sending: Sending,
}

/// Whether a formula is true in a draft as it stands, where the variable stands for this element and `env` says what
/// other free variables do. `env` needs room for one variable more than the formula binds at once, and is left as it
/// was.
pub fn is_true_of(
    setting: &Setting,
    draft: &StateDraft,
    env: &mut Env,
    var: VarId,
    element: u64,
    formula: &Formula,
) -> bool
    requires { length env.old.pairs + (depth formula.now + 1) ≤ env.old.room }
    ensures value { result ≡ is_true_in setting.now.program.now setting.now.network.now formula.now (with_var (assignment env.old.pairs) var element) (standing draft.now) }
    ensures same { env.new ≡ env.old }
{
    env.push(var, element);
    let is_true = is_true(setting, draft, env, formula);
    env.pop();
    is_true
}

/// Whether a formula is true in a draft as it stands, where `env` says what its free variables stand for. `env` needs
/// room for the variables that the formula binds at once, and is left as it was.
pub fn is_true(setting: &Setting, draft: &StateDraft, env: &mut Env, formula: &Formula) -> bool
    requires { length env.old.pairs + depth formula.now ≤ env.old.room }
    ensures value { result ≡ is_true_in setting.now.program.now setting.now.network.now formula.now (assignment env.old.pairs) (standing draft.now) }
    ensures same { env.new ≡ env.old }
{
    truth_without(
        setting.program,
        setting.network,
        &draft.state,
        &draft.gone,
        &Packet::Nothing,
        env,
        formula,
    )
}

/// The tuple that a list of terms stands for.
pub fn cells_of(setting: &Setting, draft: &StateDraft, env: &Env, terms: &Terms) -> Cells
    ensures { result ≡ tuple setting.now.program.now setting.now.network.now terms.now (assignment env.now.pairs) (standing draft.now) }
{
    let view = View {
        program: setting.program,
        network: setting.network,
        state: &draft.state,
        gone: Some(&draft.gone),
        packet: &Packet::Nothing,
    };
    values(&view, env, terms.as_slice())
}
