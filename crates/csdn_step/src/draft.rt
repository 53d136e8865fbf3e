//! A state that is being changed.
ghost use Rattle.std.specs.Prelude.{◌≡◌, not, ◌&&◌, [], ◌∷◌, IfOk, OnOk, OnErr};
ghost use Rattle.std.specs.List.{list_any};
ghost use Rattle.csdn_core.specs.declared.terms.Pred.TheVariants.{Ft as FlowTable};
ghost use Rattle.csdn_core.specs.Execution.{put, take_out, take_out_match};
ghost use Rattle.net_structs.specs.Flows.{match_cells};
ghost use Rattle.net_structs.specs.Networks.{has as has_element};
ghost use Rattle.csdn_step.specs.Courses.{differs as differs_in, either_alone, sends};
ghost use Rattle.net_structs.specs.Rows.{held};
ghost use Rattle.csdn_step.specs.Drafts.{standing, start_of, taken_each, without};

use csdn_core::event::Match;
use csdn_core::program::Program;
use csdn_core::terms::{Pred, Sort};
use net_structs::cells::Cells;
use net_structs::network::Network;
use net_structs::row::{Row, Rows};
use net_structs::state::State;
use sqlite_items::Items;
use std::alloc::{AllocError, Global};
use std::mem::replace;

/// A state, with what was done to it since its changes began. To put a tuple back could want memory, so the tuples that are
/// taken out stay in the state until the changes are kept, and are listed beside it.
#[derive(Drop)]
pub struct StateDraft {
    pub(crate) state: State,
    /// The tuples that count as taken out.
    pub(crate) gone: State,
    /// The tuples that were put in and hadn't been there.
    pub(crate) added: Rows,
}

impl StateDraft {
    /// Begins to change a state, which is empty meanwhile.
    pub(crate) fn begin(
        alloc: Global,
        program: &Program,
        state: &mut State,
    ) -> Result<StateDraft, AllocError>
        ensures begun { IfOk result (λ draft. draft ≡ record { state = state.old; gone = []; added = [] }) }
        ensures err { OnErr result (state.new ≡ state.old) }
    {
        let gone = State::try_empty(alloc, program)?;
        let meanwhile = State::try_empty(alloc, program)?;
        Ok(StateDraft {
            state: replace(state, meanwhile),
            gone,
            added: Items::new(alloc),
        })
    }

    /// Whether a tuple is in a relation as the state stands now.
    pub fn has(&self, pred: Pred, cells: &Cells) -> bool
        ensures { result ≡ standing self.now pred cells.now }
    {
        self.state.has(pred, cells) && !self.gone.has(pred, cells)
    }

    /// Puts a tuple into a relation, and says whether it is new there.
    pub(crate) fn insert(&mut self, pred: Pred, cells: &Cells) -> Result<bool, AllocError>
        ensures is_new { IfOk result (λ is_new. is_new ≡ not (standing self.old pred cells.now)) }
        ensures put { OnOk result (standing self.new ≡ put (standing self.old) pred cells.now) }
        ensures start { start_of self.new ≡ start_of self.old }
    {
        let was_gone = self.gone.remove(pred, cells);
        if self.state.has(pred, cells) {
            return Ok(was_gone);
        }
        self.added.push(Row {
            pred,
            cells: cells.copy(),
        })?;
        self.state.insert(pred, cells)
    }

    /// Takes a tuple out of a relation, and says whether it was there.
    pub(crate) fn remove(&mut self, pred: Pred, cells: &Cells) -> Result<bool, AllocError>
        ensures was_there { IfOk result (λ was_there. was_there ≡ standing self.old pred cells.now) }
        ensures taken { OnOk result (standing self.new ≡ take_out (standing self.old) pred cells.now) }
        ensures start { start_of self.new ≡ start_of self.old }
    {
        if !self.state.has(pred, cells) {
            return Ok(false);
        }
        self.gone.insert(pred, cells)
    }

    /// Takes out the flow rules of a match.
    pub(crate) fn remove_flows(&mut self, alloc: Global, key: &Match) -> Result<(), AllocError>
        ensures taken { OnOk result (standing self.new ≡ take_out_match (standing self.old) (match_cells key.now)) }
        ensures start { start_of self.new ≡ start_of self.old }
    {
        let ports = self.state.outputs(alloc, key)?;
        remove_each(self, key, ports.as_slice())
    }

    /// Whether a match has another set of outputs, among the ports of a network, than when the changes began.
    pub(crate) fn differs(
        &self,
        alloc: Global,
        network: &Network,
        key: &Match,
    ) -> Result<bool, AllocError>
        ensures { IfOk result (λ other. other ≡ differs_in network.now.ports (held (start_of self.now)) (standing self.now) key.now) }
    {
        self.state.rises();
        let ports = self.state.outputs(alloc, key)?;
        Ok(is_any_changed(self, network, key, ports.as_slice()))
    }

    /// The state as it stands now. It takes no memory.
    pub fn kept(self) -> State
        ensures { held result ≡ standing self }
    {
        let StateDraft {
            mut state,
            gone,
            ..
        } = self;
        state.remove_all(&gone);
        state
    }

    /// The state as it was when the changes began. It takes no memory.
    pub fn undone(self) -> State
        ensures { result ≡ start_of self }
    {
        let StateDraft {
            mut state,
            added,
            ..
        } = self;
        take_all(&mut state, added);
        state
    }
}

// Takes rows out of a state, the last first.
fn take_all(state: &mut State, rows: Rows)
    ensures { state.new ≡ without rows state.old }
{
    let mut left = rows;
    'rows: while let Some(row) = left.pop() {
        state.remove(row.pred, &row.cells);
    }
}

// Takes out the flow rules of a match that send from these ports.
fn remove_each(draft: &mut StateDraft, key: &Match, ports: &[u64]) -> Result<(), AllocError>
    ensures taken { OnOk result (standing draft.new ≡ taken_each key.now ports.now (standing draft.old)) }
    ensures start { start_of draft.new ≡ start_of draft.old }
{
    let mut rest = ports;
    'ports: while let [o, more @ ..] = rest {
        draft.remove(Pred::Ft, &flow(key, *o))?;
        rest = more;
    }
    Ok(())
}

// The tuple of a flow rule.
fn flow(key: &Match, o: u64) -> Cells
    ensures { result ≡ key.now.s ∷ key.now.a ∷ key.now.b ∷ key.now.i ∷ o ∷ [] }
{
    Cells::of(&[key.s, key.a, key.b, key.i, o])
}

// Whether a tuple was put in and hadn't been there.
fn is_added(draft: &StateDraft, row: &Row) -> bool
    ensures { result ≡ held draft.now.added row.now.pred row.now.cells }
{
    draft.added.as_slice().contains(row)
}

// Whether a flow rule that is in the state or gone is not what it was.
fn is_changed(draft: &StateDraft, key: &Match, o: u64) -> bool
    ensures { result ≡ either_alone (sends (held draft.now.added) key.now o) (sends (held draft.now.gone) key.now o) }
{
    let row = Row {
        pred: Pred::Ft,
        cells: flow(key, o),
    };
    if is_added(draft, &row) {
        !draft.gone.has(row.pred, &row.cells)
    } else {
        draft.gone.has(row.pred, &row.cells)
    }
}

fn is_any_changed(draft: &StateDraft, network: &Network, key: &Match, ports: &[u64]) -> bool
    ensures { result ≡ list_any (λ o. has_element network.now.ports o && either_alone (sends (held draft.now.added) key.now o) (sends (held draft.now.gone) key.now o)) ports.now }
{
    ports.iter().any(|o| network.has(Sort::Pr, *o) && is_changed(draft, key, *o))
}
