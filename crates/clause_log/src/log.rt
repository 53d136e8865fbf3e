//! Logs: steps that each add a clause, with the hints from which it follows.

ghost use Rattle.std.specs.Prelude.{◌≡◌, ◌+◌, ◌++◌, [], ◌∷◌, OnOk, OnErr, length};

use crate::lit::Lit;
use crate::rows::{append, row_of};
use std::alloc::{AllocError, Global};
use std::marker::Model;

/// A list of steps. A step adds a clause, of literals of distinct atoms; its hints are the numbers of earlier
/// clauses from which it follows.
///
/// It is kept flat. In contracts it is the list of the steps, which stand at places from 0.
#[derive(Drop)]
pub struct Log {
    literals: Vec<Lit>,
    literal_ends: Vec<usize>,
    hints: Vec<u64>,
    hint_ends: Vec<usize>,
}

impl Model for Log {
    ghost use Rattle.std.specs.Prelude.{List};
    ghost use Rattle.clause_log.specs.Refutations.{Step};
    ghost use Rattle.clause_log.specs.Rows.{split, steps_of, AreFlatSteps};

    ghost Value = { List Step };

    ghost view = { λ l. steps_of (split 0 l.literal_ends.items l.literals.items) (split 0 l.hint_ends.items l.hints.items) };

    ghost invariant = { λ l. AreFlatSteps l.literal_ends.items l.literals.items l.hint_ends.items l.hints.items };
}

impl Log {
    ghost use Rattle.std.specs.Prelude.{◌≡◌, ◌<◌, [], ◌∷◌, ◌++◌, IfOk, OnOk, OnErr, length, true, slice_index_or};
    ghost use Rattle.clause_log.specs.Literals.{has_distinct_atoms};
    ghost use Rattle.clause_log.specs.Refutations.{no_step};

    /// A log without steps.
    pub fn try_new(alloc: Global) -> Result<Log, AllocError>
        ensures { IfOk result (λ l. l ≡ []) }
    {
        Ok(Log {
            literals: Vec::new(alloc),
            literal_ends: Vec::new(alloc),
            hints: Vec::new(alloc),
            hint_ends: Vec::new(alloc),
        })
    }

    /// Appends the step with these literals and hints. Nothing is changed on want of memory.
    pub fn push(&mut self, lits: &[Lit], hints: &[u64]) -> Result<(), AllocError>
        requires { has_distinct_atoms lits.now ≡ true }
        ensures ok { OnOk result (self.new ≡ self.old ++ record { literals = lits.now; hints = hints.now } ∷ []) }
        ensures err { OnErr result (self.new ≡ self.old) }
    {
        append_step(
            &mut self.literals,
            &mut self.literal_ends,
            &mut self.hints,
            &mut self.hint_ends,
            lits,
            hints,
        )
    }

    /// How many steps there are.
    pub fn len(&self) -> usize
        ensures { result ≡ length self.now }
    {
        self.literal_ends.len()
    }

    /// The literals of the step at this place.
    pub fn literals(&self, at: usize) -> &[Lit]
        requires { at < length self.now }
        ensures value { result.now ≡ (slice_index_or self.now at no_step).literals }
        ensures distinct { has_distinct_atoms result.now ≡ true }
    {
        row_of(&self.literals, &self.literal_ends, at)
    }

    /// The hints of the step at this place.
    pub fn hints(&self, at: usize) -> &[u64]
        requires { at < length self.now }
        ensures { result.now ≡ (slice_index_or self.now at no_step).hints }
    {
        row_of(&self.hints, &self.hint_ends, at)
    }
}

// Appends a row to both, or to neither.
fn append_step(
    literals: &mut Vec<Lit>,
    literal_ends: &mut Vec<usize>,
    hints: &mut Vec<u64>,
    hint_ends: &mut Vec<usize>,
    lits: &[Lit],
    named: &[u64],
) -> Result<(), AllocError>
    ensures literals { OnOk result (literals.new.items ≡ literals.old.items ++ lits.now) }
    ensures literal_ends { OnOk result (literal_ends.new.items ≡ literal_ends.old.items ++ (length literals.old.items + length lits.now) ∷ []) }
    ensures hints { OnOk result (hints.new.items ≡ hints.old.items ++ named.now) }
    ensures hint_ends { OnOk result (hint_ends.new.items ≡ hint_ends.old.items ++ (length hints.old.items + length named.now) ∷ []) }
    ensures same_literals { OnErr result (literals.new.items ≡ literals.old.items) }
    ensures same_literal_ends { OnErr result (literal_ends.new.items ≡ literal_ends.old.items) }
    ensures same_hints { OnErr result (hints.new.items ≡ hints.old.items) }
    ensures same_hint_ends { OnErr result (hint_ends.new.items ≡ hint_ends.old.items) }
{
    let start = literals.len();
    let steps = literal_ends.len();
    append(literals, literal_ends, lits)?;
    if append(hints, hint_ends, named).is_err() {
        literals.truncate(start);
        literal_ends.truncate(steps);
        return Err(AllocError);
    }
    Ok(())
}
