//! From a sentence to its clauses.
#![tactic(auto)]

ghost use Rattle.std.specs.Prelude.{◌≡◌, ◌+◌, ◌<◌, ◌^◌, ◌++◌, ◌↔◌, suc, IfOk};
ghost use Rattle.fol_forms.specs.Counts.{count_of};
ghost use Rattle.fol_forms.specs.Forms.{form_of};
ghost use Rattle.decision_laws.specs.Clauses.{equality_clauses, whole_clauses};
ghost use Rattle.csdn_core.specs.Satisfied.{HasNetwork};
ghost use Rattle.decision_laws.specs.Laws.{IsSentence, AreTied, HasModel, atoms as atoms_of, clauses as clauses_wanted};
ghost use Rattle.decision_laws.specs.Weights.{weight as weight_of};
ghost use Rattle.ground_inst.specs.Copies.{copies_over};
ghost use Rattle.ground_inst.specs.Facts.{AreFactsOf, num_of, vocabulary_of};
ghost use Rattle.ground_inst.specs.Ground.{IsGround};

use crate::equality::write_equality;
use crate::facts::{Facts, facts_of};
use crate::room::room_of;
use crate::rows::Rows;
use crate::sentence::Ground;
use crate::simplify::simplify;
use crate::walk::write_copies;
use crate::weights::weight;
use clause_log::Clauses;
use csdn_core::program::{Parts, Program};
use csdn_core::syntax::Formula;
use std::alloc::{AllocError, Global};

/// The clauses of a sentence of the program: those of its copies, and those of equality. `AllocError` also where they have 2^62
/// atoms or more. Literals and ends are kept flat, in room that is taken once.
pub fn ground(alloc: Global, program: &Program, sentence: &Formula) -> Result<Ground, AllocError>
    requires { IsSentence program.now sentence.now }
    ensures exact { IfOk result (IsGround program.now sentence.now) }
    ensures tied { IfOk result (λ g. AreTied program.now sentence.now g.clauses.clauses) }
    ensures models { IfOk result (λ g. HasModel g.clauses.clauses ↔ HasNetwork program.now sentence.now) }
{
    let parts = program.parts();
    let facts = facts_of(alloc, parts, sentence)?;
    let clauses = clauses_of(alloc, parts, &facts, sentence)?;
    let sentence = sentence.copy(alloc)?;
    Ok(Ground {
        sentence,
        facts,
        clauses,
    })
}

/// The clauses of a sentence with these facts, in room that is taken once. `AllocError` also where they have 2^62 atoms or more.
pub fn clauses_of(
    alloc: Global,
    parts: &Parts,
    facts: &Facts,
    sentence: &Formula,
) -> Result<Clauses, AllocError>
    requires closed { IsSentence parts.now sentence.now }
    requires facts { AreFactsOf parts.now sentence.now facts.now }
    ensures atoms { IfOk result (λ made. made.atoms ≡ atoms_of parts.now sentence.now) }
    ensures clauses { IfOk result (λ made. made.clauses ≡ clauses_wanted parts.now sentence.now) }
{
    let simple = simplify(alloc, sentence)?;
    let atoms = atoms_with(facts, simple.get())?;
    let rows = rows_of(alloc, parts, facts, simple.get())?;
    Ok(rows.into_clauses(atoms))
}

/// How many atoms the clauses of a formula's copies have. It takes no memory; `AllocError` where they are 2^62 or more.
pub fn atoms_with(facts: &Facts, formula: &Formula) -> Result<u64, AllocError>
    ensures value { IfOk result (λ atoms. atoms ≡ facts.now.count + weight_of (count_of facts.now.counts) (form_of formula.now)) }
    ensures small { IfOk result (λ atoms. atoms < 2 ^ 62) }
{
    let nodes = weight(&facts.counts, formula, true)?;
    let atoms = facts.count.checked_add(nodes).ok_or(AllocError)?;
    if atoms < 1 << 62 {
        Ok(atoms)
    } else {
        Err(AllocError)
    }
}

// The clauses of a formula's copies, and those of equality.
fn rows_of(
    alloc: Global,
    parts: &Parts,
    facts: &Facts,
    formula: &Formula,
) -> Result<Rows, AllocError>
    ensures { IfOk result (λ rows. rows ≡ whole_clauses (num_of facts.now) (suc facts.now.count) (copies_over parts.now (count_of facts.now.counts) (form_of formula.now)) ++ equality_clauses (num_of facts.now) (count_of facts.now.counts) (vocabulary_of parts.now facts.now)) }
{
    let first = facts.count.checked_add(1).ok_or(AllocError)?;
    let room = room_of(parts, facts, formula);
    let mut rows = Rows::with_room(alloc, room.clauses as usize, room.literals as usize)?;
    write_copies(alloc, parts, facts, formula, first, &mut rows)?;
    write_equality(alloc, parts, facts, &mut rows)?;
    Ok(rows)
}
