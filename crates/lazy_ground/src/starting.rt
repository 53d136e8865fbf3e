//! The first clauses of a sentence.
#![tactic(auto)]

ghost use Rattle.std.specs.Prelude.{◌≡◌, ◌↔◌, List, IfOk};
ghost use Rattle.csdn_core.specs.Members.{IsIn};
ghost use Rattle.csdn_core.specs.Satisfied.{HasNetwork};
ghost use Rattle.clause_log.specs.Literals.{Literal};
ghost use Rattle.fol_forms.specs.Counts.{count_of};
ghost use Rattle.fol_forms.specs.Forms.{form_of};
ghost use Rattle.decision_laws.specs.Laws.{IsSentence, AreTied, HasModel, atoms as atoms_of, sentence_copies};
ghost use Rattle.decision_laws.specs.Simplified.{simplified};
ghost use Rattle.form_trees.specs.Trees.{IsMeasured, tree_form};
ghost use Rattle.ground_inst.specs.Copies.{copies_over};
ghost use Rattle.ground_inst.specs.Facts.{AreFactsOf};
ghost use Rattle.lazy_ground.specs.First.{AreFirst, first_clauses};
ghost use Rattle.lazy_ground.specs.Lazy.{IsLazy};

use crate::collecting::without_twins;
use crate::opening::write_open;
use crate::sentence::LazyGround;
use clause_log::Clauses;
use csdn_core::program::{Parts, Program};
use csdn_core::syntax::Formula;
use form_trees::building::form_tree;
use form_trees::trees::FormTree;
use ground_inst::facts::{Facts, facts_of};
use ground_inst::making::atoms_with;
use ground_inst::rows::Rows;
use ground_inst::sentence::Ground;
use ground_inst::simplify::simplify;
use std::alloc::{AllocError, Global};

/// The clauses of the parts of a sentence that stand under no `forall`, each once, and none of equality. `AllocError` also where
/// the sentence has 2^62 atoms or more.
pub fn ground_start(
    alloc: Global,
    program: &Program,
    sentence: &Formula,
) -> Result<LazyGround, AllocError>
    requires { IsSentence program.now sentence.now }
    ensures lazy { IfOk result (IsLazy program.now sentence.now) }
    ensures exact { IfOk result (λ g. (c : List Literal) → IsIn c g.made.clauses.clauses ↔ IsIn c (first_clauses program.now sentence.now)) }
    ensures tied { IfOk result (λ g. AreTied program.now sentence.now g.made.clauses.clauses) }
    ensures models { IfOk result (λ g. HasNetwork program.now sentence.now → HasModel g.made.clauses.clauses) }
{
    let parts = program.parts();
    let facts = facts_of(alloc, parts, sentence)?;
    let simple = simplify(alloc, sentence)?;
    let tree = form_tree(alloc, &facts.counts, simple.get())?;
    let clauses = first_of(alloc, parts, &facts, sentence, simple.get(), tree.get())?;
    let sentence = sentence.copy(alloc)?;
    Ok(LazyGround {
        made: Ground {
            sentence,
            facts,
            clauses,
        },
        tree,
    })
}

// The first clauses of a sentence with these facts, each once.
fn first_of(
    alloc: Global,
    parts: &Parts,
    facts: &Facts,
    sentence: &Formula,
    simple: &Formula,
    tree: &FormTree,
) -> Result<Clauses, AllocError>
    requires closed { IsSentence parts.now sentence.now }
    requires facts { AreFactsOf parts.now sentence.now facts.now }
    requires simple { form_of simple.now ≡ simplified (form_of sentence.now) }
    requires tree { copies_over parts.now (count_of facts.now.counts) (tree_form tree.now) ≡ sentence_copies parts.now sentence.now }
    requires measured { IsMeasured (count_of facts.now.counts) tree.now }
    ensures atoms { IfOk result (λ made. made.atoms ≡ atoms_of parts.now sentence.now) }
    ensures clauses { IfOk result (λ made. AreFirst parts.now sentence.now made.clauses) }
{
    let atoms = atoms_with(facts, simple)?;
    let mut rows = Rows::new(alloc);
    write_open(alloc, parts, facts, tree, &mut rows)?;
    // Equal ones are those of a conjunction of one leaf with itself, and stand side by side.
    without_twins(alloc, &rows.into_clauses(atoms))
}
