//! The lines of a listing.

ghost use Rattle.std.specs.Prelude.{◌≡◌, ℕ, List, ◌++◌, IfOk, OnOk, map, codes};
ghost use Rattle.std.specs.List.{flat_map};
ghost use Rattle.clause_log.specs.Literals.{truths};
ghost use Rattle.clause_log.specs.Refutations.{is_refutation};
ghost use Rattle.text_lines.specs.Printed.{line_text, spaced};
ghost use Rattle.log_text.specs.LogText.{step_words};
ghost use Rattle.clause_listing.specs.Answers.{IsAnswer, model_words, verdict};

use crate::named::named_atoms;
use clause_log::{Clauses, Log, Valuation, accepts};
use clause_search::{Outcome, solve};
use log_text::{put_next_literal, put_steps};
use std::alloc::{AllocError, Global};
use text_lines::{put_line_end, put_word};

/// Appends `: accepted` or `: not accepted` and a line end, by whether the log refutes the clauses. The answer says so
/// too.
pub fn put_verdict(
    alloc: Global,
    out: &mut Vec<u8>,
    clauses: &Clauses,
    log: &Log,
) -> Result<bool, AllocError>
    ensures text { OnOk result (out.new.items ≡ out.old.items ++ verdict clauses.now log.now) }
    ensures answer { IfOk result (λ good. good ≡ is_refutation clauses.now.clauses log.now) }
{
    let good = accepts(alloc, clauses, log)?;
    if good {
        put_word(out, b": accepted\n")?;
    } else {
        put_word(out, b": not accepted\n")?;
    }
    Ok(good)
}

/// Appends a model of the clauses, or the steps of a refutation (docs/COMMANDS.md, "clauses").
pub fn put_answer(alloc: Global, out: &mut Vec<u8>, clauses: &Clauses) -> Result<(), AllocError>
    ensures { OnOk result ((said : List ℕ) × IsAnswer clauses.now said × (out.new.items ≡ out.old.items ++ said)) }
{
    match solve(alloc, clauses)? {
        Outcome::Model(valuation) => {
            let atoms = named_atoms(alloc, clauses)?;
            put_model(out, &valuation, &atoms)
        }
        Outcome::Refuted(log) => put_refutation(out, &log),
    }
}

fn put_model(out: &mut Vec<u8>, valuation: &Valuation, atoms: &[u64]) -> Result<(), AllocError>
    ensures { OnOk result (out.new.items ≡ out.old.items ++ (codes ": model" ++ spaced (model_words (truths valuation.now) atoms.now) ++ codes "\n")) }
{
    put_word(out, b": model")?;
    put_literals_of(out, valuation, atoms)?;
    put_line_end(out)
}

fn put_literals_of(
    out: &mut Vec<u8>,
    valuation: &Valuation,
    atoms: &[u64],
) -> Result<(), AllocError>
    ensures { OnOk result (out.new.items ≡ out.old.items ++ spaced (model_words (truths valuation.now) atoms.now)) }
{
    let mut rest = atoms;
    'atoms: while let [atom, more @ ..] = rest {
        put_next_literal(out, valuation.value(*atom), *atom)?;
        rest = more;
    }
    Ok(())
}

fn put_refutation(out: &mut Vec<u8>, log: &Log) -> Result<(), AllocError>
    ensures { OnOk result (out.new.items ≡ out.old.items ++ (codes ": refuted\n" ++ flat_map line_text (map step_words log.now))) }
{
    put_word(out, b": refuted\n")?;
    put_steps(out, log)
}
