//! The words of a log's lines.

ghost use Rattle.std.specs.Prelude.{◌≡◌, ◌<◌, ◌≤◌, ◌^◌, [], true, IfSome, option_copied};
ghost use Rattle.std.specs.List.{list_all};
ghost use Rattle.text_lines.specs.Gives.{FindsSome};
ghost use Rattle.clause_log.specs.Literals.{is_clause, has_distinct_atoms as distinct};
ghost use Rattle.log_text.specs.Words.{are_printable as printable, atoms_of, clause_of, header_of, hints_from, is_name as is_block_name, literal_of, literals_from, name_of, positive_of, step_of};

use crate::distinct::has_distinct_atoms;
use clause_log::{Lit, MOST_HINT};
use std::alloc::Global;
use text_lines::{Words, behind_word, read_number};

/// Why a line isn't taken.
pub type Stop = text_lines::Stop<()>;

const MOST_ATOMS: u64 = 0x3fff_ffff_ffff_ffff;

// A number from 1 to `most`.
#[tactic(auto, unfolding(crate::specs::Words::positive_of))]
fn positive(word: &[u8], most: u64) -> Option<u64>
    ensures value { result ≡ positive_of most word.now }
    ensures from_one { IfSome result (λ n. 0 < n) }
    ensures within { IfSome result (λ n. n ≤ most) }
{
    let n = read_number(word, most)?;
    if n == 0 { None } else { Some(n) }
}

#[tactic(auto, unfolding(crate::specs::Words::literal_of))]
fn literal(word: &[u8], atoms: u64) -> Option<Lit>
    requires { atoms < 2 ^ 62 }
    ensures { result ≡ literal_of atoms word.now }
{
    match word {
        [] => None,
        [b'-', digits @ ..] => {
            let atom = positive(digits, atoms)?;
            Some(Lit::negative(atom))
        }
        _ => {
            let atom = positive(word, atoms)?;
            Some(Lit::positive(atom))
        }
    }
}

// Appends the literals up to the word 0, and gives the words behind it.
fn literals<'a>(words: Words<'a>, atoms: u64, found: &mut Vec<Lit>) -> Result<Words<'a>, Stop>
    requires { atoms < 2 ^ 62 }
    ensures { FindsSome result (literals_from atoms found.old.items words.entry) (λ rest. (found.new.items, rest)) }
{
    let mut words = words;
    'words: loop {
        let Some((word, rest)) = words.next() else {
            return Err(Stop::Refused(()));
        };
        if word == b"0".as_slice() {
            return Ok(rest);
        }
        let Some(l) = literal(word, atoms) else {
            return Err(Stop::Refused(()));
        };
        if found.push(l).is_err() {
            return Err(Stop::Memory);
        }
        words = rest;
    }
}

// Appends the hints up to the word 0, and gives the words behind it.
fn hints<'a>(words: Words<'a>, found: &mut Vec<u64>) -> Result<Words<'a>, Stop>
    ensures { FindsSome result (hints_from found.old.items words.entry) (λ rest. (found.new.items, rest)) }
{
    let mut words = words;
    'words: loop {
        let Some((word, rest)) = words.next() else {
            return Err(Stop::Refused(()));
        };
        if word == b"0".as_slice() {
            return Ok(rest);
        }
        let Some(hint) = positive(word, MOST_HINT) else {
            return Err(Stop::Refused(()));
        };
        if found.push(hint).is_err() {
            return Err(Stop::Memory);
        }
        words = rest;
    }
}

/// Reads `vericon-log 1`; `None` for every other line.
#[tactic(auto, unfolding(crate::specs::Words::header_of))]
pub fn header(words: Words) -> Option<()>
    ensures { result ≡ header_of words.entry }
{
    let (name, words) = words.next()?;
    let (version, words) = words.next()?;
    if name == b"vericon-log".as_slice() && version == b"1".as_slice() {
        words.end()
    } else {
        None
    }
}

fn are_printable(bytes: &[u8]) -> bool
    ensures { result ≡ printable bytes.now }
{
    let mut rest = bytes;
    'bytes: while let [b, more @ ..] = rest {
        if *b < 32 || 126 < *b {
            return false;
        }
        rest = more;
    }
    true
}

fn is_name(name: &[u8]) -> bool
    ensures { result ≡ is_block_name name.now }
{
    if name.is_empty() || name.len() > 200 {
        return false;
    }
    are_printable(name)
}

/// The name of `block NAME`: the line behind its first word, of 1 to 200 bytes from 0x20 to 0x7e; `None` for every
/// other line.
#[tactic(auto, unfolding(crate::specs::Words::name_of))]
pub fn name(line: &[u8]) -> Option<&[u8]>
    ensures { option_copied result ≡ name_of line.now }
{
    let (key, _) = Words::new(line).next()?;
    let name = behind_word(line);
    if key == b"block".as_slice() && is_name(name) {
        Some(name)
    } else {
        None
    }
}

/// The number of `atoms N`, at most 2^62 - 1; `None` for every other line.
#[tactic(auto, unfolding(crate::specs::Words::atoms_of))]
pub fn atoms(words: Words) -> Option<u64>
    ensures value { result ≡ atoms_of words.entry }
    ensures small { IfSome result (λ n. n < 2 ^ 62) }
{
    let (key, words) = words.next()?;
    let (n, words) = words.number(MOST_ATOMS)?;
    words.end()?;
    if key == b"atoms".as_slice() {
        Some(n)
    } else {
        None
    }
}

/// The literals of `c LITERAL .. 0`, of distinct atoms from 1 to `atoms`, from the words behind `c`. Every other line
/// is `Refused`. It takes n log n steps.
#[tactic(auto, unfolding(crate::specs::Words::clause_of))]
pub fn clause(alloc: Global, words: Words, atoms: u64) -> Result<Vec<Lit>, Stop>
    requires { atoms < 2 ^ 62 }
    ensures { FindsSome result (clause_of atoms words.entry) (λ c. c.items) }
{
    let mut found = Vec::new(alloc);
    let rest = literals(words, atoms, &mut found)?;
    let Some(()) = rest.end() else {
        return Err(Stop::Refused(()));
    };
    match has_distinct_atoms(alloc, &found) {
        Ok(true) => Ok(found),
        Ok(false) => Err(Stop::Refused(())),
        Err(_) => Err(Stop::Memory),
    }
}

/// What a step line says: the clause that it adds, and the numbers of the clauses from which that follows.
#[derive(Drop)]
pub struct StepLine {
    pub literals: Vec<Lit>,
    pub hints: Vec<u64>,
}

/// The literals and hints of `s LITERAL .. 0 HINT .. 0`, from the words behind `s`: literals as in a clause, and hints
/// from 1 to 2^63 - 1. Every other line is `Refused`. It takes n log n steps.
#[tactic(auto, unfolding(crate::specs::Words::step_of))]
pub fn step(alloc: Global, words: Words, atoms: u64) -> Result<StepLine, Stop>
    requires { atoms < 2 ^ 62 }
    ensures { FindsSome result (step_of atoms words.entry) (λ s. record { literals = s.literals.items; hints = s.hints.items }) }
{
    let mut found = Vec::new(alloc);
    let mut named = Vec::new(alloc);
    let rest = literals(words, atoms, &mut found)?;
    let rest = hints(rest, &mut named)?;
    let Some(()) = rest.end() else {
        return Err(Stop::Refused(()));
    };
    match has_distinct_atoms(alloc, &found) {
        Ok(true) => Ok(StepLine {
            literals: found,
            hints: named,
        }),
        Ok(false) => Err(Stop::Refused(())),
        Err(_) => Err(Stop::Memory),
    }
}
