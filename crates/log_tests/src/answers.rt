//! What is said of blocks: worked answers, and refutations that are given back to the checker.
use clause_listing::list_clauses;
use std::alloc::{AllocError, Global};
use std::test::*;
use text_lines::LineRefusal;

const HEADER: &[u8] = b"vericon-log 1\nblock b\n";

// What a table wants of a block.
#[derive(Clone, Copy, Debug)]
enum Wanted {
    // This line.
    Line(&'static [u8]),
    // Any model.
    Model,
    // Steps that are accepted.
    Refuted,
}

// A text of one block, with these lines and these steps.
fn one_block(alloc: Global, lines: &[u8], steps: &[u8]) -> Result<Vec<u8>, AllocError> {
    let mut text = HEADER.to_vec(alloc)?;
    text.extend_from_slice(lines)?;
    text.extend_from_slice(steps)?;
    text.extend_from_slice(b"end\n")?;
    Ok(text)
}

fn listed(alloc: Global, lines: &[u8], steps: &[u8]) -> Result<Vec<u8>, Fail> {
    let text = one_block(alloc, lines, steps)?;
    let listing = list_clauses(alloc, &text)?;
    Ok(listing.text)
}

// Whether the answer to a block with these lines is as wanted.
fn is_as_wanted(alloc: Global, lines: &[u8], wanted: Wanted) -> Result<bool, Fail> {
    let answer = listed(alloc, lines, b"")?;
    match wanted {
        Wanted::Line(line) => Ok(answer.as_slice() == line),
        Wanted::Model => Ok(answer.as_slice().starts_with(b"b: model ")),
        Wanted::Refuted => match answer.as_slice().strip_prefix(b"b: refuted\n") {
            Some(steps) => {
                let again = listed(alloc, lines, steps)?;
                Ok(again.as_slice() == b"b: accepted\n".as_slice())
            }
            None => Ok(false),
        },
    }
}

#[test]
fn each_block_has_a_model_or_steps_that_are_accepted(rt: HostRuntime) -> Result<(), Fail> {
    let cases: [(&[u8], Wanted); 20] = [
        // no clause
        (b"atoms 0\n", Wanted::Line(b"b: model\n")),
        (b"atoms 9\n", Wanted::Line(b"b: model\n")),
        // an empty clause, alone and among others
        (b"atoms 0\nc 0\n", Wanted::Refuted),
        (b"atoms 3\nc 1 2 0\nc 0\nc 3 0\n", Wanted::Refuted),
        // one literal
        (b"atoms 1\nc 1 0\n", Wanted::Line(b"b: model 1\n")),
        (b"atoms 7\nc -7 0\n", Wanted::Line(b"b: model -7\n")),
        (b"atoms 1\nc 1 0\nc -1 0\n", Wanted::Refuted),
        // chains of units, rising and falling
        (
            b"atoms 5\nc 1 0\nc -1 2 0\nc -2 -3 0\nc 3 4 0\nc -4 5 0\n",
            Wanted::Line(b"b: model 1 2 -3 4 5\n"),
        ),
        (
            b"atoms 4\nc -4 3 0\nc -3 2 0\nc -2 1 0\nc -1 0\nc 4 0\n",
            Wanted::Refuted,
        ),
        // all signs of two and of three atoms; and all but one
        (
            b"atoms 2\nc 1 2 0\nc 1 -2 0\nc -1 2 0\nc -1 -2 0\n",
            Wanted::Refuted,
        ),
        (
            b"atoms 2\nc 1 2 0\nc 1 -2 0\nc -1 2 0\n",
            Wanted::Line(b"b: model 1 2\n"),
        ),
        (
            b"atoms 3\nc 1 2 3 0\nc 1 2 -3 0\nc 1 -2 3 0\nc 1 -2 -3 0\nc -1 2 3 0\nc -1 2 -3 0\nc -1 -2 3 0\nc -1 -2 -3 0\n",
            Wanted::Refuted,
        ),
        (
            b"atoms 3\nc 1 2 3 0\nc 1 2 -3 0\nc 1 -2 3 0\nc 1 -2 -3 0\nc -1 2 3 0\nc -1 2 -3 0\nc -1 -2 3 0\n",
            Wanted::Line(b"b: model 1 2 3\n"),
        ),
        // two models
        (b"atoms 2\nc 1 2 0\nc -1 -2 0\n", Wanted::Model),
        // either of two, and a clause twice
        (b"atoms 9\nc 8 9 0\nc 8 9 0\n", Wanted::Model),
        // three pigeons in two holes
        (
            b"atoms 6\nc 1 2 0\nc 3 4 0\nc 5 6 0\nc -1 -3 0\nc -1 -5 0\nc -3 -5 0\nc -2 -4 0\nc -2 -6 0\nc -4 -6 0\n",
            Wanted::Refuted,
        ),
        // two pigeons in two holes
        (
            b"atoms 4\nc 1 2 0\nc 3 4 0\nc -1 -3 0\nc -2 -4 0\n",
            Wanted::Model,
        ),
        // a cycle of five can't be coloured with two colours, a cycle of four can
        (
            b"atoms 5\nc 1 2 0\nc -1 -2 0\nc 2 3 0\nc -2 -3 0\nc 3 4 0\nc -3 -4 0\nc 4 5 0\nc -4 -5 0\nc 5 1 0\nc -5 -1 0\n",
            Wanted::Refuted,
        ),
        (
            b"atoms 4\nc 1 2 0\nc -1 -2 0\nc 2 3 0\nc -2 -3 0\nc 3 4 0\nc -3 -4 0\nc 4 1 0\nc -4 -1 0\n",
            Wanted::Model,
        ),
        // the greatest atoms
        (
            b"atoms 4611686018427387903\nc 4611686018427387903 4611686018427387902 0\nc 4611686018427387903 -4611686018427387902 0\nc -4611686018427387903 4611686018427387902 0\nc -4611686018427387903 -4611686018427387902 0\n",
            Wanted::Refuted,
        ),
    ];
    for (lines, wanted) in cases {
        assert!(rt; is_as_wanted(rt.alloc(), lines, wanted)?);
    }
    Ok(())
}

// The number of the first bad line, of a text that is refused.
fn first_bad_line(alloc: Global, text: &[u8]) -> Option<u64> {
    match list_clauses(alloc, text) {
        Err(LineRefusal::Line { number, .. }) => Some(number),
        _ => None,
    }
}

#[test]
fn a_text_with_a_bad_line_has_no_listing(rt: HostRuntime) {
    let cases: [(&[u8], u64); 3] = [
        (b"", 1),
        (b"vericon-log 1\nblock b\natoms 1\nc 2 0\nend\n", 4),
        (b"vericon-log 1\nblock b\natoms 1\nc 1 0\nend\nblock c\n", 7),
    ];
    for (text, number) in cases {
        assert_eq!(rt; first_bad_line(rt.alloc(), text), Some(number));
    }
}

// Six birds in five holes: atom 5 * (p - 1) + h says that bird p is in hole h.
fn birds(alloc: Global) -> Result<Vec<u8>, Fail> {
    let mut lines = b"atoms 30\n".to_vec(alloc)?;
    for bird in 0..6u64 {
        let first = 5 * bird;
        let line = format!(in alloc;
            "c {} {} {} {} {} 0\n",
            first + 1,
            first + 2,
            first + 3,
            first + 4,
            first + 5
        )?;
        lines.extend_from_slice(line.as_bytes())?;
    }
    for hole in 1..6u64 {
        for bird in 0..6u64 {
            for other in 0..bird {
                let line = format!(in alloc; "c -{} -{} 0\n", 5 * bird + hole, 5 * other + hole)?;
                lines.extend_from_slice(line.as_bytes())?;
            }
        }
    }
    Ok(lines)
}

// Twenty pairs, on which nothing hangs, and all signs of two more atoms.
fn pairs(alloc: Global) -> Result<Vec<u8>, Fail> {
    let mut lines = b"atoms 42\n".to_vec(alloc)?;
    for pair in 0..20u64 {
        let line = format!(in alloc; "c {} {} 0\n", 2 * pair + 1, 2 * pair + 2)?;
        lines.extend_from_slice(line.as_bytes())?;
    }
    lines.extend_from_slice(b"c 41 42 0\nc 41 -42 0\nc -41 42 0\nc -41 -42 0\n")?;
    Ok(lines)
}

fn line_count(text: &[u8]) -> usize {
    let mut count = 0usize;
    for byte in text {
        if *byte == b'\n' {
            count = count.saturating_add(1);
        }
    }
    count
}

#[test]
fn what_is_learned_of_birds_in_holes_is_accepted(rt: HostRuntime) -> Result<(), Fail> {
    let lines = birds(rt.alloc())?;
    assert!(rt; is_as_wanted(rt.alloc(), &lines, Wanted::Refuted)?);
    Ok(())
}

// A search that learns gives two steps, whichever atoms are decided first.
#[test]
fn choices_on_which_no_conflict_hangs_cost_no_step(rt: HostRuntime) -> Result<(), Fail> {
    let lines = pairs(rt.alloc())?;
    assert!(rt; is_as_wanted(rt.alloc(), &lines, Wanted::Refuted)?);
    let answer = listed(rt.alloc(), &lines, b"")?;
    assert_eq!(rt; line_count(&answer), 3);
    Ok(())
}
