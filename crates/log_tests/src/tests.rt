//! Log texts that are accepted, not accepted or refused, and what is printed of blocks.

use clause_log::{Clauses, Lit, Log, accepts};
use log_text::{Block, print_log, read_log};
use sqlite_items::Items;
use std::alloc::Global;
use std::test::*;
use text_lines::LineRefusal;

// What becomes of the first block of a text.
#[derive(Clone, Copy, Debug, PartialEq, Eq)]
enum Verdict {
    Accepted,
    NotAccepted,
    NoBlock,
    NoLog,
    Refused(u64),
    Memory,
}

fn checked(alloc: Global, text: &[u8]) -> Verdict {
    let blocks = match read_log(alloc, text) {
        Ok(blocks) => blocks,
        Err(LineRefusal::Line { number, .. }) => return Verdict::Refused(number),
        Err(LineRefusal::Memory) => return Verdict::Memory,
    };
    let Some(block) = blocks.get(0) else {
        return Verdict::NoBlock;
    };
    let Some(log) = &block.log else {
        return Verdict::NoLog;
    };
    match accepts(alloc, &block.clauses, log) {
        Ok(true) => Verdict::Accepted,
        Ok(false) => Verdict::NotAccepted,
        Err(_) => Verdict::Memory,
    }
}

#[test]
fn refutations_are_accepted_and_other_logs_are_not(rt: HostRuntime) {
    let cases: [(&[u8], Verdict); 14] = [
        // all four signs of two atoms
        (
            b"vericon-log 1\nblock all signs\natoms 2\nc 1 2 0\nc 1 -2 0\nc -1 2 0\nc -1 -2 0\ns 1 0 1 2 0\ns 0 5 3 4 0\nend\n",
            Verdict::Accepted,
        ),
        // the last step has a literal
        (
            b"vericon-log 1\nblock b\natoms 2\nc 1 2 0\nc 1 -2 0\nc -1 2 0\nc -1 -2 0\ns 1 0 1 2 0\nend\n",
            Verdict::NotAccepted,
        ),
        // a step between, with a hint of a step
        (
            b"vericon-log 1\nblock b\natoms 2\nc 1 2 0\nc 1 -2 0\nc -1 2 0\nc -1 -2 0\ns 1 0 1 2 0\ns 2 0 5 3 0\ns 0 5 3 4 0\nend\n",
            Verdict::Accepted,
        ),
        // the greatest atom
        (
            b"vericon-log 1\nblock b\natoms 4611686018427387903\nc 4611686018427387903 0\nc -4611686018427387903 0\ns 0 1 2 0\nend\n",
            Verdict::Accepted,
        ),
        // the empty clause
        (
            b"vericon-log 1\nblock b\natoms 1\nc 0\ns 0 1 0\nend\n",
            Verdict::Accepted,
        ),
        // a step of an atom that is not among the clauses'
        (
            b"vericon-log 1\nblock b\natoms 3\nc 1 0\nc -1 0\ns -3 0 1 2 0\ns 0 1 2 0\nend\n",
            Verdict::Accepted,
        ),
        // no hint
        (
            b"vericon-log 1\nblock b\natoms 1\nc 1 0\nc -1 0\ns 0 0\nend\n",
            Verdict::NotAccepted,
        ),
        // its own number
        (
            b"vericon-log 1\nblock b\natoms 1\nc 1 0\ns 0 2 0\nend\n",
            Verdict::NotAccepted,
        ),
        // a later number
        (
            b"vericon-log 1\nblock b\natoms 1\nc 1 0\nc -1 0\ns 1 0 4 0\ns 0 1 2 0\nend\n",
            Verdict::NotAccepted,
        ),
        // the greatest hint
        (
            b"vericon-log 1\nblock b\natoms 1\nc 1 0\ns 0 9223372036854775807 0\nend\n",
            Verdict::NotAccepted,
        ),
        // the literal has a value already
        (
            b"vericon-log 1\nblock b\natoms 1\nc 1 0\nc -1 0\ns 0 1 1 2 0\nend\n",
            Verdict::NotAccepted,
        ),
        // two literals that are not false
        (
            b"vericon-log 1\nblock b\natoms 2\nc 1 2 0\nc -1 0\nc -2 0\ns 0 1 2 3 0\nend\n",
            Verdict::NotAccepted,
        ),
        // the last hint is not wholly false
        (
            b"vericon-log 1\nblock b\natoms 2\nc 1 0\nc -1 2 0\ns 0 1 2 0\nend\n",
            Verdict::NotAccepted,
        ),
        // a conflict before the last hint
        (
            b"vericon-log 1\nblock b\natoms 1\nc 1 0\nc -1 0\ns 0 1 2 2 0\nend\n",
            Verdict::NotAccepted,
        ),
    ];
    for (text, wanted) in cases {
        assert_eq!(rt; checked(rt.alloc(), text), wanted);
    }
}

#[test]
fn texts_are_read_or_refused_at_their_first_bad_line(rt: HostRuntime) {
    let cases: [(&[u8], Verdict); 30] = [
        (b"", Verdict::Refused(1)),
        (b"\n# only a comment\n  \n", Verdict::Refused(4)),
        (b"vericon-log 1", Verdict::NoBlock),
        (b"  # a comment\n\n  vericon-log   1  \n", Verdict::NoBlock),
        (b"vericon-log 2\n", Verdict::Refused(1)),
        (b"vericon-log 1 1\n", Verdict::Refused(1)),
        (b"vericon-log 1\nvericon-log 1\n", Verdict::Refused(2)),
        (b"vericon-log 1\natoms 1\n", Verdict::Refused(2)),
        (b"vericon-log 1\nblock\n", Verdict::Refused(2)),
        (b"vericon-log 1\nblock a\x7f\n", Verdict::Refused(2)),
        (b"vericon-log 1\nblock a\nblock b\n", Verdict::Refused(3)),
        (b"vericon-log 1\nblock a\natoms 01\n", Verdict::Refused(3)),
        (
            b"vericon-log 1\nblock a\natoms 4611686018427387904\n",
            Verdict::Refused(3),
        ),
        (b"vericon-log 1\nblock a\natoms 1 1\n", Verdict::Refused(3)),
        (
            b"vericon-log 1\nblock  a  b \n#\natoms 4611686018427387903\n\n end",
            Verdict::NoLog,
        ),
        (
            b"vericon-log 1\nblock a\natoms 2\nc 1 -2 0",
            Verdict::Refused(5),
        ),
        (
            b"vericon-log 1\nblock a\natoms 2\nc 1 -2\nend\n",
            Verdict::Refused(4),
        ),
        (
            b"vericon-log 1\nblock a\natoms 2\nc 1 0 2\nend\n",
            Verdict::Refused(4),
        ),
        (
            b"vericon-log 1\nblock a\natoms 2\nc 3 0\nend\n",
            Verdict::Refused(4),
        ),
        (
            b"vericon-log 1\nblock a\natoms 2\nc -3 0\nend\n",
            Verdict::Refused(4),
        ),
        (
            b"vericon-log 1\nblock a\natoms 2\nc -0 0\nend\n",
            Verdict::Refused(4),
        ),
        (
            b"vericon-log 1\nblock a\natoms 2\nc +1 0\nend\n",
            Verdict::Refused(4),
        ),
        (
            b"vericon-log 1\nblock a\natoms 2\nc 1 -1 0\nend\n",
            Verdict::Refused(4),
        ),
        (
            b"vericon-log 1\nblock a\natoms 9\nc 1 2 3 4 5 6 7 8 9 -1 0\nend\n",
            Verdict::Refused(4),
        ),
        (
            b"vericon-log 1\nblock a\natoms 9\nc 9 8 7 6 5 4 3 2 -1 0\nend\n",
            Verdict::NoLog,
        ),
        (
            b"vericon-log 1\nblock a\natoms 2\ns 0 9223372036854775808 0\nend\n",
            Verdict::Refused(4),
        ),
        (
            b"vericon-log 1\nblock a\natoms 2\ns 0 -1 0\nend\n",
            Verdict::Refused(4),
        ),
        (
            b"vericon-log 1\nblock a\natoms 2\ns 1 0\nend\n",
            Verdict::Refused(4),
        ),
        (
            b"vericon-log 1\nblock a\natoms 2\ns 1 0 1 0\nc 1 0\nend\n",
            Verdict::Refused(5),
        ),
        (
            b"vericon-log 1\nblock a\natoms 2\nend 0\n",
            Verdict::Refused(4),
        ),
    ];
    for (text, wanted) in cases {
        assert_eq!(rt; checked(rt.alloc(), text), wanted);
    }
}

#[test]
fn a_block_is_printed_line_by_line(rt: HostRuntime) -> Result<(), Fail> {
    let alloc = rt.alloc();
    let mut clauses = Clauses::try_new(alloc, 2)?;
    clauses.push(&[Lit::positive(1), Lit::negative(2)])?;
    clauses.push(&[Lit::negative(1)])?;
    let mut log = Log::try_new(alloc)?;
    log.push(&[Lit::negative(2)], &[2, 1])?;
    let name = Items::from_slice(alloc, b"two  words")?;
    let mut blocks = Items::new(alloc);
    blocks.push(Block {
        name,
        clauses,
        log: Some(log),
    })?;
    let text = print_log(alloc, &blocks)?;
    let wanted = b"vericon-log 1\nblock two  words\natoms 2\nc 1 -2 0\nc -1 0\ns -2 0 2 1 0\nend\n";
    assert_eq!(rt; text.as_slice(), wanted.as_slice());
    Ok(())
}
