//! Worked texts: what is read, which line is refused, and what is printed.
use super::*;
use csdn_history::entry::Entry;
use std::alloc::Global;
use std::test::Fail;
use text_lines::LineRefusal;

// The number of the first bad line, of a text that is refused.
fn first_bad_line(alloc: Global, text: &[u8]) -> Option<u64> {
    match read_journal(alloc, text) {
        Err(LineRefusal::Line { number, .. }) => Some(number),
        _ => None,
    }
}

#[test]
fn the_first_bad_line_is_refused(rt: HostRuntime) {
    let cases: [(&[u8], u64); 40] = [
        // nothing, or lines that are passed over alone: one past the last line
        (b"", 1),
        (b"\n\n", 3),
        (b"# a comment\n   \n", 3),
        (b"# a comment", 2),
        // another header
        (b"vericon-journal 0\nend\n", 1),
        (b"vericon-journal 3\nend\n", 1),
        (b"vericon-journal 02\nend\n", 1),
        (b"vericon-journal\nend\n", 1),
        (b"vericon-journal 1 1\nend\n", 1),
        (b"vericon-net 1\nend\n", 1),
        (b"end\n", 1),
        (b"\n# a comment\njoin 0 1 1\n", 3),
        // no end
        (b"vericon-journal 1\n", 2),
        (b"vericon-journal 1", 2),
        (b"vericon-journal 1\njoin 0 1 1\n# a comment\n", 4),
        // something behind the end
        (b"vericon-journal 1\nend\nend\n", 3),
        (b"vericon-journal 1\nend\n\n#\njoin 0 1 1\n", 5),
        // another first word, or words behind `end`
        (b"vericon-journal 1\njoins 0 1 1\nend\n", 2),
        (b"vericon-journal 1\nJoin 0 1 1\nend\n", 2),
        (b"vericon-journal 1\nend 1\n", 2),
        // too few words and too many
        (b"vericon-journal 1\njoin 0 1\nend\n", 2),
        (b"vericon-journal 1\njoin 0 1 1 1\nend\n", 2),
        (b"vericon-journal 1\npacket 0 1 1 1 2\nend\n", 2),
        (b"vericon-journal 1\npacket 0 1 1 1 2 1 1\nend\n", 2),
        (b"vericon-journal 1\nflow 1 1 2 1\nend\n", 2),
        (b"vericon-journal 1\nflow 1 1 2 1 2 2\nend\n", 2),
        (b"vericon-journal 2\nend\nexpire 0 1 1 1 2 1 2\n", 3),
        // ends of rules, in the second version alone, with one number more than a packet
        (b"vericon-journal 1\nexpire 0 1 1 1 2 1 2\nend\n", 2),
        (b"vericon-journal 2\nexpire 0 1 1 1 2 1\nend\n", 2),
        (b"vericon-journal 2\nexpire 0 1 1 1 2 1 2 2\nend\n", 2),
        (
            b"vericon-journal 2\nexpire 0 1 1 1 2 1 18446744073709551616\nend\n",
            2,
        ),
        (
            b"vericon-journal 2\nexpire 4294967296 1 1 1 2 1 0\nend\n",
            2,
        ),
        // no numbers, signs, leading zeros
        (b"vericon-journal 1\njoin x 1 1\nend\n", 2),
        (b"vericon-journal 1\njoin 0 -1 1\nend\n", 2),
        (b"vericon-journal 1\npacket 0 1 01 1 2 1\nend\n", 2),
        // seats and sessions from 2 ^ 32 on, and elements from 2 ^ 64 on
        (b"vericon-journal 1\njoin 4294967296 1 1\nend\n", 2),
        (b"vericon-journal 1\npacket 0 4294967296 1 1 2 1\nend\n", 2),
        (
            b"vericon-journal 1\nflow 1 1 2 1 18446744073709551616\nend\n",
            2,
        ),
        // two bad lines, and two reasons in one line
        (b"vericon-journal 1\njoin 0 1\njoin x\nend\n", 2),
        (b"vericon-journal 1\njoin 0 1 1\njoin x 01\n", 3),
    ];
    for (text, number) in cases {
        assert_eq!(rt; first_bad_line(rt.alloc(), text), Some(number));
    }
}

// The text that is printed of what a text reads as.
fn printed_again(alloc: Global, text: &[u8]) -> Result<Vec<u8>, Fail> {
    let notes = read_journal(alloc, text)?;
    let printed = print_journal(alloc, &notes)?;
    let bytes = printed.as_slice().to_vec(alloc)?;
    Ok(bytes)
}

#[test]
fn spaces_and_comments_are_not_printed(rt: HostRuntime) -> Result<(), Fail> {
    let cases: [(&[u8], &[u8]); 7] = [
        (b"vericon-journal 1\nend", b"vericon-journal 1\nend\n"),
        (
            b"\n  # first\n vericon-journal   1 \n\n join 0 1 1\n#\npacket 0  1 1 1 2 1\n  flow 1 1 2 1 2  \nend\n\n# last",
            b"vericon-journal 1\njoin 0 1 1\npacket 0 1 1 1 2 1\nflow 1 1 2 1 2\nend\n",
        ),
        (
            b"vericon-journal 1\nflow 0 0 0 0 0\njoin 4294967295 4294967295 18446744073709551615\nend\n",
            b"vericon-journal 1\nflow 0 0 0 0 0\njoin 4294967295 4294967295 18446744073709551615\nend\n",
        ),
        (
            b"vericon-journal 1\npacket 1 2 3 4 5 6\npacket 1 2 3 4 5 6\nend\n",
            b"vericon-journal 1\npacket 1 2 3 4 5 6\npacket 1 2 3 4 5 6\nend\n",
        ),
        // the second version is printed exactly where a note says that rules ended
        (b" vericon-journal  2\nend", b"vericon-journal 1\nend\n"),
        (
            b"vericon-journal 2\njoin 0 1 1\nflow 1 1 2 1 2\nend\n",
            b"vericon-journal 1\njoin 0 1 1\nflow 1 1 2 1 2\nend\n",
        ),
        (
            b"vericon-journal 2\njoin 0 1 1\nexpire 0 1  1 1 2 1 18446744073709551615\nend",
            b"vericon-journal 2\njoin 0 1 1\nexpire 0 1 1 1 2 1 18446744073709551615\nend\n",
        ),
    ];
    for (text, wanted) in cases {
        let printed = printed_again(rt.alloc(), text)?;
        assert_eq!(rt; printed.as_slice(), wanted);
    }
    Ok(())
}

#[test]
fn each_line_is_one_note(rt: HostRuntime) -> Result<(), Fail> {
    let text =
        b"vericon-journal 2\njoin 3 4 5\npacket 3 4 5 6 7 8\nexpire 3 4 5 6 7 8 9\nflow 5 6 7 8 9\nend\n";
    let notes = read_journal(rt.alloc(), text.as_slice())?;
    let wanted = [
        Note::Kept(Entry::Join {
            seat: 3,
            session: 4,
            s: 5,
        }),
        Note::Kept(Entry::Packet {
            seat: 3,
            session: 4,
            s: 5,
            a: 6,
            b: 7,
            i: 8,
        }),
        Note::Kept(Entry::Expire {
            seat: 3,
            session: 4,
            s: 5,
            a: 6,
            b: 7,
            i: 8,
            cookie: 9,
        }),
        Note::Flow {
            s: 5,
            a: 6,
            b: 7,
            i: 8,
            o: 9,
        },
    ];
    assert_eq!(rt; notes.as_slice(), wanted.as_slice());
    Ok(())
}
