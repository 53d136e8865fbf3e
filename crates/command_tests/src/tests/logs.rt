//! Logs that `check` writes, and programs that `make` does.
use super::checks::{ONE_KEPT, TWO_PORTS_AT_LEAST};
use super::conditions::LINKED;
use super::*;

/// Steps on files in memory, where the file `p` holds a program: the words of two calls, the second of them on what the first
/// left, what each prints, and its status.
type Steps = (
    &'static [u8],
    &'static [&'static str],
    &'static [u8],
    u8,
    &'static [&'static str],
    &'static [u8],
    u8,
);

const LOGGED: &[Steps] = &[
    (
        ARMED,
        &["check", "--log", "l", "p"],
        b"yes level 0\n",
        0,
        &["clauses", "l"],
        b"1 init 0 A: accepted\n2 step A pktIn: accepted\n3 step A pktFlow: accepted\n",
        0,
    ),
    (
        ONE_KEPT,
        &["check", "--log", "l", "p"],
        b"yes level 0\n",
        0,
        &["clauses", "l"],
        b"1 init 0 one: accepted\n2 step one pktIn: accepted\n3 step one pktFlow: accepted\n",
        0,
    ),
    (
        TWO_PORTS_AT_LEAST,
        &["check", "--log", "l", "p"],
        b"yes level 0\n",
        0,
        &["clauses", "l"],
        b"1 trans no_black_hole pktIn: accepted\n2 trans no_black_hole pktFlow: accepted\n",
        0,
    ),
    // no condition but the network condition
    (
        b"rel p();",
        &["check", "--log", "l", "p"],
        b"yes level 0\n",
        0,
        &["clauses", "l"],
        b"",
        0,
    ),
    // a log over the program itself
    (
        b"rel p();",
        &["check", "--log", "p", "p"],
        b"yes level 0\n",
        0,
        &["clauses", "p"],
        b"",
        0,
    ),
    // no yes, no log
    (
        LINKED,
        &["check", "--log", "l", "p"],
        b"unknown level 0 condition 0 network: outside\n",
        2,
        &["clauses", "l"],
        b"missing l\n",
        5,
    ),
];

const MADE: &[Steps] = &[
    (
        ARMED,
        &["make", "2", "l"],
        b"made 2 bytes 126\nconditions 4\nyes level 0\n",
        0,
        &["show", "l"],
        b"rel r1(HO);\nrel r2(HO);\nsafety s2: forall X:HO. r2(X) -> r1(X);\npktIn(s, src->dst, i) {\n  r1.insert(src);\n  r2.insert(src);\n}\n",
        0,
    ),
    // another file is left as it was
    (
        ARMED,
        &["make", "1", "l"],
        b"made 1 bytes 56\nconditions 1\nyes level 0\n",
        0,
        &["check", "p"],
        b"yes level 0\n",
        0,
    ),
    (
        ARMED,
        &["make", "60", "p"],
        b"made 60 bytes 4440\nconditions 178\nyes level 0\n",
        0,
        &["eval", "p", "n", "0", "178"],
        b"missing n\n",
        5,
    ),
];

// Each call prints what stands in its row.
fn prints_in_turn(rt: &impl Abort, alloc: Global, rows: &[Steps]) -> Result<(), Fail> {
    for (
        program,
        first,
        first_printed,
        first_status,
        second,
        second_printed,
        second_status,
    ) in rows {
        let mut files = files_with(alloc, &[*program])?;
        let mut out = MemSink::new(alloc, 1000, FaultPlan::none(alloc));
        let words = words_of(alloc, first)?;
        assert_eq!(rt;
            check_call(alloc, &words, &mut files, &mut out),
            *first_status
        );
        assert_eq!(rt; out.bytes(), *first_printed);
        let mut out = MemSink::new(alloc, 1000, FaultPlan::none(alloc));
        let words = words_of(alloc, second)?;
        assert_eq!(rt;
            check_call(alloc, &words, &mut files, &mut out),
            *second_status
        );
        assert_eq!(rt; out.bytes(), *second_printed);
    }
    Ok(())
}

#[test]
fn a_yes_leaves_its_log_and_make_its_program(rt: HostRuntime) -> Result<(), Fail> {
    prints_in_turn(&rt, rt.alloc(), LOGGED)?;
    prints_in_turn(&rt, rt.alloc(), MADE)
}

const WRITERS: &[&[&str]] = &[&["check", "--log", "l", "p"], &["make", "2", "l"]];

#[test]
fn where_a_file_is_not_written_nothing_is_said(rt: HostRuntime) -> Result<(), Fail> {
    let alloc = rt.alloc();
    for words in WRITERS {
        let writes = FaultPlan::new(vec![in alloc; 1]?);
        let mut files = MemFiles::new(alloc, FaultPlan::none(alloc), writes);
        files.write_all(alloc, "p", ARMED)?;
        let mut out = MemSink::new(alloc, 1000, FaultPlan::none(alloc));
        let words = words_of(alloc, words)?;
        assert_eq!(rt; check_call(alloc, &words, &mut files, &mut out), 8);
        assert_eq!(rt; out.bytes(), b"".as_slice());
    }
    Ok(())
}
