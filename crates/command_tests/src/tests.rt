//! Rows of calls, with what they print and their statuses.
mod checks;
mod conditions;
mod faults;
mod logs;
mod replays;
mod traces;

use std::alloc::{AllocError, Global};
use std::process::Abort;
use std::test::Fail;
use vericon_app::call::check_call;
use vericon_edge::fault_plan::FaultPlan;
use vericon_edge::files::Files;
use vericon_edge::mem_files::MemFiles;
use vericon_edge::mem_sink::MemSink;

/// A call, what the files `p`, `n`, `j` and `s` hold, in this order, what is printed, and the status.
type Call = (
    &'static [&'static str],
    &'static [&'static [u8]],
    &'static [u8],
    u8,
);

const ARMED: &[u8] = b"rel armed(); safety A: not armed(); pktIn(s, src->dst, i) { skip; }";

const FIREWALL: &[u8] = b"rel tr(SW, HO);
safety guarded: forall S:SW, A:HO, B:HO. S.sent(A->B, prt(2)->prt(1)) -> tr(S, A);
pktIn(s, src->dst, prt(1)) {
  s.forward(src->dst, prt(1)->prt(2));
  tr.insert(s, dst);
  s.install(src->dst, prt(1)->prt(2));
}
pktIn(s, src->dst, prt(2)) {
  if tr(s, src) {
    s.forward(src->dst, prt(2)->prt(1));
    s.install(src->dst, prt(2)->prt(1));
  }
}
";

/// At most one host is in `r`, until two have sent.
const ONE: &[u8] =
    b"rel r(HO); safety one: forall X:HO, Y:HO. r(X) and r(Y) -> X = Y; pktIn(s, src->dst, i) { r.insert(src); }";

/// The words of a call.
fn words_of(alloc: Global, words: &[&str]) -> Result<Vec<String>, AllocError> {
    let mut owned = Vec::new(alloc);
    for word in words {
        owned.push(String::from_str(alloc, word)?)?;
    }
    Ok(owned)
}

/// Files in memory that hold these bytes: `p`, `n`, `j` and `s`, as far as there are any.
fn files_with(alloc: Global, contents: &[&[u8]]) -> Result<MemFiles, Fail> {
    let mut files = MemFiles::new(alloc, FaultPlan::none(alloc), FaultPlan::none(alloc));
    for (name, bytes) in ["p", "n", "j", "s"].iter().zip(contents) {
        files.write_all(alloc, name, bytes)?;
    }
    Ok(files)
}

/// What a call with these words prints of these files, and its status.
fn answer(alloc: Global, words: &[&str], contents: &[&[u8]]) -> Result<(Vec<u8>, u8), Fail> {
    let words = words_of(alloc, words)?;
    let mut files = files_with(alloc, contents)?;
    let mut out = MemSink::new(alloc, 4096, FaultPlan::none(alloc));
    let status = check_call(alloc, &words, &mut files, &mut out);
    Ok((out.bytes().to_vec(alloc)?, status))
}

// Each call prints what stands in its row, with that status.
fn prints(rt: &impl Abort, alloc: Global, calls: &[Call]) -> Result<(), Fail> {
    for (words, contents, printed, number) in calls {
        let (text, status) = answer(alloc, words, contents)?;
        assert_eq!(rt; text.as_slice(), *printed);
        assert_eq!(rt; status, *number);
    }
    Ok(())
}

const FRAMES: &[Call] = &[
    (
        &["frames", "p"],
        &[&[1, 0, 0, 8, 0, 0, 0, 1]],
        b"0 HELLO length 8 xid 1\n",
        0,
    ),
    (&["frames", "p"], &[&[]], b"", 0),
    (&["frames", "p"], &[&[1, 0, 0, 7]], b"0 cut 4\n", 3),
];

const SHOWN: &[Call] = &[
    (
        &["show", "p"],
        &[ARMED],
        b"rel armed();\nsafety A: not armed();\npktIn(s, src->dst, i) {\n  skip;\n}\n",
        0,
    ),
    (&["show", "p"], &[b"rel r(HO) = {};"], b"rel r(HO);\n", 0),
    (&["show", "p"], &[b""], b"p refused at 0: Unexpected\n", 3),
    (
        &["show", "p"],
        &[b"rel r(HO); safety A: forall X:SW. r(X);"],
        b"p refused at 36: WrongSort\n",
        3,
    ),
];

const CLAUSES: &[Call] = &[
    (
        &["clauses", "p"],
        &[b"vericon-log 1\nblock a\natoms 2\nc 1 2 0\nc 1 -2 0\nc -1 2 0\nend\n"],
        b"a: model 1 2\n",
        0,
    ),
    (
        &["clauses", "p"],
        &[
            b"vericon-log 1\nblock a\natoms 2\nc 1 2 0\nc 1 -2 0\nc -1 2 0\nc -1 -2 0\ns 1 0 1 2 0\ns 0 5 3 4 0\nend\n",
        ],
        b"a: accepted\n",
        0,
    ),
    (
        &["clauses", "p"],
        &[
            b"vericon-log 1\nblock a\natoms 2\nc 1 2 0\nc 1 -2 0\nc -1 2 0\nc -1 -2 0\ns 1 0 1 2 0\nend\n",
        ],
        b"a: not accepted\n",
        1,
    ),
    (
        &["clauses", "p"],
        &[b"vericon-log 1\nblock a\natoms 0\nc 1 0\nend\n"],
        b"p refused line 4\n",
        3,
    ),
];

const EVALUATED: &[Call] = &[
    (
        &["eval", "p", "n"],
        &[
            ONE,
            b"vericon-net 1\nsw 1\nho 1 2\npr 1\nstate\nt r 1\nend\n",
        ],
        b"safety one true\n",
        0,
    ),
    (
        &["eval", "p", "n"],
        &[
            ONE,
            b"vericon-net 1\nsw 1\nho 1 2\npr 1\nstate\nt r 1\nt r 2\nend\n",
        ],
        b"safety one false\n",
        0,
    ),
    (
        &["eval", "p", "n"],
        &[ONE, b"vericon-net 1\nsw 1\nho 1 2\npr 1\nend\n"],
        b"",
        0,
    ),
    (
        &["eval", "p", "n"],
        &[ONE, b"vericon-net 1\nsw 1\nho 1 2\npr\nend\n"],
        b"n refused line 4: Empty\n",
        3,
    ),
    (
        &["eval", "p", "n"],
        &[ONE, b""],
        b"n refused line 1: Header\n",
        3,
    ),
];

/// A call on a text that blanks fill up to a length: the words, the text and the length of the file `p`, whether the second
/// write fails, where each takes three bytes, what is printed, and the status.
type Odd = (
    &'static [&'static str],
    &'static [u8],
    usize,
    bool,
    &'static [u8],
    u8,
);

const ODD_INPUT: &[Odd] = &[
    (
        &["check", "p"],
        b"",
        0,
        false,
        b"p refused at 0: Unexpected\n",
        3,
    ),
    (&["check", "p"], ARMED, 65_536, false, b"yes level 0\n", 0),
    (
        &["check", "p"],
        ARMED,
        65_537,
        false,
        b"p refused at 65536: TooLong\n",
        3,
    ),
    (&["check", "q"], ARMED, 0, false, b"missing q\n", 5),
    (&[], ARMED, 0, false, b"usage\n", 6),
    (&["check", "--log"], ARMED, 0, false, b"usage\n", 6),
    (&["check", "p"], ARMED, 0, true, b"yes", 8),
];

// A text, and blanks up to a length.
fn filled_up(alloc: Global, text: &[u8], length: usize) -> Result<Vec<u8>, AllocError> {
    let mut filled = text.to_vec(alloc)?;
    for _ in text.len()..length {
        filled.push(b' ')?;
    }
    Ok(filled)
}

// The second write fails, or none does.
fn plan(alloc: Global, fails: bool) -> Result<FaultPlan, AllocError> {
    if fails {
        Ok(FaultPlan::new(vec![in alloc; 1]?))
    } else {
        Ok(FaultPlan::none(alloc))
    }
}

#[test]
fn odd_input_is_answered_by_these_lines_and_statuses(rt: HostRuntime) -> Result<(), Fail> {
    let alloc = rt.alloc();
    for (words, text, length, fails, printed, number) in ODD_INPUT {
        let words = words_of(alloc, words)?;
        let mut files = files_with(alloc, &[&filled_up(alloc, text, *length)?])?;
        let mut out = MemSink::new(alloc, 3, plan(alloc, *fails)?);
        assert_eq!(rt; check_call(alloc, &words, &mut files, &mut out), *number);
        assert_eq!(rt; out.bytes(), *printed);
    }
    Ok(())
}

// `frames`, `show`, `clauses`, `eval` and `check`.
#[test]
fn each_call_prints_the_lines_of_its_row(rt: HostRuntime) -> Result<(), Fail> {
    let alloc = rt.alloc();
    prints(&rt, alloc, FRAMES)?;
    prints(&rt, alloc, SHOWN)?;
    prints(&rt, alloc, CLAUSES)?;
    prints(&rt, alloc, EVALUATED)?;
    prints(&rt, alloc, checks::WHOLE_ANSWERS)
}
