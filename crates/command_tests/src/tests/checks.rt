//! Answers of `check`, by the document of the commands.
use super::conditions::{LINKED, with_ifs};
use super::*;

/// A packet leads to a second host in `r`, unless there is one already.
pub(crate) const ONE_KEPT: &[u8] =
    b"rel r(HO); safety one: forall X:HO, Y:HO. r(X) and r(Y) -> X = Y; pktIn(s, src->dst, i) { if not (exists Z:HO. r(Z)) { r.insert(src); } }";

/// Its host takes the place of the one in `r`.
const ONE_MOVED: &[u8] =
    b"rel r(HO); safety one: forall X:HO, Y:HO. r(X) and r(Y) -> X = Y; pktIn(s, src->dst, i) { pick x:HO where r(x) { r.remove(x); r.insert(src); } else { r.insert(src); } }";

const ARMED_LATER: &[u8] =
    b"rel armed(); safety A: not armed(); pktIn(s, src->dst, i) { armed.insert(); }";

/// No invariant says that `p` stays false, which it does.
pub(crate) const LATER: &[u8] =
    b"rel p(); rel q(); safety A: not q(); pktIn(s, src->dst, i) { if p() { q.insert(); } }";

/// The firewall lets all packets through.
const OPEN_WALL: &[u8] = b"rel tr(SW, HO);
safety guarded: forall S:SW, A:HO, B:HO. S.sent(A->B, prt(2)->prt(1)) -> tr(S, A);
pktIn(s, src->dst, prt(1)) {
  s.forward(src->dst, prt(1)->prt(2));
  tr.insert(s, dst);
  s.install(src->dst, prt(1)->prt(2));
}
pktIn(s, src->dst, prt(2)) {
  s.forward(src->dst, prt(2)->prt(1));
  s.install(src->dst, prt(2)->prt(1));
}
";

const ONE_PORT_AT_LEAST: &[u8] = b"rel conn(SW, PR, HO);
trans no_black_hole: forall S:SW, A:HO, B:HO, I:PR. S.rcv_this(A->B, I) -> (exists O:PR. S.sent(A->B, I->O));
pktIn(s, src->dst, i) {
  conn.insert(s, i, src);
  pick o:PR where conn(s, o, dst) {
    s.install(src->dst, i->o);
    s.forward(src->dst, i->o);
  } else {
    s.flood(src->dst, i);
  }
}
";

pub(crate) const TWO_PORTS_AT_LEAST: &[u8] = b"rel conn(SW, PR, HO);
topology two: not prt(1) = prt(2);
trans no_black_hole: forall S:SW, A:HO, B:HO, I:PR. S.rcv_this(A->B, I) -> (exists O:PR. S.sent(A->B, I->O));
pktIn(s, src->dst, i) {
  conn.insert(s, i, src);
  pick o:PR where conn(s, o, dst) {
    s.install(src->dst, i->o);
    s.forward(src->dst, i->o);
  } else {
    s.flood(src->dst, i);
  }
}
";

pub(crate) const WHOLE_ANSWERS: &[Call] = &[
    (&["check", "p"], &[ARMED], b"yes level 0\n", 0),
    (
        &["check", "p"],
        &[b"topology T: forall X:HO. not X = X;"],
        b"no network\n",
        4,
    ),
    (&["check", "p"], &[ONE_KEPT], b"yes level 0\n", 0),
    (&["check", "p"], &[ONE_MOVED], b"yes level 0\n", 0),
    (&["check", "p"], &[TWO_PORTS_AT_LEAST], b"yes level 0\n", 0),
    (
        &["check", "p"],
        &[LINKED],
        b"unknown level 0 condition 0 network: outside\n",
        2,
    ),
    (
        &["check", "p"],
        &[b"rel p(); rel q(); safety A: not p() or q(); safety B: q();"],
        b"counterexample level 0 condition 2 init 0 B\nvericon-net 1\nsw 1\nho 1\npr 1\nstate\nend\n",
        1,
    ),
    (
        &["check", "p"],
        &[b"rel r(HO); safety A: forall X:SW. r(X);"],
        b"p refused at 36: WrongSort\n",
        3,
    ),
    (
        &["check", "p"],
        &[b"rel r(HO); topology T: forall X:HO. r(X);"],
        b"p refused at 36: NotAllowed\n",
        3,
    ),
];

/// A program, the first line that `check` prints of it, and the number of the condition on that line.
type Broken = (&'static [u8], &'static [u8], &'static str);

const BROKEN: &[Broken] = &[
    (
        ARMED_LATER,
        b"counterexample level 0 condition 2 step A pktIn\n",
        "2",
    ),
    (
        b"rel p(); rel q(); safety A: true; safety B: not q(); pktIn(s, src->dst, i) { if p() { q.insert(); } }",
        b"counterexample level 0 condition 5 step B pktIn\n",
        "5",
    ),
    (
        ONE,
        b"counterexample level 0 condition 2 step one pktIn\n",
        "2",
    ),
    (
        FIREWALL,
        b"counterexample level 0 condition 3 step guarded pktFlow\n",
        "3",
    ),
    (
        ONE_PORT_AT_LEAST,
        b"counterexample level 0 condition 1 trans no_black_hole pktIn\n",
        "1",
    ),
];

/// What stands behind the first line.
fn behind_first_line<'a>(text: &'a [u8], line: &[u8]) -> &'a [u8] {
    match text.strip_prefix(line) {
        Some(rest) => rest,
        None => b"",
    }
}

// The case that is printed makes the condition's hypothesis true and its goal false.
fn is_shown(rt: &impl Abort, alloc: Global, row: &Broken) -> Result<(), Fail> {
    let (program, line, index) = row;
    let (text, status) = answer(alloc, &["check", "p"], &[*program])?;
    assert_eq!(rt; status, 1);
    assert_eq!(rt; text.as_slice().starts_with(line), true);
    let net = behind_first_line(text.as_slice(), line);
    let (truths, status) = answer(alloc, &["eval", "p", "n", "0", index], &[*program, net])?;
    assert_eq!(rt; status, 0);
    assert_eq!(rt;
        truths
            .as_slice()
            .ends_with(b"hypothesis true\ngoal false\n"),
        true
    );
    Ok(())
}

#[test]
fn a_counterexample_shows_that_its_condition_is_broken(rt: HostRuntime) -> Result<(), Fail> {
    for row in BROKEN {
        is_shown(&rt, rt.alloc(), row)?;
    }
    Ok(())
}

const LEVELS: &[Call] = &[
    (
        &["check", "--strengthen", "1", "p"],
        &[ARMED_LATER],
        b"counterexample level 1 condition 2 init 1 A\n",
        1,
    ),
    (
        &["check", "--strengthen", "1", "p"],
        &[LATER],
        b"yes level 1\n",
        0,
    ),
    (
        &["check", "--strengthen", "2", "p"],
        &[LATER],
        b"yes level 1\n",
        0,
    ),
    (
        &["check", "--strengthen", "1", "p"],
        &[OPEN_WALL],
        b"counterexample level 1 condition 2 init 1 guarded\n",
        1,
    ),
    (
        &["check", "--strengthen", "10", "p"],
        &[LATER],
        b"usage\n",
        6,
    ),
];

#[test]
fn levels_are_tried_in_order(rt: HostRuntime) -> Result<(), Fail> {
    let alloc = rt.alloc();
    for (words, contents, begin, number) in LEVELS {
        let (text, status) = answer(alloc, words, contents)?;
        assert_eq!(rt; text.as_slice().starts_with(begin), true);
        assert_eq!(rt; status, *number);
    }
    Ok(())
}

/// Ten hosts may stand for eight variables: `step A pktIn` has 10^8 copies of two atoms and two of its goal, `step A pktFlow`
/// one more.
pub(crate) const LONG: &[u8] = b"rel on(); rel met(HO, HO);
safety A: forall A:HO, B:HO, C:HO, D:HO, E:HO, F:HO, G:HO, H:HO. on() -> met(A, B);
pktIn(s, src->dst, i) { skip; }
";

/// The same, where a packet breaks it.
const LONG_BROKEN: &[u8] = b"rel on(); rel met(HO, HO);
safety A: forall A:HO, B:HO, C:HO, D:HO, E:HO, F:HO, G:HO, H:HO. on() -> met(A, B);
pktIn(s, src->dst, i) { on.insert(); }
";

const SIZES: &[Call] = &[
    (
        &["check", "p"],
        &[LONG],
        b"unknown level 0 condition 2 step A pktIn: instances 200000002\n",
        2,
    ),
    (
        &["check", "--instances", "200000002", "p"],
        &[LONG],
        b"unknown level 0 condition 3 step A pktFlow: instances 200000003\n",
        2,
    ),
    (
        &["check", "--instances", "200000003", "p"],
        &[LONG],
        b"yes level 0\n",
        0,
    ),
    (
        &[
            "check",
            "--instances",
            "9007199254740992",
            "--strengthen",
            "0",
            "p",
        ],
        &[LONG_BROKEN],
        b"counterexample level 0 condition 2 step A pktIn\n",
        1,
    ),
    (
        &["check", "--instances", "9007199254740993", "p"],
        &[LONG],
        b"usage\n",
        6,
    ),
    (&["check", "--instances", "0", "p"], &[LONG], b"usage\n", 6),
];

#[test]
fn a_size_says_what_is_decided(rt: HostRuntime) -> Result<(), Fail> {
    let alloc = rt.alloc();
    for (words, contents, begin, number) in SIZES {
        let (text, status) = answer(alloc, words, contents)?;
        assert_eq!(rt; text.as_slice().starts_with(begin), true);
        assert_eq!(rt; status, *number);
    }
    Ok(())
}

#[test]
fn a_condition_that_is_too_large_is_unknown(rt: HostRuntime) -> Result<(), Fail> {
    let alloc = rt.alloc();
    let program = with_ifs(alloc, 17)?;
    let (text, status) = answer(alloc, &["check", "p"], &[&program])?;
    assert_eq!(rt;
        text.as_slice(),
        b"unknown level 0 condition 2 step A pktIn: nodes\n".as_slice()
    );
    assert_eq!(rt; status, 2);
    Ok(())
}
