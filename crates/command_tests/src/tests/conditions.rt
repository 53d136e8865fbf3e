//! Whole outputs of `conditions` and of `eval` with a condition, worked by hand from the documents of the commands.
use super::checks::{LATER, LONG};
use super::*;

const LEARNING: &[u8] = b"rel conn(SW, PR, HO);
topology two: not prt(1) = prt(2);
trans no_black_hole: forall S:SW, A:HO, B:HO, I:PR. S.rcv_this(A->B, I) -> (exists O:PR. S.sent(A->B, I->O));
";

pub(crate) const LINKED: &[u8] =
    b"static link(SW, PR, HO); topology T: forall S:SW. exists H:HO. link(S, prt(1), H);";

const WITH_STATE: &[u8] = b"vericon-net 1\nsw 1\nho 1 2\npr 1\nstate\nt r 1\nend\n";

const NO_STATE: &[u8] = b"vericon-net 1\nsw 1\nho 1 2\npr 1\nend\n";

const TWO_HOLD: &[u8] = b"vericon-net 1\nsw 1\nho 1 2\npr 1\nstate\nt r 1\nt r 2\nend\n";

const ONE_HOST: &[u8] = b"vericon-net 1\nsw 1\nho 1\npr 1\nstate\nt r 1\nend\n";

const EMPTY_STATE: &[u8] = b"vericon-net 1\nsw 1\nho 1 2\npr 1 2\nstate\nend\n";

/// A program with so many `if` in a row.
pub(crate) fn with_ifs(alloc: Global, count: usize) -> Result<Vec<u8>, AllocError> {
    let mut program = b"rel p(); safety A: not p(); pktIn(s, src->dst, i) {".to_vec(alloc)?;
    for _ in 0..count {
        program.extend_from_slice(b" if p() { skip; }")?;
    }
    program.extend_from_slice(b"}")?;
    Ok(program)
}

const CLASSES: &[Call] = &[
    (
        &["conditions", "p"],
        &[FIREWALL],
        b"0 network inside\n1 init 0 guarded inside\n2 step guarded pktIn inside\n3 step guarded pktFlow inside\n",
        0,
    ),
    (
        &["conditions", "p"],
        &[LEARNING],
        b"0 network inside\n1 trans no_black_hole pktIn inside\n2 trans no_black_hole pktFlow inside\n",
        0,
    ),
    (&["conditions", "p"], &[LINKED], b"0 network outside\n", 0),
    (
        &["conditions", "p"],
        &[b"rel r(HO);"],
        b"0 network inside\n",
        0,
    ),
    (
        &["conditions", "p"],
        &[b""],
        b"p refused at 0: Unexpected\n",
        3,
    ),
    (
        &["conditions", "--strengthen", "0", "p"],
        &[LATER],
        b"0 network inside\n1 init 0 A inside\n2 step A pktIn inside\n3 step A pktFlow inside\n",
        0,
    ),
    (
        &["conditions", "--strengthen", "1", "p"],
        &[LATER],
        b"0 network inside\n1 init 0 A inside\n2 init 1 A inside\n3 step A pktIn inside\n4 step A pktFlow inside\n",
        0,
    ),
    (
        &["conditions", "--instances", "200000002", "p"],
        &[LONG],
        b"0 network inside\n1 init 0 A inside\n2 step A pktIn inside\n3 step A pktFlow instances 200000003\n",
        0,
    ),
];

const LOOKS: &[Call] = &[
    // a topology without invariants is true, and the goal of the first condition false
    (
        &["eval", "p", "n", "0", "0"],
        &[ONE, WITH_STATE],
        b"safety one true\nhypothesis true\ngoal false\n",
        0,
    ),
    // this is not the initial state
    (
        &["eval", "p", "n", "0", "1"],
        &[ONE, WITH_STATE],
        b"safety one true\nhypothesis false\ngoal true\n",
        0,
    ),
    // a packet from host 2 would be the second
    (
        &["eval", "p", "n", "0", "2"],
        &[ONE, WITH_STATE],
        b"safety one true\nhypothesis true\ngoal false\n",
        0,
    ),
    (
        &["eval", "p", "n", "0", "3"],
        &[ONE, WITH_STATE],
        b"safety one true\nhypothesis true\ngoal true\n",
        0,
    ),
    (
        &["eval", "p", "n", "0", "2"],
        &[ONE, TWO_HOLD],
        b"safety one false\nhypothesis false\ngoal false\n",
        0,
    ),
    (
        &["eval", "p", "n", "0", "4"],
        &[ONE, WITH_STATE],
        b"usage\n",
        6,
    ),
    (
        &["eval", "p", "n", "0", "0"],
        &[ONE, NO_STATE],
        b"usage\n",
        6,
    ),
];

/// At level 1 of `ONE` the conditions are those of the network, `init 0`, `init 1`, and the steps of a packet and of a flow.
const LOOKS_HIGHER: &[Call] = &[
    (
        &["eval", "p", "n", "1", "0"],
        &[ONE, WITH_STATE],
        b"safety one true\nhypothesis true\ngoal false\n",
        0,
    ),
    // this is not the initial state, and a packet from host 2 would be the second
    (
        &["eval", "p", "n", "1", "2"],
        &[ONE, WITH_STATE],
        b"safety one true\nhypothesis false\ngoal false\n",
        0,
    ),
    // so not every run of one event keeps the invariant
    (
        &["eval", "p", "n", "1", "3"],
        &[ONE, WITH_STATE],
        b"safety one true\nhypothesis false\ngoal false\n",
        0,
    ),
    // there is no rule by which a packet flows
    (
        &["eval", "p", "n", "1", "4"],
        &[ONE, WITH_STATE],
        b"safety one true\nhypothesis false\ngoal true\n",
        0,
    ),
    // of one host there is no second
    (
        &["eval", "p", "n", "1", "3"],
        &[ONE, ONE_HOST],
        b"safety one true\nhypothesis true\ngoal true\n",
        0,
    ),
    (
        &["eval", "p", "n", "1", "5"],
        &[ONE, WITH_STATE],
        b"usage\n",
        6,
    ),
];

const SPELLINGS: &[Call] = &[
    (
        &["eval", "p", "n", "10", "0"],
        &[ONE, WITH_STATE],
        b"usage\n",
        6,
    ),
    (
        &["eval", "p", "n", "00", "0"],
        &[ONE, WITH_STATE],
        b"usage\n",
        6,
    ),
    (
        &["eval", "p", "n", "0", "01"],
        &[ONE, WITH_STATE],
        b"usage\n",
        6,
    ),
    (
        &["eval", "p", "n", "0", "x"],
        &[ONE, WITH_STATE],
        b"usage\n",
        6,
    ),
    (
        &["eval", "p", "n", "0", "4294967296"],
        &[ONE, WITH_STATE],
        b"usage\n",
        6,
    ),
    (&["eval", "p", "n", "0"], &[ONE, WITH_STATE], b"usage\n", 6),
    (
        &["trace", "p", "n", "0", "0"],
        &[ONE, WITH_STATE],
        b"usage\n",
        6,
    ),
    (
        &["conditions", "--strengthen"],
        &[ONE, WITH_STATE],
        b"usage\n",
        6,
    ),
    (
        &["conditions", "--strengthen", "01", "p"],
        &[ONE, WITH_STATE],
        b"usage\n",
        6,
    ),
    (&["make", "0", "q"], &[ONE], b"usage\n", 6),
    (&["make", "61", "q"], &[ONE], b"usage\n", 6),
];

#[test]
fn a_sentence_may_have_too_many_nodes(rt: HostRuntime) -> Result<(), Fail> {
    let alloc = rt.alloc();
    let cases: [(usize, &[u8], &[u8], u8); 2] = [
        (
            16,
            b"0 network inside\n1 init 0 A inside\n2 step A pktIn inside\n3 step A pktFlow inside\n",
            b"safety A true\nhypothesis true\ngoal true\n",
            0,
        ),
        (
            17,
            b"0 network inside\n1 init 0 A inside\n2 step A pktIn nodes\n3 step A pktFlow inside\n",
            b"safety A true\ncondition 2: nodes\n",
            2,
        ),
    ];
    for (count, classes, truths, number) in cases {
        let program = with_ifs(alloc, count)?;
        let (text, status) = answer(alloc, &["conditions", "p"], &[&program])?;
        assert_eq!(rt; text.as_slice(), classes);
        assert_eq!(rt; status, 0);
        let (text, status) = answer(
            alloc,
            &["eval", "p", "n", "0", "2"],
            &[&program, EMPTY_STATE],
        )?;
        assert_eq!(rt; text.as_slice(), truths);
        assert_eq!(rt; status, number);
    }
    Ok(())
}

// Each condition has a class; one is looked at in a state, at level 0 and above; levels and numbers have one
// spelling.
#[test]
fn conditions_are_listed_and_looked_at(rt: HostRuntime) -> Result<(), Fail> {
    let alloc = rt.alloc();
    prints(&rt, alloc, CLASSES)?;
    prints(&rt, alloc, LOOKS)?;
    prints(&rt, alloc, LOOKS_HIGHER)?;
    prints(&rt, alloc, SPELLINGS)
}
