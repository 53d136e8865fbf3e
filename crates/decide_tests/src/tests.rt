//! The rows, and what is asked of them.

use clause_log::accepts;
use csdn_conditions::class::{GREATEST_SIZE, USUAL_SIZE};
use csdn_read::read_program;
use std::alloc::{AllocError, Global};
use vericon_decide::answer::{Answer, decide};
use vericon_decide::verdict::Proof;

/// Whether the checker accepts the log of each proof.
fn accepted(alloc: Global, proofs: &[Proof]) -> Result<bool, AllocError> {
    for proof in proofs {
        if !accepts(alloc, &proof.clauses, &proof.log)? {
            return Ok(false);
        }
    }
    Ok(true)
}

/// What is answered of a text by a size, at the levels up to `most`.
fn told(alloc: Global, size: u64, most: u8, text: &[u8]) -> Result<String, AllocError> {
    let Ok(program) = read_program(alloc, text) else {
        return format!(in alloc; "no program");
    };
    if size > GREATEST_SIZE || most > 9 {
        return format!(in alloc; "no such size or level");
    }
    match decide(alloc, &program, size, most)? {
        Answer::Yes { level, proofs } => {
            let good = accepted(alloc, &proofs)?;
            format!(in alloc; "yes {level}: {} proofs, {good}", proofs.len())
        }
        Answer::Counter { level, index, .. } => {
            format!(in alloc; "counterexample {level} {index}")
        }
        Answer::Unknown { level, index, why } => {
            format!(in alloc; "unknown {level} {index}: {why:?}")
        }
        Answer::NoNetwork { proof } => {
            if accepts(alloc, &proof.clauses, &proof.log)? {
                format!(in alloc; "no network")
            } else {
                format!(in alloc; "no proof")
            }
        }
    }
}

mod rows {
    use super::*;
    use std::process::Abort;
    use std::test::Fail;

    const FIREWALL: &[u8] = b"rel tr(SW, HO);
        safety guarded: forall S:SW, A:HO, B:HO. S.sent(A->B, prt(2)->prt(1)) -> tr(S, A);
        pktIn(s, src->dst, prt(1)) {
          s.forward(src->dst, prt(1)->prt(2));
          tr.insert(s, dst);
          s.install(src->dst, prt(1)->prt(2));
        }
        pktIn(s, src->dst, prt(2)) {
          if tr(s, src) {
            s.forward(src->dst, prt(2)->prt(1));
            s.install(src->dst, prt(2)->prt(1));
          }
        }";

    const SWITCH: &[u8] = b"rel conn(SW, PR, HO);
        topology two: not prt(1) = prt(2);
        trans no_black_hole: forall S:SW, A:HO, B:HO, I:PR. S.rcv_this(A->B, I) -> (exists O:PR. S.sent(A->B, I->O));
        pktIn(s, src->dst, i) {
          conn.insert(s, i, src);
          pick o:PR where conn(s, o, dst) {
            s.install(src->dst, i->o);
            s.forward(src->dst, i->o);
          } else {
            s.flood(src->dst, i);
          }
        }";

    /// The same, where a flood may reach nobody.
    const HUB: &[u8] = b"rel conn(SW, PR, HO);
        trans no_black_hole: forall S:SW, A:HO, B:HO, I:PR. S.rcv_this(A->B, I) -> (exists O:PR. S.sent(A->B, I->O));
        pktIn(s, src->dst, i) {
          conn.insert(s, i, src);
          pick o:PR where conn(s, o, dst) {
            s.install(src->dst, i->o);
            s.forward(src->dst, i->o);
          } else {
            s.flood(src->dst, i);
          }
        }";

    const ANSWERS: &[(&[u8], &str)] = &[
        (
            b"rel armed(); safety A: not armed(); pktIn(s, src->dst, i) { skip; }",
            "yes 0: 3 proofs, true",
        ),
        (
            b"rel armed(); safety A: not armed(); pktIn(s, src->dst, i) { armed.insert(); }",
            "counterexample 0 2",
        ),
        // an invariant that is false at the start
        (
            b"rel armed(); safety A: armed(); pktIn(s, src->dst, i) { skip; }",
            "counterexample 0 1",
        ),
        (b"topology T: forall X:HO. not X = X;", "no network"),
        // two hosts may be one, unless it is said that they differ
        (
            b"rel r(HO); safety one: forall X:HO, Y:HO. r(X) and r(Y) -> X = Y; pktIn(s, src->dst, i) { r.insert(src); }",
            "counterexample 0 2",
        ),
        (
            b"rel r(HO); safety one: forall X:HO, Y:HO. r(X) and r(Y) -> X = Y; pktIn(s, src->dst, i) { if not (exists Z:HO. r(Z)) { r.insert(src); } }",
            "yes 0: 3 proofs, true",
        ),
        (
            b"rel r(HO); safety one: forall X:HO, Y:HO. r(X) and r(Y) -> X = Y; pktIn(s, src->dst, i) { pick x:HO where r(x) { r.remove(x); r.insert(src); } else { r.insert(src); } }",
            "yes 0: 3 proofs, true",
        ),
        // the network condition comes first
        (
            b"static link(SW, PR, HO); topology T: forall S:SW. exists H:HO. link(S, prt(1), H);",
            "unknown 0 0: Outside",
        ),
        // .. and what can't be decided counts from its place on
        (
            b"timeout 5; rel known(HO); safety ruled: forall A:HO. known(A) -> (exists S:SW, B:HO, I:PR, O:PR. S.ft(A->B, I->O));",
            "unknown 0 2: Outside",
        ),
        (
            b"safety A: forall A:HO, B:HO, C:HO, D:HO, E:HO, F:HO, G:HO, H:HO, I:HO, J:HO, K:HO, L:HO, M:HO, N:HO, O:HO, P:HO, Q:HO, R:HO, S:HO, T:HO, U:HO, V:HO, W:HO, X:HO. A = A;",
            "unknown 0 2: Instances(18446744073709551615)",
        ),
        // a program without invariants
        (b"rel p();", "yes 0: 0 proofs, true"),
        (SWITCH, "yes 0: 2 proofs, true"),
        (HUB, "counterexample 0 1"),
        (FIREWALL, "counterexample 0 3"),
    ];

    #[test]
    fn answers_programs(rt: HostRuntime) -> Result<(), Fail> {
        for (i, row) in ANSWERS.iter().enumerate() {
            let found = told(rt.alloc(), USUAL_SIZE, 0, row.0)?;
            assert!(rt; found.as_str() == row.1, "row {i}: {found}");
        }
        Ok(())
    }

    /// Ten hosts may stand for eight variables: each condition but the first two has 10^8 copies of two atoms, and three more
    /// of its goal.
    const LONG: &[u8] = b"rel on(); rel met(HO, HO);
        safety A: forall A:HO, B:HO, C:HO, D:HO, E:HO, F:HO, G:HO, H:HO. on() -> met(A, B);
        pktIn(s, src->dst, i) { skip; }";

    /// The same, where a packet breaks it.
    const LONG_BROKEN: &[u8] = b"rel on(); rel met(HO, HO);
        safety A: forall A:HO, B:HO, C:HO, D:HO, E:HO, F:HO, G:HO, H:HO. on() -> met(A, B);
        pktIn(s, src->dst, i) { on.insert(); }";

    /// No invariant says that `p` stays false, which it does.
    const LATCH: &[u8] = b"rel p(); rel q(); safety A: not q();
        pktIn(s, src->dst, i) { if p() { q.insert(); } }";

    const ARMING: &[u8] = b"rel armed(); safety A: not armed();
        pktIn(s, src->dst, i) { armed.insert(); }";

    /// A text, a size, the highest level, and how the answer begins.
    const LEVELS: &[(&[u8], u64, u8, &str)] = &[
        (LATCH, USUAL_SIZE, 0, "counterexample 0 2"),
        (LATCH, USUAL_SIZE, 1, "yes 1: 4 proofs, true"),
        (LATCH, USUAL_SIZE, 2, "yes 1: 4 proofs, true"),
        (ARMING, USUAL_SIZE, 1, "counterexample 1 2"),
        // what is broken of the start is so at each level above
        (ARMING, USUAL_SIZE, 9, "counterexample 9 2"),
        // a condition on the start that can't be decided
        (LATCH, 9, 1, "unknown 1 2: Instances"),
        (LATCH, 9, 3, "unknown 3 2: Instances"),
    ];

    #[test]
    fn answers_at_levels(rt: HostRuntime) -> Result<(), Fail> {
        for (i, row) in LEVELS.iter().enumerate() {
            let found = told(rt.alloc(), row.1, row.2, row.0)?;
            assert!(rt; found.as_str().starts_with(row.3), "row {i}: {found}");
        }
        Ok(())
    }

    const SIZED: &[(&[u8], u64, &str)] = &[
        (LONG, USUAL_SIZE, "unknown 0 2: Instances(200000002)"),
        (LONG, 200_000_001, "unknown 0 2: Instances(200000002)"),
        (LONG, 200_000_002, "unknown 0 3: Instances(200000003)"),
        (LONG, 200_000_003, "yes 0: 3 proofs, true"),
        (LONG_BROKEN, GREATEST_SIZE, "counterexample 0 2"),
        // a smaller size than the usual one
        (
            b"rel armed(); safety A: not armed(); pktIn(s, src->dst, i) { skip; }",
            6,
            "unknown 0 1: Instances(7)",
        ),
    ];

    #[test]
    fn answers_by_a_size(rt: HostRuntime) -> Result<(), Fail> {
        for (i, row) in SIZED.iter().enumerate() {
            let found = told(rt.alloc(), row.1, 0, row.0)?;
            assert!(rt; found.as_str() == row.2, "row {i}: {found}");
        }
        Ok(())
    }
}
