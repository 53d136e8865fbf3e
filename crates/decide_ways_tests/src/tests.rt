//! Each condition of the rows is decided in both ways: by all clauses of its sentence, which are made at once, and by those that
//! are asked for. What is said of it is worked by hand from docs/DEFINITIONS.md.
ghost use Rattle.std.specs.Prelude.{◌≤◌, ◌<◌, length};
ghost use Rattle.csdn_conditions.specs.Closed.{IsClosed};
ghost use Rattle.csdn_conditions.specs.Kinds.{kinds};
ghost use Rattle.decision_laws.specs.Laws.{IsSentence};

use clause_search::{Outcome, solve};
use csdn_conditions::class::{Class, class_of};
use csdn_conditions::condition::condition;
use csdn_conditions::kinds::condition_count;
use csdn_conditions::sentence::Condition;
use csdn_core::program::Program;
use csdn_core::syntax::Formula;
use csdn_read::read_program;
use fol_forms::refusal::FormRefusal;
use ground_inst::making::ground;
use std::alloc::{AllocError, Global};
use std::process::Abort;
use std::test::Fail;
use vericon_decide::verdict::{Verdict, decide_condition};

/// By which of its clauses a condition is decided.
#[derive(Clone, Copy)]
enum Way {
    All,
    Asked,
}

/// What is said of a condition.
#[derive(Clone, Copy, Debug, PartialEq, Eq)]
enum Said {
    Valid,
    Broken,
    Undecided,
}

/// The size: so many atoms and equations the copies of a sentence may have, all of whose clauses are made.
const SIZE: u64 = 200_000;

fn by_asked(alloc: Global, program: &Program, condition: Condition) -> Result<Said, AllocError>
    requires hypothesis { IsClosed program.now condition.hypothesis }
    requires goal { IsClosed program.now condition.goal }
{
    match decide_condition(alloc, program, SIZE, condition)? {
        Verdict::Valid(_) => Ok(Said::Valid),
        Verdict::Broken(_) => Ok(Said::Broken),
        Verdict::Nodes | Verdict::Outside | Verdict::Instances(_) => Ok(Said::Undecided),
    }
}

fn by_all(alloc: Global, program: &Program, condition: Condition) -> Result<Said, AllocError>
    requires hypothesis { IsClosed program.now condition.hypothesis }
    requires goal { IsClosed program.now condition.goal }
{
    let sentence = condition.into_sentence(alloc)?;
    match class_of(program, SIZE, &sentence) {
        Class::Inside => by_clauses(alloc, program, &sentence),
        Class::Nodes | Class::Outside | Class::Instances(_) => Ok(Said::Undecided),
    }
}

fn by_clauses(alloc: Global, program: &Program, sentence: &Formula) -> Result<Said, AllocError>
    requires { IsSentence program.now sentence.now }
{
    let made = ground(alloc, program, sentence)?;
    match solve(alloc, &made.clauses)? {
        Outcome::Model(_) => Ok(Said::Broken),
        Outcome::Refuted(_) => Ok(Said::Valid),
    }
}

fn said_of(
    alloc: Global,
    way: Way,
    program: &Program,
    level: u8,
    index: u32,
) -> Result<Said, AllocError>
    requires level { level ≤ 9 }
    requires index { index < length (kinds program.now level) }
{
    // Its contract says that the program is well-sorted.
    program.parts();
    match condition(alloc, program, level, index) {
        Ok(condition) => match way {
            Way::All => by_all(alloc, program, condition),
            Way::Asked => by_asked(alloc, program, condition),
        },
        Err(FormRefusal::Large) => Ok(Said::Undecided),
        Err(FormRefusal::Memory) => Err(AllocError),
    }
}

/// What is said of the conditions of a level of at most 9, in their order; nothing where the text is no program.
fn said_of_level(alloc: Global, way: Way, text: &[u8], level: u8) -> Result<Vec<Said>, AllocError> {
    let mut said = Vec::new(alloc);
    if let Ok(program) = read_program(alloc, text) {
        if level <= 9 {
            for index in 0..condition_count(&program, level) {
                said.push(said_of(alloc, way, &program, level, index)?)?;
            }
        }
    }
    Ok(said)
}

mod rows {
    use super::Said::{Broken, Undecided, Valid};
    use super::*;

    /// Nothing is put in.
    const IDLE: &[u8] = b"rel armed(); safety A: not armed(); pktIn(s, src->dst, i) { skip; }";

    /// A packet puts in what the invariant forbids.
    const ARMING: &[u8] = b"rel armed(); safety A: not armed();
        pktIn(s, src->dst, i) { armed.insert(); }";

    /// No invariant says that `p` stays false, which it does.
    const LATCH: &[u8] = b"rel p(); rel q(); safety A: not q();
        pktIn(s, src->dst, i) { if p() { q.insert(); } }";

    /// A firewall: port 1 is inside, and port 2 outside.
    const FIREWALL: &[u8] = b"rel tr(SW, HO);
        safety guarded: forall S:SW, A:HO, B:HO. S.sent(A->B, prt(2)->prt(1)) -> tr(S, A);
        pktIn(s, src->dst, prt(1)) {
          s.forward(src->dst, prt(1)->prt(2));
          tr.insert(s, dst);
          s.install(src->dst, prt(1)->prt(2));
        }
        pktIn(s, src->dst, prt(2)) {
          if tr(s, src) {
            s.forward(src->dst, prt(2)->prt(1));
            s.install(src->dst, prt(2)->prt(1));
          }
        }";

    /// The firewall without its `if`.
    const BARE_FIREWALL: &[u8] = b"rel tr(SW, HO);
        safety guarded: forall S:SW, A:HO, B:HO. S.sent(A->B, prt(2)->prt(1)) -> tr(S, A);
        pktIn(s, src->dst, prt(1)) {
          s.forward(src->dst, prt(1)->prt(2));
          tr.insert(s, dst);
          s.install(src->dst, prt(1)->prt(2));
        }
        pktIn(s, src->dst, prt(2)) {
          s.forward(src->dst, prt(2)->prt(1));
          s.install(src->dst, prt(2)->prt(1));
        }";

    /// The firewall, whose rules end by themselves.
    const TIMED_FIREWALL: &[u8] = b"timeout 30;
        rel tr(SW, HO);
        safety guarded: forall S:SW, A:HO, B:HO. S.sent(A->B, prt(2)->prt(1)) -> tr(S, A);
        pktIn(s, src->dst, prt(1)) {
          s.forward(src->dst, prt(1)->prt(2));
          tr.insert(s, dst);
          s.install(src->dst, prt(1)->prt(2));
        }
        pktIn(s, src->dst, prt(2)) {
          if tr(s, src) {
            s.forward(src->dst, prt(2)->prt(1));
            s.install(src->dst, prt(2)->prt(1));
          }
        }";

    /// A learning switch.
    const SWITCH: &[u8] = b"rel conn(SW, PR, HO);
        topology two: not prt(1) = prt(2);
        trans no_black_hole: forall S:SW, A:HO, B:HO, I:PR. S.rcv_this(A->B, I) -> (exists O:PR. S.sent(A->B, I->O));
        pktIn(s, src->dst, i) {
          conn.insert(s, i, src);
          pick o:PR where conn(s, o, dst) {
            s.install(src->dst, i->o);
            s.forward(src->dst, i->o);
          } else {
            s.flood(src->dst, i);
          }
        }";

    /// The learning switch where a flood may reach nobody.
    const HUB: &[u8] = b"rel conn(SW, PR, HO);
        trans no_black_hole: forall S:SW, A:HO, B:HO, I:PR. S.rcv_this(A->B, I) -> (exists O:PR. S.sent(A->B, I->O));
        pktIn(s, src->dst, i) {
          conn.insert(s, i, src);
          pick o:PR where conn(s, o, dst) {
            s.install(src->dst, i->o);
            s.forward(src->dst, i->o);
          } else {
            s.flood(src->dst, i);
          }
        }";

    /// At most one host is in `r`: any may come in.
    const ANY_HOST: &[u8] =
        b"rel r(HO); safety one: forall X:HO, Y:HO. r(X) and r(Y) -> X = Y; pktIn(s, src->dst, i) { r.insert(src); }";

    /// .. the first alone
    const FIRST_HOST: &[u8] =
        b"rel r(HO); safety one: forall X:HO, Y:HO. r(X) and r(Y) -> X = Y; pktIn(s, src->dst, i) { if not (exists Z:HO. r(Z)) { r.insert(src); } }";

    /// .. the one in it leaves before
    const LAST_HOST: &[u8] =
        b"rel r(HO); safety one: forall X:HO, Y:HO. r(X) and r(Y) -> X = Y; pktIn(s, src->dst, i) { pick x:HO where r(x) { r.remove(x); r.insert(src); } else { r.insert(src); } }";

    /// What comes into `r2` comes into `r1` first.
    const FOLLOWED: &[u8] =
        b"rel r1(HO); rel r2(HO); safety s2: forall X:HO. r2(X) -> r1(X); pktIn(s, src->dst, i) { r1.insert(src); r2.insert(src); }";

    /// A program, a level, and what is said of its conditions.
    struct Row {
        text: &'static [u8],
        level: u8,
        said: &'static [Said],
    }

    const ROWS: &[Row] = &[
        Row {
            text: IDLE,
            level: 0,
            said: &[Broken, Valid, Valid, Valid],
        },
        Row {
            text: IDLE,
            level: 1,
            said: &[Broken, Valid, Valid, Valid, Valid],
        },
        // a packet breaks it ..
        Row {
            text: ARMING,
            level: 0,
            said: &[Broken, Valid, Broken, Valid],
        },
        // .. and at level 1 no state counts from which one does
        Row {
            text: ARMING,
            level: 1,
            said: &[Broken, Valid, Broken, Valid, Valid],
        },
        Row {
            text: LATCH,
            level: 0,
            said: &[Broken, Valid, Broken, Valid],
        },
        Row {
            text: LATCH,
            level: 1,
            said: &[Broken, Valid, Valid, Valid, Valid],
        },
        // no network
        Row {
            text: b"topology T: forall X:HO. not X = X;",
            level: 0,
            said: &[Valid],
        },
        Row {
            text: b"static link(SW, PR, HO); topology T: forall S:SW. exists H:HO. link(S, prt(1), H);",
            level: 0,
            said: &[Undecided],
        },
        // two hosts may be one, unless it is said that they differ
        Row {
            text: ANY_HOST,
            level: 0,
            said: &[Broken, Valid, Broken, Valid],
        },
        Row {
            text: ANY_HOST,
            level: 1,
            said: &[Broken, Valid, Valid, Broken, Valid],
        },
        Row {
            text: FIRST_HOST,
            level: 0,
            said: &[Broken, Valid, Valid, Valid],
        },
        // the `exists` of its `if` stands under the `forall` of the packets before
        Row {
            text: FIRST_HOST,
            level: 1,
            said: &[Broken, Valid, Valid, Undecided, Undecided],
        },
        Row {
            text: LAST_HOST,
            level: 0,
            said: &[Broken, Valid, Valid, Valid],
        },
        Row {
            text: FOLLOWED,
            level: 0,
            said: &[Broken, Valid, Valid, Valid],
        },
        // a rule that no handler has made
        Row {
            text: FIREWALL,
            level: 0,
            said: &[Broken, Valid, Valid, Broken],
        },
        // the steps of level 1 are larger
        Row {
            text: FIREWALL,
            level: 1,
            said: &[Broken, Valid, Valid, Undecided, Undecided],
        },
        // the end of a rule sends nothing
        Row {
            text: TIMED_FIREWALL,
            level: 0,
            said: &[Broken, Valid, Valid, Broken, Valid],
        },
        Row {
            text: BARE_FIREWALL,
            level: 0,
            said: &[Broken, Valid, Broken, Broken],
        },
        Row {
            text: BARE_FIREWALL,
            level: 1,
            said: &[Broken, Valid, Broken, Undecided, Undecided],
        },
        Row {
            text: SWITCH,
            level: 0,
            said: &[Broken, Valid, Valid],
        },
        // of transition invariants each level asks the same
        Row {
            text: SWITCH,
            level: 1,
            said: &[Broken, Valid, Valid],
        },
        Row {
            text: HUB,
            level: 0,
            said: &[Broken, Broken, Valid],
        },
    ];

    #[test]
    fn says_the_same(rt: HostRuntime) -> Result<(), Fail> {
        compare(&rt, rt.alloc(), Way::All, ROWS)?;
        compare(&rt, rt.alloc(), Way::Asked, ROWS)?;
        Ok(())
    }

    fn compare(rt: &impl Abort, alloc: Global, way: Way, rows: &[Row]) -> Result<(), AllocError> {
        for (i, row) in rows.iter().enumerate() {
            let found = said_of_level(alloc, way, row.text, row.level)?;
            assert!(rt; found.as_slice() == row.said, "row {i}: {found:?}");
        }
        Ok(())
    }
}
