//! The rows, and what is asked of them.
ghost use Rattle.std.specs.Prelude.{◌≤◌};

use condition_listing::{judge, list_conditions};
use csdn_conditions::class::USUAL_SIZE;
use csdn_conditions::condition::condition;
use csdn_conditions::kinds::condition_count;
use csdn_core::program::Program;
use csdn_core::syntax::Formula;
use csdn_core::terms::{Sort, Term, VarId};
use csdn_read::read_program;
use csdn_wp::commands::wp;
use fol_forms::count::node_count;
use fol_forms::instances::instance_count;
use net_text::read_net;
use sqlite_items::Boxed;
use std::alloc::{AllocError, Global};

/// The lines of the conditions of a level, by the usual size; none of a text that is no program.
fn lines_of(alloc: Global, text: &[u8], level: u8) -> Result<Vec<u8>, AllocError>
    requires { level ≤ 9 }
{
    match read_program(alloc, text) {
        Ok(program) => list_conditions(alloc, &program, USUAL_SIZE, level),
        Err(_) => Ok(Vec::new(alloc)),
    }
}

/// The truth of a condition of level 0 in a network and state; nothing where there is no such condition, or a text is none.
fn judged(alloc: Global, text: &[u8], net: &[u8], index: u32) -> Result<Vec<u8>, AllocError> {
    let Ok(program) = read_program(alloc, text) else {
        return Ok(Vec::new(alloc));
    };
    let Ok(case) = read_net(alloc, &program, net) else {
        return Ok(Vec::new(alloc));
    };
    if index >= condition_count(&program, 0) {
        return Ok(Vec::new(alloc));
    }
    let Some(state) = &case.state else {
        return Ok(Vec::new(alloc));
    };
    let told = judge(alloc, &program, &case.network, state, 0, index)?;
    Ok(told.text)
}

/// How many nodes the precondition of the first handler's body has, of the first safety invariant; none where one is missing,
/// it is too large, or the text is no program.
fn nodes_before(alloc: Global, text: &[u8]) -> Result<Option<u64>, AllocError> {
    let Ok(program) = read_program(alloc, text) else {
        return Ok(None);
    };
    let parts = program.parts();
    let Some(handler) = parts.handlers.get(0) else {
        return Ok(None);
    };
    let Some(invariant) = parts.safety.get(0) else {
        return Ok(None);
    };
    match wp(alloc, &program, &handler.body, &invariant.formula) {
        Ok(before) => Ok(Some(node_count(&before))),
        Err(_) => Ok(None),
    }
}

/// The counts of a sentence.
#[derive(Clone, Copy, Debug, PartialEq, Eq)]
struct Counted {
    nodes: u64,
    /// The constants of the sorts SW, HO and PR: those that the program names, and those that the normal form needs.
    constants: [u64; 3],
    instances: u64,
}

/// How many constants of a sort there are: so many copies does one more `forall` of that sort have.
fn constants_of(
    alloc: Global,
    program: &Program,
    sentence: &Formula,
    sort: Sort,
) -> Result<u64, AllocError> {
    let var = VarId(u32::MAX);
    let same = Boxed::new(alloc, Formula::Same(Term::Var(var), Term::Var(var)))?;
    let each = Boxed::new(alloc, Formula::Forall(var, sort, same))?;
    let copied = Boxed::new(alloc, sentence.copy(alloc)?)?;
    let both = instance_count(program, &Formula::And(copied, each));
    Ok(both.saturating_sub(instance_count(program, sentence)))
}

/// The counts of a sentence of a program.
fn counts_of(alloc: Global, program: &Program, sentence: &Formula) -> Result<Counted, AllocError> {
    Ok(Counted {
        nodes: node_count(sentence),
        constants: [
            constants_of(alloc, program, sentence, Sort::Sw)?,
            constants_of(alloc, program, sentence, Sort::Ho)?,
            constants_of(alloc, program, sentence, Sort::Pr)?,
        ],
        instances: instance_count(program, sentence),
    })
}

/// The counts of one condition of level 0; none where there is no such condition, it is too large, or the text is no program.
fn counts_at(alloc: Global, text: &[u8], index: u32) -> Result<Option<Counted>, AllocError> {
    let Ok(program) = read_program(alloc, text) else {
        return Ok(None);
    };
    if index >= condition_count(&program, 0) {
        return Ok(None);
    }
    let Ok(condition) = condition(alloc, &program, 0, index) else {
        return Ok(None);
    };
    let sentence = condition.into_sentence(alloc)?;
    Ok(Some(counts_of(alloc, &program, &sentence)?))
}

/// `before`, so many times `piece`, and `after`.
fn repeated(
    alloc: Global,
    before: &[u8],
    piece: &[u8],
    count: u8,
    after: &[u8],
) -> Result<Vec<u8>, AllocError> {
    let mut text = Vec::from_slice(alloc, before)?;
    for _ in 0..count {
        text.extend_from_slice(piece)?;
    }
    text.extend_from_slice(after)?;
    Ok(text)
}

/// So many constants, and one invariant on topologies of so many variables, which are hosts all.
fn many_hosts(alloc: Global, constants: u8, variables: u8) -> Result<Vec<u8>, AllocError> {
    let mut text = Vec::new(alloc);
    for i in 0..constants {
        let constant = format!(in alloc; "const c{i}:HO; ")?;
        text.extend_from_slice(constant.as_bytes())?;
    }
    text.extend_from_slice(b"topology T: ")?;
    for i in 0..variables {
        let bound = format!(in alloc; "forall X{i}:HO. ")?;
        text.extend_from_slice(bound.as_bytes())?;
    }
    text.extend_from_slice(b"X0 = X0;")?;
    Ok(text)
}

mod rows {
    use super::*;
    use std::process::Abort;
    use std::test::Fail;

    const FIREWALL: &[u8] = b"rel tr(SW, HO);
        safety guarded: forall S:SW, A:HO, B:HO. S.sent(A->B, prt(2)->prt(1)) -> tr(S, A);
        pktIn(s, src->dst, prt(1)) {
          s.forward(src->dst, prt(1)->prt(2));
          tr.insert(s, dst);
          s.install(src->dst, prt(1)->prt(2));
        }
        pktIn(s, src->dst, prt(2)) {
          if tr(s, src) {
            s.forward(src->dst, prt(2)->prt(1));
            s.install(src->dst, prt(2)->prt(1));
          }
        }";

    const SWITCH: &[u8] = b"rel conn(SW, PR, HO);
        topology two: not prt(1) = prt(2);
        trans no_black_hole: forall S:SW, A:HO, B:HO, I:PR. S.rcv_this(A->B, I) -> (exists O:PR. S.sent(A->B, I->O));
        pktIn(s, src->dst, i) {
          conn.insert(s, i, src);
          pick o:PR where conn(s, o, dst) {
            s.install(src->dst, i->o);
            s.forward(src->dst, i->o);
          } else {
            s.flood(src->dst, i);
          }
        }";

    /// What ends isn't seen, so that what was seen has no rule any more.
    const KEPT: &[u8] = b"timeout 5; rel seen(SW, HO, HO, PR);
        safety kept: forall S:SW, A:HO, B:HO, I:PR. seen(S, A, B, I) -> S.ft(A->B, I->prt(1));
        pktIn(s, src->dst, i) { seen.insert(s, src, dst, i); s.install(src->dst, i->prt(1)); }";

    /// Who is known has a rule.
    const KNOWN: &[u8] = b"timeout 5; rel known(HO);
        safety ruled: forall A:HO. known(A) -> (exists S:SW, B:HO, I:PR, O:PR. S.ft(A->B, I->O));";

    /// There is a packet.
    const PACKET: &[u8] =
        b"timeout 30; trans B: exists S:SW, X:HO, Y:HO, I:PR. S.rcv_this(X->Y, I);";

    const UNINSTALLED: &[u8] =
        b"safety none: forall S:SW, A:HO, B:HO, I:PR, O:PR. not S.ft(A->B, I->O);
        pktIn(s, src->dst, i) { s.install(src->dst, i->i); s.uninstall(src->dst, i->i); }";

    const INSTALLED: &[u8] =
        b"safety none: forall S:SW, A:HO, B:HO, I:PR, O:PR. not S.ft(A->B, I->O);
        pktIn(s, src->dst, i) { s.install(src->dst, i->i); }";

    const OF_FIREWALL: &[u8] = b"0 network inside
1 init 0 guarded inside
2 step guarded pktIn inside
3 step guarded pktFlow inside
";

    const OF_ONE_INVARIANT: &[u8] = b"0 network inside
1 init 0 A inside
2 step A pktIn inside
3 step A pktFlow inside
";

    const LISTINGS: &[(&[u8], u8, &[u8])] = &[
        (FIREWALL, 0, OF_FIREWALL),
        (
            b"rel armed(); safety A: not armed(); pktIn(s, src->dst, i) { skip; }",
            0,
            OF_ONE_INVARIANT,
        ),
        (
            SWITCH,
            0,
            b"0 network inside\n1 trans no_black_hole pktIn inside\n2 trans no_black_hole pktFlow inside\n",
        ),
        // the order of a level
        (
            b"safety A: true; trans B: true; safety C: true; pktIn(s, a->b, i) { skip; }",
            1,
            b"0 network inside
1 init 0 A inside
2 init 0 C inside
3 init 1 A inside
4 init 1 C inside
5 step A pktIn inside
6 step A pktFlow inside
7 step C pktIn inside
8 step C pktFlow inside
9 trans B pktIn inside
10 trans B pktFlow inside
",
        ),
        // .. and where rules end, expiries come last
        (
            b"timeout 9; rel armed(); safety A: not armed(); trans B: true; pktIn(s, a->b, i) { skip; }",
            1,
            b"0 network inside
1 init 0 A inside
2 init 1 A inside
3 step A pktIn inside
4 step A pktFlow inside
5 step A expire inside
6 trans B pktIn inside
7 trans B pktFlow inside
8 trans B expire inside
",
        ),
        (
            KEPT,
            0,
            b"0 network inside\n1 init 0 kept inside\n2 step kept pktIn inside\n3 step kept pktFlow inside\n4 step kept expire inside\n",
        ),
        // an `exists` under a `forall` in the hypothesis
        (
            KNOWN,
            0,
            b"0 network inside\n1 init 0 ruled inside\n2 step ruled pktIn outside\n3 step ruled pktFlow outside\n4 step ruled expire outside\n",
        ),
        (
            PACKET,
            0,
            b"0 network inside\n1 trans B pktIn inside\n2 trans B pktFlow inside\n3 trans B expire inside\n",
        ),
        (
            UNINSTALLED,
            0,
            b"0 network inside\n1 init 0 none inside\n2 step none pktIn inside\n3 step none pktFlow inside\n",
        ),
        (
            b"static link(SW, PR, HO); topology T: forall S:SW. exists H:HO. link(S, prt(1), H);",
            0,
            b"0 network outside\n",
        ),
    ];

    fn lists(
        rt: &impl Abort,
        alloc: Global,
        rows: &[(&[u8], u8, &[u8])],
    ) -> Result<(), AllocError> {
        for (i, row) in rows.iter().enumerate() {
            let level = if row.1 <= 9 { row.1 } else { 9 };
            let found = lines_of(alloc, row.0, level)?;
            assert!(rt; found.as_slice() == row.2, "row {i}");
        }
        Ok(())
    }

    #[test]
    fn lists_conditions(rt: HostRuntime) -> Result<(), Fail> {
        lists(&rt, rt.alloc(), LISTINGS)?;
        Ok(())
    }

    const BROKEN: &[u8] = b"hypothesis true\ngoal false\n";

    const MET: &[u8] = b"hypothesis true\ngoal true\n";

    const NOT_ASKED: &[u8] = b"hypothesis false\ngoal true\n";

    /// A condition of level 0 by its number, what its network holds beside one switch, two hosts and two ports, and its truth.
    const JUDGEMENTS: &[(&[u8], u32, &[u8], &[u8])] = &[
        // the rule of what was seen ends
        (KEPT, 4, b"t seen 1 1 2 1\nft 1 1 2 1 1\n", BROKEN),
        (KEPT, 4, b"ft 1 2 1 1 2\n", MET),
        (KEPT, 4, b"t seen 1 1 2 1\n", NOT_ASKED),
        // .. which neither packet does
        (KEPT, 2, b"t seen 1 1 2 1\nft 1 1 2 1 1\n", MET),
        (KEPT, 3, b"t seen 1 1 2 1\nft 1 1 2 1 1\n", MET),
        // both rules of a match end, and those of another match stay
        (KNOWN, 4, b"t known 1\nft 1 1 2 1 1\nft 1 1 2 1 2\n", BROKEN),
        (KNOWN, 4, b"t known 1\nft 1 1 2 1 1\nft 1 1 1 1 1\n", MET),
        // a flow has a packet, an expiry has none, and needs a rule
        (PACKET, 2, b"ft 1 1 2 1 1\n", MET),
        (PACKET, 3, b"ft 1 1 2 1 1\n", BROKEN),
        (PACKET, 3, b"", MET),
        // a rule that is put in and taken out again
        (UNINSTALLED, 2, b"", MET),
        (INSTALLED, 2, b"", BROKEN),
    ];

    fn judges(
        rt: &impl Abort,
        alloc: Global,
        rows: &[(&[u8], u32, &[u8], &[u8])],
    ) -> Result<(), AllocError> {
        for (i, row) in rows.iter().enumerate() {
            let mut net = b"vericon-net 1\nsw 1\nho 1 2\npr 1 2\nstate\n".to_vec(alloc)?;
            net.extend_from_slice(row.2)?;
            net.extend_from_slice(b"end\n")?;
            let found = judged(alloc, row.0, &net, row.1)?;
            assert!(rt; found.as_slice() == row.3, "row {i}");
        }
        Ok(())
    }

    #[test]
    fn judges_conditions(rt: HostRuntime) -> Result<(), Fail> {
        judges(&rt, rt.alloc(), JUDGEMENTS)?;
        Ok(())
    }

    // After a packet the negated goal needs a packet and the elements for which the invariant is false; the program names the
    // ports 1 and 2.
    const COUNTS: &[(u64, [u64; 3], u64)] = &[
        (4, [1, 1, 2], 0),
        (33, [1, 2, 2], 70),
        (91, [2, 4, 3], 91),
        (33, [2, 4, 4], 72),
    ];

    #[test]
    fn counts_the_conditions_of_a_firewall(rt: HostRuntime) -> Result<(), Fail> {
        for (index, (nodes, constants, instances)) in COUNTS.iter().enumerate() {
            let found = counts_at(rt.alloc(), FIREWALL, index as u32)?;
            let counted = Counted {
                nodes: *nodes,
                constants: *constants,
                instances: *instances,
            };
            assert_eq!(rt; found, Some(counted));
        }
        Ok(())
    }

    // Five quantifiers and a negation; and in the atom's place `(ft(..) or same) and not same`, where `same` has five equations.
    #[test]
    fn makes_the_precondition_of_a_body(rt: HostRuntime) -> Result<(), Fail> {
        let found = nodes_before(rt.alloc(), UNINSTALLED)?;
        assert_eq!(rt; found, Some(28));
        Ok(())
    }

    /// So many constants and variables, and the line of their one condition.
    const HOSTS: &[(u8, u8, &[u8])] = &[
        (8, 8, b"0 network inside\n"),
        (9, 8, b"0 network instances 43046721\n"),
        (6, 24, b"0 network instances 4738381338321616896\n"),
        (7, 24, b"0 network instances 18446744073709551615\n"),
    ];

    #[test]
    fn counts_copies(rt: HostRuntime) -> Result<(), Fail> {
        for (i, row) in HOSTS.iter().enumerate() {
            let text = many_hosts(rt.alloc(), row.0, row.1)?;
            let found = lines_of(rt.alloc(), &text, 0)?;
            assert!(rt; found.as_slice() == row.2, "row {i}");
        }
        Ok(())
    }

    // So many times `if`, each of which doubles the nodes of what follows: `step A pktIn` has 524,292 with 16 and 1,048,580
    // with 17.
    const DOUBLED: &[(u8, &[u8])] = &[
        (16, OF_ONE_INVARIANT),
        (
            17,
            b"0 network inside\n1 init 0 A inside\n2 step A pktIn nodes\n3 step A pktFlow inside\n",
        ),
    ];

    #[test]
    fn counts_nodes(rt: HostRuntime) -> Result<(), Fail> {
        let before = b"rel p(); safety A: not p(); pktIn(s, src->dst, i) { ";
        for (i, row) in DOUBLED.iter().enumerate() {
            let text = repeated(rt.alloc(), before, b"if p() { skip; } ", row.0, b"}")?;
            let found = lines_of(rt.alloc(), &text, 0)?;
            assert!(rt; found.as_slice() == row.1, "row {i}");
        }
        Ok(())
    }
}
