//! The rows, and what is asked of them.
use csdn_core::program::Program;
use csdn_core::syntax::Formula;
use csdn_core::terms::{ConstId, Pred, RelId, Term, Terms};
use fol_forms::count::node_count;
use fol_forms::fragment::in_fragment;
use fol_forms::instances::instance_count;
use fol_forms::normal::normal;
use fol_forms::refusal::FormRefusal;
use fol_forms::replace::{add_flood, add_row, drop_match, drop_row, fix_packet, no_packet};
use std::alloc::Global;

/// What is counted of a formula.
#[derive(Clone, Copy, Debug, PartialEq, Eq)]
pub enum Counted {
    /// Whether its normal form is in the fragment, its nodes, and the instances of its normal form.
    Itself(bool, u64, u64),
    /// The nodes of its normal form, and of that of its negation; 0 above 1,048,576.
    Normal(u64, u64),
    /// Once the first relation has a row of so many ports: the nodes, and those once it has it no more.
    Row(u8, u64, u64),
    /// The nodes when a packet is at hand, once it was flooded, and once the rules of its match are gone.
    Packet(u64, u64, u64),
    /// When there is no packet: the nodes, and the instances of the normal form.
    NoPacket(u64, u64),
}

/// The formula of a program's first safety invariant, or where it has none of its first transition invariant.
fn first_formula(program: &Program) -> Option<&Formula> {
    let parts = program.parts();
    match parts.safety.get(0) {
        Some(invariant) => Some(&invariant.formula),
        None => match parts.trans.get(0) {
            Some(invariant) => Some(&invariant.formula),
            None => None,
        },
    }
}

/// The nodes of a form; 0 where it is too large.
fn made_nodes(form: Result<Formula, FormRefusal>) -> Result<u64, FormRefusal> {
    match form {
        Ok(form) => Ok(node_count(&form)),
        Err(FormRefusal::Large) => Ok(0),
        Err(FormRefusal::Memory) => Err(FormRefusal::Memory),
    }
}

fn normal_forms(alloc: Global, formula: &Formula) -> Result<Counted, FormRefusal> {
    let kept = made_nodes(normal(alloc, formula, false))?;
    let negated = made_nodes(normal(alloc, formula, true))?;
    Ok(Counted::Normal(kept, negated))
}

fn rows(alloc: Global, formula: &Formula, count: u8) -> Result<Counted, FormRefusal> {
    let pred = Pred::Stored(RelId(0));
    let row = ports(count);
    let with = made_nodes(add_row(alloc, formula, pred, &row))?;
    let without = made_nodes(drop_row(alloc, formula, pred, &row))?;
    Ok(Counted::Row(count, with, without))
}

/// At most two ports.
fn ports(count: u8) -> Terms {
    let mut terms = Terms::new();
    if count > 0 {
        terms.push(Term::Port(1));
    }
    if count > 1 {
        terms.push(Term::Port(2));
    }
    terms
}

fn packets(alloc: Global, formula: &Formula) -> Result<Counted, FormRefusal> {
    let packet = packet();
    let fixed = made_nodes(fix_packet(alloc, formula, &packet))?;
    let flooded = made_nodes(add_flood(alloc, formula, &packet))?;
    let dropped = made_nodes(drop_match(alloc, formula, &packet))?;
    Ok(Counted::Packet(fixed, flooded, dropped))
}

/// Three constants and a port.
fn packet() -> Terms {
    let mut packet = Terms::new();
    packet.push(Term::Const(ConstId(0)));
    packet.push(Term::Const(ConstId(1)));
    packet.push(Term::Const(ConstId(2)));
    packet.push(Term::Port(1));
    packet
}

fn without_packet(
    alloc: Global,
    program: &Program,
    formula: &Formula,
) -> Result<Counted, FormRefusal> {
    let form = no_packet(alloc, formula)?;
    Ok(Counted::NoPacket(node_count(&form), instance_count(program, &form)))
}

/// What a row asks of the program's first formula.
fn answered(
    alloc: Global,
    program: &Program,
    asked: Counted,
) -> Result<Option<Counted>, FormRefusal> {
    let Some(formula) = first_formula(program) else {
        return Ok(None);
    };
    let counted = match asked {
        Counted::Itself(_, _, _) => {
            let instances = instance_count(program, formula);
            Counted::Itself(in_fragment(formula), node_count(formula), instances)
        }
        Counted::Normal(_, _) => normal_forms(alloc, formula)?,
        Counted::Row(count, _, _) => rows(alloc, formula, count)?,
        Counted::Packet(_, _, _) => packets(alloc, formula)?,
        Counted::NoPacket(_, _) => without_packet(alloc, program, formula)?,
    };
    Ok(Some(counted))
}

mod tables {
    use super::*;
    use csdn_core::terms::{Sort, VarId};
    use csdn_read::read_program;
    use fol_forms::close::{Bind, Binds, close};
    use sqlite_items::Items;
    use std::process::Abort;
    use std::test::Fail;

    fn have_counts(rt: &impl Abort, alloc: Global, rows: &[(&[u8], Counted)]) {
        for (i, row) in rows.iter().enumerate() {
            let Ok(program) = read_program(alloc, row.0) else {
                assert!(rt; false, "no program in row {i}");
                return;
            };
            let Ok(found) = answered(alloc, &program, row.1) else {
                assert!(rt; false, "no memory in row {i}");
                return;
            };
            assert_eq!(rt; found, Some(row.1), "row {i}");
        }
    }

    const COUNTS: &[(&[u8], Counted)] = &[
        (b"safety A: true;", Counted::Itself(true, 1, 0)),
        (b"rel p(); safety A: p();", Counted::Itself(true, 1, 1)),
        (b"rel p(); safety A: not p();", Counted::Itself(true, 2, 1)),
        (
            b"rel p(); rel q(); safety A: p() -> not q();",
            Counted::Itself(true, 4, 2),
        ),
        // a `<->` has each side twice in the normal form
        (
            b"rel p(); rel q(); safety A: p() <-> q();",
            Counted::Itself(true, 3, 4),
        ),
        (
            b"rel p(); rel q(); safety A: (p() <-> q()) <-> p();",
            Counted::Itself(true, 5, 10),
        ),
        // an `exists` under a `forall`, also where a negation or an implication turns one into the other
        (
            b"static link(SW, PR, HO); safety A: forall S:SW. exists H:HO. link(S, prt(1), H);",
            Counted::Itself(false, 3, 1),
        ),
        (
            b"static link(SW, PR, HO); safety A: not (forall S:SW. exists H:HO. link(S, prt(1), H));",
            Counted::Itself(true, 4, 1),
        ),
        (
            b"static link(SW, PR, HO); safety A: not (exists S:SW. forall H:HO. link(S, prt(1), H));",
            Counted::Itself(false, 4, 1),
        ),
        (
            b"static link(SW, PR, HO); safety A: exists S:SW. forall H:HO. link(S, prt(1), H);",
            Counted::Itself(true, 3, 1),
        ),
        (
            b"rel r(HO); rel p(); safety A: forall X:HO. (forall Y:HO. r(Y)) -> p();",
            Counted::Itself(false, 5, 2),
        ),
        (
            b"rel r(HO); rel p(); safety A: forall X:HO. (exists Y:HO. r(Y)) -> p();",
            Counted::Itself(true, 5, 2),
        ),
        (
            b"rel r(HO); rel p(); safety A: (forall X:HO. r(X)) -> (exists X:HO. r(X));",
            Counted::Itself(true, 5, 2),
        ),
        (
            b"rel r(HO); rel p(); safety A: (forall X:HO. r(X)) <-> p();",
            Counted::Itself(true, 4, 4),
        ),
        (
            b"rel r(HO); rel p(); safety A: forall Y:HO. ((forall X:HO. r(X)) <-> p());",
            Counted::Itself(false, 5, 4),
        ),
        // a `forall` is copied for each constant of its sort: the declared ones, and for ports the numerals
        (
            b"rel tr(SW, HO); safety A: forall S:SW, A:HO, B:HO. S.sent(A->B, prt(2)->prt(1)) -> tr(S, A);",
            Counted::Itself(true, 6, 2),
        ),
        (
            b"rel tr(SW, HO); const g:HO; const h:HO; safety A: forall S:SW, A:HO, B:HO. S.sent(A->B, prt(2)->prt(1)) -> tr(S, A);",
            Counted::Itself(true, 6, 8),
        ),
        (
            b"safety A: forall P:PR. P = prt(1) or P = prt(2);",
            Counted::Itself(true, 4, 4),
        ),
        (
            b"const g:PR; safety A: forall P:PR. P = prt(1) or P = g;",
            Counted::Itself(true, 4, 4),
        ),
        (
            b"const g:PR; safety A: exists P:PR. P = prt(1) or P = g;",
            Counted::Itself(true, 4, 2),
        ),
        // .. and those that the `exists` need: of an `and` both sides', of an `or` the greater
        (
            b"rel r(SW); safety A: (exists X:SW. r(X)) and (exists X:SW. r(X)) and (forall X:SW. r(X));",
            Counted::Itself(true, 8, 4),
        ),
        (
            b"rel r(SW); safety A: ((exists X:SW. r(X)) or (exists X:SW. r(X))) and (forall X:SW. r(X));",
            Counted::Itself(true, 8, 3),
        ),
        (
            b"rel r(SW); safety A: (exists X:SW, Y:SW. r(X) and r(Y)) and (forall X:SW. r(X));",
            Counted::Itself(true, 8, 4),
        ),
        (
            b"rel r(SW); const c:SW; safety A: (exists X:SW, Y:SW. r(X) and r(Y)) and (forall X:SW. r(X));",
            Counted::Itself(true, 8, 5),
        ),
        // at most one host has r, and an event that may break it
        (
            b"rel r(HO); safety A: (forall X:HO, Y:HO. r(X) and r(Y) -> X = Y) and not (forall S:SW, A:HO, B:HO, I:PR, X:HO, Y:HO. (r(X) or X = A) and (r(Y) or Y = A) -> X = Y);",
            Counted::Itself(true, 24, 53),
        ),
        // 8^21 copies, and 8^24, which 64 bits can't count
        (
            b"rel r(HO); const a:HO; const b:HO; const c:HO; const d:HO; const e:HO; const f:HO; const g:HO; const h:HO;
            safety A: forall X1:HO, X2:HO, X3:HO, X4:HO, X5:HO, X6:HO, X7:HO, X8:HO, X9:HO, X10:HO, X11:HO, X12:HO, X13:HO, X14:HO, X15:HO, X16:HO, X17:HO, X18:HO, X19:HO, X20:HO, X21:HO. r(X1);",
            Counted::Itself(true, 22, 9223372036854775808),
        ),
        (
            b"rel r(HO); const a:HO; const b:HO; const c:HO; const d:HO; const e:HO; const f:HO; const g:HO; const h:HO;
            safety A: forall X1:HO, X2:HO, X3:HO, X4:HO, X5:HO, X6:HO, X7:HO, X8:HO, X9:HO, X10:HO, X11:HO, X12:HO, X13:HO, X14:HO, X15:HO, X16:HO, X17:HO, X18:HO, X19:HO, X20:HO, X21:HO, X22:HO, X23:HO, X24:HO. r(X1);",
            Counted::Itself(true, 25, 18446744073709551615),
        ),
    ];

    #[test]
    fn counts_formulas(rt: HostRuntime) {
        have_counts(&rt, rt.alloc(), COUNTS);
    }

    const FORMS: &[(&[u8], Counted)] = &[
        (b"safety A: not true;", Counted::Normal(1, 1)),
        (b"rel p(); safety A: not not p();", Counted::Normal(1, 2)),
        (
            b"rel p(); rel q(); safety A: p() -> q();",
            Counted::Normal(4, 4),
        ),
        (
            b"rel p(); rel q(); safety A: p() and not q();",
            Counted::Normal(4, 4),
        ),
        (
            b"rel p(); rel q(); safety A: p() <-> q();",
            Counted::Normal(9, 9),
        ),
        (
            b"rel r(HO); safety A: not (forall X:HO. r(X));",
            Counted::Normal(3, 2),
        ),
        (
            b"rel p(); rel q(); rel r(); safety A: p() <-> (q() <-> r());",
            Counted::Normal(24, 24),
        ),
        (
            b"rel p(); safety A: not (p() and (p() or not p()));",
            Counted::Normal(7, 6),
        ),
        // 17 and 18 times `<->`: with k of them 15 * 2^(k - 1) - 6 nodes
        (
            b"rel p(); safety A: p() <-> (p() <-> (p() <-> (p() <-> (p() <-> (p() <-> (p() <-> (p() <-> (p() <-> (p() <-> (p() <-> (p() <-> (p() <-> (p() <-> (p() <-> (p() <-> (p() <-> p()))))))))))))))));",
            Counted::Normal(983034, 983034),
        ),
        (
            b"rel p(); safety A: p() <-> (p() <-> (p() <-> (p() <-> (p() <-> (p() <-> (p() <-> (p() <-> (p() <-> (p() <-> (p() <-> (p() <-> (p() <-> (p() <-> (p() <-> (p() <-> (p() <-> (p() <-> p())))))))))))))))));",
            Counted::Normal(0, 0),
        ), // p(): p() or true, p() and not true
        (b"rel p(); safety A: p();", Counted::Row(0, 3, 4)),
        // r(X): r(X) or X = t, r(X) and not X = t
        (
            b"rel r(PR); safety A: forall X:PR. r(X) -> X = prt(3);",
            Counted::Row(1, 6, 7),
        ),
        (
            b"rel r(PR); safety A: forall X:PR. not (r(X) or r(prt(1)));",
            Counted::Row(1, 9, 11),
        ),
        // r(X, Y): r(X, Y) or (X = t and Y = u)
        (
            b"rel r(PR, PR); safety A: forall X:PR, Y:PR. r(X, Y);",
            Counted::Row(2, 7, 8),
        ),
        // another relation
        (
            b"rel q(PR); rel r(PR); safety A: forall X:PR. r(X);",
            Counted::Row(1, 2, 2),
        ),
        // four equations in place of the packet at hand; sent(..) or four equations and not a fifth; no rule in it
        (
            b"trans A: forall S:SW, A:HO, B:HO, I:PR. S.rcv_this(A->B, I) -> (exists O:PR. S.sent(A->B, I->O));",
            Counted::Packet(14, 19, 8),
        ),
        // ft(..) and not four equations
        (
            b"trans A: forall S:SW, A:HO, B:HO, I:PR. S.rcv_this(A->B, I) -> (exists O:PR. S.ft(A->B, I->O));",
            Counted::Packet(14, 8, 17),
        ),
        // false in place of the packet
        (
            b"trans A: forall S:SW, A:HO, B:HO, I:PR. S.rcv_this(A->B, I) -> (exists O:PR. S.sent(A->B, I->O));",
            Counted::NoPacket(8, 1),
        ),
        (
            b"trans A: forall S:SW, A:HO, B:HO, I:PR. S.rcv_this(A->B, I) -> (exists O:PR. S.sent(A->B, I->O));",
            Counted::Itself(false, 8, 2),
        ),
    ];

    #[test]
    fn counts_forms(rt: HostRuntime) {
        have_counts(&rt, rt.alloc(), FORMS);
    }

    #[test]
    fn binds_from_the_outside(rt: HostRuntime) -> Result<(), Fail> {
        let mut binds: Binds = Items::new(rt.alloc());
        binds.push(Bind {
            var: VarId(7),
            sort: Sort::Sw,
        })?;
        binds.push(Bind {
            var: VarId(8),
            sort: Sort::Ho,
        })?;
        let Ok(Formula::Forall(first, Sort::Sw, rest)) = close(rt.alloc(), Formula::False, &binds)
        else {
            assert!(rt; false, "the first bind is not outside");
            return Ok(());
        };
        assert_eq!(rt; first, VarId(7));
        assert!(rt; matches!(rest.get(), Formula::Forall(VarId(8), Sort::Ho, _)));
        assert_eq!(rt; node_count(rest.get()), 2);
        Ok(())
    }
}
