//! Texts and how they are printed, worked by hand from the levels of docs/FORMATS.md.

use crate::print;
use csdn_text::parse;
use std::alloc::{AllocError, Global};
use std::test::Fail;

/// What is printed of the tree of a text; nothing where it has none.
fn printed(alloc: Global, text: &[u8]) -> Result<Vec<u8>, AllocError> {
    match parse(alloc, text) {
        Ok(raw) => print(alloc, &raw),
        Err(_) => Ok(Vec::new(alloc)),
    }
}

/// `safety A: `, a formula, and `;`.
fn with_formula(alloc: Global, formula: &[u8], end: &[u8]) -> Result<Vec<u8>, AllocError> {
    let mut text = b"safety A: ".to_vec(alloc)?;
    text.extend_from_slice(formula)?;
    text.extend_from_slice(end)?;
    Ok(text)
}

#[test]
fn prints_parentheses_where_a_level_is_below_the_needed_one(rt: HostRuntime) -> Result<(), Fail> {
    let cases: [(&[u8], &[u8]); 45] = [
        (b"(not p()) and q()", b"not p() and q()"),
        (b"(p() and q()) and r()", b"(p() and q()) and r()"),
        (b"(p() or q()) and r()", b"(p() or q()) and r()"),
        (b"(p() -> q()) and r()", b"(p() -> q()) and r()"),
        (b"(p() <-> q()) and r()", b"(p() <-> q()) and r()"),
        (b"p() and (not q())", b"p() and not q()"),
        (b"p() and (q() and r())", b"p() and q() and r()"),
        (b"p() and (q() or r())", b"p() and (q() or r())"),
        (b"p() and (q() -> r())", b"p() and (q() -> r())"),
        (b"p() and (q() <-> r())", b"p() and (q() <-> r())"),
        (b"(not p()) or q()", b"not p() or q()"),
        (b"(p() and q()) or r()", b"p() and q() or r()"),
        (b"(p() or q()) or r()", b"(p() or q()) or r()"),
        (b"(p() -> q()) or r()", b"(p() -> q()) or r()"),
        (b"(p() <-> q()) or r()", b"(p() <-> q()) or r()"),
        (b"p() or (not q())", b"p() or not q()"),
        (b"p() or (q() and r())", b"p() or q() and r()"),
        (b"p() or (q() or r())", b"p() or q() or r()"),
        (b"p() or (q() -> r())", b"p() or (q() -> r())"),
        (b"p() or (q() <-> r())", b"p() or (q() <-> r())"),
        (b"(not p()) -> q()", b"not p() -> q()"),
        (b"(p() and q()) -> r()", b"p() and q() -> r()"),
        (b"(p() or q()) -> r()", b"p() or q() -> r()"),
        (b"(p() -> q()) -> r()", b"(p() -> q()) -> r()"),
        (b"(p() <-> q()) -> r()", b"(p() <-> q()) -> r()"),
        (b"p() -> (not q())", b"p() -> not q()"),
        (b"p() -> (q() and r())", b"p() -> q() and r()"),
        (b"p() -> (q() or r())", b"p() -> q() or r()"),
        (b"p() -> (q() -> r())", b"p() -> q() -> r()"),
        (b"p() -> (q() <-> r())", b"p() -> (q() <-> r())"),
        (b"(not p()) <-> q()", b"not p() <-> q()"),
        (b"(p() and q()) <-> r()", b"p() and q() <-> r()"),
        (b"(p() or q()) <-> r()", b"p() or q() <-> r()"),
        (b"(p() -> q()) <-> r()", b"p() -> q() <-> r()"),
        (b"(p() <-> q()) <-> r()", b"(p() <-> q()) <-> r()"),
        (b"p() <-> (not q())", b"p() <-> not q()"),
        (b"p() <-> (q() and r())", b"p() <-> q() and r()"),
        (b"p() <-> (q() or r())", b"p() <-> q() or r()"),
        (b"p() <-> (q() -> r())", b"p() <-> q() -> r()"),
        (b"p() <-> (q() <-> r())", b"p() <-> (q() <-> r())"),
        (b"not (not p())", b"not not p()"),
        (b"not (p() and q())", b"not (p() and q())"),
        (b"not (p() or q())", b"not (p() or q())"),
        (b"not (p() -> q())", b"not (p() -> q())"),
        (b"not (p() <-> q())", b"not (p() <-> q())"),
    ];
    let alloc = rt.alloc();
    for (formula, wanted) in cases {
        let text = with_formula(alloc, formula, b";")?;
        let wanted = with_formula(alloc, wanted, b";\n")?;
        assert_eq!(rt; printed(alloc, &text)?.as_slice(), wanted.as_slice());
        assert_eq!(rt; printed(alloc, &wanted)?.as_slice(), wanted.as_slice());
    }
    Ok(())
}

#[test]
fn prints_one_item_a_line_and_blocks_two_spaces_deeper(rt: HostRuntime) -> Result<(), Fail> {
    let cases: [(&[u8], &[u8]); 11] = [
        (
            b"rel armed(); safety A: not armed(); pktIn(s, src->dst, i) { skip; }",
            b"rel armed();\nsafety A: not armed();\npktIn(s, src->dst, i) {\n  skip;\n}\n",
        ),
        (b"rel r(HO) = {};", b"rel r(HO);\n"),
        (
            b"rel r(); timeout  65280 ; pktIn(s,a->b,i){s.uninstall(a->b,i->prt(1));}",
            b"rel r();\ntimeout 65280;\npktIn(s, a->b, i) {\n  s.uninstall(a->b, i->prt(1));\n}\n",
        ),
        (
            b"rel p(); rel q(); safety A: (p() and q()) or not (p() -> q());",
            b"rel p();\nrel q();\nsafety A: p() and q() or not (p() -> q());\n",
        ),
        (
            b"const  c : HO ; rel r( HO,HO ) = { (c,c),( c , c ) } ;",
            b"const c:HO;\nrel r(HO, HO) = {(c, c), (c, c)};\n",
        ),
        (b"static link(SW,PR,HO);", b"static link(SW, PR, HO);\n"),
        (
            b"trans T: forall s:SW. forall a:HO, b:HO. exists p:PR. s.sent(a->b, p->prt(2));",
            b"trans T: forall s:SW, a:HO, b:HO. exists p:PR. s.sent(a->b, p->prt(2));\n",
        ),
        (
            b"safety A: (forall x:HO. p(x)) and (exists y:HO. x = y);",
            b"safety A: (forall x:HO. p(x)) and (exists y:HO. x = y);\n",
        ),
        (
            b"pktIn(s,a->b,prt(1)){if p(){s.flood(a->b,prt(1));}else{skip;}}",
            b"pktIn(s, a->b, prt(1)) {\n  if p() {\n    s.flood(a->b, prt(1));\n  }\n}\n",
        ),
        (
            b"pktIn(s,a->b,i){pick o:PR where s.ft(a->b,i->o){r.insert(a);}else{r.remove(a);s.install(a->b,i->o);}}",
            b"pktIn(s, a->b, i) {\n  pick o:PR where s.ft(a->b, i->o) {\n    r.insert(a);\n  } else {\n    r.remove(a);\n    s.install(a->b, i->o);\n  }\n}\n",
        ),
        (
            b"topology T: s.rcv_this(a->b, i) -> true <-> false; pktIn(s,a->b,i){s.forward(a->b,i->i);}",
            b"topology T: s.rcv_this(a->b, i) -> true <-> false;\npktIn(s, a->b, i) {\n  s.forward(a->b, i->i);\n}\n",
        ),
    ];
    let alloc = rt.alloc();
    for (text, wanted) in cases {
        assert_eq!(rt; printed(alloc, text)?.as_slice(), wanted);
        assert_eq!(rt; printed(alloc, wanted)?.as_slice(), wanted);
    }
    Ok(())
}

#[test]
fn prints_the_examples_as_they_are(rt: HostRuntime) -> Result<(), Fail> {
    let cases: [&[u8]; 3] = [
        b"rel armed();\nsafety A: not armed();\npktIn(s, src->dst, i) {\n  skip;\n}\n",
        b"rel tr(SW, HO);\nsafety guarded: forall S:SW, A:HO, B:HO. S.sent(A->B, prt(2)->prt(1)) -> tr(S, A);\npktIn(s, src->dst, prt(1)) {\n  s.forward(src->dst, prt(1)->prt(2));\n  tr.insert(s, dst);\n  s.install(src->dst, prt(1)->prt(2));\n}\npktIn(s, src->dst, prt(2)) {\n  if tr(s, src) {\n    s.forward(src->dst, prt(2)->prt(1));\n    s.install(src->dst, prt(2)->prt(1));\n  }\n}\n",
        b"rel conn(SW, PR, HO);\ntopology two: not prt(1) = prt(2);\ntrans no_black_hole: forall S:SW, A:HO, B:HO, I:PR. S.rcv_this(A->B, I) -> (exists O:PR. S.sent(A->B, I->O));\npktIn(s, src->dst, i) {\n  conn.insert(s, i, src);\n  pick o:PR where conn(s, o, dst) {\n    s.install(src->dst, i->o);\n    s.forward(src->dst, i->o);\n  } else {\n    s.flood(src->dst, i);\n  }\n}\n",
    ];
    let alloc = rt.alloc();
    for text in cases {
        assert_eq!(rt; printed(alloc, text)?.as_slice(), text);
    }
    Ok(())
}

#[test]
fn prints_the_deepest_formula(rt: HostRuntime) -> Result<(), Fail> {
    let alloc = rt.alloc();
    let mut formula = Vec::new(alloc);
    for _ in 0..63 {
        formula.extend_from_slice(b"not ")?;
    }
    formula.extend_from_slice(b"p()")?;
    let text = with_formula(alloc, &formula, b";\n")?;
    assert_eq!(rt; printed(alloc, &text)?.as_slice(), text.as_slice());
    Ok(())
}
