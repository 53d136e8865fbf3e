//! Texts and what they are answered, worked by hand from the grammar of docs/LANGUAGE.md.
#![tactic(auto)]

#[cfg(test)]
mod tests {
    use csdn_text::parse;
    use csdn_tree::syntax::{Connective, RawCommand, RawFormula, RawItem, RawProgram};
    use std::alloc::{AllocError, Global};
    use std::process::Abort;
    use std::test::Fail;

    /// What is answered of a text: that it is read, or its refusal.
    fn told(alloc: Global, text: &[u8]) -> Result<String, AllocError> {
        match parse(alloc, text) {
            Ok(_) => format!(in alloc; "read"),
            Err(refusal) => format!(in alloc; "{refusal:?}"),
        }
    }

    /// Each text is answered so.
    fn tells(rt: &impl Abort, alloc: Global, rows: &[(&[u8], &str)]) -> Result<(), AllocError> {
        for (i, row) in rows.iter().enumerate() {
            let found = told(alloc, row.0)?;
            assert!(rt; found.as_str() == row.1, "row {i}: {found}");
        }
        Ok(())
    }

    const ANSWERS: &[(&[u8], &str)] = &[
        // the first token that does not fit
        (b"", "Unexpected { at: 0 }"),
        (b"   ", "Unexpected { at: 3 }"),
        (b"// only a comment", "Unexpected { at: 17 }"),
        (b"rel p(); x", "Unexpected { at: 9 }"),
        (b"uninstall", "Unexpected { at: 0 }"),
        (b"rel timeout();", "Unexpected { at: 4 }"),
        (b"safety A: uninstall();", "Unexpected { at: 10 }"),
        (b"static p(SW) = {};", "Unexpected { at: 13 }"),
        (b"const c SW;", "Unexpected { at: 8 }"),
        (b"rel rel();", "Unexpected { at: 4 }"),
        (b"rel p(SW HO);", "Unexpected { at: 9 }"),
        (b"rel p(SW,);", "Unexpected { at: 9 }"),
        (b"rel p(X);", "Unexpected { at: 6 }"),
        (b"rel p(HO) = ;", "Unexpected { at: 12 }"),
        (b"rel p(HO) = {(a),};", "Unexpected { at: 17 }"),
        (b"rel p(HO) = {(a,)};", "Unexpected { at: 16 }"),
        (b"rel p(HO) = {(a b)};", "Unexpected { at: 16 }"),
        (b"topology A p();", "Unexpected { at: 11 }"),
        (b"safety A: p() p();", "Unexpected { at: 14 }"),
        (b"safety A: prt(x) = y;", "Unexpected { at: 14 }"),
        (b"safety A: prt(1);", "Unexpected { at: 16 }"),
        (b"safety A: x;", "Unexpected { at: 11 }"),
        (b"safety A: x.insert(y);", "Unexpected { at: 12 }"),
        (b"safety A: x.sent(a->b, c);", "Unexpected { at: 24 }"),
        (b"trans A: x.rcv_this(a->b, c->d);", "Unexpected { at: 27 }"),
        (b"safety A: not;", "Unexpected { at: 13 }"),
        (b"safety A: forall X. p();", "Unexpected { at: 18 }"),
        (b"safety A: forall X:SW p();", "Unexpected { at: 22 }"),
        (b"safety A: p() <-> q() <-> r();", "Unexpected { at: 22 }"),
        (
            b"safety A: p() and forall X:SW. q(X);",
            "Unexpected { at: 18 }",
        ),
        (b"safety A: (p();", "Unexpected { at: 14 }"),
        (b"pktIn(s, a, i) { skip; }", "Unexpected { at: 10 }"),
        (b"pktIn(s, a->b, SW) { skip; }", "Unexpected { at: 15 }"),
        (b"pktIn(s, a->b, i) {}", "Unexpected { at: 19 }"),
        (b"pktIn(s, a->b, i) { x.drop(y); }", "Unexpected { at: 22 }"),
        (
            b"pktIn(s, a->b, i) { x.insert(y) }",
            "Unexpected { at: 32 }",
        ),
        (
            b"pktIn(s, a->b, i) { x.flood(a->b, c->d); }",
            "Unexpected { at: 35 }",
        ),
        (b"pktIn(s, a->b, i) { skip }", "Unexpected { at: 25 }"),
        (
            b"pktIn(s, a->b, i) { pick x:HO { skip; } }",
            "Unexpected { at: 30 }",
        ),
        (
            b"pktIn(s, a->b, i) { if p() skip; }",
            "Unexpected { at: 27 }",
        ),
        (
            b"pktIn(s, a->b, i) { if p() { skip; } else skip; }",
            "Unexpected { at: 42 }",
        ),
        (
            b"pktIn(s, a->b, i) { else { skip; } }",
            "Unexpected { at: 20 }",
        ),
        (b"pktIn(s, a->b, i) { skip;", "Unexpected { at: 25 }"),
        (
            b"pktIn(s, a->b, i) { s.uninstall(a->b, i); }",
            "Unexpected { at: 39 }",
        ),
        (b"timeout", "Unexpected { at: 7 }"),
        (b"timeout x;", "Unexpected { at: 8 }"),
        (b"timeout prt(5);", "Unexpected { at: 8 }"),
        (b"timeout 5", "Unexpected { at: 9 }"),
        (b"timeout 5 6;", "Unexpected { at: 10 }"),
        (b"rel ( $", "Unexpected { at: 4 }"),
        // what is no token
        (b"rel p(); $", "BadByte { at: 9 }"),
        (b"rel p() - ;", "BadByte { at: 8 }"),
        (b"rel p() / ;", "BadByte { at: 8 }"),
        (b"rel p(); _x", "BadByte { at: 9 }"),
        (b"safety A: p() < q();", "BadByte { at: 14 }"),
        (b"safety A: p() <- q();", "BadByte { at: 14 }"),
        (b"rel \xc3\xa4();", "BadByte { at: 4 }"),
        (b"safety A: prt(0) = x;", "BadNumber { at: 14 }"),
        (b"safety A: prt(012) = x;", "BadNumber { at: 14 }"),
        (b"safety A: prt(65281) = x;", "BadNumber { at: 14 }"),
        (b"safety A: prt(4294967297) = x;", "BadNumber { at: 14 }"),
        (b"timeout 0;", "BadNumber { at: 8 }"),
        (b"timeout 05;", "BadNumber { at: 8 }"),
        (b"timeout 65281;", "BadNumber { at: 8 }"),
        (b"0", "BadNumber { at: 0 }"),
        (
            b"aaaaaaaaaaaaaaaaaaaaaaaaaaaaaaaaaaaaaaaaaaaaaaaaaaaaaaaaaaaaaaaaaaaaaaaa",
            "BadName { at: 0 }",
        ),
        (b"rel p(); // $\n$", "BadByte { at: 14 }"),
        // programs
        (
            b"rel armed(); safety A: not armed(); pktIn(s, src->dst, i) { skip; }",
            "read",
        ),
        (b"rel p(); // the end \xff", "read"),
        (
            b"//\nrel p(HO, SW, PR) = {(a, b, prt(65280)), ()};\r\n\t",
            "read",
        ),
        (b"rel p() = {};", "read"),
        (b"static p(); const c:PR; topology T: prt(1) = c;", "read"),
        (
            b"safety A: forall X:SW, Y:HO. exists Z:PR. X.ft(Y->Y, Z->prt(2)) or X = Y <-> true;",
            "read",
        ),
        (
            b"trans A: S.rcv_this(A->B, I) -> (exists O:PR. S.sent(A->B, I->O)) and false;",
            "read",
        ),
        (
            b"pktIn(s, a->b, prt(1)) { s.forward(a->b, prt(1)->prt(2)); s.install(a->b, i->o); s.flood(a->b, i); }",
            "read",
        ),
        (
            b"pktIn(s, a->b, i) { r.insert(s, a); r.remove(); if p() { skip; } }",
            "read",
        ),
        (
            b"pktIn(s, a->b, i) { pick x:HO where r(x) { skip; } else { skip; skip; } }",
            "read",
        ),
        (b"rel pktIns(); rel fts(); rel Sw();", "read"),
        (b"safety A: ((((p()))));", "read"),
        (b"timeout 1; timeout 65280;", "read"),
        (
            b"timeout 30; pktIn(s, a->b, i) { s.uninstall(a->b, i->prt(2)); }",
            "read",
        ),
    ];

    #[test]
    fn reads_programs_and_tells_what_does_not_fit(rt: HostRuntime) -> Result<(), Fail> {
        tells(&rt, rt.alloc(), ANSWERS)?;
        Ok(())
    }

    /// `front`, a piece so many times, and `p();`.
    fn repeated(
        alloc: Global,
        front: &[u8],
        piece: &[u8],
        times: usize,
    ) -> Result<Vec<u8>, AllocError> {
        let mut text = front.to_vec(alloc)?;
        for _ in 0..times {
            text.extend_from_slice(piece)?;
        }
        text.extend_from_slice(b"p();")?;
        Ok(text)
    }

    // The greatest depth and the longest word, and what is one deeper or longer.
    const LIMITS: &[(&[u8], &[u8], usize, &str)] = &[
        (b"rel p(); safety A: ", b"not ", 63, "read"),
        (b"rel p(); safety A: ", b"not ", 64, "TooDeep { at: 271 }"),
        (b"rel ", b"a", 63, "read"),
        (b"rel ", b"a", 64, "BadName { at: 4 }"),
    ];

    /// Each text that is made so is answered so.
    fn tells_repeated(
        rt: &impl Abort,
        alloc: Global,
        rows: &[(&[u8], &[u8], usize, &str)],
    ) -> Result<(), AllocError> {
        for (i, row) in rows.iter().enumerate() {
            let text = repeated(alloc, row.0, row.1, row.2)?;
            let found = told(alloc, &text)?;
            assert!(rt; found.as_str() == row.3, "row {i}: {found}");
        }
        Ok(())
    }

    #[test]
    fn counts_depth_and_bytes_exactly(rt: HostRuntime) -> Result<(), Fail> {
        tells_repeated(&rt, rt.alloc(), LIMITS)?;
        Ok(())
    }

    /// Whether an invariant, with its name at byte 7, is an implication of an implication.
    fn is_nested_to_the_right(raw: &RawProgram) -> bool {
        match raw.items.get(0) {
            Some(RawItem::Invariant(_, name, RawFormula::Two(Connective::Implies, _, right))) => {
                name.at == 7 && matches!(right.get(), RawFormula::Two(Connective::Implies, _, _))
            }
            _ => false,
        }
    }

    /// Whether a handler is an `if` with no `else` of its own.
    fn has_no_outer_else(raw: &RawProgram) -> bool {
        match raw.items.get(0) {
            Some(RawItem::Handler(handler)) => match &handler.body {
                RawCommand::If(_, _, other) => matches!(other.get(), RawCommand::Skip),
                _ => false,
            },
            _ => false,
        }
    }

    /// Whether the text reads as an implication of an implication.
    fn reads_nested_to_the_right(alloc: Global, text: &[u8]) -> bool {
        match parse(alloc, text) {
            Ok(raw) => is_nested_to_the_right(&raw),
            Err(_) => false,
        }
    }

    /// Whether the text reads as an `if` with no `else` of its own.
    fn reads_no_outer_else(alloc: Global, text: &[u8]) -> bool {
        match parse(alloc, text) {
            Ok(raw) => has_no_outer_else(&raw),
            Err(_) => false,
        }
    }

    #[test]
    fn makes_the_tree_that_the_grammar_means(rt: HostRuntime) -> Result<(), Fail> {
        let alloc = rt.alloc();
        assert!(rt; reads_nested_to_the_right(alloc, b"safety A: p() -> q() -> r();"));
        let text = b"pktIn(s, a->b, i) { if p() { if q() { skip; } else { r.insert(); } } }";
        assert!(rt; reads_no_outer_else(alloc, text));
        Ok(())
    }
}
