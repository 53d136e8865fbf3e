//! Texts, and the first rule on names, sorts and limits that each breaks, worked by hand from the table of
//! docs/LANGUAGE.md.
#![tactic(auto)]

#[cfg(test)]
mod tests {
    use csdn_read::{ProgramRefusal, read_program};
    use std::alloc::{AllocError, Global};
    use std::process::Abort;
    use std::test::Fail;

    /// What is answered of a text: that it is a program, or the first refusal.
    fn told(alloc: Global, text: &[u8]) -> Result<String, AllocError> {
        match read_program(alloc, text) {
            Ok(_) => format!(in alloc; "a program"),
            Err(ProgramRefusal::At { at, why }) => format!(in alloc; "{why:?} {{ at: {at} }}"),
            Err(ProgramRefusal::Memory) => Err(AllocError),
        }
    }

    /// Each text is answered so.
    fn tells(rt: &impl Abort, alloc: Global, rows: &[(&[u8], &str)]) -> Result<(), AllocError> {
        for (i, row) in rows.iter().enumerate() {
            let found = told(alloc, row.0)?;
            assert!(rt; found.as_str() == row.1, "row {i}: {found}");
        }
        Ok(())
    }

    const ANSWERS: &[(&[u8], &str)] = &[
        // what is declared or bound twice
        (b"rel p(); rel p();", "Duplicate { at: 13 }"),
        (b"static p(); rel p();", "Duplicate { at: 16 }"),
        (b"const c:SW; const c:HO;", "Duplicate { at: 18 }"),
        (b"safety A: true; topology A: true;", "Duplicate { at: 25 }"),
        (
            b"const c:SW; safety A: forall c:SW. true;",
            "Duplicate { at: 29 }",
        ),
        (
            b"safety A: forall X:SW, X:HO. true;",
            "Duplicate { at: 23 }",
        ),
        (
            b"safety A: forall X:SW. exists X:SW. true;",
            "Duplicate { at: 30 }",
        ),
        (b"pktIn(s, s->b, i) { skip; }", "Duplicate { at: 9 }"),
        (b"pktIn(s, a->a2, a) { skip; }", "Duplicate { at: 16 }"),
        (
            b"pktIn(s, a->b, i) { pick a:SW where true { skip; } }",
            "Duplicate { at: 25 }",
        ),
        (
            b"const c:SW; pktIn(s, a->c, i) { skip; }",
            "Duplicate { at: 24 }",
        ),
        (b"timeout 5; timeout 6;", "Duplicate { at: 11 }"),
        (b"timeout 5; rel p(); timeout 5;", "Duplicate { at: 20 }"),
        // what is not declared
        (b"safety A: p();", "Unknown { at: 10 }"),
        (b"safety A: p(); rel p();", "Unknown { at: 10 }"),
        (b"rel p(SW); safety A: p(x);", "Unknown { at: 23 }"),
        (b"const c:SW; safety A: c = x;", "Unknown { at: 26 }"),
        (b"const c:SW; safety A: x = c;", "Unknown { at: 22 }"),
        (b"rel p(SW) = {(x)};", "Unknown { at: 14 }"),
        (b"rel p(SW) = {(c)}; const c:SW;", "Unknown { at: 14 }"),
        (
            b"rel p() = {()}; safety A: x.ft(a->b, i->o);",
            "Unknown { at: 26 }",
        ),
        (
            b"rel r(SW); safety A: (forall X:SW. r(X)) and r(X);",
            "Unknown { at: 47 }",
        ),
        (
            b"rel r(SW); pktIn(s, a->b, i) { pick x:SW where r(x) { skip; } else { r.insert(x); } }",
            "Unknown { at: 78 }",
        ),
        (
            b"rel r(SW); pktIn(s, a->b, i) { pick x:SW where true { skip; } r.insert(x); }",
            "Unknown { at: 71 }",
        ),
        (b"pktIn(s, a->b, i) { q.insert(s); }", "Unknown { at: 20 }"),
        // another number of terms
        (b"rel p(SW, SW, SW, SW, SW, SW);", "WrongArity { at: 4 }"),
        (b"rel p(SW); safety A: p();", "WrongArity { at: 21 }"),
        (
            b"rel p(); safety A: forall X:SW. p(X);",
            "WrongArity { at: 32 }",
        ),
        (b"rel p(SW) = {()};", "WrongArity { at: 13 }"),
        (
            b"const c:SW; rel p(SW) = {(c), (c, c)};",
            "WrongArity { at: 30 }",
        ),
        (
            b"rel r(SW); pktIn(s, a->b, i) { r.insert(s, s); }",
            "WrongArity { at: 31 }",
        ),
        // another sort
        (
            b"rel r(HO); safety A: forall X:SW. r(X);",
            "WrongSort { at: 36 }",
        ),
        (
            b"const c:HO; const d:SW; safety A: c = d;",
            "WrongSort { at: 38 }",
        ),
        (b"const c:HO; safety A: c = prt(1);", "WrongSort { at: 26 }"),
        (b"rel r(SW); safety A: r(prt(1));", "WrongSort { at: 23 }"),
        (b"const c:HO; rel r(SW) = {(c)};", "WrongSort { at: 26 }"),
        (
            b"safety A: forall X:HO, P:PR. X.ft(X->X, P->P);",
            "WrongSort { at: 29 }",
        ),
        (
            b"safety A: forall X:SW, Y:HO, P:PR. X.ft(Y->X, P->P);",
            "WrongSort { at: 43 }",
        ),
        (
            b"rel r(SW); pktIn(s, a->b, i) { r.remove(a); }",
            "WrongSort { at: 40 }",
        ),
        (
            b"pktIn(s, a->b, i) { s.install(a->b, a->i); }",
            "WrongSort { at: 36 }",
        ),
        (
            b"pktIn(s, a->b, i) { a.install(a->b, i->i); }",
            "WrongSort { at: 20 }",
        ),
        (
            b"pktIn(s, a->b, i) { s.uninstall(a->b, i->a); }",
            "WrongSort { at: 41 }",
        ),
        (
            b"pktIn(s, a->b, i) { a.uninstall(a->b, i->i); }",
            "WrongSort { at: 20 }",
        ),
        // what may not stand there
        (
            b"rel r(HO); topology T: forall X:HO. r(X);",
            "NotAllowed { at: 36 }",
        ),
        (
            b"topology T: forall X:SW, Y:HO, P:PR. X.ft(Y->Y, P->P);",
            "NotAllowed { at: 39 }",
        ),
        (
            b"topology T: forall X:SW, Y:HO, P:PR. X.sent(Y->Y, P->P);",
            "NotAllowed { at: 39 }",
        ),
        (
            b"topology T: forall X:SW, Y:HO, P:PR. X.rcv_this(Y->Y, P);",
            "NotAllowed { at: 39 }",
        ),
        (
            b"safety A: forall X:SW, Y:HO, P:PR. X.rcv_this(Y->Y, P);",
            "NotAllowed { at: 37 }",
        ),
        (
            b"pktIn(s, a->b, i) { if s.sent(a->b, i->i) { skip; } }",
            "NotAllowed { at: 25 }",
        ),
        (
            b"pktIn(s, a->b, i) { if s.rcv_this(a->b, i) { skip; } }",
            "NotAllowed { at: 25 }",
        ),
        (
            b"static r(SW); pktIn(s, a->b, i) { r.insert(s); }",
            "NotAllowed { at: 34 }",
        ),
        (
            b"static r(SW); pktIn(s, a->b, i) { r.remove(s); }",
            "NotAllowed { at: 34 }",
        ),
        (
            b"pktIn(s, a->b, i) { pick x:SW where true { x.install(a->b, i->i); } }",
            "NotAllowed { at: 43 }",
        ),
        (
            b"pktIn(s, a->b, i) { s.forward(b->b, i->i); }",
            "NotAllowed { at: 30 }",
        ),
        (
            b"pktIn(s, a->b, i) { s.forward(a->a, i->i); }",
            "NotAllowed { at: 33 }",
        ),
        (
            b"pktIn(s, a->b, i) { s.flood(a->b, prt(1)); }",
            "NotAllowed { at: 34 }",
        ),
        (
            b"pktIn(s, a->b, prt(1)) { s.forward(a->b, prt(2)->prt(2)); }",
            "NotAllowed { at: 41 }",
        ),
        (
            b"const c:PR; pktIn(s, a->b, prt(1)) { s.flood(a->b, c); }",
            "NotAllowed { at: 51 }",
        ),
        (
            b"pktIn(s, a->b, i) { pick x:SW where true { x.uninstall(a->b, i->i); } }",
            "NotAllowed { at: 43 }",
        ),
        (
            b"const c:SW; pktIn(s, a->b, i) { c.uninstall(a->b, i->i); }",
            "NotAllowed { at: 32 }",
        ),
        // two faults: the least place, and at one place the first row of the table
        (b"safety A: p(); rel q(); rel q();", "Unknown { at: 10 }"),
        (
            b"rel p(); rel p(SW, SW, SW, SW, SW, SW);",
            "Duplicate { at: 13 }",
        ),
        (
            b"rel r(HO); topology T: forall X:SW. r(X);",
            "NotAllowed { at: 36 }",
        ),
        (
            b"rel r(HO); topology T: forall X:SW. r(X, X);",
            "WrongArity { at: 36 }",
        ),
        (
            b"pktIn(s, a->b, i) { x.install(a->b, i->i); }",
            "Unknown { at: 20 }",
        ),
        (
            b"pktIn(s, a->b, i) { a.forward(a->b, i->i); }",
            "WrongSort { at: 20 }",
        ),
        (
            b"const c:HO; safety A: x = c and p();",
            "Unknown { at: 22 }",
        ),
        (
            b"pktIn(s, a->b, i) { x.uninstall(a->b, i->i); }",
            "Unknown { at: 20 }",
        ),
        (
            b"timeout 5; timeout 6; safety A: p();",
            "Duplicate { at: 11 }",
        ),
        (
            b"timeout 5; safety A: p(); timeout 6;",
            "Unknown { at: 21 }",
        ),
        // programs
        (b"rel p(); const p:SW; safety p: true;", "a program"),
        (
            b"safety A: (forall X:SW. true) and (exists X:HO. true);",
            "a program",
        ),
        (b"safety A: forall c:SW. true; const c:SW;", "a program"),
        (
            b"const c:SW; const d:SW; rel p(SW, PR) = {(c, prt(1)), (d, prt(65280)), (c, prt(1))};",
            "a program",
        ),
        (
            b"static p(SW); topology T: forall X:SW. p(X); safety A: forall X:SW. p(X);",
            "a program",
        ),
        (
            b"trans A: forall X:SW, Y:HO, P:PR. X.rcv_this(Y->Y, P) -> X.sent(Y->Y, P->P);",
            "a program",
        ),
        (
            b"rel p(SW); pktIn(s, a->b, i) { pick x:SW where p(x) { p.remove(x); } else { pick x:HO where x = a { skip; } } }",
            "a program",
        ),
        (
            b"pktIn(s, a->b, i) { s.install(b->a, prt(1)->i); s.forward(a->b, i->prt(2)); s.flood(a->b, i); }",
            "a program",
        ),
        (
            b"pktIn(s, a->b, prt(1)) { s.forward(a->b, prt(1)->prt(2)); s.flood(a->b, prt(1)); }",
            "a program",
        ),
        (
            b"static p(SW); pktIn(s, a->b, i) { if p(s) and s.ft(a->b, i->i) { skip; } } pktIn(s, a->b, i) { skip; }",
            "a program",
        ),
        (
            b"timeout 1; pktIn(s, a->b, i) { s.uninstall(b->a, prt(1)->i); }",
            "a program",
        ),
        (b"rel p(); timeout 65280;", "a program"),
        (b"rel p(SW, HO, PR, SW, SW);", "a program"),
    ];

    #[test]
    fn names_the_first_rule_that_is_broken(rt: HostRuntime) -> Result<(), Fail> {
        tells(&rt, rt.alloc(), ANSWERS)?;
        Ok(())
    }

    /// `front`, the numbers from 100 on between `left` and `right`, so many, and `back`.
    struct Limit {
        front: &'static [u8],
        left: &'static [u8],
        right: &'static [u8],
        back: &'static [u8],
        /// The greatest number of them that is a program.
        most: u8,
        /// Where the first that is one too many stands.
        at: usize,
    }

    const IN_HANDLER: &[u8] = b"pktIn(s, a->b, i) { if ";

    const AT_PORT: &[u8] = b"pktIn(s, a->b, prt(1)) { if ";

    const IF_TRUE: &[u8] = b"true { skip; } }";

    const LIMITS: &[Limit] = &[
        // relations, constants, invariants and handlers
        Limit {
            front: b"",
            left: b"rel p",
            right: b"();",
            back: b"",
            most: 64,
            at: 64 * 11 + 4,
        },
        Limit {
            front: b"",
            left: b"const c",
            right: b":SW;",
            back: b"",
            most: 64,
            at: 64 * 14 + 6,
        },
        Limit {
            front: b"",
            left: b"safety A",
            right: b": true;",
            back: b"",
            most: 64,
            at: 64 * 18 + 7,
        },
        Limit {
            front: b"",
            left: b"pktIn(s, a->b, i",
            right: b") { skip; }",
            back: b"",
            most: 32,
            at: 32 * 30,
        },
        // variables in scope
        Limit {
            front: b"safety A: ",
            left: b"forall X",
            right: b":SW. ",
            back: b"true;",
            most: 24,
            at: 10 + 24 * 16 + 7,
        },
        Limit {
            front: IN_HANDLER,
            left: b"forall X",
            right: b":SW. ",
            back: IF_TRUE,
            most: 20,
            at: 23 + 20 * 16 + 7,
        },
        Limit {
            front: AT_PORT,
            left: b"forall X",
            right: b":SW. ",
            back: IF_TRUE,
            most: 20,
            at: 28 + 20 * 16 + 7,
        },
    ];

    /// The text with so many numbers.
    fn numbered(alloc: Global, limit: &Limit, count: u16) -> Result<Vec<u8>, AllocError> {
        let mut text = limit.front.to_vec(alloc)?;
        for i in 0..count {
            text.extend_from_slice(limit.left)?;
            let digits = format!(in alloc; "{}", 100 + u32::from(i))?;
            text.extend_from_slice(digits.as_bytes())?;
            text.extend_from_slice(limit.right)?;
        }
        text.extend_from_slice(limit.back)?;
        Ok(text)
    }

    /// So many are a program, and one more is one too many.
    fn counts(rt: &impl Abort, alloc: Global, limits: &[Limit]) -> Result<(), AllocError> {
        for limit in limits {
            let most = u16::from(limit.most);
            let within = told(alloc, &numbered(alloc, limit, most)?)?;
            assert!(rt; within.as_str() == "a program", "{most} are {within}");
            let beyond = told(alloc, &numbered(alloc, limit, most + 1)?)?;
            let wanted = format!(in alloc; "TooMany {{ at: {} }}", limit.at)?;
            assert!(rt; beyond == wanted, "one more than {most} are {beyond}");
        }
        Ok(())
    }

    #[test]
    fn counts_what_is_declared_and_bound(rt: HostRuntime) -> Result<(), Fail> {
        counts(&rt, rt.alloc(), LIMITS)?;
        Ok(())
    }

    /// `rel p() = {()`, so many more rows, and `};`.
    fn rows(alloc: Global, more: usize) -> Result<Vec<u8>, AllocError> {
        let mut text = Vec::from_slice(alloc, b"rel p() = {()")?;
        for _ in 0..more {
            text.extend_from_slice(b",()")?;
        }
        text.extend_from_slice(b"};")?;
        Ok(text)
    }

    #[test]
    fn counts_rows_and_copies_a_program(rt: HostRuntime) -> Result<(), Fail> {
        let alloc = rt.alloc();
        let within = told(alloc, &rows(alloc, 1023)?)?;
        assert!(rt; within.as_str() == "a program");
        let beyond = told(alloc, &rows(alloc, 1024)?)?;
        assert!(rt; beyond.as_str() == "TooMany { at: 3083 }");
        let text = b"safety A: prt(9) = prt(2); timeout 30; pktIn(s, a->b, prt(5)) { skip; }";
        assert!(rt; is_copied(alloc, text)?);
        Ok(())
    }

    /// Whether a text is a program of which a copy has the numerals 2, 5 and 9, a handler, and a timeout of 30 seconds.
    fn is_copied(alloc: Global, text: &[u8]) -> Result<bool, AllocError> {
        match read_program(alloc, text) {
            Ok(program) => {
                let copied = program.copy(alloc)?;
                let parts = copied.parts();
                Ok(
                    copied.numerals() == [2, 5, 9].as_slice()
                        && parts.handlers.len() == 1
                        && parts.timeout == Some(30),
                )
            }
            Err(_) => Ok(false),
        }
    }
}
