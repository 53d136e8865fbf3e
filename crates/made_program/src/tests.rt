//! The texts of one, two and sixty relations.
use crate::text_of;
use std::test::Fail;

#[test]
fn texts_are_as_worked_by_hand(rt: HostRuntime) -> Result<(), Fail> {
    let cases: [(u64, &[u8]); 2] = [
        (
            1,
            b"rel r1(HO);\npktIn(s, src->dst, i) {\n  r1.insert(src);\n}\n",
        ),
        (
            2,
            b"rel r1(HO);\nrel r2(HO);\nsafety s2: forall X:HO. r2(X) -> r1(X);\npktIn(s, src->dst, i) {\n  r1.insert(src);\n  r2.insert(src);\n}\n",
        ),
    ];
    for (count, wanted) in cases {
        let text = text_of(rt.alloc(), count)?;
        assert_eq!(rt; text.as_slice(), wanted);
    }
    Ok(())
}

#[test]
fn sixty_relations_take_4440_bytes(rt: HostRuntime) -> Result<(), Fail> {
    let text = text_of(rt.alloc(), 60)?;
    assert_eq!(rt; text.len(), 4440);
    Ok(())
}
