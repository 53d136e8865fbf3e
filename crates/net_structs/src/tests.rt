//! What needs no program. The rest is tested over texts of programs and networks, in the crates above.
use crate::cells::Cells;
use crate::env::Env;
use csdn_core::terms::VarId;
use std::test::Fail;

#[test]
fn the_last_pair_of_a_variable_counts(rt: HostRuntime) -> Result<(), Fail> {
    let mut env = Env::try_new(rt.alloc(), 2)?;
    env.push(VarId(7), 1);
    env.push(VarId(7), 2);
    assert_eq!(rt; env.get(VarId(7)), Some(2));
    env.pop();
    assert_eq!(rt; env.get(VarId(7)), Some(1));
    assert_eq!(rt; env.get(VarId(8)), None);
    Ok(())
}

#[test]
fn tuples_are_ordered_by_their_elements(rt: HostRuntime) {
    let cases: [(&[u64], &[u64], bool); 4] = [
        (&[1, 2], &[1, 3], true),
        (&[1, 2], &[1, 2], false),
        (&[1], &[1, 0], true),
        (&[10], &[9, 9], false),
    ];
    for (a, b, is_less) in cases {
        if a.len() <= 5 && b.len() <= 5 {
            assert_eq!(rt; Cells::of(a) < Cells::of(b), is_less);
        }
    }
}
