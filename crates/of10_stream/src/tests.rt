//! Streams worked by hand from the layouts of OpenFlow Switch Specification 1.0.0.

use super::*;
use of10_msgs::Message;
use of10_wire::{WireRefusal, WireWhy};
use std::alloc::AllocError;
use std::test::Fail;

#[test]
fn a_message_comes_first_and_its_length_is_told(rt: HostRuntime) -> Result<(), Fail> {
    let bytes = [1, 2, 0, 12, 0, 0, 0, 9, 97, 98, 99, 100, 1, 0, 0, 8, 0];
    assert!(rt;
        matches!(
            read_front(rt.alloc(), &bytes)?,
            Front::Message(Message::EchoRequest { xid: 9, .. }, 12)
        )
    );
    Ok(())
}

#[test]
fn each_tail_is_told_with_its_place(rt: HostRuntime) -> Result<(), Fail> {
    let cases: [(&[u8], Tail); 6] = [
        (&[], Tail::Cut(0)),
        (&[1, 0, 0, 7], Tail::Cut(4)),
        (&[1, 2, 0, 12, 0, 0, 0, 9, 97], Tail::Cut(9)),
        (
            &[1, 0, 0, 7, 0, 0, 0, 1],
            Tail::Broken(WireRefusal {
                at: 2,
                why: WireWhy::BadLength,
            }),
        ),
        (
            &[1, 22, 0, 8, 0, 0, 0, 2],
            Tail::Broken(WireRefusal {
                at: 1,
                why: WireWhy::BadType,
            }),
        ),
        (
            &[2, 22, 0, 8, 0, 0, 0, 2],
            Tail::Broken(WireRefusal {
                at: 0,
                why: WireWhy::BadVersion,
            }),
        ),
    ];
    for (bytes, tail) in cases {
        let front = read_front(rt.alloc(), bytes)?;
        assert!(rt;
            matches!(front, Front::Tail(found) if found == tail),
            "{bytes:?}"
        );
    }
    Ok(())
}

#[test]
fn a_frame_comes_in_pieces(rt: HostRuntime) -> Result<(), Fail> {
    let mut framer = Framer::try_new(rt.alloc())?;
    let Ok(fed) = framer.feed(&[1, 2, 0, 12, 0]) else {
        return Err(Fail::from(AllocError));
    };
    assert_eq!(rt; fed.used, 5);
    assert!(rt; !fed.ready);
    let Ok(fed) = framer.feed(&[0, 0, 9, 97, 98, 99, 100, 1, 0]) else {
        return Err(Fail::from(AllocError));
    };
    assert_eq!(rt; fed.used, 7);
    assert!(rt; fed.ready);
    assert_eq!(rt; framer.start(), 0);
    assert_eq!(rt;
        framer.frame(),
        [1, 2, 0, 12, 0, 0, 0, 9, 97, 98, 99, 100].as_slice()
    );
    framer.next();
    let read = framer.feed(&[1, 22, 0, 8, 0, 0, 0, 2, 5]);
    let refusal = FrameRefusal {
        at: 13,
        why: WireWhy::BadType,
    };
    assert!(rt; matches!(read, Err(found) if found == refusal));
    Ok(())
}
