//! Listings worked by hand.

use super::*;
use std::test::Fail;

#[test]
fn each_frame_and_what_is_left_has_its_line(rt: HostRuntime) -> Result<(), Fail> {
    let cases: [(&[u8], &[u8], bool); 9] = [
        (&[], b"", true),
        (&[1, 0, 0, 8, 0, 0, 0, 1], b"0 HELLO length 8 xid 1\n", true),
        (
            &[
                1, 2, 0, 12, 0, 0, 0, 9, 97, 98, 99, 100, 1, 22, 0, 8, 0, 0, 0, 2,
            ],
            b"0 ECHO_REQUEST length 12 xid 9\n13 refused BadType\n",
            false,
        ),
        (&[1, 0, 0, 7], b"0 cut 4\n", false),
        (&[1, 0, 0, 7, 0, 0, 0, 1], b"2 refused BadLength\n", false),
        (&[3, 3, 0, 8, 0, 0, 0, 1], b"0 refused BadVersion\n", false),
        (
            &[1, 5, 0, 8, 0, 0, 0, 1, 1, 20, 0, 12, 0, 0, 0, 2, 0, 3, 9, 9],
            b"0 FEATURES_REQUEST length 8 xid 1\n8 QUEUE_GET_CONFIG_REQUEST length 12 xid 2\n",
            true,
        ),
        (
            &[
                1, 13, 0, 28, 0, 0, 0, 1, 255, 255, 255, 255, 255, 255, 0, 12, 0, 0, 0, 12, 0, 1,
                0, 0, 0, 0, 0, 0,
            ],
            b"16 refused BadAction\n",
            false,
        ),
        (
            &[4, 0, 0, 8, 255, 255, 255, 255, 1, 3, 0, 9, 0, 0, 0, 0],
            b"0 HELLO length 8 xid 4294967295\n8 cut 8\n",
            false,
        ),
    ];
    for (bytes, text, is_whole) in cases {
        let listed = list_frames(rt.alloc(), bytes)?;
        assert_eq!(rt; listed.text.as_slice(), text);
        assert_eq!(rt; listed.is_whole, is_whole);
    }
    Ok(())
}
