//! Whole outputs of `replay`, worked by hand from the documents of the commands and OpenFlow 1.0.
use super::*;

pub(crate) const N2: &[u8] = b"vericon-net 1\nsw 1\nho 1 2\npr 1 2\nend\n";

const WITH_STATE: &[u8] = b"vericon-net 1\nsw 1\nho 1 2\npr 1 2\nstate\nend\n";

/// A host that no address of OpenFlow names.
const FAR: &[u8] = b"vericon-net 1\nsw 1\nho 1 281474976710656\npr 1 2\nend\n";

/// A HELLO, the features of switch 1, and a packet of host 1 to host 2 on port 1.
pub(crate) const STREAM: &[u8] =
    b"\x01\x00\x00\x08\x00\x00\x00\x00\x01\x06\x00\x20\x00\x00\x00\x02\x00\x00\x00\x00\x00\x00\x00\x01\x00\x00\x01\x00\x01\x00\x00\x00\x00\x00\x00\x00\x00\x00\x0f\xff\x01\x0a\x00\x20\x00\x00\x00\x00\x00\x00\x00\x05\x00\x0e\x00\x01\x00\x00\x00\x00\x00\x00\x00\x02\x00\x00\x00\x00\x00\x01\x08\x00";

/// A HELLO, and the features of switch 1.
const JOINED: &[u8] =
    b"\x01\x00\x00\x08\x00\x00\x00\x00\x01\x06\x00\x20\x00\x00\x00\x02\x00\x00\x00\x00\x00\x00\x00\x01\x00\x00\x01\x00\x01\x00\x00\x00\x00\x00\x00\x00\x00\x00\x0f\xff";

pub(crate) const JOIN_AND_PACKET: &[u8] =
    b"vericon-journal 1\njoin 0 1 1\npacket 0 1 1 1 2 1\nend\n";

const REPLAYS: &[Call] = &[
    // a session, message by message
    (
        &["replay", "p", "n", "j", "1", "s"],
        &[FIREWALL, N2, JOIN_AND_PACKET, STREAM],
        b"out 0100000800000001\nout 0105000800000002\nout 0109000c000000030000ffff\nout 010e004800000004003fffff00000000000000000000000000000000000000000000000000000000000000000000000000000000000000000003000000000000ffffffffffff0000\nout 010e005000000005003ffff200010000000000010000000000020000000000000000000000000000000000000000000000000000000000000000000000008000ffffffffffff00000000000800020000\nout 010d00180000000600000005000100080000000800020000\nend closed ignored 0\n",
        0,
    ),
    // the packet has no entry
    (
        &["replay", "p", "n", "j", "1", "s"],
        &[
            FIREWALL,
            N2,
            b"vericon-journal 1\njoin 0 1 1\nend\n",
            STREAM,
        ],
        b"ask 2: differs\n",
        3,
    ),
    // a later session is told the rule that the earlier one installed
    (
        &["replay", "p", "n", "j", "2", "s"],
        &[
            FIREWALL,
            N2,
            b"vericon-journal 1\njoin 0 1 1\npacket 0 1 1 1 2 1\njoin 0 2 1\nend\n",
            JOINED,
        ],
        b"out 0100000800000001\nout 0105000800000002\nout 0109000c000000030000ffff\nout 010e004800000004003fffff00000000000000000000000000000000000000000000000000000000000000000000000000000000000000000003000000000000ffffffffffff0000\nout 010e005000000005003ffff200010000000000010000000000020000000000000000000000000000000000000000000000000000000000000000000000008000ffffffffffff00000000000800020000\nend closed ignored 0\n",
        0,
    ),
    // another version
    (
        &["replay", "p", "n", "j", "1", "s"],
        &[
            FIREWALL,
            N2,
            b"vericon-journal 1\nend\n",
            b"\x00\x00\x00\x08\x00\x00\x00\x00",
        ],
        b"out 0100000800000001\nout 0101000c0000000200000000\nend incompatible ignored 0\n",
        3,
    ),
    // no bytes
    (
        &["replay", "p", "n", "j", "1", "s"],
        &[FIREWALL, N2, b"vericon-journal 1\nend\n", b""],
        b"out 0100000800000001\nend closed ignored 0\n",
        0,
    ),
    // networks that are not served over
    (
        &["replay", "p", "n", "j", "1", "s"],
        &[FIREWALL, WITH_STATE, b"x", b""],
        b"n refused: state\n",
        3,
    ),
    (
        &["replay", "p", "n", "j", "1", "s"],
        &[ARMED, FAR, b"x", b""],
        b"n refused: not servable\n",
        3,
    ),
    // a note that is no entry, and then no stream is read
    (
        &["replay", "p", "n", "j", "1", "s"],
        &[
            FIREWALL,
            N2,
            b"vericon-journal 1\njoin 0 1 1\nflow 9 9 9 9 9\njoin 0 2 9\nend\n",
        ],
        b"entry 3: stranger\n",
        3,
    ),
    // words
    (&["replay", "p", "n", "j", "01", "s"], &[], b"usage\n", 6),
    (&["replay", "p", "n", "j", "1"], &[], b"usage\n", 6),
];

#[test]
fn replay_tells_what_was_sent_to_a_session(rt: HostRuntime) -> Result<(), Fail> {
    prints(&rt, rt.alloc(), REPLAYS)
}
