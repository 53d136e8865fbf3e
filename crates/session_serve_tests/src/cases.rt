//! Sessions as tables: what a switch sends, which calls fail, and what is written.

use of10_wire::WireWhy;
use session_serve::SessionEnd;
use std::alloc::{AllocError, Global};

/// Bytes as texts of two digits each; blanks mean nothing.
pub type Texts = &'static [&'static [u8]];

/// A session: its number, what its switch sends, how many bytes a read gives and a write takes, which of them fail, how many bytes it
/// may take; and what is written, how it ends, and how many messages were ignored.
#[derive(Clone, Copy, Debug)]
pub struct Case {
    pub number: u32,
    pub sent: Texts,
    pub most_read: usize,
    pub most_written: usize,
    pub reads: &'static [u64],
    pub writes: &'static [u64],
    pub most: u64,
    pub written: Texts,
    pub end: SessionEnd,
    pub ignored: u64,
}

fn digit(code: u8) -> Option<u8> {
    match code {
        b'0'..=b'9' => Some(code - b'0'),
        b'a'..=b'f' => Some(code - b'a' + 10),
        _ => None,
    }
}

fn put_text(out: &mut Vec<u8>, text: &[u8]) -> Result<(), AllocError> {
    let mut high = None;
    for code in text {
        match (digit(*code), high) {
            (None, _) => {}
            (Some(low), None) => high = Some(low),
            (Some(low), Some(first)) => {
                out.push((first % 16) * 16 + low % 16)?;
                high = None;
            }
        }
    }
    Ok(())
}

/// The bytes of texts.
pub fn bytes_of(alloc: Global, texts: &[&[u8]]) -> Result<Vec<u8>, AllocError> {
    let mut out = Vec::new(alloc);
    for text in texts {
        put_text(&mut out, text)?;
    }
    Ok(out)
}

/// Of version 1.
pub const HELLO: &[u8] = b"01000008 00000000";

/// From switch 1.
pub const FEATURES: &[u8] =
    b"01060020 00000002 0000000000000001 00000100 01000000 00000000 00000fff";

/// From switch 9.
pub const FEATURES_OF_NINE: &[u8] =
    b"01060020 00000002 0000000000000009 00000100 01000000 00000000 00000fff";

/// From host 1 to host 2, on port 1, with buffer 5.
pub const PACKET: &[u8] =
    b"010a0020 00000000 00000005 000e 0001 0000 000000000002 000000000001 0800";

/// From host 9.
pub const PACKET_FROM_NINE: &[u8] =
    b"010a0020 00000000 00000005 000e 0001 0000 000000000002 000000000009 0800";

/// Of version 0.
pub const OLD_HELLO: &[u8] = b"00000008 00000000";

/// Of type 22.
pub const NO_MESSAGE: &[u8] = b"01160008 00000000";

/// A request of 65,535 bytes, of which 4 come behind the header.
pub const CUT_ECHO: &[u8] = b"0102ffff 00000007 01020304";

/// .. of which 10 come.
pub const LONG_CUT_ECHO: &[u8] = b"0102ffff 00000007 01020304050607080910";

/// The session's HELLO, with xid 1.
pub const GREETING: &[u8] = b"0100000800000001";

/// FEATURES_REQUEST, with xid 2.
pub const REQUEST: &[u8] = b"0105000800000002";

/// SET_CONFIG, with xid 3.
pub const CONFIG: &[u8] = b"0109000c000000030000ffff";

/// The FLOW_MOD that deletes everything, with xid 4.
pub const DELETE: &[u8] =
    b"010e004800000004003fffff00000000000000000000000000000000000000000000000000000000000000000000000000000000000000000003000000000000ffffffffffff0000";

/// Host 1 to host 2, from port 1 to port 2, with xid 5.
pub const RULE: &[u8] =
    b"010e005000000005003ffff200010000000000010000000000020000000000000000000000000000000000000000000000000000000000000000000000008000ffffffffffff00000000000800020000";

/// The packet with buffer 5 to port 2, with xid 6.
pub const PACKET_OUT: &[u8] = b"010d00180000000600000005000100080000000800020000";

/// The first version is refused, with xid 2.
pub const REFUSAL: &[u8] = b"0101000c0000000200000000";

pub const CLOSES: Case = Case {
    number: 1,
    sent: &[HELLO, FEATURES, PACKET],
    most_read: 65536,
    most_written: 65536,
    reads: &[],
    writes: &[],
    most: 1 << 39,
    written: &[GREETING, REQUEST, CONFIG, DELETE, RULE, PACKET_OUT],
    end: SessionEnd::Closed,
    ignored: 0,
};

/// A switch that joins, sends a packet and closes; and comes back, to the rule that was made.
pub const COMES_BACK: &[Case] = &[
    CLOSES,
    Case {
        number: 2,
        sent: &[HELLO, FEATURES],
        written: &[GREETING, REQUEST, CONFIG, DELETE, RULE],
        ..CLOSES
    },
];

/// Each end, in halls of their own.
pub const ENDS: &[Case] = &[
    CLOSES,
    // bytes one by one, both ways
    Case {
        most_read: 1,
        most_written: 1,
        ..CLOSES
    },
    // cut inside headers
    Case {
        most_read: 5,
        most_written: 7,
        ..CLOSES
    },
    Case {
        sent: &[HELLO, FEATURES_OF_NINE, HELLO],
        written: &[GREETING, REQUEST],
        end: SessionEnd::UnknownSwitch { s: 9 },
        ..CLOSES
    },
    Case {
        sent: &[OLD_HELLO, HELLO],
        written: &[GREETING, REFUSAL],
        end: SessionEnd::Incompatible,
        ..CLOSES
    },
    Case {
        sent: &[HELLO, PACKET_FROM_NINE],
        written: &[GREETING, REQUEST],
        ignored: 1,
        ..CLOSES
    },
    Case {
        sent: &[FEATURES],
        written: &[GREETING],
        end: SessionEnd::OutOfTurn { at: 0 },
        ..CLOSES
    },
    Case {
        sent: &[HELLO, NO_MESSAGE],
        written: &[GREETING, REQUEST],
        end: SessionEnd::Wire {
            at: 9,
            why: WireWhy::BadType,
        },
        ..CLOSES
    },
    // the third write fails
    Case {
        most_read: 8,
        writes: &[2],
        written: &[GREETING, REQUEST],
        end: SessionEnd::WriteFault,
        ..CLOSES
    },
    // .. the first
    Case {
        writes: &[0],
        written: &[],
        end: SessionEnd::WriteFault,
        ..CLOSES
    },
    // .. or the ninth, where each takes a byte
    Case {
        most_written: 1,
        writes: &[8],
        written: &[GREETING],
        end: SessionEnd::WriteFault,
        ..CLOSES
    },
    // the first read fails, or the second
    Case {
        reads: &[0],
        written: &[GREETING],
        end: SessionEnd::ReadFault,
        ..CLOSES
    },
    Case {
        most_read: 8,
        reads: &[1],
        written: &[GREETING, REQUEST],
        end: SessionEnd::ReadFault,
        ..CLOSES
    },
    // eight bytes may be taken
    Case {
        most: 8,
        written: &[GREETING, REQUEST],
        end: SessionEnd::StreamFull,
        ..CLOSES
    },
];

/// A frame that is cut, behind HELLO, and as the first.
pub const CUTS: &[Case] = &[
    Case {
        sent: &[HELLO, CUT_ECHO],
        written: &[GREETING, REQUEST],
        ..CLOSES
    },
    Case {
        sent: &[LONG_CUT_ECHO],
        written: &[GREETING],
        ..CLOSES
    },
];

/// In a hall whose history has room for one entry.
pub const FULL: Case = Case {
    written: &[GREETING, REQUEST, CONFIG, DELETE],
    end: SessionEnd::HistoryFull,
    ..CLOSES
};
