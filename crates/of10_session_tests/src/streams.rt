//! Whole streams, and all bytes that are said to them.

use crate::hex::{put_texts, said, said_bytewise};
use crate::{Change, Sending, Step};
use of10_speech::{SpeechStop, Spoken, SpokenEnd};
use std::alloc::Global;
use std::process::Abort;
use std::test::Fail;

type Texts = &'static [&'static [u8]];

/// A stream, the steps that answer its asks, whether rules end, what is said, and how the session stands then.
type Row = (Texts, &'static [Step], bool, Texts, Spoken);

/// A switch's HELLO, in hexadecimal digits.
pub const HELLO: &[u8] = b"01000008 00000000";

/// A FEATURES_REPLY of switch 1, in hexadecimal digits.
pub const FEATURES: &[u8] =
    b"01060020 00000002 0000000000000001 00000100 01000000 00000000 00000fff";

/// From host 1 to host 2, on port 1, with buffer 5.
const PACKET: &[u8] = b"010a0020 00000000 00000005 000e 0001 0000 000000000002 000000000001 0800";

/// The same rule ended after a time without packets.
const REMOVED: &[u8] =
    b"010b0058 00000000 003ffff2 0001 000000000001 000000000002 00000000000000000000000000000000000000000000 0000000000000002 8000 00 00 00000000 00000000 001e 0000 00000000000000000000000000000000";

/// .. after a time at all.
const REMOVED_HARD: &[u8] =
    b"010b0058 00000000 003ffff2 0001 000000000001 000000000002 00000000000000000000000000000000000000000000 0000000000000002 8000 01 00 00000000 00000000 001e 0000 00000000000000000000000000000000";

/// .. and was for any port, any source or any destination.
const REMOVED_ANY_PORT: &[u8] =
    b"010b0058 00000000 003ffff3 0001 000000000001 000000000002 00000000000000000000000000000000000000000000 0000000000000002 8000 00 00 00000000 00000000 001e 0000 00000000000000000000000000000000";

const REMOVED_ANY_SOURCE: &[u8] =
    b"010b0058 00000000 003ffff6 0001 000000000001 000000000002 00000000000000000000000000000000000000000000 0000000000000002 8000 00 00 00000000 00000000 001e 0000 00000000000000000000000000000000";

const REMOVED_ANY_DESTINATION: &[u8] =
    b"010b0058 00000000 003ffffa 0001 000000000001 000000000002 00000000000000000000000000000000000000000000 0000000000000002 8000 00 00 00000000 00000000 001e 0000 00000000000000000000000000000000";

/// .. written with other bits.
const REMOVED_BITS: &[u8] =
    b"010b0058 00000000 ffc00000 0001 000000000001 000000000002 00000000000000000000000000000000000000000000 0000000000000002 8000 00 00 00000000 00000000 001e 0000 00000000000000000000000000000000";

const SAID_HELLO: &[u8] = b"01000008 00000001";

const SAID_REQUEST: &[u8] = b"01050008 00000002";

const SAID_CONFIG: &[u8] = b"0109000c 00000003 0000 ffff";

const SAID_DELETE: &[u8] =
    b"010e0048 00000004 003fffff 000000000000000000000000000000000000000000000000000000000000000000000000 0000000000000000 0003 0000 0000 0000 ffffffff ffff 0000";

const SAID_RULE: &[u8] =
    b"010e0050 00000005 003ffff2 0001 000000000001 000000000002 00000000000000000000000000000000000000000000 0000000000000000 0000 0000 0000 8000 ffffffff ffff 0000 0000 0008 0002 0000";

const SAID_PACKET: &[u8] = b"010d0018 00000006 00000005 0001 0008 0000 0008 0002 0000";

/// .. whose rule has the cookie 2 and ends after 30 seconds.
const SAID_IDLE_RULE: &[u8] =
    b"010e0050 00000005 003ffff2 0001 000000000001 000000000002 00000000000000000000000000000000000000000000 0000000000000002 0000 001e 0000 8000 ffffffff ffff 0001 0000 0008 0002 0000";

/// Nothing is changed or sent, as in the answer to a join without rules.
pub const JOINED: Step = Step {
    change: Change::Same,
    sending: Sending::Nowhere,
};

const INSTALLED: Step = Step {
    change: Change::Has {
        a: 1,
        b: 2,
        i: 1,
        port: 2,
        cookie: 0,
        idle: 0,
    },
    sending: Sending::To(2),
};

/// The same, by the second entry of a history whose rules end.
const INSTALLED_BY_2: Step = Step {
    change: Change::Has {
        a: 1,
        b: 2,
        i: 1,
        port: 2,
        cookie: 2,
        idle: 30,
    },
    sending: Sending::To(2),
};

const INSTALLED_BY_4: Step = Step {
    change: Change::Has {
        a: 1,
        b: 2,
        i: 1,
        port: 2,
        cookie: 4,
        idle: 30,
    },
    sending: Sending::To(2),
};

const INSTALLED_ALONE: Step = Step {
    change: Change::Has {
        a: 1,
        b: 2,
        i: 1,
        port: 2,
        cookie: 0,
        idle: 0,
    },
    sending: Sending::Nowhere,
};

const UNINSTALLED: Step = Step {
    change: Change::Gone {
        a: 1,
        b: 2,
        i: 1,
        cookie: 0,
    },
    sending: Sending::Nowhere,
};

/// The way back to host 1, which is on the port of the packet itself.
const INSTALLED_BACK: Step = Step {
    change: Change::Has {
        a: 2,
        b: 1,
        i: 1,
        port: 1,
        cookie: 0,
        idle: 0,
    },
    sending: Sending::To(1),
};

const SENT: Step = Step {
    change: Change::Same,
    sending: Sending::To(2),
};

const FLOODED: Step = Step {
    change: Change::Same,
    sending: Sending::Everywhere,
};

const GOES: Spoken = Spoken {
    stop: SpeechStop::Goes,
    ignored: 0,
};

const ONE_IGNORED: Spoken = Spoken {
    stop: SpeechStop::Goes,
    ignored: 1,
};

const TWO_IGNORED: Spoken = Spoken {
    stop: SpeechStop::Goes,
    ignored: 2,
};

const INCOMPATIBLE: Spoken = Spoken {
    stop: SpeechStop::Ends(SpokenEnd::Incompatible),
    ignored: 0,
};

const UNKNOWN: Spoken = Spoken {
    stop: SpeechStop::Ends(SpokenEnd::UnknownSwitch { s: 9 }),
    ignored: 0,
};

const WAITS: Spoken = Spoken {
    stop: SpeechStop::Waits,
    ignored: 0,
};

const WELCOME: &[Row] = &[
    // no byte
    (&[], &[], false, &[SAID_HELLO], GOES),
    // a later version greets
    (
        &[b"04000008 00000007"],
        &[],
        false,
        &[SAID_HELLO, SAID_REQUEST],
        GOES,
    ),
    // version 0
    (
        &[b"00000008 00000000"],
        &[],
        false,
        &[SAID_HELLO, b"0101000c 00000002 0000 0000"],
        INCOMPATIBLE,
    ),
    // the join waits for its entry
    (
        &[HELLO, FEATURES],
        &[],
        false,
        &[SAID_HELLO, SAID_REQUEST],
        WAITS,
    ),
    // switch 9
    (
        &[
            HELLO,
            b"01060020 00000002 0000000000000009 00000100 01000000 00000000 00000fff",
            HELLO,
        ],
        &[],
        false,
        &[SAID_HELLO, SAID_REQUEST],
        UNKNOWN,
    ),
    // a join with a rule
    (
        &[HELLO, FEATURES],
        &[INSTALLED_ALONE],
        false,
        &[
            SAID_HELLO,
            SAID_REQUEST,
            SAID_CONFIG,
            SAID_DELETE,
            SAID_RULE,
        ],
        GOES,
    ),
];

const PACKETS: &[Row] = &[
    // a packet that installs, and the same packet again
    (
        &[HELLO, FEATURES, PACKET, PACKET],
        &[JOINED, INSTALLED, SENT],
        false,
        &[
            SAID_HELLO,
            SAID_REQUEST,
            SAID_CONFIG,
            SAID_DELETE,
            SAID_RULE,
            SAID_PACKET,
            b"010d0018 00000007 00000005 0001 0008 0000 0008 0002 0000",
        ],
        GOES,
    ),
    // 11 bytes of a packet, a packet of host 9, and one that is dropped: its buffer is let go
    (
        &[
            HELLO,
            FEATURES,
            b"010a001d 00000000 00000005 000b 0001 0000 000000000002 0000000000",
            b"010a0020 00000000 00000005 000e 0001 0000 000000000002 000000000009 0800",
            b"010a0020 00000000 00000007 000e 0002 0000 000000000002 000000000001 0800",
        ],
        &[JOINED, JOINED],
        false,
        &[
            SAID_HELLO,
            SAID_REQUEST,
            SAID_CONFIG,
            SAID_DELETE,
            b"010d0010 00000005 00000007 0002 0000",
        ],
        TWO_IGNORED,
    ),
    // a packet that is flooded, and one that goes back out of its own port
    (
        &[
            HELLO,
            FEATURES,
            PACKET,
            b"010a0020 00000000 00000005 000e 0001 0000 000000000001 000000000002 0800",
        ],
        &[JOINED, FLOODED, INSTALLED_BACK],
        false,
        &[
            SAID_HELLO,
            SAID_REQUEST,
            SAID_CONFIG,
            SAID_DELETE,
            b"010d0018 00000005 00000005 0001 0008 0000 0008 fffc 0000",
            b"010e0050 00000006 003ffff2 0001 000000000002 000000000001 00000000000000000000000000000000000000000000 0000000000000000 0000 0000 0000 8000 ffffffff ffff 0000 0000 0008 fff8 0000",
            b"010d0018 00000007 00000005 0001 0008 0000 0008 fff8 0000",
        ],
        GOES,
    ),
    // packets without a buffer: one goes on with its bytes, one is dropped without a word
    (
        &[
            HELLO,
            FEATURES,
            b"010a0020 00000000 ffffffff 000e 0001 0000 000000000002 000000000001 0800",
            b"010a0020 00000000 ffffffff 000e 0001 0000 000000000002 000000000001 0800",
        ],
        &[JOINED, SENT, JOINED],
        false,
        &[
            SAID_HELLO,
            SAID_REQUEST,
            SAID_CONFIG,
            SAID_DELETE,
            b"010d0026 00000005 ffffffff 0001 0008 0000 0008 0002 0000 000000000002 000000000001 0800",
        ],
        GOES,
    ),
];

const ENDING_RULES: &[Row] = &[
    // a rule that ends, its end, and the packet again
    (
        &[HELLO, FEATURES, PACKET, REMOVED, PACKET],
        &[JOINED, INSTALLED_BY_2, JOINED, INSTALLED_BY_4],
        true,
        &[
            SAID_HELLO,
            SAID_REQUEST,
            SAID_CONFIG,
            SAID_DELETE,
            SAID_IDLE_RULE,
            SAID_PACKET,
            b"010e0050 00000007 003ffff2 0001 000000000001 000000000002 00000000000000000000000000000000000000000000 0000000000000004 0000 001e 0000 8000 ffffffff ffff 0001 0000 0008 0002 0000",
            b"010d0018 00000008 00000005 0001 0008 0000 0008 0002 0000",
        ],
        GOES,
    ),
    // where no rule ends the end of one is ignored
    (
        &[HELLO, FEATURES, PACKET, REMOVED, PACKET],
        &[JOINED, INSTALLED, SENT],
        false,
        &[
            SAID_HELLO,
            SAID_REQUEST,
            SAID_CONFIG,
            SAID_DELETE,
            SAID_RULE,
            SAID_PACKET,
            b"010d0018 00000007 00000005 0001 0008 0000 0008 0002 0000",
        ],
        ONE_IGNORED,
    ),
    // ends that ask nothing
    (
        &[HELLO, FEATURES, REMOVED_HARD, REMOVED_ANY_PORT],
        &[JOINED],
        true,
        &[SAID_HELLO, SAID_REQUEST, SAID_CONFIG, SAID_DELETE],
        TWO_IGNORED,
    ),
    (
        &[HELLO, FEATURES, REMOVED_ANY_SOURCE, REMOVED_ANY_DESTINATION],
        &[JOINED],
        true,
        &[SAID_HELLO, SAID_REQUEST, SAID_CONFIG, SAID_DELETE],
        TWO_IGNORED,
    ),
    // other bits of the wildcards say nothing
    (
        &[HELLO, FEATURES, REMOVED_BITS],
        &[JOINED],
        true,
        &[SAID_HELLO, SAID_REQUEST, SAID_CONFIG, SAID_DELETE],
        WAITS,
    ),
    // a rule is installed, and deleted
    (
        &[HELLO, FEATURES, PACKET, PACKET],
        &[JOINED, INSTALLED_ALONE, UNINSTALLED],
        false,
        &[
            SAID_HELLO,
            SAID_REQUEST,
            SAID_CONFIG,
            SAID_DELETE,
            SAID_RULE,
            b"010d0010 00000006 00000005 0001 0000",
            b"010e0048 00000007 003ffff2 0001 000000000001 000000000002 00000000000000000000000000000000000000000000 0000000000000000 0004 0000 0000 8000 ffffffff ffff 0000",
            b"010d0010 00000008 00000005 0001 0000",
        ],
        GOES,
    ),
];

/// The stream is answered so, whole and byte by byte.
fn is_said(rt: &impl Abort, alloc: Global, row: &Row) -> Result<(), Fail> {
    let (stream, steps, expires, wanted, spoken) = row;
    let mut bytes = Vec::new(alloc);
    put_texts(&mut bytes, stream)?;
    let mut wanted_bytes = Vec::new(alloc);
    put_texts(&mut wanted_bytes, wanted)?;
    let mut out = Vec::new(alloc);
    let found = said(alloc, &bytes, steps, *expires, &mut out)?;
    assert_eq!(rt; found, *spoken, "{bytes:?}");
    assert_eq!(rt; out.as_slice(), wanted_bytes.as_slice());
    let mut again = Vec::new(alloc);
    let found = said_bytewise(alloc, &bytes, steps, *expires, &mut again)?;
    assert_eq!(rt; found, *spoken, "{bytes:?}");
    assert_eq!(rt; again.as_slice(), wanted_bytes.as_slice());
    Ok(())
}

fn are_said(rt: &impl Abort, alloc: Global, rows: &[Row]) -> Result<(), Fail> {
    for row in rows {
        is_said(rt, alloc, row)?;
    }
    Ok(())
}

#[test]
fn a_switch_is_welcomed(rt: HostRuntime) -> Result<(), Fail> {
    are_said(&rt, rt.alloc(), WELCOME)
}

#[test]
fn packets_are_answered(rt: HostRuntime) -> Result<(), Fail> {
    are_said(&rt, rt.alloc(), PACKETS)
}

#[test]
fn rules_end(rt: HostRuntime) -> Result<(), Fail> {
    are_said(&rt, rt.alloc(), ENDING_RULES)
}
