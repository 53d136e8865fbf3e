//! Calls of `run`, each with what it prints and its status, worked by hand.
use crate::scenes::{Net, Program};

/// The words, what the files `P` and `N` hold, where they are there, what is printed, and the status. Nobody is served.
pub type Unserved = (
    &'static [&'static str],
    Option<Program>,
    Option<Net>,
    &'static [u8],
    u8,
);

pub const WORDS: &[Unserved] = &[
    (&[], None, None, b"usage\n", 6),
    (&["run"], None, None, b"usage\n", 6),
    (&["run", "P"], None, None, b"usage\n", 6),
    (&["run", "P", "N", "N"], None, None, b"usage\n", 6),
    (&["run", "--port", "0", "P", "N"], None, None, b"usage\n", 6),
    (&["run", "--log", "L", "P", "N"], None, None, b"usage\n", 6),
    (
        &["check", "P"],
        Some(Program::Learning),
        None,
        b"usage\n",
        6,
    ),
    (
        &["Run", "P", "N"],
        Some(Program::Learning),
        Some(Net::Two),
        b"usage\n",
        6,
    ),
];

pub const FILES: &[Unserved] = &[
    (&["run", "P", "N"], None, None, b"missing P\n", 5),
    (
        &["run", "P", "N"],
        Some(Program::Learning),
        None,
        b"missing N\n",
        5,
    ),
    (
        &["run", "P", "N"],
        Some(Program::Odd),
        None,
        b"P refused at 0: Unexpected\n",
        3,
    ),
    (
        &["run", "P", "N"],
        Some(Program::Unmet),
        None,
        b"no network\n",
        4,
    ),
    (
        &["run", "P", "N"],
        Some(Program::Linked),
        None,
        b"unknown level 0 condition 0 network: outside\n",
        2,
    ),
    (
        &["run", "P", "N"],
        Some(Program::Learning),
        Some(Net::WithState),
        b"N refused: state\n",
        3,
    ),
    (
        &["run", "P", "N"],
        Some(Program::Learning),
        Some(Net::WithFarHost),
        b"N refused: not servable\n",
        3,
    ),
    (
        &["run", "--strengthen", "1", "P", "N"],
        Some(Program::Firewall),
        Some(Net::OnePort),
        b"N refused line 4: NoPort\n",
        3,
    ),
    (
        &["run", "P", "N"],
        Some(Program::OneHost),
        Some(Net::Two),
        b"N breaks one\n",
        3,
    ),
];

/// The words, the program, how many links come and how many packets the switch of each sends, and what is printed, with status 0.
pub type Served = (
    &'static [&'static str],
    Program,
    usize,
    usize,
    &'static [u8],
);

pub const SERVED: &[Served] = &[
    (
        &["run", "--workers", "1", "--sessions", "1", "P", "N"],
        Program::Learning,
        1,
        1,
        b"yes level 0\nsession 1 closed ignored 0\nvericon-journal 1\njoin 0 1 1\npacket 0 1 1 1 2 1\nend\n",
    ),
    (
        &["run", "--workers", "1", "--sessions", "1", "P", "N"],
        Program::Learning,
        2,
        0,
        b"yes level 0\nsession 1 closed ignored 0\nvericon-journal 1\njoin 0 1 1\nend\n",
    ),
    (
        &["run", "--workers", "1", "P", "N"],
        Program::Learning,
        0,
        0,
        b"yes level 0\nvericon-journal 1\nend\n",
    ),
    (
        &["run", "--workers", "1", "--history", "1", "P", "N"],
        Program::Learning,
        1,
        1,
        b"yes level 0\nsession 1 history full ignored 0\nvericon-journal 1\njoin 0 1 1\nend\n",
    ),
    (
        &[
            "run",
            "--strengthen",
            "1",
            "--workers",
            "1",
            "--sessions",
            "2",
            "P",
            "N",
        ],
        Program::Firewall,
        2,
        3,
        b"yes level 1\nsession 1 closed ignored 0\nsession 2 closed ignored 0\nvericon-journal 1\njoin 0 1 1\npacket 0 1 1 1 2 1\npacket 0 1 1 1 2 1\npacket 0 1 1 1 2 1\njoin 0 2 1\npacket 0 2 1 1 2 1\npacket 0 2 1 1 2 1\npacket 0 2 1 1 2 1\nend\n",
    ),
];

/// The number of the `accept` that fails, of three links whose switches send a packet each; and what is printed, with its status. The sessions
/// that came before are whole.
pub type Accepts = (u64, &'static [u8], u8);

pub const ACCEPTS: &[Accepts] = &[
    (0, b"yes level 0\nvericon-journal 1\nend\nlisten fault\n", 9),
    (
        1,
        b"yes level 0\nsession 1 closed ignored 0\nvericon-journal 1\njoin 0 1 1\npacket 0 1 1 1 2 1\nend\nlisten fault\n",
        9,
    ),
    (
        2,
        b"yes level 0\nsession 1 closed ignored 0\nsession 2 closed ignored 0\nvericon-journal 1\njoin 0 1 1\npacket 0 1 1 1 2 1\njoin 0 2 1\npacket 0 2 1 1 2 1\nend\nlisten fault\n",
        9,
    ),
    (
        3,
        b"yes level 0\nsession 1 closed ignored 0\nsession 2 closed ignored 0\nsession 3 closed ignored 0\nvericon-journal 1\njoin 0 1 1\npacket 0 1 1 1 2 1\njoin 0 2 1\npacket 0 2 1 1 2 1\njoin 0 3 1\npacket 0 3 1 1 2 1\nend\nlisten fault\n",
        9,
    ),
    (
        4,
        b"yes level 0\nsession 1 closed ignored 0\nsession 2 closed ignored 0\nsession 3 closed ignored 0\nvericon-journal 1\njoin 0 1 1\npacket 0 1 1 1 2 1\njoin 0 2 1\npacket 0 2 1 1 2 1\njoin 0 3 1\npacket 0 3 1 1 2 1\nend\n",
        0,
    ),
];
