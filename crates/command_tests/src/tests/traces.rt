//! Whole outputs of `trace`, worked by hand from the documents of the commands.
use super::*;

const LEARNING: &[u8] = b"rel conn(SW, PR, HO);
trans no_black_hole: forall S:SW, A:HO, B:HO, I:PR. S.rcv_this(A->B, I) -> (exists O:PR. S.sent(A->B, I->O));
pktIn(s, src->dst, i) {
  conn.insert(s, i, src);
  pick o:PR where conn(s, o, dst) {
    s.install(src->dst, i->o);
    s.forward(src->dst, i->o);
  } else {
    s.flood(src->dst, i);
  }
}
";

const BOTH_FALSE: &[u8] = b"safety A: true; safety B: false; trans T: false;";

const ONE_FALSE: &[u8] = b"safety A: true; trans T: true; trans U: false;";

const TWO_PORTS: &[u8] = b"vericon-net 1\nsw 1\nho 1 2\npr 1 2\nend\n";

const ONE_PORT: &[u8] = b"vericon-net 1\nsw 1\nho 1 2\npr 1\nend\n";

/// A rule from port 2 to port 1, and no host that is trusted.
const A_RULE: &[u8] =
    b"vericon-net 1\nsw 1\nho 1 2\npr 1 2\nstate\nft 1 2 1 2 1\npacket 1 1 2 1\nend\n";

const EVENTS: &[Call] = &[
    // no notes: the initial state, or the one that was read, without its packet
    (
        &["trace", "p", "n", "j"],
        &[FIREWALL, TWO_PORTS, b"vericon-journal 1\nend\n"],
        b"vericon-net 1\nsw 1\nho 1 2\npr 1 2\nstate\nend\n",
        0,
    ),
    (
        &["trace", "p", "n", "j"],
        &[FIREWALL, A_RULE, b"vericon-journal 1\nend\n"],
        b"vericon-net 1\nsw 1\nho 1 2\npr 1 2\nstate\nft 1 2 1 2 1\nend\n",
        0,
    ),
    (
        &["trace", "p", "n", "j"],
        &[
            b"rel r(PR) = {(prt(2)), (prt(1))};",
            TWO_PORTS,
            b"vericon-journal 1\nend\n",
        ],
        b"vericon-net 1\nsw 1\nho 1 2\npr 1 2\nstate\nt r 1\nt r 2\nend\n",
        0,
    ),
    // a packet from inside, and the rule that it installed
    (
        &["trace", "p", "n", "j"],
        &[
            FIREWALL,
            TWO_PORTS,
            b"vericon-journal 1\npacket 0 1 1 1 2 1\nflow 1 1 2 1 2\nend\n",
        ],
        b"1 ok\n2 ok\nvericon-net 1\nsw 1\nho 1 2\npr 1 2\nstate\nt tr 1 2\nft 1 1 2 1 2\nsent 1 1 2 1 2\nend\n",
        0,
    ),
    // a packet from outside is dropped, until its host is trusted
    (
        &["trace", "p", "n", "j"],
        &[
            FIREWALL,
            TWO_PORTS,
            b"vericon-journal 1\njoin 0 1 1\npacket 0 1 1 2 1 2\npacket 0 1 1 1 2 1\npacket 0 1 1 2 1 2\nend\n",
        ],
        b"1 ok\n2 ok\n3 ok\n4 ok\nvericon-net 1\nsw 1\nho 1 2\npr 1 2\nstate\nt tr 1 2\nft 1 1 2 1 2\nft 1 2 1 2 1\nsent 1 1 2 1 2\nsent 1 2 1 2 1\nend\n",
        0,
    ),
    // a flood, and then the port that was learned
    (
        &["trace", "p", "n", "j"],
        &[
            LEARNING,
            TWO_PORTS,
            b"vericon-journal 1\npacket 0 1 1 1 2 1\npacket 0 1 1 2 1 2\nend\n",
        ],
        b"1 ok\n2 ok\nvericon-net 1\nsw 1\nho 1 2\npr 1 2\nstate\nt conn 1 1 1\nt conn 1 2 2\nft 1 2 1 2 1\nsent 1 1 2 1 2\nsent 1 2 1 2 1\nend\n",
        0,
    ),
];

const BROKEN: &[Call] = &[
    // with one port a flood reaches nobody
    (
        &["trace", "p", "n", "j"],
        &[
            LEARNING,
            ONE_PORT,
            b"vericon-journal 1\npacket 0 1 1 1 2 1\nend\n",
        ],
        b"1 broken no_black_hole\nvericon-net 1\nsw 1\nho 1 2\npr 1\nstate\nt conn 1 1 1\nend\n",
        1,
    ),
    // the notes behind go on
    (
        &["trace", "p", "n", "j"],
        &[
            FIREWALL,
            A_RULE,
            b"vericon-journal 1\nflow 1 2 1 2 1\npacket 0 1 1 1 2 1\nend\n",
        ],
        b"1 broken guarded\n2 ok\nvericon-net 1\nsw 1\nho 1 2\npr 1 2\nstate\nt tr 1 2\nft 1 1 2 1 2\nft 1 2 1 2 1\nsent 1 1 2 1 2\nsent 1 2 1 2 1\nend\n",
        1,
    ),
    // safety comes before transitions, at which a join doesn't look
    (
        &["trace", "p", "n", "j"],
        &[
            BOTH_FALSE,
            ONE_PORT,
            b"vericon-journal 1\npacket 0 1 1 1 2 1\nend\n",
        ],
        b"1 broken B\nvericon-net 1\nsw 1\nho 1 2\npr 1\nstate\nend\n",
        1,
    ),
    (
        &["trace", "p", "n", "j"],
        &[
            ONE_FALSE,
            ONE_PORT,
            b"vericon-journal 1\njoin 0 1 1\npacket 0 1 1 1 2 1\njoin 0 1 1\nend\n",
        ],
        b"1 ok\n2 broken U\n3 ok\nvericon-net 1\nsw 1\nho 1 2\npr 1\nstate\nend\n",
        1,
    ),
    // a refused note counts more
    (
        &["trace", "p", "n", "j"],
        &[
            FIREWALL,
            A_RULE,
            b"vericon-journal 1\nflow 1 2 1 2 1\njoin 0 1 9\nend\n",
        ],
        b"1 broken guarded\nentry 2: stranger\n",
        3,
    ),
];

const REFUSED: &[Call] = &[
    (
        &["trace", "p", "n", "j"],
        &[
            FIREWALL,
            TWO_PORTS,
            b"vericon-journal 1\nflow 1 2 1 2 1\nend\n",
        ],
        b"entry 1: not enabled\n",
        3,
    ),
    (
        &["trace", "p", "n", "j"],
        &[
            FIREWALL,
            TWO_PORTS,
            b"vericon-journal 1\npacket 0 1 1 1 2 1\nflow 1 1 2 1 1\nend\n",
        ],
        b"1 ok\nentry 2: not enabled\n",
        3,
    ),
    (
        &["trace", "p", "n", "j"],
        &[FIREWALL, TWO_PORTS, b"vericon-journal 1\njoin 0 1 2\nend\n"],
        b"entry 1: stranger\n",
        3,
    ),
    (
        &["trace", "p", "n", "j"],
        &[
            FIREWALL,
            TWO_PORTS,
            b"vericon-journal 1\npacket 0 1 9 1 2 1\nend\n",
        ],
        b"entry 1: stranger\n",
        3,
    ),
    (
        &["trace", "p", "n", "j"],
        &[
            FIREWALL,
            TWO_PORTS,
            b"vericon-journal 1\npacket 0 1 1 9 2 1\nend\n",
        ],
        b"entry 1: stranger\n",
        3,
    ),
    (
        &["trace", "p", "n", "j"],
        &[
            FIREWALL,
            TWO_PORTS,
            b"vericon-journal 1\npacket 0 1 1 1 9 1\nend\n",
        ],
        b"entry 1: stranger\n",
        3,
    ),
    (
        &["trace", "p", "n", "j"],
        &[
            FIREWALL,
            TWO_PORTS,
            b"vericon-journal 1\npacket 0 1 1 1 2 9\nend\n",
        ],
        b"entry 1: stranger\n",
        3,
    ),
    // of two reasons the first
    (
        &["trace", "p", "n", "j"],
        &[
            FIREWALL,
            TWO_PORTS,
            b"vericon-journal 1\nflow 1 1 2 1 9\nend\n",
        ],
        b"entry 1: stranger\n",
        3,
    ),
    // a bad line, before any note happens
    (
        &["trace", "p", "n", "j"],
        &[
            FIREWALL,
            TWO_PORTS,
            b"vericon-journal 1\npacket 0 1 1 1 2 1\njoin 0 1\nend\n",
        ],
        b"j refused line 3\n",
        3,
    ),
];

/// A rule for each packet, which ends after a time without packets.
const ENDING: &[u8] = b"timeout 30;
trans answered: forall S:SW, A:HO, B:HO, I:PR. S.rcv_this(A->B, I) -> (exists O:PR. S.sent(A->B, I->O));
pktIn(s, src->dst, i) { s.install(src->dst, i->prt(2)); s.forward(src->dst, i->prt(2)); }
";

const SEEN: &[u8] = b"timeout 5;
rel seen(SW, HO, HO, PR);
safety kept: forall S:SW, A:HO, B:HO, I:PR. seen(S, A, B, I) -> S.ft(A->B, I->prt(1));
pktIn(s, src->dst, i) { seen.insert(s, src, dst, i); s.install(src->dst, i->prt(1)); }
";

/// Each packet takes its rule out, and puts it in again.
const RESTORED: &[u8] = b"timeout 5;
pktIn(s, src->dst, i) { s.uninstall(src->dst, i->prt(2)); s.install(src->dst, i->prt(2)); }
";

const NEVER: &[u8] = b"timeout 5; trans never: false;";

const NO_PACKET: &[u8] =
    b"timeout 5; trans none: forall S:SW, A:HO, B:HO, I:PR. not S.rcv_this(A->B, I);";

const ENDS: &[Call] = &[
    // the mark of a match is the number of the entry that gave it its rule; flows have no number
    (
        &["trace", "p", "n", "j"],
        &[
            ENDING,
            TWO_PORTS,
            b"vericon-journal 2\njoin 0 1 1\nflow 1 1 2 1 2\nend\n",
        ],
        b"1 ok\nentry 2: not enabled\n",
        3,
    ),
    (
        &["trace", "p", "n", "j"],
        &[
            ENDING,
            TWO_PORTS,
            b"vericon-journal 2\njoin 0 1 1\npacket 0 1 1 1 2 1\nflow 1 1 2 1 2\nexpire 0 1 1 1 2 1 2\nend\n",
        ],
        b"1 ok\n2 ok\n3 ok\n4 ok\nvericon-net 1\nsw 1\nho 1 2\npr 1 2\nstate\nsent 1 1 2 1 2\nend\n",
        0,
    ),
    // with another cookie nothing ends
    (
        &["trace", "p", "n", "j"],
        &[
            ENDING,
            TWO_PORTS,
            b"vericon-journal 2\npacket 0 1 1 1 2 1\nflow 1 1 2 1 2\nexpire 0 1 1 1 2 1 2\nend\n",
        ],
        b"1 ok\n2 ok\n3 ok\nvericon-net 1\nsw 1\nho 1 2\npr 1 2\nstate\nft 1 1 2 1 2\nsent 1 1 2 1 2\nend\n",
        0,
    ),
    // an end is a change of its match, and an end that does nothing has a number too
    (
        &["trace", "p", "n", "j"],
        &[
            ENDING,
            TWO_PORTS,
            b"vericon-journal 2\npacket 0 1 1 1 2 1\nexpire 0 1 1 1 2 1 1\nexpire 0 1 1 1 2 1 1\npacket 0 1 1 1 2 1\nexpire 0 1 1 1 2 1 2\nexpire 0 1 1 1 2 1 3\nend\n",
        ],
        b"1 ok\n2 ok\n3 ok\n4 ok\n5 ok\n6 ok\nvericon-net 1\nsw 1\nho 1 2\npr 1 2\nstate\nft 1 1 2 1 2\nsent 1 1 2 1 2\nend\n",
        0,
    ),
    (
        &["trace", "p", "n", "j"],
        &[
            ENDING,
            TWO_PORTS,
            b"vericon-journal 2\npacket 0 1 1 1 2 1\nexpire 0 1 1 1 2 1 1\nexpire 0 1 1 1 2 1 1\npacket 0 1 1 1 2 1\nexpire 0 1 1 1 2 1 4\nend\n",
        ],
        b"1 ok\n2 ok\n3 ok\n4 ok\n5 ok\nvericon-net 1\nsw 1\nho 1 2\npr 1 2\nstate\nsent 1 1 2 1 2\nend\n",
        0,
    ),
    // a rule that was there before has the mark 0
    (
        &["trace", "p", "n", "j"],
        &[
            ENDING,
            A_RULE,
            b"vericon-journal 2\nexpire 0 1 1 2 1 2 0\nend\n",
        ],
        b"1 ok\nvericon-net 1\nsw 1\nho 1 2\npr 1 2\nstate\nend\n",
        0,
    ),
    // a match that has its rule again keeps its mark
    (
        &["trace", "p", "n", "j"],
        &[
            RESTORED,
            TWO_PORTS,
            b"vericon-journal 2\npacket 0 1 1 1 2 1\npacket 0 1 1 1 2 1\nexpire 0 1 1 1 2 1 2\nend\n",
        ],
        b"1 ok\n2 ok\n3 ok\nvericon-net 1\nsw 1\nho 1 2\npr 1 2\nstate\nft 1 1 2 1 2\nend\n",
        0,
    ),
    (
        &["trace", "p", "n", "j"],
        &[
            RESTORED,
            TWO_PORTS,
            b"vericon-journal 2\npacket 0 1 1 1 2 1\npacket 0 1 1 1 2 1\nexpire 0 1 1 1 2 1 1\nend\n",
        ],
        b"1 ok\n2 ok\n3 ok\nvericon-net 1\nsw 1\nho 1 2\npr 1 2\nstate\nend\n",
        0,
    ),
    // transitions are looked at where rules end: not without a rule, and not with another cookie
    (
        &["trace", "p", "n", "j"],
        &[
            NEVER,
            A_RULE,
            b"vericon-journal 2\nexpire 0 1 1 1 2 1 0\nexpire 0 1 1 2 1 2 7\nexpire 0 1 1 2 1 2 0\nexpire 0 1 1 2 1 2 3\nend\n",
        ],
        b"1 ok\n2 ok\n3 broken never\n4 ok\nvericon-net 1\nsw 1\nho 1 2\npr 1 2\nstate\nend\n",
        1,
    ),
    // .. and then no packet is received
    (
        &["trace", "p", "n", "j"],
        &[
            NO_PACKET,
            A_RULE,
            b"vericon-journal 2\nflow 1 2 1 2 1\nexpire 0 1 1 2 1 2 0\nend\n",
        ],
        b"1 broken none\n2 ok\nvericon-net 1\nsw 1\nho 1 2\npr 1 2\nstate\nsent 1 2 1 2 1\nend\n",
        1,
    ),
    (
        &["trace", "p", "n", "j"],
        &[
            SEEN,
            TWO_PORTS,
            b"vericon-journal 2\npacket 0 1 1 1 2 1\nexpire 0 1 1 1 2 1 1\nend\n",
        ],
        b"1 ok\n2 broken kept\nvericon-net 1\nsw 1\nho 1 2\npr 1 2\nstate\nt seen 1 1 2 1\nend\n",
        1,
    ),
    // a program whose rules don't end, and an element that the network lacks
    (
        &["trace", "p", "n", "j"],
        &[
            FIREWALL,
            TWO_PORTS,
            b"vericon-journal 2\npacket 0 1 1 1 2 1\nexpire 0 1 1 1 2 1 1\nend\n",
        ],
        b"1 ok\nentry 2: stranger\n",
        3,
    ),
    (
        &["trace", "p", "n", "j"],
        &[
            ENDING,
            TWO_PORTS,
            b"vericon-journal 2\nexpire 0 1 1 1 2 9 5\nend\n",
        ],
        b"entry 1: stranger\n",
        3,
    ),
    // journals of the first version say of no rule that it ended
    (
        &["trace", "p", "n", "j"],
        &[
            ENDING,
            TWO_PORTS,
            b"vericon-journal 1\nexpire 0 1 1 1 2 1 1\nend\n",
        ],
        b"j refused line 2\n",
        3,
    ),
];

const IN_ORDER: &[Call] = &[
    (
        &["trace", "p", "n", "j"],
        &[b"", b"", b"vericon-journal 1\nx\nend\n"],
        b"p refused at 0: Unexpected\n",
        3,
    ),
    (
        &["trace", "p", "n", "j"],
        &[FIREWALL, ONE_PORT, b"vericon-journal 1\nx\nend\n"],
        b"n refused line 4: NoPort\n",
        3,
    ),
    (
        &["trace", "p", "n", "j"],
        &[FIREWALL, TWO_PORTS, b"vericon-journal 1\nx\nend\n"],
        b"j refused line 2\n",
        3,
    ),
];

// Notes happen in order; the first false invariant is named; a note may be refused; rules end; files are refused in
// the order of the words.
#[test]
fn journals_are_traced(rt: HostRuntime) -> Result<(), Fail> {
    let alloc = rt.alloc();
    prints(&rt, alloc, EVENTS)?;
    prints(&rt, alloc, BROKEN)?;
    prints(&rt, alloc, REFUSED)?;
    prints(&rt, alloc, ENDS)?;
    prints(&rt, alloc, IN_ORDER)
}
