//! The rows, and what is asked of them.
ghost use Rattle.std.specs.Prelude.{IfOk, IfSome};
ghost use Rattle.csdn_core.specs.Network.{IsNetwork};

use csdn_core::program::Program;
use csdn_read::read_program;
use journal_text::{Note, read_journal};
use net_structs::network::Network;
use net_structs::read::NetParts;
use replay_listing::{Ending, Refusal, Refused, Replay, first_refused, list_refused, list_replay};
use sqlite_items::Items;
use std::alloc::{AllocError, Global};
use std::process::Abort;
use std::test::Fail;

fn digit(code: u8) -> Option<u8> {
    match code {
        b'0'..=b'9' => Some(code - b'0'),
        b'a'..=b'f' => Some(code - b'a' + 10),
        _ => None,
    }
}

/// The bytes of texts of two digits each; blanks mean nothing.
fn bytes_of(alloc: Global, texts: &[&[u8]]) -> Result<Vec<u8>, AllocError> {
    let mut out = Vec::new(alloc);
    for text in texts {
        put_text(&mut out, text)?;
    }
    Ok(out)
}

fn put_text(out: &mut Vec<u8>, text: &[u8]) -> Result<(), AllocError> {
    let mut high = None;
    for code in text {
        match (digit(*code), high) {
            (None, _) => {}
            (Some(low), None) => high = Some(low),
            (Some(low), Some(first)) => {
                out.push((first % 16) * 16 + low % 16)?;
                high = None;
            }
        }
    }
    Ok(())
}

/// One switch, two hosts and two ports.
fn network_for(alloc: Global, program: &Program) -> Result<Option<Network>, AllocError>
    ensures { IfOk result (λ found. IfSome found (λ network. IsNetwork program.now network)) }
{
    let parts = NetParts {
        sw: Items::from_slice(alloc, &[1])?,
        ho: Items::from_slice(alloc, &[1, 2])?,
        pr: Items::from_slice(alloc, &[1, 2])?,
        consts: Items::new(alloc),
        rows: Items::new(alloc),
    };
    match Network::try_new(alloc, program, parts) {
        Ok(network) => Ok(Some(network)),
        Err(_) => Ok(None),
    }
}

/// What a journal comes to.
#[derive(Drop)]
enum Outcome {
    Said(Replay),
    Refused(Vec<u8>),
}

/// What the notes come to, over a program and this network; none where the network can't be served.
fn outcome_in(
    alloc: Global,
    program: Program,
    network: Network,
    notes: &[Note],
    session: u32,
    stream: &[u8],
) -> Result<Option<Outcome>, AllocError>
    requires { IsNetwork program network }
{
    if !network.is_servable() {
        return Ok(None);
    }
    if let Some(refused) = first_refused(&program, &network, notes) {
        let text = list_refused(alloc, refused)?;
        return Ok(Some(Outcome::Refused(text)));
    }
    let replay = list_replay(alloc, program, network, notes, session, stream)?;
    Ok(Some(Outcome::Said(replay)))
}

/// What texts come to; none where one of them is refused.
fn outcome_of(
    alloc: Global,
    program: &[u8],
    journal: &[u8],
    session: u32,
    stream: &[u8],
) -> Result<Option<Outcome>, AllocError> {
    let Ok(program) = read_program(alloc, program) else {
        return Ok(None);
    };
    let Some(network) = network_for(alloc, &program)? else {
        return Ok(None);
    };
    let Ok(notes) = read_journal(alloc, journal) else {
        return Ok(None);
    };
    outcome_in(alloc, program, network, notes.as_slice(), session, stream)
}

/// A program.
#[derive(Clone, Copy, Debug)]
enum Of {
    Firewall,
    FirewallForATime,
    Learning,
    Turns,
}

use Of::{Firewall, FirewallForATime, Learning, Turns};

fn text_of(program: Of) -> &'static [u8] {
    match program {
        Firewall => FIREWALL,
        FirewallForATime => FIREWALL_FOR_A_TIME,
        Learning => LEARNING,
        Turns => TURNS,
    }
}

type Texts = &'static [&'static [u8]];

/// A program, a journal, a session, the bytes of its switch, the text, and how it ends.
type Row = (Of, &'static [u8], u32, Texts, &'static [u8], Ending);

fn is_said(outcome: &Option<Outcome>, text: &[u8], ending: Ending) -> bool {
    match outcome {
        Some(Outcome::Said(replay)) => { replay.text.as_slice() == text && replay.ending == ending }
        _ => false,
    }
}

fn is_refused(outcome: &Option<Outcome>, wanted: &[u8]) -> bool {
    match outcome {
        Some(Outcome::Refused(text)) => text.as_slice() == wanted,
        _ => false,
    }
}

/// Each row comes to what it says.
fn come(rt: &impl Abort, alloc: Global, rows: &[Row]) -> Result<(), AllocError> {
    for (i, row) in rows.iter().enumerate() {
        let stream = bytes_of(alloc, row.3)?;
        let outcome = outcome_of(alloc, text_of(row.0), row.1, row.2, &stream)?;
        assert!(rt; is_said(&outcome, row.4, row.5), "row {i}");
    }
    Ok(())
}

const FIREWALL: &[u8] =
    b"rel tr(SW, HO); safety guarded: forall S:SW, A:HO, B:HO. S.sent(A->B, prt(2)->prt(1)) -> tr(S, A); pktIn(s, src->dst, prt(1)) { s.forward(src->dst, prt(1)->prt(2)); tr.insert(s, dst); s.install(src->dst, prt(1)->prt(2)); } pktIn(s, src->dst, prt(2)) { if tr(s, src) { s.forward(src->dst, prt(2)->prt(1)); s.install(src->dst, prt(2)->prt(1)); } }";

const FIREWALL_FOR_A_TIME: &[u8] =
    b"timeout 30; rel tr(SW, HO); safety guarded: forall S:SW, A:HO, B:HO. S.sent(A->B, prt(2)->prt(1)) -> tr(S, A); pktIn(s, src->dst, prt(1)) { s.forward(src->dst, prt(1)->prt(2)); tr.insert(s, dst); s.install(src->dst, prt(1)->prt(2)); } pktIn(s, src->dst, prt(2)) { if tr(s, src) { s.forward(src->dst, prt(2)->prt(1)); s.install(src->dst, prt(2)->prt(1)); } }";

const LEARNING: &[u8] =
    b"rel conn(SW, PR, HO); pktIn(s, src->dst, i) { conn.insert(s, i, src); pick o:PR where conn(s, o, dst) { s.install(src->dst, i->o); s.forward(src->dst, i->o); } else { s.flood(src->dst, i); } }";

const TURNS: &[u8] =
    b"pktIn(s, src->dst, i) { if s.ft(src->dst, i->prt(2)) { s.uninstall(src->dst, i->prt(2)); } else { s.install(src->dst, i->prt(2)); } }";

const HELLO: &[u8] = b"01000008 00000000";

/// From switch 1.
const FEATURES: &[u8] = b"01060020 00000002 0000000000000001 00000100 01000000 00000000 00000fff";

/// From switch 9.
const FEATURES_OF_NINE: &[u8] =
    b"01060020 00000002 0000000000000009 00000100 01000000 00000000 00000fff";

/// From host 1 to host 2, on port 1, with buffer 5.
const PACKET: &[u8] = b"010a0020 00000000 00000005 000e 0001 0000 000000000002 000000000001 0800";

/// .. of 11 bytes.
const SHORT_PACKET: &[u8] = b"010a001d 00000000 00000005 000b 0001 0000 000000000002 0000000001";

/// .. from host 9.
const PACKET_FROM_NINE: &[u8] =
    b"010a0020 00000000 00000005 000e 0001 0000 000000000002 000000000009 0800";

/// .. on port 2, with buffer 7.
const PACKET_ON_PORT_TWO: &[u8] =
    b"010a0020 00000000 00000007 000e 0002 0000 000000000002 000000000001 0800";

/// .. from host 2 to host 1, with buffer 6.
const PACKET_BACK: &[u8] =
    b"010a0020 00000000 00000006 000e 0001 0000 000000000001 000000000002 0800";

/// The rule of that packet, with cookie 2, ended after a time without packets.
const REMOVED: &[u8] =
    b"010b0058 00000000 003ffff2 0001 000000000001 000000000002 00000000000000000000000000000000000000000000 0000000000000002 8000 00 00 00000000 00000000 001e 0000 00000000000000000000000000000000";

/// .. with cookie 1.
const REMOVED_BEFORE: &[u8] =
    b"010b0058 00000000 003ffff2 0001 000000000001 000000000002 00000000000000000000000000000000000000000000 0000000000000001 8000 00 00 00000000 00000000 001e 0000 00000000000000000000000000000000";

/// Of version 0.
const OLD_HELLO: &[u8] = b"00000008 00000000";

/// Of type 22.
const NO_MESSAGE: &[u8] = b"01160008 00000000";

const ENTRIES: &[Row] = &[
    // six messages are said to a join and a packet
    (
        Firewall,
        b"vericon-journal 1\njoin 0 1 1\npacket 0 1 1 1 2 1\nend\n",
        1,
        &[HELLO, FEATURES, PACKET],
        b"out 0100000800000001\nout 0105000800000002\nout 0109000c000000030000ffff\nout 010e004800000004003fffff00000000000000000000000000000000000000000000000000000000000000000000000000000000000000000003000000000000ffffffffffff0000\nout 010e005000000005003ffff200010000000000010000000000020000000000000000000000000000000000000000000000000000000000000000000000008000ffffffffffff00000000000800020000\nout 010d00180000000600000005000100080000000800020000\nend closed ignored 0\n",
        Ending::Closed,
    ),
    // a packet has no entry
    (
        Firewall,
        b"vericon-journal 1\njoin 0 1 1\nend\n",
        1,
        &[HELLO, FEATURES, PACKET],
        b"ask 2: differs\n",
        Ending::Differs,
    ),
    // .. or a second entry of it, or one of another session comes between
    (
        Firewall,
        b"vericon-journal 1\njoin 0 1 1\npacket 0 1 1 1 2 1\npacket 0 1 1 1 2 1\nend\n",
        1,
        &[HELLO, FEATURES, PACKET],
        b"ask 3: differs\n",
        Ending::Differs,
    ),
    // the seat and other sessions are not looked at, nor packets that rules sent
    (
        Firewall,
        b"vericon-journal 1\njoin 7 1 1\njoin 0 2 1\nflow 1 1 2 1 2\npacket 3 1 1 1 2 1\npacket 0 2 1 2 1 1\nend\n",
        1,
        &[HELLO, FEATURES, PACKET],
        b"out 0100000800000001\nout 0105000800000002\nout 0109000c000000030000ffff\nout 010e004800000004003fffff00000000000000000000000000000000000000000000000000000000000000000000000000000000000000000003000000000000ffffffffffff0000\nout 010e005000000005003ffff200010000000000010000000000020000000000000000000000000000000000000000000000000000000000000000000000008000ffffffffffff00000000000800020000\nout 010d00180000000600000005000100080000000800020000\nend closed ignored 0\n",
        Ending::Closed,
    ),
    // another source, another kind
    (
        Firewall,
        b"vericon-journal 1\njoin 0 1 1\npacket 0 1 1 2 2 1\nend\n",
        1,
        &[HELLO, FEATURES, PACKET],
        b"ask 2: differs\n",
        Ending::Differs,
    ),
    (
        Firewall,
        b"vericon-journal 1\njoin 0 1 1\njoin 0 1 1\nend\n",
        1,
        &[HELLO, FEATURES, PACKET],
        b"ask 2: differs\n",
        Ending::Differs,
    ),
    (
        Firewall,
        b"vericon-journal 1\npacket 0 1 1 1 2 1\njoin 0 1 1\nend\n",
        1,
        &[HELLO, FEATURES, PACKET],
        b"ask 1: differs\n",
        Ending::Differs,
    ),
    // a session that joins later is told the rules that are there
    (
        Firewall,
        b"vericon-journal 1\njoin 0 1 1\npacket 0 1 1 1 2 1\njoin 0 2 1\nend\n",
        2,
        &[HELLO, FEATURES],
        b"out 0100000800000001\nout 0105000800000002\nout 0109000c000000030000ffff\nout 010e004800000004003fffff00000000000000000000000000000000000000000000000000000000000000000000000000000000000000000003000000000000ffffffffffff0000\nout 010e005000000005003ffff200010000000000010000000000020000000000000000000000000000000000000000000000000000000000000000000000008000ffffffffffff00000000000800020000\nend closed ignored 0\n",
        Ending::Closed,
    ),
];

const ENDS: &[Row] = &[
    // each end
    (
        Firewall,
        b"vericon-journal 1\nend\n",
        1,
        &[OLD_HELLO],
        b"out 0100000800000001\nout 0101000c0000000200000000\nend incompatible ignored 0\n",
        Ending::Ended,
    ),
    (
        Firewall,
        b"vericon-journal 1\nend\n",
        1,
        &[],
        b"out 0100000800000001\nend closed ignored 0\n",
        Ending::Closed,
    ),
    (
        Firewall,
        b"vericon-journal 1\nend\n",
        1,
        &[FEATURES],
        b"out 0100000800000001\nend out of turn 0 ignored 0\n",
        Ending::Ended,
    ),
    (
        Firewall,
        b"vericon-journal 1\nend\n",
        1,
        &[HELLO, FEATURES_OF_NINE],
        b"out 0100000800000001\nout 0105000800000002\nend unknown switch 9 ignored 0\n",
        Ending::Ended,
    ),
    (
        Firewall,
        b"vericon-journal 1\nend\n",
        1,
        &[HELLO, NO_MESSAGE],
        b"out 0100000800000001\nout 0105000800000002\nend wire 9 BadType ignored 0\n",
        Ending::Ended,
    ),
    // an end comes behind entries that are left
    (
        Firewall,
        b"vericon-journal 1\njoin 0 1 1\nend\n",
        1,
        &[HELLO, NO_MESSAGE],
        b"ask 1: differs\n",
        Ending::Differs,
    ),
    // what is ignored makes no entry
    (
        Firewall,
        b"vericon-journal 1\njoin 0 1 1\npacket 0 1 1 1 2 2\nend\n",
        1,
        &[
            HELLO,
            FEATURES,
            SHORT_PACKET,
            PACKET_FROM_NINE,
            PACKET_ON_PORT_TWO,
        ],
        b"out 0100000800000001\nout 0105000800000002\nout 0109000c000000030000ffff\nout 010e004800000004003fffff00000000000000000000000000000000000000000000000000000000000000000000000000000000000000000003000000000000ffffffffffff0000\nout 010d0010000000050000000700020000\nend closed ignored 2\n",
        Ending::Closed,
    ),
    // a flood, and then a port that was learned
    (
        Learning,
        b"vericon-journal 1\njoin 0 1 1\npacket 0 1 1 1 2 1\npacket 0 1 1 2 1 1\nend\n",
        1,
        &[HELLO, FEATURES, PACKET, PACKET_BACK],
        b"out 0100000800000001\nout 0105000800000002\nout 0109000c000000030000ffff\nout 010e004800000004003fffff00000000000000000000000000000000000000000000000000000000000000000000000000000000000000000003000000000000ffffffffffff0000\nout 010d001800000005000000050001000800000008fffc0000\nout 010e005000000006003ffff200010000000000020000000000010000000000000000000000000000000000000000000000000000000000000000000000008000ffffffffffff000000000008fff80000\nout 010d001800000007000000060001000800000008fff80000\nend closed ignored 0\n",
        Ending::Closed,
    ),
];

const RULES: &[Row] = &[
    // a rule that ends
    (
        FirewallForATime,
        b"vericon-journal 1\njoin 0 1 1\npacket 0 1 1 1 2 1\nend\n",
        1,
        &[HELLO, FEATURES, PACKET],
        b"out 0100000800000001\nout 0105000800000002\nout 0109000c000000030000ffff\nout 010e004800000004003fffff00000000000000000000000000000000000000000000000000000000000000000000000000000000000000000003000000000000ffffffffffff0000\nout 010e005000000005003ffff200010000000000010000000000020000000000000000000000000000000000000000000000000000000000020000001e00008000ffffffffffff00010000000800020000\nout 010d00180000000600000005000100080000000800020000\nend closed ignored 0\n",
        Ending::Closed,
    ),
    // .. is given again when it has ended
    (
        FirewallForATime,
        b"vericon-journal 2\njoin 0 1 1\npacket 0 1 1 1 2 1\nexpire 0 1 1 1 2 1 2\npacket 0 1 1 1 2 1\nend\n",
        1,
        &[HELLO, FEATURES, PACKET, REMOVED, PACKET],
        b"out 0100000800000001\nout 0105000800000002\nout 0109000c000000030000ffff\nout 010e004800000004003fffff00000000000000000000000000000000000000000000000000000000000000000000000000000000000000000003000000000000ffffffffffff0000\nout 010e005000000005003ffff200010000000000010000000000020000000000000000000000000000000000000000000000000000000000020000001e00008000ffffffffffff00010000000800020000\nout 010d00180000000600000005000100080000000800020000\nout 010e005000000007003ffff200010000000000010000000000020000000000000000000000000000000000000000000000000000000000040000001e00008000ffffffffffff00010000000800020000\nout 010d00180000000800000005000100080000000800020000\nend closed ignored 0\n",
        Ending::Closed,
    ),
    // .. and not where it was another
    (
        FirewallForATime,
        b"vericon-journal 2\njoin 0 1 1\npacket 0 1 1 1 2 1\nexpire 0 1 1 1 2 1 1\npacket 0 1 1 1 2 1\nend\n",
        1,
        &[HELLO, FEATURES, PACKET, REMOVED_BEFORE, PACKET],
        b"out 0100000800000001\nout 0105000800000002\nout 0109000c000000030000ffff\nout 010e004800000004003fffff00000000000000000000000000000000000000000000000000000000000000000000000000000000000000000003000000000000ffffffffffff0000\nout 010e005000000005003ffff200010000000000010000000000020000000000000000000000000000000000000000000000000000000000020000001e00008000ffffffffffff00010000000800020000\nout 010d00180000000600000005000100080000000800020000\nout 010d00180000000700000005000100080000000800020000\nend closed ignored 0\n",
        Ending::Closed,
    ),
    // .. and the cookies differ
    (
        FirewallForATime,
        b"vericon-journal 2\njoin 0 1 1\npacket 0 1 1 1 2 1\nexpire 0 1 1 1 2 1 2\npacket 0 1 1 1 2 1\nend\n",
        1,
        &[HELLO, FEATURES, PACKET, REMOVED_BEFORE, PACKET],
        b"ask 3: differs\n",
        Ending::Differs,
    ),
    // a program whose rules do not end lets go of what says that one has
    (
        Firewall,
        b"vericon-journal 1\njoin 0 1 1\npacket 0 1 1 1 2 1\npacket 0 1 1 1 2 1\nend\n",
        1,
        &[HELLO, FEATURES, PACKET, REMOVED, PACKET],
        b"out 0100000800000001\nout 0105000800000002\nout 0109000c000000030000ffff\nout 010e004800000004003fffff00000000000000000000000000000000000000000000000000000000000000000000000000000000000000000003000000000000ffffffffffff0000\nout 010e005000000005003ffff200010000000000010000000000020000000000000000000000000000000000000000000000000000000000000000000000008000ffffffffffff00000000000800020000\nout 010d00180000000600000005000100080000000800020000\nout 010d00180000000700000005000100080000000800020000\nend closed ignored 1\n",
        Ending::Closed,
    ),
    // a rule without ports
    (
        Turns,
        b"vericon-journal 1\njoin 0 1 1\npacket 0 1 1 1 2 1\npacket 0 1 1 1 2 1\nend\n",
        1,
        &[HELLO, FEATURES, PACKET, PACKET],
        b"out 0100000800000001\nout 0105000800000002\nout 0109000c000000030000ffff\nout 010e004800000004003fffff00000000000000000000000000000000000000000000000000000000000000000000000000000000000000000003000000000000ffffffffffff0000\nout 010e005000000005003ffff200010000000000010000000000020000000000000000000000000000000000000000000000000000000000000000000000008000ffffffffffff00000000000800020000\nout 010d0010000000060000000500010000\nout 010e004800000007003ffff200010000000000010000000000020000000000000000000000000000000000000000000000000000000000000004000000008000ffffffffffff0000\nout 010d0010000000080000000500010000\nend closed ignored 0\n",
        Ending::Closed,
    ),
];

#[test]
fn sessions_are_told_of(rt: HostRuntime) -> Result<(), Fail> {
    come(&rt, rt.alloc(), ENTRIES)?;
    come(&rt, rt.alloc(), ENDS)?;
    come(&rt, rt.alloc(), RULES)?;
    Ok(())
}

/// A journal, and the line of the note that is refused.
const REFUSED: &[(&[u8], &[u8])] = &[
    (
        b"vericon-journal 1\njoin 0 1 2\nend\n",
        b"entry 1: stranger\n",
    ),
    (
        b"vericon-journal 1\njoin 0 1 1\nflow 9 9 9 9 9\npacket 0 2 1 1 3 1\nend\n",
        b"entry 3: stranger\n",
    ),
    (
        b"vericon-journal 2\njoin 0 1 1\nexpire 0 1 1 1 2 1 0\nend\n",
        b"entry 2: stranger\n",
    ),
];

// Each journal is refused so.
fn are_refused(rt: &impl Abort, alloc: Global, rows: &[(&[u8], &[u8])]) -> Result<(), AllocError> {
    for (i, row) in rows.iter().enumerate() {
        let outcome = outcome_of(alloc, FIREWALL, row.0, 1, &[])?;
        assert!(rt; is_refused(&outcome, row.1), "row {i}");
    }
    Ok(())
}

#[test]
fn entries_are_refused(rt: HostRuntime) -> Result<(), Fail> {
    are_refused(&rt, rt.alloc(), REFUSED)?;
    let full = list_refused(
        rt.alloc(),
        Refused {
            number: 4194306,
            why: Refusal::Full,
        },
    )?;
    assert_eq!(rt; full.as_slice(), b"entry 4194306: full\n".as_slice());
    Ok(())
}

/// What a beginning of the stream comes to that asks nothing, or asks for the join alone, or for the packet too.
fn beginning(length: usize) -> (&'static [u8], Ending) {
    if length < 40 {
        (b"ask 1: differs\n", Ending::Differs)
    } else if length < 72 {
        (b"ask 2: differs\n", Ending::Differs)
    } else {
        (ALL, Ending::Closed)
    }
}

const ALL: &[u8] =
    b"out 0100000800000001\nout 0105000800000002\nout 0109000c000000030000ffff\nout 010e004800000004003fffff00000000000000000000000000000000000000000000000000000000000000000000000000000000000000000003000000000000ffffffffffff0000\nout 010e005000000005003ffff200010000000000010000000000020000000000000000000000000000000000000000000000000000000000000000000000008000ffffffffffff00000000000800020000\nout 010d00180000000600000005000100080000000800020000\nend closed ignored 0\n";

#[test]
fn every_beginning_of_a_stream_is_told_of(rt: HostRuntime) -> Result<(), Fail> {
    let stream = bytes_of(rt.alloc(), &[HELLO, FEATURES, PACKET])?;
    for length in 0..stream.len() + 1 {
        let journal = b"vericon-journal 1\njoin 0 1 1\npacket 0 1 1 1 2 1\nend\n";
        let (text, ending) = beginning(length);
        let outcome = outcome_of(rt.alloc(), FIREWALL, journal, 1, &stream[..length])?;
        assert!(rt; is_said(&outcome, text, ending), "{length}");
    }
    Ok(())
}
