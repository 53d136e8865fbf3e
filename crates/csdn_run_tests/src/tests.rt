//! The rows, and what is asked of them.
ghost use Rattle.std.specs.Prelude.{◌≤◌, IfOk, IfSome};
ghost use Rattle.csdn_core.specs.Network.{IsNetwork};

use csdn_core::event::{Match, Out};
use csdn_core::program::Program;
use csdn_history::entry::Entry;
use csdn_history::reply::{Reply, Rule};
use csdn_read::read_program;
use csdn_run::{Marks, RunRefusal, Runtime};
use net_structs::network::Network;
use net_structs::read::{NetParts, NetRefusal};
use sqlite_items::Items;
use std::alloc::{AllocError, Global};
use std::process::Abort;
use std::test::Fail;

/// A switch, a source, a destination and a port.
type Place = (u64, u64, u64, u64);

/// What is entered.
#[derive(Clone, Copy, Debug)]
enum Act {
    Join(u64),
    Packet(Place),
    /// .. with the cookie of the rule that ended.
    Expire(Place, u64),
}

/// A match, its ports, its cookie and its idle time.
type RuleRow = (Place, &'static [u64], u64, u16);

/// What is answered to an entry.
#[derive(Clone, Copy, Debug)]
enum Answer {
    Gives(&'static [RuleRow], &'static [Out]),
    Stranger,
    Full,
}

use Act::{Expire, Join, Packet};
use Answer::{Full, Gives, Stranger};

type Row = (Act, Answer);

fn entry_of(act: Act) -> Entry {
    match act {
        Join(s) => Entry::Join {
            seat: 0,
            session: 1,
            s,
        },
        Packet((s, a, b, i)) => Entry::Packet {
            seat: 0,
            session: 1,
            s,
            a,
            b,
            i,
        },
        Expire((s, a, b, i), cookie) => Entry::Expire {
            seat: 0,
            session: 1,
            s,
            a,
            b,
            i,
            cookie,
        },
    }
}

fn match_of(place: Place) -> Match {
    let (s, a, b, i) = place;
    Match { s, a, b, i }
}

/// Two switches, two hosts and two ports.
fn network_for(alloc: Global, program: &Program) -> Result<Option<Network>, AllocError>
    ensures { IfOk result (λ found. IfSome found (λ network. IsNetwork program.now network)) }
{
    let parts = NetParts {
        sw: Items::from_slice(alloc, &[1, 2])?,
        ho: Items::from_slice(alloc, &[1, 2])?,
        pr: Items::from_slice(alloc, &[1, 2])?,
        consts: Items::new(alloc),
        rows: Items::new(alloc),
    };
    match Network::try_new(alloc, program, parts) {
        Ok(network) => Ok(Some(network)),
        Err(_) => Ok(None),
    }
}

/// The runtime of a program's text over this network; none where there is none.
fn runtime_of(alloc: Global, text: &[u8], room: u32) -> Result<Option<Runtime>, AllocError>
    requires { (1 ≤ room) × (room ≤ 4194304) }
{
    let Ok(program) = read_program(alloc, text) else {
        return Ok(None);
    };
    let Some(network) = network_for(alloc, &program)? else {
        return Ok(None);
    };
    if !network.is_servable() {
        return Ok(None);
    }
    let runtime = Runtime::try_new(alloc, program, network, room)?;
    Ok(Some(runtime))
}

fn is_rule(rule: &Rule, row: &RuleRow) -> bool {
    rule.key == match_of(row.0)
        && rule.ports.as_slice() == row.1
        && rule.cookie == row.2
        && rule.idle == row.3
}

fn are_rules(rules: &[Rule], rows: &[RuleRow]) -> bool {
    for (rule, row) in rules.iter().zip(rows.iter()) {
        if !is_rule(rule, row) {
            return false;
        }
    }
    rules.len() == rows.len()
}

fn is_reply(reply: &Reply, rules: &[RuleRow], outs: &[Out]) -> bool {
    are_rules(reply.rules.as_slice(), rules) && reply.outs.as_slice() == outs
}

fn is_answer(answer: &Result<Reply, RunRefusal>, wanted: Answer) -> bool {
    match answer {
        Ok(reply) => match wanted {
            Gives(rules, outs) => is_reply(reply, rules, outs),
            Stranger | Full => false,
        },
        Err(RunRefusal::Stranger) => matches!(wanted, Stranger),
        Err(RunRefusal::HistoryFull) => matches!(wanted, Full),
        Err(RunRefusal::Memory) => false,
    }
}

/// Each entry is answered so.
fn answers(rt: &impl Abort, runtime: &mut Runtime, rows: &[Row]) {
    for (i, row) in rows.iter().enumerate() {
        let answer = runtime.apply(&entry_of(row.0));
        assert!(rt; is_answer(&answer, row.1), "row {i}");
    }
}

/// The history is the entries that were not refused.
fn are_kept(
    rt: &impl Abort,
    alloc: Global,
    runtime: &Runtime,
    rows: &[Row],
) -> Result<(), AllocError> {
    let mut wanted = Vec::new(alloc);
    for row in rows {
        if matches!(row.1, Gives(..)) {
            wanted.push(entry_of(row.0))?;
        }
    }
    assert!(rt; runtime.history() == wanted.as_slice());
    Ok(())
}

/// The entries over the program of a text are answered so.
fn runs(
    rt: &impl Abort,
    alloc: Global,
    text: &[u8],
    room: u32,
    rows: &[Row],
) -> Result<(), AllocError>
    requires { (1 ≤ room) × (room ≤ 4194304) }
{
    let found = runtime_of(alloc, text, room)?;
    assert!(rt; found.is_some());
    let Some(mut runtime) = found else {
        return Ok(());
    };
    answers(rt, &mut runtime, rows);
    are_kept(rt, alloc, &runtime, rows)
}

/// A program, and what is answered over it, one entry after another.
type Scene = (&'static [u8], &'static [Row]);

fn run_all(rt: &impl Abort, alloc: Global, scenes: &[Scene]) -> Result<(), AllocError> {
    for scene in scenes {
        runs(rt, alloc, scene.0, 4194304, scene.1)?;
    }
    Ok(())
}

const NOTHING: Answer = Gives(&[], &[]);

/// Packets go from port 1 to port 2, and back to hosts that were sent to.
const FIREWALL: &[u8] =
    b"rel tr(SW, HO); safety guarded: forall S:SW, A:HO, B:HO. S.sent(A->B, prt(2)->prt(1)) -> tr(S, A); pktIn(s, src->dst, prt(1)) { s.forward(src->dst, prt(1)->prt(2)); tr.insert(s, dst); s.install(src->dst, prt(1)->prt(2)); } pktIn(s, src->dst, prt(2)) { if tr(s, src) { s.forward(src->dst, prt(2)->prt(1)); s.install(src->dst, prt(2)->prt(1)); } }";

/// .. by rules that end.
const FIREWALL_FOR_A_TIME: &[u8] =
    b"timeout 30; rel tr(SW, HO); safety guarded: forall S:SW, A:HO, B:HO. S.sent(A->B, prt(2)->prt(1)) -> tr(S, A); pktIn(s, src->dst, prt(1)) { s.forward(src->dst, prt(1)->prt(2)); tr.insert(s, dst); s.install(src->dst, prt(1)->prt(2)); } pktIn(s, src->dst, prt(2)) { if tr(s, src) { s.forward(src->dst, prt(2)->prt(1)); s.install(src->dst, prt(2)->prt(1)); } }";

const LEARNING: &[u8] =
    b"rel conn(SW, PR, HO); pktIn(s, src->dst, i) { conn.insert(s, i, src); pick o:PR where conn(s, o, dst) { s.install(src->dst, i->o); s.forward(src->dst, i->o); } else { s.flood(src->dst, i); } }";

/// Each packet of a match changes whether the match goes to port 2.
const TURNS: &[u8] =
    b"pktIn(s, src->dst, i) { if s.ft(src->dst, i->prt(2)) { s.uninstall(src->dst, i->prt(2)); } else { s.install(src->dst, i->prt(2)); } }";

/// A second packet of a match touches its rule, and leaves it as it was.
const TOUCHES: &[u8] =
    b"timeout 30; pktIn(s, src->dst, i) { if s.ft(src->dst, i->prt(1)) { s.uninstall(src->dst, i->prt(1)); s.install(src->dst, i->prt(1)); } else { s.install(src->dst, i->prt(1)); } }";

/// The way back is given its ports first and last, and not in their order.
const BOTH_WAYS: &[u8] =
    b"pktIn(s, src->dst, i) { s.install(dst->src, i->prt(2)); s.install(src->dst, i->prt(2)); s.install(dst->src, i->prt(1)); s.forward(src->dst, i->prt(2)); s.flood(src->dst, i); s.forward(src->dst, i->prt(1)); s.forward(src->dst, i->prt(2)); }";

const INSTALLS: &[u8] = b"pktIn(s, src->dst, i) { s.install(src->dst, i->prt(1)); }";

const ENTRIES: &[Scene] = &[
    // what is changed is told once; a join is told all rules of its switch, rising; a packet that fits no block does nothing
    (
        FIREWALL,
        &[
            (Join(1), NOTHING),
            (
                Packet((1, 1, 2, 1)),
                Gives(&[((1, 1, 2, 1), &[2], 0, 0)], &[Out::Port(2)]),
            ),
            (Packet((1, 1, 2, 1)), Gives(&[], &[Out::Port(2)])),
            (Packet((1, 1, 2, 2)), NOTHING),
            (
                Packet((1, 2, 1, 2)),
                Gives(&[((1, 2, 1, 2), &[1], 0, 0)], &[Out::Port(1)]),
            ),
            (
                Join(1),
                Gives(
                    &[((1, 1, 2, 1), &[2], 0, 0), ((1, 2, 1, 2), &[1], 0, 0)],
                    &[],
                ),
            ),
            (Join(2), NOTHING),
        ],
    ),
    // a packet is flooded, as one action, until its destination is known
    (
        LEARNING,
        &[
            (Join(1), NOTHING),
            (Packet((1, 1, 2, 1)), Gives(&[], &[Out::Flood])),
            (
                Packet((1, 2, 1, 1)),
                Gives(&[((1, 2, 1, 1), &[1], 0, 0)], &[Out::Port(1)]),
            ),
            (Packet((2, 2, 1, 1)), Gives(&[], &[Out::Flood])),
        ],
    ),
    // a match whose last output went has a rule without ports
    (
        TURNS,
        &[
            (
                Packet((1, 1, 2, 1)),
                Gives(&[((1, 1, 2, 1), &[2], 0, 0)], &[]),
            ),
            (
                Packet((1, 1, 2, 1)),
                Gives(&[((1, 1, 2, 1), &[], 0, 0)], &[]),
            ),
            (Join(1), NOTHING),
            (
                Packet((1, 1, 2, 1)),
                Gives(&[((1, 1, 2, 1), &[2], 0, 0)], &[]),
            ),
        ],
    ),
    // rules in the order of the first change, their ports rising; outputs in the order of the commands, each once
    (
        BOTH_WAYS,
        &[
            (
                Packet((1, 1, 2, 1)),
                Gives(
                    &[((1, 2, 1, 1), &[1, 2], 0, 0), ((1, 1, 2, 1), &[2], 0, 0)],
                    &[Out::Port(2), Out::Flood, Out::Port(1)],
                ),
            ),
            (
                Packet((1, 2, 1, 1)),
                Gives(
                    &[((1, 1, 2, 1), &[1, 2], 0, 0)],
                    &[Out::Port(2), Out::Flood, Out::Port(1)],
                ),
            ),
        ],
    ),
    // a join is told in the order of source, destination and port, and of its own switch alone
    (
        INSTALLS,
        &[
            (
                Packet((1, 2, 1, 2)),
                Gives(&[((1, 2, 1, 2), &[1], 0, 0)], &[]),
            ),
            (
                Packet((2, 1, 1, 1)),
                Gives(&[((2, 1, 1, 1), &[1], 0, 0)], &[]),
            ),
            (
                Packet((1, 1, 2, 2)),
                Gives(&[((1, 1, 2, 2), &[1], 0, 0)], &[]),
            ),
            (
                Packet((1, 1, 2, 1)),
                Gives(&[((1, 1, 2, 1), &[1], 0, 0)], &[]),
            ),
            (
                Packet((1, 1, 1, 2)),
                Gives(&[((1, 1, 1, 2), &[1], 0, 0)], &[]),
            ),
            (
                Join(1),
                Gives(
                    &[
                        ((1, 1, 1, 2), &[1], 0, 0),
                        ((1, 1, 2, 1), &[1], 0, 0),
                        ((1, 1, 2, 2), &[1], 0, 0),
                        ((1, 2, 1, 2), &[1], 0, 0),
                    ],
                    &[],
                ),
            ),
            (Join(2), Gives(&[((2, 1, 1, 1), &[1], 0, 0)], &[])),
        ],
    ),
];

const ENDING: &[Scene] = &[
    // a rule has the number of the entry that gave its outputs, and is given again when it has ended
    (
        FIREWALL_FOR_A_TIME,
        &[
            (Join(1), NOTHING),
            (
                Packet((1, 1, 2, 1)),
                Gives(&[((1, 1, 2, 1), &[2], 2, 30)], &[Out::Port(2)]),
            ),
            (Expire((1, 1, 2, 1), 2), NOTHING),
            (
                Packet((1, 1, 2, 1)),
                Gives(&[((1, 1, 2, 1), &[2], 4, 30)], &[Out::Port(2)]),
            ),
            (Join(1), Gives(&[((1, 1, 2, 1), &[2], 4, 30)], &[])),
        ],
    ),
    // with another number nothing has ended, and the number of the match stays
    (
        FIREWALL_FOR_A_TIME,
        &[
            (Join(1), NOTHING),
            (
                Packet((1, 1, 2, 1)),
                Gives(&[((1, 1, 2, 1), &[2], 2, 30)], &[Out::Port(2)]),
            ),
            (Expire((1, 1, 2, 1), 1), NOTHING),
            (Expire((1, 1, 2, 1), 0), NOTHING),
            (Packet((1, 1, 2, 1)), Gives(&[], &[Out::Port(2)])),
            (Join(1), Gives(&[((1, 1, 2, 1), &[2], 2, 30)], &[])),
            (Expire((1, 1, 2, 1), 2), NOTHING),
            (Join(1), NOTHING),
            (Expire((1, 1, 2, 1), 2), NOTHING),
            (
                Packet((1, 1, 2, 1)),
                Gives(&[((1, 1, 2, 1), &[2], 10, 30)], &[Out::Port(2)]),
            ),
        ],
    ),
    // a match without a rule has none that ends, and other matches keep theirs
    (
        FIREWALL_FOR_A_TIME,
        &[
            (Expire((1, 1, 2, 1), 0), NOTHING),
            (
                Packet((1, 1, 2, 1)),
                Gives(&[((1, 1, 2, 1), &[2], 2, 30)], &[Out::Port(2)]),
            ),
            (
                Packet((1, 2, 1, 2)),
                Gives(&[((1, 2, 1, 2), &[1], 3, 30)], &[Out::Port(1)]),
            ),
            (
                Packet((2, 1, 2, 1)),
                Gives(&[((2, 1, 2, 1), &[2], 4, 30)], &[Out::Port(2)]),
            ),
            (Expire((1, 2, 1, 2), 3), NOTHING),
            (Join(1), Gives(&[((1, 1, 2, 1), &[2], 2, 30)], &[])),
            (Join(2), Gives(&[((2, 1, 2, 1), &[2], 4, 30)], &[])),
        ],
    ),
    // a match that was touched and is as before has no rule, and keeps its number
    (
        TOUCHES,
        &[
            (Join(1), NOTHING),
            (
                Packet((1, 1, 2, 1)),
                Gives(&[((1, 1, 2, 1), &[1], 2, 30)], &[]),
            ),
            (Packet((1, 1, 2, 1)), NOTHING),
            (Join(1), Gives(&[((1, 1, 2, 1), &[1], 2, 30)], &[])),
            (Expire((1, 1, 2, 1), 3), NOTHING),
            (Expire((1, 1, 2, 1), 2), NOTHING),
            (Join(1), NOTHING),
        ],
    ),
];

const REFUSED: &[Scene] = &[
    // an element that the network lacks; and no rule of the program ends
    (
        FIREWALL,
        &[
            (Join(3), Stranger),
            (Packet((3, 1, 2, 1)), Stranger),
            (Packet((1, 9, 2, 1)), Stranger),
            (Packet((1, 1, 9, 1)), Stranger),
            (Packet((1, 1, 2, 3)), Stranger),
            (Expire((1, 1, 2, 1), 0), Stranger),
            (
                Packet((1, 1, 2, 1)),
                Gives(&[((1, 1, 2, 1), &[2], 0, 0)], &[Out::Port(2)]),
            ),
            (Expire((1, 1, 2, 1), 0), Stranger),
        ],
    ),
    // what is refused has no number
    (
        FIREWALL_FOR_A_TIME,
        &[
            (Expire((3, 1, 2, 1), 0), Stranger),
            (Expire((1, 9, 2, 1), 0), Stranger),
            (Expire((1, 1, 9, 1), 0), Stranger),
            (Expire((1, 1, 2, 3), 0), Stranger),
            (
                Packet((1, 1, 2, 1)),
                Gives(&[((1, 1, 2, 1), &[2], 1, 30)], &[Out::Port(2)]),
            ),
        ],
    ),
];

/// A history of one entry.
const FULL: &[Row] = &[
    (Join(3), Stranger),
    (Join(1), NOTHING),
    (Packet((1, 1, 2, 1)), Full),
    (Packet((1, 9, 2, 1)), Stranger),
    (Join(1), Full),
];

#[test]
fn entries_are_answered(rt: HostRuntime) -> Result<(), Fail> {
    run_all(&rt, rt.alloc(), ENTRIES)?;
    Ok(())
}

#[test]
fn rules_end(rt: HostRuntime) -> Result<(), Fail> {
    run_all(&rt, rt.alloc(), ENDING)?;
    Ok(())
}

#[test]
fn entries_are_refused_for_the_first_reason(rt: HostRuntime) -> Result<(), Fail> {
    run_all(&rt, rt.alloc(), REFUSED)?;
    runs(&rt, rt.alloc(), FIREWALL, 1, FULL)?;
    Ok(())
}

#[test]
fn each_match_has_its_mark(rt: HostRuntime) -> Result<(), Fail> {
    let mut marks = Marks::try_new(rt.alloc())?;
    let there = match_of((1, 1, 2, 1));
    let back = match_of((1, 2, 1, 1));
    assert_eq!(rt; marks.get(&there), 0);
    marks.set(&there, 7)?;
    marks.set(&back, 8)?;
    marks.set(&there, 9)?;
    assert_eq!(rt; marks.get(&there), 9);
    assert_eq!(rt; marks.get(&back), 8);
    assert_eq!(rt; marks.get(&match_of((1, 1, 2, 2))), 0);
    Ok(())
}
