//! Seats act on threads of their own. Then the history is held against what each seat entered, and its replay against what each
//! was told.
ghost use Rattle.std.specs.Prelude.{◌≡◌, ◌<◌, ◌≤◌, [], All, length, vec_len, IfOk, IfSome};
ghost use Rattle.csdn_core.specs.Network.{IsNetwork};
ghost use Rattle.shared_hall.specs.Views.{seat_of};

use csdn_core::program::Program;
use csdn_history::entry::Entry;
use csdn_history::reply::{Reply, Rule};
use csdn_read::read_program;
use csdn_run::{RunRefusal, Runtime};
use net_structs::network::Network;
use net_structs::read::NetParts;
use shared_hall::{Hall, HallSeat};
use sqlite_items::Items;
use std::alloc::{AllocError, Global};
use std::process::Abort;
use std::sync::{Mutex, Wait};
use std::test::Fail;
use std::thread::{Threads, for_each_mut};

/// What a seat entered, with what it was told, and how often it was refused.
#[derive(Drop)]
struct Told {
    entered: Vec<(Entry, Reply)>,
    strangers: u64,
    full: u64,
}

/// Each packet of a match changes whether the match goes to port 2, so what is told depends on all that was entered before.
const TURNS: &[u8] =
    b"pktIn(s, src->dst, i) { if s.ft(src->dst, i->prt(2)) { s.uninstall(src->dst, i->prt(2)); } else { s.install(src->dst, i->prt(2)); } }";

/// How often a seat acts at most.
const MOST: u64 = 1 << 40;

/// Two switches, two hosts and two ports.
fn network_for(alloc: Global, program: &Program) -> Result<Option<Network>, AllocError>
    ensures { IfOk result (λ found. IfSome found (λ network. IsNetwork program.now network)) }
{
    let parts = NetParts {
        sw: Items::from_slice(alloc, &[1, 2])?,
        ho: Items::from_slice(alloc, &[1, 2])?,
        pr: Items::from_slice(alloc, &[1, 2])?,
        consts: Items::new(alloc),
        rows: Items::new(alloc),
    };
    match Network::try_new(alloc, program, parts) {
        Ok(network) => Ok(Some(network)),
        Err(_) => Ok(None),
    }
}

/// The runtime of the program over this network; none where there is none.
fn runtime_of(alloc: Global, room: u32) -> Result<Option<Runtime>, AllocError>
    requires { (1 ≤ room) × (room ≤ 4194304) }
    ensures { IfOk result (λ found. IfSome found (λ runtime. runtime.history ≡ [])) }
{
    let Ok(program) = read_program(alloc, TURNS) else {
        return Ok(None);
    };
    let Some(network) = network_for(alloc, &program)? else {
        return Ok(None);
    };
    if !network.is_servable() {
        return Ok(None);
    }
    let runtime = Runtime::try_new(alloc, program, network, room)?;
    Ok(Some(runtime))
}

/// What a seat enters at its acts, one after another: a join, a packet, a join of a switch that isn't there, and a packet.
fn nth_entry(seat: u32, n: u64) -> Entry
    ensures { seat_of result ≡ seat }
{
    match n % 4 {
        0 => Entry::Join {
            seat,
            session: 1,
            s: 1,
        },
        2 => Entry::Join {
            seat,
            session: 1,
            s: 9,
        },
        _ => Entry::Packet {
            seat,
            session: 1,
            s: 1,
            a: 1,
            b: 2,
            i: 1,
        },
    }
}

fn number_of(entry: &Entry) -> u32 {
    match *entry {
        Entry::Join { seat, .. } | Entry::Packet { seat, .. } | Entry::Expire { seat, .. } => seat,
    }
}

fn put(told: &mut Told, entry: Entry, answer: Result<Reply, RunRefusal>) -> Result<(), AllocError> {
    match answer {
        Ok(reply) => {
            if told.entered.push((entry, reply)).is_err() {
                return Err(AllocError);
            }
        }
        Err(RunRefusal::Stranger) => told.strangers = told.strangers.wrapping_add(1),
        Err(RunRefusal::HistoryFull) => told.full = told.full.wrapping_add(1),
        Err(RunRefusal::Memory) => return Err(AllocError),
    }
    Ok(())
}

fn act_once<R: Wait>(rt: &R, hall: &Hall, seat: &mut HallSeat, n: u64, told: &mut Told)
    requires { seat.old.hall ≡ hall.now }
    ensures { seat.new.hall ≡ hall.now }
{
    if seat.acts() >= MOST {
        return;
    }
    let entry = nth_entry(seat.number(), n);
    let answer = hall.act(rt, seat, &entry);
    // what isn't put is missed when the history is held against it
    let _put = put(told, entry, answer);
}

fn act_often<R: Wait>(rt: &R, hall: &Hall, seat: &mut HallSeat, acts: u64, told: &Mutex<Told>)
    requires { seat.old.hall ≡ hall.now }
    ensures { seat.new.hall ≡ hall.now }
{
    for n in 0..acts {
        act_once(rt, hall, seat, n, &mut told.lock(rt));
    }
}

fn act_if_any<R: Wait>(
    rt: &R,
    hall: &Hall,
    seat: &mut HallSeat,
    acts: u64,
    told: Option<&Mutex<Told>>,
)
    requires { seat.old.hall ≡ hall.now }
    ensures { seat.new.hall ≡ hall.now }
{
    if let Some(told) = told {
        act_often(rt, hall, seat, acts, told);
    }
}

/// Each seat acts so often, on a thread of its own where one can be made.
fn act_on_threads<R: Threads + Wait + Sync>(
    rt: &R,
    hall: &Hall,
    seats: &mut [HallSeat],
    acts: u64,
    told: &[Mutex<Told>],
)
    requires { All (λ s. s.hall ≡ hall.now) seats.old }
    ensures { All (λ s. s.hall ≡ hall.now) seats.new }
{
    for_each_mut(
        rt,
        seats,
        64,
        &|i, seat: &mut HallSeat|
            requires { seat.now.hall ≡ hall.now }
            ensures { seat.exit.now.hall ≡ hall.entry.now }
        { act_if_any(rt, hall, seat, acts, told.get(i)) },
    );
}

fn act_in_row<R: Threads + Wait + Sync>(
    rt: &R,
    hall: &Hall,
    seats: &mut Vec<HallSeat>,
    acts: u64,
    told: &[Mutex<Told>],
)
    requires { All (λ s. s.hall ≡ hall.now) seats.old.items }
    ensures of { All (λ s. s.hall ≡ hall.now) seats.new.items }
    ensures len { length seats.new.items ≡ length seats.old.items }
{
    act_on_threads(rt, hall, seats.as_mut_slice(), acts, told);
}

/// Opens a hall, lets all its seats act, and closes it; none for want of memory.
fn ran<R: Threads + Wait + Sync>(
    rt: &R,
    alloc: Global,
    runtime: Runtime,
    seats: u32,
    acts: u64,
    told: &[Mutex<Told>],
) -> Option<Runtime>
    requires seats { (0 < seats) × (seats ≤ 64) }
    requires new { runtime.history ≡ [] }
{
    let Ok((hall, mut row)) = Hall::try_open(alloc, runtime, seats) else {
        return None;
    };
    act_in_row(rt, &hall, &mut row, acts, told);
    Some(hall.close(row))
}

fn blank_rows(alloc: Global, seats: u32) -> Result<Vec<Mutex<Told>>, AllocError> {
    let mut rows = Vec::new(alloc);
    for _ in 0..seats {
        let told = Told {
            entered: Vec::new(alloc),
            strangers: 0,
            full: 0,
        };
        if rows.push(Mutex::new(told)).is_err() {
            return Err(AllocError);
        }
    }
    Ok(rows)
}

fn is_rule(one: &Rule, other: &Rule) -> bool {
    one.key == other.key
        && one.ports.as_slice() == other.ports.as_slice()
        && one.cookie == other.cookie
        && one.idle == other.idle
}

fn is_reply(one: &Reply, other: &Reply) -> bool {
    for (rule, twin) in one
        .rules
        .as_slice()
        .iter()
        .zip(other.rules.as_slice().iter())
    {
        if !is_rule(rule, twin) {
            return false;
        }
    }
    one.rules.len() == other.rules.len() && one.outs.as_slice() == other.outs.as_slice()
}

/// What is answered to the entries of a history, one after another; those that are refused are left out.
fn replies_to(
    alloc: Global,
    runtime: &mut Runtime,
    history: &[Entry],
) -> Result<Vec<Reply>, AllocError> {
    let mut replies = Vec::new(alloc);
    for entry in history {
        if let Ok(reply) = runtime.apply(entry) {
            if replies.push(reply).is_err() {
                return Err(AllocError);
            }
        }
    }
    Ok(replies)
}

/// A seat's entries in the history are those that it entered, in its order, and their replies in the replay are what it was told.
fn is_told(seat: u32, told: &Told, history: &[Entry], replies: &[Reply]) -> bool {
    let mut rest = told.entered.iter();
    for (entry, reply) in history.iter().zip(replies.iter()) {
        if number_of(entry) == seat {
            match rest.next() {
                Some((entered, answer)) => {
                    if entered != entry || !is_reply(answer, reply) {
                        return false;
                    }
                }
                None => return false,
            }
        }
    }
    rest.next().is_none()
}

/// How often the seats were refused: for an element that isn't there, and for want of room.
#[derive(Clone, Copy, Debug, PartialEq, Eq)]
struct Refused {
    strangers: u64,
    full: u64,
}

/// Each seat was told what the history and its replay say; gives how often the seats were refused.
fn refused_after<R: Wait + Abort>(
    rt: &R,
    history: &[Entry],
    replies: &[Reply],
    rows: &[Mutex<Told>],
) -> Refused {
    let mut refused = Refused {
        strangers: 0,
        full: 0,
    };
    let mut seat = 0u32;
    for row in rows {
        let told = row.lock(rt);
        assert!(rt; is_told(seat, &told, history, replies), "seat {seat}");
        seat = seat.wrapping_add(1);
        refused.strangers = refused.strangers.wrapping_add(told.strangers);
        refused.full = refused.full.wrapping_add(told.full);
    }
    refused
}

/// Seats act so often over a history of this room. The history and its replay are held against what they were told; gives how
/// often they were refused, and how long the history is.
fn refused_among<R: Threads + Wait + Sync + Abort>(
    rt: &R,
    alloc: Global,
    room: u32,
    seats: u32,
    acts: u64,
) -> Result<Option<(Refused, usize)>, AllocError>
    requires room { (1 ≤ room) × (room ≤ 4194304) }
    requires seats { (0 < seats) × (seats ≤ 64) }
{
    let Some(runtime) = runtime_of(alloc, room)? else {
        return Ok(None);
    };
    let Some(mut again) = runtime_of(alloc, room)? else {
        return Ok(None);
    };
    let told = blank_rows(alloc, seats)?;
    let Some(left) = ran(rt, alloc, runtime, seats, acts, told.as_slice()) else {
        return Ok(None);
    };
    let history = left.history();
    let replies = replies_to(alloc, &mut again, history)?;
    assert!(rt; replies.len() == history.len());
    let refused = refused_after(rt, history, replies.as_slice(), told.as_slice());
    Ok(Some((refused, history.len())))
}

fn agrees<R: Threads + Wait + Sync + Abort>(
    rt: &R,
    alloc: Global,
    room: u32,
    seats: u32,
    acts: u64,
    wanted: (Refused, usize),
) -> Result<(), AllocError>
    requires room { (1 ≤ room) × (room ≤ 4194304) }
    requires seats { (0 < seats) × (seats ≤ 64) }
{
    let found = refused_among(rt, alloc, room, seats, acts)?;
    assert!(rt; found == Some(wanted), "{seats} seats, {room} entries");
    Ok(())
}

/// Refused so often for an element that isn't there, and for want of room.
const fn counted(strangers: u64, full: u64) -> Refused {
    Refused { strangers, full }
}

#[test]
fn two_seats_are_told_what_the_history_says(rt: HostRuntime) -> Result<(), Fail> {
    agrees(&rt, rt.alloc(), 4194304, 2, 400, (counted(200, 0), 600))?;
    Ok(())
}

#[test]
fn eight_seats_are_told_what_the_history_says(rt: HostRuntime) -> Result<(), Fail> {
    agrees(&rt, rt.alloc(), 4194304, 8, 200, (counted(400, 0), 1200))?;
    Ok(())
}

/// In each four acts one is of a switch that isn't there, which is the reason that is told first.
#[test]
fn a_full_history_refuses(rt: HostRuntime) -> Result<(), Fail> {
    agrees(&rt, rt.alloc(), 100, 2, 100, (counted(50, 50), 100))?;
    agrees(&rt, rt.alloc(), 1, 8, 4, (counted(8, 23), 1))?;
    Ok(())
}
