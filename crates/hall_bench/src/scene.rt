//! What is entered, and over what.
ghost use Rattle.std.specs.Prelude.{◌≡◌, ◌<◌, ◌≤◌, [], All, IfOk, IfSome};
ghost use Rattle.csdn_core.specs.Network.{IsNetwork};
ghost use Rattle.shared_hall.specs.Views.{seat_of};

use csdn_core::program::Program;
use csdn_history::entry::Entry;
use csdn_read::read_program;
use csdn_run::Runtime;
use net_structs::network::Network;
use net_structs::read::NetParts;
use sqlite_items::Items;
use std::alloc::{AllocError, Global};

/// Each packet of a match changes whether the match goes to port 2.
const TURNS: &[u8] =
    b"pktIn(s, src->dst, i) { if s.ft(src->dst, i->prt(2)) { s.uninstall(src->dst, i->prt(2)); } else { s.install(src->dst, i->prt(2)); } }";

/// The most entries that a history may have.
const ROOM: u32 = 4194304;

/// 64 switches, two hosts and two ports.
fn network_of(alloc: Global, program: &Program) -> Result<Option<Network>, AllocError>
    ensures { IfOk result (λ found. IfSome found (λ network. IsNetwork program.now network)) }
{
    let mut sw = Items::new(alloc);
    for s in 0..64 {
        sw.push(s)?;
    }
    let parts = NetParts {
        sw,
        ho: Items::from_slice(alloc, &[1, 2])?,
        pr: Items::from_slice(alloc, &[1, 2])?,
        consts: Items::new(alloc),
        rows: Items::new(alloc),
    };
    match Network::try_new(alloc, program, parts) {
        Ok(network) => Ok(Some(network)),
        Err(_) => Ok(None),
    }
}

/// A runtime that has entered nothing; none for want of memory.
pub fn runtime_of(alloc: Global) -> Option<Runtime>
    ensures { IfSome result (λ runtime. runtime.history ≡ []) }
{
    let program = read_program(alloc, TURNS).ok()?;
    let network = network_of(alloc, &program).ok()??;
    if !network.is_servable() {
        return None;
    }
    Runtime::try_new(alloc, program, network, ROOM).ok()
}

/// What a seat enters, each time: a packet at the switch of its number.
pub fn entry_of(seat: u32) -> Entry
    ensures { seat_of result ≡ seat }
{
    Entry::Packet {
        seat,
        session: 1,
        s: (seat % 64) as u64,
        a: 1,
        b: 2,
        i: 1,
    }
}
