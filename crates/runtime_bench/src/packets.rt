//! A runtime that hears packets of one switch.
ghost use Rattle.std.specs.Prelude.{IfOk};
ghost use Rattle.csdn_core.specs.Network.{IsNetwork};

use crate::drawing::Drawing;
use crate::trouble::Trouble;
use csdn_core::program::Program;
use csdn_history::entry::Entry;
use csdn_run::Runtime;
use net_structs::network::Network;
use net_structs::read::NetParts;
use sqlite_items::Items;
use std::alloc::{AllocError, Global};

/// How many packets there are, and how many hosts and ports the network has.
#[derive(Drop)]
pub struct Sizes {
    pub packets: u32,
    pub hosts: u32,
    pub ports: u32,
}

/// How many rules and outs came.
#[derive(Drop)]
pub struct Counts {
    pub rules: u64,
    pub outs: u64,
}

/// The numbers from 1 to `most`.
fn numbers_to(alloc: Global, most: u32) -> Result<Items<u64>, AllocError> {
    let mut numbers = Items::new(alloc);
    for number in 0..most {
        numbers.push(u64::from(number) + 1)?;
    }
    Ok(numbers)
}

/// A network of one switch, without constants and static relations.
pub fn network_of(alloc: Global, program: &Program, sizes: &Sizes) -> Result<Network, Trouble>
    ensures { IfOk result (IsNetwork program.now) }
{
    let parts = NetParts {
        sw: numbers_to(alloc, 1)?,
        ho: numbers_to(alloc, sizes.hosts)?,
        pr: numbers_to(alloc, sizes.ports)?,
        consts: Items::new(alloc),
        rows: Items::new(alloc),
    };
    Ok(Network::try_new(alloc, program, parts)?)
}

/// A packet from a drawn host, at its port, to a drawn host.
fn drawn_packet(drawing: &mut Drawing, sizes: &Sizes) -> Entry {
    let source = drawing.up_to(sizes.hosts);
    let destination = drawing.up_to(sizes.hosts);
    let port = source % sizes.ports.max(1);
    Entry::Packet {
        seat: 0,
        session: 1,
        s: 1,
        a: u64::from(source),
        b: u64::from(destination),
        i: u64::from(port) + 1,
    }
}

/// What comes of the packets, one after another.
pub fn replies_of(
    alloc: Global,
    program: Program,
    network: Network,
    sizes: &Sizes,
) -> Result<Counts, Trouble>
    requires { IsNetwork program network }
{
    if !network.is_servable() {
        return Err(Trouble::Unservable);
    }
    let mut runtime = Runtime::try_new(alloc, program, network, 1 << 22)?;
    let mut drawing = Drawing::new();
    let mut counts = Counts { rules: 0, outs: 0 };
    for _ in 0..sizes.packets {
        let reply = runtime.apply(&drawn_packet(&mut drawing, sizes))?;
        counts.rules = counts.rules.saturating_add(reply.rules.len() as u64);
        counts.outs = counts.outs.saturating_add(reply.outs.len() as u64);
    }
    Ok(counts)
}
