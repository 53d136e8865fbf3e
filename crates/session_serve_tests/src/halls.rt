//! Halls of a firewall, and sessions that are served there.
ghost use Rattle.std.specs.Prelude.{◌≡◌, ◌≤◌, [], false, IfOk, IfSome, vec_capacity};
ghost use Rattle.csdn_core.specs.Network.{IsNetwork};
ghost use Rattle.vericon_links.specs.Links.{IsEmptyWhereTold};

use crate::cases::{Case, bytes_of};
use csdn_core::program::Program;
use csdn_read::read_program;
use csdn_run::Runtime;
use net_structs::network::Network;
use net_structs::read::NetParts;
use session_serve::{Ended, serve};
use shared_hall::{Hall, HallSeat};
use sqlite_items::Items;
use std::alloc::{AllocError, Global};
use std::sync::Wait;
use vericon_edge::fault_plan::FaultPlan;
use vericon_links::link::Link;
use vericon_links::mem_link::{LinkScript, MemLink};

const FIREWALL: &[u8] =
    b"rel tr(SW, HO); safety guarded: forall S:SW, A:HO, B:HO. S.sent(A->B, prt(2)->prt(1)) -> tr(S, A); pktIn(s, src->dst, prt(1)) { s.forward(src->dst, prt(1)->prt(2)); tr.insert(s, dst); s.install(src->dst, prt(1)->prt(2)); } pktIn(s, src->dst, prt(2)) { if tr(s, src) { s.forward(src->dst, prt(2)->prt(1)); s.install(src->dst, prt(2)->prt(1)); } }";

/// One switch, two hosts and two ports.
fn network_for(alloc: Global, program: &Program) -> Result<Option<Network>, AllocError>
    ensures { IfOk result (λ found. IfSome found (λ network. IsNetwork program.now network)) }
{
    let parts = NetParts {
        sw: Items::from_slice(alloc, &[1])?,
        ho: Items::from_slice(alloc, &[1, 2])?,
        pr: Items::from_slice(alloc, &[1, 2])?,
        consts: Items::new(alloc),
        rows: Items::new(alloc),
    };
    match Network::try_new(alloc, program, parts) {
        Ok(network) => Ok(Some(network)),
        Err(_) => Ok(None),
    }
}

/// A hall of a firewall with one seat, and room to close it.
pub struct Scene {
    hall: Hall,
    seat: HallSeat,
    row: Vec<HallSeat>,
    ghost here: { seat.hall ≡ hall },
    ghost one: { hall.seats ≡ 1 },
    ghost empty: { row.items ≡ [] },
    ghost room: { 1 ≤ vec_capacity row },
}

// A scene ends as a hall does.
impl Drop for Scene {
    fn drop(self) {
        let Scene {
            hall,
            seat,
            mut row,
        } = self;
        row.push_reserved(seat);
        let _runtime = hall.close(row);
    }
}

/// A hall whose history has this room; none for want of memory.
pub fn firewall(alloc: Global, room: u32) -> Option<Scene> {
    let Ok(program) = read_program(alloc, FIREWALL) else {
        return None;
    };
    let Ok(Some(network)) = network_for(alloc, &program) else {
        return None;
    };
    if !network.is_servable() {
        return None;
    }
    let Ok(runtime) = Runtime::try_new(alloc, program, network, room.clamp(1, 4194304)) else {
        return None;
    };
    open(alloc, runtime)
}

fn open(alloc: Global, runtime: Runtime) -> Option<Scene> {
    if !runtime.history().is_empty() {
        return None;
    }
    let Ok(row) = Vec::with_capacity(alloc, 1) else {
        return None;
    };
    let Ok((hall, mut seats)) = Hall::try_open(alloc, runtime, 1) else {
        return None;
    };
    let Some(seat) = seats.pop() else {
        unreachable!()
    };
    Some(Scene { hall, seat, row })
}

fn plan(alloc: Global, calls: &[u64]) -> Result<FaultPlan, AllocError> {
    let mut failing = Vec::new(alloc);
    failing.extend_from_slice(calls)?;
    Ok(FaultPlan::new(failing))
}

/// Serves a case, and gives its link back; none for want of memory.
pub fn served<R: Wait>(
    rt: &R,
    alloc: Global,
    scene: &mut Scene,
    case: &Case,
) -> Option<(Ended, MemLink)> {
    let Ok(gives) = bytes_of(alloc, case.sent) else {
        return None;
    };
    let (Ok(reads), Ok(writes)) = (plan(alloc, case.reads), plan(alloc, case.writes)) else {
        return None;
    };
    let script = LinkScript::new(
        gives,
        case.most_read.max(1),
        case.most_written.max(1),
        reads,
        writes,
    );
    let link = MemLink::new(alloc, script);
    serve_link(rt, alloc, scene, link, case.number, case.most)
}

/// Serves a link that is new.
pub fn serve_link<R: Wait>(
    rt: &R,
    alloc: Global,
    scene: &mut Scene,
    mut link: MemLink,
    number: u32,
    most: u64,
) -> Option<(Ended, MemLink)> {
    if link.taken() != 0 || !link.written().is_empty() || link.is_closed() {
        return None;
    }
    let ended = serve_on(rt, alloc, scene, &mut link, number, most)?;
    Some((ended, link))
}

/// Serves any link that is new.
pub fn serve_on<R: Wait, K: Link>(
    rt: &R,
    alloc: Global,
    scene: &mut Scene,
    link: &mut K,
    number: u32,
    most: u64,
) -> Option<Ended>
    requires taken { IsEmptyWhereTold (K.taken link.old) }
    requires written { IsEmptyWhereTold (K.written link.old) }
    requires closed { K.closed link.old ≡ false }
{
    let Scene { hall, seat, .. } = scene;
    if seat.acts() >= 1 << 55 {
        return None;
    }
    Some(serve(rt, alloc, link, number, hall, seat, most.clamp(1, 1 << 39)))
}
