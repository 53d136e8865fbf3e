//! A hall of the firewall, with one seat.
ghost use Rattle.std.specs.Prelude.{◌≡◌, ◌≤◌, [], IfOk, IfSome, vec_capacity};
ghost use Rattle.csdn_core.specs.Network.{IsNetwork};

use csdn_core::program::Program;
use csdn_read::read_program;
use csdn_run::Runtime;
use net_structs::network::Network;
use net_structs::read::NetParts;
use session_serve::{SessionEnd, serve};
use shared_hall::{Hall, HallSeat};
use sqlite_items::Items;
use std::alloc::{AllocError, Global};
use std::sync::Wait;
use vericon_links::mem_link::MemLink;

const FIREWALL: &[u8] =
    b"rel tr(SW, HO); safety guarded: forall S:SW, A:HO, B:HO. S.sent(A->B, prt(2)->prt(1)) -> tr(S, A); pktIn(s, src->dst, prt(1)) { s.forward(src->dst, prt(1)->prt(2)); tr.insert(s, dst); s.install(src->dst, prt(1)->prt(2)); } pktIn(s, src->dst, prt(2)) { if tr(s, src) { s.forward(src->dst, prt(2)->prt(1)); s.install(src->dst, prt(2)->prt(1)); } }";

/// One switch, two hosts and two ports.
fn network_for(alloc: Global, program: &Program) -> Result<Option<Network>, AllocError>
    ensures { IfOk result (λ found. IfSome found (λ network. IsNetwork program.now network)) }
{
    let parts = NetParts {
        sw: Items::from_slice(alloc, &[1])?,
        ho: Items::from_slice(alloc, &[1, 2])?,
        pr: Items::from_slice(alloc, &[1, 2])?,
        consts: Items::new(alloc),
        rows: Items::new(alloc),
    };
    match Network::try_new(alloc, program, parts) {
        Ok(network) => Ok(Some(network)),
        Err(_) => Ok(None),
    }
}

/// A hall of the firewall with one seat, and room to close it.
pub struct Scene {
    hall: Hall,
    seat: HallSeat,
    row: Vec<HallSeat>,
    ghost here: { seat.hall ≡ hall },
    ghost one: { hall.seats ≡ 1 },
    ghost empty: { row.items ≡ [] },
    ghost room: { 1 ≤ vec_capacity row },
}

// A scene ends as a hall does.
impl Drop for Scene {
    fn drop(self) {
        let Scene {
            hall,
            seat,
            mut row,
        } = self;
        row.push_reserved(seat);
        let _runtime = hall.close(row);
    }
}

impl Scene {
    /// Serves a link as session 1, and gives it back; none where it isn't new.
    pub fn serve<R: Wait>(
        &mut self,
        rt: &R,
        alloc: Global,
        mut link: MemLink,
    ) -> Option<(SessionEnd, MemLink)> {
        let Scene { hall, seat, .. } = self;
        if link.taken() != 0 || !link.written().is_empty() || link.is_closed() {
            return None;
        }
        if seat.acts() >= 1 << 55 {
            return None;
        }
        let ended = serve(rt, alloc, &mut link, 1, hall, seat, 1 << 39);
        Some((ended.end, link))
    }
}

/// A hall whose history has room for eight entries; none for want of memory.
pub fn firewall(alloc: Global) -> Option<Scene> {
    let Ok(program) = read_program(alloc, FIREWALL) else {
        return None;
    };
    let Ok(Some(network)) = network_for(alloc, &program) else {
        return None;
    };
    if !network.is_servable() {
        return None;
    }
    let Ok(runtime) = Runtime::try_new(alloc, program, network, 8) else {
        return None;
    };
    open(alloc, runtime)
}

fn open(alloc: Global, runtime: Runtime) -> Option<Scene> {
    if !runtime.history().is_empty() {
        return None;
    }
    let Ok(row) = Vec::with_capacity(alloc, 1) else {
        return None;
    };
    let Ok((hall, mut seats)) = Hall::try_open(alloc, runtime, 1) else {
        return None;
    };
    let Some(seat) = seats.pop() else {
        unreachable!()
    };
    Some(Scene { hall, seat, row })
}
