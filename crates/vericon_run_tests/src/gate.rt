//! Links of which one waits until the other was answered.

use std::sync::{Arc, Mutex, Wait};
use std::thread;
use vericon_edge::fault::Failed;
use vericon_links::link::{Got, Link};
use vericon_links::listener::{Arrival, Listener};

const HELLO: [u8; 8] = [1, 0, 0, 8, 0, 0, 0, 0];

/// Gives HELLO and closes. Where it waits, it closes once the gate is open. Else it opens the gate at its second write, which is the
/// answer to its HELLO.
#[derive(Drop)]
pub struct GateLink<R: Wait> {
    rt: R,
    gate: Arc<Mutex<bool>>,
    waits: bool,
    reads: u64,
    writes: u64,
    read_faults: u64,
    closed: bool,
    is_shut: bool,
}

impl<R: Wait> GateLink<R> {
    ghost use Rattle.std.specs.Prelude.{◌≡◌, false};

    pub fn new(rt: R, gate: Arc<Mutex<bool>>, waits: bool) -> GateLink<R>
        ensures { (result.closed ≡ false) × (result.is_shut ≡ false) × (result.read_faults ≡ 0) }
    {
        GateLink {
            rt,
            gate,
            waits,
            reads: 0,
            writes: 0,
            read_faults: 0,
            closed: false,
            is_shut: false,
        }
    }

    // Looks at the gate once a turn, at most so often.
    fn pass(&self) -> bool {
        for _ in 0..10_000_000u32 {
            if *self.gate.lock(&self.rt) {
                return true;
            }
            thread::yield_now();
        }
        false
    }
}

impl<R: Wait> Link for GateLink<R> {
    ghost use Rattle.std.specs.Prelude.{None};

    ghost taken = { λ _. None };

    ghost written = { λ _. None };

    ghost closed = { λ s. s.closed };

    ghost is_shut = { λ s. s.is_shut };

    ghost read_faults = { λ s. s.read_faults };

    ghost write_faults = { λ _. 0 };

    fn read(&mut self, into: &mut [u8]) -> Result<Got, Failed> {
        if self.reads > 0 {
            if self.waits && !self.pass() {
                self.read_faults = self.read_faults.saturating_add(1);
                return Err(Failed);
            }
            self.closed = true;
            return Ok(Got::Closed);
        }
        self.reads = 1;
        if into.len() < 8 {
            into[0] = HELLO[0];
            return Ok(Got::Bytes(1));
        }
        into[..8].copy_from_slice(&HELLO);
        Ok(Got::Bytes(8))
    }

    fn write(&mut self, piece: &[u8]) -> Result<usize, Failed> {
        self.writes = self.writes.saturating_add(1);
        if !self.waits && self.writes > 1 {
            *self.gate.lock(&self.rt) = true;
        }
        Ok(piece.len())
    }

    fn shut(&mut self) {
        self.is_shut = true;
    }
}

/// Gives these links, the last of them first.
#[derive(Drop)]
pub struct GateListener<R: Wait + Send + Drop> {
    links: Vec<GateLink<R>>,
    uses: u64,
    pub came: u64,
    pub back: u64,
    ended: bool,
}

impl<R: Wait + Send + Drop> GateListener<R> {
    ghost use Rattle.std.specs.Prelude.{◌≡◌};

    pub fn new(links: Vec<GateLink<R>>) -> GateListener<R>
        ensures { (result.came ≡ 0) × (result.back ≡ 0) }
    {
        GateListener {
            links,
            uses: 0,
            came: 0,
            back: 0,
            ended: false,
        }
    }
}

impl<R: Wait + Send + Drop> Listener for GateListener<R> {
    ghost use Rattle.std.specs.Prelude.{None};

    type Link = GateLink<R>;

    ghost uses = { λ s. s.uses };

    ghost came = { λ s. s.came };

    ghost back = { λ s. s.back };

    ghost ended = { λ s. s.ended };

    ghost faults = { λ _. 0 };

    ghost given = { λ _. None };

    fn listen(&mut self, _port: u16) -> Result<(), Failed> {
        self.uses = self.uses.saturating_add(1);
        Ok(())
    }

    fn accept(&mut self) -> Result<Arrival<GateLink<R>>, Failed> {
        self.uses = self.uses.saturating_add(1);
        let Some(link) = self.links.pop() else {
            self.ended = true;
            return Ok(Arrival::Closed);
        };
        self.came += 1;
        let GateLink {
            rt,
            gate,
            waits,
            ..
        } = link;
        Ok(Arrival::Came(GateLink::new(rt, gate, waits)))
    }

    fn give_back(&mut self, _number: u32, link: GateLink<R>) {
        drop(link);
        self.back += 1;
    }
}
