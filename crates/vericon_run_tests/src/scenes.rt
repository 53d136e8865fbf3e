//! Programs, networks, and what switches send.
use std::alloc::{AllocError, Global};
use vericon_edge::fault_plan::FaultPlan;
use vericon_links::mem_link::LinkScript;

/// The programs of the tests.
#[derive(Clone, Copy)]
pub enum Program {
    /// A firewall, which is proven at level 1.
    Firewall,
    /// A learning switch, which is proven at level 0.
    Learning,
    /// A relation that must stay empty, and a handler that fills it.
    Armed,
    /// Its topology invariant asks for one host.
    OneHost,
    /// Its topology invariant can't be decided.
    Linked,
    /// No network meets its topology invariant.
    Unmet,
    /// No program.
    Odd,
}

const FIREWALL: &[u8] =
    b"rel tr(SW, HO); safety guarded: forall S:SW, A:HO, B:HO. S.sent(A->B, prt(2)->prt(1)) -> tr(S, A); pktIn(s, src->dst, prt(1)) { s.forward(src->dst, prt(1)->prt(2)); tr.insert(s, dst); s.install(src->dst, prt(1)->prt(2)); } pktIn(s, src->dst, prt(2)) { if tr(s, src) { s.forward(src->dst, prt(2)->prt(1)); s.install(src->dst, prt(2)->prt(1)); } }";

const LEARNING: &[u8] =
    b"rel conn(SW, PR, HO); topology two: not prt(1) = prt(2); trans no_black_hole: forall S:SW, A:HO, B:HO, I:PR. S.rcv_this(A->B, I) -> (exists O:PR. S.sent(A->B, I->O)); pktIn(s, src->dst, i) { conn.insert(s, i, src); pick o:PR where conn(s, o, dst) { s.install(src->dst, i->o); s.forward(src->dst, i->o); } else { s.flood(src->dst, i); } }";

const ARMED: &[u8] =
    b"rel armed(); safety A: not armed(); pktIn(s, src->dst, i) { armed.insert(); }";

const ONE_HOST: &[u8] =
    b"rel armed(); topology one: forall X:HO, Y:HO. X = Y; safety A: not armed(); pktIn(s, src->dst, i) { skip; }";

const LINKED: &[u8] =
    b"static link(SW, PR, HO); topology T: forall S:SW. exists H:HO. link(S, prt(1), H);";

const UNMET: &[u8] = b"topology T: forall X:HO. not X = X;";

pub fn program_text(program: Program) -> &'static [u8] {
    match program {
        Program::Firewall => FIREWALL,
        Program::Learning => LEARNING,
        Program::Armed => ARMED,
        Program::OneHost => ONE_HOST,
        Program::Linked => LINKED,
        Program::Unmet => UNMET,
        Program::Odd => b"",
    }
}

/// The networks of the tests: all but the last have one switch.
#[derive(Clone, Copy)]
pub enum Net {
    /// Two hosts and two ports.
    Two,
    /// .. with a state.
    WithState,
    /// .. of which a host has a number that OpenFlow has no room for.
    WithFarHost,
    /// .. without port 2.
    OnePort,
}

pub fn net_text(net: Net) -> &'static [u8] {
    match net {
        Net::Two => b"vericon-net 1\nsw 1\nho 1 2\npr 1 2\nend\n",
        Net::WithState => b"vericon-net 1\nsw 1\nho 1 2\npr 1 2\nstate\nend\n",
        Net::WithFarHost => b"vericon-net 1\nsw 1\nho 1 281474976710656\npr 1 2\nend\n",
        Net::OnePort => b"vericon-net 1\nsw 1\nho 1 2\npr 1\nend\n",
    }
}

/// HELLO; FEATURES_REPLY of switch 1.
const JOINS: &[u8] = &[
    1, 0, 0, 8, 0, 0, 0, 0, 1, 6, 0, 32, 0, 0, 0, 2, 0, 0, 0, 0, 0, 0, 0, 1, 0, 0, 1, 0, 1, 0, 0,
    0, 0, 0, 0, 0, 0, 0, 15, 255,
];

/// A packet from host 1 to host 2 on port 1, with buffer 5.
const PACKET: &[u8] = &[
    1, 10, 0, 32, 0, 0, 0, 0, 0, 0, 0, 5, 0, 14, 0, 1, 0, 0, 0, 0, 0, 0, 0, 2, 0, 0, 0, 0, 0, 1, 8,
    0,
];

/// What a link does whose switch joins and sends the packet so often, in pieces that cut headers. The plan says which of its writes fail.
pub fn script(alloc: Global, packets: usize, writes: FaultPlan) -> Result<LinkScript, AllocError> {
    let mut gives = Vec::new(alloc);
    gives.extend_from_slice(JOINS)?;
    for _ in 0..packets {
        gives.extend_from_slice(PACKET)?;
    }
    Ok(LinkScript::new(gives, 5, 7, FaultPlan::none(alloc), writes))
}

/// A plan in which the call of this number fails, counted from 0; none where there is no number.
pub fn plan(alloc: Global, failing: Option<u64>) -> Result<FaultPlan, AllocError> {
    let Some(number) = failing else {
        return Ok(FaultPlan::none(alloc));
    };
    let mut calls = Vec::new(alloc);
    calls.push(number)?;
    Ok(FaultPlan::new(calls))
}
