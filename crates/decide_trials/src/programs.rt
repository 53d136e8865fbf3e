//! The programs of the trials, and of which kind each is by the reason beside it: worked by hand from docs/DEFINITIONS.md, not
//! from what the program prints.

/// Of which kind a program is.
#[derive(Clone, Copy, Debug, PartialEq, Eq)]
pub enum Kind {
    /// Each of its conditions is valid and can be decided, and some network meets its topology invariants. Yes, and no case.
    Valid,
    /// A condition has a case in a network that is searched. A counterexample, and a case.
    Broken,
    /// Conditions have cases in larger networks alone. A counterexample, and no case.
    BrokenInLarge,
    /// A condition can't be decided, and none is broken. Unknown, and no case.
    Undecided,
    /// No network meets its topology invariants. That is answered, and none is found.
    NoNetwork,
}

/// A program and its kind.
pub struct Trial {
    pub kind: Kind,
    pub text: &'static str,
}

/// The programs that are tried, each with its kind; a comment says why it is of that.
pub const TRIALS: [Trial; 56] = [
    // nothing is there at the start, and each branch takes one out before it puts the other in
    Trial {
        kind: Kind::Valid,
        text: "rel on(); rel off(); safety one: not (on() and off()); pktIn(s, a->b, i) { if on() { on.remove(); off.insert(); } else { off.remove(); on.insert(); } }",
    },
    // off may be there when on is put in
    Trial {
        kind: Kind::Broken,
        text: "rel on(); rel off(); safety one: not (on() and off()); pktIn(s, a->b, i) { if on() { on.remove(); off.insert(); } else { on.insert(); } }",
    },
    // what comes into p comes into q first, and nothing leaves q
    Trial {
        kind: Kind::Valid,
        text: "rel p(HO); rel q(HO); safety sub: forall X:HO. p(X) -> q(X); pktIn(s, a->b, i) { q.insert(a); p.insert(a); }",
    },
    // a packet to another host: that is in p alone
    Trial {
        kind: Kind::Broken,
        text: "rel p(HO); rel q(HO); safety sub: forall X:HO. p(X) -> q(X); pktIn(s, a->b, i) { q.insert(a); p.insert(b); }",
    },
    // both directions are put in together
    Trial {
        kind: Kind::Valid,
        text: "rel r(HO, HO); safety symmetric: forall X:HO, Y:HO. r(X, Y) -> r(Y, X); pktIn(s, a->b, i) { r.insert(a, b); r.insert(b, a); }",
    },
    // one direction is put in
    Trial {
        kind: Kind::Broken,
        text: "rel r(HO, HO); safety symmetric: forall X:HO, Y:HO. r(X, Y) -> r(Y, X); pktIn(s, a->b, i) { r.insert(a, b); }",
    },
    // port 1 is up in each network that is meant
    Trial {
        kind: Kind::Valid,
        text: "static up(PR); topology first: up(prt(1)); rel used(PR); safety sound: forall P:PR. used(P) -> up(P); pktIn(s, a->b, i) { used.insert(prt(1)); }",
    },
    // a packet may come in at port 2, of which nothing is said
    Trial {
        kind: Kind::Broken,
        text: "static up(PR); topology first: up(prt(1)); rel used(PR); safety sound: forall P:PR. used(P) -> up(P); pktIn(s, a->b, i) { used.insert(i); }",
    },
    // some port is up, so that the second block is never executed
    Trial {
        kind: Kind::Valid,
        text: "static up(PR); topology some: exists P:PR. up(P); rel none(); safety found: not none(); pktIn(s, a->b, i) { pick o:PR where up(o) { skip; } else { none.insert(); } }",
    },
    // the same without the topology invariant: no port may be up
    Trial {
        kind: Kind::Broken,
        text: "static up(PR); rel none(); safety found: not none(); pktIn(s, a->b, i) { pick o:PR where up(o) { skip; } else { none.insert(); } }",
    },
    // c and d are one host
    Trial {
        kind: Kind::Valid,
        text: "const c:HO; const d:HO; topology same: c = d; rel seen(HO); safety only: forall X:HO. seen(X) -> X = c; pktIn(s, a->b, i) { if a = d { seen.insert(a); } }",
    },
    // c and d may be two hosts
    Trial {
        kind: Kind::Broken,
        text: "const c:HO; const d:HO; rel seen(HO); safety only: forall X:HO. seen(X) -> X = c; pktIn(s, a->b, i) { if a = d { seen.insert(a); } }",
    },
    // prt(1) and prt(2) are two ports
    Trial {
        kind: Kind::Valid,
        text: "rel p(PR); safety second: not p(prt(2)); pktIn(s, a->b, prt(1)) { p.insert(prt(1)); }",
    },
    // a packet may come in at port 2
    Trial {
        kind: Kind::Broken,
        text: "rel p(PR); safety second: not p(prt(2)); pktIn(s, a->b, i) { p.insert(i); }",
    },
    // the first handler takes each packet
    Trial {
        kind: Kind::Valid,
        text: "rel p(); safety never: not p(); pktIn(s, a->b, i) { skip; } pktIn(s, a->b, prt(1)) { p.insert(); }",
    },
    // the first handler takes the packets of port 1, and puts p in
    Trial {
        kind: Kind::Broken,
        text: "rel p(); safety never: not p(); pktIn(s, a->b, prt(1)) { p.insert(); } pktIn(s, a->b, i) { skip; }",
    },
    // rules lead back to where packets come from, and no other rules are made
    Trial {
        kind: Kind::Valid,
        text: "safety back: forall S:SW, A:HO, B:HO, I:PR, O:PR. S.ft(A->B, I->O) -> I = O; pktIn(s, a->b, i) { s.install(a->b, i->i); }",
    },
    // with a second port a rule leads from that to port 1
    Trial {
        kind: Kind::Broken,
        text: "safety back: forall S:SW, A:HO, B:HO, I:PR, O:PR. S.ft(A->B, I->O) -> I = O; pktIn(s, a->b, i) { s.install(a->b, i->prt(1)); }",
    },
    // only handlers send, since there are no rules, and each puts the host in first
    Trial {
        kind: Kind::Valid,
        text: "rel p(HO); safety known: forall S:SW, A:HO, B:HO, I:PR, O:PR. S.sent(A->B, I->O) -> p(B); safety unruled: forall S:SW, A:HO, B:HO, I:PR, O:PR. not S.ft(A->B, I->O); pktIn(s, a->b, i) { p.insert(b); s.forward(a->b, i->prt(1)); }",
    },
    // there are no rules in any run, but no invariant says so, and a rule would send to any host
    Trial {
        kind: Kind::Broken,
        text: "rel p(HO); safety known: forall S:SW, A:HO, B:HO, I:PR, O:PR. S.sent(A->B, I->O) -> p(B); pktIn(s, a->b, i) { p.insert(b); s.forward(a->b, i->prt(1)); }",
    },
    // a flood reaches a port other than its own, and a rule sends as well
    Trial {
        kind: Kind::Valid,
        text: "topology two: not prt(1) = prt(2); trans out: forall S:SW, A:HO, B:HO, I:PR. S.rcv_this(A->B, I) -> (exists O:PR. S.sent(A->B, I->O)); pktIn(s, a->b, i) { s.flood(a->b, i); }",
    },
    // with one port a flood reaches nothing
    Trial {
        kind: Kind::Broken,
        text: "trans out: forall S:SW, A:HO, B:HO, I:PR. S.rcv_this(A->B, I) -> (exists O:PR. S.sent(A->B, I->O)); pktIn(s, a->b, i) { s.flood(a->b, i); }",
    },
    // rules stay: only an event that ends them would leave live without one
    Trial {
        kind: Kind::Valid,
        text: "rel live(); safety ruled: live() -> (exists S:SW, A:HO, B:HO, I:PR, O:PR. S.ft(A->B, I->O)); pktIn(s, a->b, i) { live.insert(); s.install(a->b, i->i); }",
    },
    // the same with a timeout: the last rules may end
    Trial {
        kind: Kind::Broken,
        text: "timeout 5; rel live(); safety ruled: live() -> (exists S:SW, A:HO, B:HO, I:PR, O:PR. S.ft(A->B, I->O)); pktIn(s, a->b, i) { live.insert(); s.install(a->b, i->i); }",
    },
    // a rule that ends or is taken out leaves no rule that was not there
    Trial {
        kind: Kind::Valid,
        text: "timeout 5; rel live(); safety ruled: forall S:SW, A:HO, B:HO, I:PR, O:PR. S.ft(A->B, I->O) -> live(); pktIn(s, a->b, i) { live.insert(); s.install(a->b, i->prt(1)); s.uninstall(a->b, i->prt(1)); }",
    },
    // live leaves while a rule of another match, or to another port, stays
    Trial {
        kind: Kind::Broken,
        text: "timeout 5; rel live(); safety ruled: forall S:SW, A:HO, B:HO, I:PR, O:PR. S.ft(A->B, I->O) -> live(); pktIn(s, a->b, i) { live.insert(); s.install(a->b, i->i); s.uninstall(a->b, i->i); live.remove(); }",
    },
    // a packet that comes in is remembered, and a rule is of a source that was
    Trial {
        kind: Kind::Valid,
        text: "rel ok(HO); safety ruled: forall S:SW, A:HO, B:HO, I:PR, O:PR. S.ft(A->B, I->O) -> ok(A); trans seen: forall S:SW, A:HO, B:HO, I:PR. S.rcv_this(A->B, I) -> ok(A); pktIn(s, a->b, i) { ok.insert(a); s.install(a->b, i->prt(1)); }",
    },
    // no invariant says that the source of a rule was remembered
    Trial {
        kind: Kind::Broken,
        text: "rel ok(HO); trans seen: forall S:SW, A:HO, B:HO, I:PR. S.rcv_this(A->B, I) -> ok(A); pktIn(s, a->b, i) { ok.insert(a); s.install(a->b, i->prt(1)); }",
    },
    // p and q change together, in each of three blocks
    Trial {
        kind: Kind::Valid,
        text: "rel p(HO); rel q(HO); safety both: forall X:HO. p(X) <-> q(X); pktIn(s, a->b, i) { if p(a) { pick h:HO where q(h) and not h = a { p.remove(h); q.remove(h); } else { skip; } } else { p.insert(a); q.insert(a); } }",
    },
    // where two hosts are in both, one of them leaves p alone
    Trial {
        kind: Kind::Broken,
        text: "rel p(HO); rel q(HO); safety both: forall X:HO. p(X) <-> q(X); pktIn(s, a->b, i) { if p(a) { pick h:HO where q(h) and not h = a { p.remove(h); } else { skip; } } else { p.insert(a); q.insert(a); } }",
    },
    // the one host in r leaves before another comes
    Trial {
        kind: Kind::Valid,
        text: "rel r(HO); safety one: forall X:HO, Y:HO. r(X) and r(Y) -> X = Y; pktIn(s, a->b, i) { pick x:HO where r(x) { r.remove(x); r.insert(a); } else { r.insert(a); } }",
    },
    // a second host comes in
    Trial {
        kind: Kind::Broken,
        text: "rel r(HO); safety one: forall X:HO, Y:HO. r(X) and r(Y) -> X = Y; pktIn(s, a->b, i) { pick x:HO where not r(x) { r.insert(x); } }",
    },
    // port 1 is in p at the start, and only port 2 leaves
    Trial {
        kind: Kind::Valid,
        text: "rel p(PR) = {(prt(1))}; safety some: p(prt(1)); pktIn(s, a->b, prt(2)) { p.remove(prt(2)); }",
    },
    // port 1 is not in p at the start
    Trial {
        kind: Kind::Broken,
        text: "rel p(PR) = {(prt(2))}; safety some: p(prt(1)); pktIn(s, a->b, i) { skip; }",
    },
    // no packet is sent by a switch that is off: rules and commands are of switches that are on
    Trial {
        kind: Kind::Valid,
        text: "static on(SW); safety sending: forall S:SW, A:HO, B:HO, I:PR, O:PR. S.sent(A->B, I->O) -> on(S); safety ruled: forall S:SW, A:HO, B:HO, I:PR, O:PR. S.ft(A->B, I->O) -> on(S); pktIn(s, a->b, i) { if on(s) { s.install(a->b, i->i); s.flood(a->b, i); s.forward(a->b, i->i); } }",
    },
    // a switch that is off forwards
    Trial {
        kind: Kind::Broken,
        text: "static on(SW); safety sending: forall S:SW, A:HO, B:HO, I:PR, O:PR. S.sent(A->B, I->O) -> on(S); safety ruled: forall S:SW, A:HO, B:HO, I:PR, O:PR. S.ft(A->B, I->O) -> on(S); pktIn(s, a->b, i) { if on(s) { s.install(a->b, i->i); } s.forward(a->b, i->i); }",
    },
    // the networks that are meant have three hosts, more than are searched; nothing is ever in p
    Trial {
        kind: Kind::Valid,
        text: "const c:HO; const d:HO; const e:HO; topology apart: not c = d and not d = e and not c = e; rel p(HO); safety never: forall X:HO. not p(X); pktIn(s, a->b, i) { skip; }",
    },
    // p is empty at the start
    Trial {
        kind: Kind::Broken,
        text: "rel p(); safety start: p();",
    },
    // a packet leaves its source in seen
    Trial {
        kind: Kind::Broken,
        text: "rel seen(HO); safety none: forall X:HO. not seen(X); pktIn(s, a->b, i) { seen.insert(a); }",
    },
    // no host is in seen at the start
    Trial {
        kind: Kind::Broken,
        text: "rel seen(HO); safety some: exists X:HO. seen(X); pktIn(s, a->b, i) { seen.insert(a); }",
    },
    // a packet at each of the two ports
    Trial {
        kind: Kind::Broken,
        text: "rel p(PR); safety apart: not (p(prt(1)) and p(prt(2))); pktIn(s, a->b, i) { p.insert(i); }",
    },
    // a host that moves is at both ports
    Trial {
        kind: Kind::Broken,
        text: "rel at(HO, PR); safety one: forall H:HO, P:PR, Q:PR. at(H, P) and at(H, Q) -> P = Q; pktIn(s, a->b, i) { at.insert(a, i); }",
    },
    // the second packet finds on, and nothing takes that out
    Trial {
        kind: Kind::Broken,
        text: "rel on(SW); rel off(SW); safety one: forall S:SW. not (on(S) and off(S)); pktIn(s, a->b, i) { if on(s) { off.insert(s); } else { on.insert(s); } }",
    },
    // a packet of c where there is a second host
    Trial {
        kind: Kind::Broken,
        text: "const c:HO; rel m(HO); safety whole: m(c) -> (forall X:HO. m(X)); pktIn(s, a->b, i) { m.insert(a); }",
    },
    // the packet's destination may be another host than its source
    Trial {
        kind: Kind::Broken,
        text: "rel q(HO); trans known: forall S:SW, A:HO, B:HO, I:PR. S.rcv_this(A->B, I) -> q(B); pktIn(s, a->b, i) { q.insert(a); }",
    },
    // each packet leaves a rule
    Trial {
        kind: Kind::Broken,
        text: "safety none: forall S:SW, A:HO, B:HO, I:PR, O:PR. not S.ft(A->B, I->O); pktIn(s, a->b, i) { s.install(a->b, i->i); }",
    },
    // a packet at port 1 is sent back
    Trial {
        kind: Kind::Broken,
        text: "safety none: forall S:SW, A:HO, B:HO, I:PR, O:PR. not S.sent(A->B, I->O); pktIn(s, a->b, prt(1)) { s.forward(a->b, prt(1)->prt(1)); }",
    },
    // the port may be an edge of another switch
    Trial {
        kind: Kind::Broken,
        text: "static edge(SW, PR); rel used(PR); safety edges: forall S:SW, P:PR. edge(S, P) -> not used(P); pktIn(s, a->b, i) { if not edge(s, i) { used.insert(i); } }",
    },
    // a packet from a host to itself where there is a second one
    Trial {
        kind: Kind::Broken,
        text: "rel p(HO); safety pairs: forall X:HO, Y:HO. p(X) -> p(Y); pktIn(s, a->b, i) { p.insert(a); p.insert(b); }",
    },
    // q is empty when the first packet comes
    Trial {
        kind: Kind::Broken,
        text: "rel p(); rel q(); safety implied: p() -> q(); pktIn(s, a->b, i) { if not q() { p.insert(); } }",
    },
    // valid, since k comes after m; but the invariant has an exists under a forall, and can't be decided where it is assumed
    Trial {
        kind: Kind::Undecided,
        text: "rel k(HO); rel m(HO, HO); safety paired: forall X:HO. k(X) -> (exists Y:HO. m(X, Y)); pktIn(s, a->b, i) { m.insert(a, b); k.insert(a); }",
    },
    // broken by the third host that comes, more than are searched
    Trial {
        kind: Kind::BrokenInLarge,
        text: "rel p(HO); safety two: forall X:HO, Y:HO, Z:HO. p(X) and p(Y) and p(Z) -> X = Y or Y = Z or X = Z; pktIn(s, a->b, i) { p.insert(a); }",
    },
    // nothing is wrong but the topology invariant, which has an exists under a forall
    Trial {
        kind: Kind::Undecided,
        text: "static link(SW, PR); topology linked: forall S:SW. exists P:PR. link(S, P); rel p(); safety never: not p(); pktIn(s, a->b, i) { skip; }",
    },
    // a switch is itself, and each network has one
    Trial {
        kind: Kind::NoNetwork,
        text: "topology none: forall S:SW. not S = S;",
    },
    // port 1 is up, and no port is
    Trial {
        kind: Kind::NoNetwork,
        text: "static up(PR); topology first: up(prt(1)); topology dark: forall P:PR. not up(P); rel p(); safety never: not p(); pktIn(s, a->b, i) { p.insert(); }",
    },
    // two ports are one
    Trial {
        kind: Kind::NoNetwork,
        text: "topology same: prt(1) = prt(2); trans never: false;",
    },
];
