//! The programs of the trials.

/// Programs that between them have every command, first fit, captured names, and invariants of every kind.
pub const PROGRAMS: [&str; 25] = [
    // nothing is done
    "rel p(HO); safety A: forall X:HO. not p(X); pktIn(s, src->dst, i) { skip; }",
    // no handler at all
    "rel p(SW, HO); safety A: forall S:SW, X:HO. S.sent(X->X, prt(1)->prt(2)) -> p(S, X); trans B: exists S:SW, X:HO, Y:HO, I:PR. S.rcv_this(X->Y, I);",
    // put in, and taken out
    "rel p(HO); safety A: exists X:HO. p(X); pktIn(s, src->dst, i) { p.insert(src); p.remove(dst); }",
    "rel p(HO); safety A: exists X:HO. p(X); pktIn(s, src->dst, i) { p.remove(dst); p.insert(src); }",
    // one relation looked at while another is changed
    "rel p(HO); rel q(HO); safety A: forall X:HO. p(X) -> q(X); pktIn(s, src->dst, i) { if q(src) { p.insert(src); } else { q.remove(dst); } }",
    // an exception by a relation without arguments
    "rel off(); rel p(HO); safety A: off() or (forall X:HO. not p(X)); pktIn(s, src->dst, i) { if off() { p.insert(src); } else { if src = dst { off.insert(); p.insert(dst); } } }",
    // rules and packets
    "safety A: forall S:SW, A1:HO, B1:HO, I:PR, O:PR. S.ft(A1->B1, I->O) -> not I = O; pktIn(s, src->dst, i) { s.install(src->dst, i->prt(2)); s.forward(src->dst, i->prt(2)); }",
    "trans B: forall S:SW, A1:HO, B1:HO, I:PR. S.rcv_this(A1->B1, I) -> (exists O:PR. S.sent(A1->B1, I->O)); pktIn(s, src->dst, i) { s.forward(src->dst, i->prt(1)); }",
    "trans B: forall S:SW, A1:HO, B1:HO, I:PR. S.rcv_this(A1->B1, I) -> (exists O:PR. S.sent(A1->B1, I->O)); pktIn(s, src->dst, i) { s.flood(src->dst, i); }",
    // a flood does not go back
    "safety A: forall S:SW, A1:HO, B1:HO, I:PR. not S.sent(A1->B1, I->I); pktIn(s, src->dst, i) { if src = dst { skip; } else { s.flood(src->dst, i); } }",
    // first fit: both patterns, and a port without one
    "rel one(HO); rel two(HO); safety A: forall X:HO. one(X) or not two(X); pktIn(s, src->dst, prt(1)) { one.insert(src); } pktIn(s, src->dst, prt(2)) { if one(src) { two.insert(src); } }",
    "rel one(HO); safety A: forall X:HO. not one(X); trans B: (exists S:SW, X:HO, Y:HO. S.rcv_this(X->Y, prt(2))) -> (forall X:HO. not one(X)); pktIn(s, src->dst, prt(1)) { one.insert(src); } pktIn(s, a->b, prt(1)) { skip; }",
    // the second handler never comes
    "rel p(HO); safety A: forall X:HO. not p(X); pktIn(s, src->dst, i) { skip; } pktIn(s, src->dst, prt(1)) { p.insert(src); }",
    // patterns first, then a name
    "rel p(PR); trans B: forall S:SW, X:HO, Y:HO, I:PR. S.rcv_this(X->Y, I) -> p(I); pktIn(s, src->dst, prt(2)) { p.insert(prt(1)); } pktIn(s, src->dst, i) { p.insert(i); }",
    // one element that fits at most
    "rel at(HO, PR); safety A: forall X:HO. (exists P:PR. at(X, P)) or not at(X, prt(1)); trans B: forall S:SW, X:HO, Y:HO, I:PR. S.rcv_this(X->Y, I) -> at(X, I); pktIn(s, src->dst, i) { pick o:PR where o = prt(1) and at(src, o) { at.remove(src, o); at.insert(src, i); } else { at.insert(src, i); } }",
    // nothing fits
    "rel p(HO); safety A: exists X:HO. p(X); pktIn(s, src->dst, i) { pick h:HO where h = src and not h = src { p.remove(h); } else { p.insert(dst); } }",
    // the names of a handler and of an invariant are the same
    "rel p(SW, HO); safety A: forall s:SW, src:HO, dst:HO, i:PR, o:PR. s.sent(src->dst, i->o) -> p(s, src) or p(s, dst); pktIn(s, src->dst, i) { p.insert(s, dst); s.forward(src->dst, i->prt(1)); p.remove(s, src); }",
    // equivalences, and conditions that look at rules
    "rel p(HO); safety A: forall X:HO. p(X) <-> (exists S:SW, Y:HO, I:PR, O:PR. S.ft(X->Y, I->O)); pktIn(s, src->dst, i) { if exists O:PR. s.ft(src->dst, i->O) { skip; } else { s.install(src->dst, i->prt(1)); p.insert(src); } }",
    // a packet flow sends
    "rel ok(HO); safety A: forall S:SW, X:HO, Y:HO, I:PR, O:PR. S.sent(X->Y, I->O) -> ok(Y); trans B: forall S:SW, X:HO, Y:HO, I:PR. S.rcv_this(X->Y, I) -> ok(X); pktIn(s, src->dst, i) { ok.insert(src); ok.insert(dst); s.install(src->dst, i->prt(2)); }",
    // rows at the start
    "rel p(PR) = {(prt(1)), (prt(2))}; rel q() = {()}; safety A: p(prt(1)) and q(); pktIn(s, src->dst, i) { if p(i) { q.remove(); q.insert(); } else { p.remove(i); } }",
    // what is taken out again
    "safety A: forall S:SW, A1:HO, B1:HO, I:PR, O:PR. not S.ft(A1->B1, I->O); pktIn(s, src->dst, i) { s.install(src->dst, i->i); s.uninstall(src->dst, i->i); }",
    // one output of a match is taken out
    "rel p(HO); safety A: forall X:HO. p(X) -> (exists S:SW, Y:HO, I:PR, O:PR. S.ft(X->Y, I->O)); trans B: forall S:SW, X:HO, Y:HO, I:PR. S.rcv_this(X->Y, I) -> not S.ft(X->Y, I->prt(1)); pktIn(s, src->dst, i) { p.insert(src); s.install(src->dst, i->prt(2)); s.uninstall(src->dst, i->prt(1)); }",
    // rules that end, and a relation that doesn't
    "timeout 5; rel seen(SW, HO, HO, PR); safety A: forall S:SW, A1:HO, B1:HO, I:PR. seen(S, A1, B1, I) -> S.ft(A1->B1, I->prt(1)); pktIn(s, src->dst, i) { seen.insert(s, src, dst, i); s.install(src->dst, i->prt(1)); }",
    // all outputs of a match end
    "timeout 5; rel p(HO); safety A: forall X:HO. p(X) -> (exists S:SW, Y:HO, I:PR, O:PR. S.ft(X->Y, I->O)); trans B: exists S:SW, X:HO, Y:HO, I:PR, O:PR. S.ft(X->Y, I->O) and not X = Y;",
    // an expiry has no packet
    "timeout 30; safety A: exists S:SW, X:HO, Y:HO, I:PR, O:PR. S.ft(X->Y, I->O); trans B: (exists S:SW, X:HO, Y:HO, I:PR. S.rcv_this(X->Y, I)) or (forall S:SW, X:HO, I:PR, O:PR. not S.sent(X->X, I->O)); pktIn(s, src->dst, i) { if src = dst { s.uninstall(src->dst, i->i); } else { s.install(src->dst, i->i); s.flood(src->dst, i); } }",
];
