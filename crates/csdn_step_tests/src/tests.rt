//! The rows, and what is asked of them.
use csdn_core::event::{Event, Match, Out, Packet, Tally};
use csdn_core::program::Program;
use csdn_read::read_program;
use csdn_step::{StepRefusal, fire, fire_quiet, initial};
use net_structs::case::Case;
use net_structs::network::Network;
use net_structs::state::State;
use net_text::{Text, print_net, read_net};
use std::alloc::{AllocError, Global};

/// The text of a network with a state.
fn text_of(
    alloc: Global,
    program: &Program,
    network: Network,
    state: State,
) -> Result<Text, AllocError> {
    let case = Case {
        network,
        state: Some(state),
        packet: Packet::Nothing,
    };
    print_net(alloc, program, &case)
}

/// `head`, the lines of tuples, and the line `end`.
fn net_of(alloc: Global, head: &[u8], tuples: &[u8]) -> Result<Vec<u8>, AllocError> {
    let mut text = Vec::from_slice(alloc, head)?;
    text.extend_from_slice(tuples)?;
    text.extend_from_slice(b"end\n")?;
    Ok(text)
}

/// What an event was answered, and the text of what followed.
#[derive(Drop)]
struct Outcome {
    answer: Result<Tally, StepRefusal>,
    text: Text,
}

/// What is done in a scene.
#[derive(Clone, Copy, Debug)]
enum Act {
    Fire(Event),
    /// The packet comes in, and what is sent isn't kept.
    FireQuiet(Match),
}

/// Does it in a state.
fn answer_of(
    alloc: Global,
    program: &Program,
    network: &Network,
    state: &mut State,
    act: &Act,
) -> Result<Tally, StepRefusal> {
    match act {
        Act::Fire(event) => fire(alloc, program, network, state, event),
        Act::FireQuiet(Match { s, a, b, i }) => {
            fire_quiet(alloc, program, network, state, *s, *a, *b, *i)
        }
    }
}

/// Does it in the network and the state of a text; none where the text is refused or has no state.
fn outcome_in(
    alloc: Global,
    program: &Program,
    network: &[u8],
    act: &Act,
) -> Result<Option<Outcome>, AllocError> {
    let Ok(case) = read_net(alloc, program, network) else {
        return Ok(None);
    };
    let Case { network, state, .. } = case;
    let Some(mut state) = state else {
        return Ok(None);
    };
    let answer = answer_of(alloc, program, &network, &mut state, act);
    let text = text_of(alloc, program, network, state)?;
    Ok(Some(Outcome { answer, text }))
}

/// Does it in the scene of two texts; none where one of them is refused.
fn outcome_of(
    alloc: Global,
    program: &[u8],
    network: &[u8],
    act: &Act,
) -> Result<Option<Outcome>, AllocError> {
    let Ok(program) = read_program(alloc, program) else {
        return Ok(None);
    };
    outcome_in(alloc, &program, network, act)
}

/// The text of the initial state in the network of a text; none where a text is refused.
fn start_of(alloc: Global, program: &[u8], network: &[u8]) -> Result<Option<Text>, AllocError> {
    let Ok(program) = read_program(alloc, program) else {
        return Ok(None);
    };
    start_in(alloc, &program, network)
}

fn start_in(alloc: Global, program: &Program, network: &[u8]) -> Result<Option<Text>, AllocError> {
    let Ok(case) = read_net(alloc, program, network) else {
        return Ok(None);
    };
    let Case { network, .. } = case;
    let state = initial(alloc, program, &network)?;
    Ok(Some(text_of(alloc, program, network, state)?))
}

/// Whether a tally lists these matches and these outputs.
fn is_tally(tally: &Tally, changed: &[Match], outs: &[Out]) -> bool {
    tally.changed.as_slice() == changed && tally.outs.as_slice() == outs
}

/// Whether the tally lists these matches and outputs, and this text follows.
fn is_outcome(outcome: &Option<Outcome>, changed: &[Match], outs: &[Out], text: &[u8]) -> bool {
    match outcome {
        Some(found) => match &found.answer {
            Ok(tally) => is_tally(tally, changed, outs) && found.text.as_slice() == text,
            Err(_) => false,
        },
        None => false,
    }
}

/// Whether the event is refused, as one of a stranger or else for want of a rule, and this text follows.
fn is_refused(outcome: &Option<Outcome>, is_stranger: bool, text: &[u8]) -> bool {
    match outcome {
        Some(found) => {
            let is_reason = match &found.answer {
                Err(StepRefusal::Stranger) => is_stranger,
                Err(StepRefusal::NotEnabled) => !is_stranger,
                _ => false,
            };
            is_reason && found.text.as_slice() == text
        }
        None => false,
    }
}

mod rows {
    use super::*;
    use std::process::Abort;
    use std::test::Fail;

    /// Two switches, three hosts and three ports.
    const THREE: &[u8] = b"vericon-net 1\nsw 1 2\nho 4 5 6\npr 1 2 3\nstate\n";

    /// Sends packets where their destination is known to be, and else everywhere.
    const LEARNT: &[u8] =
        b"rel c(PR, HO); pktIn(s, a->b, i) { pick o:PR where c(o, b) { s.install(a->b, i->o); s.forward(a->b, i->o); } else { s.flood(a->b, i); } }";

    /// Has a handler for port 1 and one for port 2, and a second one for port 1.
    const PORTS: &[u8] =
        b"pktIn(s, a->b, prt(1)) { s.forward(a->b, prt(1)->prt(2)); } pktIn(s, a->b, prt(2)) { s.forward(a->b, prt(2)->prt(3)); } pktIn(s, a->b, prt(1)) { s.flood(a->b, prt(1)); }";

    /// Has a handler for every port before that for port 1.
    const EVERY: &[u8] =
        b"pktIn(s, a->b, i) { s.forward(a->b, i->prt(3)); } pktIn(s, a->b, prt(1)) { s.flood(a->b, prt(1)); }";

    const OUT_IN: &[u8] = b"rel r(HO); pktIn(s, a->b, i) { r.remove(a); r.insert(a); }";

    const IN_OUT: &[u8] = b"rel r(HO); pktIn(s, a->b, i) { r.insert(a); r.remove(a); }";

    /// Looks at what it has taken out.
    const LOOKS: &[u8] =
        b"rel r(HO); pktIn(s, a->b, i) { r.remove(a); if r(a) { r.insert(b); } else { pick h:HO where r(h) { r.remove(h); r.insert(a); } } }";

    /// Installs three rules for two matches, and sends from the ports 3 and 1 and from all.
    const MANY: &[u8] =
        b"pktIn(s, a->b, i) { s.install(b->a, i->prt(1)); s.install(a->b, i->prt(2)); s.install(b->a, i->prt(3)); s.forward(a->b, i->prt(3)); s.flood(a->b, i); s.forward(a->b, i->prt(1)); s.forward(a->b, i->prt(3)); s.flood(a->b, i); }";

    const ALL_RULES: &[u8] =
        b"ft 1 4 5 2 2\nft 1 5 4 2 1\nft 1 5 4 2 3\nsent 1 4 5 2 1\nsent 1 4 5 2 3\n";

    const UNINSTALLS: &[u8] = b"pktIn(s, a->b, i) { s.uninstall(a->b, i->prt(2)); }";

    const IN_AND_OUT: &[u8] =
        b"pktIn(s, a->b, i) { s.install(a->b, i->prt(2)); s.uninstall(a->b, i->prt(2)); }";

    const OUT_AND_IN: &[u8] =
        b"pktIn(s, a->b, i) { s.uninstall(a->b, i->prt(2)); s.install(a->b, i->prt(2)); }";

    /// Moves the rules of two matches to other ports, taking out once what may be there still.
    const MOVES: &[u8] =
        b"pktIn(s, a->b, i) { s.install(a->b, i->prt(3)); s.install(b->a, i->prt(2)); s.uninstall(b->a, i->prt(3)); s.uninstall(a->b, i->prt(2)); }";

    const EXPIRES: &[u8] =
        b"timeout 30; pktIn(s, a->b, i) { s.install(a->b, i->prt(2)); s.forward(a->b, i->prt(2)); }";

    const PACKET: Act = Act::Fire(Event::PktIn {
        s: 1,
        a: 4,
        b: 5,
        i: 1,
    });

    const EXPIRY: Act = Act::Fire(Event::Expire {
        s: 1,
        a: 4,
        b: 5,
        i: 1,
    });

    const QUIET: Act = Act::FireQuiet(FOUND);

    /// The match of that packet, and that of one that comes back by the same port.
    const FOUND: Match = Match {
        s: 1,
        a: 4,
        b: 5,
        i: 1,
    };

    const OTHER_WAY: Match = Match {
        s: 1,
        a: 5,
        b: 4,
        i: 1,
    };

    const THERE: Match = Match {
        s: 1,
        a: 4,
        b: 5,
        i: 2,
    };

    const BACK: Match = Match {
        s: 1,
        a: 5,
        b: 4,
        i: 2,
    };

    const MANY_OUTS: &[Out] = &[Out::Port(3), Out::Flood, Out::Port(1)];

    /// A program, the tuples before, what is done, the matches changed, the outputs, and the tuples after.
    type Row = (
        &'static [u8],
        &'static [u8],
        Act,
        &'static [Match],
        &'static [Out],
        &'static [u8],
    );

    const ROWS: &[Row] = &[
        // the least port that fits is picked, and where none does the other block is executed
        (
            LEARNT,
            b"t c 2 5\nt c 3 5\n",
            PACKET,
            &[FOUND],
            &[Out::Port(2)],
            b"t c 2 5\nt c 3 5\nft 1 4 5 1 2\nsent 1 4 5 1 2\n",
        ),
        (
            LEARNT,
            b"t c 2 4\nt c 3 5\n",
            PACKET,
            &[FOUND],
            &[Out::Port(3)],
            b"t c 2 4\nt c 3 5\nft 1 4 5 1 3\nsent 1 4 5 1 3\n",
        ),
        (
            LEARNT,
            b"t c 2 4\n",
            PACKET,
            &[],
            &[Out::Flood],
            b"t c 2 4\nsent 1 4 5 1 2\nsent 1 4 5 1 3\n",
        ),
        // a rule that was there isn't listed
        (
            LEARNT,
            b"t c 2 5\nft 1 4 5 1 2\n",
            PACKET,
            &[],
            &[Out::Port(2)],
            b"t c 2 5\nft 1 4 5 1 2\nsent 1 4 5 1 2\n",
        ),
        // a flood leaves out the ingress port
        (
            LEARNT,
            b"",
            Act::Fire(Event::PktIn {
                s: 2,
                a: 4,
                b: 4,
                i: 3,
            }),
            &[],
            &[Out::Flood],
            b"sent 2 4 4 3 1\nsent 2 4 4 3 2\n",
        ),
        // the first handler that fits
        (
            PORTS,
            b"",
            PACKET,
            &[],
            &[Out::Port(2)],
            b"sent 1 4 5 1 2\n",
        ),
        (
            PORTS,
            b"",
            Act::Fire(Event::PktIn {
                s: 1,
                a: 4,
                b: 5,
                i: 2,
            }),
            &[],
            &[Out::Port(3)],
            b"sent 1 4 5 2 3\n",
        ),
        (
            PORTS,
            b"",
            Act::Fire(Event::PktIn {
                s: 1,
                a: 4,
                b: 5,
                i: 3,
            }),
            &[],
            &[],
            b"",
        ),
        (
            EVERY,
            b"",
            PACKET,
            &[],
            &[Out::Port(3)],
            b"sent 1 4 5 1 3\n",
        ),
        // one tuple put in and taken out
        (OUT_IN, b"t r 4\n", PACKET, &[], &[], b"t r 4\n"),
        (OUT_IN, b"", PACKET, &[], &[], b"t r 4\n"),
        (IN_OUT, b"t r 4\nt r 5\n", PACKET, &[], &[], b"t r 5\n"),
        (IN_OUT, b"", PACKET, &[], &[], b""),
        (
            LOOKS,
            b"t r 4\nt r 5\nt r 6\n",
            PACKET,
            &[],
            &[],
            b"t r 4\nt r 6\n",
        ),
        (LOOKS, b"t r 4\n", PACKET, &[], &[], b""),
        // matches in the order of their first change, outputs in that of the commands, each once
        (
            MANY,
            b"",
            Act::Fire(Event::PktIn {
                s: 1,
                a: 4,
                b: 5,
                i: 2,
            }),
            &[BACK, THERE],
            MANY_OUTS,
            ALL_RULES,
        ),
        (
            MANY,
            b"ft 1 5 4 2 1\n",
            Act::Fire(Event::PktIn {
                s: 1,
                a: 4,
                b: 5,
                i: 2,
            }),
            &[THERE, BACK],
            MANY_OUTS,
            ALL_RULES,
        ),
        (
            MANY,
            b"ft 1 5 4 2 1\nft 1 5 4 2 3\n",
            Act::Fire(Event::PktIn {
                s: 1,
                a: 4,
                b: 5,
                i: 2,
            }),
            &[THERE],
            MANY_OUTS,
            ALL_RULES,
        ),
        (
            MANY,
            b"ft 1 4 5 2 2\nft 1 5 4 2 3\n",
            Act::Fire(Event::PktIn {
                s: 1,
                a: 4,
                b: 5,
                i: 2,
            }),
            &[BACK],
            MANY_OUTS,
            ALL_RULES,
        ),
        // a switch sends by a rule
        (
            LEARNT,
            b"ft 1 4 5 1 2\n",
            Act::Fire(Event::PktFlow {
                s: 1,
                a: 4,
                b: 5,
                i: 1,
                o: 2,
            }),
            &[],
            &[],
            b"ft 1 4 5 1 2\nsent 1 4 5 1 2\n",
        ),
        // what is sent quietly isn't kept
        (
            LEARNT,
            b"t c 2 5\nsent 2 4 5 1 3\n",
            QUIET,
            &[FOUND],
            &[Out::Port(2)],
            b"t c 2 5\nft 1 4 5 1 2\nsent 2 4 5 1 3\n",
        ),
        (
            LEARNT,
            b"t c 2 4\n",
            QUIET,
            &[],
            &[Out::Flood],
            b"t c 2 4\n",
        ),
        // a rule that isn't there is taken out: nothing
        (
            UNINSTALLS,
            b"ft 1 4 5 1 3\n",
            PACKET,
            &[],
            &[],
            b"ft 1 4 5 1 3\n",
        ),
        (
            UNINSTALLS,
            b"ft 1 4 5 1 2\nft 1 4 5 1 3\n",
            PACKET,
            &[FOUND],
            &[],
            b"ft 1 4 5 1 3\n",
        ),
        // a rule put in and taken out, or taken out and put in: what counts is before and after
        (IN_AND_OUT, b"", PACKET, &[], &[], b""),
        (IN_AND_OUT, b"ft 1 4 5 1 2\n", PACKET, &[FOUND], &[], b""),
        (OUT_AND_IN, b"", PACKET, &[FOUND], &[], b"ft 1 4 5 1 2\n"),
        (
            OUT_AND_IN,
            b"ft 1 4 5 1 2\n",
            PACKET,
            &[],
            &[],
            b"ft 1 4 5 1 2\n",
        ),
        // another output in place of one; and the first command that changed a match, not the last, gives the order
        (
            MOVES,
            b"ft 1 4 5 1 2\nft 1 5 4 1 3\n",
            PACKET,
            &[FOUND, OTHER_WAY],
            &[],
            b"ft 1 4 5 1 3\nft 1 5 4 1 2\n",
        ),
        (
            MOVES,
            b"",
            PACKET,
            &[FOUND, OTHER_WAY],
            &[],
            b"ft 1 4 5 1 3\nft 1 5 4 1 2\n",
        ),
        // all rules of one match end, and no others
        (
            EXPIRES,
            b"ft 1 4 5 1 2\nft 1 4 5 1 3\nft 1 4 5 2 3\nft 1 5 4 1 2\nft 2 4 5 1 2\nsent 1 4 5 1 2\n",
            EXPIRY,
            &[FOUND],
            &[],
            b"ft 1 4 5 2 3\nft 1 5 4 1 2\nft 2 4 5 1 2\nsent 1 4 5 1 2\n",
        ),
        (EXPIRES, b"ft 1 4 5 1 1\n", EXPIRY, &[FOUND], &[], b""),
    ];

    // Each event comes to what its row says.
    fn come(rt: &impl Abort, alloc: Global, rows: &[Row]) -> Result<(), AllocError> {
        for (i, row) in rows.iter().enumerate() {
            let before = net_of(alloc, THREE, row.1)?;
            let then = net_of(alloc, THREE, row.5)?;
            let outcome = outcome_of(alloc, row.0, &before, &row.2)?;
            assert!(rt; is_outcome(&outcome, row.3, row.4, &then), "row {i}");
        }
        Ok(())
    }

    #[test]
    fn events_come_to_what_they_say(rt: HostRuntime) -> Result<(), Fail> {
        come(&rt, rt.alloc(), ROWS)?;
        Ok(())
    }

    #[test]
    fn a_flood_over_one_port_sends_nothing(rt: HostRuntime) -> Result<(), Fail> {
        let alloc = rt.alloc();
        let head = b"vericon-net 1\nsw 1\nho 4 5\npr 1\nstate\n";
        let network = net_of(alloc, head, b"t c 1 4\n")?;
        let outcome = outcome_of(alloc, LEARNT, &network, &PACKET)?;
        assert!(rt; is_outcome(&outcome, &[], &[Out::Flood], &network));
        Ok(())
    }

    /// A program, what is done, and whether an element is a stranger; else the event isn't enabled.
    const REFUSED: &[(&[u8], Act, bool)] = &[
        (
            LEARNT,
            Act::Fire(Event::PktIn {
                s: 3,
                a: 4,
                b: 5,
                i: 1,
            }),
            true,
        ),
        (
            LEARNT,
            Act::Fire(Event::PktIn {
                s: 1,
                a: 7,
                b: 5,
                i: 1,
            }),
            true,
        ),
        (
            LEARNT,
            Act::Fire(Event::PktIn {
                s: 1,
                a: 4,
                b: 1,
                i: 1,
            }),
            true,
        ),
        (
            LEARNT,
            Act::Fire(Event::PktIn {
                s: 1,
                a: 4,
                b: 5,
                i: 4,
            }),
            true,
        ),
        (
            LEARNT,
            Act::FireQuiet(Match {
                s: 1,
                a: 4,
                b: 5,
                i: 4,
            }),
            true,
        ),
        (
            LEARNT,
            Act::Fire(Event::PktFlow {
                s: 1,
                a: 4,
                b: 5,
                i: 1,
                o: 4,
            }),
            true,
        ),
        (
            LEARNT,
            Act::Fire(Event::PktFlow {
                s: 1,
                a: 4,
                b: 5,
                i: 1,
                o: 2,
            }),
            false,
        ),
        (
            LEARNT,
            Act::Fire(Event::PktFlow {
                s: 1,
                a: 5,
                b: 4,
                i: 1,
                o: 3,
            }),
            false,
        ),
        // no rules end where the program says nothing of time, or where none of the match is there
        (LEARNT, EXPIRY, false),
        (
            EXPIRES,
            Act::Fire(Event::Expire {
                s: 1,
                a: 5,
                b: 4,
                i: 1,
            }),
            false,
        ),
        (
            EXPIRES,
            Act::Fire(Event::Expire {
                s: 2,
                a: 4,
                b: 5,
                i: 2,
            }),
            false,
        ),
        (
            EXPIRES,
            Act::Fire(Event::Expire {
                s: 3,
                a: 4,
                b: 5,
                i: 1,
            }),
            true,
        ),
        (
            EXPIRES,
            Act::Fire(Event::Expire {
                s: 1,
                a: 4,
                b: 5,
                i: 4,
            }),
            true,
        ),
        (
            LEARNT,
            Act::Fire(Event::Expire {
                s: 1,
                a: 4,
                b: 9,
                i: 1,
            }),
            true,
        ),
    ];

    // Each event is refused, and the state is unchanged.
    fn are_refused(
        rt: &impl Abort,
        alloc: Global,
        rows: &[(&[u8], Act, bool)],
    ) -> Result<(), AllocError> {
        let network = net_of(alloc, THREE, b"ft 1 4 5 1 3\nft 2 4 5 1 2\n")?;
        for (i, row) in rows.iter().enumerate() {
            let outcome = outcome_of(alloc, row.0, &network, &row.1)?;
            assert!(rt; is_refused(&outcome, row.2, &network), "row {i}");
        }
        Ok(())
    }

    #[test]
    fn events_are_refused_for_the_first_reason(rt: HostRuntime) -> Result<(), Fail> {
        are_refused(&rt, rt.alloc(), REFUSED)?;
        Ok(())
    }

    #[test]
    fn begins_with_the_rows_of_the_program(rt: HostRuntime) -> Result<(), Fail> {
        let alloc = rt.alloc();
        let program =
            b"const h:HO; rel q(SW); rel r(HO, PR) = {(h, prt(2)), (h, prt(1)), (h, prt(2))};";
        let head = b"vericon-net 1\nsw 1\nho 4 5\npr 1 2\nc h 5\nstate\n";
        let network = net_of(alloc, head, b"t q 1\nft 1 4 5 1 2\n")?;
        let wanted = net_of(alloc, head, b"t r 5 1\nt r 5 2\n")?;
        let found = start_of(alloc, program, &network)?;
        assert!(rt; matches!(&found, Some(text) if text.as_slice() == wanted.as_slice()));
        Ok(())
    }
}
