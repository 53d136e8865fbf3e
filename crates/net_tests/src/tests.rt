//! The rows, and what is asked of them.
use csdn_core::event::Match;
use csdn_core::program::Program;
use csdn_core::terms::{Pred, RelId, Sort};
use net_structs::cells::Cells;
use net_structs::network::Network;
use net_structs::read::{NetParts, NetRefusal};
use net_structs::row::{Row, Rows};
use net_structs::state::State;
use net_text::{NetWhy, Text, print_net, read_net};
use sqlite_items::Items;
use std::alloc::{AllocError, Global};
use text_lines::LineRefusal;

/// The line of a text that is refused and the reason; none where the text is read.
pub fn refusal_of(
    alloc: Global,
    program: &Program,
    text: &[u8],
) -> Result<Option<(u64, NetWhy)>, AllocError> {
    match read_net(alloc, program, text) {
        Ok(_) => Ok(None),
        Err(LineRefusal::Line { number, why }) => Ok(Some((number, why))),
        Err(LineRefusal::Memory) => Err(AllocError),
    }
}

/// The case of a text, printed; none where the text is refused.
pub fn printed(alloc: Global, program: &Program, text: &[u8]) -> Result<Option<Text>, AllocError> {
    match read_net(alloc, program, text) {
        Ok(case) => Ok(Some(print_net(alloc, program, &case)?)),
        Err(LineRefusal::Line { .. }) => Ok(None),
        Err(LineRefusal::Memory) => Err(AllocError),
    }
}

/// The parts of a network: switches, hosts, ports, values of constants, and tuples.
type Given = (
    &'static [u64],
    &'static [u64],
    &'static [u64],
    &'static [u64],
    &'static [(Pred, &'static [u64])],
);

/// What became of parts.
#[derive(Clone, Copy, Debug, PartialEq, Eq)]
pub enum Found {
    /// They are a network, with so many tuples.
    Taken(usize),
    EmptySort(Sort),
    RepeatedElement(Sort, u64),
    MissingPort(u16),
    StrangeConst(usize),
    StrangeElement(usize),
}

fn rows_of(alloc: Global, tuples: &[(Pred, &[u64])]) -> Result<Rows, AllocError> {
    let mut rows = Items::new(alloc);
    for (pred, cells) in tuples {
        if cells.len() <= 5 {
            rows.push(Row {
                pred: *pred,
                cells: Cells::of(cells),
            })?;
        }
    }
    Ok(rows)
}

fn parts_of(alloc: Global, given: &Given) -> Result<NetParts, AllocError> {
    Ok(NetParts {
        sw: Items::from_slice(alloc, given.0)?,
        ho: Items::from_slice(alloc, given.1)?,
        pr: Items::from_slice(alloc, given.2)?,
        consts: Items::from_slice(alloc, given.3)?,
        rows: rows_of(alloc, given.4)?,
    })
}

/// What becomes of parts as a network of the program.
pub fn found_of(alloc: Global, program: &Program, given: &Given) -> Result<Found, AllocError> {
    let parts = parts_of(alloc, given)?;
    match Network::try_new(alloc, program, parts) {
        Ok(network) => Ok(Found::Taken(network.rows(alloc)?.len())),
        Err(NetRefusal::EmptySort { sort }) => Ok(Found::EmptySort(sort)),
        Err(NetRefusal::RepeatedElement { sort, element }) => {
            Ok(Found::RepeatedElement(sort, element))
        }
        Err(NetRefusal::MissingPort { k }) => Ok(Found::MissingPort(k)),
        Err(NetRefusal::StrangeConst { place }) => Ok(Found::StrangeConst(place)),
        Err(NetRefusal::StrangeElement { row }) => Ok(Found::StrangeElement(row)),
        Err(NetRefusal::Memory) => Err(AllocError),
    }
}

/// The state of these tuples.
fn state_of(
    alloc: Global,
    program: &Program,
    tuples: &[(Pred, &[u64])],
) -> Result<State, AllocError> {
    let mut state = State::try_empty(alloc, program)?;
    for (pred, cells) in tuples {
        if cells.len() <= 5 {
            state.insert(*pred, &Cells::of(cells))?;
        }
    }
    Ok(state)
}

mod rows {
    use super::*;
    use csdn_read::read_program;
    use std::process::Abort;
    use std::test::Fail;

    // two relations of each kind, one of them without arguments; constants of two sorts; a port with a name
    const PROGRAM: &[u8] =
        b"static link(SW, PR); static up(); rel tr(SW, HO); rel on(); const h:HO; const g:PR;
        topology T: forall S:SW. link(S, prt(2)) and up(); safety A: forall S:SW. tr(S, h) or on() or g = g;";

    // the lines before those of constants and static tuples
    const SORTS: &[u8] = b"vericon-net 1\nsw 1 2\nho 3 4\n# ports\npr 1 2\n";

    // .. and before those of the state
    const NETWORK: &[u8] = b"vericon-net 1\nsw 1 2\nho 3 4\npr 1 2\nc h 3\nt up\nc g 1\nstate\n";

    // Each text, behind the same front, is refused at a line, for a reason.
    fn refuses(
        rt: &impl Abort,
        alloc: Global,
        front: &[u8],
        rows: &[(&[u8], u64, NetWhy)],
    ) -> Result<(), AllocError> {
        let Ok(program) = read_program(alloc, PROGRAM) else {
            assert!(rt; false, "no program");
            return Ok(());
        };
        refuses_under(rt, alloc, &program, front, rows)
    }

    fn refuses_under(
        rt: &impl Abort,
        alloc: Global,
        program: &Program,
        front: &[u8],
        rows: &[(&[u8], u64, NetWhy)],
    ) -> Result<(), AllocError> {
        for (i, row) in rows.iter().enumerate() {
            let mut text = front.to_vec(alloc)?;
            text.extend_from_slice(row.0)?;
            let found = refusal_of(alloc, program, &text)?;
            assert_eq!(rt; found, Some((row.1, row.2)), "row {i}");
        }
        Ok(())
    }

    // Each network text has a case, which is printed as another text.
    fn prints(
        rt: &impl Abort,
        alloc: Global,
        program: &[u8],
        rows: &[(&[u8], &[u8])],
    ) -> Result<(), AllocError> {
        let Ok(program) = read_program(alloc, program) else {
            assert!(rt; false, "no program");
            return Ok(());
        };
        prints_under(rt, alloc, &program, rows)
    }

    fn prints_under(
        rt: &impl Abort,
        alloc: Global,
        program: &Program,
        rows: &[(&[u8], &[u8])],
    ) -> Result<(), AllocError> {
        for (i, row) in rows.iter().enumerate() {
            let Some(found) = printed(alloc, program, row.0)? else {
                assert!(rt; false, "refused in row {i}");
                return Ok(());
            };
            assert!(rt; found.as_slice() == row.1, "row {i}");
        }
        Ok(())
    }

    const HEADERS_AND_SORTS: &[(&[u8], u64, NetWhy)] = &[
        // the header
        (b"", 1, NetWhy::Header),
        (b"#", 2, NetWhy::Header),
        (b"\n  # a comment\n\n", 4, NetWhy::Header),
        (b"vericon-net", 1, NetWhy::Header),
        (b"vericon-net 2", 1, NetWhy::Header),
        (b"vericon-net 01", 1, NetWhy::Header),
        (b"vericon-net 1 1", 1, NetWhy::Header),
        (b"vericon-net 1 # a comment", 1, NetWhy::Header),
        (b"\n# a comment\nvericon-nets 1\n", 3, NetWhy::Header),
        (b"sw 1\n", 1, NetWhy::Header),
        // another line than the next one
        (b"vericon-net 1\nho 3\n", 2, NetWhy::Shape),
        (b"vericon-net 1\nsw 1\npr 1 2\n", 3, NetWhy::Shape),
        (b"vericon-net 1\nsw 1\nho 3\nend\n", 4, NetWhy::Shape),
        (b"vericon-net 1\nvericon-net 1\n", 2, NetWhy::Shape),
        // elements
        (b"vericon-net 1\nsw 1 x\n", 2, NetWhy::Number),
        (b"vericon-net 1\nsw 01\n", 2, NetWhy::Number),
        (
            b"vericon-net 1\nsw 18446744073709551616\n",
            2,
            NetWhy::Number,
        ),
        (b"vericon-net 1\nsw 1\nho -3\n", 3, NetWhy::Number),
        (b"vericon-net 1\nsw\n", 2, NetWhy::Empty),
        (b"vericon-net 1\nsw 1\nho\n", 3, NetWhy::Empty),
        (b"vericon-net 1\nsw 1\nho 3\npr\n", 4, NetWhy::Empty),
        (b"vericon-net 1\nsw 1 2 1\n", 2, NetWhy::Repeated),
        (b"vericon-net 1\nsw 1\nho 3 3\n", 3, NetWhy::Repeated),
        (b"vericon-net 1\nsw 1\nho 3\npr 1 3\n", 4, NetWhy::NoPort),
        // where the text ends too early
        (b"vericon-net 1", 2, NetWhy::Missing),
        (b"vericon-net 1\n", 2, NetWhy::Missing),
        (b"vericon-net 1\nsw 1\n", 3, NetWhy::Missing),
        (b"vericon-net 1\nsw 1\nho 3\n\n", 5, NetWhy::Missing),
        (b"vericon-net 1\nsw 1\nho 3\npr 1 2", 5, NetWhy::Missing),
        // two reasons in one line: the first of the table; two lines: the first line
        (b"vericon-net 1\nho 1 1 x\n", 2, NetWhy::Shape),
        (b"vericon-net 1\nsw 1 1 x\n", 2, NetWhy::Number),
        (b"vericon-net 1\nsw 1\nho 3\npr 1 1\n", 4, NetWhy::Repeated),
        (b"vericon-net 1\nsw 1 1\nho\n", 2, NetWhy::Repeated),
        (
            b"# a comment\n\n vericon-net  1 \n\nsw 1\n# another\nho\n",
            7,
            NetWhy::Empty,
        ),
    ];

    #[test]
    fn refuses_headers_and_sorts(rt: HostRuntime) -> Result<(), Fail> {
        refuses(&rt, rt.alloc(), b"", HEADERS_AND_SORTS)?;
        Ok(())
    }

    const CONSTANTS_AND_STATIC_TUPLES: &[(&[u8], u64, NetWhy)] = &[
        // what may not stand here
        (b"x", 6, NetWhy::Shape),
        (b"sw 1", 6, NetWhy::Shape),
        (b"ft 1 3 4 1 2", 6, NetWhy::Shape),
        (b"sent 1 3 4 1 2", 6, NetWhy::Shape),
        (b"packet 1 3 4 1", 6, NetWhy::Shape),
        // numbers of words
        (b"c", 6, NetWhy::Shape),
        (b"c h", 6, NetWhy::Shape),
        (b"c h 3 4", 6, NetWhy::Shape),
        (b"t", 6, NetWhy::Shape),
        (b"state 1", 6, NetWhy::Shape),
        // constants
        (b"c h 3\nc h 3", 7, NetWhy::Shape),
        (b"c h x", 6, NetWhy::Number),
        (b"c h 03", 6, NetWhy::Number),
        (b"c k 3", 6, NetWhy::Name),
        (b"c link 1", 6, NetWhy::Name),
        (b"c H 3", 6, NetWhy::Name),
        (b"c h 1", 6, NetWhy::Stranger),
        (b"c g 3", 6, NetWhy::Stranger),
        // tuples
        (b"t link 1 x", 6, NetWhy::Number),
        (b"t link x", 6, NetWhy::Number),
        (b"t nothing 1", 6, NetWhy::Name),
        (b"t h 3", 6, NetWhy::Name),
        (b"t tr 1 3", 6, NetWhy::Name),
        (b"t on", 6, NetWhy::Name),
        (b"t ft 1 3 4 1 2", 6, NetWhy::Name),
        (b"t link 1", 6, NetWhy::Arity),
        (b"t link 1 1 1", 6, NetWhy::Arity),
        (b"t link", 6, NetWhy::Arity),
        (b"t up 1", 6, NetWhy::Arity),
        (b"t link 3 1", 6, NetWhy::Stranger),
        (b"t link 1 3", 6, NetWhy::Stranger),
        // the end
        (b"", 6, NetWhy::Missing),
        (b"c h 3", 7, NetWhy::Missing),
        (b"end", 6, NetWhy::Missing),
        (b"c h 3\nend", 7, NetWhy::Missing),
        (b"c g 1\nend", 7, NetWhy::Missing),
        (b"end 1", 6, NetWhy::Shape),
        (b"c h 3\nc g 1\nend\nend", 9, NetWhy::Shape),
        (b"c h 3\nc g 1\nend\n\nt up", 10, NetWhy::Shape),
        // two reasons in one line
        (b"c k x y", 6, NetWhy::Shape),
        (b"c h 3\nc h x", 7, NetWhy::Shape),
        (b"c k x", 6, NetWhy::Number),
        (b"c k 9", 6, NetWhy::Name),
        (b"t nothing x", 6, NetWhy::Number),
        (b"t tr 9", 6, NetWhy::Name),
        (b"t link 9", 6, NetWhy::Arity),
    ];

    #[test]
    fn refuses_constants_and_static_tuples(rt: HostRuntime) -> Result<(), Fail> {
        refuses(&rt, rt.alloc(), SORTS, CONSTANTS_AND_STATIC_TUPLES)?;
        Ok(())
    }

    const STATES_AND_PACKETS: &[(&[u8], u64, NetWhy)] = &[
        // what may not stand here
        (b"state", 9, NetWhy::Shape),
        (b"c h 3", 9, NetWhy::Shape),
        (b"flow 1 3 4 1 2", 9, NetWhy::Shape),
        (b"packet 1 3 4 1\nt on", 10, NetWhy::Shape),
        (b"packet 1 3 4 1\npacket 1 3 4 1", 10, NetWhy::Shape),
        // numbers of words
        (b"t", 9, NetWhy::Shape),
        (b"packet 1 3 4", 9, NetWhy::Shape),
        (b"packet 1 3 4 1 2", 9, NetWhy::Shape),
        (b"packet", 9, NetWhy::Shape),
        (b"end 1", 9, NetWhy::Shape),
        (b"packet 1 3 4 1\nend 1", 10, NetWhy::Shape),
        (b"end\n# a comment\nend", 11, NetWhy::Shape),
        // tuples
        (b"t tr 1 x", 9, NetWhy::Number),
        (b"t nothing", 9, NetWhy::Name),
        (b"t link 1 1", 9, NetWhy::Name),
        (b"t up", 9, NetWhy::Name),
        (b"t rcv_this 1 3 4 1", 9, NetWhy::Name),
        (b"t tr 1", 9, NetWhy::Arity),
        (b"t tr 1 3 3", 9, NetWhy::Arity),
        (b"t on 1", 9, NetWhy::Arity),
        (b"t tr 3 3", 9, NetWhy::Stranger),
        (b"t tr 1 1", 9, NetWhy::Stranger),
        (b"ft 1 3 4 1 x", 9, NetWhy::Number),
        (b"ft 1 3 4 1", 9, NetWhy::Arity),
        (b"ft", 9, NetWhy::Arity),
        (b"ft 1 3 4 1 2 2", 9, NetWhy::Arity),
        (b"ft 1 3 4 1 3", 9, NetWhy::Stranger),
        (b"sent 1 3 4 1 x", 9, NetWhy::Number),
        (b"sent 1 3 4 1", 9, NetWhy::Arity),
        (b"sent 3 3 4 1 2", 9, NetWhy::Stranger),
        (b"sent 1 3 4 1 2\nsent 1 3 4 3 2", 10, NetWhy::Stranger),
        // packets
        (b"packet x 3 4 1", 9, NetWhy::Number),
        (b"packet 1 3 4 x", 9, NetWhy::Number),
        (b"packet 3 3 4 1", 9, NetWhy::Stranger),
        (b"packet 1 1 4 1", 9, NetWhy::Stranger),
        (b"packet 1 3 2 1", 9, NetWhy::Stranger),
        (b"packet 1 3 4 4", 9, NetWhy::Stranger),
        // the end
        (b"", 9, NetWhy::Missing),
        (b"packet 1 3 4 1\n\n", 11, NetWhy::Missing),
        // two reasons in one line
        (b"packet x 3 4", 9, NetWhy::Shape),
        (b"packet 9 3 4 x", 9, NetWhy::Number),
        (b"ft x", 9, NetWhy::Number),
        (b"ft 9", 9, NetWhy::Arity),
        (b"t link 9 x", 9, NetWhy::Number),
    ];

    #[test]
    fn refuses_states_and_packets(rt: HostRuntime) -> Result<(), Fail> {
        refuses(&rt, rt.alloc(), NETWORK, STATES_AND_PACKETS)?;
        Ok(())
    }

    // a text, and the text that is printed of its case
    const LISTED: &[u8] =
        b"\n# a network\n  vericon-net  1  \nsw 2 1\nho 4 3\npr 2 1\nt up\nt link 2 1\nc g 2\nt link 1 2\n\nc h 4\n  # again\nt link 2 1\nstate\nsent 1 3 4 1 2\nft 2 3 4 1 1\nt tr 2 3\nt on\nft 1 4 4 1 2\nt tr 1 4\nt on\nft 1 3 4 1 2\npacket 1 3 4 1\n\nend\n\n# behind";

    const ORDERED: &[u8] =
        b"vericon-net 1\nsw 1 2\nho 3 4\npr 1 2\nc h 4\nc g 2\nt link 1 2\nt link 2 1\nt up\nstate\nt tr 1 4\nt tr 2 3\nt on\nft 1 3 4 1 2\nft 1 4 4 1 2\nft 2 3 4 1 1\nsent 1 3 4 1 2\npacket 1 3 4 1\nend\n";

    const PRINTED: &[(&[u8], &[u8])] = &[
        (LISTED, ORDERED),
        (ORDERED, ORDERED),
        // no state, no tuples, and the largest element
        (
            b"vericon-net 1\nsw 18446744073709551615\nho 0\npr 2\nc h 0\nc g 2\nend",
            b"vericon-net 1\nsw 18446744073709551615\nho 0\npr 2\nc h 0\nc g 2\nend\n",
        ),
        // a state without tuples
        (
            b"vericon-net 1\nsw 1\nho 1\npr 2\nc g 2\nc h 1\nstate\nend\n",
            b"vericon-net 1\nsw 1\nho 1\npr 2\nc h 1\nc g 2\nstate\nend\n",
        ),
        // numbers and not digits decide the order
        (
            b"vericon-net 1\nsw 10 9\nho 1\npr 10 2 9\nc h 1\nc g 2\nt link 10 2\nt link 9 10\nt link 9 9\nstate\npacket 9 1 1 2\nend\n",
            b"vericon-net 1\nsw 9 10\nho 1\npr 2 9 10\nc h 1\nc g 2\nt link 9 9\nt link 9 10\nt link 10 2\nstate\npacket 9 1 1 2\nend\n",
        ),
    ];

    #[test]
    fn prints_in_order(rt: HostRuntime) -> Result<(), Fail> {
        prints(&rt, rt.alloc(), PROGRAM, PRINTED)?;
        Ok(())
    }

    const FIREWALL: &[u8] =
        b"rel tr(SW, HO); safety guarded: forall S:SW, A:HO, B:HO. S.sent(A->B, prt(2)->prt(1)) -> tr(S, A);
        pktIn(s, src->dst, prt(1)) { s.forward(src->dst, prt(1)->prt(2)); tr.insert(s, dst); s.install(src->dst, prt(1)->prt(2)); }";

    const LEARNING: &[u8] = b"rel conn(SW, PR, HO); topology two: not prt(1) = prt(2);
        pktIn(s, src->dst, i) { conn.insert(s, i, src); pick o:PR where conn(s, o, dst) { s.install(src->dst, i->o); } else { s.flood(src->dst, i); } }";

    const GUARDED: &[u8] =
        b"vericon-net 1\nsw 1\nho 1 2\npr 1 2\nstate\nt tr 1 2\nft 1 1 2 1 2\nsent 1 1 2 1 2\npacket 1 2 1 2\nend\n";

    const BARE: &[u8] = b"vericon-net 1\nsw 7\nho 11\npr 1 2\nend\n";

    const LEARNED: &[u8] =
        b"vericon-net 1\nsw 1 2\nho 1 2\npr 1 2 3\nstate\nt conn 1 1 1\nt conn 1 3 2\nt conn 2 1 2\nft 1 1 2 1 3\nsent 1 1 2 1 2\nsent 1 1 2 1 3\npacket 1 1 2 1\nend\n";

    #[test]
    fn reads_printed_cases_again(rt: HostRuntime) -> Result<(), Fail> {
        prints(
            &rt,
            rt.alloc(),
            FIREWALL,
            &[(GUARDED, GUARDED), (BARE, BARE)],
        )?;
        prints(&rt, rt.alloc(), LEARNING, &[(LEARNED, LEARNED)])?;
        Ok(())
    }

    // `link` and `up` are static, `tr` and `on` are not, in this order
    const LINK: Pred = Pred::Stored(RelId(0));

    const UP: Pred = Pred::Stored(RelId(1));

    const TR: Pred = Pred::Stored(RelId(2));

    const PARTS: &[(Given, Found)] = &[
        // in any order, and a tuple that stands twice is read once
        (
            (
                &[2, 1],
                &[4, 3],
                &[2, 1],
                &[3, 2],
                &[(LINK, &[2, 1]), (UP, &[]), (LINK, &[1, 2]), (LINK, &[2, 1])],
            ),
            Found::Taken(3),
        ),
        ((&[1], &[1], &[2], &[1, 2], &[]), Found::Taken(0)),
        // each reason
        ((&[], &[3], &[2], &[3, 2], &[]), Found::EmptySort(Sort::Sw)),
        ((&[1], &[], &[2], &[3, 2], &[]), Found::EmptySort(Sort::Ho)),
        ((&[1], &[3], &[], &[3, 2], &[]), Found::EmptySort(Sort::Pr)),
        (
            (&[1, 2, 2, 1], &[3], &[2], &[3, 2], &[]),
            Found::RepeatedElement(Sort::Sw, 2),
        ),
        (
            (&[1], &[3, 4, 3], &[2], &[3, 2], &[]),
            Found::RepeatedElement(Sort::Ho, 3),
        ),
        (
            (&[1], &[3], &[2, 2], &[3, 2], &[]),
            Found::RepeatedElement(Sort::Pr, 2),
        ),
        ((&[1], &[3], &[1, 3], &[3, 1], &[]), Found::MissingPort(2)),
        ((&[1], &[3], &[2], &[4, 2], &[]), Found::StrangeConst(0)),
        ((&[1], &[3], &[2], &[3, 1], &[]), Found::StrangeConst(1)),
        ((&[1], &[3], &[2], &[3], &[]), Found::StrangeConst(1)),
        ((&[1], &[3], &[2], &[3, 2, 2], &[]), Found::StrangeConst(2)),
        (
            (&[1], &[3], &[2], &[3, 2], &[(UP, &[]), (LINK, &[2, 2])]),
            Found::StrangeElement(1),
        ),
        (
            (&[1], &[3], &[2], &[3, 2], &[(LINK, &[1])]),
            Found::StrangeElement(0),
        ),
        (
            (&[1], &[3], &[2], &[3, 2], &[(UP, &[1])]),
            Found::StrangeElement(0),
        ),
        (
            (&[1], &[3], &[2], &[3, 2], &[(TR, &[1, 3])]),
            Found::StrangeElement(0),
        ),
        (
            (&[1], &[3], &[2], &[3, 2], &[(Pred::Ft, &[1, 3, 3, 2, 2])]),
            Found::StrangeElement(0),
        ),
        (
            (&[1], &[3], &[2], &[3, 2], &[(Pred::Stored(RelId(9)), &[])]),
            Found::StrangeElement(0),
        ),
        // several reasons: the first in the order of the refusals
        (
            (&[1, 1], &[], &[3], &[], &[(TR, &[])]),
            Found::EmptySort(Sort::Ho),
        ),
        (
            (&[1], &[3, 3], &[3, 3], &[], &[]),
            Found::RepeatedElement(Sort::Ho, 3),
        ),
        (
            (&[1], &[3], &[1], &[9, 9], &[(TR, &[])]),
            Found::MissingPort(2),
        ),
        (
            (&[1], &[3], &[2], &[9, 9], &[(TR, &[])]),
            Found::StrangeConst(0),
        ),
    ];

    fn are_found(
        rt: &impl Abort,
        alloc: Global,
        program: &Program,
        rows: &[(Given, Found)],
    ) -> Result<(), AllocError> {
        for (i, row) in rows.iter().enumerate() {
            let found = found_of(alloc, program, &row.0)?;
            assert_eq!(rt; found, row.1, "row {i}");
        }
        Ok(())
    }

    // in any order
    const TUPLES: &[(Pred, &[u64])] = &[
        (Pred::Sent, &[1, 3, 4, 1, 1]),
        (Pred::Ft, &[1, 3, 4, 1, 2]),
        (TR, &[2, 3]),
        (Pred::Ft, &[1, 3, 4, 2, 1]),
        (Pred::Ft, &[1, 3, 4, 1, 1]),
        (TR, &[1, 4]),
        (Pred::Ft, &[1, 3, 4, 1, 2]),
    ];

    // The tuples of each relation rise, and so do the outputs of a match.
    fn are_listed(rt: &impl Abort, alloc: Global, program: &Program) -> Result<(), AllocError> {
        let state = state_of(alloc, program, TUPLES)?;
        let flows = rows_of(
            alloc,
            &[
                (Pred::Ft, &[1, 3, 4, 1, 1]),
                (Pred::Ft, &[1, 3, 4, 1, 2]),
                (Pred::Ft, &[1, 3, 4, 2, 1]),
            ],
        )?;
        assert!(rt; state.rows(alloc, Pred::Ft)?.as_slice() == flows.as_slice());
        let trusted = rows_of(alloc, &[(TR, &[1, 4]), (TR, &[2, 3])])?;
        assert!(rt; state.rows(alloc, TR)?.as_slice() == trusted.as_slice());
        assert!(rt; state.rows(alloc, UP)?.is_empty());
        let outputs = state.outputs(
            alloc,
            &Match {
                s: 1,
                a: 3,
                b: 4,
                i: 1,
            },
        )?;
        assert!(rt; outputs.as_slice() == [1, 2].as_slice());
        let others = state.outputs(
            alloc,
            &Match {
                s: 1,
                a: 4,
                b: 3,
                i: 1,
            },
        )?;
        assert!(rt; others.is_empty());
        Ok(())
    }

    #[test]
    fn networks_and_states_are_made_of_parts(rt: HostRuntime) -> Result<(), Fail> {
        let alloc = rt.alloc();
        let Ok(program) = read_program(alloc, PROGRAM) else {
            assert!(rt; false, "no program");
            return Ok(());
        };
        are_found(&rt, alloc, &program, PARTS)?;
        are_listed(&rt, alloc, &program)?;
        Ok(())
    }
}
