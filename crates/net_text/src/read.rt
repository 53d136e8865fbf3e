//! The reader of network texts.
ghost use Rattle.std.specs.Prelude.{◌≡◌, None, Some};
ghost use Rattle.text_lines.specs.Machine.{reading};
ghost use Rattle.text_lines.specs.Gives.{Finds, Gives};
ghost use Rattle.net_text.specs.NetText.{end_of, fact_line, finish as finish_of, flow_of_line, item_line, net_format, static_of_line, step, stored_of_line};

use crate::line::{all_values, behind, constant, flow, header, packet, ports, sort, tuple};
use crate::place::{NetPlace, Open};
use crate::refusal::{NetWhy, Stop};
use csdn_core::event::Packet;
use csdn_core::program::Program;
use csdn_core::terms::Pred;
use net_structs::case::Case;
use net_structs::state::State;
use std::alloc::Global;
use text_lines::{LineRefusal, Words, read_lines};

/// The network of a text, with its state and its packet (docs/FORMATS.md, "Network text"). It goes over the text once;
/// looking an element or a tuple up takes log n steps.
///
/// # Errors
///
/// `Line` with the first line that is refused, counted from 1, and the first reason in the order of `NetWhy`; or with the
/// line one past the last, where the text ends too early. `Memory` where memory ran out.
///
/// # Example
///
/// From the tests `prints_in_order` and `refuses_headers_and_sorts` of net_tests, over a program that names port 2 and
/// declares `const h:HO; const g:PR;`.
///
/// ```rust
/// let text = b"vericon-net 1\nsw 1\nho 1\npr 2\nc g 2\nc h 1\nstate\nend\n";
/// let case = read_net(alloc, &program, text)?;
/// let printed = print_net(alloc, &program, &case)?;
/// assert!(rt; printed.as_slice() == b"vericon-net 1\nsw 1\nho 1\npr 2\nc h 1\nc g 2\nstate\nend\n".as_slice());
/// match read_net(alloc, &program, b"vericon-net 1\nsw 1 x\n") {
///     Err(LineRefusal::Line { number, why }) => assert!(rt; number == 2 && why == NetWhy::Number),
///     _ => assert!(rt; false),
/// }
/// ```
pub fn read_net(alloc: Global, program: &Program, text: &[u8]) -> Result<Case, LineRefusal<NetWhy>>
    ensures { Gives result (reading (net_format program.now) text.now) }
{
    read_lines(
        text,
        NetPlace::Header,
        |place, line| take(alloc, program, place, Words::new(line)),
        finish,
    )
}

// The case of a text that ends here.
fn finish(place: NetPlace) -> Result<Case, NetWhy>
    ensures { result ≡ finish_of place }
{
    match place {
        NetPlace::Header => Err(NetWhy::Header),
        NetPlace::Ended(case) => Ok(case),
        _ => Err(NetWhy::Missing),
    }
}

// The place behind a line with these words.
fn take(alloc: Global, program: &Program, place: NetPlace, words: Words) -> Result<NetPlace, Stop>
    ensures { Finds result (step program.now place words.entry) (λ next. next) }
{
    match place {
        NetPlace::Header => {
            header(words)?;
            Ok(NetPlace::Switches)
        }
        NetPlace::Switches => {
            let words = behind(b"sw", words)?;
            let sw = sort(alloc, words)?;
            Ok(NetPlace::Hosts(sw))
        }
        NetPlace::Hosts(sw) => {
            let words = behind(b"ho", words)?;
            let ho = sort(alloc, words)?;
            Ok(NetPlace::Ports(sw, ho))
        }
        NetPlace::Ports(sw, ho) => {
            let words = behind(b"pr", words)?;
            let draft = ports(alloc, program, &sw, &ho, words)?;
            Ok(NetPlace::Items(draft))
        }
        NetPlace::Items(draft) => take_item(alloc, program, draft, words),
        NetPlace::Facts(draft, state) => take_fact(alloc, program, draft, state, words),
        NetPlace::Closing(draft, state, packet) => {
            let words = behind(b"end", words)?;
            close(alloc, draft, Some(state), packet, words)
        }
        NetPlace::Ended(_) => Err(Stop::Refused(NetWhy::Shape)),
    }
}

// A line where constants and static tuples stand.
#[tactic(auto, unfolding(crate::specs::NetText::item_line, crate::specs::NetText::item_by))]
fn take_item(alloc: Global, program: &Program, draft: Open, words: Words) -> Result<NetPlace, Stop>
    ensures { Finds result (item_line program.now draft words.entry) (λ next. next) }
{
    let Some((key, words)) = words.next() else {
        return Err(Stop::Refused(NetWhy::Shape));
    };
    if key == b"c".as_slice() {
        let draft = constant(program, draft, words)?;
        Ok(NetPlace::Items(draft))
    } else if key == b"t".as_slice() {
        let draft = with_static(alloc, program, draft, words)?;
        Ok(NetPlace::Items(draft))
    } else if key == b"state".as_slice() {
        if words.end().is_none() {
            return Err(Stop::Refused(NetWhy::Shape));
        }
        match State::try_empty(alloc, program) {
            Ok(state) => Ok(NetPlace::Facts(draft, state)),
            Err(_) => Err(Stop::Memory),
        }
    } else if key == b"end".as_slice() {
        close(alloc, draft, None, Packet::Nothing, words)
    } else {
        Err(Stop::Refused(NetWhy::Shape))
    }
}

// A line where the tuples of the state stand.
#[tactic(auto, unfolding(crate::specs::NetText::fact_line, crate::specs::NetText::fact_by))]
fn take_fact(
    alloc: Global,
    program: &Program,
    draft: Open,
    state: State,
    words: Words,
) -> Result<NetPlace, Stop>
    ensures { Finds result (fact_line program.now draft state words.entry) (λ next. next) }
{
    let Some((key, words)) = words.next() else {
        return Err(Stop::Refused(NetWhy::Shape));
    };
    if key == b"t".as_slice() {
        let state = with_stored(alloc, program, &draft, state, words)?;
        Ok(NetPlace::Facts(draft, state))
    } else if key == b"ft".as_slice() {
        let state = with_flow(alloc, Pred::Ft, &draft, state, words)?;
        Ok(NetPlace::Facts(draft, state))
    } else if key == b"sent".as_slice() {
        let state = with_flow(alloc, Pred::Sent, &draft, state, words)?;
        Ok(NetPlace::Facts(draft, state))
    } else if key == b"packet".as_slice() {
        let packet = packet(&draft.network, words)?;
        Ok(NetPlace::Closing(draft, state, packet))
    } else if key == b"end".as_slice() {
        close(alloc, draft, Some(state), Packet::Nothing, words)
    } else {
        Err(Stop::Refused(NetWhy::Shape))
    }
}

#[tactic(auto, unfolding(crate::specs::NetText::static_of_line))]
fn with_static(alloc: Global, program: &Program, draft: Open, words: Words) -> Result<Open, Stop>
    ensures { Finds result (static_of_line program.now draft words.entry) (λ new. new) }
{
    let (rel, cells) = tuple(alloc, program, true, &draft.network, words)?;
    let Open { network, values } = draft;
    let mut network = network;
    match network.insert(rel, &cells) {
        Ok(_) => Ok(Open { network, values }),
        Err(_) => Err(Stop::Memory),
    }
}

#[tactic(auto, unfolding(crate::specs::NetText::stored_of_line))]
fn with_stored(
    alloc: Global,
    program: &Program,
    draft: &Open,
    state: State,
    words: Words,
) -> Result<State, Stop>
    ensures { Finds result (stored_of_line program.now draft.now state words.entry) (λ new. new) }
{
    let (rel, cells) = tuple(alloc, program, false, &draft.network, words)?;
    let mut state = state;
    match state.insert(Pred::Stored(rel), &cells) {
        Ok(_) => Ok(state),
        Err(_) => Err(Stop::Memory),
    }
}

#[tactic(auto, unfolding(crate::specs::NetText::flow_of_line))]
fn with_flow(
    alloc: Global,
    pred: Pred,
    draft: &Open,
    state: State,
    words: Words,
) -> Result<State, Stop>
    ensures { Finds result (flow_of_line pred draft.now state words.entry) (λ new. new) }
{
    let cells = flow(alloc, &draft.network, words)?;
    let mut state = state;
    match state.insert(pred, &cells) {
        Ok(_) => Ok(state),
        Err(_) => Err(Stop::Memory),
    }
}

// The line `end`, from the words behind it.
#[tactic(auto, unfolding(crate::specs::NetText::end_of))]
fn close(
    alloc: Global,
    draft: Open,
    state: Option<State>,
    packet: Packet,
    words: Words,
) -> Result<NetPlace, Stop>
    ensures { Finds result (end_of draft state packet words.entry) (λ next. next) }
{
    if words.end().is_none() {
        return Err(Stop::Refused(NetWhy::Shape));
    }
    let Open { network, values } = draft;
    match all_values(alloc, &values) {
        Ok(Some(values)) => Ok(NetPlace::Ended(Case {
            network: network.with_values(values),
            state,
            packet,
        })),
        Ok(None) => Err(Stop::Refused(NetWhy::Missing)),
        Err(_) => Err(Stop::Memory),
    }
}
