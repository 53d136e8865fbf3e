//! The rows, and what is asked of them.
ghost use Rattle.csdn_conditions.specs.Closed.{IsClosed};
ghost use Rattle.decision_laws.specs.Laws.{IsSentence};

use class_networks::making::network_of;
use clause_search::{Outcome, solve};
use csdn_conditions::class::{Class, USUAL_SIZE, class_of};
use csdn_conditions::condition::condition;
use csdn_conditions::kinds::condition_count;
use csdn_conditions::sentence::Condition;
use csdn_core::program::Program;
use csdn_core::syntax::Formula;
use csdn_read::read_program;
use ground_inst::making::ground;
use net_text::print_net;
use std::alloc::{AllocError, Global};
use std::process::Abort;
use std::test::Fail;

/// The text of a network and state in which a condition of level 0 is broken; nothing where there is no such condition, none
/// break it, or the text is no program.
fn broken(alloc: Global, text: &[u8], index: u32) -> Result<Vec<u8>, AllocError> {
    match read_program(alloc, text) {
        Ok(program) => broken_in(alloc, &program, index),
        Err(_) => Ok(Vec::new(alloc)),
    }
}

fn broken_in(alloc: Global, program: &Program, index: u32) -> Result<Vec<u8>, AllocError> {
    // Its contract says that the program is well-sorted.
    program.parts();
    if index >= condition_count(program, 0) {
        return Ok(Vec::new(alloc));
    }
    match condition(alloc, program, 0, index) {
        Ok(condition) => broken_condition(alloc, program, condition),
        Err(_) => Err(AllocError),
    }
}

fn broken_condition(
    alloc: Global,
    program: &Program,
    condition: Condition,
) -> Result<Vec<u8>, AllocError>
    requires hypothesis { IsClosed program.now condition.hypothesis }
    requires goal { IsClosed program.now condition.goal }
{
    let sentence = condition.into_sentence(alloc)?;
    match class_of(program, USUAL_SIZE, &sentence) {
        Class::Inside => network_text(alloc, program, &sentence),
        _ => Ok(Vec::new(alloc)),
    }
}

fn network_text(alloc: Global, program: &Program, sentence: &Formula) -> Result<Vec<u8>, AllocError>
    requires { IsSentence program.now sentence.now }
{
    let made = ground(alloc, program, sentence)?;
    match solve(alloc, &made.clauses)? {
        Outcome::Model(valuation) => {
            let case = network_of(alloc, program, &made, &valuation)?;
            let text = print_net(alloc, program, &case)?;
            Vec::from_slice(alloc, text.as_slice())
        }
        Outcome::Refuted(_) => Ok(Vec::new(alloc)),
    }
}

/// A program, a condition, and the only text of a network and state that its constants can make.
struct Row {
    program: &'static [u8],
    index: u32,
    text: &'static [u8],
}

const ROWS: &[Row] = &[
    // Two hosts, a port with a numeral, and another one, which a constant stands for too.
    Row {
        program: b"static link(HO, PR); const c:PR; topology T: exists X:HO, Y:HO, P:PR. (not X = Y) and (not P = prt(2)) and c = P and link(X, P) and (not link(Y, P)) and (not link(X, prt(2))) and link(Y, prt(2));",
        index: 0,
        text: b"vericon-net 1\nsw 1\nho 1 2\npr 1 2\nc c 1\nt link 1 1\nt link 2 2\nstate\nend\n",
    },
    // The least number that is no numeral stands between them.
    Row {
        program: b"topology T: exists P:PR. not P = prt(7) and not P = prt(1);",
        index: 0,
        text: b"vericon-net 1\nsw 1\nho 1\npr 1 2 7\nstate\nend\n",
    },
    // All constants of the hosts are one host, with one tuple.
    Row {
        program: b"rel p(HO); rel q(); topology one: forall X:HO, Y:HO. X = Y; safety A: (forall X:HO. p(X)) and not q(); pktIn(s, src->dst, i) { q.insert(); }",
        index: 2,
        text: b"vericon-net 1\nsw 1\nho 1\npr 1\nstate\nt p 1\nend\n",
    },
    // Two numerals are two ports, and no host differs from itself.
    Row {
        program: b"topology T: prt(1) = prt(2);",
        index: 0,
        text: b"",
    },
    Row {
        program: b"topology T: forall X:HO. not X = X;",
        index: 0,
        text: b"",
    },
];

#[test]
fn makes_networks_of_classes(rt: HostRuntime) -> Result<(), Fail> {
    compare(&rt, rt.alloc(), ROWS)?;
    Ok(())
}

fn compare(rt: &impl Abort, alloc: Global, rows: &[Row]) -> Result<(), AllocError> {
    for (i, row) in rows.iter().enumerate() {
        let found = broken(alloc, row.program, row.index)?;
        assert!(rt; found.as_slice() == row.text, "row {i}");
    }
    Ok(())
}
