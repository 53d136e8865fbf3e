//! Words of calls with what they ask for, by the rules of the commands.
use super::*;
use crate::table::Command;
use std::alloc::{AllocError, Global};
use std::process::Abort;
use std::test::Fail;

/// The words of a call, and what they ask for.
type Case = (&'static [&'static str], &'static str);

/// Commands with numbers among their options and operands.
const NUMBERED: [CommandRow; 3] = [
    (
        "check",
        Command::Check,
        &[
            ("--strengthen", Kind::Number { least: 0, most: 9 }),
            ("--log", Kind::Text),
        ],
        &[Kind::Text],
        &[],
    ),
    (
        "eval",
        Command::Eval,
        &[],
        &[Kind::Text, Kind::Text],
        &[
            Kind::Number { least: 0, most: 9 },
            Kind::Number {
                least: 0,
                most: 0xffff_ffff,
            },
        ],
    ),
    (
        "show",
        Command::Show,
        &[],
        &[Kind::Number { least: 1, most: 60 }, Kind::Text],
        &[],
    ),
];

fn words_of(alloc: Global, words: &[&str]) -> Result<Vec<String>, AllocError> {
    let mut owned = Vec::new(alloc);
    for word in words {
        owned.push(String::from_str(alloc, word)?)?;
    }
    Ok(owned)
}

// The command, the options with their values, and the operands.
fn printed(alloc: Global, request: &Request) -> Result<String, AllocError> {
    let mut text = format!(in alloc; "{:?}", request.command())?;
    for option in [
        "--strengthen",
        "--instances",
        "--log",
        "--workers",
        "--sessions",
        "--port",
        "--history",
    ] {
        if let Some(value) = request.option(option) {
            text.push_str(" ")?;
            text.push_str(option)?;
            text.push_str("=")?;
            text.push_str(value)?;
        }
    }
    for index in 0..5 {
        let word = request.operand(index);
        if !word.is_empty() {
            text.push_str(" ")?;
            text.push_str(word)?;
        }
    }
    Ok(text)
}

// Each call asks, by this table, for what stands in its row.
fn ask_for(
    rt: &impl Abort,
    alloc: Global,
    rows: &[CommandRow],
    cases: &[Case],
) -> Result<(), Fail> {
    for (words, asked) in cases {
        let owned = words_of(alloc, words)?;
        match read_call(rows, &owned) {
            Some(request) => {
                assert_eq!(rt; printed(alloc, &request)?.as_str(), *asked);
            }
            None => assert_eq!(rt; "usage", *asked),
        }
    }
    Ok(())
}

const TODAY: &[Case] = &[
    (&[], "usage"),
    (&["check"], "usage"),
    (&["check", "p"], "Check p"),
    (&["check", "p", "q"], "usage"),
    (&["check", "--log"], "usage"),
    (&["check", "--strengthen"], "usage"),
    (
        &["check", "--strengthen", "0", "p"],
        "Check --strengthen=0 p",
    ),
    (&["check", "--strengthen", "10", "p"], "usage"),
    (&["check", "--instances", "1", "p"], "Check --instances=1 p"),
    (
        &[
            "check",
            "--instances",
            "9007199254740992",
            "--strengthen",
            "1",
            "p",
        ],
        "Check --strengthen=1 --instances=9007199254740992 p",
    ),
    (&["check", "--instances", "0", "p"], "usage"),
    (&["check", "--instances", "9007199254740993", "p"], "usage"),
    (&["check", "--instances", "01", "p"], "usage"),
    (&["check", "--instances", "p"], "usage"),
    (&["check", "--log", "f", "p"], "Check --log=f p"),
    (&["check", "--log", "f"], "usage"),
    (&["check", "--log", "f", "--log", "g", "p"], "usage"),
    (&["check", "--logs"], "Check --logs"),
    (&["Check", "p"], "usage"),
    (&["show", "--log"], "Show --log"),
    (&["show", "p", "q"], "usage"),
    (&["eval", "p"], "usage"),
    (&["eval", "p", "n"], "Eval p n"),
    (&["eval", "p", "n", "0"], "usage"),
    (&["eval", "p", "n", "0", "12"], "Eval p n 0 12"),
    (&["eval", "p", "n", "9", "12"], "Eval p n 9 12"),
    (&["eval", "p", "n", "10", "12"], "usage"),
    (&["eval", "p", "n", "00", "12"], "usage"),
    (&["eval", "p", "n", "0", "01"], "usage"),
    (&["eval", "p", "n", "0", "+1"], "usage"),
    (&["eval", "p", "n", "0", ""], "usage"),
    (
        &["eval", "p", "n", "0", "4294967295"],
        "Eval p n 0 4294967295",
    ),
    (&["eval", "p", "n", "0", "4294967296"], "usage"),
    (&["eval", "p", "n", "0", "12", "x"], "usage"),
    (&["trace", "p", "n", "j"], "Trace p n j"),
    (&["trace", "p", "n"], "usage"),
    (&["conditions", "p"], "Conditions p"),
    (&["conditions", "--strengthen"], "usage"),
    (
        &["conditions", "--strengthen", "9", "p"],
        "Conditions --strengthen=9 p",
    ),
    (&["conditions", "--log"], "Conditions --log"),
    (
        &["conditions", "--instances", "20000000", "p"],
        "Conditions --instances=20000000 p",
    ),
    (&["conditions", "--instances"], "usage"),
    (&["clauses", "c"], "Clauses c"),
    (&["frames", "f"], "Frames f"),
    (&["frames", ""], "Frames"),
    (&["run", "p", "n"], "Run p n"),
    (&["run", "p"], "usage"),
    (&["run", "p", "n", "j"], "usage"),
    (&["run", "--log", "f", "p", "n"], "usage"),
    (
        &[
            "run",
            "--history",
            "4194304",
            "--port",
            "65535",
            "--sessions",
            "1048576",
            "--workers",
            "64",
            "--instances",
            "1",
            "--strengthen",
            "9",
            "p",
            "n",
        ],
        "Run --strengthen=9 --instances=1 --workers=64 --sessions=1048576 --port=65535 --history=4194304 p n",
    ),
    (&["run", "--workers", "0", "p", "n"], "usage"),
    (&["run", "--workers", "65", "p", "n"], "usage"),
    (&["run", "--sessions", "0", "p", "n"], "usage"),
    (&["run", "--sessions", "1048577", "p", "n"], "usage"),
    (&["run", "--port", "0", "p", "n"], "usage"),
    (&["run", "--port", "65536", "p", "n"], "usage"),
    (&["run", "--history", "0", "p", "n"], "usage"),
    (&["run", "--history", "4194305", "p", "n"], "usage"),
    (&["check", "--workers", "1", "p"], "usage"),
    (&["make", "2", "f"], "Make 2 f"),
    (&["make", "0", "f"], "usage"),
    (&["make", "61", "f"], "usage"),
    (&["make", "2"], "usage"),
];

#[test]
fn words_of_today_ask_for_this(rt: HostRuntime) -> Result<(), Fail> {
    ask_for(&rt, rt.alloc(), &COMMANDS, TODAY)
}

const OPTIONS: &[Case] = &[
    (&["check", "p"], "Check p"),
    (
        &["check", "--strengthen", "1", "p"],
        "Check --strengthen=1 p",
    ),
    (
        &["check", "--log", "f", "--strengthen", "9", "p"],
        "Check --strengthen=9 --log=f p",
    ),
    (
        &["check", "--strengthen", "9", "--log", "f", "p"],
        "Check --strengthen=9 --log=f p",
    ),
    // a value may spell an option
    (&["check", "--log", "--log", "p"], "Check --log=--log p"),
    (
        &["check", "--log", "--strengthen", "p"],
        "Check --log=--strengthen p",
    ),
    // a file may not
    (&["check", "--log", "p"], "usage"),
    (&["check", "--strengthen", "1", "--log"], "usage"),
    // once
    (&["check", "--log", "f", "--log", "g", "p"], "usage"),
    (
        &["check", "--strengthen", "1", "--strengthen", "1", "p"],
        "usage",
    ),
    // before the operands
    (&["check", "p", "--log", "f"], "usage"),
    // a number from 0 to 9
    (&["check", "--strengthen", "01", "p"], "usage"),
    (&["check", "--strengthen", "10", "p"], "usage"),
    (&["check", "--strengthen", "-1", "p"], "usage"),
    (&["check", "--strengthen", "", "p"], "usage"),
    (&["show", "60", "f"], "Show 60 f"),
    (&["show", "0", "f"], "usage"),
    (&["show", "61", "f"], "usage"),
    (&["eval", "p", "n", "9", "4"], "Eval p n 9 4"),
];

#[test]
fn options_and_numbers_are_read_by_the_table(rt: HostRuntime) -> Result<(), Fail> {
    ask_for(&rt, rt.alloc(), &NUMBERED, OPTIONS)
}

// The number that an operand of a call is, and the one that the value of an option is.
fn numbers(
    alloc: Global,
    words: &[&str],
    index: usize,
    option: &str,
) -> Result<(Option<u32>, Option<u32>), Fail> {
    let owned = words_of(alloc, words)?;
    match read_call(&NUMBERED, &owned) {
        Some(request) => Ok((request.number(index), request.option_number(option))),
        None => Ok((None, None)),
    }
}

#[test]
fn numbers_are_told(rt: HostRuntime) -> Result<(), Fail> {
    let alloc = rt.alloc();
    let eval = ["eval", "p", "n", "0", "4294967295"];
    assert_eq!(rt; numbers(alloc, &eval, 2, "--log")?, (Some(0), None));
    assert_eq!(rt;
        numbers(alloc, &eval, 3, "--log")?,
        (Some(0xffff_ffff), None)
    );
    assert_eq!(rt; numbers(alloc, &eval, 4, "--log")?, (None, None));
    let check = ["check", "--strengthen", "7", "12"];
    assert_eq!(rt;
        numbers(alloc, &check, 0, "--strengthen")?,
        (Some(12), Some(7))
    );
    Ok(())
}
