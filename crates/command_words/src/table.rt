//! The commands.

/// The commands, by their names.
#[derive(Clone, Copy, Debug, PartialEq, Eq)]
pub enum Command {
    Check,
    Show,
    Eval,
    Trace,
    Conditions,
    Clauses,
    Frames,
    Make,
    Replay,
    Run,
}

/// What a word may be.
#[derive(Clone, Copy)]
pub enum Kind {
    /// Any word, as the name of a file.
    Text,
    /// A decimal number from `least` to `most`, without a sign or leading zeros.
    Number { least: u64, most: u64 },
}

/// An option: its word, and what its value is.
pub type OptionRow = (&'static str, Kind);

/// A command: its word, its name, its options, its operands, and further operands, of which all stand or none.
pub type CommandRow = (
    &'static str,
    Command,
    &'static [OptionRow],
    &'static [Kind],
    &'static [Kind],
);

const FILE: Kind = Kind::Text;

const LEVEL: Kind = Kind::Number { least: 0, most: 9 };

const INDEX: Kind = Kind::Number {
    least: 0,
    most: 0xffff_ffff,
};

const COUNT: Kind = Kind::Number { least: 1, most: 60 };

const SESSION: Kind = Kind::Number {
    least: 0,
    most: 0xffff_ffff,
};

const SIZE: Kind = Kind::Number {
    least: 1,
    most: 9_007_199_254_740_992,
};

const STRENGTHEN: OptionRow = ("--strengthen", LEVEL);

const INSTANCES: OptionRow = ("--instances", SIZE);

const LOG: OptionRow = ("--log", FILE);

const WORKERS: OptionRow = ("--workers", Kind::Number { least: 1, most: 64 });

const SESSIONS: OptionRow = (
    "--sessions",
    Kind::Number {
        least: 1,
        most: 1_048_576,
    },
);

const PORT: OptionRow = (
    "--port",
    Kind::Number {
        least: 1,
        most: 65_535,
    },
);

const HISTORY: OptionRow = (
    "--history",
    Kind::Number {
        least: 1,
        most: 4_194_304,
    },
);

/// The commands that are served.
pub const COMMANDS: [CommandRow; 10] = [
    (
        "check",
        Command::Check,
        &[STRENGTHEN, INSTANCES, LOG],
        &[FILE],
        &[],
    ),
    ("show", Command::Show, &[], &[FILE], &[]),
    ("eval", Command::Eval, &[], &[FILE, FILE], &[LEVEL, INDEX]),
    ("trace", Command::Trace, &[], &[FILE, FILE, FILE], &[]),
    (
        "conditions",
        Command::Conditions,
        &[STRENGTHEN, INSTANCES],
        &[FILE],
        &[],
    ),
    ("clauses", Command::Clauses, &[], &[FILE], &[]),
    ("frames", Command::Frames, &[], &[FILE], &[]),
    ("make", Command::Make, &[], &[COUNT, FILE], &[]),
    (
        "replay",
        Command::Replay,
        &[],
        &[FILE, FILE, FILE, SESSION, FILE],
        &[],
    ),
    (
        "run",
        Command::Run,
        &[STRENGTHEN, INSTANCES, WORKERS, SESSIONS, PORT, HISTORY],
        &[FILE, FILE],
        &[],
    ),
];
