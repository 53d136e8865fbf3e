//! Asks of a session, and entries of a history.
ghost use Rattle.std.specs.Prelude.{◌≡◌};
ghost use Rattle.csdn_run.specs.Sessions.{session_of as session_in};
ghost use Rattle.session_asks.specs.Told.{ask_of as ask_in, declares, entry_of as entry_in, same_ask};

use csdn_core::program::Program;
use csdn_history::entry::Entry;
use csdn_run::is_declared;
use net_structs::network::Network;
use of10_session::Ask;

/// The entry that an ask makes for a seat and a session.
pub fn entry_of(seat: u32, session: u32, ask: Ask) -> Entry
    ensures { result ≡ entry_in seat session ask }
{
    match ask {
        Ask::Join { s } => Entry::Join { seat, session, s },
        Ask::Packet { s, a, b, i } => Entry::Packet {
            seat,
            session,
            s,
            a,
            b,
            i,
        },
        Ask::Expire { s, a, b, i, cookie } => Entry::Expire {
            seat,
            session,
            s,
            a,
            b,
            i,
            cookie,
        },
    }
}

/// The ask that an entry answers.
pub fn ask_of(entry: &Entry) -> Ask
    ensures { result ≡ ask_in entry.now }
{
    match *entry {
        Entry::Join { s, .. } => Ask::Join { s },
        Entry::Packet { s, a, b, i, .. } => Ask::Packet { s, a, b, i },
        Entry::Expire {
            s,
            a,
            b,
            i,
            cookie,
            ..
        } => Ask::Expire { s, a, b, i, cookie },
    }
}

/// The session of an entry.
pub fn session_of(entry: &Entry) -> u32
    ensures { result ≡ session_in entry.now }
{
    match *entry {
        Entry::Join { session, .. }
        | Entry::Packet { session, .. }
        | Entry::Expire { session, .. } => session,
    }
}

/// Whether an ask is declared: the network has its elements; and the program ends rules, where it says that one ended.
pub fn is_declared_ask(program: &Program, network: &Network, ask: Ask) -> bool
    ensures { result ≡ declares program.now network.now ask }
{
    is_declared(program, network, &entry_of(0, 0, ask))
}

/// Whether two asks are one.
pub fn is_same(ask: Ask, other: Ask) -> bool
    ensures { result ≡ same_ask ask other }
{
    match ask {
        Ask::Join { s } => match other {
            Ask::Join { s: t } => s == t,
            Ask::Packet { .. } | Ask::Expire { .. } => false,
        },
        Ask::Packet { s, a, b, i } => match other {
            Ask::Packet {
                s: t,
                a: c,
                b: d,
                i: j,
            } => s == t && (a == c && (b == d && i == j)),
            Ask::Join { .. } | Ask::Expire { .. } => false,
        },
        Ask::Expire { s, a, b, i, cookie } => match other {
            Ask::Expire {
                s: t,
                a: c,
                b: d,
                i: j,
                cookie: mark,
            } => s == t && (a == c && (b == d && (i == j && cookie == mark))),
            Ask::Join { .. } | Ask::Packet { .. } => false,
        },
    }
}
