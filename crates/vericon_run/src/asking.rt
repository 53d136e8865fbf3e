//! What the words of a call ask of a run.
ghost use Rattle.std.specs.Prelude.{◌≡◌, ◌≤◌};
ghost use Rattle.vericon_run.specs.Starts.{IsOrder};
ghost use Rattle.vericon_run.specs.Words.{AreTerms, within as within_bounds};

use crate::order::Order;
use command_words::request::Request;
use session_workers::Terms;
use vericon_app::numbers::{level_in, size_in};

// The number that is given, within these bounds; the usual one where none is given.
fn within(number: Option<u32>, least: u32, most: u32, usual: u32) -> u32
    requires { (least ≤ usual) × (usual ≤ most) }
    ensures number { result ≡ within_bounds least most usual number }
    ensures bounds { (least ≤ result) × (result ≤ most) }
{
    match number {
        None => usual,
        Some(number) => number.min(most).max(least),
    }
}

fn terms_of(request: &Request) -> Terms
    ensures { AreTerms request.now result }
{
    Terms {
        workers: within(request.option_number("--workers"), 1, 64, 4),
        sessions: within(request.option_number("--sessions"), 1, 1_048_576, 1_048_576),
        most: 1 << 39,
    }
}

/// What the call asks for.
pub fn order_of(request: &Request) -> Order
    ensures { IsOrder request.now result }
{
    Order {
        size: size_in(request.option_size("--instances")),
        most: level_in(request.option_number("--strengthen")),
        room: within(request.option_number("--history"), 1, 4_194_304, 4_194_304),
        terms: terms_of(request),
        port: within(request.option_number("--port"), 1, 65_535, 6633) as u16,
    }
}
