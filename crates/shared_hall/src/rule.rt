//! The rule of the hall, and what each step tells.
use crate::view::{Setting, View};
use atomic_table::{Join, Play, Split, TableRule};
use csdn_run::Runtime;

/// Seats take turns at the runtime in the slot, by tickets.
pub struct Turns;

impl TableRule<Option<Runtime>, View, Setting> for Turns {
    ghost use Rattle.shared_hall.specs.Views.{opened};
    ghost use Rattle.shared_hall.specs.Rules.{Kept};

    ghost holds = { Kept };

    ghost first = { λ k. opened k.opening.value k.seats };
}

/// A seat draws a ticket.
pub struct Draw;

impl Play<Option<Runtime>, View> for Draw {
    ghost use Rattle.shared_hall.specs.Plays.{Draws};

    ghost then = { Draws };
}

/// A seat looks whether its ticket is served.
pub struct Look;

impl Play<Option<Runtime>, View> for Look {
    ghost use Rattle.shared_hall.specs.Plays.{Looks};

    ghost then = { Looks };
}

/// A seat ends its turn.
pub struct Pass;

impl Play<Option<Runtime>, View> for Pass {
    ghost use Rattle.shared_hall.specs.Plays.{Passes};

    ghost then = { Passes };
}

/// A seat is cut from the one that has the numbers to be given.
pub struct NextSeat;

impl Split<View> for NextSeat {
    ghost use Rattle.shared_hall.specs.Views.{given_part, kept_part};

    ghost left = { kept_part };

    ghost right = { given_part };
}

/// A seat keeps the account of another as ended.
pub struct Ending;

impl Join<View> for Ending {
    ghost use Rattle.shared_hall.specs.Views.{joined, spent};

    ghost both = { joined };

    ghost spent = { spent };
}
