//! Seats take turns at one runtime.
ghost use Rattle.std.specs.Prelude.{◌≡◌, ◌+◌, ◌^◌, ◌<◌, ◌≤◌, ◌↔◌, [], false, IfOk, IfErr, Err as ErrIs};
ghost use Rattle.csdn_run.specs.Standings.{is_declared};
ghost use Rattle.shared_hall.specs.Views.{seat_of, passed_with};
ghost use Rattle.shared_hall.specs.Plays.{Starts};
ghost use Rattle.shared_hall.specs.Turns.{CanDraw, CanPass, IsWaiting, Took};
ghost use Rattle.shared_hall.specs.Halls.{CanServe, Enters, IsTurnedAway};

use crate::rule::{Draw, Look, Pass, Turns};
use crate::view::{Setting, View};
use atomic_table::{Seat, Table};
use csdn_history::entry::Entry;
use csdn_history::reply::Reply;
use csdn_run::{RunRefusal, Runtime};
use std::alloc::Global;
use std::marker::Model;
use std::sync::{Mutex, Wait};
use std::thread;

/// Seats that take turns at one runtime. Clauses see it as its name, the runtime at the opening, and its number of seats.
pub struct Hall {
    pub(crate) table: Table<Option<Runtime>, View, Setting, Turns, Global>,
    // Where seats wait. Who is in draws a ticket, which is served at once; no clause speaks of it.
    pub(crate) door: Mutex<()>,
}

impl Model for Hall {
    ghost use Rattle.std.specs.Prelude.{◌≡◌, ◌<◌, ◌≤◌};
    ghost use Rattle.shared_hall.specs.Halls.{HallView};
    ghost use Rattle.csdn_core.specs.contracts.syntax.Formula as formula;
    ghost use Rattle.csdn_core.specs.contracts.syntax.Command as command;
    ghost use Rattle.std.specs.Coded.{codes};

    ghost Value = { HallView };

    ghost coded = { Prim.hlevel (codes, formula.the_row.coded, command.the_row.coded) };

    ghost view = { λ h. record { id = h.table.shared.table_id; opening = h.table.shared.key.opening.value; seats = h.table.shared.key.seats } };

    ghost invariant = { λ h. (h.table.shared.table_id.words ≡ 2) × (h.table.shared.table_id.slots ≡ 1) × (0 < h.table.shared.key.seats) × (h.table.shared.key.seats ≤ 64) };
}

/// The right to act in a hall under one number. Clauses see it as its hall and its account.
#[derive(Drop)]
pub struct HallSeat {
    pub(crate) number: u32,
    pub(crate) acts: u64,
    pub(crate) seat: Seat<Option<Runtime>, View>,
}

impl Model for HallSeat {
    ghost use Rattle.std.specs.Prelude.{◌≡◌, []};
    ghost use Rattle.shared_hall.specs.declared.view.Stage.TheVariants.{Idle};
    ghost use Rattle.shared_hall.specs.Halls.{SeatView};
    ghost use Rattle.csdn_core.specs.contracts.syntax.Formula as formula;
    ghost use Rattle.csdn_core.specs.contracts.syntax.Command as command;
    ghost use Rattle.std.specs.Coded.{codes};

    ghost Value = { SeatView };

    ghost coded = { Prim.hlevel (codes, formula.the_row.coded, command.the_row.coded) };

    ghost view = { λ s. record { hall = record { id = s.seat.table_id; opening = s.seat.me.0.opening; seats = s.seat.me.0.seats }; account = s.seat.me.0.own } };

    ghost invariant = { λ s. (s.seat.me.1 ≡ []) × (s.seat.me.0.stage ≡ Idle) × (s.seat.me.0.parts ≡ 1) × (s.seat.me.0.ended ≡ []) × (s.number ≡ s.seat.me.0.own.number) × (s.acts ≡ s.seat.me.0.own.acts) };
}

impl HallSeat {
    /// The number of the seat, which each of its entries has.
    pub fn number(&self) -> u32
        ensures { result ≡ self.now.account.number }
    {
        self.number
    }

    /// How often the seat acted, refused calls too.
    pub fn acts(&self) -> u64
        ensures { result ≡ self.now.account.acts }
    {
        self.acts
    }
}

impl Hall {
    // Waits until the ticket is served: not at all, where none but who is in by the door draws one.
    fn wait<R: Wait>(&self, rt: &R, seat: &mut Seat<Option<Runtime>, View>, ticket: u64)
        requires table { seat.old.table_id ≡ self.now.id }
        requires waiting { IsWaiting seat.old.me ticket }
        ensures same { (seat.new.table_id ≡ seat.old.table_id) × (seat.new.id ≡ seat.old.id) }
        ensures turn { Starts seat.old.me ticket seat.new.me }
    {
        for _ in rt.forever() {
            if self.table.shared.load::<Look>(seat, 1) == ticket {
                return;
            }
            thread::yield_now();
        }
        unreachable!()
    }

    // Draws a ticket, waits for its turn, and takes the runtime out.
    fn take<R: Wait>(&self, rt: &R, seat: &mut Seat<Option<Runtime>, View>) -> Runtime
        requires table { seat.old.table_id ≡ self.now.id }
        requires idle { CanDraw seat.old.me }
        ensures same { (seat.new.table_id ≡ seat.old.table_id) × (seat.new.id ≡ seat.old.id) }
        ensures took { Took seat.old.me seat.new.me result }
    {
        let ticket = self.table.shared.fetch_add::<Draw>(seat, 0, 1);
        self.wait(rt, seat, ticket);
        let Some(runtime) = self.table.shared.exchange(seat, 0, None) else {
            unreachable!()
        };
        runtime
    }

    // Puts the runtime back, and ends the turn.
    fn give(&self, seat: &mut Seat<Option<Runtime>, View>, runtime: Runtime)
        requires table { seat.old.table_id ≡ self.now.id }
        requires turn { CanPass seat.old.me runtime }
        ensures same { (seat.new.table_id ≡ seat.old.table_id) × (seat.new.id ≡ seat.old.id) }
        ensures passed { seat.new.me ≡ (passed_with seat.old.me.0 runtime.history, []) }
    {
        let taken = self.table.shared.exchange(seat, 0, Some(runtime));
        let None = taken else { unreachable!() };
        self.table.shared.fetch_add::<Pass>(seat, 1, 1);
    }

    /// Waits for the seat's turn, and answers as `Runtime::apply` does at this place of the hall's one history. After a refusal
    /// nothing is entered, and the turn goes on. `Stranger` comes exactly where the entry isn't declared, `HistoryFull` only
    /// where the history is full. It costs what `apply` costs, and the wait.
    pub fn act<R: Wait>(
        &self,
        rt: &R,
        seat: &mut HallSeat,
        entry: &Entry,
    ) -> Result<Reply, RunRefusal>
        requires hall { seat.old.hall ≡ self.now }
        requires number { seat_of entry.now ≡ seat.old.account.number }
        requires acts { seat.old.account.acts < 2 ^ 56 }
        ensures seat { (seat.new.hall ≡ self.now) × (seat.new.account.number ≡ seat.old.account.number) × (seat.new.account.acts ≡ seat.old.account.acts + 1) }
        ensures ok { IfOk result (λ reply. Enters self.now.opening seat.old.account seat.new.account entry.now reply) }
        ensures err { IfErr result (λ why. IsTurnedAway self.now.opening seat.old.account seat.new.account why) }
        ensures stands { CanServe self.now.opening.program self.now.opening.network }
        ensures stranger { (result ≡ ErrIs RunRefusal.Stranger) ↔ (is_declared self.now.opening.program self.now.opening.network entry.now ≡ false) }
    {
        let door = self.door.lock(rt);
        let mut runtime = self.take(rt, &mut seat.seat);
        runtime.stands();
        let answer = runtime.apply(entry);
        self.give(&mut seat.seat, runtime);
        drop(door);
        seat.acts += 1;
        answer
    }
}
