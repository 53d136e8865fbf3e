//! A seat of a hall, as what answers the asks of a session.
ghost use Rattle.std.specs.Prelude.{◌≡◌, ◌≤◌, ◌^◌};
ghost use Rattle.session_entries.specs.Additions.{Keeps};

use csdn_history::reply::Reply;
use csdn_run::RunRefusal;
use of10_session::Ask;
use of10_speech::{Answers, Unanswered};
use session_asks::entry_of;
use shared_hall::{Hall, HallSeat};
use std::snapshot::Snapshot;
use std::sync::Wait;

/// A seat that enters the asks of one session.
pub struct SeatEntries<'a, R: Wait> {
    rt: &'a R,
    hall: &'a Hall,
    seat: &'a mut HallSeat,
    session: u32,
    /// The seat when the session began.
    begun: Snapshot<HallSeat>,
    ghost here: { seat.now.hall ≡ hall.now },
    ghost few: { seat.now.account.acts ≤ 2 ^ 56 },
    ghost keeps: { Keeps hall.now.opening session begun.value.account seat.now.account },
}

// The seat is left as it is.
impl<R: Wait> Drop for SeatEntries<'_, R> {
    fn drop(self)
        ensures { self.exit.1.1.0.now ≡ self.entry.seat.now }
    {
        let SeatEntries {
            rt: _,
            hall: _,
            seat: _,
            session: _,
            begun: _begun,
        } = self;
    }
}

impl<'a, R: Wait> SeatEntries<'a, R> {
    /// The seat, for the session with this number.
    pub fn new(
        rt: &'a R,
        hall: &'a Hall,
        seat: &'a mut HallSeat,
        session: u32,
    ) -> SeatEntries<'a, R>
        requires here { seat.old.hall ≡ hall.now }
        requires few { seat.old.account.acts ≤ 2 ^ 56 }
        ensures same_reference { result.seat.ghost_name ≡ seat.entry.ghost_name }
        ensures seat { result.seat.now ≡ seat.old }
        ensures hall { result.hall.now ≡ hall.now }
        ensures session { result.session ≡ session }
        ensures begun { result.begun.value ≡ seat.old }
    {
        let begun = Snapshot::of(&*seat);
        SeatEntries {
            rt,
            hall,
            seat,
            session,
            begun,
        }
    }
}

impl<R: Wait> Answers for SeatEntries<'_, R> {
    ghost use Rattle.std.specs.Prelude.{◌-◌, map};
    ghost use Rattle.session_asks.specs.Told.{ask_of, declares as declares_in};
    ghost use Rattle.session_entries.specs.Additions.{Origin, added, is_full as is_full_of, replies_since};

    ghost Source = { Origin };

    ghost source = { λ s. record { hall = s.hall.now; session = s.session; begun = s.begun.value; reference = s.seat.ghost_name } };

    ghost declares = { λ s. declares_in s.hall.now.opening.program s.hall.now.opening.network };

    ghost given = { λ s. replies_since s.hall.now.opening s.session s.begun.value.account s.seat.now.account };

    ghost asked = { λ s. map ask_of (added s.begun.value.account s.seat.now.account) };

    ghost is_full = { λ s. is_full_of s.hall.now.opening s.seat.now.account };

    ghost left = { λ s. 2 ^ 56 - s.seat.now.account.acts };

    fn ask(&mut self, ask: Ask) -> Result<Reply, Unanswered> {
        let entry = entry_of(self.seat.number(), self.session, ask);
        match self.hall.act(self.rt, self.seat, &entry) {
            Ok(reply) => Ok(reply),
            Err(RunRefusal::Stranger) => Err(Unanswered::Stranger),
            Err(RunRefusal::HistoryFull) => Err(Unanswered::Full),
            Err(RunRefusal::Memory) => Err(Unanswered::Memory),
        }
    }
}
