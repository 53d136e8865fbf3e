//! How a hall ends.
ghost use Rattle.std.specs.Prelude.{◌≡◌, length, All};
ghost use Rattle.shared_hall.specs.Turns.{EndsWith, IsKeeper, TakesIn};
ghost use Rattle.shared_hall.specs.Halls.{Closes};

use crate::hall::{Hall, HallSeat};
use crate::rule::Ending;
use crate::view::View;
use atomic_table::Seat;
use csdn_run::Runtime;

impl Hall {
    // The keeper takes in the account of another seat.
    fn end(&self, keeper: &mut Seat<Option<Runtime>, View>, other: HallSeat)
        requires keeper { (keeper.old.table_id ≡ self.now.id) × IsKeeper keeper.old.me }
        requires other { other.hall ≡ self.now }
        ensures same { keeper.new.table_id ≡ keeper.old.table_id }
        ensures took { TakesIn keeper.old.me keeper.new.me other.account }
    {
        let HallSeat { seat, .. } = other;
        self.table.shared.join_seat::<Ending>(keeper, seat);
    }

    // The runtime, once the keeper stands for all seats.
    fn finish(self, keeper: Seat<Option<Runtime>, View>) -> Runtime
        requires keeper { (keeper.table_id ≡ self.id) × IsKeeper keeper.me }
        requires all { keeper.me.0.parts ≡ self.seats }
        ensures { EndsWith self.opening self.seats keeper.me.0 result }
    {
        let Hall { table, door: _door } = self;
        let mut closed = table.close_with(keeper);
        let Some(runtime) = closed.take(0) else {
            unreachable!()
        };
        closed.free();
        runtime
    }

    /// Ends the hall, of which these are all seats, and gives the runtime with all that they entered. It takes no memory.
    pub fn close(self, mut seats: Vec<HallSeat>) -> Runtime
        requires { (length seats.items ≡ self.seats) × All (λ s. s.hall ≡ self) seats.items }
        ensures { Closes self seats.items result }
    {
        let Some(first) = seats.pop() else {
            unreachable!()
        };
        let HallSeat {
            seat: mut keeper,
            ..
        } = first;
        while let Some(other) = seats.pop() {
            self.end(&mut keeper, other);
        }
        self.finish(keeper)
    }
}
