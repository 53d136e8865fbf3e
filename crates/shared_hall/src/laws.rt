//! Laws of halls.
ghost use Rattle.std.specs.Prelude.{◌≡◌, ◌++◌, [], ◌∷◌, Bool, List, if◌then◌else◌};
ghost use Rattle.csdn_history.specs.declared.entry.Entry.{Entry as AnyEntry};
ghost use Rattle.csdn_history.specs.declared.reply.Reply.{Reply as AnyReply};
ghost use Rattle.csdn_run.specs.declared.runtime.RunRefusal.{RunRefusal as AnyRefusal};
ghost use Rattle.csdn_run.specs.Histories.{Running};
ghost use Rattle.shared_hall.specs.declared.view.Account.{Account as AnyAccount};
ghost use Rattle.shared_hall.specs.Views.{seat_of};
ghost use Rattle.shared_hall.specs.Rules.{IsTold};
ghost use Rattle.shared_hall.specs.Halls.{Enters, IsTurnedAway};
ghost use Rattle.shared_hall.specs.Told.{PicksOf, replies_to};

/// A law: what a seat's own entries are answered along what it has seen, is what they are answered along the hall's history.
pub fn seats_are_told()
    // A call that is entered adds its reply, if it is picked,
    ensures entered { (r : Running) (picks : AnyEntry → Bool) (old new : AnyAccount) (entry : AnyEntry) (reply : AnyReply) → PicksOf old.number picks → Enters r old new entry reply → new.number ≡ old.number → seat_of entry ≡ old.number → replies_to picks r new.seen ≡ replies_to picks r old.seen ++ (if picks entry then reply ∷ [] else []) }
    // and one that is refused adds nothing.
    ensures turned_away { (r : Running) (picks : AnyEntry → Bool) (old new : AnyAccount) (why : AnyRefusal) → PicksOf old.number picks → IsTurnedAway r old new why → new.number ≡ old.number → replies_to picks r new.seen ≡ replies_to picks r old.seen }
    // At the end the whole history has the same replies.
    ensures closed { (r : Running) (picks : AnyEntry → Bool) (a : AnyAccount) (history : List AnyEntry) → PicksOf a.number picks → IsTold history a → replies_to picks r history ≡ replies_to picks r a.seen }
{}
