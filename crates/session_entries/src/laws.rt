//! Laws of what sessions are told.
ghost use Rattle.std.specs.Prelude.{◌≡◌, ◌≢◌, ℕ, List, [], All};
ghost use Rattle.csdn_history.specs.declared.entry.Entry.{Entry as AnyEntry};
ghost use Rattle.csdn_run.specs.Histories.{Running};
ghost use Rattle.csdn_run.specs.Sessions.{session_of};
ghost use Rattle.shared_hall.specs.declared.view.Account.{Account as AnyAccount};
ghost use Rattle.shared_hall.specs.Rules.{IsTold};
ghost use Rattle.shared_hall.specs.Told.{replies_to};
ghost use Rattle.shared_hall.specs.Views.{mine};
ghost use Rattle.session_entries.specs.Additions.{AddsFor, is_of, replies_given};

/// A law: what a session was told by the entries of a seat stays so.
pub fn sessions_stay_told()
    // A seat without entries of a session told it nothing,
    ensures first { (r : Running) (session : ℕ) (a : AnyAccount) → All (λ (e : AnyEntry). session_of e ≢ session) (mine a) → replies_given r session a ≡ [] }
    // what it adds for another session changes nothing,
    ensures others { (r : Running) (session other : ℕ) (old new : AnyAccount) → AddsFor r other old new → other ≢ session → replies_given r session new ≡ replies_given r session old }
    // and at the end the whole history tells the same.
    ensures closed { (r : Running) (session : ℕ) (a : AnyAccount) (history : List AnyEntry) → IsTold history a → replies_to (is_of a.number session) r history ≡ replies_given r session a }
{}
