//! What answers a session's asks.

ghost use Rattle.std.specs.Prelude.{◌≡◌, ◌≢◌, [], ◌∷◌, ◌++◌, ◌+◌, ◌<◌, ◌≤◌, ◌⊎◌, ℕ, true, false, List, Bool, Err, IfOk, IfErr, OnErr};
ghost use Rattle.csdn_history.specs.declared.reply.Reply.{Reply as AnyReply};
ghost use Rattle.of10_session.specs.declared.turn.Ask.{Ask as AnyAsk};
ghost use Rattle.of10_session.specs.Replies.{IsServable};

use csdn_history::reply::Reply;
use of10_session::Ask;

/// Why an ask has no reply.
#[derive(Clone, Copy, Debug, PartialEq, Eq)]
pub enum Unanswered {
    /// The ask isn't declared: the network lacks an element of it, or no rule of the program ends.
    Stranger,
    /// There is no entry for it yet.
    NoEntry,
    /// The history has no room for a further entry.
    Full,
    Memory,
}

/// What answers a session's asks: a journal, or a seat of a hall.
pub trait Answers {
    /// What all its answers come from.
    ghost Source: { Type 0 } = { Unit {0} };

    ghost source: { Self → Self.Source };
    /// Whether an ask is declared.
    ghost declares: { Self → AnyAsk → Bool };
    /// The replies that this session was given so far.
    ghost given: { Self → List AnyReply };
    /// The asks so far that are declared, the one that has no entry yet among them.
    ghost asked: { Self → List AnyAsk };
    /// Whether no further entry can come.
    ghost is_full: { Self → Bool };
    /// How many more asks it takes.
    ghost left: { Self → ℕ };

    /// The reply to an ask, which is entered.
    fn ask(&mut self, ask: Ask) -> Result<Reply, Unanswered>
        requires left { 0 < left self.old }
        ensures left { left self.old ≤ left self.new + 1 }
        ensures source { source self.new ≡ source self.old }
        ensures same { declares self.new ≡ declares self.old }
        ensures reply { IfOk result (λ reply. (declares self.old ask ≡ true) × IsServable reply × (given self.new ≡ given self.old ++ reply ∷ [])) }
        ensures asked { IfOk result (λ reply. asked self.new ≡ asked self.old ++ ask ∷ []) }
        ensures err { OnErr result (given self.new ≡ given self.old) }
        ensures stranger { result ≡ Err Unanswered.Stranger → (declares self.old ask ≡ false) × (asked self.new ≡ asked self.old) }
        ensures waits { result ≡ Err Unanswered.NoEntry → (asked self.new ≡ asked self.old ++ ask ∷ []) × (is_full self.new ≡ true) }
        ensures full { result ≡ Err Unanswered.Full → (asked self.new ≡ asked self.old) × (is_full self.new ≡ true) }
        ensures once { IfErr result (λ e. (asked self.new ≡ asked self.old) ⊎ (asked self.new ≡ asked self.old ++ ask ∷ [])) }
        ensures declared { IfErr result (λ e. e ≢ Unanswered.Stranger → declares self.old ask ≡ true) };
}
