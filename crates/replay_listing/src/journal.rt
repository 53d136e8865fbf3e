//! A journal that answers the asks of one session.
ghost use Rattle.std.specs.Prelude.{◌≡◌, ◌<◌, ◌^◌, [], ◌∷◌, ◌++◌, true, length, None, IfOk, OnOk, OnErr, IsTrue};
ghost use Rattle.csdn_run.specs.Histories.{running};
ghost use Rattle.csdn_run.specs.Replies.{reply as reply_of};
ghost use Rattle.csdn_run.specs.Standings.{is_declared as is_declared_in};
ghost use Rattle.of10_session.specs.Replies.{IsServable};
ghost use Rattle.replay_listing.specs.Journals.{IsTaken, Passes};

use csdn_history::entry::Entry;
use csdn_history::reply::Reply;
use csdn_run::Runtime;
use journal_text::Note;
use of10_session::Ask;
use of10_speech::{Answers, Unanswered};
use session_asks::{ask_of, is_declared_ask, is_same, session_of};
use std::alloc::AllocError;

/// A runtime, and the notes that it has not taken yet. It takes those up to the next entry of its session when that is
/// asked for.
pub struct Journal<'a> {
    pub(crate) runtime: Runtime,
    pub(crate) rest: &'a [Note],
    pub(crate) session: u32,
    /// The ask that is not the session's next entry.
    pub(crate) missing: Option<Ask>,
}

impl Drop for Journal<'_> {
    fn drop(self) {
        let Journal {
            runtime: _runtime,
            rest: _,
            session: _,
            missing: _,
        } = self;
    }
}

impl<'a> Journal<'a> {
    /// A journal before its first note.
    pub fn new(runtime: Runtime, notes: &'a [Note], session: u32) -> Journal<'a>
        ensures runtime { result.runtime ≡ runtime }
        ensures rest { result.rest.now ≡ notes.now }
        ensures session { result.session ≡ session }
        ensures missing { result.missing ≡ None }
    {
        Journal {
            runtime,
            rest: notes,
            session,
            missing: None,
        }
    }

    // Enters an entry, behind which these notes are left.
    fn enter(&mut self, entry: &Entry, more: &'a [Note]) -> Result<Reply, AllocError>
        ensures entered { OnOk result (self.new.runtime ≡ running self.old.runtime.program self.old.runtime.network self.old.runtime.room (self.old.runtime.history ++ entry.now ∷ [])) }
        ensures rest { OnOk result (self.new.rest.now ≡ more.now) }
        ensures declared { OnOk result (is_declared_in self.old.runtime.program self.old.runtime.network entry.now ≡ true) }
        ensures reply { IfOk result (λ reply. reply ≡ reply_of self.old.runtime.program self.old.runtime.network self.old.runtime.history entry.now) }
        ensures servable { IfOk result IsServable }
        ensures same { OnErr result ((self.new.runtime ≡ self.old.runtime) × (self.new.rest.now ≡ self.old.rest.now)) }
        ensures kept { (self.new.session ≡ self.old.session) × (self.new.missing ≡ self.old.missing) }
    {
        self.runtime.stands();
        match self.runtime.apply(entry) {
            Ok(reply) => {
                self.rest = more;
                Ok(reply)
            }
            // no note is refused
            Err(_) => Err(AllocError),
        }
    }

    // Passes over the next note, unless it is an entry of the session; the answer is whether it did.
    fn pass(&mut self) -> Result<bool, AllocError>
        ensures passes { Passes self.old self.new }
        ensures fewer { IfOk result (λ passed. IsTrue passed → length self.new.rest.now < length self.old.rest.now) }
    {
        match self.rest {
            [] => Ok(false),
            [note, more @ ..] => self.pass_note(note, more),
        }
    }

    fn pass_note(&mut self, note: &Note, more: &'a [Note]) -> Result<bool, AllocError>
        requires { self.old.rest.now ≡ note.now ∷ more.now }
        ensures passes { Passes self.old self.new }
        ensures fewer { IfOk result (λ passed. IsTrue passed → length self.new.rest.now < length self.old.rest.now) }
    {
        match note {
            Note::Flow { .. } => {
                self.rest = more;
                Ok(true)
            }
            Note::Kept(entry) => {
                if session_of(entry) == self.session {
                    return Ok(false);
                }
                self.enter(entry, more)?;
                Ok(true)
            }
        }
    }

    // Passes over the notes before the session's next entry.
    fn pass_others(&mut self) -> Result<(), AllocError>
        ensures { Passes self.old self.new }
    {
        'notes: loop {
            if !self.pass()? {
                return Ok(());
            }
        }
    }

    // The reply to an ask that is declared, where it is the session's next entry.
    fn take(&mut self, ask: Ask) -> Result<Reply, Unanswered>
        requires { self.old.missing ≡ None }
        ensures { IsTaken self.old self.new ask result }
    {
        match self.rest {
            [] => self.miss(ask),
            [note, more @ ..] => self.take_note(note, more, ask),
        }
    }

    fn take_note(&mut self, note: &Note, more: &'a [Note], ask: Ask) -> Result<Reply, Unanswered>
        requires missing { self.old.missing ≡ None }
        requires rest { self.old.rest.now ≡ note.now ∷ more.now }
        ensures { IsTaken self.old self.new ask result }
    {
        match note {
            Note::Flow { .. } => self.miss(ask),
            Note::Kept(entry) => self.take_entry(entry, more, ask),
        }
    }

    fn take_entry(&mut self, entry: &Entry, more: &'a [Note], ask: Ask) -> Result<Reply, Unanswered>
        requires missing { self.old.missing ≡ None }
        requires rest { self.old.rest.now ≡ Note.Kept entry.now ∷ more.now }
        ensures { IsTaken self.old self.new ask result }
    {
        if session_of(entry) != self.session {
            return self.miss(ask);
        }
        if !is_same(ask, ask_of(entry)) {
            return self.miss(ask);
        }
        match self.enter(entry, more) {
            Ok(reply) => Ok(reply),
            Err(_) => Err(Unanswered::Memory),
        }
    }

    // The ask is no entry.
    fn miss(&mut self, ask: Ask) -> Result<Reply, Unanswered>
        requires { self.old.missing ≡ None }
        ensures { IsTaken self.old self.new ask result }
    {
        self.missing = Some(ask);
        Err(Unanswered::NoEntry)
    }
}

impl<'a> Answers for Journal<'a> {
    ghost use Rattle.replay_listing.specs.Journals.{Source, asked_of, given_by, source_of};
    ghost use Rattle.session_asks.specs.Told.{declares as declares_in};

    ghost Source = { Source };

    ghost source = { source_of };

    ghost declares = { λ j. declares_in j.runtime.program j.runtime.network };

    ghost given = { given_by };

    ghost asked = { asked_of };

    ghost is_full = { λ _. true };

    ghost left = { λ _. 2 ^ 60 };

    fn ask(&mut self, ask: Ask) -> Result<Reply, Unanswered> {
        if !is_declared_ask(self.runtime.program(), self.runtime.network(), ask) {
            return Err(Unanswered::Stranger);
        }
        // a session that waits for an entry asks nothing more
        if self.missing.is_some() {
            return Err(Unanswered::Memory);
        }
        let Ok(()) = self.pass_others() else {
            return Err(Unanswered::Memory);
        };
        self.take(ask)
    }
}
