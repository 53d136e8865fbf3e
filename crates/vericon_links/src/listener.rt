//! Where links come from.
ghost use Rattle.std.specs.Prelude.{◌≡◌, ◌≤◌, ◌<◌, ◌+◌, ◌^◌, ℕ, Bool, List, Option};
ghost use Rattle.vericon_edge.specs.Counts.{counted};
ghost use Rattle.vericon_links.specs.Faults.{CountsFault};
ghost use Rattle.vericon_links.specs.Links.{IsUnused};
ghost use Rattle.vericon_links.specs.Listeners.{AcceptAnswers, IfCame, GivenOneMore};

use crate::link::Link;
use vericon_edge::fault::Failed;

/// What an accept gives.
#[derive(Drop)]
pub enum Arrival<K: Drop> {
    /// A new link.
    Came(K),
    /// No link comes any more.
    Closed,
}

/// Gives the links that come, one after another, and takes them back when they are done with.
///
/// An object may tell the links given back. It counts the calls of `listen` and `accept`, and those that failed; no count ever falls.
pub trait Listener: Send + Drop {
    /// What it gives.
    type Link: Link + Send + Drop;

    /// How often it was told to listen or asked for a link.
    ghost uses: { Self → ℕ };

    /// How many links came.
    ghost came: { Self → ℕ };

    /// How many links were given back.
    ghost back: { Self → ℕ };

    /// Whether no link comes any more.
    ghost ended: { Self → Bool };

    /// How often a call has failed.
    ghost faults: { Self → ℕ };

    /// The links given back, each with its number, where they are told.
    ghost given: { Self → Option (List (ℕ × Self.Link)) };

    /// Listens on a port of every local address.
    ///
    /// Errors: `Failed`.
    fn listen(&mut self, port: u16) -> Result<(), Failed>
        ensures cause { CountsFault (faults self.old) (faults self.new) result }
        ensures later { faults self.old ≤ faults self.new }
        ensures uses { uses self.new ≡ counted (uses self.old) }
        ensures came { came self.new ≡ came self.old }
        ensures back { back self.new ≡ back self.old }
        ensures ended { ended self.new ≡ ended self.old }
        ensures given { given self.new ≡ given self.old };

    /// The next link that comes. May wait for it without end.
    ///
    /// Errors: `Failed`.
    fn accept(&mut self) -> Result<Arrival<Self::Link>, Failed>
        requires { came self.old < 2 ^ 32 }
        ensures answer { AcceptAnswers (came self.old) (came self.new) (ended self.old) (ended self.new) result }
        ensures unused { IfCame result (λ link. IsUnused (Self.Link.taken link) (Self.Link.written link) (Self.Link.closed link) (Self.Link.is_shut link) (Self.Link.read_faults link) (Self.Link.write_faults link)) }
        ensures cause { CountsFault (faults self.old) (faults self.new) result }
        ensures later { faults self.old ≤ faults self.new }
        ensures uses { uses self.new ≡ counted (uses self.old) }
        ensures back { back self.new ≡ back self.old }
        ensures given { given self.new ≡ given self.old };

    /// Takes a link back as it is, with a number. No memory.
    fn give_back(&mut self, number: u32, link: Self::Link)
        requires { back self.old < came self.old }
        ensures given { GivenOneMore (given self.old) (given self.new) number link }
        ensures back { back self.new ≡ back self.old + 1 }
        ensures uses { uses self.new ≡ uses self.old }
        ensures came { came self.new ≡ came self.old }
        ensures ended { ended self.new ≡ ended self.old }
        ensures faults { faults self.new ≡ faults self.old };
}
