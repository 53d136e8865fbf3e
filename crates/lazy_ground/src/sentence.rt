//! A sentence and some of its clauses.
#![tactic(auto)]

use clause_log::Clauses;
use form_trees::trees::FormTree;
use ground_inst::sentence::Ground;
use sqlite_items::Boxed;

/// A sentence with its facts and some of its clauses, and the tree of the sentence without truth values, numbered anew.
#[derive(Drop)]
pub struct LazyGround {
    pub made: Ground,
    pub tree: Boxed<FormTree>,
}

impl LazyGround {
    ghost use Rattle.std.specs.Prelude.{◌≡◌};

    /// The clauses. It takes no memory.
    pub fn into_clauses(self) -> Clauses
        ensures { result ≡ self.made.clauses }
    {
        let made = self.made;
        made.clauses
    }
}
