//! The law that printed steps, given back, are accepted.

ghost use Rattle.std.specs.Prelude.{◌≡◌, List, [], ◌∷◌, ◌++◌, true, codes};
ghost use Rattle.clause_log.specs.Refutations.{Step};
ghost use Rattle.clause_search.specs.Outcomes.{IsRefutationOf};
ghost use Rattle.log_text.specs.declared.block.Block.{Block as BlockOf};
ghost use Rattle.log_text.specs.LogText.{is_block, log_text};
ghost use Rattle.clause_listing.specs.Listings.{IsListing, with_log};

/// A block that a text can hold, with the steps of any refutation of its clauses behind them: the listing of that
/// text says that it is accepted.
pub fn answers_are_accepted()
    ensures { (b : BlockOf) (log : List Step) → is_block b ≡ true → IsRefutationOf b.clauses log → IsListing (log_text (with_log b log ∷ [])) (b.name ++ codes ": accepted\n") true }
{}
