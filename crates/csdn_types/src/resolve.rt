//! From trees to programs.
ghost use Rattle.std.specs.Prelude.{◌≡◌, MatchResult};
ghost use Rattle.csdn_tree.specs.FromText.{IsFromText};
ghost use Rattle.csdn_types.specs.Resolved.{Types, IsRefusal};

use crate::draft::{ProgramDraft, items};
use crate::names::Names;
use crate::numerals::all_numerals;
use crate::refusal::SortRefusal;
use crate::scope::Scope;
use csdn_core::program::Program;
use csdn_tree::syntax::RawProgram;
use sqlite_items::Items;
use std::alloc::Global;

impl ProgramDraft {
    ghost use Rattle.csdn_types.specs.Resolved.{nothing_declared};
    ghost use Rattle.std.specs.Prelude.{◌≡◌};

    /// No items.
    pub fn new(alloc: Global) -> ProgramDraft
        ensures { result ≡ nothing_declared }
    {
        ProgramDraft {
            scope: Scope::new(alloc),
            invariants: Names::new(alloc),
            start: Items::new(alloc),
            topology: Items::new(alloc),
            safety: Items::new(alloc),
            trans: Items::new(alloc),
            handlers: Items::new(alloc),
            timeout: None,
        }
    }
}

/// The program that a tree stands for, or the refusal at the least place that breaks a rule (docs/LANGUAGE.md, "Names,
/// sorts and limits"). The tree has to be one from a text, as `text_facts::trees_are_from_text` says of each that `parse`
/// gives. Names are looked up among those of their kind, of which there are at most 64. Memory is taken from `alloc`.
///
/// # Example
///
/// From the test `names_the_first_rule_that_is_broken` of csdn_types_tests: a relation, a constant and an invariant may
/// have one name, and two relations may not.
///
/// ```rust
/// let raw = parse(alloc, b"rel p(); const p:SW; safety p: true;")?;
/// assert!(rt; resolve(alloc, &raw).is_ok());
/// let raw = parse(alloc, b"rel p(); rel p();")?;
/// assert!(rt; matches!(resolve(alloc, &raw), Err(SortRefusal::Duplicate { at: 13 })));
/// ```
pub fn resolve(alloc: Global, raw: &RawProgram) -> Result<Program, SortRefusal>
    requires { IsFromText raw.now }
    ensures { MatchResult result (Types raw.now) (IsRefusal raw.now) }
{
    let mut draft = ProgramDraft::new(alloc);
    items(alloc, &mut draft, raw.items.as_slice())?;
    let numerals = all_numerals(alloc, raw.items.as_slice())?;
    Ok(Program::seal(draft.into_parts(numerals)))
}
