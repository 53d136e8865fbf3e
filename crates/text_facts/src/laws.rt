//! Laws of texts and their trees.

ghost use Rattle.std.specs.Prelude.{ℕ, List};
ghost use Rattle.csdn_tree.specs.declared.syntax.RawProgram.{RawProgram as AnyTree};
ghost use Rattle.csdn_tree.specs.FromText.{IsFromText};
ghost use Rattle.csdn_text.specs.Reading.{Reads};

/// A law: what is said of trees from texts holds of each tree that a text reads as.
pub fn trees_are_from_text()
    ensures { (text : List ℕ) (raw : AnyTree) → Reads text raw → IsFromText raw }
{}
