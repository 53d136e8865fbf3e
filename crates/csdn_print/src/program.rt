//! Whole programs.
ghost use Rattle.std.specs.Prelude.{◌≡◌, ◌++◌, ◌≤◌, ℕ, List, OnOk, IfOk, length};
ghost use Rattle.csdn_print.specs.Programs.{items_text, program_text};
ghost use Rattle.csdn_print.specs.Again.{ReadsAgain};
ghost use Rattle.csdn_text.specs.Reading.{Reads};

use crate::items::put_item;
use csdn_tree::syntax::{RawItem, RawProgram};
use std::alloc::{AllocError, Global};
use text_lines::put_line_end;

fn put_items(alloc: Global, out: &mut Vec<u8>, mut items: &[RawItem]) -> Result<(), AllocError>
    ensures { OnOk result (out.new.items ≡ out.old.items ++ items_text items.entry.now) }
{
    'more: while let [item, rest @ ..] = items {
        put_item(alloc, out, item)?;
        put_line_end(out)?;
        items = rest;
    }
    Ok(())
}

/// The text of a tree (docs/FORMATS.md, "Printed programs").
///
/// Where the tree is one that a text reads as, and its printed text has at most 65,536 bytes, that text reads as the
/// tree again, places aside. Memory is taken from `alloc`.
pub fn print(alloc: Global, raw: &RawProgram) -> Result<Vec<u8>, AllocError>
    // the text is the printed one
    ensures text { IfOk result (λ printed. printed.items ≡ program_text raw.now) }
    // and reads as the tree again
    ensures again { (text : List ℕ) → Reads text raw.now → IfOk result (λ printed. length printed.items ≤ 65536 → ReadsAgain printed.items raw.now) }
{
    let mut out = Vec::new(alloc);
    put_items(alloc, &mut out, raw.items.as_slice())?;
    Ok(out)
}
