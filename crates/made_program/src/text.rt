//! The whole text.
ghost use Rattle.std.specs.Prelude.{◌≡◌, ◌++◌, IfOk, OnOk};
ghost use Rattle.made_program.specs.Made as spec;

use crate::lines::{put_declaration, put_insertion, put_invariant};
use std::alloc::{AllocError, Global};
use text_lines::put_word;

fn put_declarations(out: &mut Vec<u8>, count: u64) -> Result<(), AllocError>
    ensures { OnOk result (out.new.items ≡ out.old.items ++ spec.for_each 1 count spec.declaration) }
{
    'relations: for before in 0..count {
        put_declaration(out, before + 1)?;
    }
    Ok(())
}

fn put_invariants(out: &mut Vec<u8>, count: u64) -> Result<(), AllocError>
    ensures { OnOk result (out.new.items ≡ out.old.items ++ spec.for_each 2 count spec.invariant) }
{
    'relations: for before in 1..count {
        put_invariant(out, before + 1)?;
    }
    Ok(())
}

fn put_insertions(out: &mut Vec<u8>, count: u64) -> Result<(), AllocError>
    ensures { OnOk result (out.new.items ≡ out.old.items ++ spec.for_each 1 count spec.insertion) }
{
    'relations: for before in 0..count {
        put_insertion(out, before + 1)?;
    }
    Ok(())
}

/// The text of the made program of so many relations, in time and memory linear in its length.
///
/// # Errors
/// Want of memory.
pub fn text_of(alloc: Global, count: u64) -> Result<Vec<u8>, AllocError>
    ensures { IfOk result (λ text. text.items ≡ spec.made_text count) }
{
    let mut out = Vec::new(alloc);
    put_declarations(&mut out, count)?;
    put_invariants(&mut out, count)?;
    put_word(&mut out, b"pktIn(s, src->dst, i) {\n")?;
    put_insertions(&mut out, count)?;
    put_word(&mut out, b"}\n")?;
    Ok(out)
}
