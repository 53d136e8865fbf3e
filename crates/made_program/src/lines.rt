//! The lines of one relation.
ghost use Rattle.std.specs.Prelude.{◌≡◌, ◌++◌, ◌<◌, OnOk};
ghost use Rattle.made_program.specs.Made as spec;

use std::alloc::AllocError;
use text_lines::{put_number, put_word};

fn put_relation(out: &mut Vec<u8>, number: u64) -> Result<(), AllocError>
    ensures { OnOk result (out.new.items ≡ out.old.items ++ spec.relation number) }
{
    put_word(out, b"r")?;
    put_number(out, number)
}

/// Appends the line that declares a relation.
pub fn put_declaration(out: &mut Vec<u8>, number: u64) -> Result<(), AllocError>
    ensures { OnOk result (out.new.items ≡ out.old.items ++ spec.declaration number) }
{
    put_word(out, b"rel ")?;
    put_relation(out, number)?;
    put_word(out, b"(HO);\n")
}

/// Appends the line of the invariant that what is in a relation is in the one before it.
pub fn put_invariant(out: &mut Vec<u8>, number: u64) -> Result<(), AllocError>
    requires { 0 < number }
    ensures { OnOk result (out.new.items ≡ out.old.items ++ spec.invariant number) }
{
    put_word(out, b"safety s")?;
    put_number(out, number)?;
    put_word(out, b": forall X:HO. ")?;
    put_relation(out, number)?;
    put_word(out, b"(X) -> ")?;
    put_relation(out, number - 1)?;
    put_word(out, b"(X);\n")
}

/// Appends the line that puts the sender into a relation.
pub fn put_insertion(out: &mut Vec<u8>, number: u64) -> Result<(), AllocError>
    ensures { OnOk result (out.new.items ≡ out.old.items ++ spec.insertion number) }
{
    put_word(out, b"  ")?;
    put_relation(out, number)?;
    put_word(out, b".insert(src);\n")
}
