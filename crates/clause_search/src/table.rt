//! Tables by number, which are blank past their end.

ghost use Rattle.std.specs.Prelude.{◌≡◌, ◌==◌, ◌<◌, ℕ, OnOk, OnErr, length, if◌then◌else◌, slice_index_or};

use std::alloc::AllocError;

/// Puts a value at a place of a table, which grows to it. Where memory runs out, the table says what it did.
pub fn put<T: Copy>(table: &mut Vec<T>, place: usize, value: T, blank: T) -> Result<(), AllocError>
    ensures ok { OnOk result ((i : ℕ) → slice_index_or table.new.items i blank ≡ (if i == place then value else slice_index_or table.old.items i blank)) }
    ensures err { OnErr result ((i : ℕ) → slice_index_or table.new.items i blank ≡ slice_index_or table.old.items i blank) }
{
    grow(table, place, blank)?;
    replace(table, place, value, blank);
    Ok(())
}

// Adds blanks up to this place.
fn grow<T: Copy>(table: &mut Vec<T>, place: usize, blank: T) -> Result<(), AllocError>
    ensures same { (i : ℕ) → slice_index_or table.new.items i blank ≡ slice_index_or table.old.items i blank }
    ensures room { OnOk result (place < length table.new.items) }
{
    'blanks: while table.len() <= place {
        if table.push(blank).is_err() {
            return Err(AllocError);
        }
    }
    Ok(())
}

/// Puts a value at a place where the table has one.
pub fn replace<T: Copy>(table: &mut Vec<T>, place: usize, value: T, blank: T)
    requires { place < length table.old.items }
    ensures { (i : ℕ) → slice_index_or table.new.items i blank ≡ (if i == place then value else slice_index_or table.old.items i blank) }
{
    table[place] = value;
}
