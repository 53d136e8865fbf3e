//! Rows of items that are kept flat, each with the place of its end.

ghost use Rattle.std.specs.Prelude.{◌≡◌, ◌<◌, ◌≤◌, ◌+◌, ◌++◌, [], ◌∷◌, OnOk, OnErr, length, slice_index, slice_index_or};
ghost use Rattle.clause_log.specs.Rows.{split, IsSplit, begins};

use std::alloc::AllocError;

// Where a row begins and ends among so many items.
fn place_of(ends: &[usize], at: usize, count: usize) -> (usize, usize)
    requires split { IsSplit 0 ends.now count }
    requires within { at < length ends.now }
    ensures start { result.0 ≡ begins 0 ends.now at }
    ensures end { result.1 ≡ slice_index ends.now at }
    ensures order { result.0 ≤ result.1 }
    ensures inside { result.1 ≤ count }
{
    if at == 0 {
        (0, ends[0])
    } else {
        (ends[at - 1], ends[at])
    }
}

/// The row at this place.
pub fn row_of<'a, T: Copy>(items: &'a [T], ends: &[usize], at: usize) -> &'a [T]
    requires split { IsSplit 0 ends.now (length items.now) }
    requires within { at < length ends.now }
    ensures { result.now ≡ slice_index_or (split 0 ends.now items.now) at [] }
{
    let (start, end) = place_of(ends, at, items.len());
    &items[start..end]
}

/// Appends a row: its items, and the place of their end. Nothing is changed on want of memory.
pub fn append<T: Copy>(
    items: &mut Vec<T>,
    ends: &mut Vec<usize>,
    row: &[T],
) -> Result<(), AllocError>
    ensures items { OnOk result (items.new.items ≡ items.old.items ++ row.now) }
    ensures ends { OnOk result (ends.new.items ≡ ends.old.items ++ (length items.old.items + length row.now) ∷ []) }
    ensures err { OnErr result (items.new.items ≡ items.old.items) }
    ensures err_ends { OnErr result (ends.new.items ≡ ends.old.items) }
{
    let start = items.len();
    if items.extend_from_slice(row).is_err() {
        return Err(AllocError);
    }
    if ends.push(items.len()).is_err() {
        items.truncate(start);
        return Err(AllocError);
    }
    Ok(())
}
