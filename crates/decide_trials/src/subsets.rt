//! All sets of some tuples, by number.
use net_structs::row::{Row, Rows};
use sqlite_items::Items;
use std::alloc::{AllocError, Global};

/// How many sets of these tuples there are.
pub fn subset_count(rows: &[Row]) -> u32 {
    let mut count: u32 = 1;
    for _ in rows {
        count = count.saturating_mul(2);
    }
    count
}

/// The set of this number: a tuple is in it where its binary digit is 1.
pub fn subset(alloc: Global, rows: &[Row], number: u32) -> Result<Rows, AllocError> {
    let mut chosen = Items::new(alloc);
    let mut rest = number;
    for row in rows {
        if rest % 2 == 1 {
            chosen.push(row.clone()?)?;
        }
        rest /= 2;
    }
    Ok(chosen)
}
