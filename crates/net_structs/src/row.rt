//! Tuples of relations, and their order.
ghost use Rattle.std.specs.Prelude.{◌≡◌, refl};
ghost use Rattle.std.specs.Ordering.{as_partial_cmp, eq_by_cmp};
ghost use Rattle.std.specs.Cmp.{eq_by_cmp_equiv, partial_equiv_from_equiv, partial_order_from_total};
ghost use Rattle.net_structs.specs.Rows.{kind_of, number_of, row_cmp, row_total};

use crate::cells::Cells;
use csdn_core::terms::Pred;
use sqlite_items::Items;
use std::alloc::AllocError;
use std::cmp::Ordering;

/// A tuple of a relation. Rows are ordered by their relations and then by their elements: the declared relations come first,
/// in the program's order, then `ft`, `sent` and `rcv_this`.
#[derive(Drop)]
pub struct Row {
    pub pred: Pred,
    pub cells: Cells,
}

/// Tuples of relations.
pub type Rows = Items<Row>;

fn kind(pred: Pred) -> u8
    ensures { result ≡ kind_of pred }
{
    match pred {
        Pred::Stored(_) => 0,
        Pred::Ft => 1,
        Pred::Sent => 2,
        Pred::RcvThis => 3,
    }
}

fn number(pred: Pred) -> u32
    ensures { result ≡ number_of pred }
{
    match pred {
        Pred::Stored(rel) => rel.0,
        Pred::Ft | Pred::Sent | Pred::RcvThis => 0,
    }
}

impl PartialEq for Row {
    ghost eq = { eq_by_cmp row_cmp };

    ghost laws = { partial_equiv_from_equiv (eq_by_cmp_equiv row_total) };

    fn eq(&self, other: &Row) -> bool {
        self.cmp(other) == Ordering::Equal
    }
}

impl Eq for Row {
    ghost laws = { eq_by_cmp_equiv row_total };
}

impl PartialOrd for Row {
    ghost partial_cmp = { as_partial_cmp row_cmp };

    ghost laws = { partial_order_from_total row_total };

    fn partial_cmp(&self, other: &Row) -> Option<Ordering> {
        Some(self.cmp(other))
    }
}

impl Ord for Row {
    ghost cmp = { row_cmp };

    ghost total = { row_total };

    ghost matches_partial_cmp = { λ x y. refl };

    ghost matches_eq = { λ x y. refl };

    fn cmp(&self, other: &Row) -> Ordering {
        kind(self.pred)
            .cmp(&kind(other.pred))
            .then(number(self.pred).cmp(&number(other.pred)))
            .then(self.cells.cmp(&other.cells))
    }
}

impl Clone for Row {
    ghost is_clone = { λ row copy. copy ≡ row };

    fn clone(&self) -> Result<Row, AllocError> {
        Ok(Row {
            pred: self.pred,
            cells: self.cells.copy(),
        })
    }
}
