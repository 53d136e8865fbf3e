//! Tuples of elements.
ghost use Rattle.std.specs.Prelude.{◌≡◌, ◌<◌, ◌≤◌, [], ◌∷◌, ◌++◌, length, nat_eq, refl};
ghost use Rattle.std.specs.Ordering.{as_partial_cmp, eq_by_cmp, nat_cmp};
ghost use Rattle.std.specs.Cmp.{eq_by_cmp_equiv, partial_equiv_from_equiv, partial_order_from_total};
ghost use Rattle.std.specs.Cmp.Lexicographic.{nat_list_cmp_total, slice_cmp};

use arrayvec::ArrayVec;
use std::cmp::Ordering;
use std::marker::Model;

/// At most five elements. It takes no memory, and clauses see it as the list of its elements.
#[derive(Drop)]
pub struct Cells {
    cells: ArrayVec<u64, 5>,
}

impl Model for Cells {
    ghost use Rattle.std.specs.Prelude.{ℕ, List};

    ghost Value = { List ℕ };

    ghost view = { λ c. c.cells.items };
}

impl Cells {
    /// No elements.
    pub fn new() -> Cells
        ensures { result ≡ [] }
    {
        Cells {
            cells: ArrayVec::new(),
        }
    }

    /// Puts an element behind the others.
    pub fn push(&mut self, element: u64)
        requires { length self.old < 5 }
        ensures { self.new ≡ self.old ++ element ∷ [] }
    {
        self.cells.push(element);
    }

    /// These elements, of which there are at most five.
    pub fn of(elements: &[u64]) -> Cells
        requires { length elements.now ≤ 5 }
        ensures { result ≡ elements.now }
    {
        let mut cells = Cells::new();
        for element in elements {
            cells.push(*element);
        }
        cells
    }

    /// The elements, in their order: at most five.
    pub fn as_slice(&self) -> &[u64]
        ensures value { result.now ≡ self.now }
        ensures fits { length result.now ≤ 5 }
    {
        self.cells.as_slice()
    }

    /// The same elements.
    pub fn copy(&self) -> Cells
        ensures { result ≡ self.now }
    {
        Cells::of(self.as_slice())
    }
}

impl PartialEq for Cells {
    ghost eq = { eq_by_cmp (slice_cmp nat_cmp) };

    ghost laws = { partial_equiv_from_equiv (eq_by_cmp_equiv nat_list_cmp_total) };

    fn eq(&self, other: &Cells) -> bool {
        self.cmp(other) == Ordering::Equal
    }
}

impl Eq for Cells {
    ghost laws = { eq_by_cmp_equiv nat_list_cmp_total };
}

impl PartialOrd for Cells {
    ghost partial_cmp = { as_partial_cmp (slice_cmp nat_cmp) };

    ghost laws = { partial_order_from_total nat_list_cmp_total };

    fn partial_cmp(&self, other: &Cells) -> Option<Ordering> {
        Some(self.cmp(other))
    }
}

impl Ord for Cells {
    ghost cmp = { slice_cmp nat_cmp };

    ghost total = { nat_list_cmp_total };

    ghost matches_partial_cmp = { λ x y. refl };

    ghost matches_eq = { λ x y. refl };

    fn cmp(&self, other: &Cells) -> Ordering {
        self.as_slice().cmp(other.as_slice())
    }
}
