//! Copies of lists.
ghost use Rattle.std.specs.Prelude.{◌≡◌, IfOk};

use crate::program::{Constant, Handler, Invariant, Relation, StartRow};
use sqlite_items::Items;
use std::alloc::{AllocError, Global};

/// What can be copied, so that a list of such can be.
pub trait TryCopy {
    /// An equal element.
    fn copy(&self, alloc: Global) -> Result<Self, AllocError>
        ensures { IfOk result (λ element. element ≡ self.now) };
}

/// An equal list.
pub fn copy_each<T: TryCopy + Drop>(alloc: Global, items: &[T]) -> Result<Items<T>, AllocError>
    ensures { IfOk result (λ copied. copied ≡ items.now) }
{
    let mut copied = Items::new(alloc);
    for item in items {
        copied.push(item.copy(alloc)?)?;
    }
    Ok(copied)
}

impl TryCopy for Relation {
    fn copy(&self, alloc: Global) -> Result<Relation, AllocError> {
        Ok(Relation {
            name: Items::from_slice(alloc, self.name.as_slice())?,
            sorts: Items::from_slice(alloc, self.sorts.as_slice())?,
            fixed: self.fixed,
        })
    }
}

impl TryCopy for Constant {
    fn copy(&self, alloc: Global) -> Result<Constant, AllocError> {
        Ok(Constant {
            name: Items::from_slice(alloc, self.name.as_slice())?,
            sort: self.sort,
        })
    }
}

impl TryCopy for StartRow {
    fn copy(&self, _alloc: Global) -> Result<StartRow, AllocError> {
        Ok(StartRow {
            rel: self.rel,
            terms: self.terms.copy(),
        })
    }
}

impl TryCopy for Invariant {
    fn copy(&self, alloc: Global) -> Result<Invariant, AllocError> {
        Ok(Invariant {
            name: Items::from_slice(alloc, self.name.as_slice())?,
            formula: self.formula.copy(alloc)?,
        })
    }
}

impl TryCopy for Handler {
    fn copy(&self, alloc: Global) -> Result<Handler, AllocError> {
        Ok(Handler {
            port: self.port,
            s: self.s,
            a: self.a,
            b: self.b,
            i: self.i,
            body: self.body.copy(alloc)?,
        })
    }
}
