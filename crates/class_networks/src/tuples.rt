//! The tuples that a valuation makes true.
#![tactic(auto)]

ghost use Rattle.std.specs.Prelude.{◌≡◌, ◌++◌, ◌∷◌, [], IfOk, OnOk, flat_map};
ghost use Rattle.class_networks.specs.Judgements.{constants_in};
ghost use Rattle.class_networks.specs.Numberings.{number_at};
ghost use Rattle.class_networks.specs.Made.{cells_by, row_at, rows_in};

use crate::judgement::Judgement;
use crate::numbers::Numbers;
use csdn_core::terms::Sort;
use ground_inst::facts::UsedRelation;
use net_structs::cells::Cells;
use net_structs::row::{Row, Rows};
use sqlite_items::Items;
use std::alloc::{AllocError, Global};

/// The tuples of elements that are judged true, of each relation that the sentence uses. One comes as often as it is judged true of
/// constants with these elements. It looks at each true atom once for each relation.
pub fn rows_of(alloc: Global, judgement: &Judgement, numbers: &Numbers) -> Result<Rows, AllocError>
    ensures { IfOk result (λ rows. rows ≡ rows_in (constants_in judgement.now) (number_at numbers.now) judgement.now.valuation.now judgement.now.facts.now.relations) }
{
    let mut rows = Items::new(alloc);
    let mut rest = judgement.facts.relations.as_slice();
    'relations: while let [used, more @ ..] = rest {
        push_rows(judgement, numbers, used, &mut rows)?;
        rest = more;
    }
    Ok(rows)
}

// Appends the tuples of a relation.
fn push_rows(
    judgement: &Judgement,
    numbers: &Numbers,
    used: &UsedRelation,
    rows: &mut Rows,
) -> Result<(), AllocError>
    ensures { OnOk result (rows.new ≡ rows.old ++ flat_map (row_at (constants_in judgement.now) (number_at numbers.now) used.now) judgement.now.valuation.now) }
{
    let mut rest = judgement.valuation.true_atoms();
    'atoms: while let [atom, more @ ..] = rest {
        push_row(judgement, numbers, used, *atom, rows)?;
        rest = more;
    }
    Ok(())
}

// Appends the tuple of an atom, where it is one of the relation's.
fn push_row(
    judgement: &Judgement,
    numbers: &Numbers,
    used: &UsedRelation,
    atom: u64,
    rows: &mut Rows,
) -> Result<(), AllocError>
    ensures { OnOk result (rows.new ≡ rows.old ++ row_at (constants_in judgement.now) (number_at numbers.now) used.now atom) }
{
    if used.before < atom {
        let number = atom - used.before - 1;
        match cells_of(judgement, numbers, used.sorts.as_slice(), number)? {
            Some(cells) => rows.push(Row {
                pred: used.relation,
                cells,
            }),
            None => Ok(()),
        }
    } else {
        Ok(())
    }
}

// The elements of the tuple of a number; none where no tuple of these sorts has it.
fn cells_of(
    judgement: &Judgement,
    numbers: &Numbers,
    sorts: &[Sort],
    number: u64,
) -> Result<Option<Cells>, AllocError>
    ensures { IfOk result (λ cells. cells ≡ cells_by (constants_in judgement.now) (number_at numbers.now) sorts.now number) }
{
    let mut cells = Cells::new();
    let mut left = number;
    let mut rest = sorts;
    'sorts: while let [sort, more @ ..] = rest {
        let count = judgement.count(*sort);
        if count == 0 {
            return Err(AllocError);
        }
        push_cell(&mut cells, numbers.of(*sort, left % count))?;
        left /= count;
        rest = more;
    }
    if left == 0 { Ok(Some(cells)) } else { Ok(None) }
}

fn push_cell(cells: &mut Cells, element: u64) -> Result<(), AllocError>
    ensures { OnOk result (cells.new ≡ cells.old ++ element ∷ []) }
{
    if cells.as_slice().len() < 5 {
        cells.push(element);
        Ok(())
    } else {
        Err(AllocError)
    }
}
