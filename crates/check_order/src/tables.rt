//! What is right below each device, and what is right above it.

ghost use Rattle.std.specs.Prelude.{◌≡◌, ◌<◌, ◌^◌, ◌++◌, ◌∷◌, [], IfOk, IfSome, OnOk, length, map, option_to_list, if◌then◌else◌};
ghost use Rattle.sleep_model.specs.Order.{EachAfterParent, children_from};
ghost use Rattle.device_rows.specs.Table.{with_number};
ghost use Rattle.check_order.specs.Graphs.{IsTableOf};

use device_rows::Rows;
use sleep_base::Mem;
use std::alloc::Global;

/// Puts a number at the end of a row, if there is such a row.
fn hang(table: &mut Rows, row: Option<u32>, number: u32) -> Result<(), Mem>
    requires { IfSome row (λ r. r < length table.old.rows) }
    ensures { OnOk result (table.new.rows ≡ with_number table.old.rows row number) }
{
    if let Some(row) = row {
        table.append(row, number)?;
    }
    Ok(())
}

/// The children of each device.
pub(crate) fn children(alloc: Global, parents: &[Option<u32>]) -> Result<Rows, Mem>
    requires numbered { length parents.now < 2 ^ 32 }
    requires after { EachAfterParent 0 parents.now }
    ensures { IfOk result
        (λ t. IsTableOf (length parents.now) (λ d. children_from d 0 parents.now) t.rows) }
{
    let mut table = Rows::with_rows(alloc, parents.len())?;
    for (number, parent) in parents.iter().enumerate() {
        hang(&mut table, *parent, number as u32)?;
    }
    Ok(table)
}

/// The parent of each device, as a row.
pub(crate) fn parent_rows(alloc: Global, parents: &[Option<u32>]) -> Result<Rows, Mem>
    ensures { IfOk result (λ t. t.rows ≡ map option_to_list parents.now) }
{
    let mut table = Rows::new(alloc);
    for parent in parents {
        table.add_row_of(*parent)?;
    }
    Ok(table)
}

/// Puts a number at the end of a row that shows it.
pub(crate) fn push_if(row: &mut Vec<u32>, is_shown: bool, number: u32) -> Result<(), Mem>
    ensures { OnOk result (row.new.items ≡ row.old.items ++ (if is_shown then number ∷ [] else [])) }
{
    if is_shown {
        row.push(number)?;
    }
    Ok(())
}

/// A row, with one more number at its end if the row shows it.
pub(crate) fn longer_if(
    alloc: Global,
    is_shown: bool,
    row: &[u32],
    number: u32,
) -> Result<Vec<u32>, Mem>
    ensures { IfOk result (λ v. v.items ≡ row.now ++ (if is_shown then number ∷ [] else [])) }
{
    let mut longer = Vec::from_slice(alloc, row)?;
    push_if(&mut longer, is_shown, number)?;
    Ok(longer)
}
