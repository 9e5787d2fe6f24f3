//! The rows of devices by their links: each without links, and with one more link.

ghost use Rattle.std.specs.Prelude.{◌≡◌, ◌<◌, ◌≤◌, ◌+◌, ◌^◌, ℕ, IfOk, IfSome, OnOk, Some, length, map, option_to_list, slice_index, if◌then◌else◌};
ghost use Rattle.sleep_model.specs.Order.{EachAfterParent, children_from, is_parent};
ghost use Rattle.device_rows.specs.Table.{room_at, row_at, with_number};
ghost use Rattle.link_rows.specs.Rows.{IsPushed, IsTableOf, is_left_out};

use device_rows::Rows;
use sleep_base::Mem;
use sleep_model::Link;
use std::alloc::Global;

/// Puts a number at the end of a row, if there is such a row.
pub fn dependents_of(table: &mut Rows, row: Option<u32>, number: u32) -> Result<(), Mem>
    requires { IfSome row (λ r. r < length table.old.rows) }
    ensures { OnOk result (table.new.rows ≡ with_number table.old.rows row number) }
{
    if let Some(row) = row {
        table.append(row, number)?;
    }
    Ok(())
}

/// The children of each device.
pub fn children_of(alloc: Global, parents: &[Option<u32>]) -> Result<Rows, Mem>
    requires numbered { length parents.now < 2 ^ 32 }
    requires after { EachAfterParent 0 parents.now }
    ensures { IfOk result
        (λ t. IsTableOf (length parents.now) (λ d. children_from d 0 parents.now) t.rows) }
{
    let mut table = Rows::with_rows(alloc, parents.len())?;
    for (number, parent) in parents.iter().enumerate() {
        dependents_of(&mut table, *parent, number as u32)?;
    }
    Ok(table)
}

/// The parent of each device, as a row.
pub fn parents_of(alloc: Global, parents: &[Option<u32>]) -> Result<Rows, Mem>
    ensures { IfOk result (λ t. t.rows ≡ map option_to_list parents.now) }
{
    let mut table = Rows::new(alloc);
    for parent in parents {
        table.add_row_of(*parent)?;
    }
    Ok(table)
}

/// Whether a device's parent is this one.
pub fn is_parent(parent: Option<u32>, device: u32) -> bool
    ensures { result ≡ is_parent device parent }
{
    match parent {
        Some(parent) => parent == device,
        None => false,
    }
}

/// Whether a link is put neither below nor above: it is dormant, or between a parent and its child.
pub fn is_left_out(parents: &[Option<u32>], link: Link) -> bool
    requires { link.consumer < length parents.now }
    ensures { result ≡ is_left_out parents.now link }
{
    !link.active || is_parent(parents[link.consumer as usize], link.supplier)
}

/// Room for a row's numbers, for a link's end, and for a parent.
pub fn room_for(table: &Rows, row: u32) -> usize
    ensures { result ≡ length (row_at table.now row) + 2 }
{
    table.row(row).len() + 2
}

/// Gives a row room for `count` numbers, and for one more than it has.
pub fn reserve_one(table: &mut Rows, row: u32, count: usize) -> Result<(), Mem>
    requires { row < length table.old.rows }
    ensures rows { table.new.rows ≡ table.old.rows }
    ensures places { (d : ℕ) → room_at table.old d ≤ room_at table.new d }
    ensures room { OnOk result (0 < slice_index table.new.room row) }
    ensures made { OnOk result (count ≤ room_at table.new row) }
{
    table.reserve_row(row, count)?;
    table.make_room(row)?;
    Ok(())
}

/// Puts a number at the end of a row, unless it is left out.
pub fn push_unless(table: &mut Rows, left_out: bool, row: u32, number: u32)
    requires { 0 < slice_index table.old.room row }
    ensures rows { table.new.rows ≡
        (if left_out then table.old.rows else with_number table.old.rows (Some row) number) }
    ensures places { (d : ℕ) → room_at table.old d ≤ room_at table.new d }
{
    if !left_out {
        table.push(row, number);
    }
}

/// Puts a number at the end of a row, unless it is left out, and gives the row room for `count` numbers.
pub fn push_and_reserve(
    table: &mut Rows,
    left_out: bool,
    row: u32,
    number: u32,
    count: usize,
) -> Result<(), Mem>
    requires { row < length table.old.rows }
    ensures { OnOk result (IsPushed left_out row number count table.old table.new) }
{
    table.reserve_row(row, count)?;
    if !left_out {
        table.append(row, number)?;
    }
    Ok(())
}
