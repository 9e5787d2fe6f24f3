//! The rows of devices that readers see: what is active below and above each.

use crate::tables::parent_rows;
use device_rows::Rows;
use sleep_base::Mem;
use std::alloc::Global;
use std::marker::Model;

/// Rows of device numbers, each of which is replaced as a whole. Contracts see them as lists.
#[derive(Drop)]
pub(crate) struct ShownRows {
    rows: Vec<Vec<u32>>,
}

impl Model for ShownRows {
    ghost use Rattle.std.specs.Prelude.{List, ℕ, map};

    ghost Value = { List (List ℕ) };

    ghost view = { λ t. map (λ v. v.items) t.rows.items };
}

impl ShownRows {
    ghost use Rattle.std.specs.Prelude.{◌≡◌, ◌<◌, ◌^◌, [], IfOk, length, map, option_to_list, slice_index_or, slice_set};

    /// The same rows. `Mem` if there is no memory for them.
    pub(crate) fn of_rows(alloc: Global, table: &Rows) -> Result<ShownRows, Mem>
        requires { length table.now.rows < 2 ^ 32 }
        ensures { IfOk result (λ t. t ≡ table.now.rows) }
    {
        let mut rows = Vec::new(alloc);
        for number in 0..table.len() as u32 {
            let row = Vec::from_slice(alloc, table.row_within(number))?;
            rows.push(row)?;
        }
        Ok(ShownRows { rows })
    }

    /// The parent of each device, as a row. `Mem` if there is no memory for them.
    pub(crate) fn of_parents(alloc: Global, parents: &[Option<u32>]) -> Result<ShownRows, Mem>
        requires { length parents.now < 2 ^ 32 }
        ensures { IfOk result (λ t. t ≡ map option_to_list parents.now) }
    {
        let rows = parent_rows(alloc, parents)?;
        let shown = ShownRows::of_rows(alloc, &rows);
        drop(rows);
        shown
    }

    /// The numbers of a row; none if there is no such row.
    pub(crate) fn row(&self, device: u32) -> &[u32]
        ensures { result.now ≡ slice_index_or self.now device [] }
    {
        match self.rows.get(device as usize) {
            Some(row) => row.as_slice(),
            None => &[],
        }
    }

    /// Puts another row in place of one that there is.
    pub(crate) fn replace(&mut self, device: u32, row: Vec<u32>)
        requires { device < length self.old }
        ensures { self.new ≡ slice_set self.old device row.items }
    {
        self.rows[device as usize] = row;
    }
}
