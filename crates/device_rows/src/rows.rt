//! Rows of device numbers, one for each device.

ghost use Rattle.std.specs.Prelude.{◌≡◌, IfOk, option_to_list};

use sleep_base::Mem;
use std::alloc::Global;
use std::marker::Model;

/// A table with a row of numbers for each device. Contracts see it as the rows, each with the
/// room that it has left.
#[derive(Drop)]
pub struct Rows {
    rows: Vec<Vec<u32>>,
}

impl Model for Rows {
    ghost use Rattle.std.specs.Prelude.{◌-◌, map, vec_len, vec_capacity};
    ghost use Rattle.device_rows.specs.Table.{Table};

    ghost Value = { Table };

    ghost view = { λ t. record {
      rows = map (λ v. v.items) t.rows.items;
      room = map (λ v. vec_capacity v - vec_len v) t.rows.items;
    } };
}

impl Rows {
    ghost use Rattle.std.specs.Prelude.{◌≡◌, ◌<◌, ◌≤◌, ◌++◌, ◌∷◌, [], ℕ, IfOk, OnOk, OnErr, length, replicate, option_to_list, slice_index, slice_set};
    ghost use Rattle.device_rows.specs.Table.{row_at, room_at};

    /// A table without rows.
    pub fn new(alloc: Global) -> Rows
        ensures { result.rows ≡ [] }
    {
        Rows {
            rows: Vec::new(alloc),
        }
    }

    /// A table of empty rows. `Mem` if there is no memory for it.
    pub fn with_rows(alloc: Global, count: usize) -> Result<Rows, Mem>
        ensures { IfOk result (λ t. t.rows ≡ replicate count []) }
    {
        let mut table = Rows::new(alloc);
        for _row in 0..count {
            table.add_row()?;
        }
        Ok(table)
    }

    /// How many rows there are.
    pub fn len(&self) -> usize
        ensures { result ≡ length self.now.rows }
    {
        self.rows.len()
    }

    /// The numbers of a row, the oldest first; none if there is no such row.
    pub fn row(&self, device: u32) -> &[u32]
        ensures { result.now ≡ row_at self.now device }
    {
        match self.rows.get(device as usize) {
            Some(row) => row.as_slice(),
            None => &[],
        }
    }

    /// The numbers of a row that there is, the oldest first.
    pub fn row_within(&self, device: u32) -> &[u32]
        requires { device < length self.now.rows }
        ensures { result.now ≡ row_at self.now device }
    {
        self.rows[device as usize].as_slice()
    }

    /// Puts an empty row at the end. `Mem` if there is no memory for it; all is then as before.
    pub fn add_row(&mut self) -> Result<(), Mem>
        ensures ok { OnOk result (self.new.rows ≡ self.old.rows ++ [] ∷ []) }
        ensures room { (d : ℕ) → d < length self.old.rows →
            slice_index self.new.room d ≡ slice_index self.old.room d }
        ensures err { OnErr result (self.new.rows ≡ self.old.rows) }
    {
        let alloc = *self.rows.allocator();
        self.rows.push(Vec::new(alloc))?;
        Ok(())
    }

    /// Puts a row with this number at the end, or an empty one. `Mem` if there is no memory for it;
    /// all is then as before.
    pub fn add_row_of(&mut self, number: Option<u32>) -> Result<(), Mem>
        ensures ok { OnOk result (self.new.rows ≡ self.old.rows ++ option_to_list number ∷ []) }
        ensures err { OnErr result (self.new.rows ≡ self.old.rows) }
    {
        let alloc = *self.rows.allocator();
        let row = row_of(alloc, number)?;
        self.rows.push(row)?;
        Ok(())
    }

    /// Makes room for one more number in a row. `Mem` if there is no memory for it.
    pub fn make_room(&mut self, device: u32) -> Result<(), Mem>
        requires { device < length self.old.rows }
        ensures rows { self.new.rows ≡ self.old.rows }
        ensures places { (d : ℕ) → room_at self.old d ≤ room_at self.new d }
        ensures ok { OnOk result (0 < slice_index self.new.room device) }
    {
        let row = &mut self.rows[device as usize];
        row.reserve(1)?;
        Ok(())
    }

    /// Gives a row room for that number of numbers in all. `Mem` if there is no memory for it.
    pub fn reserve_row(&mut self, device: u32, count: usize) -> Result<(), Mem>
        requires { device < length self.old.rows }
        ensures rows { self.new.rows ≡ self.old.rows }
        ensures places { (d : ℕ) → room_at self.old d ≤ room_at self.new d }
        ensures ok { OnOk result (count ≤ room_at self.new device) }
    {
        let row = &mut self.rows[device as usize];
        row.reserve(count.saturating_sub(row.len()))?;
        Ok(())
    }

    /// Takes all numbers out of a row, which keeps its room.
    pub fn clear(&mut self, device: u32)
        requires { device < length self.old.rows }
        ensures rows { self.new.rows ≡ slice_set self.old.rows device [] }
        ensures places { (d : ℕ) → room_at self.old d ≤ room_at self.new d }
    {
        let row = &mut self.rows[device as usize];
        row.clear();
    }

    /// Puts a number at the end of a row that has room.
    pub fn push(&mut self, device: u32, number: u32)
        requires { 0 < slice_index self.old.room device }
        ensures rows { self.new.rows ≡
            slice_set self.old.rows device (row_at self.old device ++ number ∷ []) }
        ensures places { (d : ℕ) → room_at self.old d ≤ room_at self.new d }
    {
        let row = &mut self.rows[device as usize];
        row.push_reserved(number);
    }

    /// Puts a number at the end of a row. `Mem` if there is no memory for it; all is then as before.
    pub fn append(&mut self, device: u32, number: u32) -> Result<(), Mem>
        requires { device < length self.old.rows }
        ensures ok { OnOk result (self.new.rows ≡
            slice_set self.old.rows device (row_at self.old device ++ number ∷ [])) }
        ensures places { (d : ℕ) → room_at self.old d ≤ room_at self.new d }
        ensures err { OnErr result (self.new.rows ≡ self.old.rows) }
    {
        let row = &mut self.rows[device as usize];
        row.push(number)?;
        Ok(())
    }
}

/// A row of at most one number.
fn row_of(alloc: Global, number: Option<u32>) -> Result<Vec<u32>, Mem>
    ensures { IfOk result (λ v. v.items ≡ option_to_list number) }
{
    let mut row = Vec::new(alloc);
    if let Some(only) = number {
        row.push(only)?;
    }
    Ok(row)
}
