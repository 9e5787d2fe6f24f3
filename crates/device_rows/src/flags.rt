//! A flag for each number, which is unset beyond the last.

use sleep_base::Mem;
use std::alloc::Global;
use std::marker::Model;

/// Flags by number, that contracts see as their list.
#[derive(Drop)]
pub struct Flags {
    flags: Vec<bool>,
}

impl Model for Flags {
    ghost use Rattle.std.specs.Prelude.{List, Bool};

    ghost Value = { List Bool };

    ghost view = { λ f. f.flags.items };
}

impl Flags {
    ghost use Rattle.std.specs.Prelude.{◌≡◌, false, IfOk, length, replicate, slice_index_or, slice_set};

    /// These flags, in this order.
    pub fn of_vec(flags: Vec<bool>) -> Self
        ensures { result ≡ flags.items }
    {
        Flags { flags }
    }

    /// That number of flags, none of which is set. `Mem` if there is no memory for it.
    pub fn new(alloc: Global, count: usize) -> Result<Self, Mem>
        ensures { IfOk result (λ f. f ≡ replicate count false) }
    {
        let flags = vec![in alloc; false; count]?;
        Ok(Flags { flags })
    }

    /// All of them, in order.
    pub fn as_slice(&self) -> &[bool]
        ensures { result.now ≡ self.now }
    {
        self.flags.as_slice()
    }

    /// How many flags there are.
    pub fn len(&self) -> usize
        ensures { result ≡ length self.now }
    {
        self.flags.len()
    }

    /// Whether the flag at that number is set; false if there is none.
    pub fn is_set(&self, number: u32) -> bool
        ensures { result ≡ slice_index_or self.now number false }
    {
        match self.flags.get(number as usize) {
            Some(flag) => *flag,
            None => false,
        }
    }

    /// Sets the flag at that number or takes it away; if there is none, nothing changes.
    pub fn set(&mut self, number: u32, to: bool)
        ensures { self.new ≡ slice_set self.old number to }
    {
        if let Some(flag) = self.flags.get_mut(number as usize) {
            *flag = to;
        }
    }
}
