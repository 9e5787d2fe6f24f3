//! The names of a machine's things, by their numbers: none has a byte past the end.

ghost use Rattle.std.specs.Prelude.{◌≡◌, slice_get};
ghost use Rattle.sleep_model.specs.Text.{name_in};

use crate::{AUTOSLEEP, Machine, Name};

/// The name with that number; no bytes if there is none.
fn name_at(names: &[Name], number: u32) -> &[u8]
    ensures { result.now ≡ name_in (slice_get names.now number) }
{
    match names.get(number as usize) {
        Some(name) => name.bytes(),
        None => b"",
    }
}

impl Machine {
    ghost use Rattle.std.specs.Prelude.{◌≡◌};
    ghost use Rattle.sleep_model.specs.Text.{device, source, notifier, syscore, mark};

    /// The name of the device of that number.
    pub fn device_name(&self, number: u32) -> &[u8]
        ensures { result.now ≡ device self.now number }
    {
        match self.devices.as_slice().get(number as usize) {
            Some(device) => device.name.bytes(),
            None => b"",
        }
    }

    /// The name of the wakeup source of that number: `autosleep` has the one after those of the file.
    pub fn source_name(&self, number: u32) -> &[u8]
        ensures { result.now ≡ source self.now number }
    {
        if number as usize == self.sources.len() {
            AUTOSLEEP.as_bytes()
        } else {
            name_at(self.sources.as_slice(), number)
        }
    }

    /// The name of the notifier of that number.
    pub fn notifier_name(&self, number: u32) -> &[u8]
        ensures { result.now ≡ notifier self.now number }
    {
        match self.notifiers.as_slice().get(number as usize) {
            Some(notifier) => notifier.name.bytes(),
            None => b"",
        }
    }

    /// The name of the core's own callback of that number (`struct syscore_ops`).
    pub fn syscore_name(&self, number: u32) -> &[u8]
        ensures { result.now ≡ syscore self.now number }
    {
        name_at(self.syscore.as_slice(), number)
    }

    /// The name of the mark of that number.
    pub fn mark_name(&self, number: u32) -> &[u8]
        ensures { result.now ≡ mark self.now number }
    {
        name_at(self.marks.as_slice(), number)
    }
}
