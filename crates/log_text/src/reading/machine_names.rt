//! A machine with its names, as a log's reader needs them.

use crate::reading::index::NameIndex;
use crate::reading::names::ByKind;
use crate::writing::ready::ReadyNames;
use sleep_base::{Mem, drop_for_mem};
use sleep_model::Machine;
use std::alloc::Global;
use std::marker::Model;

/// A machine, each of whose things is found at once by its name. Contracts see the machine.
#[derive(Drop)]
pub struct MachineNames<'a> {
    names: ReadyNames<'a>,
    indexes: ByKind<NameIndex>,
}

impl<'a> Model for MachineNames<'a> {
    ghost use Rattle.sleep_model.specs.declared.machine.Machine.{Machine};

    ghost Value = { Machine };

    ghost use Rattle.log_text.specs.MachineNames.{HasNames};

    ghost view = { λ b. b.names };

    ghost invariant = { λ b. HasNames b.names b.indexes.devices.indices b.indexes.syscore.indices b.indexes.notifiers.indices b.indexes.sources.indices b.indexes.marks.indices b.indexes.scripts.indices };
}

impl<'a> MachineNames<'a> {
    ghost use Rattle.std.specs.Prelude.{◌≡◌, nat_lt, nat_le, length, true, IfOk, IfSome};
    ghost use Rattle.log_text.specs.Reading.{device_in, syscore_in, notifier_in, source_in, mark_in, script_in};

    /// The names of this machine. `Mem` if there is no memory for it, or more things of a kind than
    /// have numbers.
    pub fn new(alloc: Global, machine: &'a Machine) -> Result<Self, Mem>
        ensures { IfOk result (λ b. b ≡ machine.now) }
    {
        let names = ReadyNames::new(alloc, machine)?;
        let Ok(indexes) = ByKind::of(alloc, machine) else {
            return Err(drop_for_mem(names));
        };
        Ok(MachineNames { names, indexes })
    }

    /// The machine.
    pub fn machine(&self) -> &'a Machine
        ensures { result.now ≡ self.now }
    {
        self.names.machine()
    }

    /// The machine with its names, ready to be copied.
    pub fn names(&self) -> &ReadyNames<'a>
        ensures { result.now ≡ self.now }
    {
        &self.names
    }

    /// A guess at the device whose name and that byte a text begins with, which the caller compares.
    #[inline(always)]
    pub fn guessed_device(&self, text: &[u8], end: u8) -> u32 {
        self.indexes.devices.guess(text, end)
    }

    /// The same of scripts.
    #[inline(always)]
    pub fn guessed_script(&self, text: &[u8], end: u8) -> u32 {
        self.indexes.scripts.guess(text, end)
    }

    /// The device of that name. None if there is none.
    pub fn device(&self, word: &[u8]) -> Option<u32>
        ensures place { result ≡ device_in self.now word.now }
        ensures within { IfSome result (λ d. nat_lt d (length self.now.devices) ≡ true) }
    {
        self.indexes.devices.find(word)
    }

    /// The syscore step of that name. None if there is none.
    pub fn syscore(&self, word: &[u8]) -> Option<u32>
        ensures place { result ≡ syscore_in self.now word.now }
        ensures within { IfSome result (λ x. nat_lt x (length self.now.syscore) ≡ true) }
    {
        self.indexes.syscore.find(word)
    }

    /// The notifier of that name. None if there is none.
    pub fn notifier(&self, word: &[u8]) -> Option<u32>
        ensures place { result ≡ notifier_in self.now word.now }
        ensures within { IfSome result (λ x. nat_lt x (length self.now.notifiers) ≡ true) }
    {
        self.indexes.notifiers.find(word)
    }

    /// The source of that name, `autosleep` after those of the machine. None if there is none.
    pub fn source(&self, word: &[u8]) -> Option<u32>
        ensures place { result ≡ source_in self.now word.now }
        ensures within { IfSome result (λ s. nat_le s (length self.now.sources) ≡ true) }
    {
        self.indexes.sources.find(word)
    }

    /// The mark of that name. None if there is none.
    pub fn mark(&self, word: &[u8]) -> Option<u32>
        ensures place { result ≡ mark_in self.now word.now }
        ensures within { IfSome result (λ x. nat_lt x (length self.now.marks) ≡ true) }
    {
        self.indexes.marks.find(word)
    }

    /// The script of that name. None if there is none.
    pub fn script(&self, word: &[u8]) -> Option<u32>
        ensures place { result ≡ script_in self.now word.now }
        ensures within { IfSome result (λ i. nat_lt i (length self.now.actors) ≡ true) }
    {
        self.indexes.scripts.find(word)
    }
}
