//! Writes JSON into bytes: no space, and a comma if a value comes before.

use crate::writing::quoted::push_quoted;
use itoa::Buffer;
use sleep_base::Mem;
use sleep_model::Machine;
use std::alloc::Global;
use std::marker::Model;

/// JSON that grows at its end. Contracts see what was written, and whether a value ends it.
#[derive(Drop)]
pub(crate) struct JsonWriter {
    bytes: Vec<u8>,
    /// A value or a member was the last, so that a comma comes before the next.
    later: bool,
}

impl Model for JsonWriter {
    ghost use Rattle.machine_file.specs.Writing.{Sheet};

    ghost Value = { Sheet };

    ghost view = { λ w. record { text = w.bytes.items; later = w.later } };
}

/// What a machine writes as a JSON value.
pub(crate) trait Written {
    ghost use Rattle.std.specs.Prelude.{◌≡◌, OnOk};
    ghost use Rattle.serde_json.specs.Data.{Data};
    ghost use Rattle.sleep_model.specs.declared.machine.Machine.{Machine};
    ghost use Rattle.machine_file.specs.Writing.{with_item};

    ghost value: { Machine → Self → Data };

    /// Writes it.
    fn write_to(&self, machine: &Machine, out: &mut JsonWriter) -> Result<(), Mem>
        ensures { OnOk result (out.new ≡ with_item out.old (value machine.now self.now)) };
}

impl JsonWriter {
    ghost use Rattle.std.specs.Prelude.{◌≡◌, ◌++◌, ◌∷◌, [], map, fold, true, false, option_map, OnOk};
    ghost use Rattle.json.specs.Print.{quoted};
    ghost use Rattle.serde_json.specs.Data.{string};
    ghost use Rattle.serde_json.specs.Written.{comma_if};
    ghost use Rattle.file_rules.specs.Form.{row};
    ghost use Rattle.machine_file.specs.Spelling.{always, count, count_unless, true_if, list_if, text_row, integer_unless_zero};
    ghost use Rattle.machine_file.specs.Writing.{blank, added, with_item, with_row, with_object, object_ended};

    /// A writer that has written nothing.
    pub(crate) fn new(alloc: Global) -> Self
        ensures { result ≡ blank }
    {
        JsonWriter {
            bytes: Vec::new(alloc),
            later: false,
        }
    }

    /// All that was written.
    pub(crate) fn into_vec(self) -> Vec<u8>
        ensures { result.items ≡ self.text }
    {
        let JsonWriter { bytes, .. } = self;
        bytes
    }

    /// Writes these bytes; a comma comes before what follows them, or not.
    fn add(&mut self, bytes: &[u8], later: bool) -> Result<(), Mem>
        ensures { OnOk result (self.new ≡ added bytes.now later self.old) }
    {
        self.bytes.extend_from_slice(bytes)?;
        self.later = later;
        Ok(())
    }

    /// Writes a comma, if a value comes before.
    fn comma(&mut self) -> Result<(), Mem>
        ensures { OnOk result (self.new ≡ added (comma_if self.old.later) false self.old) }
    {
        if self.later {
            self.add(b",", false)
        } else {
            Ok(())
        }
    }

    /// Writes a text in quotes.
    fn quote(&mut self, text: &[u8]) -> Result<(), Mem>
        ensures { OnOk result (self.new ≡ added (quoted text.now) true self.old) }
    {
        push_quoted(&mut self.bytes, text)?;
        self.later = true;
        Ok(())
    }

    /// Writes a member's name.
    fn name(&mut self, name: &str) -> Result<(), Mem>
        ensures { OnOk result (self.new ≡ added (comma_if self.old.later ++ (quoted name.now ++ 58 ∷ [])) false self.old) }
    {
        self.comma()?;
        self.quote(name.as_bytes())?;
        self.add(b":", false)
    }

    /// Begins an object.
    pub(crate) fn open_object(&mut self) -> Result<(), Mem>
        ensures { OnOk result (self.new ≡ with_object self.old) }
    {
        self.comma()?;
        self.add(b"{", false)
    }

    /// Ends an object.
    pub(crate) fn close_object(&mut self) -> Result<(), Mem>
        ensures { OnOk result (self.new ≡ object_ended self.old) }
    {
        self.add(b"}", true)
    }

    /// Writes a text.
    pub(crate) fn put_text(&mut self, text: &[u8]) -> Result<(), Mem>
        ensures { OnOk result (self.new ≡ with_item self.old (string text.now)) }
    {
        self.comma()?;
        self.quote(text)
    }

    /// Writes a text at a member.
    pub(crate) fn text(&mut self, name: &str, text: &[u8]) -> Result<(), Mem>
        ensures { OnOk result (self.new ≡ with_row self.old (text_row name.now text.now)) }
    {
        self.name(name)?;
        self.quote(text)
    }

    /// Writes a number at a member.
    pub(crate) fn number(&mut self, name: &str, number: u64) -> Result<(), Mem>
        ensures { OnOk result (self.new ≡ with_row self.old (always name.now (count number))) }
    {
        let mut digits = Buffer::new();
        self.name(name)?;
        self.add(digits.format(number).as_bytes(), true)
    }

    /// Writes a number at a member, unless it has its default.
    pub(crate) fn number_unless(&mut self, name: &str, default: u64, number: u64) -> Result<(), Mem>
        ensures { OnOk result (self.new ≡ with_row self.old (count_unless name.now default number)) }
    {
        if number == default {
            return Ok(());
        }
        self.number(name, number)
    }

    /// Writes a number at a member, if it is there.
    pub(crate) fn number_if(&mut self, name: &str, number: Option<u32>) -> Result<(), Mem>
        ensures { OnOk result (self.new ≡ with_row self.old (row name.now (option_map count number))) }
    {
        match number {
            Some(number) => self.number(name, u64::from(number)),
            None => Ok(()),
        }
    }

    /// Writes a whole number at a member, unless it is 0.
    pub(crate) fn integer_unless_zero(&mut self, name: &str, number: i32) -> Result<(), Mem>
        ensures { OnOk result (self.new ≡ with_row self.old (row name.now (integer_unless_zero number))) }
    {
        if number == 0 {
            return Ok(());
        }
        let mut digits = Buffer::new();
        self.name(name)?;
        self.add(digits.format(number).as_bytes(), true)
    }

    /// Writes `true` at a member, if it holds.
    pub(crate) fn true_if(&mut self, name: &str, holds: bool) -> Result<(), Mem>
        ensures { OnOk result (self.new ≡ with_row self.old (true_if name.now holds)) }
    {
        if !holds {
            return Ok(());
        }
        self.name(name)?;
        self.add(b"true", true)
    }

    /// Writes a list at a member, unless it is empty.
    pub(crate) fn list<T: Written>(
        &mut self,
        name: &str,
        machine: &Machine,
        items: &[T],
    ) -> Result<(), Mem>
        ensures { OnOk result (self.new ≡ with_row self.old (list_if name.now (map (T.value machine.now) items.now))) }
    {
        if items.is_empty() {
            return Ok(());
        }
        self.name(name)?;
        self.add(b"[", false)?;
        self.items(machine, items)?;
        self.add(b"]", true)
    }

    /// Writes the items of a list.
    fn items<T: Written>(&mut self, machine: &Machine, items: &[T]) -> Result<(), Mem>
        ensures { OnOk result (self.new ≡ fold with_item self.old (map (T.value machine.now) items.now)) }
    {
        for item in items {
            item.write_to(machine, self)?;
        }
        Ok(())
    }
}
