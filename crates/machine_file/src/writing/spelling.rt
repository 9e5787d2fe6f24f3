//! The JSON of a machine's parts. What has its default is left out, and members are in the order of their
//! names.

ghost use Rattle.std.specs.Prelude.{◌≡◌, ◌∷◌, [], codes, fold, option_map, Some, None, if◌then◌else◌, OnOk};
ghost use Rattle.serde_json.specs.Data.{string};
ghost use Rattle.sleep_model.specs.Runtime.{has_bit};
ghost use Rattle.sleep_model.specs.Text.{device};
ghost use Rattle.file_rules.specs.Form.{row};
ghost use Rattle.machine_file.specs.Spelling.{always, count, text_row, integer_unless_zero, device_value, link_value, notifier_value, op_member, times as times_row, op_rows, step_value, script_value, report_rows, report_value};
ghost use Rattle.machine_file.specs.Writing.{with_row};

use crate::writing::writer::{JsonWriter, Written};
use file_rules::{AWAKE, EVENT, RELAX, by_operation};
use sleep_base::Mem;
use sleep_model::{
    Device, DeviceFlags, Link, Machine, Name, Notifier, Op, Report, Script, SourceCall, Step,
    link_word, runtime_word,
};

impl Written for Name {
    ghost value = { λ m name. string name };

    fn write_to(&self, machine: &Machine, out: &mut JsonWriter) -> Result<(), Mem> {
        // A name is written alike in every machine.
        let _ = machine;
        out.put_text(self.bytes())
    }
}

impl Written for Device {
    ghost value = { device_value };

    /// Writes the object of a device.
    fn write_to(&self, machine: &Machine, out: &mut JsonWriter) -> Result<(), Mem> {
        out.open_object()?;
        out.true_if("async", self.flags.has(DeviceFlags::ASYNC))?;
        out.text("name", self.name.bytes())?;
        put_parent(out, machine, self.parent)?;
        put_status(out, self.flags)?;
        out.true_if("wakeup", self.flags.has(DeviceFlags::WAKEUP))?;
        out.close_object()
    }
}

/// Writes the name of a parent, if there is one.
fn put_parent(out: &mut JsonWriter, machine: &Machine, parent: Option<u32>) -> Result<(), Mem>
    ensures { OnOk result (out.new ≡ with_row out.old (row (codes "parent") (option_map (λ p. string (device machine.now p)) parent))) }
{
    match parent {
        Some(parent) => out.text("parent", machine.device_name(parent)),
        None => Ok(()),
    }
}

/// The status with which a device begins, unless it is active.
fn put_status(out: &mut JsonWriter, flags: DeviceFlags) -> Result<(), Mem>
    ensures { OnOk result (out.new ≡ with_row out.old (row (codes "runtime") (if has_bit 4 flags then Some (string (codes "suspended")) else None))) }
{
    if flags.has(DeviceFlags::RUNTIME_SUSPENDED) {
        return out.text("runtime", runtime_word(true).as_bytes());
    }
    Ok(())
}

impl Written for Link {
    ghost value = { link_value };

    /// Writes the object of a link.
    fn write_to(&self, machine: &Machine, out: &mut JsonWriter) -> Result<(), Mem> {
        out.open_object()?;
        out.text("consumer", machine.device_name(self.consumer))?;
        put_state(out, self.active)?;
        out.text("supplier", machine.device_name(self.supplier))?;
        out.close_object()
    }
}

/// The state of a link, unless it is active.
fn put_state(out: &mut JsonWriter, active: bool) -> Result<(), Mem>
    ensures { OnOk result (out.new ≡ with_row out.old (row (codes "state") (if active then None else Some (string (codes "dormant"))))) }
{
    if active {
        return Ok(());
    }
    out.text("state", link_word(false).as_bytes())
}

impl Written for Notifier {
    ghost value = { λ m x. notifier_value x };

    /// Writes the object of a notifier.
    fn write_to(&self, machine: &Machine, out: &mut JsonWriter) -> Result<(), Mem> {
        // A notifier names nothing else of the machine.
        let _ = machine;
        out.open_object()?;
        out.text("name", self.name.bytes())?;
        put_priority(out, self)?;
        out.close_object()
    }
}

/// Writes a priority, unless it is 0.
fn put_priority(out: &mut JsonWriter, notifier: &Notifier) -> Result<(), Mem>
    ensures { OnOk result (out.new ≡ with_row out.old (row (codes "priority") (integer_unless_zero notifier.now.priority))) }
{
    let priority = notifier.priority;
    out.integer_unless_zero("priority", priority)
}

impl Written for Step {
    ghost value = { step_value };

    fn write_to(&self, machine: &Machine, out: &mut JsonWriter) -> Result<(), Mem> {
        out.open_object()?;
        put_op(out, machine, self.times, &self.op)?;
        out.close_object()
    }
}

/// An operation's word, and how often it is made.
fn put_word(out: &mut JsonWriter, word: &str, times: u32) -> Result<(), Mem>
    ensures { OnOk result (out.new ≡ fold with_row out.old (op_member word.now ∷ times_row times ∷ [])) }
{
    out.text("op", word.as_bytes())?;
    out.number_unless("times", 1, u64::from(times))
}

/// The members of an operation that is made so often.
fn put_op(out: &mut JsonWriter, machine: &Machine, times: u32, op: &Op) -> Result<(), Mem>
    ensures { OnOk result (out.new ≡ fold with_row out.old (op_rows machine.now times op.now)) }
{
    by_operation!(written of op, out, machine, times)
}

/// A link's ends, and the word of what is made of it.
fn put_link(
    out: &mut JsonWriter,
    machine: &Machine,
    word: &str,
    supplier: u32,
    consumer: u32,
    times: u32,
) -> Result<(), Mem>
    ensures { OnOk result (out.new ≡ fold with_row out.old (text_row (codes "consumer") (device machine.now consumer) ∷ op_member word.now ∷ text_row (codes "supplier") (device machine.now supplier) ∷ times_row times ∷ [])) }
{
    out.text("consumer", machine.device_name(consumer))?;
    out.text("op", word.as_bytes())?;
    out.text("supplier", machine.device_name(supplier))?;
    out.number_unless("times", 1, u64::from(times))
}

/// A write of a text.
fn put_text(out: &mut JsonWriter, word: &str, text: &[u8], times: u32) -> Result<(), Mem>
    ensures { OnOk result (out.new ≡ fold with_row out.old (op_member word.now ∷ text_row (codes "text") text.now ∷ times_row times ∷ [])) }
{
    out.text("op", word.as_bytes())?;
    out.text("text", text)?;
    out.number_unless("times", 1, u64::from(times))
}

/// Writes the members of a sleep.
fn put_sleep(out: &mut JsonWriter, word: &str, ms: u32, times: u32) -> Result<(), Mem>
    ensures { OnOk result (out.new ≡ fold with_row out.old (always (codes "ms") (count ms) ∷ op_member word.now ∷ times_row times ∷ [])) }
{
    out.number("ms", u64::from(ms))?;
    put_word(out, word, times)
}

/// Writes the members of an operation on a mark.
fn put_mark(out: &mut JsonWriter, word: &str, mark: &[u8], times: u32) -> Result<(), Mem>
    ensures { OnOk result (out.new ≡ fold with_row out.old (text_row (codes "mark") mark.now ∷ op_member word.now ∷ times_row times ∷ [])) }
{
    out.text("mark", mark)?;
    put_word(out, word, times)
}

/// A call of a source.
fn put_source(out: &mut JsonWriter, word: &str, source: &[u8], times: u32) -> Result<(), Mem>
    ensures { OnOk result (out.new ≡ fold with_row out.old (op_member word.now ∷ text_row (codes "source") source.now ∷ times_row times ∷ [])) }
{
    out.text("op", word.as_bytes())?;
    out.text("source", source)?;
    out.number_unless("times", 1, u64::from(times))
}

impl Written for Script {
    ghost value = { script_value };

    /// Writes the object of a script.
    fn write_to(&self, machine: &Machine, out: &mut JsonWriter) -> Result<(), Mem> {
        out.open_object()?;
        out.text("kind", self.kind.name().as_bytes())?;
        out.text("name", self.name.bytes())?;
        out.number_unless("repeat", 1, u64::from(self.repeat))?;
        out.list("script", machine, self.steps.as_slice())?;
        out.close_object()
    }
}

impl Written for Report {
    ghost value = { report_value };

    fn write_to(&self, machine: &Machine, out: &mut JsonWriter) -> Result<(), Mem> {
        out.open_object()?;
        put_report(out, machine.source_name(self.source), self.call)?;
        out.close_object()
    }
}

/// Writes the object of a report.
/// The members of a report of that source.
fn put_report(out: &mut JsonWriter, source: &[u8], call: SourceCall) -> Result<(), Mem>
    ensures { OnOk result (out.new ≡ fold with_row out.old (report_rows source.now call)) }
{
    match call {
        SourceCall::Awake => out.text("call", AWAKE.as_bytes())?,
        SourceCall::Relax => out.text("call", RELAX.as_bytes())?,
        SourceCall::Event { ms, hard } => {
            out.text("call", EVENT.as_bytes())?;
            out.true_if("hard", hard)?;
            out.number_unless("ms", 0, u64::from(ms))?;
        }
        SourceCall::Expire => (),
    }
    out.text("source", source)
}
