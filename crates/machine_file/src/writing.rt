//! A machine is written as a machine file.
pub(crate) mod answering;
pub(crate) mod quoted;
pub(crate) mod spelling;
pub(crate) mod writer;

ghost use Rattle.std.specs.Prelude.{◌≡◌, IfOk, OnOk};
ghost use Rattle.machine_file.specs.Spelling.{machine_value, spelling};
ghost use Rattle.machine_file.specs.Writing.{with_item};

use crate::writing::writer::JsonWriter;
use sleep_base::Mem;
use sleep_model::Machine;
use std::alloc::Global;

/// The machine file of a machine: one line of JSON without spaces. Members are in the order of their names;
/// what has its default and empty lists are left out.
///
/// `Mem`: memory ran out.
pub fn write_machine(alloc: Global, machine: &Machine) -> Result<Vec<u8>, Mem>
    ensures { IfOk result (λ v. v.items ≡ spelling machine.now) }
{
    let mut out = JsonWriter::new(alloc);
    put_machine(&mut out, machine)?;
    let mut bytes = out.into_vec();
    bytes.push(b'\n')?;
    Ok(bytes)
}

/// Writes the machine's object, member by member.
fn put_machine(out: &mut JsonWriter, machine: &Machine) -> Result<(), Mem>
    ensures { OnOk result (out.new ≡ with_item out.old (machine_value machine.now)) }
{
    out.open_object()?;
    out.list("actors", machine, machine.actors.as_slice())?;
    out.number_unless("alarm_ms", 1000, machine.alarm_ms)?;
    out.list("answers", machine, machine.answers.as_slice())?;
    out.number_unless("auto_cycles", 16, u64::from(machine.auto_cycles))?;
    out.number_unless("cpus", 1, u64::from(machine.cpus))?;
    out.list("devices", machine, machine.devices.as_slice())?;
    out.list("links", machine, machine.links.as_slice())?;
    out.list("notifiers", machine, machine.notifiers.as_slice())?;
    out.list("sources", machine, machine.sources.as_slice())?;
    out.list("syscore", machine, machine.syscore.as_slice())?;
    out.number("version", 2)?;
    out.close_object()
}
