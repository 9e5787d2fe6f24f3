//! The JSON of answers.

ghost use Rattle.std.specs.Prelude.{◌≡◌, codes, OnOk};
ghost use Rattle.file_rules.specs.Form.{row};
ghost use Rattle.machine_file.specs.Spelling.{thing_word, thing_name, thing_phase, error_or, answer_value};
ghost use Rattle.machine_file.specs.Writing.{with_row};
ghost use Rattle.sleep_model.specs.Answers.{error_of_number};

use crate::writing::writer::{JsonWriter, Written};
use file_rules::{DEVICE, NOTIFIER, PLATFORM, SYSCORE};
use sleep_base::{Errno, Mem};
use sleep_model::{Answer, Machine, What};

/// The word of a thing's kind.
fn thing_word(what: What) -> &'static str
    ensures { result.now ≡ thing_word what }
{
    match what {
        What::Device(..) => DEVICE,
        What::Syscore(_) => SYSCORE,
        What::Notifier(_) => NOTIFIER,
        What::Platform(_) => PLATFORM,
    }
}

/// The name of a thing.
fn thing_name(machine: &Machine, what: What) -> &[u8]
    ensures { result.now ≡ thing_name machine.now what }
{
    match what {
        What::Device(device, _) => machine.device_name(device),
        What::Syscore(callback) => machine.syscore_name(callback),
        What::Notifier(notifier) => machine.notifier_name(notifier),
        What::Platform(step) => step.name().as_bytes(),
    }
}

/// The phase in which a device answers.
fn put_phase(out: &mut JsonWriter, what: What) -> Result<(), Mem>
    ensures { OnOk result (out.new ≡ with_row out.old (row (codes "phase") (thing_phase what))) }
{
    match what {
        What::Device(_, phase) => out.text("phase", phase.name().as_bytes()),
        _ => Ok(()),
    }
}

/// What is answered, unless it is 0.
fn put_ret(out: &mut JsonWriter, ret: i32) -> Result<(), Mem>
    ensures { OnOk result (out.new ≡ with_row out.old (row (codes "ret") (error_or (error_of_number ret) ret))) }
{
    match Errno::of_answer(ret) {
        Some(error) => out.text("ret", error.name().as_bytes()),
        None => out.integer_unless_zero("ret", ret),
    }
}

/// Writes what an answer returns.
fn put_answered(out: &mut JsonWriter, answer: &Answer) -> Result<(), Mem>
    ensures { OnOk result (out.new ≡ with_row out.old (row (codes "ret") (error_or (error_of_number answer.now.ret) answer.now.ret))) }
{
    let ret = answer.ret;
    put_ret(out, ret)
}

impl Written for Answer {
    ghost value = { answer_value };

    /// Writes the object of an answer.
    fn write_to(&self, machine: &Machine, out: &mut JsonWriter) -> Result<(), Mem> {
        out.open_object()?;
        out.number_if("attempt", self.attempt)?;
        out.text("name", thing_name(machine, self.what))?;
        put_phase(out, self.what)?;
        out.list("reports", machine, self.reports.as_slice())?;
        put_answered(out, self)?;
        out.text("what", thing_word(self.what).as_bytes())?;
        out.close_object()
    }
}
