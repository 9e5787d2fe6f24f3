//! What the texts of a file name, by the tables of names.

ghost use Rattle.std.specs.Prelude.{◌≡◌, find, bytes_eq};
ghost use Rattle.borrowed_json.specs.View.{view};
ghost use Rattle.sleep_base.specs.Errno.{name_of, errors};
ghost use Rattle.phase_table.specs.Phases.{phase_name};
ghost use Rattle.sleep_model.specs.Text.{down_word, kind_word};
ghost use Rattle.borrowed_json.specs.Look.{is_text};
ghost use Rattle.file_rules.specs.Answering.{answering_phases, platform_steps};
ghost use Rattle.file_rules.specs.WordLists.{task_kinds};

use borrowed_json::{Value, as_str};
use sleep_base::Errno;
use sleep_model::{Phase, PlatDo, TaskKind};

/// The word of a device that answers.
pub const DEVICE: &str = "device";

/// The word of a syscore callback that answers.
pub const SYSCORE: &str = "syscore";

/// The word of a notifier that answers.
pub const NOTIFIER: &str = "notifier";

/// The word of the platform that answers.
pub const PLATFORM: &str = "platform";

/// The word of a call that makes a source active.
pub const AWAKE: &str = "awake";

/// The word of a call that relaxes a source.
pub const RELAX: &str = "relax";

/// The word of an event of a source.
pub const EVENT: &str = "event";

/// The error that a text names.
pub fn error_in(value: &Value<'_>) -> Option<Errno>
    ensures { result ≡ find (λ e. is_text (name_of e) (view value.now)) errors }
{
    match as_str(value) {
        Some(text) => Errno::of_name(text),
        None => None,
    }
}

/// The platform's step that a text names.
pub fn step_in(value: &Value<'_>) -> Option<PlatDo>
    ensures { result ≡ find (λ s. is_text (down_word s) (view value.now)) platform_steps }
{
    match as_str(value) {
        Some(text) => step_named(text),
        None => None,
    }
}

/// The platform's step of that name.
pub(crate) fn step_named(name: &str) -> Option<PlatDo>
    ensures { result ≡ find (λ s. bytes_eq name.now (down_word s)) platform_steps }
{
    PlatDo::of_bytes(name.as_bytes())
}

/// The kind of task that a text names.
pub fn kind_in(value: &Value<'_>) -> Option<TaskKind>
    ensures { result ≡ find (λ k. is_text (kind_word k) (view value.now)) task_kinds }
{
    match as_str(value) {
        Some(text) => TaskKind::of_bytes(text.as_bytes()),
        None => None,
    }
}

/// The phase, of those in which devices answer, that a text names.
pub fn phase_in(value: &Value<'_>) -> Option<Phase>
    ensures { result ≡ find (λ p. is_text (phase_name p) (view value.now)) answering_phases }
{
    match as_str(value) {
        Some(text) => phase_named(text),
        None => None,
    }
}

fn phase_named(name: &str) -> Option<Phase>
    ensures { result ≡ find (λ p. bytes_eq name.now (phase_name p)) answering_phases }
{
    match Phase::of_name(name) {
        Some(phase) => if_answering(phase),
        None => None,
    }
}

/// The phase, if devices answer in it.
fn if_answering(phase: Phase) -> Option<Phase>
    ensures { result ≡ find (λ p. bytes_eq (phase_name phase) (phase_name p)) answering_phases }
{
    match phase {
        Phase::Syscore | Phase::SyscoreResume | Phase::Complete => None,
        _ => Some(phase),
    }
}
