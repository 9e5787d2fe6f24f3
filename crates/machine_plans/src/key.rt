//! By what an answer is looked up.

ghost use Rattle.std.specs.Prelude.{◌≡◌};
ghost use Rattle.phase_table.specs.Phases.{phase_rank};
ghost use Rattle.machine_plans.specs.Keys.{step_rank, thing_of};

use sleep_model::{Phase, PlatDo, What};

/// A thing that answers, with a phase or a step of the platform by its rank in an attempt.
#[derive(Clone, Copy, PartialEq, Eq, Hash)]
pub(crate) enum Thing {
    Device { device: u32, phase: u8 },
    Syscore(u32),
    Notifier(u32),
    Platform { step: u8 },
}

/// A thing and the attempt that it answers in, or none for each.
#[derive(Clone, Copy, PartialEq, Eq, Hash)]
pub(crate) struct Key {
    pub(crate) thing: Thing,
    pub(crate) attempt: Option<u32>,
}

/// The key of a thing in an attempt.
pub(crate) fn key_of(what: What, attempt: Option<u32>) -> Key
    ensures { result ≡ record { thing = thing_of what; attempt = attempt } }
{
    let thing = match what {
        What::Device(device, phase) => Thing::Device {
            device,
            phase: phase_rank(phase),
        },
        What::Syscore(part) => Thing::Syscore(part),
        What::Notifier(notifier) => Thing::Notifier(notifier),
        What::Platform(step) => Thing::Platform {
            step: step_rank(step),
        },
    };
    Key { thing, attempt }
}

/// The rank of a phase in an undisturbed attempt.
fn phase_rank(phase: Phase) -> u8
    ensures { result ≡ phase_rank phase }
{
    match phase {
        Phase::Prepare => 0,
        Phase::Suspend => 1,
        Phase::Late => 2,
        Phase::Noirq => 3,
        Phase::Syscore => 4,
        Phase::SyscoreResume => 5,
        Phase::ResumeNoirq => 6,
        Phase::Early => 7,
        Phase::Resume => 8,
        Phase::Complete => 9,
    }
}

/// The rank of a step of the platform in an undisturbed attempt.
fn step_rank(step: PlatDo) -> u8
    ensures { result ≡ step_rank step }
{
    match step {
        PlatDo::Begin => 0,
        PlatDo::Prepare => 1,
        PlatDo::PrepareLate => 2,
    }
}
