//! The notifiers and the other processors of an attempt, and what is due of them.
ghost use Rattle.std.specs.Prelude.{◌≡◌, ◌-◌, not, find};
ghost use Rattle.std.specs.List.{range_with_len};
ghost use Rattle.sleep_model.specs.Walk.{is_so};
ghost use Rattle.platform_steps.specs.PlatformState.{part_entry};

use crate::order::call_order;
use device_rows::Flags;
use sleep_base::{Errno, Mem};
use sleep_model::{Kind, Machine, PlatPart};
use std::alloc::Global;
use std::marker::Model;

/// Which notifiers are owed their post, in the order in which they are called, and which of the
/// other processors are off.
#[derive(Drop)]
pub struct Platform {
    order: Vec<u32>,
    notified_flags: Flags,
    cpus: u32,
    off: Flags,
}

impl Model for Platform {
    ghost use Rattle.platform_steps.specs.PlatformState.{PlatformState};

    ghost Value = { PlatformState };

    ghost view = { λ p. record { order = p.order.items; notified_flags = p.notified_flags; cpus = p.cpus; off = p.off } };
}

impl Platform {
    ghost use Rattle.std.specs.Prelude.{◌≡◌, ◌<◌, ◌^◌, length, IfOk};
    ghost use Rattle.platform_steps.specs.PlatformState.{first_steps, steps_after, called_next, posted_next, stopped_next, started_next, part_entry};

    /// Nobody has heard yet, and no processor is off. `Mem` if there is no memory for the lists.
    pub fn new(alloc: Global, machine: &Machine) -> Result<Self, Mem>
        requires { length machine.now.notifiers < 2 ^ 32 }
        ensures { IfOk result (λ p. p ≡ first_steps machine.now) }
    {
        let order = call_order(alloc, machine.notifiers.as_slice())?;
        let notified_flags = Flags::new(alloc, machine.notifiers.len())?;
        let off = Flags::new(alloc, machine.cpus as usize)?;
        Ok(Platform {
            order,
            notified_flags,
            cpus: machine.cpus,
            off,
        })
    }

    /// What an entry leaves: a notifier that answered 0 is owed its post, a processor that was
    /// stopped is off.
    pub fn note(&mut self, kind: Kind)
        ensures { self.new ≡ steps_after kind self.old }
    {
        match kind {
            Kind::NotifyPrepare(x, None) => self.notified_flags.set(x, true),
            Kind::NotifyPost(x) => self.notified_flags.set(x, false),
            Kind::CpuOff(k) => self.off.set(k, true),
            Kind::CpuOn(k) => self.off.set(k, false),
            _ => (),
        }
    }

    /// The notifier that hears next of the attempt. None if all have heard (`PM_SUSPEND_PREPARE`).
    #[tactic(auto, using(sleep_model::proofs::Searches::find_is_first))]
    pub fn next_notified(&self) -> Option<u32>
        ensures { result ≡ called_next self.now }
    {
        first_unset(&self.notified_flags, &self.order)
    }

    /// The notifier that hears next of its end. None if nobody is owed it (`PM_POST_SUSPEND`).
    #[tactic(auto, using(sleep_model::proofs::Searches::find_is_first))]
    pub fn next_post_notified(&self) -> Option<u32>
        ensures { result ≡ posted_next self.now }
    {
        first_set(&self.notified_flags, &self.order)
    }

    /// The processor that is stopped next. None if all but the first are off
    /// (`freeze_secondary_cpus`).
    #[tactic(auto, using(sleep_model::proofs::Searches::find_is_first))]
    pub fn next_cpu_off(&self) -> Option<u32>
        ensures { result ≡ stopped_next self.now }
    {
        first_on(&self.off, self.cpus)
    }

    /// The processor that is started next. None if none of the others is off
    /// (`thaw_secondary_cpus`).
    #[tactic(auto, using(sleep_model::proofs::Searches::find_is_first))]
    pub fn next_cpu_on(&self) -> Option<u32>
        ensures { result ≡ started_next self.now }
    {
        first_off(&self.off, self.cpus)
    }

    /// The entry of a step, which answers `r`; a processor is not stopped if a wakeup is pending
    /// (`freeze_secondary_cpus`). It is for a caller that has only these steps: the core decides by itself,
    /// and reports the entry by `note`.
    pub fn turn(&mut self, what: PlatPart, r: Option<Errno>, pending: bool) -> Kind
        ensures kind { result ≡ part_entry what r pending }
        ensures after { self.new ≡ steps_after result self.old }
    {
        let kind = entry_of(what, r, pending);
        self.note(kind);
        kind
    }
}

/// The entry of a step.
fn entry_of(what: PlatPart, r: Option<Errno>, pending: bool) -> Kind
    ensures { result ≡ part_entry what r pending }
{
    match what {
        PlatPart::NotifyPrepare(x) => Kind::NotifyPrepare(x, r),
        PlatPart::NotifyPost(x) => Kind::NotifyPost(x),
        PlatPart::Do(step) => Kind::PlatformDo(step, r),
        PlatPart::Undo(step) => Kind::PlatformUndo(step),
        PlatPart::CpuOff(k) if pending => Kind::CpuBusy(k),
        PlatPart::CpuOff(k) => Kind::CpuOff(k),
        PlatPart::CpuOn(k) => Kind::CpuOn(k),
    }
}

fn first_unset(flags: &Flags, order: &[u32]) -> Option<u32>
    ensures { result ≡ find (λ x. not (is_so flags.now x)) order.now }
{
    order.iter().copied().find(|x| !flags.is_set(*x))
}

fn first_set(flags: &Flags, order: &[u32]) -> Option<u32>
    ensures { result ≡ find (λ x. is_so flags.now x) order.now }
{
    order.iter().copied().find(|x| flags.is_set(*x))
}

fn first_on(off: &Flags, cpus: u32) -> Option<u32>
    ensures { result ≡ find (λ k. not (is_so off.now k)) (range_with_len 1 (cpus - 1)) }
{
    (1..cpus).find(|k| !off.is_set(*k))
}

fn first_off(off: &Flags, cpus: u32) -> Option<u32>
    ensures { result ≡ find (λ k. is_so off.now k) (range_with_len 1 (cpus - 1)) }
{
    (1..cpus).find(|k| off.is_set(*k))
}
