//! How many calls on sources the callbacks of each actor have reported.

ghost use Rattle.std.specs.Prelude.{◌≡◌, ◌<◌, ◌+◌, ◌^◌, slice_index};
ghost use Rattle.sleep_core.specs.Reports.{grown_at};

use sleep_base::Mem;
use sleep_model::Actor;
use std::alloc::Global;
use std::marker::Model;

/// How many calls on sources each actor's callbacks have reported: each script's, those of the
/// autosleep work, each device's (`pm_wakeup_event`, `pm_stay_awake`, `pm_relax` in a callback).
#[derive(Drop)]
pub(crate) struct Reports {
    scripts: Vec<u64>,
    auto: u64,
    devices: Vec<u64>,
}

impl Model for Reports {
    ghost use Rattle.sleep_core.specs.Reports.{ReportCounts};

    ghost Value = { ReportCounts };

    ghost use Rattle.sleep_core.specs.ReportFields.{counts, AreFew};

    ghost view = { counts };

    ghost invariant = { AreFew };
}

/// The number at an index grows.
fn grow_at(numbers: &mut Vec<u64>, at: u32, more: u32)
    requires { slice_index numbers.old.items at < 2 ^ 32 }
    ensures { numbers.new.items ≡ grown_at numbers.old.items at more }
{
    if let Some(number) = numbers.get_mut(at as usize) {
        *number += more as u64;
    }
}

impl Reports {
    ghost use Rattle.std.specs.Prelude.{◌≡◌, ◌<◌, ◌^◌, IfOk};
    ghost use Rattle.sleep_core.specs.Reports.{none_reported, reported_by, counts_after};

    /// Nothing is reported yet, by these numbers of scripts and devices. `Mem` if there is no memory.
    pub(crate) fn new(alloc: Global, scripts: usize, devices: usize) -> Result<Self, Mem>
        ensures { IfOk result (λ r. r ≡ none_reported scripts devices) }
    {
        Ok(Reports {
            scripts: vec![in alloc; 0; scripts]?,
            auto: 0,
            devices: vec![in alloc; 0; devices]?,
        })
    }

    /// A callback of the actor reports some calls, mostly none.
    #[inline(always)]
    #[tactic(auto, using(crate::proofs::Growing::none_more))]
    pub(crate) fn add(&mut self, who: Actor, more: u32)
        requires { reported_by who self.old < 2 ^ 32 }
        ensures { self.new ≡ counts_after who more self.old }
    {
        match more {
            0 => {}
            _ => self.grow(who, more),
        }
    }

    /// The number of the actor grows.
    #[inline(never)]
    fn grow(&mut self, who: Actor, more: u32)
        requires { reported_by who self.old < 2 ^ 32 }
        ensures { self.new ≡ counts_after who more self.old }
    {
        match who {
            Actor::Script(script) => grow_at(&mut self.scripts, script, more),
            Actor::Auto => self.auto += more as u64,
            Actor::Dev(device) => grow_at(&mut self.devices, device, more),
            Actor::Timer(_) | Actor::Time => {}
        }
    }

    /// How many calls the callbacks of the actor have reported.
    pub(crate) fn of(&self, who: Actor) -> u64
        ensures is { result ≡ reported_by who self.now }
        ensures few { result < 2 ^ 33 }
    {
        match who {
            Actor::Script(script) => self.scripts.get(script as usize).copied().unwrap_or(0),
            Actor::Auto => self.auto,
            Actor::Dev(device) => self.devices.get(device as usize).copied().unwrap_or(0),
            Actor::Timer(_) | Actor::Time => 0,
        }
    }
}
