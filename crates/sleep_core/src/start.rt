//! A core before its first turn.

ghost use Rattle.std.specs.Prelude.{◌≡◌, map, IfOk};
ghost use Rattle.sleep_model.specs.Runtime.{may_wake};

use crate::reports::Reports;
use crate::state::Core;
use core_history::History;
use device_links::Links;
use device_rows::Flags;
use machine_plans::MachinePlans;
use sleep_base::{Mem, drop_for_mem};
use sleep_model::{Device, DeviceFlags};
use std::alloc::Global;

/// Which devices may wake the machine.
fn wakeup_of(alloc: Global, devices: &[Device]) -> Result<Flags, Mem>
    ensures { IfOk result (λ f. f ≡ map may_wake devices.now) }
{
    let mut wakeup = Vec::with_capacity(alloc, devices.len())?;
    for device in devices {
        wakeup.push(device.flags.has(DeviceFlags::WAKEUP))?;
    }
    Ok(Flags::of_vec(wakeup))
}

impl<'m> Core<'m> {
    ghost use Rattle.std.specs.Prelude.{◌≡◌, [], reverse, IfOk};
    ghost use Rattle.sleep_model.specs.Accepted.{IsAccepted};
    ghost use Rattle.sleep_model.specs.Order.{parents_of};

    /// The core of a machine whose plans and links these are, with nothing done yet. `Mem` if there is no
    /// memory.
    pub fn new(alloc: Global, plans: &'m MachinePlans<'_>, links: Links) -> Result<Core<'m>, Mem>
        requires accepted { IsAccepted plans.now }
        requires links { links ≡ record { parents = parents_of plans.now.devices; links = reverse plans.now.links } }
        ensures { IfOk result (λ c. c ≡ record { machine = plans.now; past = [] }) }
    {
        let machine = plans.machine();
        let Ok(wakeup) = wakeup_of(alloc, machine.devices.as_slice()) else {
            return Err(drop_for_mem(links));
        };
        let Ok(reports) = Reports::new(alloc, machine.actors.len(), machine.devices.len()) else {
            return Err(drop_for_mem((links, wakeup)));
        };
        let Ok(history) = History::new(alloc, machine, links) else {
            return Err(drop_for_mem((wakeup, reports)));
        };
        Ok(Core {
            history,
            plans,
            wakeup,
            reports,
        })
    }
}
