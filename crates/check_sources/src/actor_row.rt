//! The actors of a machine in one row: autosleep's work, time, the scripts, the devices, the timers.

ghost use Rattle.std.specs.Prelude.{◌≡◌, ◌<◌, ◌^◌, length};
ghost use Rattle.check_sources.specs.ActorRows.{actor_index, actor_count};

use sleep_model::{Actor, Machine};

/// The index of an actor in the row.
pub fn actor_index(machine: &Machine, who: Actor) -> usize
    requires scripts { length machine.now.actors < 2 ^ 32 }
    requires devices { length machine.now.devices < 2 ^ 32 }
    ensures { result ≡ actor_index machine.now who }
{
    let (scripts, devices) = (machine.actors.len(), machine.devices.len());
    match who {
        Actor::Auto => 0,
        Actor::Time => 1,
        Actor::Script(i) => 2 + i as usize,
        Actor::Dev(d) => 2 + scripts + d as usize,
        Actor::Timer(s) => 2 + scripts + devices + s as usize,
    }
}

/// How long the row is.
pub(crate) fn actor_count(machine: &Machine) -> usize
    requires scripts { length machine.now.actors < 2 ^ 32 }
    requires devices { length machine.now.devices < 2 ^ 32 }
    requires sources { length machine.now.sources < 2 ^ 32 }
    ensures { result ≡ actor_count machine.now }
{
    2 + machine.actors.len() + machine.devices.len() + (machine.sources.len() + 1)
}
