//! Machines that have what a trial needs.

use sleep_model::{DeviceFlags, ListOf, Machine, Notifier};
use std::alloc::Global;

/// What a device can be.
pub const DEVICE_FLAGS: [(&str, DeviceFlags); 3] = [
    ("async", DeviceFlags::ASYNC),
    ("wakeup", DeviceFlags::WAKEUP),
    ("runtime_suspended", DeviceFlags::RUNTIME_SUSPENDED),
];

/// A machine with so many processors and these notifiers, and nothing else.
pub fn machine_with(alloc: Global, cpus: u32, notifiers: Vec<Notifier>) -> Machine {
    Machine {
        alarm_ms: 1000,
        cpus,
        auto_cycles: 16,
        devices: ListOf::of_vec(Vec::new(alloc)),
        links: ListOf::of_vec(Vec::new(alloc)),
        syscore: ListOf::of_vec(Vec::new(alloc)),
        notifiers: ListOf::of_vec(notifiers),
        sources: ListOf::of_vec(Vec::new(alloc)),
        marks: ListOf::of_vec(Vec::new(alloc)),
        actors: ListOf::of_vec(Vec::new(alloc)),
        answers: ListOf::of_vec(Vec::new(alloc)),
    }
}
