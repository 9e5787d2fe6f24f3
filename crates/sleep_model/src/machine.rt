//! A machine: its devices, links, notifiers and scripts, and what its callbacks answer.
ghost use Rattle.std.specs.Prelude.{◌≡◌, IfOk};
ghost use Rattle.sleep_model.specs.Order.{parents_of};

use crate::flags::DeviceFlags;
use crate::list::ListOf;
use crate::name::Name;
use phase_table::Phase;
use sleep_base::Mem;
use std::alloc::Global;

/// A text that a task writes, at most 32 bytes.
pub type Text = ListOf<u8>;

/// A machine: what it has, what its tasks and interrupt lines do, and how its callbacks answer.
/// Things are named by their index in these lists.
#[derive(Drop)]
pub struct Machine {
    /// How long a sleep lasts that no event ends, in ms, 1 to 86,400,000.
    pub alarm_ms: u64,
    /// 1 to 64.
    pub cpus: u32,
    /// How often the autosleep work runs at most, 1 to 1,000.
    pub auto_cycles: u32,
    pub devices: ListOf<Device>,
    pub links: ListOf<Link>,
    pub syscore: ListOf<Name>,
    pub notifiers: ListOf<Notifier>,
    /// Wakeup sources. The source `autosleep` follows them, with the number of their length.
    pub sources: ListOf<Name>,
    /// The marks that scripts raise and wait for, in order of first use.
    pub marks: ListOf<Name>,
    /// The scripts. The autosleep work, asynchronous devices and timers are actors too.
    pub actors: ListOf<Script>,
    pub answers: ListOf<Answer>,
}

/// A device, registered after its parent (`drivers/base/core.c`, `device_add`).
#[derive(Clone, Copy)]
pub struct Device {
    pub name: Name,
    pub parent: Option<u32>,
    pub flags: DeviceFlags,
}

/// The parent of each of these devices, in their order. `Mem` if there is no memory for the list.
pub fn parents_of(alloc: Global, devices: &[Device]) -> Result<Vec<Option<u32>>, Mem>
    ensures { IfOk result (λ parents. parents.items ≡ parents_of devices.now) }
{
    let parents = devices.iter().map(|device| device.parent).collect(alloc)?;
    Ok(parents)
}

/// A device link: the consumer needs the supplier (`Documentation/driver-api/device_link.rst`).
#[derive(Clone, Copy, Debug, PartialEq, Eq)]
pub struct Link {
    pub supplier: u32,
    pub consumer: u32,
    /// Else it is dormant: neither waits for the other, and the order of devices keeps it
    /// (`DL_STATE_ACTIVE`, `DL_STATE_DORMANT`).
    pub active: bool,
}

/// A notifier of sleep (`kernel/power/main.c`, `pm_notifier_call_chain_robust`).
#[derive(Clone, Copy)]
pub struct Notifier {
    pub name: Name,
    /// Higher ones are called first, -1,000 to 1,000.
    pub priority: i32,
}

/// What a task or an interrupt line does, from its first step to its exit.
#[derive(Drop)]
pub struct Script {
    pub name: Name,
    pub kind: TaskKind,
    /// How often the steps are made as a whole, 1 to 1,000.
    pub repeat: u32,
    pub steps: ListOf<Step>,
}

/// An operation, made `times` times, 1 to 20,000.
#[derive(Drop)]
pub struct Step {
    pub op: Op,
    pub times: u32,
}

/// Whom the freezer asks (`Documentation/power/freezing-of-tasks.rst`), and an interrupt line.
#[derive(Clone, Copy, Debug, PartialEq, Eq)]
pub enum TaskKind {
    User,
    Kthread,
    NoFreeze,
    Irq,
}

/// One operation of a script.
#[derive(Drop)]
pub enum Op {
    /// Reads `/sys/power/wakeup_count`.
    Read,
    /// Writes `/sys/power/wakeup_count`: the given number, else the one that this task last read, else 0.
    Save {
        count: Option<u32>,
    },
    /// Writes `/sys/power/state`; with `if_saved` only if this task's last save was ok.
    State {
        text: Text,
        if_saved: bool,
    },
    /// Writes `/sys/power/autosleep`.
    Autosleep {
        text: Text,
    },
    /// Sleeps so that it can be frozen meanwhile.
    Sleep {
        ms: u32,
    },
    /// Sleeps uninterruptibly.
    SleepD {
        ms: u32,
    },
    FreezePoint,
    Post {
        mark: u32,
    },
    Wait {
        mark: u32,
    },
    Runtime {
        device: u32,
        to_suspended: bool,
    },
    /// Adds a device link, which is active (`drivers/base/core.c`, `device_link_add`).
    Link {
        supplier: u32,
        consumer: u32,
    },
    /// Makes a device link active or dormant (`drivers/base/core.c`, `device_links_driver_bound`).
    LinkState {
        supplier: u32,
        consumer: u32,
        active: bool,
    },
    Awake {
        source: u32,
    },
    Relax {
        source: u32,
    },
    Event {
        source: u32,
        ms: u32,
        hard: bool,
    },
}

/// A call on a wakeup source (`drivers/base/power/wakeup.c`).
#[derive(Clone, Copy)]
pub enum SourceCall {
    Awake,
    Relax,
    Event { ms: u32, hard: bool },
    Expire,
}

/// What a callback answers, and which events it reports meanwhile.
#[derive(Drop)]
pub struct Answer {
    pub what: What,
    /// The attempt that it answers in, from 1; none: each that has no answer of its own.
    pub attempt: Option<u32>,
    /// 0, 1, or an error as a negative number.
    pub ret: i32,
    pub reports: ListOf<Report>,
}

/// The thing that an answer is of.
#[derive(Clone, Copy, Debug, PartialEq, Eq)]
pub enum What {
    Device(u32, Phase),
    Syscore(u32),
    Notifier(u32),
    Platform(PlatDo),
}

/// A report of a callback: a call on a source.
#[derive(Clone, Copy)]
pub struct Report {
    pub source: u32,
    pub call: SourceCall,
}

/// The platform's steps on the way down (`include/linux/suspend.h`, `platform_suspend_ops`).
#[derive(Clone, Copy, Debug, PartialEq, Eq)]
pub enum PlatDo {
    Begin,
    Prepare,
    PrepareLate,
}

/// The platform's steps on the way up.
#[derive(Clone, Copy, Debug, PartialEq, Eq)]
pub enum PlatUndo {
    Recover,
    Wake,
    Finish,
    End,
}

/// A step of an attempt that is a notifier's, the platform's or a processor's.
#[derive(Clone, Copy, Debug, PartialEq, Eq)]
pub enum PlatPart {
    NotifyPrepare(u32),
    NotifyPost(u32),
    Do(PlatDo),
    Undo(PlatUndo),
    CpuOff(u32),
    CpuOn(u32),
}
