//! The history of a machine: its journal, and what the definitions read from it.
ghost use Rattle.std.specs.Prelude.{◌≡◌};

use crate::components::Components;
use async_board::Board;
use autosleep_loop::Autosleep;
use device_links::Links;
use platform_steps::Platform;
use sleep_base::Mem;
use sleep_model::{Actor, Entry, EventNow, Journal, JournalEntry, Kind, Machine, Stamp};
use sleep_state::{Devices, OpenAttempt, Tasks};
use std::alloc::{AllocError, Global};
use std::marker::Model;
use syscore_ops::Syscore;
use task_freezer::Freezer;
use wakeup_guard::Guard;

/// The journal of a machine, and what the definitions read from it, brought up to date by each entry.
#[derive(Drop)]
pub struct History<'m> {
    machine: &'m Machine,
    journal: Journal,
    last: Stamp,
    time: u64,
    components: Components<'m>,
}

impl<'m> Model for History<'m> {
    ghost use Rattle.core_history.specs.Histories.{HistoryState};

    ghost Value = { HistoryState };

    ghost use Rattle.core_history.specs.HistoryFields.{history_view, IsHistory};

    ghost view = { history_view };

    ghost invariant = { IsHistory };
}

/// How many places are reserved beyond those that an entry needs.
const FURTHER_PLACES: usize = 63;

/// An entry of that time, in ms, with its stamp.
#[inline(always)]
fn made_at(time: u64, stamp: Stamp, now: EventNow, actor: Actor, kind: Kind) -> JournalEntry
    ensures { result ≡ record { stamp = stamp; entry = record { time = time; now = now; actor = actor; kind = kind } } }
{
    let entry = Entry {
        time,
        now,
        actor,
        kind,
    };
    JournalEntry { stamp, entry }
}

impl<'m> History<'m> {
    ghost use Rattle.std.specs.Prelude.{◌≡◌, ◌≤◌, ◌<◌, ◌+◌, ◌-◌, ◌^◌, [], false, length, map, reverse, IsOk, OnOk, OnErr, IfOk};
    ghost use Rattle.sleep_model.specs.Runtime.{is_async};
    ghost use Rattle.async_board.specs.Boards.{first_board};
    ghost use Rattle.room_laws.specs.AttemptRoom.{enough};
    ghost use Rattle.sleep_model.specs.Attempt.{failed};
    ghost use Rattle.sleep_model.specs.Guard.{pending};
    ghost use Rattle.sleep_model.specs.Numbers.{time_of};
    ghost use Rattle.sleep_model.specs.Path.{attempts, maker};
    ghost use Rattle.sleep_model.specs.declared.entry.Actor.TheVariants as actor;
    ghost use Rattle.sleep_model.specs.declared.entry.Kind.TheVariants as kind;
    ghost use Rattle.sleep_model.specs.Accepted.{IsAccepted};
    ghost use Rattle.sleep_model.specs.Order.{parents_of};
    ghost use Rattle.sleep_state.specs.JournalRooms.{entries};
    ghost use Rattle.core_history.specs.Numbered.{IsCounted};
    ghost use Rattle.async_board.specs.AtPoints.{board_at};
    ghost use Rattle.core_history.specs.Histories.{Admits, Settles, IsOfDevice, IsOfNone, IsOfTask, after_entry, entry_now, after_made, room_for, EntryHasRoom, last_stamp, guard_of, path_of, devices_of, tasks_of, freezer_of, autosleep_of, platform_of, syscore_of};

    /// The empty journal of a machine, whose links these are. `Mem` if there is no memory.
    pub fn new(alloc: Global, machine: &'m Machine, links: Links) -> Result<Self, Mem>
        requires accepted { IsAccepted machine.now }
        requires links { links ≡ record { parents = parents_of machine.now.devices; links = reverse machine.now.links } }
        ensures { IfOk result (λ h. h ≡ record { machine = machine.now; past = []; room = 0 }) }
    {
        let components = Components::new(alloc, machine, links)?;
        Ok(History {
            machine,
            journal: Journal::new(alloc),
            last: Stamp { pos: 0, tick: 0 },
            time: 0,
            components,
        })
    }

    /// Appends an entry that is of no device, in a reserved place. `Mem` if it adds a link, for which there
    /// is no memory; nothing has changed then.
    #[inline(always)]
    pub fn append(
        &mut self,
        stamp: Stamp,
        now: EventNow,
        actor: Actor,
        kind: Kind,
    ) -> Result<(), Mem>
        requires other { IsOfNone kind }
        requires admits { Admits self.old (entry_now self.old now actor kind) }
        requires board { Settles self.old.machine (entries self.old.past) (entry_now self.old now actor kind) }
        ensures ok { OnOk result (self.new ≡ after_made self.old stamp now actor kind) }
        ensures err { OnErr result (IsCounted kind × (self.new ≡ self.old)) }
    {
        match kind {
            Kind::Sleep(_)
            | Kind::SleepD(_)
            | Kind::Slept
            | Kind::Pass
            | Kind::Post(_)
            | Kind::Got(_) => {
                self.append_task(stamp, now, actor, kind);
                Ok(())
            }
            other => self.append_other(stamp, now, actor, other),
        }
    }

    /// Appends an entry that is of a device.
    #[inline(always)]
    pub fn append_device(&mut self, stamp: Stamp, now: EventNow, actor: Actor, kind: Kind)
        requires room { 0 < self.old.room }
        requires device { IsOfDevice kind }
        ensures { self.new ≡ after_made self.old stamp now actor kind }
    {
        self.components.note_device(now, actor, kind);
        self.last = stamp;
        self.journal
            .put(made_at(self.time, stamp, now, actor, kind));
    }

    /// Appends an entry by which a task, or the autosleep work, sleeps, has slept, passes, or posts or takes
    /// a mark.
    #[inline(always)]
    fn append_task(&mut self, stamp: Stamp, now: EventNow, actor: Actor, kind: Kind)
        requires task { IsOfTask kind }
        requires admits { Admits self.old (entry_now self.old now actor kind) }
        ensures { self.new ≡ after_made self.old stamp now actor kind }
    {
        self.components.note_task(now, actor, kind);
        self.last = stamp;
        self.journal
            .put(made_at(self.time, stamp, now, actor, kind));
    }

    /// Appends a jump of time to `to` ms, as seen at that word. It concerns only the time.
    pub fn append_jump(&mut self, stamp: Stamp, seen: EventNow, to: u64)
        requires { 0 < self.old.room }
        ensures { self.new ≡ after_entry self.old (record {
          stamp = stamp;
          entry = record { time = to; now = seen; actor = actor.Time; kind = kind.Jump };
        }) }
    {
        self.time = to;
        self.last = stamp;
        self.journal
            .put(made_at(to, stamp, seen, Actor::Time, Kind::Jump));
    }

    /// Appends an entry that is of neither. `Mem` if it adds a link, for which there is no memory; nothing
    /// has changed then.
    #[inline(never)]
    fn append_other(
        &mut self,
        stamp: Stamp,
        now: EventNow,
        actor: Actor,
        kind: Kind,
    ) -> Result<(), Mem>
        requires other { IsOfNone kind }
        requires admits { Admits self.old (entry_now self.old now actor kind) }
        requires board { Settles self.old.machine (entries self.old.past) (entry_now self.old now actor kind) }
        ensures ok { OnOk result (self.new ≡ after_made self.old stamp now actor kind) }
        ensures err { OnErr result (IsCounted kind × (self.new ≡ self.old)) }
    {
        let entry = Entry {
            time: self.time,
            now,
            actor,
            kind,
        };
        self.components.note_other(entry)?;
        self.last = stamp;
        self.journal.put(JournalEntry { stamp, entry });
        Ok(())
    }

    /// Sees that at least `places` places are reserved. After an error nothing has changed.
    pub fn reserve(&mut self, places: usize) -> Result<(), AllocError>
        ensures machine { self.new.machine ≡ self.old.machine }
        ensures past { self.new.past ≡ self.old.past }
        ensures room { self.old.room ≤ self.new.room }
        ensures ok { OnOk result (places ≤ self.new.room) }
        ensures enough { places ≤ self.old.room → IsOk result }
        ensures err { OnErr result (self.new ≡ self.old) }
    {
        self.journal.reserve(places)
    }

    /// The places that a whole attempt may need.
    fn attempt_room(&self) -> usize
        ensures { result ≡ enough self.now.machine }
    {
        let _few = &self.last;
        let machine = self.machine;
        let things = machine.notifiers.len() + machine.syscore.len() + machine.cpus as usize;
        40 + 20 * machine.devices.len() + 2 * things
    }

    /// How many places must be reserved before an entry that the open attempt does not make.
    fn room_for(&self, kind: Kind) -> usize
        ensures { result ≡ room_for self.now.machine kind (maker (entries self.now.past)) self.now.room }
    {
        match kind {
            Kind::Attempt { .. } => self.attempt_room(),
            _ if self.components.path.maker().is_none() => 1,
            _ => self.journal.room() + 1,
        }
    }

    /// Sees that at least `places` places are reserved, and some more, so that few entries ask for memory.
    /// After an error nothing has changed.
    #[inline(never)]
    fn reserve_more(&mut self, places: usize) -> Result<(), AllocError>
        ensures machine { self.new.machine ≡ self.old.machine }
        ensures past { self.new.past ≡ self.old.past }
        ensures room { self.old.room ≤ self.new.room }
        ensures ok { OnOk result (places ≤ self.new.room) }
        ensures err { OnErr result (self.new ≡ self.old) }
    {
        self.reserve(places.saturating_add(FURTHER_PLACES))
    }

    /// Makes room for an entry: one of the open attempt's own has its room reserved, another needs one more.
    /// After an error nothing has changed.
    #[inline(always)]
    pub fn make_room(&mut self, own: bool, kind: Kind) -> Result<(), AllocError>
        ensures ok { OnOk result (EntryHasRoom own kind self.old self.new) }
        ensures err { OnErr result ((own ≡ false) × (self.new ≡ self.old)) }
    {
        if own {
            return Ok(());
        }
        let places = self.room_for(kind);
        if places <= self.room() {
            return Ok(());
        }
        self.reserve_more(places)
    }

    /// How many entries there are. A journal has fewer than 2^63.
    pub fn len(&self) -> usize
        ensures len { result ≡ length self.now.past }
        ensures small { result < 2 ^ 63 }
    {
        self.journal.len()
    }

    /// The machine.
    pub fn machine(&self) -> &'m Machine
        ensures { result.now ≡ self.now.machine }
    {
        self.machine
    }

    /// The stamp of the last entry, 0 and 0 before the first.
    pub fn last(&self) -> Stamp
        ensures { result ≡ last_stamp self.now.past }
    {
        self.last
    }

    /// The time of the last jump, in ms.
    pub fn time(&self) -> u64
        ensures { result ≡ time_of (entries self.now.past) }
    {
        self.time
    }

    /// The saved count, and the hard events that are forgotten.
    pub fn guard(&self) -> &Guard<24>
        ensures { result.now ≡ guard_of (entries self.now.past) }
    {
        &self.components.guard
    }

    /// Whether a wakeup is pending at this word (`pm_wakeup_pending`).
    pub fn is_pending(&self, now: EventNow) -> bool
        ensures { result ≡ pending (entries self.now.past) now }
    {
        self.guard().is_pending(now)
    }

    /// The state of the open attempt.
    pub fn attempt(&self) -> &OpenAttempt
        ensures { result.now ≡ path_of (entries self.now.past) }
    {
        &self.components.path
    }

    /// The entry that ends the open attempt, with the attempt's number and error.
    pub fn over(&self) -> Kind
        ensures { result ≡ kind.Over (attempts (entries self.now.past)) (failed (entries self.now.past)) }
    {
        let attempt = self.attempt();
        Kind::Over {
            n: attempt.attempts(),
            r: attempt.error(),
        }
    }

    /// What the phases of devices keep.
    pub fn devices(&self) -> &Devices
        ensures { result.now ≡ devices_of self.now.machine (entries self.now.past) }
    {
        &self.components.devices
    }

    /// The state of each device.
    pub fn board(&self) -> &Board
        ensures { result.now ≡ board_at self.now.machine (entries self.now.past) }
    {
        &self.components.board
    }

    /// The position of each script.
    pub fn tasks(&self) -> &Tasks
        ensures { result.now ≡ tasks_of self.now.machine (entries self.now.past) }
    {
        &self.components.tasks
    }

    /// What the freezer has come to with each script.
    pub fn freezer(&self) -> &Freezer<'m>
        ensures { result.now ≡ freezer_of self.now.machine (entries self.now.past) }
    {
        &self.components.freezer
    }

    /// The autosleep lock, its setting, and the work.
    pub fn autosleep(&self) -> &Autosleep
        ensures { result.now ≡ autosleep_of (entries self.now.past) }
    {
        &self.components.autosleep
    }

    /// The notifiers and the other processors.
    pub fn platform(&self) -> &Platform
        ensures { result.now ≡ platform_of self.now.machine (entries self.now.past) }
    {
        &self.components.platform
    }

    /// The syscore operations.
    pub fn syscore(&self) -> &Syscore
        ensures { result.now ≡ syscore_of self.now.machine (entries self.now.past) }
    {
        &self.components.syscore
    }

    /// How many places are reserved.
    pub fn room(&self) -> usize
        ensures room { result ≡ self.now.room }
        ensures small { result < 2 ^ 63 }
    {
        self.journal.room()
    }

    /// The entries.
    pub fn into_journal(self) -> Journal
        ensures { result.past ≡ self.entry.past }
    {
        let History {
            journal,
            components,
            ..
        } = self;
        drop(components);
        journal
    }
}
