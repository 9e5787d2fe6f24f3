//! What a history has besides its journal.

ghost use Rattle.std.specs.Prelude.{◌≡◌, ◌<◌, ◌^◌, map, IfOk, OnOk, OnErr};
ghost use Rattle.sleep_model.specs.Runtime.{is_async};
ghost use Rattle.async_board.specs.Boards.{first_board};
ghost use Rattle.sleep_model.specs.Autosleep.{runs_after};
ghost use Rattle.autosleep_loop.specs.Autosleeps.{autosleep_after};
ghost use Rattle.core_history.specs.Histories.{moved_board, IsOfDevice, IsOfNone, IsOfTask};
ghost use Rattle.core_history.specs.Numbered.{IsCounted};
ghost use Rattle.wakeup_guard.specs.Guarded.{guarded_after};

use async_board::Board;
use autosleep_loop::Autosleep;
use device_links::Links;
use platform_steps::Platform;
use sleep_base::{Mem, drop_for_mem};
use sleep_model::{Actor, Device, DeviceFlags, Entry, EventNow, Kind, Machine, pos};
use sleep_state::{Devices, OpenAttempt, Tasks};
use std::alloc::Global;
use syscore_ops::Syscore;
use task_freezer::Freezer;
use wakeup_guard::Guard;

/// Which devices are asynchronous.
fn asynchronous(alloc: Global, devices: &[Device]) -> Result<Vec<bool>, Mem>
    ensures { IfOk result (λ v. v.items ≡ map is_async devices.now) }
{
    let mut asynchronous = Vec::with_capacity(alloc, devices.len())?;
    for device in devices {
        asynchronous.push(device.flags.has(DeviceFlags::ASYNC))?;
    }
    Ok(asynchronous)
}

/// The board of these devices and links, on which nobody is prepared.
fn first_board(alloc: Global, devices: &[Device], links: Links) -> Result<Board, Mem>
    ensures { IfOk result (λ b. b ≡ first_board links.parents links.links (map is_async devices.now)) }
{
    let asynchronous = asynchronous(alloc, devices)?;
    Board::wired(alloc, links, asynchronous)
}

/// An entry that is of no device changes the board if it changes links: it begins anew. `Mem` if there is no
/// memory for a link more; nothing has changed then.
fn move_links(board: &mut Board, kind: Kind) -> Result<(), Mem>
    requires { IsOfNone kind }
    ensures ok { OnOk result (board.new ≡ moved_board kind board.old) }
    ensures err { OnErr result (IsCounted kind × (board.new ≡ board.old)) }
{
    match kind {
        Kind::LinkAdd {
            supplier,
            consumer,
            r: None,
        } => board.add_link(supplier, consumer),
        Kind::LinkState {
            supplier,
            consumer,
            active,
            r: None,
        } => board.set_link(supplier, consumer, active),
        _ => Ok(()),
    }
}

/// The guard takes note of an entry that is of a device: it knows only skips, which may drop the count in
/// force.
#[inline(always)]
fn move_guard(guard: &mut Guard<24>, kind: Kind, now: EventNow)
    requires { IsOfDevice kind }
    ensures { guard.new ≡ guarded_after 24 kind now guard.old }
{
    match kind {
        Kind::Skip(phase, device, cause) => guard.note(Kind::Skip(phase, device, cause), now),
        _ => {}
    }
}

/// The autosleep work takes note only of its own sleeps.
#[inline(always)]
#[tactic(auto, using(crate::proofs::Parting::work_stays))]
fn move_work(autosleep: &mut Autosleep, kind: Kind, actor: Actor)
    requires task { IsOfTask kind }
    requires runs { runs_after kind autosleep.old.runs < 2 ^ 32 }
    ensures { autosleep.new ≡ autosleep_after kind actor autosleep.old }
{
    match actor {
        Actor::Auto => {
            // A copy of its own, so that the compiler stores the entry's kind in this arm only.
            let own = kind;
            autosleep.note(own, actor);
        }
        _ => {}
    }
}

/// What the definitions read from a journal's entries, brought up to date by each entry.
#[derive(Drop)]
pub(crate) struct Components<'m> {
    pub(crate) guard: Guard<24>,
    pub(crate) path: OpenAttempt,
    pub(crate) devices: Devices,
    pub(crate) board: Board,
    pub(crate) tasks: Tasks,
    pub(crate) freezer: Freezer<'m>,
    pub(crate) autosleep: Autosleep,
    pub(crate) platform: Platform,
    pub(crate) syscore: Syscore,
}

impl<'m> Components<'m> {
    ghost use Rattle.std.specs.Prelude.{◌≡◌, ◌<◌, ◌^◌, [], reverse, IfOk, OnOk, OnErr};
    ghost use Rattle.sleep_model.specs.Accepted.{IsAccepted};
    ghost use Rattle.sleep_model.specs.Autosleep.{runs_after};
    ghost use Rattle.sleep_model.specs.Order.{parents_of};
    ghost use Rattle.sleep_model.specs.Path.{attempts_after};
    ghost use Rattle.sleep_state.specs.TaskStates.{PositionIsSmall, MarksAreSmall};
    ghost use Rattle.core_history.specs.Components.{AreRead, Follow, FollowSettled};
    ghost use Rattle.core_history.specs.Histories.{IsOfDevice, IsOfNone, IsOfTask};
    ghost use Rattle.core_history.specs.Numbered.{IsCounted};

    /// The components of a machine before any entry, whose links these are. `Mem` if there is no memory.
    pub(crate) fn new(alloc: Global, machine: &'m Machine, links: Links) -> Result<Self, Mem>
        requires accepted { IsAccepted machine.now }
        requires links { links ≡ record { parents = parents_of machine.now.devices; links = reverse machine.now.links } }
        ensures { IfOk result (AreRead machine.now []) }
    {
        let board = first_board(alloc, machine.devices.as_slice(), links)?;
        let Ok(syscore) = Syscore::new(alloc, machine.syscore.len() as u32) else {
            return Err(drop_for_mem(board));
        };
        let Ok(platform) = Platform::new(alloc, machine) else {
            return Err(drop_for_mem((board, syscore)));
        };
        let Ok(freezer) = Freezer::new(alloc, machine.actors.as_slice()) else {
            return Err(drop_for_mem((board, syscore, platform)));
        };
        let Ok(tasks) = Tasks::new(alloc, machine.actors.len(), machine.marks.len()) else {
            return Err(drop_for_mem((board, syscore, platform, freezer)));
        };
        let Ok(devices) = Devices::new(alloc, machine.devices.as_slice()) else {
            return Err(drop_for_mem((board, syscore, platform, freezer, tasks)));
        };
        Ok(Components {
            guard: Guard::new(),
            path: OpenAttempt::new(),
            devices,
            board,
            tasks,
            freezer,
            autosleep: Autosleep::new(),
            platform,
            syscore,
        })
    }

    /// Takes note of an entry that is of a device. It concerns the board, the state of the devices' phases,
    /// and the count in force, which a skip may drop.
    #[inline(always)]
    pub(crate) fn note_device(&mut self, now: EventNow, actor: Actor, kind: Kind)
        requires { IsOfDevice kind }
        ensures { Follow now actor kind self.old self.new }
    {
        self.board.note(kind);
        move_guard(&mut self.guard, kind, now);
        self.devices.note(kind, actor);
    }

    /// Takes note of an entry by which a task, or the autosleep work, sleeps, has slept, passes, or posts or
    /// takes a mark. It concerns the position of that task or the state of the work, and the marks. The word
    /// is an argument for the clause only.
    #[inline(always)]
    pub(crate) fn note_task(&mut self, now: EventNow, actor: Actor, kind: Kind)
        requires task { IsOfTask kind }
        requires runs { runs_after kind self.old.autosleep.runs < 2 ^ 32 }
        requires script_position { PositionIsSmall actor self.old.tasks.positions }
        requires marks { MarksAreSmall kind self.old.tasks.marks }
        ensures { Follow now actor kind self.old self.new }
    {
        let _ = now;
        self.tasks.note(actor, kind);
        move_work(&mut self.autosleep, kind, actor);
    }

    /// Takes note of an entry that is of no device. `Mem` if it adds a link, for which there is no memory;
    /// nothing has changed then.
    #[inline(always)]
    pub(crate) fn note_other(&mut self, entry: Entry) -> Result<(), Mem>
        requires other { IsOfNone entry.kind }
        requires attempts { attempts_after entry.kind self.old.path.attempts < 2 ^ 32 }
        requires runs { runs_after entry.kind self.old.autosleep.runs < 2 ^ 32 }
        requires script_position { PositionIsSmall entry.actor self.old.tasks.positions }
        requires marks { MarksAreSmall entry.kind self.old.tasks.marks }
        ensures ok { OnOk result (FollowSettled entry self.old self.new) }
        ensures err { OnErr result (IsCounted entry.kind × (self.new ≡ self.old)) }
    {
        let Entry {
            time,
            now,
            actor,
            kind,
        } = entry;
        move_links(&mut self.board, kind)?;
        self.guard.note(kind, now);
        self.path.note(kind, actor, pos(now), time);
        self.devices.note(kind, actor);
        self.tasks.note(actor, kind);
        self.freezer.note(actor, kind);
        self.autosleep.note(kind, actor);
        self.platform.note(kind);
        self.syscore.note(kind);
        Ok(())
    }
}
