//! Who waits for what, so that only those are asked that may have something to do.
ghost use Rattle.std.specs.Prelude.{◌<◌, ◌^◌, length, IfSome};

use crate::asks::Asks;
use sleep_base::Mem;
use sleep_model::{Actor, Device, DeviceFlags, Why};
use std::alloc::Global;

/// Scripts that wait for something else than a mark. Those that sleep or are frozen are in no set.
#[derive(Drop)]
struct ScriptWaiters {
    /// Scripts that read the count, and wait until no event is in progress.
    readers: Asks,
    /// Scripts that wait for a wakeup, for the machine to wake, or as makers of an attempt for tasks.
    for_word: Asks,
    for_lock: Asks,
}

/// Scripts that wait for marks.
#[derive(Drop)]
struct MarkWaiters {
    /// Scripts that wait for a mark.
    all: Asks,
    /// Those of them that wait for each mark, among some that do no longer.
    by_mark: Vec<Asks>,
    /// The mark that each script waited for last.
    mark_of: Vec<u32>,
    /// Scripts that were called for that mark, and whose tries are to come.
    called: Asks,
}

/// Who may have something to do, and so is asked in a round: scripts, the autosleep work, asynchronous
/// devices, timers. Whoever waits is woken, and so asked again, once something may have ended the wait: an
/// entry, a step of the event word, a jump of time. None of this is part of what is promised: whoever was
/// left out is found before time jumps.
#[derive(Drop)]
pub struct Waiters {
    scripts: Asks,
    /// The scripts that have not exited.
    remaining: Asks,
    devices: Asks,
    /// The asynchronous devices.
    asynchronous: Asks,
    /// The scripts that wait for something else than a mark.
    waiting: ScriptWaiters,
    marks: MarkWaiters,
    /// The device that the maker of an attempt waits for.
    awaited: Option<u32>,
    /// The maker that waits for it, if it is a script.
    maker: Option<u32>,
    /// The script that was woken last of those that wait for the lock, and whose try is to come.
    next_for_lock: Option<u32>,
    auto: bool,
    /// The work has nothing to do until it is queued.
    unqueued: bool,
    timers: bool,
}

/// The asynchronous ones among these devices.
fn asynchronous_of(alloc: Global, devices: &[Device]) -> Result<Asks, Mem>
    requires { length devices.now < 2 ^ 32 }
{
    let mut asynchronous = Asks::new(alloc, devices.len())?;
    for (at, device) in devices.iter().enumerate() {
        if device.flags.has(DeviceFlags::ASYNC) {
            asynchronous.insert(at as u32);
        }
    }
    Ok(asynchronous)
}

/// Nobody waits for any mark.
fn none_by_mark(alloc: Global, scripts: usize, marks: usize) -> Result<Vec<Asks>, Mem> {
    let mut by_mark = Vec::with_capacity(alloc, marks)?;
    for _ in 0..marks {
        by_mark.push(Asks::new(alloc, scripts)?)?;
    }
    Ok(by_mark)
}

/// All of the first scripts.
fn all_scripts(alloc: Global, scripts: usize) -> Result<Asks, Mem>
    requires { scripts < 2 ^ 32 }
{
    let mut all = Asks::new(alloc, scripts)?;
    for script in 0..scripts {
        all.insert(script as u32);
    }
    Ok(all)
}

impl ScriptWaiters {
    /// No script waits.
    fn new(alloc: Global, scripts: usize) -> Result<Self, Mem> {
        Ok(ScriptWaiters {
            readers: Asks::new(alloc, scripts)?,
            for_word: Asks::new(alloc, scripts)?,
            for_lock: Asks::new(alloc, scripts)?,
        })
    }
}

impl MarkWaiters {
    /// No script waits for a mark.
    fn new(alloc: Global, scripts: usize, marks: usize) -> Result<Self, Mem> {
        Ok(MarkWaiters {
            all: Asks::new(alloc, scripts)?,
            by_mark: none_by_mark(alloc, scripts, marks)?,
            mark_of: vec![in alloc; 0; scripts]?,
            called: Asks::new(alloc, scripts)?,
        })
    }
}

impl Waiters {
    /// Nobody waits: each script is to be asked, and the work.
    pub fn new(alloc: Global, scripts: usize, marks: usize, devices: &[Device]) -> Result<Self, Mem>
        requires scripts { scripts < 2 ^ 32 }
        requires devices { length devices.now < 2 ^ 32 }
    {
        Ok(Waiters {
            scripts: all_scripts(alloc, scripts)?,
            remaining: all_scripts(alloc, scripts)?,
            devices: Asks::new(alloc, devices.len())?,
            asynchronous: asynchronous_of(alloc, devices)?,
            waiting: ScriptWaiters::new(alloc, scripts)?,
            marks: MarkWaiters::new(alloc, scripts, marks)?,
            awaited: None,
            maker: None,
            next_for_lock: None,
            auto: true,
            unqueued: false,
            timers: false,
        })
    }

    /// The first script from a number on that is to be asked, among the first `many`.
    pub fn next_script(&self, from: u32, many: u32) -> Option<u32>
        ensures { IfSome result (λ n. n < many) }
    {
        self.scripts.next(from, many)
    }

    /// The first device from a number on that is to be asked, among the first `many`.
    pub fn next_device(&self, from: u32, many: u32) -> Option<u32>
        ensures { IfSome result (λ n. n < many) }
    {
        self.devices.next(from, many)
    }

    /// Whether that script or the work is to be asked, and nobody else.
    #[inline(always)]
    pub fn is_alone(&self, who: Actor) -> bool {
        if self.timers || !self.devices.is_empty() {
            return false;
        }
        match who {
            Actor::Script(script) => !self.auto && self.scripts.is_only(script),
            Actor::Auto => self.auto && self.scripts.is_empty(),
            _ => false,
        }
    }

    /// Whether nobody is to be asked.
    #[inline(always)]
    pub fn asks_nobody(&self) -> bool {
        self.scripts.is_empty() && self.devices.is_empty() && !self.auto && !self.timers
    }

    /// Whether the autosleep work is to be asked.
    pub fn asks_auto(&self) -> bool {
        self.auto
    }

    /// Whether any device is to be asked.
    #[inline(always)]
    pub fn asks_devices(&self) -> bool {
        !self.devices.is_empty()
    }

    /// Whether the timers are to be asked.
    pub fn asks_timers(&self) -> bool {
        self.timers
    }

    /// An actor waits, for that, and is not asked again before something may have ended the wait.
    #[inline(never)]
    pub fn waits(&mut self, who: Actor, why: Why) {
        match who {
            Actor::Script(script) => self.script_waits(script, why),
            Actor::Dev(device) => self.device_waits(device),
            _ => self.auto_waits(why),
        }
    }

    /// An actor has nothing to do any more: a script has exited.
    #[inline(never)]
    pub fn is_exited(&mut self, who: Actor) {
        match who {
            Actor::Script(script) => self.script_exits(script),
            Actor::Dev(device) => self.device_waits(device),
            _ => self.auto = false,
        }
    }

    /// The script has exited.
    fn script_exits(&mut self, script: u32) {
        self.scripts.remove(script);
        self.remaining.remove(script);
    }

    /// The script waits, for that.
    fn script_waits(&mut self, script: u32, why: Why) {
        self.scripts.remove(script);
        match why {
            Why::Mark(mark) => self.waits_for_mark(script, mark),
            Why::InProgress => self.waiting.readers.insert(script),
            Why::LockHeld => self.waiting.for_lock.insert(script),
            Why::Until(_) | Why::Frozen => {}
            Why::Device(device) => {
                self.awaited = Some(device);
                self.maker = Some(script);
            }
            _ => self.waiting.for_word.insert(script),
        }
    }

    /// The script waits for that mark.
    fn waits_for_mark(&mut self, script: u32, mark: u32) {
        self.marks.all.insert(script);
        if let Some(waiting) = self.marks.by_mark.get_mut(mark as usize) {
            waiting.insert(script);
        }
        if let Some(last) = self.marks.mark_of.get_mut(script as usize) {
            *last = mark;
        }
    }

    /// The autosleep work waits, for that.
    fn auto_waits(&mut self, why: Why) {
        self.auto = false;
        match why {
            Why::Device(device) => self.awaited = Some(device),
            Why::NoWork => self.unqueued = true,
            _ => {}
        }
    }

    /// Wakes the autosleep work, unless it has to be queued first.
    fn wake_auto(&mut self) {
        if !self.unqueued {
            self.auto = true;
        }
    }

    /// The script has begun to sleep, and is not asked again before its sleep ends.
    pub fn sleeps(&mut self, who: Actor) {
        if let Actor::Script(script) = who {
            self.scripts.remove(script);
        }
    }

    /// The device waits, or has nothing to do.
    pub fn device_waits(&mut self, device: u32) {
        self.devices.remove(device);
    }

    /// No timer is due.
    pub fn timers_wait(&mut self) {
        self.timers = false;
    }

    /// Whether no device is asynchronous.
    pub fn are_in_step(&self) -> bool {
        self.asynchronous.is_empty()
    }

    /// Wakes an asynchronous device, which may have something to do.
    pub fn wake_device(&mut self, device: u32) {
        self.devices.insert(device);
    }

    /// Wakes the maker of an attempt, if it waits for that device, which is done with a phase.
    #[inline(always)]
    pub fn wake_maker(&mut self, device: u32) {
        if self.awaited == Some(device) {
            self.wake_any_maker();
        }
    }

    /// Wakes the maker of an attempt that waits for a device.
    #[inline(never)]
    fn wake_any_maker(&mut self) {
        if let Some(script) = self.maker {
            self.scripts.insert(script);
        }
        self.wake_auto();
        self.awaited = None;
        self.maker = None;
    }

    /// Wakes those that wait for the word, which made a step, or for a task, which has come further.
    #[inline(never)]
    pub fn wake_for_word(&mut self) {
        self.scripts.take(&mut self.waiting.for_word);
        self.wake_auto();
    }

    /// Whether a reader of the count waits.
    #[inline(always)]
    pub fn has_readers(&self) -> bool {
        !self.waiting.readers.is_empty()
    }

    /// Wakes the readers of the count, since no event is in progress.
    pub fn wake_readers(&mut self) {
        self.scripts.take(&mut self.waiting.readers);
    }

    /// That mark was raised by an actor, or left as it is by one that was called for it: calls the next of
    /// the scripts, of which there are `many`, that wait for it, the first one after the last. So as many are
    /// called as the mark is high, in the order in which rounds come to them.
    #[inline(never)]
    pub fn call_for_mark(&mut self, who: Actor, mark: u32, many: u32) {
        let from = match who {
            Actor::Script(script) => script.saturating_add(1),
            _ => 0,
        };
        if !self.call_from(from, mark, many) {
            self.call_from(0, mark, many);
        }
    }

    /// Calls the first from a number on that waits for that mark. Whether there is one.
    fn call_from(&mut self, from: u32, mark: u32, many: u32) -> bool {
        match self.next_for_mark(from, mark, many) {
            Some(script) => {
                self.marks.all.remove(script);
                self.marks.called.insert(script);
                self.scripts.insert(script);
                true
            }
            None => false,
        }
    }

    /// The first from a number on that waits for that mark. Who waits for it no longer leaves its list.
    fn next_for_mark(&mut self, from: u32, mark: u32, many: u32) -> Option<u32> {
        let waiting = self.marks.by_mark.get_mut(mark as usize)?;
        for _ in 0..many {
            let script = waiting.next(from, many)?;
            waiting.remove(script);
            if self.marks.all.has(script)
                && self.marks.mark_of.get(script as usize) == Some(&mark)
            {
                return Some(script);
            }
        }
        None
    }

    /// The mark that an actor was called for, if this is its try.
    #[inline(always)]
    pub fn take_call(&mut self, who: Actor) -> Option<u32> {
        match who {
            Actor::Script(script)
                if !self.marks.called.is_empty() && self.marks.called.has(script) => {
                self.marks.called.remove(script);
                self.marks.mark_of.get(script as usize).copied()
            }
            _ => None,
        }
    }

    /// An actor has let the autosleep lock go: wakes the next of the scripts, of which there are `many`, that
    /// wait for the lock, and the work, which may be queued.
    #[inline(never)]
    pub fn wake_for_lock(&mut self, who: Actor, many: u32) {
        self.unqueued = false;
        self.auto = true;
        match who {
            Actor::Script(script) => self.pass_lock(script, many),
            _ => self.wake_next_for_lock(0, many),
        }
    }

    /// Wakes the next after a script that waits for the lock, the first one after the last.
    fn pass_lock(&mut self, script: u32, many: u32) {
        self.wake_next_for_lock(script.saturating_add(1), many);
        if self.next_for_lock.is_none() {
            self.wake_next_for_lock(0, many);
        }
    }

    /// Wakes the first from a number on that waits for the lock.
    fn wake_next_for_lock(&mut self, from: u32, many: u32) {
        self.next_for_lock = self.waiting.for_lock.next(from, many);
        if let Some(script) = self.next_for_lock {
            self.waiting.for_lock.remove(script);
            self.scripts.insert(script);
        }
    }

    /// Whether that actor was woken for the lock, and this is its try.
    #[inline(always)]
    pub fn has_lock_turn(&self, who: Actor) -> bool {
        match (who, self.next_for_lock) {
            (Actor::Script(script), Some(next)) => script == next,
            _ => false,
        }
    }

    /// The script that was woken for the lock has had its try. If the lock was free, the next one is woken.
    #[inline(never)]
    pub fn had_lock_turn(&mut self, who: Actor, is_held: bool, many: u32) {
        self.next_for_lock = None;
        if let Actor::Script(script) = who
            && !is_held
        {
            self.pass_lock(script, many);
        }
    }

    /// Wakes the scripts that wait, but for those that sleep or are frozen, and the work.
    pub fn wake_but_sleepers(&mut self) {
        self.wake_for_word();
        self.wake_readers();
        self.scripts.take(&mut self.marks.all);
        self.scripts.take(&mut self.waiting.for_lock);
        self.next_for_lock = None;
        self.wake_any_maker();
    }

    /// Wakes all scripts: tasks are asked to freeze or let go, or the machine wakes.
    #[inline(never)]
    pub fn wake_scripts(&mut self) {
        self.wake_but_sleepers();
        self.scripts.add(&self.remaining);
    }

    /// Wakes a script whose sleep has come to its end.
    pub fn wake_sleeper(&mut self, script: u32) {
        self.scripts.insert(script);
    }

    /// Wakes the timers, one of which is due.
    pub fn wake_timers(&mut self) {
        self.timers = true;
    }

    /// Wakes everybody.
    pub fn wake_all(&mut self) {
        self.unqueued = false;
        self.wake_scripts();
        self.timers = true;
        self.devices.add(&self.asynchronous);
    }
}
