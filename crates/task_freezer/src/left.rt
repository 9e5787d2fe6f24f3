//! The tasks that a freeze waits for, and how many they are (`kernel/power/process.c`).

ghost use Rattle.std.specs.Prelude.{◌≡◌, ◌≤◌, ◌<◌, ◌+◌, ◌-◌, ◌^◌, length};
ghost use Rattle.task_freezer.specs.Freezers.{waits_for, left_by, IsLeft, first_or};
ghost use Rattle.task_freezer.specs.Waits.{as_count, count_in, left_counts, wait_groups, waits_in, waits_of, IsOfOne, AreMoved};

use crate::asking::is_in;
use sleep_model::{Actor, Freezing, Group, Kind, Script, TaskKind};

/// The tasks that a freeze still waits for: how many they are, and the first in the order of the file.
#[derive(Clone, Copy)]
pub struct Left {
    pub count: u32,
    pub first: Option<u32>,
}

/// Whether a task keeps the freeze of its group waiting (`try_to_freeze_tasks`).
fn waits_for(group: Group, kind: TaskKind, freezing: Freezing, exited_flags: bool) -> bool
    ensures { result ≡ waits_for group kind freezing exited_flags }
{
    is_in(group, kind) && freezing.asked && !freezing.frozen && !exited_flags
}

impl Left {
    /// One task more is left, after the others.
    fn and(self, task: u32) -> Left
        requires { self.count < 2 ^ 32 - 1 }
        ensures count { result.count ≡ self.count + 1 }
        ensures first { result.first ≡ first_or self.first task }
    {
        let first = match self.first {
            None => Some(task),
            first => first,
        };
        Left {
            count: self.count + 1,
            first,
        }
    }
}

/// The tasks of these that a freeze of the group still waits for (`try_to_freeze_tasks`).
pub(crate) fn left_among(
    scripts: &[Script],
    freezings: &[Freezing],
    exited_flags: &[bool],
    group: Group,
) -> Left
    requires exited_flags { length exited_flags.now ≡ length scripts.now }
    requires freezings { length freezings.now ≡ length scripts.now }
    requires few { length scripts.now < 2 ^ 32 }
    ensures { IsLeft result (left_by group 0 scripts.now freezings.now exited_flags.now) }
{
    let mut left = Left {
        count: 0,
        first: None,
    };
    for (i, script) in scripts.iter().enumerate() {
        if waits_for(group, script.kind, freezings[i], exited_flags[i]) {
            left = left.and(i as u32);
        }
    }
    left
}

/// How many user tasks a freeze waits for, and how many kernel threads.
#[derive(Clone, Copy)]
pub(crate) struct LeftCounts {
    pub(crate) user: u32,
    pub(crate) kernel: u32,
}

impl LeftCounts {
    /// The number of a group.
    pub(crate) fn of(self, group: Group) -> u32
        ensures { result ≡ count_in group self }
    {
        match group {
            Group::User => self.user,
            Group::Kernel => self.kernel,
        }
    }
}

/// Whether a freeze of user tasks waits for a task, and whether one of kernel threads does.
#[derive(Clone, Copy)]
pub(crate) struct WaitGroups {
    pub(crate) user: bool,
    pub(crate) kernel: bool,
}

/// Whether a freeze of the group waits for that actor, one of these scripts.
fn waits_in(
    scripts: &[Script],
    freezings: &[Freezing],
    exited_flags: &[bool],
    group: Group,
    who: Actor,
) -> bool
    requires exited_flags { length exited_flags.now ≡ length scripts.now }
    requires freezings { length freezings.now ≡ length scripts.now }
    ensures { result ≡ waits_of group who scripts.now freezings.now exited_flags.now }
{
    let Actor::Script(i) = who else {
        return false;
    };
    match scripts.get(i as usize) {
        Some(script) => waits_for(
            group,
            script.kind,
            freezings[i as usize],
            exited_flags[i as usize],
        ),
        None => false,
    }
}

/// For which freezes that actor keeps the machine waiting.
pub(crate) fn waits_among(
    scripts: &[Script],
    freezings: &[Freezing],
    exited_flags: &[bool],
    who: Actor,
) -> WaitGroups
    requires exited_flags { length exited_flags.now ≡ length scripts.now }
    requires freezings { length freezings.now ≡ length scripts.now }
    ensures { result ≡ wait_groups who scripts.now freezings.now exited_flags.now }
{
    WaitGroups {
        user: waits_in(scripts, freezings, exited_flags, Group::User, who),
        kernel: waits_in(scripts, freezings, exited_flags, Group::Kernel, who),
    }
}

/// A number of tasks of which one waited before or not, and waits now or not.
fn moved(count: u32, waited: bool, waits: bool) -> u32
    requires few { count < 2 ^ 31 }
    requires most { as_count waited ≤ count + as_count waits }
    ensures { result + as_count waited ≡ count + as_count waits }
{
    count + waits as u32 - waited as u32
}

/// The numbers of tasks that freezes wait for, after an entry: a freeze and a thaw count them anew, another
/// entry moves at most its own actor.
pub(crate) fn counts_after(
    scripts: &[Script],
    freezings: &[Freezing],
    exited_flags: &[bool],
    who: Actor,
    kind: Kind,
    before: LeftCounts,
    waited: WaitGroups,
) -> LeftCounts
    requires exited_flags { length exited_flags.now ≡ length scripts.now }
    requires freezings { length freezings.now ≡ length scripts.now }
    requires few { length scripts.now < 2 ^ 31 }
    requires user_few { before.user ≤ length scripts.now }
    requires kernel_few { before.kernel ≤ length scripts.now }
    requires moved { IsOfOne kind → AreMoved who scripts.now freezings.now exited_flags.now before waited }
    ensures { result ≡ left_counts scripts.now freezings.now exited_flags.now }
{
    match kind {
        Kind::Freeze(_) | Kind::Thaw(_) => LeftCounts {
            user: left_among(scripts, freezings, exited_flags, Group::User).count,
            kernel: left_among(scripts, freezings, exited_flags, Group::Kernel).count,
        },
        _ => {
            let waits = waits_among(scripts, freezings, exited_flags, who);
            LeftCounts {
                user: moved(before.user, waited.user, waits.user),
                kernel: moved(before.kernel, waited.kernel, waits.kernel),
            }
        }
    }
}
