//! What a freeze, a thaw and a task that freezes do to the tasks (`kernel/power/process.c`,
//! `kernel/freezer.c`).

ghost use Rattle.std.specs.Prelude.{◌≡◌, ◌<◌, ◌^◌, length, map, IfOk};
ghost use Rattle.sleep_model.specs.declared.machine.Script.{Script};
ghost use Rattle.sleep_model.specs.Freezer.{unasked, is_in, is_task, asked_by, all_asked, let_go, all_let_go, put_frozen, freezings_after};

use sleep_base::Mem;
use sleep_model::{Actor, Freezing, Group, Kind, Script, TaskKind, Thaw};
use std::alloc::Global;

/// A task that the freezer asks for nothing.
pub(crate) fn unasked() -> Freezing
    ensures { result ≡ unasked }
{
    Freezing {
        asked: false,
        frozen: false,
    }
}

/// Nobody is asked. `Mem` if there is no memory for the list.
#[tactic(auto, using(crate::proofs::Unasked::all_unasked))]
pub(crate) fn none_asked(alloc: Global, scripts: &[Script]) -> Result<Vec<Freezing>, Mem>
    ensures { IfOk result (λ v. v.items ≡ map (λ (s : Script). unasked) scripts.now) }
{
    Ok(vec![in alloc; unasked(); scripts.len()]?)
}

/// Whether a freeze of the group asks tasks of that kind.
pub fn is_in(group: Group, kind: TaskKind) -> bool
    ensures { result ≡ is_in group kind }
{
    matches!(
        (group, kind),
        (Group::User, TaskKind::User) | (Group::Kernel, TaskKind::Kthread)
    )
}

/// Whether that actor is script i.
fn is_task(i: u32, who: Actor) -> bool
    ensures { result ≡ is_task i who }
{
    match who {
        Actor::Script(j) => j == i,
        _ => false,
    }
}

/// Script i, of that kind, after a freeze of the group by that actor.
fn asked_by(group: Group, who: Actor, i: u32, kind: TaskKind, before: Freezing) -> Freezing
    ensures { result ≡ asked_by group who i kind before }
{
    if is_in(group, kind) {
        Freezing {
            asked: before.asked || !is_task(i, who),
            frozen: false,
        }
    } else {
        before
    }
}

/// A freeze of the group by that actor (`freeze_processes`, `freeze_kernel_threads`).
fn ask_all(freezings: &mut Vec<Freezing>, scripts: &[Script], group: Group, who: Actor)
    requires all { length freezings.old.items ≡ length scripts.now }
    requires few { length scripts.now < 2 ^ 32 }
    ensures { freezings.new.items ≡ all_asked group who 0 scripts.now freezings.old.items }
{
    for i in 0..scripts.len() {
        let after = asked_by(group, who, i as u32, scripts[i].kind, freezings[i]);
        freezings[i] = after;
    }
}

/// A task of that kind after a thaw.
fn let_go(those: Thaw, kind: TaskKind, before: Freezing) -> Freezing
    ensures { result ≡ let_go those kind before }
{
    match (those, kind) {
        (Thaw::All, _) | (Thaw::Kernel, TaskKind::Kthread) => unasked(),
        (Thaw::Kernel, _) => before,
    }
}

/// A thaw (`thaw_kernel_threads`, `thaw_processes`).
fn let_all_go(freezings: &mut Vec<Freezing>, scripts: &[Script], those: Thaw)
    requires { length freezings.old.items ≡ length scripts.now }
    ensures { freezings.new.items ≡ all_let_go those scripts.now freezings.old.items }
{
    for i in 0..scripts.len() {
        let after = let_go(those, scripts[i].kind, freezings[i]);
        freezings[i] = after;
    }
}

/// A task freezes (`__refrigerator`).
fn put_frozen(freezings: &mut Vec<Freezing>, who: Actor)
    ensures { freezings.new.items ≡ put_frozen who freezings.old.items }
{
    if let Actor::Script(i) = who {
        if let Some(before) = freezings.get(i as usize) {
            let after = Freezing {
                frozen: true,
                ..*before
            };
            freezings[i as usize] = after;
        }
    }
}

/// What the freezer has come to with the tasks, after an entry of that actor.
pub(crate) fn move_freezings(
    freezings: &mut Vec<Freezing>,
    scripts: &[Script],
    who: Actor,
    kind: Kind,
)
    requires all { length freezings.old.items ≡ length scripts.now }
    requires few { length scripts.now < 2 ^ 32 }
    ensures { freezings.new.items ≡ freezings_after scripts.now who kind freezings.old.items }
{
    match kind {
        Kind::Freeze(group) => ask_all(freezings, scripts, group, who),
        Kind::Thaw(those) => let_all_go(freezings, scripts, those),
        Kind::Frozen => put_frozen(freezings, who),
        _ => {}
    }
}
