//! The position of each script of a machine, and which of them sleep.

ghost use Rattle.std.specs.Prelude.{◌≡◌, ◌≤◌, ◌<◌, ◌+◌, ◌^◌, length, slice_index_or, slice_set};
ghost use Rattle.sleep_model.specs.Positions.{first_position, next_step, position_after, position_effect};
ghost use Rattle.sleep_model.specs.Places.{one_if};
ghost use Rattle.sleep_state.specs.Sleepers.{is_awake};
ghost use Rattle.sleep_state.specs.TaskStates.{IsSmallPosition};
ghost use Rattle.sleep_state.specs.Trees.{never, moment_of};

use crate::moments::{LAST, Moments, NEVER, is_later, moment_of, sooner};
use sleep_base::Mem;
use sleep_model::{Kind, ScriptPosition};
use std::alloc::Global;
use std::marker::Model;

/// The position of each script. The ends of their sleeps are here too, and how many of them neither sleep nor
/// have exited. So it is known without a look at each whether all are stopped.
#[derive(Drop)]
pub(crate) struct ScriptPositions {
    positions: Vec<ScriptPosition>,
    /// The end of each script's sleep, if it sleeps.
    ends: Moments,
    /// How many scripts neither sleep nor have exited.
    awake: usize,
    /// How many scripts have not exited.
    left: usize,
}

impl Model for ScriptPositions {
    ghost use Rattle.std.specs.Prelude.{List};
    ghost use Rattle.sleep_model.specs.declared.progress.ScriptPosition.{ScriptPosition as PositionState};

    ghost Value = { List PositionState };

    ghost use Rattle.sleep_state.specs.PositionFields.{positions_seen, positions_invariant};

    ghost view = { positions_seen };

    ghost invariant = { positions_invariant };
}

/// A script at its first step.
pub(crate) fn first_position() -> ScriptPosition
    ensures { result ≡ first_position }
{
    ScriptPosition {
        done: 0,
        turns: 0,
        waits: false,
        last_read: None,
        saved: false,
        until: None,
        exited: false,
    }
}

/// The step under way has ended, and the next one has not begun.
#[inline(always)]
fn end_step(position: &mut ScriptPosition)
    requires { IsSmallPosition position.old }
    ensures { position.new ≡ next_step position.old }
{
    position.done += 1;
    position.turns += 1;
    position.waits = false;
    position.until = None;
}

/// A script after an entry of its own.
#[inline(always)]
fn move_script(position: &mut ScriptPosition, kind: Kind)
    requires { IsSmallPosition position.old }
    ensures { position.new ≡ position_after (position_effect kind) position.old }
{
    match kind {
        Kind::ReadWait | Kind::SaveWait(_) | Kind::StateWait => position.waits = true,
        Kind::AutoSet(_) => {
            position.turns += 1;
            position.waits = true;
        }
        Kind::Sleep(until) | Kind::SleepD(until) => {
            position.waits = true;
            position.until = Some(until);
        }
        Kind::Read(count) => {
            end_step(position);
            position.last_read = Some(count);
        }
        Kind::Saved(_) => {
            end_step(position);
            position.saved = true;
        }
        Kind::SaveErr(..) => {
            end_step(position);
            position.saved = false;
        }
        Kind::ReadIntr
        | Kind::StateErr(_)
        | Kind::StateUnsaved
        | Kind::Over { .. }
        | Kind::AutoBad
        | Kind::AutoDone
        | Kind::Slept
        | Kind::Pass
        | Kind::Post(_)
        | Kind::Got(_)
        | Kind::RuntimeAsk { .. }
        | Kind::LinkAdd { .. }
        | Kind::LinkState { .. } => end_step(position),
        Kind::Exit => position.exited = true,
        _ => {}
    }
}

/// Whether a script with that position neither sleeps nor has exited.
fn is_awake(position: ScriptPosition) -> bool
    ensures { result ≡ is_awake position }
{
    !position.exited && position.until.is_none()
}

/// The new count, after one position that was counted or not is replaced by one that is counted or not.
#[inline(always)]
fn recount(was: bool, is: bool, many: usize) -> usize
    requires one { one_if was ≤ many }
    requires room { many + 1 < 2 ^ 64 }
    ensures { result + one_if was ≡ many + one_if is }
{
    match (was, is) {
        (true, false) => many - 1,
        (false, true) => many + 1,
        _ => many,
    }
}

/// The end of a script's sleep, before and after an entry of its own: nearly all entries leave it without
/// one.
fn move_end(ends: &mut Moments, script: usize, was: Option<u64>, is: Option<u64>)
    requires within { script < length ends.old }
    requires was { moment_of was ≡ slice_index_or ends.old script never }
    ensures { ends.new ≡ slice_set ends.old script (moment_of is) }
{
    if was.is_some() || is.is_some() {
        ends.set(script, moment_of(is));
    }
}

impl ScriptPositions {
    ghost use Rattle.std.specs.Prelude.{◌≡◌, ◌<◌, None, IfOk, IfSome, length, replicate, slice_get, slice_set};
    ghost use Rattle.std.specs.Bool.{OnTrue};
    ghost use Rattle.sleep_model.specs.Positions.{first_position, position_after, position_at, position_effect, all_exited};
    ghost use Rattle.sleep_state.specs.TaskStates.{IsSmallPosition};
    ghost use Rattle.sleep_state.specs.Sleepers.{earliest_end, AreStopped, HasSlept, NoneSlept};

    /// So many scripts at their first steps. `Mem` if there is no memory.
    #[tactic(auto, using(crate::proofs::Sleeping::ends_first, crate::proofs::Sleeping::awake_first, crate::proofs::Sleeping::there_first))]
    pub(crate) fn new(alloc: Global, scripts: usize) -> Result<Self, Mem>
        ensures { IfOk result (λ s. s ≡ replicate scripts first_position) }
    {
        let positions = vec![in alloc; first_position(); scripts]?;
        let ends = Moments::new(alloc, scripts)?;
        Ok(ScriptPositions {
            positions,
            ends,
            awake: scripts,
            left: scripts,
        })
    }

    /// How many scripts there are.
    pub(crate) fn len(&self) -> usize
        ensures { result ≡ length self.now }
    {
        self.positions.len()
    }

    /// The position of that script, if there is one.
    pub(crate) fn get(&self, script: usize) -> Option<ScriptPosition>
        ensures { result ≡ slice_get self.now script }
    {
        self.positions.get(script).copied()
    }

    /// A script's own entry moves it, in place.
    #[inline(always)]
    pub(crate) fn note(&mut self, script: usize, kind: Kind)
        requires within { script < length self.old }
        requires small { IsSmallPosition (position_at self.old script) }
        ensures { self.new ≡ slice_set self.old script (position_after (position_effect kind) (position_at self.old script)) }
    {
        let position = &mut self.positions[script];
        let was = *position;
        move_script(position, kind);
        let is = *position;
        self.awake = recount(is_awake(was), is_awake(is), self.awake);
        self.left = recount(!was.exited, !is.exited, self.left);
        move_end(&mut self.ends, script, was.until, is.until);
    }

    /// The least end of all sleeps.
    pub(crate) fn least_end(&self) -> Option<u64>
        ensures { result ≡ earliest_end self.now (length self.now) }
    {
        let least = self.ends.least();
        // In the tree a sleep up to `LAST` and one up to `NEVER` have the same moment.
        if least < LAST {
            Some(least)
        } else if least == NEVER {
            None
        } else {
            self.least_asked()
        }
    }

    /// The least end of all sleeps, each script being asked.
    #[inline(never)]
    fn least_asked(&self) -> Option<u64>
        ensures { result ≡ earliest_end self.now (length self.now) }
    {
        let mut next = None;
        for script in 0..self.positions.len() {
            next = sooner(self.positions[script].until, next);
        }
        next
    }

    /// Whether each script has exited, or sleeps to a moment later than that.
    pub(crate) fn are_stopped(&self, time: u64) -> bool
        ensures { OnTrue result (AreStopped self.now time) }
    {
        self.awake == 0 && time < self.ends.least()
    }

    /// The next script after that one, or the first, whose sleep has come to its end by now. If the search
    /// begins at the first and finds none, no script's has.
    #[tactic(auto, using(crate::proofs::Coming::slept_of, crate::proofs::Coming::none_of))]
    pub(crate) fn next_slept(&self, after: Option<usize>, now: u64) -> Option<usize>
        ensures found { IfSome result (λ script. HasSlept self.now script now) }
        ensures none { after ≡ None → result ≡ None → NoneSlept self.now now }
    {
        if now < LAST {
            self.ends.next_come(after, now)
        } else {
            self.next_asked(after, now)
        }
    }

    /// The next script after that one, or the first, whose sleep has come to its end by now, each script being
    /// asked.
    #[inline(never)]
    fn next_asked(&self, after: Option<usize>, now: u64) -> Option<usize>
        ensures found { IfSome result (λ script. HasSlept self.now script now) }
        ensures none { after ≡ None → result ≡ None → NoneSlept self.now now }
    {
        let from = match after {
            Some(script) => script.saturating_add(1),
            None => 0,
        };
        for script in from..self.positions.len() {
            if !is_later(self.positions[script].until, now) {
                return Some(script);
            }
        }
        None
    }

    /// Whether every script has made its exit.
    pub(crate) fn all_exited(&self) -> bool
        ensures { result ≡ all_exited self.now }
    {
        self.left == 0
    }
}
