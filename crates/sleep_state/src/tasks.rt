//! The positions of scripts and their marks, entry by entry.
ghost use Rattle.std.specs.Prelude.{◌≡◌, ◌<◌, ◌^◌};
ghost use Rattle.sleep_model.specs.Marks.{marks_after};
ghost use Rattle.sleep_model.specs.Positions.{position_effect, positions_after};
ghost use Rattle.sleep_state.specs.TaskStates.{PositionIsSmall, MarksAreSmall};

use crate::positions::{ScriptPositions, first_position};
use sleep_base::Mem;
use sleep_model::{Actor, Kind, ScriptPosition};
use std::alloc::Global;
use std::marker::Model;

/// The position of each script of a machine, and the marks by which scripts wait for one another.
#[derive(Drop)]
pub struct Tasks {
    positions: ScriptPositions,
    marks: Vec<u32>,
}

impl Model for Tasks {
    ghost use Rattle.sleep_state.specs.TaskStates.{TaskState};

    ghost Value = { TaskState };

    ghost use Rattle.sleep_state.specs.TaskFields.{tasks};

    ghost view = { tasks };
}

/// A script's own entry moves it.
#[inline(always)]
#[tactic(auto, using(crate::proofs::Sleeping::set_outside))]
fn move_position(positions: &mut ScriptPositions, who: Actor, kind: Kind)
    requires { PositionIsSmall who positions.old }
    ensures { positions.new ≡ positions_after who (position_effect kind) positions.old }
{
    if let Actor::Script(script) = who {
        let script = script as usize;
        if script < positions.len() {
            positions.note(script, kind);
        }
    }
}

/// A post raises a mark, and a wait that ends lowers it.
#[inline(always)]
fn move_marks(marks: &mut Vec<u32>, kind: Kind)
    requires { MarksAreSmall kind marks.old.items }
    ensures { marks.new.items ≡ marks_after kind marks.old.items }
{
    match kind {
        Kind::Post(mark) => {
            if let Some(raised) = marks.get(mark as usize) {
                let more = *raised + 1;
                marks[mark as usize] = more;
            }
        }
        Kind::Got(mark) => {
            if let Some(raised) = marks.get(mark as usize) {
                let fewer = raised.saturating_sub(1);
                marks[mark as usize] = fewer;
            }
        }
        _ => {}
    }
}

impl Tasks {
    ghost use Rattle.std.specs.Prelude.{◌≡◌, ◌≤◌, ◌^◌, None, IfOk, IfSome, length};
    ghost use Rattle.std.specs.Bool.{OnTrue};
    ghost use Rattle.sleep_model.specs.declared.entry.Kind.TheVariants as kind;
    ghost use Rattle.sleep_model.specs.Marks.{mark_at};
    ghost use Rattle.sleep_model.specs.Positions.{position_at, all_exited};
    ghost use Rattle.sleep_state.specs.TaskStates.{PositionIsSmall, MarksAreSmall, tasks_after, first_tasks};
    ghost use Rattle.sleep_state.specs.Sleepers.{earliest_end, AreStopped, HasSlept, NoneSlept};

    /// All scripts at their first steps, and no mark raised. `Mem` if there is no memory.
    pub fn new(alloc: Global, scripts: usize, marks: usize) -> Result<Self, Mem>
        ensures { IfOk result (λ t. t ≡ first_tasks scripts marks) }
    {
        Ok(Tasks {
            positions: ScriptPositions::new(alloc, scripts)?,
            marks: vec![in alloc; 0; marks]?,
        })
    }

    /// What an entry of that actor does to the tasks. Most are of sleeps: each arm gives the kind anew, so that
    /// the compiler leaves out of it what only others do.
    #[inline(always)]
    pub fn note(&mut self, who: Actor, kind: Kind)
        requires position { PositionIsSmall who self.old.positions }
        requires marks { MarksAreSmall kind self.old.marks }
        ensures { self.new ≡ tasks_after who kind self.old }
    {
        match kind {
            Kind::Sleep(until) => self.begin_sleep(who, until),
            Kind::Slept => self.end_sleep(who),
            other => self.note_other(who, other),
        }
    }

    /// An entry by which an actor begins to sleep.
    #[inline(never)]
    fn begin_sleep(&mut self, who: Actor, until: u64)
        requires { PositionIsSmall who self.old.positions }
        ensures { self.new ≡ tasks_after who (kind.Sleep until) self.old }
    {
        self.note_any(who, Kind::Sleep(until));
    }

    /// An entry by which an actor has slept.
    #[inline(never)]
    fn end_sleep(&mut self, who: Actor)
        requires { PositionIsSmall who self.old.positions }
        ensures { self.new ≡ tasks_after who kind.Slept self.old }
    {
        self.note_any(who, Kind::Slept);
    }

    /// Another entry.
    #[inline(never)]
    fn note_other(&mut self, who: Actor, kind: Kind)
        requires position { PositionIsSmall who self.old.positions }
        requires marks { MarksAreSmall kind self.old.marks }
        ensures { self.new ≡ tasks_after who kind self.old }
    {
        self.note_any(who, kind);
    }

    /// What an entry of that actor does to the tasks, whatever its kind.
    #[inline(always)]
    fn note_any(&mut self, who: Actor, kind: Kind)
        requires position { PositionIsSmall who self.old.positions }
        requires marks { MarksAreSmall kind self.old.marks }
        ensures { self.new ≡ tasks_after who kind self.old }
    {
        move_position(&mut self.positions, who, kind);
        move_marks(&mut self.marks, kind);
    }

    /// The position of that script.
    #[tactic(auto, using(crate::proofs::Sleeping::position_none))]
    pub fn position(&self, script: u32) -> ScriptPosition
        ensures { result ≡ position_at self.now.positions script }
    {
        match self.positions.get(script as usize) {
            Some(position) => position,
            None => first_position(),
        }
    }

    /// How often that mark was raised and not yet taken.
    pub fn raised(&self, mark: u32) -> u32
        ensures { result ≡ mark_at self.now.marks mark }
    {
        match self.marks.get(mark as usize) {
            Some(raised) => *raised,
            None => 0,
        }
    }

    /// Whether every script has made its exit.
    pub fn all_exited(&self) -> bool
        ensures { result ≡ all_exited self.now.positions }
    {
        self.positions.all_exited()
    }

    /// The least end of all scripts' sleeps.
    pub fn least_end(&self) -> Option<u64>
        ensures { result ≡ earliest_end self.now.positions (length self.now.positions) }
    {
        self.positions.least_end()
    }

    /// Whether each script has exited, or sleeps to a moment later than that. False may also mean that this
    /// is not known.
    pub fn are_stopped(&self, time: u64) -> bool
        ensures { OnTrue result (AreStopped self.now.positions time) }
    {
        self.positions.are_stopped(time)
    }

    /// The next script after that one, or the first, whose sleep has come to its end by now, in an order of its own.
    /// If none is found after none, no script's has.
    pub fn next_slept(&self, after: Option<u32>, now: u64) -> Option<u32>
        ensures found { IfSome result (λ script. HasSlept self.now.positions script now) }
        ensures none { after ≡ None → result ≡ None → length self.now.positions ≤ 2 ^ 32 → NoneSlept self.now.positions now }
    {
        let after = after.map(|script| script as usize);
        match self.positions.next_slept(after, now) {
            Some(script) => u32::try_from(script).ok(),
            None => None,
        }
    }
}
