//! The plan of a script: its operations turn by turn, and the calls on sources before each turn.
ghost use Rattle.std.specs.Prelude.{◌≡◌, ◌==◌, ◌≤◌, ◌<◌, ◌+◌, ◌^◌, ◌++◌, ◌||◌, length, map, OnOk, IfOk, option_copied, slice_get, All, List, ℕ};
ghost use Rattle.sleep_model.specs.Places.{all_operations};
ghost use Rattle.sleep_model.specs.Scripts.{makes_entry};
ghost use Rattle.script_plan.specs.CallPlans.{with_source};
ghost use Rattle.std.specs.List.{list_all};
ghost use Rattle.script_plan.specs.Plans.{expanded, op_or_read, op_at, entry_indices, calls_in, turns_in, turns_from, calls_after, ops_of};

use crate::calls::{calls_between, calls_of};
use crate::expand::expand;
use crate::texts::is_autosleep_text;
use sleep_base::Mem;
use sleep_model::{Op, Report, Script, Step};
use std::alloc::Global;
use std::marker::Model;

/// Whether an operation makes an entry of the journal, and is no call on a source.
fn makes_entry(op: &Op) -> bool
    ensures { result ≡ makes_entry op.now }
{
    !matches!(op, Op::Awake { .. } | Op::Relax { .. } | Op::Event { .. })
}

/// The operation at that index.
pub(crate) fn op_at(steps: &[Step], at: usize) -> &Op
    requires { at < length steps.now }
    ensures { result.now ≡ op_at steps.now at }
{
    &steps[at].op
}

/// The indices whose operations make entries.
fn entry_indices(alloc: Global, steps: &[Step], places: &[usize]) -> Result<Vec<usize>, Mem>
    requires { All (λ at. at < length steps.now) places.now }
    ensures { IfOk result (λ v. v.items ≡ entry_indices steps.now places.now) }
{
    let mut kept = Vec::new(alloc);
    for at in places {
        if makes_entry(op_at(steps, *at)) {
            kept.push(*at)?;
        }
    }
    Ok(kept)
}

/// How many calls on sources an operation makes.
fn calls_in(op: &Op) -> u32
    ensures is { result ≡ calls_in op.now }
    ensures few { result ≤ 2 }
{
    match op {
        Op::Awake { .. } | Op::Relax { .. } | Op::Event { .. } => 1,
        Op::Autosleep { text } if is_autosleep_text(text.as_slice()) => 2,
        _ => 0,
    }
}

/// Whether no operation of these steps makes a call on a source: each makes entries.
fn are_without_calls(steps: &[Step]) -> bool
    ensures { result ≡ list_all (λ s. calls_in s.op == 0) steps.now }
{
    steps.iter().all(|step| calls_in(&step.op) == 0)
}

/// The calls before each of an operation's turns, if `before` calls were made before it.
fn push_turns(turns: &mut Vec<u32>, before: u32, op: &Op) -> Result<(), Mem>
    requires { before < 2 ^ 31 }
    ensures { OnOk result (turns.new.items ≡ turns.old.items ++ turns_in before op.now) }
{
    match op {
        Op::Awake { .. } | Op::Relax { .. } | Op::Event { .. } => {}
        Op::Autosleep { text } if is_autosleep_text(text.as_slice()) => {
            turns.push(before + 1)?;
            turns.push(before + 2)?;
        }
        _ => turns.push(before)?,
    }
    Ok(())
}

/// How many calls are made before each turn of a script, and how many it makes in all.
#[derive(Drop)]
pub(crate) struct CallCounts {
    before_turns: Vec<u32>,
    all: u32,
}

impl CallCounts {
    ghost use Rattle.std.specs.Prelude.{[], slice_get};
    ghost use Rattle.script_plan.specs.Plans.{count_or};

    /// No call is made before any turn.
    fn none(alloc: Global) -> Self
        ensures turns { result.before_turns.items ≡ [] }
        ensures all { result.all ≡ 0 }
    {
        CallCounts {
            before_turns: Vec::new(alloc),
            all: 0,
        }
    }

    /// How many calls are made before the turn with that number, or before the end after the last.
    pub(crate) fn before_turn(&self, turn: usize) -> u32
        ensures { result ≡ count_or (slice_get self.now.before_turns.items turn) self.now.all }
    {
        match self.before_turns.get(turn) {
            Some(calls) => *calls,
            None => self.all,
        }
    }
}

/// The calls before each turn of the operations at these indices.
pub(crate) fn count_calls(
    alloc: Global,
    steps: &[Step],
    places: &[usize],
) -> Result<CallCounts, Mem>
    requires few { length places.now < 2 ^ 30 }
    requires within { All (λ at. at < length steps.now) places.now }
    ensures turns { IfOk result (λ c. c.before_turns.items ≡ turns_from 0 (ops_of steps.now places.now)) }
    ensures all { IfOk result (λ c. c.all ≡ calls_after 0 (ops_of steps.now places.now)) }
{
    let mut before_turns = Vec::new(alloc);
    let mut all = 0;
    for at in places {
        let op = op_at(steps, *at);
        push_turns(&mut before_turns, all, op)?;
        all += calls_in(op);
    }
    Ok(CallCounts { before_turns, all })
}

/// A script whose steps are taken and counted once, so that each turn finds its own at once. Contracts see
/// the script, and the source that autosleep has.
#[derive(Drop)]
pub struct Plan<'m> {
    script: &'m Script,
    autosleep: u32,
    entry_indices: Vec<usize>,
    /// The calls that the script's own steps make, in order.
    calls: Vec<Report>,
    counts: CallCounts,
}

impl<'m> Model for Plan<'m> {
    ghost use Rattle.script_plan.specs.CallPlans.{ScriptCalls};

    ghost Value = { ScriptCalls };

    ghost use Rattle.script_plan.specs.PlanFields.{planned, plan_invariant};

    ghost view = { planned };

    ghost invariant = { plan_invariant };
}

impl<'m> Plan<'m> {
    ghost use Rattle.std.specs.Prelude.{◌≡◌, ◌==◌, ◌≤◌, ℕ, true, length, map, IfOk, option_copied, slice_get};
    ghost use Rattle.std.specs.List.{list_all};
    ghost use Rattle.sleep_model.specs.Calls.{calls_at};
    ghost use Rattle.sleep_model.specs.Scripts.{operations, entry_steps, pieces};
    ghost use Rattle.script_plan.specs.CallPlans.{noted, calls_ahead};
    ghost use Rattle.script_plan.specs.Plans.{calls_before, calls_in, expanded};

    /// The plan of a script that makes no calls, whose steps have these indices.
    fn without_calls(alloc: Global, script: &'m Script, autosleep: u32, places: Vec<usize>) -> Self
        requires places { places.items ≡ expanded script.now }
        requires none { list_all (λ s. calls_in s.op == 0) script.now.steps ≡ true }
        ensures { result ≡ record { source = autosleep; script = script.now } }
    {
        Plan {
            script,
            autosleep,
            entry_indices: places,
            calls: Vec::new(alloc),
            counts: CallCounts::none(alloc),
        }
    }

    /// The plan of a script whose steps have these indices, with its calls. `Mem` if there is no memory.
    fn with_calls(
        alloc: Global,
        script: &'m Script,
        autosleep: u32,
        places: &[usize],
    ) -> Result<Self, Mem>
        requires few { length (operations script.now) ≤ 200000 }
        requires places { places.now ≡ expanded script.now }
        ensures { IfOk result (λ p. p ≡ record { source = autosleep; script = script.now }) }
    {
        let steps = script.steps.as_slice();
        Ok(Plan {
            script,
            autosleep,
            entry_indices: entry_indices(alloc, steps, places)?,
            calls: calls_of(alloc, autosleep, steps, places)?,
            counts: count_calls(alloc, steps, places)?,
        })
    }

    /// The plan of a script, which makes at most 200,000 steps, if autosleep has that source. `Mem` if there
    /// is no memory.
    pub fn new(alloc: Global, script: &'m Script, autosleep: u32) -> Result<Self, Mem>
        requires { length (operations script.now) ≤ 200000 }
        ensures { IfOk result (λ p. p ≡ record { source = autosleep; script = script.now }) }
    {
        let places = expand(alloc, script)?;
        if are_without_calls(script.steps.as_slice()) {
            return Ok(Plan::without_calls(alloc, script, autosleep, places));
        }
        Plan::with_calls(alloc, script, autosleep, &places)
    }

    /// The operation that makes the script's entries with that number, from 0. None if it has none left.
    pub fn operation(&self, number: usize) -> Option<&'m Op>
        ensures { option_copied result ≡ slice_get (entry_steps self.now.script) number }
    {
        let at = *self.entry_indices.get(number)?;
        let steps: &'m [Step] = self.script.steps.as_slice();
        Some(op_at(steps, at))
    }

    /// How many calls on sources are made before the turn with that number, from 0, or before its exit.
    pub fn calls_before(&self, turn: usize) -> u32
        ensures { (source : ℕ) → result ≡ calls_before (pieces source self.now.script) turn }
    {
        self.counts.before_turn(turn)
    }

    /// How many calls are made before the turn that precedes that one.
    fn ahead(&self, turn: usize) -> usize
        ensures { result ≡ calls_ahead (pieces self.now.source self.now.script) turn }
    {
        if turn == 0 {
            0
        } else {
            self.counts.before_turn(turn - 1) as usize
        }
    }

    /// The calls right before the script's turn with that number, from 0, or before its exit, in order.
    pub fn calls_at(&self, turn: usize) -> &[Report]
        ensures { map noted result.now ≡ calls_at (pieces self.now.source self.now.script) turn }
    {
        let from = self.ahead(turn);
        let to = self.counts.before_turn(turn) as usize;
        calls_between(&self.calls, from, to)
    }
}

/// The plan of each script of a machine, which make at most 200,000 steps in all, if autosleep has that
/// source. `Mem` if there is no memory.
pub fn plans_of(alloc: Global, scripts: &[Script], source: u32) -> Result<Vec<Plan<'_>>, Mem>
    requires { length (all_operations scripts.now) ≤ 200000 }
    ensures { IfOk result (λ v. v.items ≡ map (with_source source) scripts.now) }
{
    let mut plans = Vec::with_capacity(alloc, scripts.len())?;
    for script in scripts {
        plans.push(Plan::new(alloc, script, source)?)?;
    }
    Ok(plans)
}
