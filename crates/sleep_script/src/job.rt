//! What an actor that takes turns of the core knows of itself.

ghost use Rattle.std.specs.Prelude.{◌≡◌, drop, map, option_copied};
ghost use Rattle.script_plan.specs.CallPlans.{noted};
ghost use Rattle.sleep_script.specs.JobFields.{planned_at};
ghost use Rattle.sleep_script.specs.Jobs.{later};

use machine_plans::MachinePlans;
use script_plan::{Plan, ends_turn};
use sleep_model::{Actor, Kind, Phase, Report, Stamp, Want, What};
use std::marker::Model;

/// The reports after the first.
fn rest_of(reports: &[Report]) -> &[Report]
    ensures { result.now ≡ drop 1 reports.now }
{
    if reports.is_empty() {
        reports
    } else {
        &reports[1..]
    }
}

/// The plan's calls right before the turn with that number.
fn calls_before<'a>(plan: Option<&'a Plan<'_>>, turn: usize) -> &'a [Report]
    ensures { map noted result.now ≡ planned_at (option_copied plan.entry) turn }
{
    match plan {
        Some(plan) => plan.calls_at(turn),
        None => &[],
    }
}

/// The greater of two positions, and of two ticks.
pub(crate) fn later(one: Stamp, other: Stamp) -> Stamp
    ensures { result ≡ later one other }
{
    Stamp {
        pos: one.pos.max(other.pos),
        tick: one.tick.max(other.tick),
    }
}

/// The job of an actor that takes turns of the core: a script, the autosleep work, or an asynchronous device.
/// It knows the calls on sources of a script's own steps, also those round a good write to autosleep, and the
/// reports of its actor's callbacks (`drivers/base/power/main.c`, `async_suspend`;
/// `kernel/power/autosleep.c`, `try_to_suspend`).
#[derive(Drop)]
pub struct ActorJob<'m> {
    plans: &'m MachinePlans<'m>,
    who: Actor,
    /// A script's own steps.
    plan: Option<&'m Plan<'m>>,
    /// The turns of its own steps that have ended.
    turns: usize,
    /// How many of the plan's calls right before its next turn were made.
    made: usize,
    /// The reports that its callback still has to make.
    reports: &'m [Report],
    /// How many calls it has to make before its next entry of the journal: those reports, then the plan's.
    due: usize,
    calls: u32,
    exited: bool,
    floor: Stamp,
}

impl<'m> Model for ActorJob<'m> {
    ghost use Rattle.sleep_script.specs.Jobs.{JobState};

    ghost Value = { JobState };

    ghost use Rattle.sleep_script.specs.JobFields.{seen_job, job_invariant};

    ghost view = { seen_job };

    ghost invariant = { job_invariant };
}

impl<'m> ActorJob<'m> {
    ghost use Rattle.std.specs.Prelude.{◌≡◌, ◌+◌, ◌<◌, ◌^◌, [], Some, drop, length, map, nat_lt, option_copied, slice_get};
    ghost use Rattle.sleep_model.specs.declared.entry.Kind.TheVariants as kind;
    ghost use Rattle.script_plan.specs.CallPlans.{noted};
    ghost use Rattle.sleep_model.specs.Calls.{calls_of_turn, report_calls};
    ghost use Rattle.sleep_script.specs.JobFields.{IsPlanOf};
    ghost use Rattle.sleep_script.specs.Jobs.{IsWanted, first_job, after_turn, job_after_turn, after_call, raised};

    /// The job of an actor before its first entry, with the plan of its own steps.
    fn new(plans: &'m MachinePlans<'_>, who: Actor, plan: Option<&'m Plan<'m>>) -> Self
        requires { IsPlanOf (option_copied plan) plans.now who }
        ensures { result ≡ first_job plans.now who }
    {
        let due = calls_before(plan, 0).len();
        ActorJob {
            plans,
            who,
            plan,
            turns: 0,
            made: 0,
            reports: &[],
            due,
            calls: 0,
            exited: false,
            floor: Stamp { pos: 0, tick: 0 },
        }
    }

    /// The job of the script with that number, before its first step.
    pub fn of_script(plans: &'m MachinePlans<'_>, script: u32) -> Self
        requires { script < length plans.now.actors }
        ensures { result ≡ first_job plans.now (Actor.Script script) }
    {
        let plan: &'m Plan<'m> = plans.script(script);
        ActorJob::new(plans, Actor::Script(script), Some(plan))
    }

    /// The job of the machine's autosleep work, before its first run.
    pub fn of_auto(plans: &'m MachinePlans<'_>) -> Self
        ensures { result ≡ first_job plans.now Actor.Auto }
    {
        ActorJob::new(plans, Actor::Auto, None)
    }

    /// The job of the device with that number, before its first callback.
    pub fn of_device(plans: &'m MachinePlans<'_>, device: u32) -> Self
        ensures { result ≡ first_job plans.now (Actor.Dev device) }
    {
        ActorJob::new(plans, Actor::Dev(device), None)
    }

    /// The calls of its own steps right before its next turn.
    fn own_calls(&self) -> &[Report]
        ensures { map noted result.now ≡ calls_of_turn self.now.machine self.now.who self.now.turns }
    {
        calls_before(self.plan, self.turns)
    }

    /// The call that it has to make next.
    #[inline(never)]
    fn next_call(&self) -> Report
        requires { 0 < length self.now.pending }
        ensures { slice_get self.now.pending 0 ≡ Some (noted result) }
    {
        match self.reports.first() {
            Some(report) => *report,
            None => self.own_calls()[self.made],
        }
    }

    /// What its actor does next: the call on a source that is next, else a turn of the core. `Nothing` once
    /// it has exited.
    #[inline(always)]
    pub fn next(&self) -> Want
        ensures { IsWanted self.now result }
    {
        if self.owes() {
            let call = self.next_call();
            Want::Source(call.source, call.call)
        } else if self.exited {
            Want::Nothing
        } else {
            Want::Core
        }
    }

    /// A turn of its own steps has ended: the calls right before the next turn are due.
    #[inline(always)]
    fn end_turn(&mut self)
        requires made { self.old.pending ≡ [] }
        requires few { self.old.turns < 2 ^ 63 }
        ensures { self.new ≡ job_after_turn self.old }
    {
        let turns = self.turns + 1;
        self.due = calls_before(self.plan, turns).len();
        self.made = 0;
        self.turns = turns;
    }

    /// Its actor has begun a callback of that device, and so has the reports that this answers.
    #[inline(never)]
    fn take_reports(&mut self, phase: Phase, device: u32, attempt: u32)
        requires { self.old.pending ≡ [] }
        ensures { self.new ≡ record self.old { pending = report_calls self.old.machine attempt (kind.Begin phase device) } }
    {
        let what = What::Device(device, phase);
        let reports = self.plans.answers().reports(what, attempt);
        self.due = reports.len();
        self.reports = reports;
    }

    /// Its actor has begun a callback of that device: what that reports is due. Most machines answer nothing
    /// at all.
    #[inline(always)]
    fn begin_callback(&mut self, phase: Phase, device: u32, attempt: u32)
        requires { self.old.pending ≡ [] }
        ensures { self.new ≡ record self.old { pending = report_calls self.old.machine attempt (kind.Begin phase device) } }
    {
        if self.plans.machine().answers.len() > 0 {
            self.take_reports(phase, device, attempt);
        }
    }

    /// Its actor made an entry of the journal, with that stamp, when `attempt` attempts were begun. Most
    /// entries leave it nothing to do.
    #[inline(always)]
    pub fn told_core(&mut self, stamp: Stamp, kind: Kind, attempt: u32)
        requires made { self.old.pending ≡ [] }
        requires few { self.old.turns < 2 ^ 63 }
        ensures { self.new ≡ after_turn stamp kind attempt self.old }
    {
        self.floor = stamp;
        match kind {
            Kind::Begin(phase, device) => self.begin_callback(phase, device, attempt),
            Kind::Exit => self.exited = true,
            _ => {
                if ends_turn(kind) {
                    self.end_turn();
                }
            }
        }
    }

    /// The call that was next is made.
    fn pass_call(&mut self)
        requires { 0 < length self.old.pending }
        ensures { self.new ≡ record self.old { pending = drop 1 self.old.pending } }
    {
        if self.reports.is_empty() {
            // A turn has fewer than 2^63 calls before it.
            let _calls = self.own_calls().len();
            self.made += 1;
            self.due -= 1;
        } else {
            self.reports = rest_of(self.reports);
            self.due -= 1;
        }
    }

    /// Its actor made the call that was next, and knows that stamp.
    pub fn told_source(&mut self, stamp: Stamp)
        requires left { 0 < length self.old.pending }
        requires few { self.old.calls + 1 < 2 ^ 32 }
        ensures { self.new ≡ after_call stamp self.old }
    {
        self.pass_call();
        self.calls += 1;
        self.floor = stamp;
    }

    /// The stamp that its actor last knew.
    pub fn floor(&self) -> Stamp
        ensures { result ≡ self.now.floor }
    {
        self.floor
    }

    /// Its actor knows at least that stamp.
    pub fn raise(&mut self, floor: Stamp)
        ensures { self.new ≡ raised floor self.old }
    {
        self.floor = later(floor, self.floor);
    }

    /// Whether its actor has a call on a source to make before its next entry of the journal.
    #[inline(always)]
    pub fn owes(&self) -> bool
        ensures { result ≡ nat_lt 0 (length self.now.pending) }
    {
        self.due > 0
    }

    /// The actor whose job it is.
    pub fn who(&self) -> Actor
        ensures { result ≡ self.now.who }
    {
        self.who
    }

    /// How many calls on sources its actor has made.
    pub fn calls(&self) -> u32
        ensures { result ≡ self.now.calls }
    {
        self.calls
    }
}
