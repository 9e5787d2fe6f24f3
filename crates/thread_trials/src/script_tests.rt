//! The job of an actor, turn by turn: its entries, the calls that it makes, and what its timer ends.
ghost use Rattle.std.specs.Prelude.{◌≡◌, ◌≤◌, ◌<◌, ◌+◌, length, IfOk, OnOk};
ghost use Rattle.sleep_model.specs.Places.{all_operations};
ghost use Rattle.sleep_model.specs.Scripts.{operations};

use machine_plans::MachinePlans;
use sleep_base::{Mem, drop_for_mem};
use sleep_model::{
    Answer, Kind, ListOf, Machine, Name, Op, Phase, Report, Script, SourceCall, Stamp, State, Step,
    TaskKind, Text, Want, What,
};
use sleep_script::{ActorJob, TimerJob};
use std::alloc::{AllocError, Global};

/// The script of a task that reads the count, sets autosleep, and has an event of 50 ms.
fn script(alloc: Global, name: Name) -> Result<Script, AllocError>
    ensures { IfOk result (λ s. length (operations s) ≡ 3) }
{
    let text = Text::of_vec(b"mem".to_vec(alloc)?);
    let (source, ms, hard) = (0, 50, true);
    let steps = vec![in alloc;
        once(Op::Read),
        once(Op::Autosleep { text }),
        once(Op::Event { source, ms, hard }),
    ]?;
    Ok(Script {
        name,
        kind: TaskKind::User,
        repeat: 1,
        steps: ListOf::of_vec(steps),
    })
}

/// That operation, once.
fn once(op: Op) -> Step
    ensures { result ≡ record { op = op; times = 1 } }
{
    Step { op, times: 1 }
}

/// What device 0 answers in each attempt as it suspends: it reports an event on source 0.
fn answer(alloc: Global) -> Result<Answer, AllocError> {
    let call = SourceCall::Event { ms: 0, hard: false };
    let reports = vec![in alloc; Report { source: 0, call }]?;
    Ok(Answer {
        what: What::Device(0, Phase::Suspend),
        attempt: None,
        ret: 0,
        reports: ListOf::of_vec(reports),
    })
}

/// A machine with these sources, scripts and answers, and nothing else.
fn machine_with(
    alloc: Global,
    sources: Vec<Name>,
    actors: Vec<Script>,
    answers: Vec<Answer>,
) -> Machine
    ensures sources { result.sources ≡ sources.items }
    ensures actors { result.actors ≡ actors.items }
    ensures answers { result.answers ≡ answers.items }
{
    Machine {
        alarm_ms: 1000,
        cpus: 1,
        auto_cycles: 16,
        devices: ListOf::of_vec(Vec::new(alloc)),
        links: ListOf::of_vec(Vec::new(alloc)),
        syscore: ListOf::of_vec(Vec::new(alloc)),
        notifiers: ListOf::of_vec(Vec::new(alloc)),
        sources: ListOf::of_vec(sources),
        marks: ListOf::of_vec(Vec::new(alloc)),
        actors: ListOf::of_vec(actors),
        answers: ListOf::of_vec(answers),
    }
}

/// The one task of that name.
fn actors(alloc: Global, name: Name) -> Result<Vec<Script>, AllocError>
    ensures steps { IfOk result (λ actors. length (all_operations actors.items) ≡ 3) }
    ensures one { IfOk result (λ actors. length actors.items ≡ 1) }
{
    let task = script(alloc, name)?;
    Ok(vec![in alloc; task]?)
}

/// What the one device answers.
fn answers(alloc: Global) -> Result<Vec<Answer>, AllocError>
    ensures { IfOk result (λ answers. length answers.items ≡ 1) }
{
    let reported = answer(alloc)?;
    Ok(vec![in alloc; reported]?)
}

/// A machine with one source, a device that reports an event, and that task.
fn machine(alloc: Global, name: Name) -> Result<Machine, Mem>
    ensures steps { IfOk result (λ m. length (all_operations m.actors) ≡ 3) }
    ensures actors { IfOk result (λ m. length m.actors ≡ 1) }
    ensures answers { IfOk result (λ m. length m.answers ≡ 1) }
    ensures sources { IfOk result (λ m. length m.sources ≡ 1) }
{
    let sources = vec![in alloc; name]?;
    let Ok(actors) = actors(alloc, name) else {
        return Err(drop_for_mem(sources));
    };
    let Ok(answers) = answers(alloc) else {
        return Err(drop_for_mem((sources, actors)));
    };
    Ok(machine_with(alloc, sources, actors, answers))
}

/// Whether the jobs of that machine go as they should.
fn are_made(alloc: Global, machine: &Machine) -> Result<bool, Mem>
    requires steps { length (all_operations machine.now.actors) ≡ 3 }
    requires actors { length machine.now.actors ≡ 1 }
    requires answers { length machine.now.answers ≡ 1 }
    requires sources { length machine.now.sources ≡ 1 }
{
    let plans = MachinePlans::new(alloc, machine)?;
    let are_well = go_well(&plans);
    drop(plans);
    Ok(are_well)
}

/// Whether the jobs of these plans do.
fn go_well(plans: &MachinePlans<'_>) -> bool
    requires steps { length (all_operations plans.now.actors) ≡ 3 }
    requires actors { length plans.now.actors ≡ 1 }
    requires answers { length plans.now.answers ≡ 1 }
    requires sources { length plans.now.sources ≡ 1 }
{
    let mut job = ActorJob::of_script(plans, 0);
    let reports = reports_an_event(&mut job);
    let goes = goes_on(&mut job);
    reports && goes && work_reports(plans) && device_reports(plans)
}

/// A stamp with that tick.
fn stamp(tick: u64) -> Stamp {
    Stamp { pos: 0, tick }
}

/// The next call of a script, which is made, if it makes one.
fn call(job: &mut ActorJob<'_>) -> Option<(u32, SourceCall)>
    requires { job.old.calls < 100 }
    ensures turns { job.new.turns ≡ job.old.turns }
    ensures calls { job.new.calls ≤ job.old.calls + 1 }
{
    match job.next() {
        Want::Source(source, call) => {
            job.told_source(stamp(2));
            Some((source, call))
        }
        _ => None,
    }
}

/// The next turn of a script, which makes that entry. Whether it has one.
fn turn(job: &mut ActorJob<'_>, kind: Kind) -> bool
    requires { job.old.turns < 100 }
    ensures turns { job.new.turns ≤ job.old.turns + 1 }
    ensures calls { job.new.calls ≡ job.old.calls }
{
    match job.next() {
        Want::Core => {
            job.told_core(stamp(3), kind, 1);
            true
        }
        _ => false,
    }
}

/// Whether a script whose callback suspends device 0 reports an event before the callback ends.
fn reports_an_event(job: &mut ActorJob<'_>) -> bool
    requires turns { job.old.turns ≡ 0 }
    requires calls { job.old.calls ≡ 0 }
    ensures turns { job.new.turns ≤ 2 }
    ensures calls { job.new.calls ≤ 1 }
{
    let begun = turn(job, Kind::Begin(Phase::Suspend, 0));
    let owed = job.owes();
    let made = call(job);
    let owes = job.owes();
    let ended = turn(job, Kind::End(Phase::Suspend, 0, None));
    let is_event = matches!(made, Some((0, SourceCall::Event { ms: 0, hard: false })));
    begun && owed && !owes && ended && is_event
}

/// Whether a script reads the count, keeps the system awake, by source 1, while it sets autosleep, makes an
/// event and exits.
fn goes_on(job: &mut ActorJob<'_>) -> bool
    requires turns { job.old.turns ≤ 2 }
    requires calls { job.old.calls ≤ 1 }
{
    let read = turn(job, Kind::Read(0));
    let before = call(job);
    let set = turn(job, Kind::AutoSet(State::Mem));
    let after = call(job);
    let done = turn(job, Kind::AutoDone);
    let event = call(job);
    let exited = turn(job, Kind::Exit);
    let is_awake = matches!(before, Some((1, SourceCall::Awake)));
    let is_relaxed = matches!(after, Some((1, SourceCall::Relax)));
    let is_event = matches!(event, Some((0, SourceCall::Event { ms: 50, hard: true })));
    let at_end = job.calls() == 4 && matches!(job.next(), Want::Nothing);
    read && is_awake && set && is_relaxed && done && is_event && exited && at_end
}

/// Whoever makes a callback makes its reports. A good write to autosleep keeps the system awake while it is
/// set, by the source after the others. An operation that is a call makes it, and a script that has exited
/// does nothing.
#[test]
fn jobs_make_turns_and_calls(rt: HostRuntime) {
    let name = Name::of_bytes(b"a").expect(&rt, "a name");
    assert!(rt; jobs_go(rt.alloc(), name) == Ok(true));
}

/// Whether the jobs of a machine with a source and a task of that name go as they should.
fn jobs_go(alloc: Global, name: Name) -> Result<bool, Mem> {
    let machine = machine(alloc, name)?;
    let made = are_made(alloc, &machine);
    drop(machine);
    made
}

/// Whether the autosleep work that suspends device 0 reports an event.
fn work_reports(plans: &MachinePlans<'_>) -> bool {
    let mut work = ActorJob::of_auto(plans);
    work.told_core(stamp(3), Kind::Begin(Phase::Suspend, 0), 1);
    work.owes() && matches!(work.next(), Want::Source(0, _))
}

/// Whether device 0 that is suspended by its own thread does.
fn device_reports(plans: &MachinePlans<'_>) -> bool {
    let mut device = ActorJob::of_device(plans, 0);
    device.told_core(stamp(3), Kind::Begin(Phase::Suspend, 0), 1);
    device.owes() && matches!(device.next(), Want::Source(0, _))
}

/// A timer asks whether its source's event is over, counts its calls, and knows the later of two stamps.
#[test]
fn a_timer_ends_events(rt: HostRuntime) {
    let mut timer = TimerJob::new(3);
    assert!(rt; matches!(timer.next(), Want::Source(3, SourceCall::Expire)));
    timer.told_source(stamp(7));
    timer.raise(Stamp { pos: 4, tick: 5 });
    assert!(rt; timer.floor() == Stamp { pos: 4, tick: 7 } && timer.calls() == 1);
}
