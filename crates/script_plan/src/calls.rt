//! The calls on sources that a script's own steps make.

ghost use Rattle.std.specs.Prelude.{◌≡◌, ◌<◌, ◌≤◌, ◌++◌, length, slice_range, OnOk, IfOk, All};
ghost use Rattle.script_plan.specs.CallPlans.{calls_made_by, calls_made};
ghost use Rattle.script_plan.specs.Plans.{ops_of};

use crate::plan::op_at;
use crate::texts::is_autosleep_text;
use sleep_base::Mem;
use sleep_model::{Op, Report, SourceCall, Step};
use std::alloc::Global;

/// A call on that source.
fn call_on(source: u32, call: SourceCall) -> Report
    ensures { result ≡ record { source = source; call = call } }
{
    Report { source, call }
}

/// The calls that an operation makes, if autosleep has that source: a good write keeps the system awake while
/// autosleep is set (`pm_autosleep_set_state`).
fn push_calls(calls: &mut Vec<Report>, autosleep: u32, op: &Op) -> Result<(), Mem>
    ensures { OnOk result (calls.new.items ≡ calls.old.items ++ calls_made_by autosleep op.now) }
{
    match op {
        Op::Awake { source } => calls.push(call_on(*source, SourceCall::Awake))?,
        Op::Relax { source } => calls.push(call_on(*source, SourceCall::Relax))?,
        Op::Event { source, ms, hard } => {
            let (ms, hard) = (*ms, *hard);
            calls.push(call_on(*source, SourceCall::Event { ms, hard }))?;
        }
        Op::Autosleep { text } if is_autosleep_text(text.as_slice()) => {
            calls.push(call_on(autosleep, SourceCall::Awake))?;
            calls.push(call_on(autosleep, SourceCall::Relax))?;
        }
        _ => {}
    }
    Ok(())
}

/// The calls of the operations at these indices.
pub(crate) fn calls_of(
    alloc: Global,
    autosleep: u32,
    steps: &[Step],
    places: &[usize],
) -> Result<Vec<Report>, Mem>
    requires { All (λ at. at < length steps.now) places.now }
    ensures { IfOk result (λ v. v.items ≡ calls_made autosleep (ops_of steps.now places.now)) }
{
    let mut calls = Vec::new(alloc);
    for at in places {
        push_calls(&mut calls, autosleep, op_at(steps, *at))?;
    }
    Ok(calls)
}

/// Those of the calls from one number up to another.
pub(crate) fn calls_between(calls: &[Report], from: usize, to: usize) -> &[Report]
    requires in_order { from ≤ to }
    requires within { to ≤ length calls.now }
    ensures { result.now ≡ slice_range calls.now from to }
{
    &calls[from..to]
}
