//! The steps of a script, one after the other, each by the index of its operation in the script's list.

ghost use Rattle.std.specs.Prelude.{◌≡◌, ◌≤◌, ◌<◌, ◌+◌, ◌^◌, ◌++◌, length, replicate, OnOk, IfOk};
ghost use Rattle.sleep_model.specs.Scripts.{times_over};
ghost use Rattle.script_plan.specs.Plans.{round_from, expanded};

use sleep_base::Mem;
use sleep_model::{Script, Step};
use std::alloc::Global;

/// The same index so often more.
fn add_times(places: &mut Vec<usize>, at: usize, times: u32) -> Result<(), Mem>
    ensures { OnOk result (places.new.items ≡ places.old.items ++ replicate times at) }
{
    let len = places.len() + times as usize;
    places.resize(len, at)?;
    Ok(())
}

/// The steps made once.
fn add_round(places: &mut Vec<usize>, steps: &[Step]) -> Result<(), Mem>
    ensures { OnOk result (places.new.items ≡ places.old.items ++ round_from 0 steps.now) }
{
    for (at, step) in steps.iter().enumerate() {
        add_times(places, at, step.times)?;
    }
    Ok(())
}

/// All steps of a script, as often as it makes them. `Mem` if there is no memory.
pub(crate) fn expand(alloc: Global, script: &Script) -> Result<Vec<usize>, Mem>
    ensures { IfOk result (λ v. v.items ≡ expanded script.now) }
{
    let mut places = Vec::new(alloc);
    for _ in 0..script.repeat {
        add_round(&mut places, script.steps.as_slice())?;
    }
    Ok(places)
}
