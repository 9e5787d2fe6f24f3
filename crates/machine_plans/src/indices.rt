//! The index of the first answer of each thing and attempt.

ghost use Rattle.std.specs.Prelude.{◌≡◌, ◌<◌, ◌^◌, length, IfOk};
ghost use Rattle.indexmap.specs.IndexMap.{get};
ghost use Rattle.machine_plans.specs.Keys.{IsIndexed};

use crate::key::{Key, key_of};
use indexmap::IndexMap;
use sleep_base::Mem;
use sleep_model::Answer;
use std::alloc::Global;

/// The index of the first answer of each thing and attempt, from the last answer on.
pub(crate) fn first_indices(alloc: Global, answers: &[Answer]) -> Result<IndexMap<Key, u32>, Mem>
    requires { length answers.now < 2 ^ 32 }
    ensures { IfOk result (λ indices. IsIndexed answers.now (get ⟦<Key as PartialEq>⟧.eq indices)) }
{
    let mut indices = IndexMap::new(alloc);
    for i in (0..answers.len()).rev() {
        let answer = &answers[i];
        indices.insert(key_of(answer.what, answer.attempt), i as u32)?;
    }
    Ok(indices)
}
