//! The law of the saved count, over every legal list of entries.

ghost use Rattle.std.specs.Prelude.{◌≤◌, length};
ghost use Rattle.sleep_model.specs.Laws.{GuardedSleep};
ghost use Rattle.sleep_laws.specs.Laws.{HoldsOfAll};

/// An attempt under a saved count enters only if no step of the word was made since that count was read, and
/// no event is in progress, on each machine of at most 255 sources. So many sources register too few events
/// for the count which user space sees to come round (`drivers/base/power/wakeup.c`, `pm_save_wakeup_count`,
/// `pm_wakeup_pending`).
#[tactic(auto, using(crate::proofs::GuardInForce::guarded_sleeps))]
pub fn guarded_sleep()
    ensures { HoldsOfAll (λ m past. length m.sources ≤ 255 → GuardedSleep past) }
{}
