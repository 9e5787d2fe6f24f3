//! Laws of every log of suspend-to-idle, and the law of the merge.

ghost use Rattle.idle_loop.specs.Laws.{LosesNone, SleepsOverNone};
ghost use Rattle.idle_loop.specs.Merging.{IdleMergesToLegal};

/// In every legal log, if the idler has entered, each waker that made a hard event in this session still owes
/// its wake (`kernel/power/suspend.c`, `s2idle_enter`, `s2idle_wake`).
#[tactic(auto, using(crate::proofs::Races::loses_none))]
pub fn no_wakeup_is_lost()
    ensures { LosesNone }
{}

/// A legal log that is over and ends in idle has no hard event since the last begin
/// (`kernel/power/suspend.c`, `s2idle_loop`).
#[tactic(auto, using(crate::proofs::Races::sleeps_over_none))]
pub fn no_hard_event_sleeps()
    ensures { SleepsOverNone }
{}

/// The merge of a journal and hard events is a legal log, if three facts hold. The journal is one of the gate
/// by itself; each waker makes its hard events and wakes in turn by the numbers that the wakes saw; and each
/// entry comes after as many hard events as it saw (`kernel/power/suspend.c`, `s2idle_enter`, `s2idle_wake`;
/// `drivers/base/power/wakeup.c`, `pm_system_wakeup`).
#[tactic(auto, using(crate::proofs::Merges::merges_to_legal))]
pub fn journal_and_hard_events_merge()
    ensures { IdleMergesToLegal }
{}
