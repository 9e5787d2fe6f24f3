//! The law of runs that can go no further.

ghost use Rattle.sleep_laws.specs.Ends.{IdleMeansClosed, AllEndClosed};

/// If nobody can make anything and no moment is pending no attempt is open, on each machine whose devices are
/// registered after their parents and whose links may be added in turn. Each walk over devices goes on until
/// it is done (`drivers/base/power/main.c`, `dpm_wait_for_subordinate`, `dpm_wait_for_superior`).
#[tactic(auto, using(crate::proofs::Closing::closed_if_idle))]
pub fn idle_means_closed()
    ensures { IdleMeansClosed }
{}

/// No attempt is open at the end of a legal log of an accepted machine, whether it is finished or
/// stuck (`kernel/power/suspend.c`, `system_transition_mutex`).
#[tactic(auto, using(crate::proofs::Closing::ends_closed))]
pub fn attempts_end_closed()
    ensures { AllEndClosed }
{}
