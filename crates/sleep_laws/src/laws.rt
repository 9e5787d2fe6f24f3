//! The laws of the journal: what holds at each entry of every legal journal, of whatever machine. Only the
//! journal's part of legality is asked for, so they hold of the journal of each legal log, whatever the
//! wakeup sources did meanwhile.

ghost use Rattle.sleep_laws.specs.Laws.{HoldsAtEntries, HoldsOfAll, HoldsOfJournals};
ghost use Rattle.sleep_model.specs.Guard.{count_effect};
ghost use Rattle.sleep_model.specs.Laws.{DependentsFirst, SuppliersFirst, Restored, Owed, TakenOnce, NotOwedAlready, EntersDown, UndisturbedEnters, AnswersFailure, FoundPending, InOrder, Laws};
ghost use Rattle.sleep_model.specs.EntryClasses.{journal};

/// A device begins to go down in a phase only if all below it, its children and its consumers, are
/// down in that phase or were direct-complete (`drivers/base/power/main.c`, `dpm_wait_for_subordinate`).
#[tactic(auto, using(crate::proofs::DeviceLaws::dependents_first))]
pub fn dependents_first()
    ensures { HoldsAtEntries (λ m past e. DependentsFirst m past e.kind) }
{}

/// A device begins to come up in a phase only if none above it, its parent and its suppliers, is
/// still down in that phase or inside a callback (`drivers/base/power/main.c`,
/// `dpm_wait_for_superior`).
#[tactic(auto, using(crate::proofs::DeviceLaws::suppliers_first))]
pub fn suppliers_first()
    ensures { HoldsAtEntries (λ m past e. SuppliersFirst m past e.kind) }
{}

/// Once an attempt is over, entered or failed at whatever step, nothing is owed. No notifier, task, device,
/// processor, interrupt, syscore operation nor step of the platform is left as the attempt put it, and the
/// machine is awake (`kernel/power/suspend.c`, `suspend_devices_and_enter`, `suspend_finish`).
#[tactic(auto, using(crate::proofs::DeviceLaws::all_restored))]
pub fn restored()
    ensures { HoldsAtEntries (λ m past e. Restored m past e.kind) }
{}

/// Only what is owed is undone, so that each is made once. On the way up a device is scheduled only if it is
/// down, begins only if it is down or was scheduled, and ends only inside its callback. It is completed only
/// if it is prepared and, in each of the three pairs of phases, neither down nor on its way. A notifier is
/// posted to only if it was notified. A processor, a syscore operation, interrupts and a step of the platform
/// are undone only if they were done. The machine wakes only if it sleeps (`drivers/base/power/main.c`,
/// `dpm_resume`, `device_resume`, `device_complete`; `kernel/power/suspend.c`, `suspend_enter`,
/// `suspend_finish`).
#[tactic(auto, using(crate::proofs::DeviceLaws::all_owed))]
pub fn undo_only_what_is_owed()
    ensures { HoldsAtEntries (λ m past e. Owed m past e.kind) }
{}

/// A device is prepared only if it is not. Each phase on the way down schedules it only if it has not taken
/// it, begins or skips it only if it is prepared or was scheduled there, and ends it only inside its callback
/// (`drivers/base/power/main.c`, `dpm_prepare`, `dpm_suspend`, `__device_suspend`).
#[tactic(auto, using(crate::proofs::Once::taken_once))]
pub fn devices_are_taken_once()
    ensures { HoldsAtEntries (λ m past e. TakenOnce m past e.kind) }
{}

/// Nothing is done whose undo is owed already: the call of a notifier, a step of the platform, the stop of a
/// processor, interrupts turned off, the suspend of a syscore operation, the entering of sleep
/// (`kernel/power/suspend.c`, `platform_suspend_begin`, `suspend_enter`; `kernel/cpu.c`,
/// `freeze_secondary_cpus`; `drivers/base/syscore.c`, `syscore_suspend`).
#[tactic(auto, using(crate::proofs::Once::not_owed_already))]
pub fn nothing_is_owed_twice()
    ensures { HoldsAtEntries (λ m past e. NotOwedAlready m past e.kind) }
{}

/// The machine enters sleep only if all is down that sleep wants down. Each device is down in suspend, in
/// late and in noirq, or direct-complete. Each user task and each kernel thread, but who makes the attempt,
/// is frozen or has exited. The platform's three steps are done, the other processors and interrupts are off,
/// and each syscore operation is suspended (`kernel/power/suspend.c`, `suspend_enter`;
/// `kernel/power/process.c`, `freeze_processes`, `freeze_kernel_threads`).
#[tactic(auto, using(crate::proofs::DeviceLaws::all_down))]
pub fn enters_only_with_all_down()
    ensures { HoldsAtEntries (λ m past e. EntersDown m past e.kind) }
{}

/// An attempt in which no test found a wakeup pending and no step failed has entered sleep, and
/// answers 0 (`kernel/power/suspend.c`, `suspend_enter`).
#[tactic(auto, using(crate::proofs::Answering::undisturbed_enters))]
pub fn undisturbed_attempts_enter()
    ensures { HoldsAtEntries (λ m past e. UndisturbedEnters past e.kind) }
{}

/// An attempt answers the error of the step that failed, and 0 exactly if it has entered
/// (`kernel/power/suspend.c`, `enter_state`).
#[tactic(auto, using(crate::proofs::Answering::answers_failure))]
pub fn attempts_answer_their_failure()
    ensures { HoldsAtEntries (λ m past e. AnswersFailure past e.kind) }
{}

/// A test that found a wakeup is made only if one is pending at the word that it saw
/// (`drivers/base/power/wakeup.c`, `pm_wakeup_pending`).
#[tactic(auto, using(crate::proofs::Owing::found_pending))]
pub fn found_tests_are_true()
    ensures { HoldsAtEntries (λ m past e. FoundPending past e.now (count_effect e.kind)) }
{}

/// Each actor's entries outside attempts of its own are its own steps, once and in order. A script's are of
/// its operation under way, and none comes after its exit. The autosleep work's follow its course. An
/// asynchronous device's are of the phase that it was scheduled in (`kernel/power/main.c`,
/// `kernel/power/autosleep.c`, `drivers/base/power/main.c`, `dpm_async_fn`); jumps are made by time.
#[tactic(auto, using(crate::proofs::Stepping::in_order))]
pub fn steps_once_and_in_order()
    ensures { HoldsAtEntries (λ m past e. InOrder m past e.actor e.kind) }
{}

/// All laws of the journal hold at each entry of every legal journal, of whatever machine.
#[tactic(auto, using(crate::proofs::Lawful::laws))]
pub fn all_laws()
    ensures { HoldsOfJournals Laws }
{}

/// All laws of the journal hold of the journal of every legal log, of whatever machine.
#[tactic(auto, using(crate::proofs::Lawful::laws_of_legal))]
pub fn all_laws_of_logs()
    ensures { HoldsOfAll (λ m past. Laws m (journal past)) }
{}
