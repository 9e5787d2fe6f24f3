//! The order of the stages of an attempt, and where each leads if it fails (`enter_state`,
//! `suspend_devices_and_enter`, `suspend_enter`). This is the definition `row` of `sleep_model`, in Rust. An
//! attempt is one try to suspend, a call of `enter_state`. The journal lists the steps of a machine, each as
//! one entry. `PlatDo` is a step of `suspend_ops` on the way down, `PlatUndo` one on the way up.

ghost use Rattle.std.specs.Prelude.{◌≡◌};
ghost use Rattle.sleep_model.specs.Table.{next_stage, by_case, after_failure};

use sleep_model::{Group, Phase, PlatDo, PlatUndo, Stage, Thaw};

/// Picks a column of the table of an attempt: `next` is what follows a stage, `failed` is the stage that its
/// failure leads to. Both are the same if a stage does not fail, or if its failure does not change what
/// follows. It is a macro so that each row stands once, with both columns, and each function matches over one
/// of them.
macro_rules! table {
    (@next $from:expr; $($stage:pat => $next:expr, $failed:expr;)*) => {
        match $from { $($stage => $next,)* }
    };
    (@failed $from:expr; $($stage:pat => $next:expr, $failed:expr;)*) => {
        match $from { $($stage => $failed,)* }
    };
    ($column:ident of $from:expr) => {
        table! { @$column $from;
            Stage::Notifies => Stage::Freezes(Group::User), Stage::NotifiesPost;
            Stage::Freezes(Group::User) => Stage::Freezes(Group::Kernel), Stage::Thaws(Thaw::All);
            Stage::Freezes(Group::Kernel) => Stage::PlatformDo(PlatDo::Begin), Stage::Thaws(Thaw::Kernel);
            Stage::PlatformDo(PlatDo::Begin) => Stage::Prepares, Stage::PlatformUndo(PlatUndo::End);
            Stage::Prepares => Stage::Downs(Phase::Suspend), Stage::PlatformUndo(PlatUndo::Recover);
            Stage::Downs(Phase::Suspend) => Stage::PlatformDo(PlatDo::Prepare), Stage::PlatformUndo(PlatUndo::Recover);
            Stage::PlatformDo(PlatDo::Prepare) => Stage::Downs(Phase::Late), Stage::PlatformUndo(PlatUndo::Finish);
            Stage::Downs(Phase::Late) => Stage::Downs(Phase::Noirq), Stage::Ups(Phase::Early);
            Stage::Downs(Phase::Noirq) => Stage::PlatformDo(PlatDo::PrepareLate), Stage::Ups(Phase::ResumeNoirq);
            Stage::PlatformDo(PlatDo::PrepareLate) => Stage::StopsCpus, Stage::PlatformUndo(PlatUndo::Wake);
            Stage::StopsCpus => Stage::StopsIrqs, Stage::StartsCpus;
            Stage::StopsIrqs => Stage::ChecksWakeup, Stage::ChecksWakeup;
            Stage::ChecksWakeup => Stage::StopsSyscore, Stage::StartsIrqs;
            Stage::StopsSyscore => Stage::Enters, Stage::StartsSyscore;
            Stage::Enters => Stage::StartsSyscore, Stage::StartsSyscore;
            Stage::StartsSyscore => Stage::StartsIrqs, Stage::StartsIrqs;
            Stage::StartsIrqs => Stage::StartsCpus, Stage::StartsCpus;
            Stage::StartsCpus => Stage::PlatformUndo(PlatUndo::Wake), Stage::PlatformUndo(PlatUndo::Wake);
            Stage::PlatformUndo(PlatUndo::Wake) => Stage::Ups(Phase::ResumeNoirq), Stage::Ups(Phase::ResumeNoirq);
            Stage::Ups(Phase::ResumeNoirq) => Stage::Ups(Phase::Early), Stage::Ups(Phase::Early);
            Stage::Ups(Phase::Early) => Stage::PlatformUndo(PlatUndo::Finish), Stage::PlatformUndo(PlatUndo::Finish);
            Stage::PlatformUndo(PlatUndo::Finish) => Stage::Ups(Phase::Resume), Stage::Ups(Phase::Resume);
            Stage::PlatformUndo(PlatUndo::Recover) => Stage::Ups(Phase::Resume), Stage::Ups(Phase::Resume);
            Stage::Ups(Phase::Resume) => Stage::Completes, Stage::Completes;
            Stage::Completes => Stage::PlatformUndo(PlatUndo::End), Stage::PlatformUndo(PlatUndo::End);
            Stage::PlatformUndo(PlatUndo::End) => Stage::ClearsEventsCheck, Stage::ClearsEventsCheck;
            Stage::ClearsEventsCheck => Stage::Thaws(Thaw::All), Stage::Thaws(Thaw::All);
            Stage::Thaws(Thaw::Kernel) => Stage::Thaws(Thaw::All), Stage::Thaws(Thaw::All);
            Stage::Thaws(Thaw::All) => Stage::NotifiesPost, Stage::NotifiesPost;
            Stage::NotifiesPost => Stage::Ends, Stage::Ends;
            Stage::Ends => Stage::Ends, Stage::Ends;
            // No attempt comes to these two rows: the way down has three phases, and so has the way up. They
            // are here since the match has to be total. The definition `row` says who reads the row of
            // `Downs(_)`. There `Ups _` is the row of Resume, which has a row of its own here.
            Stage::Downs(_) => Stage::PlatformDo(PlatDo::PrepareLate), Stage::PlatformUndo(PlatUndo::Recover);
            Stage::Ups(_) => Stage::Completes, Stage::Completes;
        }
    };
}

/// The stage that follows a stage, if nothing fails.
pub fn next_stage(stage: Stage) -> Stage
    ensures { result ≡ next_stage stage }
{
    table!(next of stage)
}

/// The stage that follows a stage that failed.
pub(crate) fn after_failure(stage: Stage) -> Stage
    ensures { result ≡ after_failure stage }
{
    table!(failed of stage)
}

/// The stage after one that is over: the next, or, if it `fails`, the one that its failure leads to. For an
/// entry of the journal that ends a stage, `stage_after` (`path.rt`) calls this.
pub(crate) fn after_stage(stage: Stage, fails: bool) -> Stage
    ensures { result ≡ by_case fails (after_failure stage) (next_stage stage) }
{
    if fails {
        after_failure(stage)
    } else {
        next_stage(stage)
    }
}

/// The stage after one of several entries of a stage, such as one notifier's. It is the same stage, or, if
/// the step that the entry records `fails`, the one that the stage's failure leads to.
pub(crate) fn within_stage(stage: Stage, fails: bool) -> Stage
    ensures { result ≡ by_case fails (after_failure stage) stage }
{
    if fails { after_failure(stage) } else { stage }
}
