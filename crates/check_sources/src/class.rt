//! Whose entry a kind is: the checker's one table of kinds.

ghost use Rattle.std.specs.Prelude.{◌≡◌};
ghost use Rattle.sleep_model.specs.EntryClasses.{class_of};
ghost use Rattle.check_sources.specs.Classes.{meant};

use sleep_model::{Kind, SourceCall, WordKind};

/// Whose entry it is.
#[derive(Clone, Copy)]
pub enum EntryClass {
    /// The journal's own.
    Journal,
    /// The note of a call on that source.
    Note(u32, SourceCall),
    /// A step of that source on the word.
    Step(u32, WordKind),
    /// A jump of time.
    Jump,
}

/// Whose entry a kind is. Each kind has its line here, so that a new one has to be given its own.
#[inline(always)]
pub fn class_of(kind: Kind) -> EntryClass
    ensures { meant result ≡ class_of kind }
{
    match kind {
        Kind::Awake(source) => EntryClass::Note(source, SourceCall::Awake),
        Kind::Relax(source) => EntryClass::Note(source, SourceCall::Relax),
        Kind::Event { source, ms, hard } => {
            EntryClass::Note(source, SourceCall::Event { ms, hard })
        }
        Kind::Expire(source) => EntryClass::Note(source, SourceCall::Expire),
        Kind::Start(source) => EntryClass::Step(source, WordKind::Start),
        Kind::Finish(source) => EntryClass::Step(source, WordKind::Finish),
        Kind::Hard(source) => EntryClass::Step(source, WordKind::Hard),
        Kind::Jump => EntryClass::Jump,
        Kind::Frozen
        | Kind::ReadWait
        | Kind::Read(_)
        | Kind::ReadIntr
        | Kind::SaveWait(_)
        | Kind::Saved(_)
        | Kind::SaveErr(..)
        | Kind::StateWait
        | Kind::StateErr(_)
        | Kind::StateUnsaved
        | Kind::AutoBad
        | Kind::AutoSet(_)
        | Kind::AutoDone
        | Kind::Sleep(_)
        | Kind::SleepD(_)
        | Kind::Slept
        | Kind::Pass
        | Kind::Post(_)
        | Kind::Got(_)
        | Kind::Exit
        | Kind::RuntimeAsk { .. }
        | Kind::LinkAdd { .. }
        | Kind::LinkState { .. }
        | Kind::AutoRun
        | Kind::AutoSaved(_)
        | Kind::AutoUnsaved(_)
        | Kind::AutoAfter(_)
        | Kind::AutoAgain
        | Kind::AutoOff
        | Kind::Attempt { .. }
        | Kind::Over { .. }
        | Kind::NotifyPrepare(..)
        | Kind::NotifyPost(_)
        | Kind::Freeze(_)
        | Kind::Froze(..)
        | Kind::Thaw(_)
        | Kind::PlatformDo(..)
        | Kind::PlatformUndo(_)
        | Kind::Prepare { .. }
        | Kind::Complete(_)
        | Kind::Schedule(..)
        | Kind::Begin(..)
        | Kind::End(..)
        | Kind::Skip(..)
        | Kind::Done(..)
        | Kind::CpuOff(_)
        | Kind::CpuBusy(_)
        | Kind::CpuOn(_)
        | Kind::Irqs { .. }
        | Kind::SyscoreCheck(_)
        | Kind::SyscoreSuspend(..)
        | Kind::SyscoreResume(_)
        | Kind::Enter { .. }
        | Kind::Wake { .. }
        | Kind::Clear => EntryClass::Journal,
    }
}
