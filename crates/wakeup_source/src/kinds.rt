//! The kinds of entries of a source's call.
ghost use Rattle.std.specs.Prelude.{◌≡◌};
ghost use Rattle.sleep_model.specs.Calls.{note};
ghost use Rattle.wakeup_source.specs.SourceStates.{step_kind};

use sleep_model::{Kind, SourceCall, WordKind};

/// What a source writes of a call.
#[inline(always)]
pub(crate) fn note_of(source: u32, call: SourceCall) -> Kind
    ensures { result ≡ note source call }
{
    match call {
        SourceCall::Awake => Kind::Awake(source),
        SourceCall::Relax => Kind::Relax(source),
        SourceCall::Event { ms, hard } => Kind::Event { source, ms, hard },
        SourceCall::Expire => Kind::Expire(source),
    }
}

/// What a source writes of a step on the word.
#[inline(always)]
pub(crate) fn step_of(source: u32, step: WordKind) -> Kind
    ensures { result ≡ step_kind source step }
{
    match step {
        WordKind::Start => Kind::Start(source),
        WordKind::Finish => Kind::Finish(source),
        WordKind::Hard => Kind::Hard(source),
    }
}
