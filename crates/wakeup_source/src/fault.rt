//! Why a call on a source is refused.
use std::alloc::AllocError;
use thiserror::Error;

/// Why a call on a source was refused.
#[derive(Clone, Copy, Debug, PartialEq, Eq, Error)]
pub enum SourceFault {
    /// Fewer than four places are left in its history.
    #[error("fewer than four places are left in the source's history")]
    Full,
    /// There was no memory for the history.
    #[error("out of memory")]
    Mem,
}

impl From<AllocError> for SourceFault {
    ghost use Rattle.wakeup_source.specs.declared.fault.SourceFault.TheVariants.{Mem};
    ghost use Rattle.std.specs.Prelude.{◌≡◌};

    ghost from_gives = { λ _ e. e ≡ Mem };

    fn from(_: AllocError) -> Self {
        SourceFault::Mem
    }
}
