//! Whether two things are the same.

ghost use Rattle.std.specs.Prelude.{◌≡◌, ◌↔◌, ◌&&◌, ◌||◌, not, IsTrue, Some};
ghost use Rattle.sleep_model.specs.declared.progress.Due.TheVariants.{Makes};

use crate::kinds::is_kind;
use phase_table::Phase;
use sleep_base::Errno;
use sleep_model::{Due, Kind};

/// Whether that entry is due.
pub(crate) fn makes(due: Due, kind: Kind) -> bool
    ensures { IsTrue result ↔ (due ≡ Makes kind) }
{
    match due {
        Due::Makes(made) => is_kind(made, kind),
        _ => false,
    }
}

/// Whether both are the same answer.
pub(crate) fn is_answer(r: Option<Errno>, wanted: Option<Errno>) -> bool
    ensures { IsTrue result ↔ (r ≡ wanted) }
{
    r == wanted
}

/// Whether there is a number, and it is this.
pub(crate) fn is_number(number: Option<u32>, wanted: u32) -> bool
    ensures { IsTrue result ↔ (number ≡ Some wanted) }
{
    match number {
        None => false,
        Some(number) => number == wanted,
    }
}

/// Whether both are the same number, or none.
pub(crate) fn is_same_number(number: Option<u32>, wanted: Option<u32>) -> bool
    ensures { IsTrue result ↔ (number ≡ wanted) }
{
    match (number, wanted) {
        (None, None) => true,
        (Some(number), Some(wanted)) => number == wanted,
        _ => false,
    }
}

/// Whether both are the same phase.
pub(crate) fn is_phase(phase: Phase, wanted: Phase) -> bool
    ensures { IsTrue result ↔ (phase ≡ wanted) }
{
    phase == wanted
}

/// Whether there is a moment, and it is this.
pub(crate) fn is_time(moment: Option<u64>, wanted: u64) -> bool
    ensures { IsTrue result ↔ (moment ≡ Some wanted) }
{
    match moment {
        None => false,
        Some(moment) => moment == wanted,
    }
}

/// Whether one of two is so.
pub(crate) fn either(one: bool, other: bool) -> bool
    ensures { result ≡ (one || other) }
{
    one || other
}

/// Whether both are so.
pub(crate) fn both(one: bool, other: bool) -> bool
    ensures { result ≡ (one && other) }
{
    one && other
}

/// Whether the second is so, and the first is not.
pub(crate) fn without(one: bool, other: bool) -> bool
    ensures { result ≡ (not one && other) }
{
    !one && other
}
