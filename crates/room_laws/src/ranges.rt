//! The laws that numbers of the code are in the ranges of their fields.

ghost use Rattle.std.specs.Prelude.{◌≡◌, true};
ghost use Rattle.room_laws.specs.Ranged.{is_ranged};
ghost use Rattle.sleep_model.specs.Calls.{note};
ghost use Rattle.sleep_model.specs.Fits.{fits_stats, is_word64};

use sleep_model::{Kind, SourceCall, Stats};

/// The numbers of a kind of entry are in the ranges of their fields.
pub fn kinds_are_ranged(kind: Kind)
    ensures { is_ranged kind ≡ true }
{
    let _ = kind;
}

/// So are those of a source's statistics.
pub fn stats_are_ranged(stats: Stats)
    ensures { fits_stats stats ≡ true }
{
    let _ = stats;
}

/// So is a moment.
pub fn moments_are_ranged(time: u64)
    ensures { is_word64 time ≡ true }
{
    let _ = time;
}

/// So are those of the note of a call.
pub fn calls_are_ranged(source: u32, call: SourceCall)
    ensures { is_ranged (note source call) ≡ true }
{
    let _ = (source, call);
}
