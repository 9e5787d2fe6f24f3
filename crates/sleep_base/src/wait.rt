//! A wait without end, unless a condition holds.
ghost use Rattle.std.specs.Prelude.{◌≡◌, true};

use std::sync::Wait;

/// Waits for ever unless that holds.
pub fn wait_unless<R: Wait>(rt: &R, holds: bool)
    ensures { holds ≡ true }
{
    if holds {
        return;
    }
    for _ in rt.forever() {}
    unreachable!()
}
