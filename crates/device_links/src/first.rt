//! Which of two devices comes first in an order.

ghost use Rattle.std.specs.Bool.{OnTrue};
ghost use Rattle.device_links.specs.Moves.{Precedes};

/// Whether one device comes in an order before the other, if it is there at all. What comes before a device
/// does not depend on it, so this often spares a walk.
pub(crate) fn precedes(order: &[u32], one: u32, other: u32) -> bool
    ensures { OnTrue result (Precedes order.now one other) }
{
    for device in order {
        if *device == other {
            return false;
        }
        if *device == one {
            return true;
        }
    }
    false
}
