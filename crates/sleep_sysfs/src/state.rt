//! Writes to the state and to autosleep (`state_store`, `autosleep_store`).

ghost use Rattle.std.specs.Prelude.{◌≡◌};
ghost use Rattle.sleep_model.specs.Steps.{state_due, autosleep_due};

use crate::count::wait_for_lock;
use sleep_base::Errno;
use sleep_model::{Due, Kind, State, Why};

/// A write to the state, whose text is `mem` or not, and whose attempt would be that. Another holds the lock
/// or not, autosleep is on or not, and the task waits already or not, and is asked to freeze or not
/// (`state_store`).
pub fn write_state(held: bool, on: bool, waits: bool, asked: bool, mem: bool, attempt: Kind) -> Due
    ensures { result ≡ state_due held on waits asked mem attempt }
{
    if held {
        let says = Due::Makes(Kind::StateWait);
        let gives_up = Due::Makes(Kind::StateErr(Errno::EINTR));
        wait_for_lock(waits, asked, says, gives_up)
    } else if on {
        Due::Makes(Kind::StateErr(Errno::EBUSY))
    } else if mem {
        Due::Makes(attempt)
    } else {
        Due::Makes(Kind::StateErr(Errno::EINVAL))
    }
}

/// A write to autosleep that has begun already or not, and whose text is `mem`, or is `off`. It waits for the
/// lock, and is not interrupted (`autosleep_store`, `pm_autosleep_set_state`).
pub fn write_autosleep(held: bool, begun: bool, mem: bool, off: bool) -> Due
    ensures { result ≡ autosleep_due held begun mem off }
{
    if !(mem || off) {
        Due::Makes(Kind::AutoBad)
    } else if begun {
        Due::Makes(Kind::AutoDone)
    } else if held {
        Due::Waits(Why::LockHeld)
    } else if mem {
        Due::Makes(Kind::AutoSet(State::Mem))
    } else {
        Due::Makes(Kind::AutoSet(State::Off))
    }
}
