//! What prepare and complete do next.
ghost use Rattle.std.specs.Prelude.{◌≡◌};
ghost use Rattle.phase_prepare.specs.Prepares.{prepare_due_on, complete_due_on};

use async_board::Board;
use sleep_base::Errno;
use sleep_model::{Due, Kind, Phase};

/// What prepare does next (`dpm_prepare`). It goes forward through the order, over the devices that are not
/// prepared, and ends at an error, or if no device is left. `r` is what the next device's callback answers:
/// 0, 1, or an error as a negative number.
pub fn prepare_due(board: &Board, failed: Option<Errno>, r: i32) -> Due
    ensures { result ≡ prepare_due_on board.now r failed }
{
    match (failed, board.next_prepared()) {
        (None, Some(device)) => Due::Makes(Kind::Prepare { device, r }),
        _ => Due::Makes(Kind::Done(Phase::Prepare, failed)),
    }
}

/// What complete does next (`dpm_complete`). It goes backward through the order, over the devices that are
/// prepared, and ends if none is left.
pub fn complete_due(board: &Board) -> Due
    ensures { result ≡ complete_due_on board.now }
{
    match board.next_completed() {
        Some(device) => Due::Makes(Kind::Complete(device)),
        None => Due::Makes(Kind::Done(Phase::Complete, None)),
    }
}
