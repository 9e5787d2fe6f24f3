//! Requests for a runtime status (`drivers/base/power/runtime.c`).

ghost use Rattle.std.specs.Prelude.{◌≡◌};
ghost use Rattle.sleep_model.specs.Runtime.{runtime_answer};
ghost use Rattle.phase_suspend.specs.Spanned.{runtime_due_on};

use async_board::{Board, is_direct_complete, is_prepared, is_taken};
use sleep_base::Errno;
use sleep_model::Phase;

/// The answer to a request that a device be runtime suspended, or active. It is `EACCES` exactly if its
/// runtime PM is disabled, else `EAGAIN` exactly if it is prepared and is to be suspended, else 0
/// (`__pm_runtime_set_status`, `rpm_check_suspend_allowed`).
///
/// Runtime PM of a device that is direct-complete is disabled if `disabled_by_direct` says that resume is not
/// done since. That of one that late has taken is disabled if `disabled_by_late` says that early is not done
/// since.
pub fn runtime_due(
    board: &Board,
    disabled_by_direct: bool,
    disabled_by_late: bool,
    device: u32,
    to_suspended: bool,
) -> Option<Errno>
    ensures { result ≡ runtime_due_on board.now disabled_by_direct disabled_by_late device to_suspended }
{
    let state = board.state(Phase::Suspend, device);
    let is_off = (disabled_by_direct && is_direct_complete(state))
        || (disabled_by_late && is_taken(board.state(Phase::Late, device)));
    if is_off {
        Some(Errno::EACCES)
    } else if is_prepared(state) && to_suspended {
        Some(Errno::EAGAIN)
    } else {
        None
    }
}
