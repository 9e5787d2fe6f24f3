//! What the phases make on a board: prepare and complete, the walks down and up, a device on its way, a
//! request.

use crate::asked::Words;
use crate::boards::BoardCase;
use crate::reply::ReplyWord;
use async_board::Board;
use device_rows::Flags;
use phase_prepare::{complete_due, prepare_due};
use phase_resume::{device_due, walk_due};
use phase_suspend::{Down, DownEnv, runtime_due};
use sleep_base::Errno;
use sleep_model::Due;

// There is no error.
const FINE: Down = Down {
    async_error: None,
    error: None,
};

// A device's error, and a synchronous one's before it.
const FAILED: Down = Down {
    async_error: Some(Errno::EBUSY),
    error: Some(Errno::EIO),
};

/// What is asked: prepare with a phase's error, complete, the walk down and a device there, the walk up and a
/// device there. On the way down devices ask for direct-complete, and a wakeup is pending; then there are
/// errors, too.
#[derive(Clone, Copy)]
pub enum DueCall {
    Prepare,
    Complete,
    WalkDown,
    DeviceDown,
    FailedWalkDown,
    FailedDeviceDown,
    WalkUp,
    DeviceUp,
}

/// What a walk down looks at: flags of devices that ask for direct-complete and are runtime suspended; none
/// is a source of wakeup.
fn env_of<'a>(case: &'a BoardCase, asks: &'a Flags, pending: bool) -> DownEnv<'a> {
    DownEnv {
        board: &case.board,
        asks_direct: asks,
        runtime_suspended: asks,
        may_wakeup: &case.none,
        wakeup_pending: pending,
    }
}

/// What is due of a board.
pub fn due_of(case: &BoardCase, call: DueCall, words: Words) -> Due {
    let (board, none) = (&case.board, &case.none);
    let (phase, device) = (words.phase(0), words.number(1));
    let asks = if words.flag(1) { &case.all } else { none };
    match call {
        DueCall::Prepare => prepare_due(board, words.error(0), 1),
        DueCall::Complete => complete_due(board),
        DueCall::WalkDown => FINE.walk_due(&env_of(case, asks, words.flag(2)), phase),
        DueCall::DeviceDown => FINE.device_due(&env_of(case, none, false), phase, device),
        DueCall::FailedWalkDown => FAILED.walk_due(&env_of(case, none, true), phase),
        DueCall::FailedDeviceDown => FAILED.device_due(&env_of(case, none, true), phase, device),
        DueCall::WalkUp => walk_due(board, phase),
        DueCall::DeviceUp => device_due(board, phase, device),
    }
}

/// The answer to a device's request to be suspended or resumed, if runtime PM is disabled by direct-complete
/// and by late.
pub fn request_word(board: &Board, words: Words) -> ReplyWord {
    let (device, to_suspended) = (words.number(0), words.flag(3));
    ReplyWord::Error(runtime_due(board, words.flag(1), words.flag(2), device, to_suspended))
}
