//! What the walk of a phase on the way up does next, and what a device does.
ghost use Rattle.std.specs.Prelude.{◌≡◌};
ghost use Rattle.phase_resume.specs.Ups.{walk_up_due_on, scheduled_up_on, close_up_on};

use async_board::Board;
use sleep_model::{Due, Kind, Phase, Why};

/// What the walk of a phase on the way up does next while it is inside no callback
/// (`dpm_noirq_resume_devices`, `dpm_resume_early`, `dpm_resume`). First it schedules each asynchronous
/// device that the mirror phase suspended. Then it takes the synchronous ones from the first to the last,
/// each once all above it are up. It ends once all are up. It brings up no device that the mirror phase did
/// not suspend.
#[inline(always)]
pub fn walk_due(board: &Board, p: Phase) -> Due
    ensures { result ≡ walk_up_due_on board.now p }
{
    let down = p.mirror();
    if let Some(device) = board.next_to_schedule(down) {
        return Due::Makes(Kind::Schedule(p, device));
    }
    match board.next_up(down) {
        Some(device) => device_due(board, p, device),
        None => close(board, p),
    }
}

/// What a device does next that a phase on the way up has scheduled or taken
/// (`dpm_wait_for_superior`, `device_resume`): it waits for all above it, and then begins.
#[inline(always)]
pub fn device_due(board: &Board, p: Phase, device: u32) -> Due
    ensures { result ≡ scheduled_up_on board.now p device }
{
    match board.waits_above(p.mirror(), device) {
        Some(other) => Due::Waits(Why::Device(other)),
        None => Due::Makes(Kind::Begin(p, device)),
    }
}

/// The end of the walk, once all devices are up.
fn close(board: &Board, p: Phase) -> Due
    ensures { result ≡ close_up_on board.now p }
{
    match board.waits_up(p.mirror()) {
        Some(other) => Due::Waits(Why::Device(other)),
        None => Due::Makes(Kind::Done(p, None)),
    }
}
