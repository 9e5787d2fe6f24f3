//! Requests for a device's runtime status.

ghost use Rattle.std.specs.Prelude.{◌≡◌};
ghost use Rattle.device_tree.specs.Requests.{request_answer, request_after, request_result};

use sleep_base::Errno;
use sleep_model::Runtime;

/// Asks for a device's runtime status, suspended or active (`__pm_runtime_set_status`).
///
/// The errors, in this order: `EACCES` exactly if runtime PM of the device is disabled, `EAGAIN` exactly if
/// it is prepared and is to be suspended. After each the device is as before.
pub fn request(r: &mut Runtime, to_suspended: bool) -> Result<(), Errno>
    ensures answer { result ≡ request_result (request_answer r.old to_suspended) }
    ensures after { r.new ≡ request_after (request_answer r.old to_suspended) to_suspended r.old }
{
    if r.off_direct || r.off_late {
        return Err(Errno::EACCES);
    }
    if r.prepared && to_suspended {
        return Err(Errno::EAGAIN);
    }
    r.suspended = to_suspended;
    Ok(())
}
