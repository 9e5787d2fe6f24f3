//! The state that a text names (`kernel/power/main.c`).

ghost use Rattle.std.specs.Prelude.{◌≡◌};
ghost use Rattle.sleep_sysfs.specs.Decoding.{decoded};

use script_plan::{is_mem, is_off};
use sleep_base::Errno;
use sleep_model::State;

/// The state that a text written to autosleep names. EINVAL for any other text (`autosleep_store`). It is for
/// a caller that takes such a text without a core, which asks `write_autosleep`.
pub fn decode_state(text: &[u8]) -> Result<State, Errno>
    ensures { result ≡ decoded text.now }
{
    if is_mem(text) {
        Ok(State::Mem)
    } else if is_off(text) {
        Ok(State::Off)
    } else {
        Err(Errno::EINVAL)
    }
}
