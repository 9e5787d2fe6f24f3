//! What entries say of a device.

ghost use Rattle.std.specs.Prelude.{◌≡◌, ◌++◌, IfSome};
ghost use Rattle.sleep_model.specs.declared.machine.Machine.{Machine};
ghost use Rattle.sleep_model.specs.declared.entry.Kind.TheVariants as kind;
ghost use Rattle.sleep_model.specs.Text.{body, newline, device as device_of};

use crate::piece::{Piece, cause_piece, phase_piece};
use sleep_model::Kind;

/// The words round a device to the end of its line, each with the spaces that it needs.
#[derive(Drop)]
pub struct DeviceWords {
    pub verb: Piece,
    pub phase: Piece,
    pub device: u32,
    pub ending: Piece,
}

/// What an entry of a device's prepare says, if it answered 0.
#[inline(always)]
fn prepared_words(device: u32, r: i32) -> Option<DeviceWords>
    ensures { IfSome result (λ w. (m : Machine) → body m (kind.Prepare device r) ++ newline ≡ w.verb ++ w.phase ++ device_of m w.device ++ w.ending) }
{
    if r != 0 {
        return None;
    }
    Some(DeviceWords {
        verb: Piece::of(b"prepare         ", 8),
        phase: Piece::none(),
        device,
        ending: Piece::success(),
    })
}

/// What an entry says, to the end of its line, if that is words round a device's name.
#[inline(always)]
pub fn device_words(kind: Kind) -> Option<DeviceWords>
    ensures { IfSome result (λ w. (m : Machine) → body m kind ++ newline ≡ w.verb ++ w.phase ++ device_of m w.device ++ w.ending) }
{
    match kind {
        Kind::Begin(phase, device) => Some(DeviceWords {
            verb: Piece::of(b"begin           ", 6),
            phase: phase_piece(phase),
            device,
            ending: Piece::newline(),
        }),
        // Most answers are 0. An error takes the way of other lines, which the table of errors spells.
        Kind::End(phase, device, None) => Some(DeviceWords {
            verb: Piece::of(b"end             ", 4),
            phase: phase_piece(phase),
            device,
            ending: Piece::success(),
        }),
        Kind::Schedule(phase, device) => Some(DeviceWords {
            verb: Piece::of(b"schedule        ", 9),
            phase: phase_piece(phase),
            device,
            ending: Piece::newline(),
        }),
        Kind::Skip(phase, device, cause) => Some(DeviceWords {
            verb: Piece::of(b"skip            ", 5),
            phase: phase_piece(phase),
            device,
            ending: cause_piece(cause),
        }),
        Kind::Prepare { device, r } => prepared_words(device, r),
        Kind::Complete(device) => Some(DeviceWords {
            verb: Piece::of(b"complete        ", 9),
            phase: Piece::none(),
            device,
            ending: Piece::newline(),
        }),
        _ => None,
    }
}
