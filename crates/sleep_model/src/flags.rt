//! Flags of a device that its driver sets.
ghost use Rattle.std.specs.Prelude.{⊤, [], ◌∷◌, codes};

use bitflags::{Flag, Flags, bitflag_items};

/// What a device's driver says of it (`include/linux/pm.h`, `dev_pm_info`): whether its callbacks may run at
/// the same time as others, whether it may wake the machine, and its first runtime status.
#[derive(Clone, Copy, PartialEq, Eq, Debug)]
pub struct DeviceFlags(u8);

bitflag_items! {
    impl DeviceFlags: u8 {
        const ASYNC = 1;
        const WAKEUP = 2;
        const RUNTIME_SUSPENDED = 4;
    }
}

impl Flags for DeviceFlags {
    type Bits = u8;

    ghost exact = { ⊤ };

    ghost table = { (codes "ASYNC", 1) ∷ (codes "WAKEUP", 2) ∷ (codes "RUNTIME_SUSPENDED", 4) ∷ [] };

    ghost set_of = { λ f. f.0 };

    fn flags<'a>() -> &'a [Flag<DeviceFlags>] {
        DeviceFlags::FLAGS
    }

    fn bits(&self) -> u8 {
        self.0
    }

    fn from_bits_retain(bits: u8) -> DeviceFlags {
        DeviceFlags(bits)
    }
}

impl DeviceFlags {
    ghost use Rattle.std.specs.Prelude.{◌≡◌, ◌<◌};
    ghost use Rattle.sleep_model.specs.Runtime.{has_bit};

    /// Whether these flags have that one flag.
    pub fn has(self, flag: DeviceFlags) -> bool
        requires { 0 < flag.0 }
        ensures { result ≡ has_bit flag.0 self }
    {
        self.0 / flag.0 % 2 == 1
    }
}
