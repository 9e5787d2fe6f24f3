//! Why a link is not added, or its state not set.

ghost use Rattle.std.specs.Prelude.{◌≡◌};
ghost use Rattle.device_links.specs.declared.fault.LinkFault.TheVariants as fault;

use sleep_base::Mem;
use sleep_model::ListOf;
use thiserror::Error;

/// Numbers of devices.
pub type DevList = ListOf<u32>;

/// Why a link was not added, or its state not set.
#[derive(Debug, Drop, Error)]
pub enum LinkFault {
    /// The supplier or the consumer is not registered.
    #[error("the supplier or the consumer is not registered")]
    NoDevice,
    /// There is no such link.
    #[error("there is no such link")]
    NoLink,
    /// There are as many links as a machine may have.
    #[error("as many links stand as a machine may have")]
    TooMany,
    /// There is this link already.
    #[error("this link stands")]
    Twice,
    /// The supplier is the consumer or depends on it: the devices from the consumer to the
    /// supplier, each but the first right below the one before.
    #[error("the link would close a cycle")]
    Cycle(DevList),
    /// Memory ran out.
    #[error("out of memory")]
    Mem,
}

impl From<Mem> for LinkFault {
    ghost from_gives = { λ _ e. e ≡ fault.Mem };

    fn from(_failed: Mem) -> LinkFault {
        LinkFault::Mem
    }
}
