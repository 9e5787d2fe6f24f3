//! A sink in memory that grows with what is written.

ghost use Rattle.std.specs.Prelude.{◌≡◌, ◌<◌, ◌≤◌, Some, [], IfOk, length};
ghost use Rattle.std.specs.Io.KnownBytes.{WriteAppends};
ghost use Rattle.sleep_base.specs.Faults.{HasCause};

use sleep_base::{ByteSink, Failed};
use std::alloc::Global;

/// The bytes that were written, and how many writes memory was wanting for.
#[derive(Drop)]
pub struct GatheredBytes {
    bytes: Vec<u8>,
    faults: u64,
}

impl GatheredBytes {
    /// A sink to which nothing was written.
    pub fn new(alloc: Global) -> GatheredBytes
        ensures { ⟦<GatheredBytes as ByteSink>⟧.written result ≡ Some [] }
    {
        GatheredBytes {
            bytes: Vec::new(alloc),
            faults: 0,
        }
    }

    /// The bytes that were written.
    pub fn into_bytes(self) -> Vec<u8>
        ensures { ⟦<GatheredBytes as ByteSink>⟧.written self ≡ Some result.items }
    {
        self.bytes
    }
}

impl ByteSink for GatheredBytes {
    ghost written = { λ g. Some g.bytes.items };

    ghost faults = { λ g. g.faults };

    fn write(&mut self, piece: &[u8]) -> Result<usize, Failed>
        requires { 0 < length piece.now }
        ensures count { IfOk result (λ n. (1 ≤ n) × (n ≤ length piece.now)) }
        ensures bytes { WriteAppends (Some self.old.bytes.items) (Some self.new.bytes.items) result piece.now }
        ensures cause { HasCause self.old.faults self.new.faults result }
    {
        if self.bytes.extend_from_slice(piece).is_err() {
            self.faults = self.faults.saturating_add(1);
            return Err(Failed);
        }
        Ok(piece.len())
    }
}
