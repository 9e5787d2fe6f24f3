//! Ranges of positions, by which a log is cut.

ghost use Rattle.std.specs.Prelude.{◌≡◌, ◌≤◌};

use sleep_model::Stamp;

/// The positions from one on, before another or up to the last.
#[derive(Clone, Copy)]
pub(crate) struct Range {
    pub(crate) from: u64,
    pub(crate) to: Option<u64>,
}

impl Range {
    ghost use Rattle.std.specs.Prelude.{◌≡◌, ◌≤◌, ◌&&◌, nat_le, None, Some};
    ghost use Rattle.apart_log.specs.Slices.{IsUpTo, is_before_end};

    /// All positions.
    pub(crate) fn all() -> Self
        ensures { result ≡ record { from = 0; to = None } }
    {
        Range { from: 0, to: None }
    }

    /// Whether the position of that stamp is among them.
    #[inline(always)]
    pub(crate) fn holds(self, stamp: Stamp) -> bool
        ensures { result ≡ nat_le self.from stamp.pos && is_before_end stamp.pos self.to }
    {
        if stamp.pos < self.from {
            return false;
        }
        match self.to {
            Some(end) => stamp.pos < end,
            None => true,
        }
    }

    /// Those before that position.
    pub(crate) fn below(self, middle: u64) -> Self
        ensures { result ≡ record { from = self.from; to = Some middle } }
    {
        Range {
            from: self.from,
            to: Some(middle),
        }
    }

    /// Those from that position on.
    pub(crate) fn from_on(self, middle: u64) -> Self
        ensures { result ≡ record { from = middle; to = self.to } }
    {
        Range {
            from: middle,
            to: self.to,
        }
    }

    /// A position that halves them, if the log ends at `last`.
    pub(crate) fn middle(self, last: u64) -> u64
        requires { IsUpTo self.from self.to }
        ensures after { self.from ≤ result }
        ensures before { IsUpTo result self.to }
    {
        let end = match self.to {
            Some(end) => end,
            None => last.max(self.from),
        };
        self.from + (end - self.from) / 2
    }
}
