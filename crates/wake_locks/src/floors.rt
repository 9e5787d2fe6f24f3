//! Moments before which no lock of a row ends.

ghost use Rattle.std.specs.Prelude.{◌≡◌, ◌<◌, min, replicate, slice_index, slice_set};

/// How many locks are in a row.
pub(crate) const ROW: usize = 8;

/// How many rows the known locks have at most.
const ROWS: usize = 13;

/// For each row of locks a moment before which none of them ends by itself.
#[derive(Clone, Copy, Drop)]
pub(crate) struct Floors {
    pub(crate) moments: [u64; ROWS],
}

impl Floors {
    /// All are 0.
    pub(crate) fn new() -> Self
        ensures { result.moments ≡ replicate 13 0 }
    {
        Floors { moments: [0; ROWS] }
    }

    /// That of a row.
    pub(crate) fn of_row(&self, row: usize) -> u64
        requires { row < 13 }
        ensures { result ≡ slice_index self.now.moments row }
    {
        self.moments[row]
    }

    /// Another one of a row.
    pub(crate) fn set_row(&mut self, row: usize, moment: u64)
        requires { row < 13 }
        ensures { self.new.moments ≡ slice_set self.old.moments row moment }
    {
        self.moments[row] = moment;
    }

    /// A lock of that row ends at that moment.
    pub(crate) fn lower(&mut self, row: usize, end: u64)
        requires { row < 13 }
        ensures { self.new.moments ≡ slice_set self.old.moments row (min (slice_index self.old.moments row) end) }
    {
        self.moments[row] = self.moments[row].min(end);
    }
}
