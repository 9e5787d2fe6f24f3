//! A series of numbers drawn from a seed.
ghost use Rattle.std.specs.Prelude.{◌≡◌, ◌<◌, ◌≤◌, ◌+◌};
ghost use Rattle.sleep_script.specs.Generated.{draw};

/// The numbers that a seed gives, one after another.
#[derive(Drop)]
pub(crate) struct Draws {
    seed: u64,
    /// The number of the next draw, from 1.
    next: u64,
}

impl Draws {
    /// The draws of a seed, from the first on.
    pub(crate) fn new(seed: u64) -> Draws
        ensures { result ≡ record { seed = seed; next = 1 } }
    {
        Draws { seed, next: 1 }
    }

    /// The next number, below the given one.
    pub(crate) fn draw(&mut self, below: u32) -> u32
        requires some { 0 < below }
        requires few { self.old.next ≤ 10000 }
        ensures number { result ≡ draw self.old.seed self.old.next below }
        ensures next { self.new ≡ record { seed = self.old.seed; next = self.old.next + 1 } }
    {
        let (start, k) = (self.seed % 65521, self.next);
        self.next += 1;
        let drawn = (start + 40503 * k + k * k) % 65521;
        (drawn % u64::from(below)) as u32
    }
}
