//! A job, and what came of a turn of it.
ghost use Rattle.std.specs.Prelude.{◌≡◌, ◌+◌, ◌++◌, ◌<◌, ℕ, List, [], ◌∷◌};

/// What a job's turn came to.
#[derive(Clone, Copy, Debug, Drop, PartialEq, Eq)]
pub enum Turn {
    /// It did something.
    Did,
    /// Nothing could be done yet.
    NotYet,
    /// The job has nothing more to do.
    Done,
    /// The worker is to end here.
    Stop,
}

/// What a worker makes turn by turn, over a value that all workers share.
pub trait Job<W> {
    ghost use Rattle.sleep_pool.specs.declared.turns.Turn.{Turn};

    /// How many turns it has left.
    ghost left: { Self → ℕ };

    /// It goes with this shared value at this moment.
    ghost goes: { Self → W → ℕ → Type 0 };

    /// It was this, then made these turns, and is that.
    ghost made: { Self → List Turn → Self → Type 0 };

    /// One turn, at the moment `now` (ms).
    fn turn(&mut self, shared: &W, now: u64) -> Turn
        requires left { 0 < left self.old }
        requires goes { goes self.old shared.now now }
        ensures left { left self.old ≡ left self.new + 1 }
        ensures goes { goes self.new shared.now now }
        ensures made { made self.old (result ∷ []) self.new };

    /// It holds of no turn.
    ghost made_none: { (a : Self) → made a [] a };

    /// It holds of two lists one after the other.
    ghost made_more: { (a b c : Self) (xs ys : List Turn) → made a xs b → made b ys c → made a (xs ++ ys) c };
}
