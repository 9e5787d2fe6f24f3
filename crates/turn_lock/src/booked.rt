//! An object under a lock: its list of entries, and its root.
ghost use Rattle.std.specs.Prelude.{List};

/// An object under a lock: it has a list of entries, and a root, which never changes.
pub trait Booked: Drop {
    /// What its list has.
    type Item;

    ghost Root: { Type 0 };

    /// What never changes in it.
    ghost root: { Self → Root };

    /// Its entries, the oldest first.
    ghost entries: { Self → List Self.Item };
}
