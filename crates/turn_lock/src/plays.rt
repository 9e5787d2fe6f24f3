//! The rule of the table, and what each step makes known.
ghost use Rattle.std.specs.Prelude.{[], ◌∷◌, ◌++◌, ◌+◌, List};
ghost use Rattle.turn_lock.specs.Locks.{Kept, keeper, pass_view, spent, takes, gives};

use crate::booked::Booked;
use crate::view::PassView;
use atomic_table::{Join, Play, Split, TableRule};
use std::snapshot::Snapshot;

/// The table's rule.
pub struct Booking;

impl<V: Booked> TableRule<Option<V>, PassView<V, V::Item>, Snapshot<Vec<V>>> for Booking {
    ghost holds = { λ _. Kept V.root V.entries };

    ghost first = { λ key. keeper key.value.items 0 [] };
}

/// A pass takes an object that is free.
pub(crate) struct Take;

impl<V: Booked> Play<Option<V>, PassView<V, V::Item>> for Take {
    ghost then = { takes V.root V.entries };
}

/// A pass gives an object back.
pub(crate) struct Give;

impl<V: Booked> Play<Option<V>, PassView<V, V::Item>> for Give {
    ghost then = { gives V.root V.entries };
}

/// A new pass comes from the table's seat.
pub(crate) struct Cut;

impl<V, I> Split<PassView<V, I>> for Cut {
    ghost left = { λ v. keeper v.first (v.next + 1) v.known };

    ghost right = { λ v. pass_view v.first v.next [] };
}

/// A pass comes back to the table's seat.
pub(crate) struct Glue;

impl<V, I> Join<PassView<V, I>> for Glue {
    ghost both = { λ v w. keeper v.first v.next (v.known ++ w.made ∷ []) };

    ghost spent = { spent };
}
