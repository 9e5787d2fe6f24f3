//! How a table of locks is closed.
ghost use Rattle.std.specs.Prelude.{◌≡◌, ◌<◌, ◌≤◌, ◌+◌, ℕ, [], ◌∷◌, ◌++◌, map, length, vec_len, vec_capacity, IfOk, Some};
ghost use Rattle.std.specs.Slots.{slots_items, slots_len, IsFull};
ghost use mathlib.Core.Option.{some};
ghost use lib.ListN.{get_elem?};
ghost use Rattle.turn_lock.specs.Locks.{keeper, AreClosed};
ghost use Rattle.turn_lock.specs.Passes.{IsOwn, AreAll, first_of};
ghost use Rattle.turn_lock.specs.Passing.{tokens, made_lists, AreOut, AreFull};

use crate::booked::Booked;
use crate::plays::Glue;
use crate::table::{LockTable, LockToken, Pass, SharedLocks};
use atomic_table::Closed;
use sleep_base::Mem;
use std::alloc::Global;

/// What the passes made comes to the table's own seat.
fn gather<V: Booked>(
    table: &SharedLocks<V, V::Item>,
    own: &mut LockToken<V, V::Item>,
    passes: Vec<Pass<V>>,
)
    requires table { (own.old.table_id ≡ table.now.shared.table_id) × (0 < own.old.table_id.words) }
    requires own { IsOwn own.old }
    requires passes { AreAll own.old (tokens passes.items) }
    ensures table { own.new.table_id ≡ own.old.table_id }
    ensures own { IsOwn own.new × (first_of own.new ≡ first_of own.old) × (own.new.me.0.next ≡ own.old.me.0.next) }
    ensures known { own.new.me.0.known ≡ made_lists passes.items }
{
    for pass in passes {
        let Pass { token } = pass;
        table.shared.join_seat::<Glue>(own, token);
    }
}

/// The value of each slot, which all have one.
#[tactic(auto, using(crate::proofs::LastPasses::one_out, crate::proofs::LastPasses::is_some_there))]
fn unslotted<V: Drop>(mut closed: Closed<Option<V>, Global>, mut values: Vec<V>) -> Vec<V>
    requires full { IsFull closed.slots }
    requires some { AreFull (slots_items closed.slots) }
    requires len { length (slots_items closed.slots) ≡ slots_len closed.slots }
    requires values { (values.items ≡ []) × (slots_len closed.slots ≤ vec_capacity values) }
    ensures out { AreOut result.items (slots_items closed.slots) }
    ensures len { vec_len result ≡ slots_len closed.slots }
{
    for i in 0..closed.slot_count() {
        values.push_reserved(closed.take(i).unwrap());
    }
    closed.free();
    values
}

/// Closes the table; the passes are in the order of their numbers. Each object's value comes back with the
/// root that it had at `new`, and with the list of then followed by the entries of the passes.
pub fn close_locks<V: Booked>(
    alloc: Global,
    locks: LockTable<V>,
    passes: Vec<Pass<V>>,
) -> Result<Vec<V>, Mem>
    requires passes { AreAll locks.own (tokens passes.items) }
    ensures { IfOk result (λ values. AreClosed V.root V.entries (first_of locks.own) (made_lists passes.items) values.items) }
{
    let values = Vec::with_capacity(alloc, locks.cells.slot_count())?;
    let LockTable { cells, mut own } = locks;
    gather(&cells, &mut own, passes);
    Ok(unslotted(cells.close_with(own), values))
}
