//! The table of locks, its passes, and what a pass holds.
ghost use Rattle.std.specs.Prelude.{◌≡◌, ◌≢◌, ◌<◌, ◌≤◌, ◌+◌, ℕ, [], ◌∷◌, ◌++◌, map, length, vec_len, IfOk, Some, None};
ghost use mathlib.Core.Option.{some};
ghost use Rattle.turn_lock.specs.Locks.{keeper, pass_view, IsTaken, AreClosed, out_with};
ghost use Rattle.turn_lock.specs.Passes.{IsOwn, IsPass, Holds, AreAll, AreNew, HasGrown, HasRoot, gained, first_of, made_of, number_of, had_by};

use crate::booked::Booked;
use crate::plays::{Booking, Cut, Give, Take};
use crate::view::PassView;
use atomic_table::{Seat, Table};
use crossbeam_utils::Backoff;
use sleep_base::Mem;
use std::alloc::Global;
use std::snapshot::Snapshot;
use std::sync::Wait;

/// A seat at the table of objects of the type `V`.
pub type LockToken<V, I> = Seat<Option<V>, PassView<V, I>>;

/// The locks, each round an object, which threads share.
pub type SharedLocks<V, I> = Table<Option<V>, PassView<V, I>, Snapshot<Vec<V>>, Booking, Global>;

/// One table of locks, with what it needs to be closed.
#[derive(Drop)]
pub struct LockTable<V: Booked> {
    pub cells: Table<Option<V>, PassView<V, V::Item>, Snapshot<Vec<V>>, Booking, Global>,
    pub own: LockToken<V, V::Item>,
    ghost seated: { own.table_id ≡ cells.shared.table_id },
    ghost shaped: { (own.table_id.words ≡ length (first_of own)) × (own.table_id.slots ≡ length (first_of own)) × (0 < own.table_id.words) },
    ghost kept: { IsOwn own },
}

/// The right to take one object at a time. It knows what it made.
#[derive(Drop)]
pub struct Pass<V: Booked> {
    pub token: LockToken<V, V::Item>,
}

/// An object that a pass has taken.
#[derive(Drop)]
pub struct Held<V: Booked> {
    value: V,
    object: usize,
    pub token: LockToken<V, V::Item>,
}

impl<V: Booked> LockTable<V> {
    /// One more pass, with the next number.
    pub(crate) fn pass(&mut self) -> Pass<V>
        ensures own { self.new.own.me.0 ≡ keeper (first_of self.old.own) (self.old.own.me.0.next + 1) self.old.own.me.0.known }
        ensures table { self.new.own.table_id ≡ self.old.own.table_id }
        ensures pass { (result.token.table_id ≡ self.old.own.table_id) × (result.token.me ≡ (pass_view (first_of self.old.own) self.old.own.me.0.next [], [])) }
    {
        let table = &self.cells;
        let token = table.shared.split_seat::<Cut>(&mut self.own);
        Pass { token }
    }
}

/// Waits until the object is free.
fn lock<R: Wait, V: Booked>(
    cells: &SharedLocks<V, V::Item>,
    rt: &R,
    token: &mut LockToken<V, V::Item>,
    object: usize,
)
    requires { IsPass cells.now.shared.table_id (first_of token.old) token.old × (object < length (first_of token.old)) }
    ensures seat { (token.new.table_id ≡ token.old.table_id) × (token.new.id ≡ token.old.id) }
    ensures taken { (y : V) × (token.new.me ≡ (out_with V.root V.entries token.old.me.0 object (V.entries y), (object, Some y) ∷ [])) × IsTaken V.root V.entries token.old.me.0 object y }
{
    let backoff = Backoff::new();
    for _ in rt.forever() {
        let found = cells.shared.compare_exchange::<Take>(token, object, 0, 1);
        if found == 0 {
            return;
        }
        backoff.snooze();
    }
    unreachable!()
}

/// Waits until the object is free, and takes it.
pub fn take<R: Wait, V: Booked>(
    cells: &SharedLocks<V, V::Item>,
    rt: &R,
    pass: Pass<V>,
    object: usize,
) -> Held<V>
    requires pass { IsPass cells.now.shared.table_id (first_of pass.token) pass.token }
    requires object { object < length (first_of pass.token) }
    ensures held { Holds cells.now.shared.table_id (first_of pass.token) object result.token × (result.object ≡ object) }
    ensures same { (number_of result.token ≡ number_of pass.token) × (made_of result.token ≡ made_of pass.token) }
    ensures list { had_by result.token ≡ V.entries result.value }
    ensures taken { IsTaken V.root V.entries pass.token.me.0 object result.value }
{
    let Pass { mut token } = pass;
    lock(cells, rt, &mut token, object);
    let value = cells.shared.exchange(&mut token, object, None).unwrap();
    Held {
        value,
        object,
        token,
    }
}

/// Gives the object back. The pass's list gains the entries that were added at the end of the object's list.
pub fn give<V: Booked>(cells: &SharedLocks<V, V::Item>, held: Held<V>) -> Pass<V>
    requires held { Holds cells.now.shared.table_id (first_of held.token) held.object held.token }
    requires root { HasRoot V.root V.entries (first_of held.token) held.object held.value }
    requires grown { HasGrown V.root V.entries (had_by held.token) held.value }
    ensures pass { IsPass cells.now.shared.table_id (first_of held.token) result.token }
    ensures same { number_of result.token ≡ number_of held.token }
    ensures made { made_of result.token ≡ made_of held.token ++ gained V.root V.entries held.object (had_by held.token) held.value }
{
    let Held {
        value,
        object,
        mut token,
    } = held;
    cells.shared.exchange(&mut token, object, Some(value));
    cells.shared.store::<Give>(&mut token, object, 0);
    Pass { token }
}

impl<V: Booked> Held<V> {
    ghost use Rattle.std.specs.Borrow.{sem};
    ghost use Rattle.turn_lock.specs.Lending.{LendsValue};

    /// The object itself.
    pub fn value(&mut self) -> &mut V
        ensures* writes_back { sem 𝓛 (LendsValue V.row V.Item.row self.entry result) }
        ensures value { result.now ≡ self.old.value }
    {
        &mut self.value
    }
}
