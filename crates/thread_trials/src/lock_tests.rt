//! A list of numbers under a lock, and two workers that overlap at it.
ghost use Rattle.std.specs.Prelude.{◌≡◌, ◌≤◌, ◌++◌, [], ◌∷◌, IfOk, true, false, length, vec_len};
ghost use Rattle.turn_lock.specs.Passes.{IsPass, AreAll, first_of};
ghost use Rattle.turn_lock.specs.Passing.{tokens};

use sleep_base::{Mem, drop_for_mem};
use std::alloc::{AllocError, Global};
use std::sync::atomic::{AtomicU64, Ordering};
use std::sync::{Barrier, Wait};
use std::thread;
use std::thread::Threads;
use turn_lock::{Booked, LockTable, Pass, SharedLocks, give, take};

/// An object of the tests: numbers, one after another.
#[derive(Drop)]
pub(crate) struct NumberList {
    pub notes: Vec<u32>,
}

impl Booked for NumberList {
    ghost use Rattle.std.specs.Prelude.{List};

    type Item = u32;

    ghost Root = { Unit {0} };

    ghost root = { λ _. tt };

    ghost entries = { λ j. j.notes.items };
}

impl NumberList {
    /// Adds a number, if there is memory. Answers whether there was.
    pub(crate) fn note(&mut self, x: u32) -> bool
        ensures added { result ≡ true → self.new.notes.items ≡ self.old.notes.items ++ x ∷ [] }
        ensures kept { result ≡ false → self.new.notes.items ≡ self.old.notes.items }
    {
        if self.notes.reserve(1).is_err() {
            return false;
        }
        self.notes.push_reserved(x);
        true
    }
}

/// `count` empty objects.
pub(crate) fn objects(alloc: Global, count: usize) -> Result<Vec<NumberList>, AllocError>
    ensures { IfOk result (λ values. vec_len values ≡ count) }
{
    let mut values = Vec::new(alloc);
    for _ in 0..count {
        values.push(NumberList {
            notes: Vec::new(alloc),
        })?;
    }
    Ok(values)
}

/// Takes one of two objects, and waits with it for another worker that holds the other one.
fn meet<R: Wait>(
    rt: &R,
    cells: &SharedLocks<NumberList, u32>,
    pass: Pass<NumberList>,
    next: &AtomicU64,
    both: &Barrier,
) -> bool
    requires pass { IsPass cells.now.shared.table_id (first_of pass.token) pass.token }
    requires object { 2 ≤ length (first_of pass.token) }
{
    let object = next.fetch_add(1, Ordering::SeqCst) % 2;
    let held = take(cells, rt, pass, object as usize);
    both.wait(rt);
    let _pass = give(cells, held);
    true
}

/// Two workers, each with an object.
fn meeting<R: Threads + Wait + Sync>(
    rt: &R,
    locks: &LockTable<NumberList>,
    passes: Vec<Pass<NumberList>>,
) -> Result<usize, AllocError>
    requires passes { AreAll locks.now.own (tokens passes.items) }
    requires object { 2 ≤ length (first_of locks.now.own) }
{
    let cells = &locks.cells;
    let next = AtomicU64::new(0);
    let both = Barrier::new(2);
    let one = |pass: Pass<NumberList>| -> bool
        requires { IsPass cells.now.shared.table_id (first_of pass.token) pass.token × (2 ≤ length (first_of pass.token)) }
    { meet(rt, cells, pass, &next, &both) };
    Ok(thread::map_vec(rt, passes, &one)?.len())
}

/// How many workers held one of two objects while the other one was held.
fn overlapping<R: Threads + Wait + Sync>(rt: &R, alloc: Global) -> Result<usize, Mem> {
    let (locks, passes) = LockTable::new(alloc, objects(alloc, 2)?, 2)?;
    let Ok(held) = meeting(rt, &locks, passes) else {
        return Err(drop_for_mem(locks));
    };
    drop(locks);
    Ok(held)
}

/// Two workers hold an object each at the same time.
#[test]
fn two_workers_overlap(rt: HostRuntime) {
    assert!(rt; overlapping(&rt, rt.alloc()) == Ok(2));
}
