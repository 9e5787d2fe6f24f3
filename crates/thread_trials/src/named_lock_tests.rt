//! Named locks: their calls, their ends, and how many there may be.
ghost use Rattle.std.specs.Prelude.{◌≤◌, OnOk};
ghost use Rattle.wake_locks.specs.Locks.{AreBefore, ExpiriesAreDue};

use sleep_base::Mem;
use sleep_model::{Name, Stats};
use std::sync::Wait;
use wake_locks::{LockAnswer, LockFault, LockStats, MOST_LOCKS, WakeLocks};

/// Locks whose sources take all calls of a test.
type Locks = WakeLocks<60_000>;

/// Whether a call was made.
fn is_done(answer: Result<LockAnswer, LockFault>) -> bool {
    answer == Ok(LockAnswer::Done)
}

/// Whether a text named no lock.
fn is_bad(answer: Result<LockAnswer, LockFault>) -> bool {
    answer == Ok(LockAnswer::BadText)
}

/// Whether two locks are locked, of which one ends by itself, and two texts that name none are refused.
fn are_locked<R: Wait>(rt: &R, locks: &mut Locks) -> bool
    requires { ExpiriesAreDue 0 locks.old }
    ensures { ExpiriesAreDue 0 locks.new }
{
    let wifi = locks.wake_lock(rt, b"wifi", 0);
    let gps = locks.wake_lock(rt, b"gps 1500000\n", 0);
    let nfc = locks.wake_unlock(rt, b"nfc", 0);
    let two = locks.wake_lock(rt, b"a b", 0);
    is_done(wifi) && is_done(gps) && is_bad(nfc) && is_bad(two)
}

/// Whether this number of locks is active, and that number is not.
fn have_names(locks: &Locks, active: usize, inactive: usize) -> Result<bool, Mem> {
    let are_active = locks.names(true)?.len() == active;
    let are_inactive = locks.names(false)?.len() == inactive;
    Ok(are_active && are_inactive)
}

/// Lets locks end by themselves that were called at 0.
fn advance<R: Wait, const CAP: usize>(
    rt: &R,
    locks: &mut WakeLocks<CAP>,
    to: u64,
) -> Result<(), LockFault>
    requires timely { ExpiriesAreDue 0 locks.old }
    requires small { to ≤ 9 }
    ensures before { AreBefore to locks.new }
    ensures timely { OnOk result (ExpiriesAreDue to locks.new) }
{
    locks.advance(rt, to)
}

/// Whether the timeout ends by 3 ms, and its lock is unlocked then.
fn ends<R: Wait>(rt: &R, locks: &mut Locks) -> bool
    requires { ExpiriesAreDue 0 locks.old }
    ensures { AreBefore 3 locks.new }
{
    match advance(rt, locks, 3) {
        Ok(()) => is_done(locks.wake_unlock(rt, b"gps\n", 3)),
        Err(_) => false,
    }
}

/// What is counted of the lock that ended, which is rounded up to 2 ms.
const GPS: Stats = Stats {
    active_count: 1,
    event_count: 1,
    expire_count: 1,
    active_time: 0,
    total_time: 2,
    max_time: 2,
    last_time: 2,
};

/// Whether the first of two locks has counted that, also if it is asked by its name.
fn have_counted(locks: &Locks, all: &[LockStats]) -> bool
    requires { AreBefore 3 locks.now }
{
    match all {
        [gps, _] => gps.stats == GPS && locks.stats(&gps.name, 3) == Some(GPS),
        _ => false,
    }
}

/// Whether nothing is counted of a name that was never locked.
fn knows_none(locks: &Locks) -> bool
    requires { AreBefore 3 locks.now }
{
    match Name::of_bytes(b"nfc") {
        Some(nfc) => locks.stats(&nfc, 3).is_none(),
        None => false,
    }
}

/// Whether two locks are locked, one ends, and each is counted.
fn live<R: Wait>(rt: &R, locks: &mut Locks) -> Result<bool, Mem>
    requires { ExpiriesAreDue 0 locks.old }
{
    let locked = are_locked(rt, locks);
    let both = have_names(locks, 2, 0)?;
    let ended = ends(rt, locks);
    let one = have_names(locks, 1, 1)?;
    let counted = have_counted(locks, &locks.all_stats(3)?);
    Ok(locked && both && ended && one && counted && knows_none(locks))
}

/// Two locks, one with a timeout that is rounded up and expires at its own moment.
#[test]
fn a_lock_is_active_until_its_end(rt: HostRuntime) {
    let mut locks = Locks::new(rt.alloc());
    assert!(rt; live(&rt, &mut locks) == Ok(true));
}

/// Whether a lock is locked twice, and then full, also for its timeout.
fn is_full<R: Wait>(rt: &R, locks: &mut WakeLocks<6>, name: Name) -> bool
    requires { ExpiriesAreDue 0 locks.old }
{
    let first = locks.wake_lock(rt, b"a 1000000", 0);
    let second = locks.wake_lock(rt, b"a 1000000", 0);
    let third = locks.wake_lock(rt, b"a", 0).err();
    let expired = advance(rt, locks, 1).err();
    let full = Some(LockFault::Full(name));
    is_done(first) && is_done(second) && third == full && expired == full
}

/// A call has four places, or it is refused.
#[test]
fn a_lock_with_three_places_left_is_full(rt: HostRuntime) {
    let a = Name::of_bytes(b"a").expect(&rt, "a name");
    let mut locks = WakeLocks::<6>::new(rt.alloc());
    assert!(rt; is_full(&rt, &mut locks, a));
}

/// Whether as many locks are locked as may be known, each with a name of its own.
fn knows_most<R: Wait>(rt: &R, locks: &mut Locks) -> bool
    requires { ExpiriesAreDue 0 locks.old }
    ensures { ExpiriesAreDue 0 locks.new }
{
    let mut all = true;
    for number in 0..MOST_LOCKS as u8 {
        let text = [b'n', number / 10 + b'0', number % 10 + b'0'];
        let answer = locks.wake_lock(rt, &text, 0);
        all = is_done(answer) && all;
    }
    all
}

/// Whether no further name is taken, and a known one is unlocked and locked again.
fn takes_no_more<R: Wait>(rt: &R, locks: &mut Locks) -> bool
    requires { ExpiriesAreDue 0 locks.old }
{
    let more = locks.wake_lock(rt, b"one_more", 0);
    let unlocked = locks.wake_unlock(rt, b"n07", 0);
    let again = locks.wake_lock(rt, b"n07", 0);
    more == Ok(LockAnswer::NoSpace) && is_done(unlocked) && is_done(again)
}

/// As many names are known as may be: one more is refused, and each known one is locked.
#[test]
fn a_name_too_many_is_refused(rt: HostRuntime) {
    let mut locks = Locks::new(rt.alloc());
    assert!(rt; knows_most(&rt, &mut locks));
    assert!(rt; takes_no_more(&rt, &mut locks));
}
