//! Many workers add numbers under locks, and each number is in exactly one list.
ghost use Rattle.std.specs.Prelude.{◌≡◌, ◌≤◌, [], map, length, IfOk};
ghost use Rattle.turn_lock.specs.Passes.{IsPass, AreAll, AreNew, first_of, made_of, number_of};
ghost use Rattle.turn_lock.specs.Passing.{tokens};

use crate::list_tests::PassHolder;
use crate::lock_tests::{NumberList, objects};
use sleep_base::{Mem, drop_for_mem};
use std::alloc::{AllocError, Global};
use std::sync::Wait;
use std::thread::Threads;
use std::{mem, thread};
use turn_lock::{LockTable, Made, Pass, SharedLocks, close_locks};

/// The mark in place of an entry that was struck out; no worker adds it.
const STRUCK: u32 = u32::MAX;

/// All turns of one worker, which takes the two objects in turn and adds a number to each.
fn work<R: Wait>(
    rt: &R,
    alloc: Global,
    cells: &SharedLocks<NumberList, u32>,
    pass: Pass<NumberList>,
    turns: u32,
) -> PassHolder
    requires pass { IsPass cells.now.shared.table_id (first_of pass.token) pass.token }
    requires new { made_of pass.token ≡ [] }
    requires objects { 2 ≤ length (first_of pass.token) }
    ensures pass { IsPass cells.now.shared.table_id (first_of pass.token) result.pass.token }
    ensures number { number_of result.pass.token ≡ number_of pass.token }
{
    let mut worker = PassHolder::new(alloc, pass);
    for i in 0..turns {
        worker = worker.take(rt, cells, (i % 2) as usize).note(i).give(cells);
    }
    worker
}

/// All workers, each in a thread of its own.
fn burst<R: Threads + Wait + Sync>(
    rt: &R,
    alloc: Global,
    locks: &LockTable<NumberList>,
    passes: Vec<Pass<NumberList>>,
    turns: u32,
) -> Result<Vec<PassHolder>, AllocError>
    requires passes { AreNew locks.now.own (tokens passes.items) }
    requires objects { 2 ≤ length (first_of locks.now.own) }
    ensures { IfOk result (λ workers. AreAll locks.now.own (tokens (map (λ w. w.pass) workers.items))) }
{
    let cells = &locks.cells;
    let one = |pass: Pass<NumberList>| -> PassHolder
        requires { IsPass cells.now.shared.table_id (first_of pass.token) pass.token × (made_of pass.token ≡ []) × (2 ≤ length (first_of pass.token)) }
        ensures { IsPass cells.entry.now.shared.table_id (first_of pass.token) result.pass.token × (number_of result.pass.token ≡ number_of pass.token) }
    { work(rt, alloc, cells, pass, turns) };
    let workers = thread::map_vec(rt, passes, &one)?;
    Ok(workers)
}

/// The passes of all workers, in order, and their lists.
fn split(
    alloc: Global,
    workers: Vec<PassHolder>,
) -> Result<(Vec<Pass<NumberList>>, Vec<Vec<Made<u32>>>), Mem>
    ensures passes { IfOk result (λ parts. parts.0.items ≡ map (λ w. w.pass) workers.items) }
{
    let Ok(mut passes) = Vec::with_capacity(alloc, workers.len()) else {
        return Err(drop_for_mem(workers));
    };
    let Ok(mut lists) = Vec::with_capacity(alloc, workers.len()) else {
        return Err(drop_for_mem((workers, passes)));
    };
    for worker in workers {
        let PassHolder { pass, made } = worker;
        passes.push_reserved(pass);
        lists.push_reserved(made);
    }
    Ok((passes, lists))
}

/// Strikes an entry out of its object's list. Answers whether it stood there, not yet struck out.
fn strike(values: &mut Vec<NumberList>, made: &Made<u32>) -> bool {
    let Some(journal) = values.get_mut(made.object as usize) else {
        return false;
    };
    let Some(number) = journal.notes.get_mut(made.place as usize) else {
        return false;
    };
    mem::replace(number, STRUCK) == made.entry
}

/// Strikes out the entries of one list. Answers whether all stood there.
fn strike_list(values: &mut Vec<NumberList>, list: &Vec<Made<u32>>) -> bool {
    let mut stood = true;
    for made in list {
        stood = strike(values, made) && stood;
    }
    stood
}

/// Whether all entries of an object were struck out.
fn is_struck(journal: &NumberList) -> bool {
    for number in &journal.notes {
        if *number != STRUCK {
            return false;
        }
    }
    true
}

/// Whether each entry of the lists is at its index, and each entry of the two values is in one list, once.
fn each_once(values: &mut Vec<NumberList>, lists: &Vec<Vec<Made<u32>>>) -> bool {
    let mut stood = true;
    for list in lists {
        stood = strike_list(values, list) && stood;
    }
    match values.as_slice() {
        [first, second] => stood && is_struck(first) && is_struck(second),
        _ => false,
    }
}

/// How many numbers each of two objects has, if each is in one list, once.
fn counted_in(values: &mut Vec<NumberList>, lists: &Vec<Vec<Made<u32>>>) -> Option<(usize, usize)> {
    let once = each_once(values, lists);
    match values.as_slice() {
        [first, second] => once.then_some((first.notes.len(), second.notes.len())),
        _ => None,
    }
}

/// How many numbers each of two objects has after all turns of all workers, if each is in one list, once.
fn counted<R: Threads + Wait + Sync>(
    rt: &R,
    alloc: Global,
    workers: u32,
    turns: u32,
) -> Result<Option<(usize, usize)>, Mem>
    requires { (1 ≤ workers) × (workers ≤ 2000) }
{
    let (locks, passes) = LockTable::new(alloc, objects(alloc, 2)?, workers)?;
    let Ok(workers) = burst(rt, alloc, &locks, passes, turns) else {
        return Err(drop_for_mem(locks));
    };
    let Ok((passes, lists)) = split(alloc, workers) else {
        return Err(drop_for_mem(locks));
    };
    let Ok(mut values) = close_locks(alloc, locks, passes) else {
        return Err(drop_for_mem(lists));
    };
    let counted = counted_in(&mut values, &lists);
    drop((values, lists));
    Ok(counted)
}

/// Four workers lose nothing, nor do sixteen.
#[test]
fn many_workers_lose_nothing(rt: HostRuntime) {
    assert!(rt; counted(&rt, rt.alloc(), 4, 2500) == Ok(Some((5000, 5000))));
    assert!(rt; counted(&rt, rt.alloc(), 16, 625) == Ok(Some((5008, 4992))));
}
