//! Jobs are lent to workers, a slice to each, on threads that are made by halving.
ghost use Rattle.std.specs.Prelude.{◌≡◌, ◌+◌, ◌++◌, ◌*◌, ◌<◌, ◌≤◌, ◌^◌, ℕ, true, All, length};
ghost use Rattle.std.specs.Thread.{IsSync, IsSend};
ghost use Rattle.crossbeam_utils.specs.Padded.{padded_value};
ghost use Rattle.sleep_pool.specs.Turns.{AllWent, FirstsWent, GoesRound, OfParts, PartsEnded, Went, part_size};

use crate::rounds::part_rounds;
use crate::turns::Job;
use crossbeam_utils::CachePadded;
use std::thread::{Threads, join_mut};

/// The most rounds that a worker makes in one burst.
const ROUNDS: u64 = 1000;

/// The jobs by parts of `size`, each part by one worker. It answers how many turns did something.
#[cycle(parts)]
fn parts<R: Threads + Sync, W: Sync, J: Job<W> + Send>(
    rt: &R,
    shared: &W,
    now: u64,
    size: usize,
    jobs: &mut [J],
) -> CachePadded<u64>
    requires size { 0 < size }
    requires left { All (λ j. 1000 ≤ J.left j) jobs.old }
    requires goes { All (λ j. J.goes j shared.now now) jobs.old }
    requires short { length jobs.old < 2 ^ 32 }
    ensures went { AllWent (Went J.made J.left true 1000) jobs.old jobs.new (padded_value result) }
    ensures firsts { FirstsWent J.left size jobs.old jobs.new }
    ensures ended { PartsEnded J.made J.left 1000 size jobs.old jobs.new }
    ensures rounds { OfParts (GoesRound J.made J.left 1000) size jobs.old jobs.new }
    ensures few { padded_value result ≤ 1000 * length jobs.old }
    ensures goes { All (λ j. J.goes j shared.now now) jobs.new }
{
    if jobs.len() <= size {
        return CachePadded::new(part_rounds(jobs, shared, now, ROUNDS));
    }
    let ahead = jobs.len().div_ceil(size) / 2;
    let (front, back) = jobs.split_at_mut(ahead * size);
    both(rt, shared, now, size, front, back)
}

/// Two runs of parts at the same time if a thread can be made, else one after the other.
#[cycle(parts)]
fn both<R: Threads + Sync, W: Sync, J: Job<W> + Send>(
    rt: &R,
    shared: &W,
    now: u64,
    size: usize,
    front: &mut [J],
    back: &mut [J],
) -> CachePadded<u64>
    requires size { 0 < size }
    requires some { (0 < length front.old) × (0 < length back.old) }
    requires left { All (λ j. 1000 ≤ J.left j) front.old × All (λ j. 1000 ≤ J.left j) back.old }
    requires goes { All (λ j. J.goes j shared.now now) front.old × All (λ j. J.goes j shared.now now) back.old }
    requires short { length front.old + length back.old < 2 ^ 32 }
    ensures went { AllWent (Went J.made J.left true 1000) (front.old ++ back.old) (front.new ++ back.new) (padded_value result) }
    ensures front { FirstsWent J.left size front.old front.new × PartsEnded J.made J.left 1000 size front.old front.new × OfParts (GoesRound J.made J.left 1000) size front.old front.new }
    ensures back { FirstsWent J.left size back.old back.new × PartsEnded J.made J.left 1000 size back.old back.new × OfParts (GoesRound J.made J.left 1000) size back.old back.new }
    ensures same { length front.new ≡ length front.old }
    ensures few { padded_value result ≤ 1000 * (length front.old + length back.old) }
    ensures goes { All (λ j. J.goes j shared.now now) front.new × All (λ j. J.goes j shared.now now) back.new }
{
    let mut left = || -> CachePadded<u64>
        requires { IsSync R.row × IsSync W.row × IsSend J.row × (0 < size) × All (λ j. 1000 ≤ J.left j) front.now × All (λ j. J.goes j shared.now now) front.now × (length front.now < 2 ^ 32) }
        ensures { AllWent (Went J.made J.left true 1000) front.entry.now front.exit.now (padded_value result) × FirstsWent J.left size front.entry.now front.exit.now × PartsEnded J.made J.left 1000 size front.entry.now front.exit.now × OfParts (GoesRound J.made J.left 1000) size front.entry.now front.exit.now × (padded_value result ≤ 1000 * length front.entry.now) × All (λ j. J.goes j shared.entry.now now) front.exit.now }
    { parts(rt, shared, now, size, front) };
    let mut right = || -> CachePadded<u64>
        requires { IsSync R.row × IsSync W.row × IsSend J.row × (0 < size) × All (λ j. 1000 ≤ J.left j) back.now × All (λ j. J.goes j shared.now now) back.now × (length back.now < 2 ^ 32) }
        ensures { AllWent (Went J.made J.left true 1000) back.entry.now back.exit.now (padded_value result) × FirstsWent J.left size back.entry.now back.exit.now × PartsEnded J.made J.left 1000 size back.entry.now back.exit.now × OfParts (GoesRound J.made J.left 1000) size back.entry.now back.exit.now × (padded_value result ≤ 1000 * length back.entry.now) × All (λ j. J.goes j shared.entry.now now) back.exit.now }
    { parts(rt, shared, now, size, back) };
    let (one, two) = join_mut(rt, &mut left, &mut right);
    CachePadded::new(*one + *two)
}

/// Gives each of `workers` workers a slice of the jobs; all slices but the last have one length, and there
/// may be fewer slices than workers. A worker goes round its slice at the moment `now` (ms) until a job
/// answers `Stop`, a round does nothing, or 1,000 rounds are over. The answer counts the turns that did
/// something. Without a thread the caller does a worker's rounds.
pub fn burst<R: Threads + Sync, W: Sync, J: Job<W> + Send>(
    rt: &R,
    jobs: &mut [J],
    shared: &W,
    now: u64,
    workers: u8,
) -> u64
    requires workers { 0 < workers }
    requires left { All (λ j. 1000 ≤ J.left j) jobs.old }
    requires goes { All (λ j. J.goes j shared.now now) jobs.old }
    requires short { length jobs.old < 2 ^ 32 }
    ensures went { AllWent (Went J.made J.left true 1000) jobs.old jobs.new result }
    ensures firsts { FirstsWent J.left (part_size (length jobs.old) workers) jobs.old jobs.new }
    ensures ended { PartsEnded J.made J.left 1000 (part_size (length jobs.old) workers) jobs.old jobs.new }
    ensures rounds { OfParts (GoesRound J.made J.left 1000) (part_size (length jobs.old) workers) jobs.old jobs.new }
    ensures goes { All (λ j. J.goes j shared.now now) jobs.new }
{
    if jobs.is_empty() {
        return 0;
    }
    let size = jobs.len().div_ceil(usize::from(workers));
    parts(rt, shared, now, size, jobs).into_inner()
}
