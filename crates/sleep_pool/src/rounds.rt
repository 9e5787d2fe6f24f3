//! A worker's rounds over the jobs of its slice.
ghost use Rattle.std.specs.Prelude.{◌≡◌, ◌+◌, ◌*◌, ◌<◌, ◌≤◌, ◌^◌, ℕ, true, false, [], ◌∷◌, All, length};
ghost use Rattle.sleep_pool.specs.Turns.{AllWent, Went, FirstWent, WentOn, CutShort, Ended, GoesRound};

use crate::turns::{Job, Turn};

/// How a round ended.
#[derive(Clone, Copy, Drop)]
pub struct RoundResult {
    /// How many turns did something.
    pub did: u64,
    /// Whether a turn was a `Stop`, which ends the round.
    pub stopped: bool,
}

/// One turn of one job.
fn one_turn<W, J: Job<W>>(job: &mut J, shared: &W, now: u64) -> RoundResult
    requires left { 0 < J.left job.old }
    requires goes { J.goes job.old shared.now now }
    ensures went { AllWent (Went J.made J.left result.stopped 1) (job.old ∷ []) (job.new ∷ []) result.did }
    ensures on { result.stopped ≡ false → AllWent (WentOn J.made J.left 1) (job.old ∷ []) (job.new ∷ []) result.did }
    ensures stop { result.stopped ≡ true → CutShort J.made J.left 0 (job.old ∷ []) (job.new ∷ []) }
    ensures few { result.did ≤ 1 }
    ensures left { J.left job.old ≡ J.left job.new + 1 }
    ensures goes { J.goes job.new shared.now now }
{
    let turn = job.turn(shared, now);
    match turn {
        Turn::Did => RoundResult {
            did: 1,
            stopped: false,
        },
        Turn::NotYet | Turn::Done => RoundResult {
            did: 0,
            stopped: false,
        },
        Turn::Stop => RoundResult {
            did: 0,
            stopped: true,
        },
    }
}

/// One turn of each job, in their order, up to a `Stop`.
pub fn one_round<W, J: Job<W>>(jobs: &mut [J], shared: &W, now: u64) -> RoundResult
    requires left { All (λ j. 0 < J.left j) jobs.old }
    requires goes { All (λ j. J.goes j shared.now now) jobs.old }
    ensures went { AllWent (Went J.made J.left result.stopped 1) jobs.old jobs.new result.did }
    ensures on { result.stopped ≡ false → AllWent (WentOn J.made J.left 1) jobs.old jobs.new result.did }
    ensures stop { result.stopped ≡ true → CutShort J.made J.left 0 jobs.old jobs.new }
    ensures first { FirstWent J.left jobs.old jobs.new }
    ensures few { result.did ≤ length jobs.old }
    ensures left { (n : ℕ) → All (λ j. n < J.left j) jobs.old → All (λ j. n ≤ J.left j) jobs.new }
    ensures goes { All (λ j. J.goes j shared.now now) jobs.new }
{
    if jobs.is_empty() {
        return RoundResult {
            did: 0,
            stopped: false,
        };
    }
    if jobs.len() == 1 {
        return one_turn(&mut jobs[0], shared, now);
    }
    let (front, back) = jobs.split_at_mut(jobs.len() / 2);
    let ahead = one_round(front, shared, now);
    if ahead.stopped {
        return ahead;
    }
    let after = one_round(back, shared, now);
    RoundResult {
        did: ahead.did + after.did,
        stopped: after.stopped,
    }
}

/// Rounds over a part, at most `most`, up to a `Stop` or a round that did nothing. It answers how many turns
/// did something.
pub fn part_rounds<W, J: Job<W>>(jobs: &mut [J], shared: &W, now: u64, most: u64) -> u64
    requires left { All (λ j. most ≤ J.left j) jobs.old }
    requires goes { All (λ j. J.goes j shared.now now) jobs.old }
    requires few { most ≤ 1000 }
    requires short { length jobs.old < 2 ^ 32 }
    ensures went { AllWent (Went J.made J.left true most) jobs.old jobs.new result }
    ensures ended { Ended J.made J.left most jobs.old jobs.new }
    ensures rounds { GoesRound J.made J.left most jobs.old jobs.new }
    ensures first { 0 < most → FirstWent J.left jobs.old jobs.new }
    ensures few { result ≤ most * length jobs.old }
    ensures goes { All (λ j. J.goes j shared.now now) jobs.new }
{
    if most == 0 {
        return 0;
    }
    let round = one_round(jobs, shared, now);
    if round.stopped || round.did == 0 {
        return round.did;
    }
    round.did + part_rounds(jobs, shared, now, most - 1)
}
