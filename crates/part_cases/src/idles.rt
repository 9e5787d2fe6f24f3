//! Runs of suspend-to-idle by one worker: `idle WAKERS EVENTS SESSIONS`.

ghost use Rattle.std.specs.Bool.{OnTrue};
ghost use Rattle.idle_loop.specs.Sizes.{AreSizes};

use crate::asked::Words;
use crate::parts::CaseRunner;
use crate::reply::{CaseReply, Out, ReplyWord};
use idle_loop::{IdleEntry, IdleKind, IdleLog, IdleSizes, run_idle};
use sleep_base::Mem;
use std::alloc::Global;
use std::sync::Wait;
use std::thread::Threads;

/// A question about a log: its entries, how many are hard events or wakes, whether their number is between
/// two others, one number of all, or whether the idler sleeps at the end.
#[derive(Clone, Copy)]
pub enum IdleCall {
    Entries,
    Hards,
    Wakes,
    LenWithin,
    Sum,
    IsIdle,
}

/// The verb of each call.
pub const IDLE_CALLS: [(&str, IdleCall); 6] = [
    ("entries", IdleCall::Entries),
    ("hards", IdleCall::Hards),
    ("wakes", IdleCall::Wakes),
    ("len_within", IdleCall::LenWithin),
    ("sum", IdleCall::Sum),
    ("is_idle", IdleCall::IsIdle),
];

/// Says each entry: the hard events that it saw, who made it, and what it was.
fn say_entries(entries: &[IdleEntry], out: &mut Out) -> CaseReply {
    for entry in entries {
        let (hard, who) = (ReplyWord::Number(entry.hard), ReplyWord::Number(entry.who));
        out.say(CaseReply::Three(hard, who, ReplyWord::Idle(entry.what)));
    }
    CaseReply::Nothing
}

/// How many entries of a kind there are.
fn count_of(entries: &[IdleEntry], kind: IdleKind) -> u32 {
    let mut count = 0u32;
    for entry in entries {
        count = count.saturating_add(u32::from(entry.what == kind));
    }
    count
}

/// One number of all entries, in their order.
fn sum_of(entries: &[IdleEntry]) -> u32 {
    let mut sum = 0u32;
    for entry in entries {
        sum = sum
            .wrapping_mul(31)
            .wrapping_add(entry.hard.wrapping_mul(256))
            .wrapping_add(entry.who.wrapping_mul(8))
            .wrapping_add(entry.what as u32);
    }
    sum
}

/// Whether a number is between the two that words give.
fn is_within(count: usize, words: Words) -> bool {
    words.number(0) as usize <= count && count <= words.number(1) as usize
}

impl CaseRunner<IdleCall> for IdleLog {
    /// Answers a question about a log.
    fn answer(&mut self, call: IdleCall, rest: &str, out: &mut Out) -> CaseReply {
        let entries = self.entries.as_slice();
        CaseReply::One(match call {
            IdleCall::Entries => return say_entries(entries, out),
            IdleCall::Hards => ReplyWord::Number(count_of(entries, IdleKind::Hard)),
            IdleCall::Wakes => ReplyWord::Number(count_of(entries, IdleKind::Wake)),
            IdleCall::LenWithin => ReplyWord::Flag(is_within(entries.len(), Words::of(rest))),
            IdleCall::Sum => ReplyWord::Number(sum_of(entries)),
            IdleCall::IsIdle => ReplyWord::Flag(self.idle),
        })
    }
}

/// Whether there are 1 to 16 wakers, and 1 to 1,000 events and sessions.
fn are_sizes(sizes: IdleSizes) -> bool
    ensures { OnTrue result (AreSizes sizes) }
{
    (1..=16).contains(&sizes.wakers)
        && (1..=1000).contains(&sizes.events)
        && (1..=1000).contains(&sizes.sessions)
}

/// The log of a run of these sizes.
pub fn idle_log<R: Threads + Wait + Sync>(
    rt: &R,
    alloc: Global,
    words: Words,
) -> Result<IdleLog, Mem> {
    let sizes = IdleSizes {
        wakers: words.number(0),
        events: words.number(1),
        sessions: words.number(2),
    };
    if !are_sizes(sizes) {
        return Err(Mem);
    }
    run_idle(rt, alloc, sizes, 1)
}
