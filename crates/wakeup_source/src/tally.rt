//! What is counted of a source: its event in progress, and its statistics.
ghost use Rattle.std.specs.Prelude.{◌≡◌, ◌≤◌, ◌<◌, ◌+◌, ◌^◌, [], None};
ghost use Rattle.sleep_model.specs.Sources.{has_expired, run_time, later};
ghost use Rattle.sleep_model.specs.declared.word.WordKind.TheVariants.{Finish};
ghost use Rattle.wakeup_source.specs.Tallies.{tally_of, expiry_by, tally_noted, tally_stepped, stats_by};

use sleep_model::{SourceCall, Stats, WordKind};

/// What is counted of a wakeup source (`include/linux/pm_wakeup.h`, `struct wakeup_source`). Times
/// are in ms.
#[derive(Drop)]
pub(crate) struct Tally {
    /// When the event in progress began, and when it ends by itself.
    pub(crate) since: Option<u64>,
    pub(crate) expiry: Option<u64>,
    pub(crate) active_count: u32,
    pub(crate) event_count: u32,
    pub(crate) expire_count: u32,
    /// Of the times that the source was active and that ended: their sum, and the longest.
    pub(crate) total: u64,
    pub(crate) longest: u64,
    /// The last start or finish.
    pub(crate) last: u64,
}

/// The expiry after an event of that length: a later one before it is not cut (`pm_wakeup_ws_event`).
#[inline(always)]
fn expiry_by(ms: u32, now: u64, before: Option<u64>) -> Option<u64>
    requires { now ≤ 2 ^ 63 }
    ensures { result ≡ expiry_by ms now before }
{
    if ms == 0 {
        return before;
    }
    let end = now + u64::from(ms);
    match before {
        None => Some(end),
        Some(stands) => Some(end.max(stands)),
    }
}

impl Tally {
    /// What is counted of a source that was never called.
    pub(crate) fn new() -> Self
        ensures { result ≡ tally_of [] }
    {
        Tally {
            since: None,
            expiry: None,
            active_count: 0,
            event_count: 0,
            expire_count: 0,
            total: 0,
            longest: 0,
            last: 0,
        }
    }

    /// Counts the note of a call (`wakeup_source_report_event`, `__pm_stay_awake`, `pm_wakeup_timer_fn`).
    #[inline(always)]
    pub(crate) fn note(&mut self, call: SourceCall, now: u64)
        requires events { self.old.event_count + 1 < 2 ^ 32 }
        requires expiries { self.old.expire_count + 1 < 2 ^ 32 }
        requires now { now ≤ 2 ^ 63 }
        ensures { self.new ≡ tally_noted call now self.old }
    {
        match call {
            SourceCall::Awake => {
                self.event_count += 1;
                self.expiry = None;
            }
            SourceCall::Relax => {}
            SourceCall::Event { ms, .. } => {
                self.event_count += 1;
                self.expiry = expiry_by(ms, now, self.expiry);
            }
            SourceCall::Expire => self.expire_count += 1,
        }
    }

    /// Counts a step on the word (`wakeup_source_activate`, `wakeup_source_deactivate`).
    #[inline(always)]
    pub(crate) fn step(&mut self, step: WordKind, now: u64)
        requires starts { self.old.active_count + 1 < 2 ^ 32 }
        requires total { self.old.total + run_time self.old.since now < 2 ^ 64 }
        ensures { self.new ≡ tally_stepped step now self.old }
    {
        match step {
            WordKind::Start => {
                self.since = Some(now);
                self.active_count += 1;
                self.last = now;
            }
            WordKind::Finish => self.finish(now),
            WordKind::Hard => {}
        }
    }

    /// The event in progress, if one is, has ended: it counts among those that lasted.
    #[inline(always)]
    fn finish(&mut self, now: u64)
        requires { self.old.total + run_time self.old.since now < 2 ^ 64 }
        ensures { self.new ≡ tally_stepped Finish now self.old }
    {
        let lasted = self.active_time(now);
        self.since = None;
        self.expiry = None;
        self.total += lasted;
        self.longest = self.longest.max(lasted);
        self.last = now;
    }

    /// How long the event in progress has lasted by that moment.
    #[inline(always)]
    fn active_time(&self, at: u64) -> u64
        ensures { result ≡ run_time self.now.since at }
    {
        match self.since {
            Some(since) => at.saturating_sub(since),
            None => 0,
        }
    }

    /// Whether the moment has come at which the event in progress ends by itself.
    #[inline(always)]
    pub(crate) fn has_expired(&self, now: u64) -> bool
        ensures { result ≡ has_expired self.now.expiry now }
    {
        match self.expiry {
            Some(end) => end <= now,
            None => false,
        }
    }

    /// The statistics at that moment, with the event in progress (`print_wakeup_source_stats`).
    pub(crate) fn stats(&self, at: u64) -> Stats
        requires { self.now.total + run_time self.now.since at < 2 ^ 64 }
        ensures { result ≡ stats_by self.now at }
    {
        let active_time = self.active_time(at);
        Stats {
            active_count: self.active_count,
            event_count: self.event_count,
            expire_count: self.expire_count,
            active_time,
            total_time: self.total + active_time,
            max_time: self.longest.max(active_time),
            last_time: self.last,
        }
    }
}
