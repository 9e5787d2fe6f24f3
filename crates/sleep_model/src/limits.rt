//! Numbers of the kernel and of a machine that several parts need.

/// How many entries the history of a machine's source has at most.
pub const MOST_ENTRIES: usize = 60_000;

/// How long a freeze waits for its tasks, in ms (`freeze_timeout_msecs`).
pub const FREEZE_TIMEOUT_MSECS: u32 = 20_000;

/// How long the autosleep work naps, in ms, if nothing was registered during its attempt
/// (`schedule_timeout_uninterruptible`, `HZ / 2`).
pub const NAP_MSECS: u32 = 500;
