//! The words of lines that mean no value of a type of their own, each in one row for the reader and the
//! writer.

/// An answer without an error.
pub const NO_ERROR: &str = "0";

/// A task begins to wait, for the end of events or for the autosleep lock.
pub const WAIT: &str = "wait";

/// A count was saved.
pub const OK: &str = "ok";

/// A write to the state found that the count was not saved.
pub const UNSAVED: &str = "unsaved";

/// What autosleep was set to.
pub const SET: &str = "set";

/// A write to autosleep is over.
pub const DONE: &str = "done";

/// An event is in progress.
pub const BUSY: &str = "busy";

/// An attempt without a saved count.
pub const PLAIN: &str = "plain";

/// An attempt with one.
pub const GUARDED: &str = "guarded";

/// A notifier's call before an attempt.
pub const PREPARE: &str = "prepare";

/// A notifier's call after it.
pub const POST: &str = "post";

/// A freeze failed by time.
pub const TIMEOUT: &str = "timeout";

/// A freeze failed by a wakeup.
pub const WAKEUP: &str = "wakeup";

/// All tasks are let go.
pub const ALL: &str = "all";

/// A processor, or interrupts.
pub const OFF: &str = "off";

/// A processor, or interrupts.
pub const ON: &str = "on";

/// The core's test for a wakeup.
pub const CHECK: &str = "check";

/// A step of the core on the way down.
pub const SUSPEND: &str = "suspend";

/// A step of the core on the way up.
pub const RESUME: &str = "resume";

/// An event woke the machine.
pub const EVENT: &str = "event";

/// The alarm woke it.
pub const ALARM: &str = "alarm";

/// A hard event.
pub const HARD: &str = "hard";

/// A soft one.
pub const SOFT: &str = "soft";

/// The autosleep work makes an entry.
pub const AUTO: &str = "auto";

/// Time jumps.
pub const TIME: &str = "time";

/// An asynchronous device makes an entry.
pub const DEVICE: &str = "dev";

/// A source's timer makes it.
pub const TIMER: &str = "timer";

/// The line of a run that finished.
pub const FINISHED: &str = "finished\n";
