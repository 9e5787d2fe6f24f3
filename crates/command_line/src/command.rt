//! The commands of the program.

/// What the program is asked to do.
#[derive(Clone, Copy, Debug, PartialEq, Eq)]
pub enum Command {
    /// To read a machine and to run it by 1 to 64 workers.
    Run {
        workers: u32,
    },
    /// To write the generated machine of a seed and 1 to 1,000 devices.
    Gen {
        seed: u64,
        devices: u32,
    },
    /// To run that machine, and to write how its run ended.
    Soak {
        seed: u64,
        devices: u32,
    },
    /// To read a machine and a log of it, and to write whether the log is legal.
    Check,
    /// To read lines that lock and unlock names, and to write their answers.
    Locks,
    /// To read a machine and a log of it, and to write the log's statistics.
    Stats,
    /// To run 1 to 16 wakers of 1 to 1,000 events each against the idler of 1 to 1,000 sessions, by 1 to 64
    /// workers.
    Idle {
        wakers: u32,
        events: u32,
        sessions: u32,
        workers: u32,
    },
}
