//! The phases of an attempt, with their names and what the table says of each.
ghost use Rattle.std.specs.Prelude.{◌≡◌, ◌≢◌, IfSome, IfNone, bytes_eq};
ghost use Rattle.phase_table.specs.declared.phase.Phase.{Phase};
ghost use Rattle.phase_table.specs.Phases.{mirror, is_forward, is_down, is_up, tests_wakeup, phase_name, phase_named, table_row, table_rows};

use crate::{CaseTable, PhaseRow};

/// A phase of the devices' way into sleep and out of it (`drivers/base/power/main.c`).
#[derive(Clone, Copy, Debug, PartialEq, Eq)]
pub enum Phase {
    Prepare,
    Suspend,
    Late,
    Noirq,
    Syscore,
    SyscoreResume,
    ResumeNoirq,
    Early,
    Resume,
    Complete,
}

/// Picks one column of the table of phases: each phase with its mirror, its direction in the order of
/// devices, whether devices go down or come up in it, whether it tests for a wakeup, and its name.
macro_rules! by_phase {
    (@mirror $from:expr; $($phase:ident $mirror:ident $ways:tt $name:literal;)*) => {
        match $from { $(Phase::$phase => Phase::$mirror,)* }
    };
    (@forward $from:expr; $($phase:ident $mirror:ident [$forward:literal $down:literal $up:literal $checks:literal] $name:literal;)*) => {
        match $from { $(Phase::$phase => $forward,)* }
    };
    (@down $from:expr; $($phase:ident $mirror:ident [$forward:literal $down:literal $up:literal $checks:literal] $name:literal;)*) => {
        match $from { $(Phase::$phase => $down,)* }
    };
    (@up $from:expr; $($phase:ident $mirror:ident [$forward:literal $down:literal $up:literal $checks:literal] $name:literal;)*) => {
        match $from { $(Phase::$phase => $up,)* }
    };
    (@checks $from:expr; $($phase:ident $mirror:ident [$forward:literal $down:literal $up:literal $checks:literal] $name:literal;)*) => {
        match $from { $(Phase::$phase => $checks,)* }
    };
    (@name $from:expr; $($phase:ident $mirror:ident $ways:tt $name:literal;)*) => {
        match $from { $(Phase::$phase => $name,)* }
    };
    (@named $from:expr; $($phase:ident $mirror:ident $ways:tt $name:literal;)*) => {
        [$(Phase::$phase),*].iter().copied().find(|phase| phase.is_named($from))
    };
    (@rows $from:expr; $($phase:ident $mirror:ident $ways:tt $name:literal;)*) => {
        [$($from(Phase::$phase)),*]
    };
    ($column:ident of $from:expr) => {
        by_phase! { @$column $from;
            Prepare Complete [true false false false] "prepare";
            Suspend Resume [false true false true] "suspend";
            Late Early [false true false true] "late";
            Noirq ResumeNoirq [false true false false] "noirq";
            Syscore SyscoreResume [false false false false] "syscore";
            SyscoreResume Syscore [true false false false] "syscore_resume";
            ResumeNoirq Noirq [true false true false] "resume_noirq";
            Early Late [true false true false] "early";
            Resume Suspend [true false true false] "resume";
            Complete Prepare [false false false false] "complete";
        }
    };
}

impl Phase {
    /// The phase that undoes this one, or that this one undoes (`dpm_complete`, `dpm_resume`,
    /// `dpm_resume_early`, `dpm_resume_noirq`, `syscore_resume`).
    pub fn mirror(self) -> Phase
        ensures { result ≡ mirror self }
    {
        by_phase!(mirror of self)
    }

    /// Whether the phase walks forward through the order of devices, suppliers first.
    pub fn forward(self) -> bool
        ensures { result ≡ is_forward self }
    {
        by_phase!(forward of self)
    }

    /// Whether devices go down in it, each after all below it (`dpm_suspend`, `dpm_suspend_late`,
    /// `dpm_suspend_noirq`).
    pub fn is_down(self) -> bool
        ensures { result ≡ is_down self }
    {
        by_phase!(down of self)
    }

    /// Whether devices come up in it, each after all above it (`dpm_resume_noirq`,
    /// `dpm_resume_early`, `dpm_resume`).
    pub fn is_up(self) -> bool
        ensures { result ≡ is_up self }
    {
        by_phase!(up of self)
    }

    /// Whether it tests for a wakeup before each device's callback (`__device_suspend`,
    /// `__device_suspend_late`).
    pub fn checks_wakeup(self) -> bool
        ensures { result ≡ tests_wakeup self }
    {
        by_phase!(checks of self)
    }

    /// The phase's name as the log and the machine file spell it, such as `resume_noirq`.
    pub fn name(self) -> &'static str
        ensures { result.now ≡ phase_name self }
    {
        by_phase!(name of self)
    }

    /// Whether these bytes are its name.
    fn is_named(self, bytes: &[u8]) -> bool
        ensures { result ≡ bytes_eq bytes.now (phase_name self) }
    {
        bytes == self.name().as_bytes()
    }

    /// The phase whose name these bytes are, if there is one.
    fn named(bytes: &[u8]) -> Option<Phase>
        ensures phase { result ≡ phase_named bytes.now }
        ensures found { IfSome result (λ p. bytes.now ≡ phase_name p) }
    {
        by_phase!(named of bytes)
    }

    /// The phase of that name. None exactly if the text is no phase's name.
    pub fn of_name(text: &str) -> Option<Phase>
        ensures phase { result ≡ phase_named text.now }
        ensures found { IfSome result (λ p. text.now ≡ phase_name p) }
        ensures none { IfNone result ((p : Phase) → text.now ≢ phase_name p) }
    {
        Phase::of_bytes(text.as_bytes())
    }

    /// The phase whose name these bytes are. None exactly if they are no phase's name.
    #[tactic(auto, using(crate::proofs::Naming::none_named))]
    pub fn of_bytes(bytes: &[u8]) -> Option<Phase>
        ensures phase { result ≡ phase_named bytes.now }
        ensures found { IfSome result (λ p. bytes.now ≡ phase_name p) }
        ensures none { IfNone result ((p : Phase) → bytes.now ≢ phase_name p) }
    {
        Phase::named(bytes)
    }
}

/// What the table says of a phase.
fn row_of(phase: Phase) -> PhaseRow
    ensures { result ≡ table_row phase }
{
    PhaseRow {
        phase,
        mirror: phase.mirror(),
        forward: phase.forward(),
        down: phase.is_down(),
        checks: phase.checks_wakeup(),
    }
}

/// The table of the ten phases, in the order of an undisturbed attempt.
pub fn phases() -> CaseTable<10>
    ensures { result.rows ≡ table_rows }
{
    CaseTable {
        rows: by_phase!(rows of row_of),
    }
}
