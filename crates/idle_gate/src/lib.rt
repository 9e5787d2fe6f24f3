//! The state of the idler of suspend-to-idle (`kernel/power/suspend.c`, `s2idle_state`, `s2idle_lock`): its
//! gate with the guard, and what one waker has made. Wrong bodies of it are cheap here, so it is below the
//! run of `idle_loop`. Its tests are those of `idle_loop`.
//!
//! Promises: The idler's calls do what the rule says, for 1 to 24 visible bits. A session forgets the hard
//! events so far, and a look enters exactly if none came since. A wake calls an idler that has entered, and
//! one that was called comes back. A waker is done if it has made the wake of each of its hard events. By the
//! clauses of `IdleGate::begin`, `try_enter`, `wake`, `leave`; `WakerNow::is_done`.
//!
//! Begin reading in `src/gate.rt`, `specs/Gates.antt`.
#![tactic(auto)]

mod gate;
mod state;
mod waker;

pub use gate::IdleGate;
pub use state::IdleState;
pub use waker::WakerNow;
