//! The state of the idler of suspend-to-idle.

/// The state of the idler (`enum s2idle_states`, `s2idle_state`).
#[derive(Clone, Copy, Debug, PartialEq, Eq)]
pub enum IdleState {
    /// It is awake (`S2IDLE_STATE_NONE`).
    Idle,
    /// It has entered (`S2IDLE_STATE_ENTER`).
    Enter,
    /// A waker has called it (`S2IDLE_STATE_WAKE`).
    Wake,
}
