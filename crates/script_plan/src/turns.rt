//! Which entries end a turn of a script's steps.

ghost use Rattle.std.specs.Prelude.{◌≡◌};
ghost use Rattle.sleep_model.specs.Calls.{ends_turn};

use sleep_model::Kind;

/// Whether an entry ends a turn of its actor's own steps: a step, or the setting of autosleep, which a good
/// write has besides its end (`pm_autosleep_set_state`).
pub fn ends_turn(kind: Kind) -> bool
    ensures { result ≡ ends_turn kind }
{
    matches!(
        kind,
        Kind::AutoSet(_)
            | Kind::Read(_)
            | Kind::ReadIntr
            | Kind::Saved(_)
            | Kind::SaveErr(..)
            | Kind::StateErr(_)
            | Kind::StateUnsaved
            | Kind::Over { .. }
            | Kind::AutoBad
            | Kind::AutoDone
            | Kind::Slept
            | Kind::Pass
            | Kind::Post(_)
            | Kind::Got(_)
            | Kind::RuntimeAsk { .. }
            | Kind::LinkAdd { .. }
            | Kind::LinkState { .. }
    )
}
