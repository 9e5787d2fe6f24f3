//! A look at the event word that sees at least as many events as an earlier one.

ghost use Rattle.std.specs.Prelude.{◌≡◌, ◌≤◌};
ghost use Rattle.sleep_model.specs.Word.{position};
ghost use Rattle.event_word.specs.Looks.{GrewTo};

use event_word::Events;
use sleep_model::EventNow;
use std::sync::Wait;

/// Looks until the word counts at least `least` hard events, which the first look nearly always finds.
#[tactic(auto, using(event_word::proofs::Looking::not_grown, event_word::proofs::Looking::grew, event_word::proofs::Looking::still_grown))]
pub(crate) fn look_for<R: Wait, E: Events>(rt: &R, events: &mut E, least: u64) -> EventNow
    ensures low { least ≤ result.hard }
    ensures grows { GrewTo result (E.looked events.old) (E.looked events.new) }
    ensures made { E.made events.new ≡ E.made events.old }
    ensures root { E.root events.new ≡ E.root events.old }
    ensures floor { E.floor events.new ≡ position result }
{
    for _ in rt.forever() {
        let now = events.look();
        if u64::from(now.hard) >= least {
            return now;
        }
    }
    unreachable!()
}
