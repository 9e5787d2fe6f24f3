//! What every holder of the event word can do: look at it, and move it.

ghost use Rattle.std.specs.Prelude.{◌≡◌, ◌≤◌, ◌+◌, ℕ, Bool, List, Option};
ghost use Rattle.sleep_model.specs.declared.word.EventNow.{EventNow};
ghost use Rattle.sleep_model.specs.declared.word.WordKind.{WordKind};
ghost use Rattle.sleep_model.specs.declared.word.WordKind.TheVariants.{Start, Finish, Hard};
ghost use Rattle.sleep_model.specs.Word.{position};
ghost use Rattle.event_word.specs.Looks.{IsShown, GainsLook, GrewTo};
ghost use Rattle.event_word.specs.Steps.{MadeStep, shown_after, made_after, CanMake, RestCanFollow};

use sleep_model::{EventNow, pos};
use std::sync::Wait;

/// The event word as one holder sees it (`drivers/base/power/wakeup.c`, `combined_event_count`).
pub trait Events {
    /// The word, if no other thread can move it.
    ghost shows: { Self → Option EventNow };

    /// The words looked at, the newest first, if the holder shows them.
    ghost looked: { Self → Option (List EventNow) };

    /// The steps that this holder made, the newest first, if it shows them.
    ghost made: { Self → Option (List MadeStep) };

    /// Whether this holder can make these steps next, in this order.
    ghost can: { Self → List WordKind → Bool };

    /// The least position that the next look may answer.
    ghost floor: { Self → ℕ };

    /// What never changes in it.
    ghost Root: { Type 0 };

    ghost root: { Self → Root };

    /// The word now.
    fn look(&mut self) -> EventNow
        ensures shown { IsShown (shows self.old) result }
        ensures shows { shows self.new ≡ shows self.old }
        ensures looked { GainsLook result (looked self.old) (looked self.new) }
        ensures made { made self.new ≡ made self.old }
        ensures can { can self.new ≡ can self.old }
        ensures root { root self.new ≡ root self.old }
        ensures low { floor self.old ≤ position result }
        ensures floor { floor self.new ≡ position result };
}

/// The event word as a holder sees it that moves it. Each step answers the word before it.
pub trait Bump: Events {
    /// An event begins (`wakeup_source_activate`).
    fn start(&mut self) -> EventNow
        requires { CanMake (Self.can self.old) Start }
        ensures shown { IsShown (Self.shows self.old) result }
        ensures shows { Self.shows self.new ≡ shown_after Start (Self.shows self.old) }
        ensures looked { Self.looked self.new ≡ Self.looked self.old }
        ensures made { Self.made self.new ≡ made_after Start result (Self.made self.old) }
        ensures can { RestCanFollow Start (Self.can self.old) (Self.can self.new) }
        ensures root { Self.root self.new ≡ Self.root self.old }
        ensures low { Self.floor self.old ≤ position result }
        ensures floor { Self.floor self.new ≡ position result + 1 };

    /// An event in progress is registered (`wakeup_source_deactivate`).
    fn finish(&mut self) -> EventNow
        requires { CanMake (Self.can self.old) Finish }
        ensures shown { IsShown (Self.shows self.old) result }
        ensures shows { Self.shows self.new ≡ shown_after Finish (Self.shows self.old) }
        ensures looked { Self.looked self.new ≡ Self.looked self.old }
        ensures made { Self.made self.new ≡ made_after Finish result (Self.made self.old) }
        ensures can { RestCanFollow Finish (Self.can self.old) (Self.can self.new) }
        ensures root { Self.root self.new ≡ Self.root self.old }
        ensures low { Self.floor self.old ≤ position result }
        ensures floor { Self.floor self.new ≡ position result + 1 };

    /// A hard event is counted (`pm_system_wakeup`).
    fn hard(&mut self) -> EventNow
        requires { CanMake (Self.can self.old) Hard }
        ensures shown { IsShown (Self.shows self.old) result }
        ensures shows { Self.shows self.new ≡ shown_after Hard (Self.shows self.old) }
        ensures looked { Self.looked self.new ≡ Self.looked self.old }
        ensures made { Self.made self.new ≡ made_after Hard result (Self.made self.old) }
        ensures can { RestCanFollow Hard (Self.can self.old) (Self.can self.new) }
        ensures root { Self.root self.new ≡ Self.root self.old }
        ensures low { Self.floor self.old ≤ position result }
        ensures floor { Self.floor self.new ≡ position result + 1 };
}

/// Looks until the word's position is at least `floor`.
#[tactic(auto, using(crate::proofs::Looking::not_grown, crate::proofs::Looking::grew, crate::proofs::Looking::still_grown))]
fn look_on<R: Wait, E: Events>(rt: &R, events: &mut E, floor: u64) -> EventNow
    ensures shown { IsShown (E.shows events.old) result }
    ensures shows { E.shows events.new ≡ E.shows events.old }
    ensures grows { GrewTo result (E.looked events.old) (E.looked events.new) }
    ensures made { E.made events.new ≡ E.made events.old }
    ensures can { E.can events.new ≡ E.can events.old }
    ensures root { E.root events.new ≡ E.root events.old }
    ensures low { floor ≤ position result }
    ensures rises { E.floor events.old ≤ position result }
    ensures floor { E.floor events.new ≡ position result }
{
    for _ in rt.forever() {
        let now = events.look();
        if pos(now) >= floor {
            return now;
        }
    }
    unreachable!()
}

/// Looks until the word's position is at least `floor`, which the first look nearly always finds.
#[inline(always)]
#[tactic(auto, using(crate::proofs::Looking::grew_once, crate::proofs::Looking::grew_on))]
pub fn look_from<R: Wait, E: Events>(rt: &R, events: &mut E, floor: u64) -> EventNow
    ensures shown { IsShown (E.shows events.old) result }
    ensures shows { E.shows events.new ≡ E.shows events.old }
    ensures grows { GrewTo result (E.looked events.old) (E.looked events.new) }
    ensures made { E.made events.new ≡ E.made events.old }
    ensures can { E.can events.new ≡ E.can events.old }
    ensures root { E.root events.new ≡ E.root events.old }
    ensures low { floor ≤ position result }
    ensures rises { E.floor events.old ≤ position result }
    ensures floor { E.floor events.new ≡ position result }
{
    let now = events.look();
    if pos(now) < floor {
        return look_on(rt, events, floor);
    }
    now
}
