//! With 24 bits a guard says what the log's definitions say.

ghost use Rattle.std.specs.Prelude.{◌≡◌, ◌||◌, nat_lt, ℕ, Option};
ghost use Rattle.sleep_model.specs.declared.entry.Kind.{Kind};
ghost use Rattle.sleep_model.specs.Word.{visible};
ghost use Rattle.sleep_model.specs.Guard.{count_pending, count_effect, force_after, forgotten_after};
ghost use Rattle.wakeup_guard.specs.Guarded.{Guarded, visible_part, is_wakeup_pending, guarded_after};

use sleep_model::{EventNow, Kind};

/// The visible count of 24 bits is that of the log.
pub fn twenty_four_bits_are_visible(now: EventNow)
    ensures { visible_part 24 now ≡ visible now }
{}

/// What is pending by 24 bits is pending in the log.
pub fn twenty_four_bits_are_pending(now: EventNow)
    ensures { (g : Guarded) → is_wakeup_pending 24 g now ≡ (count_pending g.force now || nat_lt g.forgotten now.hard) }
{}

/// What an entry leaves in force by 24 bits it leaves in force in the log.
pub fn twenty_four_bits_are_in_force(kind: Kind, now: EventNow)
    ensures force { (g : Guarded) → (guarded_after 24 kind now g).force ≡ force_after (count_effect kind) now g.force }
    ensures forgotten { (g : Guarded) → (guarded_after 24 kind now g).forgotten ≡ forgotten_after kind now g.forgotten }
{}
