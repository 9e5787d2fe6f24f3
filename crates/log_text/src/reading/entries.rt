//! The line of an entry, read: its event word, its actor and what it says.
ghost use Rattle.std.specs.Prelude.{◌≡◌, true, IfSome};
ghost use Rattle.sleep_model.specs.Fits.{fits_word, fits_actor, fits_entry, is_word64};
ghost use Rattle.log_text.specs.Reading.{now_in, actor_in, entry_by_text, entry_in};

use crate::reading::cut::{first_word, is};
use crate::reading::kinds::kind_in;
use crate::reading::machine_names::MachineNames;
use crate::reading::number::{word32, word64};
use log_words::{AUTO, DEVICE, TIME, TIMER};
use sleep_base::cut;
use sleep_model::{Actor, Entry, EventNow};

/// The word that the text spells: events in progress, registered, hard.
pub fn now_in(text: &[u8]) -> Option<EventNow>
    ensures now { result ≡ now_in text.now }
    ensures fits { IfSome result (λ n. fits_word n ≡ true) }
{
    let (inpr, rest) = cut(text, b'/');
    let (count, hard) = cut(rest, b'/');
    let inpr = word32(inpr)?;
    let count = word32(count)?;
    let hard = word32(hard)?;
    Some(EventNow { inpr, count, hard })
}

/// Who makes an entry.
pub fn actor_in(machine_names: &MachineNames, text: &[u8]) -> Option<Actor>
    ensures actor { result ≡ actor_in machine_names.now text.now }
    ensures fits { IfSome result (λ a. fits_actor machine_names.now a ≡ true) }
{
    if is(text, AUTO) {
        return Some(Actor::Auto);
    }
    if is(text, TIME) {
        return Some(Actor::Time);
    }
    let (kind, name) = cut(text, b':');
    if is(kind, DEVICE) {
        return Some(Actor::Dev(machine_names.device(name)?));
    }
    if is(kind, TIMER) {
        return Some(Actor::Timer(machine_names.source(name)?));
    }
    Some(Actor::Script(machine_names.script(name)?))
}

/// The entry of that moment and that word, by the text after them.
fn entry_by_text(
    machine_names: &MachineNames,
    time: u64,
    now: EventNow,
    text: &[u8],
) -> Option<Entry>
    requires time { is_word64 time ≡ true }
    requires now { fits_word now ≡ true }
    ensures entry { result ≡ entry_by_text machine_names.now time now text.now }
    ensures fits { IfSome result (λ e. fits_entry machine_names.now e ≡ true) }
{
    let (actor, rest) = first_word(text);
    let actor = actor_in(machine_names, actor)?;
    let kind = kind_in(machine_names, rest)?;
    Some(Entry {
        time,
        now,
        actor,
        kind,
    })
}

/// The entry that a line without its newline has to spell, if it spells one. Its numbers fit the
/// machine.
pub fn entry_in(machine_names: &MachineNames, text: &[u8]) -> Option<Entry>
    ensures entry { result ≡ entry_in machine_names.now text.now }
    ensures fits { IfSome result (λ e. fits_entry machine_names.now e ≡ true) }
{
    let (time, rest) = first_word(text);
    let (now, rest) = first_word(rest);
    let time = word64(time)?;
    let now = now_in(now)?;
    entry_by_text(machine_names, time, now, rest)
}
