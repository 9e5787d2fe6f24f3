//! The lines of sources and of stuck scripts, read.
ghost use Rattle.std.specs.Prelude.{◌≡◌, true, IfSome};
ghost use Rattle.sleep_model.specs.Fits.{fits_stats, fits_script, fits_cause, is_word32};
ghost use Rattle.log_text.specs.Reading.{times_in, stats_in, why_in, waiting_in};

use crate::reading::cut::{first_word, is};
use crate::reading::machine_names::MachineNames;
use crate::reading::number::{word32, word64};
use log_words::Verb;
use sleep_base::cut;
use sleep_model::{Actor, Stats, Waiting, Why};

/// The statistics with these counts, by the text of the times after them.
fn times_in(active_count: u32, event_count: u32, expire_count: u32, text: &[u8]) -> Option<Stats>
    requires active { is_word32 active_count ≡ true }
    requires event { is_word32 event_count ≡ true }
    requires expire { is_word32 expire_count ≡ true }
    ensures stats { result ≡ times_in active_count event_count expire_count text.now }
    ensures fits { IfSome result (λ s. fits_stats s ≡ true) }
{
    let (active_time, rest) = first_word(text);
    let (total_time, rest) = first_word(rest);
    let (max_time, last_time) = first_word(rest);
    let active_time = word64(active_time)?;
    let total_time = word64(total_time)?;
    let max_time = word64(max_time)?;
    let last_time = word64(last_time)?;
    Some(Stats {
        active_count,
        event_count,
        expire_count,
        active_time,
        total_time,
        max_time,
        last_time,
    })
}

/// The statistics that the text after a source's name has to spell, if it spells any.
pub fn stats_in(text: &[u8]) -> Option<Stats>
    ensures stats { result ≡ stats_in text.now }
    ensures fits { IfSome result (λ s. fits_stats s ≡ true) }
{
    let (active, rest) = first_word(text);
    let (event, rest) = first_word(rest);
    let (expire, times) = first_word(rest);
    let active = word32(active)?;
    let event = word32(event)?;
    let expire = word32(expire)?;
    times_in(active, event, expire, times)
}

/// What a script that never exits waits for.
fn why_in(machine_names: &MachineNames, text: &[u8]) -> Option<Why>
    ensures why { result ≡ why_in machine_names.now text.now }
    ensures fits { IfSome result (λ w. fits_cause machine_names.now w ≡ true) }
{
    if is(text, Verb::Read.word()) {
        return Some(Why::InProgress);
    }
    let (_, mark) = first_word(text);
    Some(Why::Mark(machine_names.mark(mark)?))
}

/// The script that never exits that the text after `stuck` has to spell, if it spells one.
pub fn waiting_in(machine_names: &MachineNames, text: &[u8]) -> Option<Waiting>
    ensures waiting { result ≡ waiting_in machine_names.now text.now }
    ensures script { IfSome result (λ w. fits_script machine_names.now w.actor ≡ true) }
    ensures cause { IfSome result (λ w. fits_cause machine_names.now w.why ≡ true) }
{
    let (actor, rest) = first_word(text);
    let (_, name) = cut(actor, b':');
    let script = machine_names.script(name)?;
    let why = why_in(machine_names, rest)?;
    Some(Waiting {
        actor: Actor::Script(script),
        why,
    })
}
