//! Who makes an entry, at the beginning of a text, compared with its one spelling.

ghost use Rattle.std.specs.Prelude.{◌≡◌, ◌++◌, IfSome, true};
ghost use Rattle.sleep_model.specs.Fits.{fits_actor};
ghost use Rattle.log_words.specs.Front.{maker_text};

use crate::reading::cut::first_word;
use crate::reading::entries::actor_in;
use crate::reading::last_named::LastNamed;
use crate::reading::machine_names::MachineNames;
use crate::reading::pieces::after_piece;
use sleep_model::Actor;

/// Whether an actor is the machine's.
fn is_there(machine_names: &MachineNames, who: Actor) -> bool
    ensures { result ≡ fits_actor machine_names.now who }
{
    let machine = machine_names.machine();
    match who {
        Actor::Script(script) => (script as usize) < machine.actors.len(),
        Actor::Dev(device) => (device as usize) < machine.devices.len(),
        Actor::Timer(source) => source as usize <= machine.sources.len(),
        Actor::Auto | Actor::Time => true,
    }
}

/// What follows that actor and a space. None if the text begins otherwise, or if there is no such actor.
#[inline(always)]
fn after_actor<'a>(machine_names: &MachineNames, who: Actor, text: &'a [u8]) -> Option<&'a [u8]>
    ensures text { IfSome result (λ rest. text.now ≡ maker_text machine_names.now who ++ rest.now) }
    ensures fits { IfSome result (λ _. fits_actor machine_names.now who ≡ true) }
{
    if !is_there(machine_names, who) {
        return None;
    }
    let maker = machine_names.names().maker(who)?;
    after_piece(text, maker.as_bytes())
}

/// Who makes an entry, by the name.
#[inline(never)]
fn actor_named<'a>(machine_names: &MachineNames, text: &'a [u8]) -> Option<(Actor, &'a [u8])>
    ensures text { IfSome result (λ r. text.now ≡ maker_text machine_names.now r.0 ++ r.1.now) }
    ensures fits { IfSome result (λ r. fits_actor machine_names.now r.0 ≡ true) }
{
    let (name, _) = first_word(text);
    let who = actor_in(machine_names, name)?;
    let rest = after_actor(machine_names, who, text)?;
    Some((who, rest))
}

/// A device that makes an entry: the one that was named last, or one guessed by its name.
#[inline(never)]
fn device_guessed<'a>(
    machine_names: &MachineNames,
    last: &LastNamed,
    text: &'a [u8],
) -> Option<(Actor, &'a [u8])>
    ensures text { IfSome result (λ r. text.now ≡ maker_text machine_names.now r.0 ++ r.1.now) }
    ensures fits { IfSome result (λ r. fits_actor machine_names.now r.0 ≡ true) }
{
    let same = Actor::Dev(last.device);
    if let Some(rest) = after_actor(machine_names, same, text) {
        return Some((same, rest));
    }
    let name = after_piece(text, b"dev:")?;
    let named = Actor::Dev(machine_names.guessed_device(name, b' '));
    let rest = after_actor(machine_names, named, text)?;
    Some((named, rest))
}

/// The name of a script that makes an entry, with what follows it.
#[inline(always)]
fn script_name(text: &[u8]) -> Option<&[u8]> {
    match after_piece(text, b"task:") {
        None => after_piece(text, b"irq:"),
        name => name,
    }
}

/// A script that makes an entry, guessed by its name.
#[inline(never)]
fn script_named<'a>(machine_names: &MachineNames, text: &'a [u8]) -> Option<(Actor, &'a [u8])>
    ensures text { IfSome result (λ r. text.now ≡ maker_text machine_names.now r.0 ++ r.1.now) }
    ensures fits { IfSome result (λ r. fits_actor machine_names.now r.0 ≡ true) }
{
    let name = script_name(text)?;
    let named = Actor::Script(machine_names.guessed_script(name, b' '));
    let rest = after_actor(machine_names, named, text)?;
    Some((named, rest))
}

/// A script that makes an entry: the one after the last, the last, or one guessed by its name.
#[inline]
fn script_guessed<'a>(
    machine_names: &MachineNames,
    last: &LastNamed,
    text: &'a [u8],
) -> Option<(Actor, &'a [u8])>
    ensures text { IfSome result (λ r. text.now ≡ maker_text machine_names.now r.0 ++ r.1.now) }
    ensures fits { IfSome result (λ r. fits_actor machine_names.now r.0 ≡ true) }
{
    let next = Actor::Script(last.script.wrapping_add(1));
    if let Some(rest) = after_actor(machine_names, next, text) {
        return Some((next, rest));
    }
    let same = Actor::Script(last.script);
    if let Some(rest) = after_actor(machine_names, same, text) {
        return Some((same, rest));
    }
    script_named(machine_names, text)
}

/// A script that makes an entry, or time, or the timer of the source that was named last.
fn task_guessed<'a>(
    machine_names: &MachineNames,
    last: &LastNamed,
    text: &'a [u8],
) -> Option<(Actor, &'a [u8])>
    ensures text { IfSome result (λ r. text.now ≡ maker_text machine_names.now r.0 ++ r.1.now) }
    ensures fits { IfSome result (λ r. fits_actor machine_names.now r.0 ≡ true) }
{
    if let Some((script, rest)) = script_guessed(machine_names, last, text) {
        return Some((script, rest));
    }
    if let Some(rest) = after_actor(machine_names, Actor::Time, text) {
        return Some((Actor::Time, rest));
    }
    let timer = Actor::Timer(last.source);
    let rest = after_actor(machine_names, timer, text)?;
    Some((timer, rest))
}

/// Who makes an entry, guessed by its first byte and by what was named last.
#[inline]
fn actor_guessed<'a>(
    machine_names: &MachineNames,
    last: &LastNamed,
    text: &'a [u8],
) -> Option<(Actor, &'a [u8])>
    ensures text { IfSome result (λ r. text.now ≡ maker_text machine_names.now r.0 ++ r.1.now) }
    ensures fits { IfSome result (λ r. fits_actor machine_names.now r.0 ≡ true) }
{
    match text.first() {
        Some(b'd') => device_guessed(machine_names, last, text),
        Some(b'i') | Some(b't') => task_guessed(machine_names, last, text),
        _ => None,
    }
}

/// Who makes an entry, and what follows the actor and a space: mostly who made the entry before. None if the
/// text begins otherwise.
#[inline]
pub fn actor_first<'a>(
    machine_names: &MachineNames,
    last: &LastNamed,
    text: &'a [u8],
) -> Option<(Actor, &'a [u8])>
    ensures text { IfSome result (λ r. text.now ≡ maker_text machine_names.now r.0 ++ r.1.now) }
    ensures fits { IfSome result (λ r. fits_actor machine_names.now r.0 ≡ true) }
{
    let same = last.actor;
    if let Some(rest) = after_actor(machine_names, same, text) {
        return Some((same, rest));
    }
    match actor_guessed(machine_names, last, text) {
        None => actor_named(machine_names, text),
        found => found,
    }
}
