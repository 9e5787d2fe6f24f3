//! Lines of wakeup sources, read piece by piece, each compared with its one spelling.

ghost use Rattle.std.specs.Prelude.{◌≡◌, ◌++◌, ◌∷◌, IfSome, length, nat_le, true};
ghost use Rattle.sleep_model.specs.Fits.{fits_kind};
ghost use Rattle.sleep_model.specs.Text.{body, hard_word, newline, source as source_of, space};
ghost use Rattle.log_words.specs.Verbs.{verb_word};

use crate::reading::last_named::LastNamed;
use crate::reading::machine_names::MachineNames;
use crate::reading::pieces::{
    after_byte, after_last_word, after_piece, after_word, number32_first,
};
use log_words::{HARD, SOFT, Verb};
use sleep_base::cut;
use sleep_model::Kind;

/// What follows the name of that source and that byte. None if the text begins otherwise.
#[inline(always)]
fn after_source<'a>(
    machine_names: &MachineNames,
    source: u32,
    text: &'a [u8],
    end: u8,
) -> Option<&'a [u8]>
    ensures text { IfSome result (λ rest. text.now ≡ source_of machine_names.now source ++ end ∷ rest.now) }
    ensures fits { IfSome result (λ _. nat_le source (length machine_names.now.sources) ≡ true) }
{
    if source as usize > machine_names.machine().sources.len() {
        return None;
    }
    after_byte(
        after_piece(text, machine_names.names().source(source).as_bytes())?,
        end,
    )
}

/// The source whose name and that byte a text begins with, by that name.
#[inline(never)]
fn source_named<'a>(
    machine_names: &MachineNames,
    text: &'a [u8],
    end: u8,
) -> Option<(u32, &'a [u8])>
    ensures text { IfSome result (λ r. text.now ≡ source_of machine_names.now r.0 ++ end ∷ r.1.now) }
    ensures fits { IfSome result (λ r. nat_le r.0 (length machine_names.now.sources) ≡ true) }
{
    let (name, _) = cut(text, end);
    let source = machine_names.source(name)?;
    let rest = after_source(machine_names, source, text, end)?;
    Some((source, rest))
}

/// The source whose name and that byte a text begins with, and what follows them: mostly the source that the
/// line before names. None if the text begins otherwise.
#[inline(always)]
fn source_first<'a>(
    machine_names: &MachineNames,
    last: &LastNamed,
    text: &'a [u8],
    end: u8,
) -> Option<(u32, &'a [u8])>
    ensures text { IfSome result (λ r. text.now ≡ source_of machine_names.now r.0 ++ end ∷ r.1.now) }
    ensures fits { IfSome result (λ r. nat_le r.0 (length machine_names.now.sources) ≡ true) }
{
    let same = last.source;
    if let Some(rest) = after_source(machine_names, same, text, end) {
        return Some((same, rest));
    }
    source_named(machine_names, text, end)
}

/// The source that a text names after that verb, and what follows its name and that byte. None if the text
/// begins otherwise.
#[inline(always)]
fn source_after_verb<'a>(
    machine_names: &MachineNames,
    last: &LastNamed,
    verb: Verb,
    text: &'a [u8],
    end: u8,
) -> Option<(u32, &'a [u8])>
    ensures text { IfSome result (λ r. text.now ≡ verb_word verb ++ space ++ source_of machine_names.now r.0 ++ end ∷ r.1.now) }
    ensures fits { IfSome result (λ r. nat_le r.0 (length machine_names.now.sources) ≡ true) }
{
    source_first(machine_names, last, after_word(text, verb.word())?, end)
}

/// Whether an event is hard, at the end of a line, and what follows it.
#[inline]
fn hardness_first(text: &[u8]) -> Option<(bool, &[u8])>
    ensures { IfSome result (λ r. text.now ≡ hard_word r.0 ++ newline ++ r.1.now) }
{
    if let Some(rest) = after_last_word(text, HARD) {
        return Some((true, rest));
    }
    let rest = after_last_word(text, SOFT)?;
    Some((false, rest))
}

/// An event.
#[tactic(auto, using(std::proofs::Common::append_assoc))]
fn event_first<'a>(
    machine_names: &MachineNames,
    last: &LastNamed,
    text: &'a [u8],
) -> Option<(Kind, &'a [u8])>
    ensures text { IfSome result (λ r. text.now ≡ body machine_names.now r.0 ++ newline ++ r.1.now) }
    ensures fits { IfSome result (λ r. fits_kind machine_names.now r.0 ≡ true) }
{
    let (source, rest) = source_after_verb(machine_names, last, Verb::Event, text, b' ')?;
    let (ms, rest) = number32_first(rest, b' ')?;
    let (hard, rest) = hardness_first(rest)?;
    Some((Kind::Event { source, ms, hard }, rest))
}

/// What a text begins with if it names one source after that verb and no more, and what follows its line.
#[inline(always)]
#[tactic(auto, using(std::proofs::Common::append_assoc))]
fn one_source_first<'a>(
    machine_names: &MachineNames,
    last: &LastNamed,
    verb: Verb,
    text: &'a [u8],
) -> Option<(Kind, &'a [u8])>
    ensures text { IfSome result (λ r. text.now ≡ body machine_names.now r.0 ++ newline ++ r.1.now) }
    ensures fits { IfSome result (λ r. fits_kind machine_names.now r.0 ≡ true) }
{
    let (source, rest) = source_after_verb(machine_names, last, verb, text, b'\n')?;
    match verb {
        Verb::Awake => Some((Kind::Awake(source), rest)),
        Verb::Relax => Some((Kind::Relax(source), rest)),
        Verb::Expire => Some((Kind::Expire(source), rest)),
        Verb::Start => Some((Kind::Start(source), rest)),
        Verb::Finish => Some((Kind::Finish(source), rest)),
        Verb::Hard => Some((Kind::Hard(source), rest)),
        _ => None,
    }
}

/// An event, or its end by time.
fn event_or_expire<'a>(
    machine_names: &MachineNames,
    last: &LastNamed,
    text: &'a [u8],
) -> Option<(Kind, &'a [u8])>
    ensures text { IfSome result (λ r. text.now ≡ body machine_names.now r.0 ++ newline ++ r.1.now) }
    ensures fits { IfSome result (λ r. fits_kind machine_names.now r.0 ≡ true) }
{
    match event_first(machine_names, last, text) {
        None => one_source_first(machine_names, last, Verb::Expire, text),
        found => found,
    }
}

/// What a text begins with of a source, and what follows its line.
pub fn source_kind_first<'a>(
    machine_names: &MachineNames,
    last: &LastNamed,
    text: &'a [u8],
) -> Option<(Kind, &'a [u8])>
    ensures text { IfSome result (λ r. text.now ≡ body machine_names.now r.0 ++ newline ++ r.1.now) }
    ensures fits { IfSome result (λ r. fits_kind machine_names.now r.0 ≡ true) }
{
    match text.first() {
        Some(b'e') => event_or_expire(machine_names, last, text),
        Some(b's') => one_source_first(machine_names, last, Verb::Start, text),
        Some(b'f') => one_source_first(machine_names, last, Verb::Finish, text),
        Some(b'h') => one_source_first(machine_names, last, Verb::Hard, text),
        Some(b'a') => one_source_first(machine_names, last, Verb::Awake, text),
        Some(b'r') => one_source_first(machine_names, last, Verb::Relax, text),
        _ => None,
    }
}
