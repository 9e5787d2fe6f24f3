//! The words after `idle`.

ghost use Rattle.std.specs.Prelude.{◌≡◌, ◌≤◌, ◌++◌, ◌∷◌, length, map, string_bytes};
ghost use Rattle.command_line.specs.Words.{begins_option, after_option, idle_of, idle_sized, idle_sizes, option_index, workers_named, workers_number};

use crate::command::Command;
use crate::number::number_in;

/// How many workers one word asks for, as `--workers=4`.
fn workers_word(word: &str) -> Option<u64>
    ensures { result ≡ workers_number word.now }
{
    match word.strip_prefix("--workers=") {
        Some(number) => number_in(1, 64, number),
        None => None,
    }
}

/// Whether the option begins with this word: by itself, or in one word with its number.
fn begins_option(word: &str) -> bool
    ensures { result ≡ begins_option word.now }
{
    word == "--workers" || word.starts_with("--workers=")
}

/// How many words come before the option; all, if there is none.
fn option_index(words: &[String]) -> usize
    ensures place { result ≡ option_index (map string_bytes words.now) }
    ensures most { result ≤ length words.now }
{
    for (place, word) in words.iter().enumerate() {
        if begins_option(word.as_str()) {
            return place;
        }
    }
    words.len()
}

/// How many workers the option asks for that begins these words; four, if no word is left.
fn workers_named(words: &[String]) -> Option<u64>
    ensures { result ≡ workers_named (map string_bytes words.now) }
{
    match words {
        [] => Some(4),
        [option, number, ..] if option.as_str() == "--workers" => number_in(1, 64, number.as_str()),
        [word, ..] => workers_word(word.as_str()),
    }
}

/// The words after the option that begins these.
fn after_option(words: &[String]) -> &[String]
    ensures { map string_bytes result.now ≡ after_option (map string_bytes words.now) }
{
    match words {
        [] => words,
        [option, _, after @ ..] if option.as_str() == "--workers" => after,
        [_, after @ ..] => after,
    }
}

/// A run of the sizes that three words spell.
fn sized(wakers: &str, events: &str, sessions: &str, workers: u32) -> Option<Command>
    ensures { result ≡ idle_sized wakers.now events.now sessions.now workers }
{
    let wakers = number_in(1, 16, wakers)? as u32;
    let events = number_in(1, 1_000, events)? as u32;
    let sessions = number_in(1, 1_000, sessions)? as u32;
    Some(Command::Idle {
        wakers,
        events,
        sessions,
        workers,
    })
}

/// A run of the sizes that these words spell, which are three.
fn sizes_of(words: &[String], workers: u32) -> Option<Command>
    ensures { result ≡ idle_sizes (map string_bytes words.now) workers }
{
    match words {
        [wakers, events, sessions] => sized(
            wakers.as_str(),
            events.as_str(),
            sessions.as_str(),
            workers,
        ),
        _ => None,
    }
}

/// A run of the sizes, if one of them comes before the option.
fn after_one(wakers: &str, after: &[String], workers: u32) -> Option<Command>
    ensures { result ≡ idle_sizes (wakers.now ∷ map string_bytes after.now) workers }
{
    match after {
        [events, sessions] => sized(wakers, events.as_str(), sessions.as_str(), workers),
        _ => None,
    }
}

/// A run of the sizes, if two of them come before the option.
fn after_two(wakers: &str, events: &str, after: &[String], workers: u32) -> Option<Command>
    ensures { result ≡ idle_sizes (wakers.now ∷ events.now ∷ map string_bytes after.now) workers }
{
    match after {
        [sessions] => sized(wakers, events, sessions.as_str(), workers),
        _ => None,
    }
}

/// A run of the sizes before the option and after it.
fn sizes_around(before: &[String], after: &[String], workers: u32) -> Option<Command>
    ensures { result ≡ idle_sizes (map string_bytes before.now ++ map string_bytes after.now) workers }
{
    match before {
        [] => sizes_of(after, workers),
        [wakers] => after_one(wakers.as_str(), after, workers),
        [wakers, events] => after_two(wakers.as_str(), events.as_str(), after, workers),
        [wakers, events, sessions] if after.is_empty() => sized(
            wakers.as_str(),
            events.as_str(),
            sessions.as_str(),
            workers,
        ),
        _ => None,
    }
}

/// What the words after `idle` ask for.
pub(crate) fn idle_in(words: &[String]) -> Option<Command>
    ensures { result ≡ idle_of (map string_bytes words.now) }
{
    let (before, option) = words.split_at(option_index(words));
    let workers = workers_named(option)? as u32;
    sizes_around(before, after_option(option), workers)
}
