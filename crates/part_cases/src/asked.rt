//! What a line asks: its verb, and the words after it as values that borrow nothing.

use phase_table::Phase;
use sleep_base::Errno;
use sleep_model::{Actor, EventNow};

/// The text before the first such mark and the text after it; all and none if there is no such mark.
pub fn cut(text: &str, mark: char) -> (&str, &str) {
    text.split_once(mark).unwrap_or((text, ""))
}

/// What a word means in a table.
pub fn found<T: Copy>(table: &[(&str, T)], word: &str) -> Option<T> {
    table
        .iter()
        .find(|(name, _)| *name == word)
        .map(|(_, value)| *value)
}

/// A number, else 0.
pub fn number_of(text: &str) -> u32 {
    text.parse::<u32>().unwrap_or(0)
}

/// A long number, else 0.
pub fn long_of(text: &str) -> u64 {
    text.parse::<u64>().unwrap_or(0)
}

/// The text after that number of words.
pub fn after(text: &str, words: u32) -> &str {
    let mut rest = text;
    for _ in 0..words {
        rest = cut(rest, ' ').1;
    }
    rest
}

/// The actor of that text, as a log has it, with a number in place of a name: `task:0`, `auto`, `dev:1`,
/// `timer:0`; `time` for any other text.
pub fn actor_of(text: &str) -> Actor {
    let (kind, name) = cut(text, ':');
    let number = number_of(name);
    match kind {
        "task" => Actor::Script(number),
        "dev" => Actor::Dev(number),
        "timer" => Actor::Timer(number),
        "auto" => Actor::Auto,
        _ => Actor::Time,
    }
}

/// The event word that a text begins with, as a log has it: in progress, registered and hard, as `1/0/2`.
pub fn now_of(text: &str) -> EventNow {
    let (word, _) = cut(text, ' ');
    let (inpr, rest) = cut(word, '/');
    let (count, hard) = cut(rest, '/');
    EventNow {
        inpr: number_of(inpr),
        count: number_of(count),
        hard: number_of(hard),
    }
}

/// A word after a verb.
#[derive(Clone, Copy)]
enum AskedWord {
    /// It is none of the others.
    Nothing,
    Number(i128),
    Flag(bool),
    Phase(Phase),
    Error(Errno),
}

/// Words that say yes or no.
const FLAGS: [(&str, bool); 6] = [
    ("yes", true),
    ("no", false),
    ("active", true),
    ("dormant", false),
    ("hard", true),
    ("soft", false),
];

/// The word that a text is.
fn word_of(text: &str) -> AskedWord {
    match text.parse::<i128>() {
        Ok(number) => AskedWord::Number(number),
        Err(_) => named(text),
    }
}

/// The word that a text is that is no number.
fn named(text: &str) -> AskedWord {
    if let Some(flag) = found(&FLAGS, text) {
        return AskedWord::Flag(flag);
    }
    if let Some(phase) = Phase::of_name(text) {
        return AskedWord::Phase(phase);
    }
    match Errno::of_name(text) {
        Some(error) => AskedWord::Error(error),
        None => AskedWord::Nothing,
    }
}

/// The words after a verb.
#[derive(Clone, Copy)]
pub struct Words {
    words: [AskedWord; 6],
}

impl Words {
    /// The first six words of a text.
    pub fn of(text: &str) -> Words {
        let mut words = [AskedWord::Nothing; 6];
        for (place, word) in text.split(' ').enumerate() {
            if let Some(slot) = words.get_mut(place) {
                *slot = word_of(word);
            }
        }
        Words { words }
    }

    fn word(&self, place: usize) -> AskedWord {
        self.words.get(place).copied().unwrap_or(AskedWord::Nothing)
    }

    /// The number at an index, of any size and sign, else 0.
    fn wide(&self, place: usize) -> i128 {
        match self.word(place) {
            AskedWord::Number(number) => number,
            _ => 0,
        }
    }

    /// The number at an index; none if there is no number.
    pub fn maybe(&self, place: usize) -> Option<u32> {
        match self.word(place) {
            AskedWord::Number(number) => u32::try_from(number).ok(),
            _ => None,
        }
    }

    /// The number at an index, else 0.
    pub fn number(&self, place: usize) -> u32 {
        u32::try_from(self.wide(place)).unwrap_or(0)
    }

    /// The long number at an index, else 0.
    pub fn long(&self, place: usize) -> u64 {
        u64::try_from(self.wide(place)).unwrap_or(0)
    }

    /// The number at an index, which may be negative, else 0.
    pub fn signed(&self, place: usize) -> i32 {
        i32::try_from(self.wide(place)).unwrap_or(0)
    }

    /// Whether the word at an index says yes.
    pub fn flag(&self, place: usize) -> bool {
        matches!(self.word(place), AskedWord::Flag(true))
    }

    /// The phase at an index, else prepare.
    pub fn phase(&self, place: usize) -> Phase {
        match self.word(place) {
            AskedWord::Phase(phase) => phase,
            _ => Phase::Prepare,
        }
    }

    /// The error at an index; none if there is none.
    pub fn error(&self, place: usize) -> Option<Errno> {
        match self.word(place) {
            AskedWord::Error(error) => Some(error),
            _ => None,
        }
    }
}
