//! What a call answers, as words of a line that borrow nothing.

use crate::spelled::{
    Said, actor_word, fault_word, idle_word, kind_word, phase_state_word, said_word, stage_word,
};
use device_tree::TreeFault;
use idle_loop::IdleKind;
use itoa::Buffer;
use sleep_base::Errno;
use sleep_model::{
    Actor, Group, Kind, Phase, PhaseState, PlatDo, PlatUndo, Stage, State, TaskKind, state_word,
};
use std::alloc::Global;

/// A word of an answer. A value of the model is spelled by its name.
#[derive(Clone, Copy)]
pub enum ReplyWord {
    /// `-`: none.
    Nothing,
    Number(u32),
    Long(u64),
    Size(usize),
    Signed(i64),
    /// A number, or `-`.
    Maybe(Option<u32>),
    /// A long number, or `-`.
    MaybeLong(Option<u64>),
    Flag(bool),
    /// An error, or 0.
    Error(Option<Errno>),
    Phase(Phase),
    PhaseState(PhaseState),
    Stage(Stage),
    Group(Group),
    Do(PlatDo),
    Undo(PlatUndo),
    State(State),
    /// The first word of what an entry says.
    Kind(Kind),
    Idle(IdleKind),
    /// What an actor is, without its number.
    Actor(Actor),
    TaskKind(TaskKind),
    TreeFault(TreeFault),
    Said(Said),
}

/// An answer: the words of its line.
#[derive(Clone, Copy)]
pub enum CaseReply {
    /// No line, or one that is written already.
    Nothing,
    One(ReplyWord),
    Two(ReplyWord, ReplyWord),
    Three(ReplyWord, ReplyWord, ReplyWord),
    Four(ReplyWord, ReplyWord, ReplyWord, ReplyWord),
    Five(ReplyWord, ReplyWord, ReplyWord, ReplyWord, ReplyWord),
}

/// Lines of answers.
#[derive(Drop)]
pub struct Out {
    bytes: Vec<u8>,
    is_short: bool,
    /// Whether the line has a word.
    is_begun: bool,
}

impl Out {
    /// An output without a byte.
    pub fn new(alloc: Global) -> Out {
        Out {
            bytes: Vec::new(alloc),
            is_short: false,
            is_begun: false,
        }
    }

    /// The lines.
    pub fn bytes(&self) -> &[u8] {
        self.bytes.as_slice()
    }

    /// Whether memory came short, or a line had no form.
    pub fn is_short(&self) -> bool {
        self.is_short
    }

    /// Adds a text.
    pub fn put(&mut self, text: &[u8]) {
        if self.bytes.extend_from_slice(text).is_err() {
            self.is_short = true;
        }
    }

    /// Says that memory came short, or that a line has no form. No other answer is left.
    pub fn lack(&mut self) -> CaseReply {
        self.is_short = true;
        self.line(b"no answer")
    }

    /// Says it if memory came short.
    pub fn check<E: Drop>(&mut self, done: Result<(), E>) -> CaseReply {
        match done {
            Ok(()) => CaseReply::Nothing,
            Err(_) => self.lack(),
        }
    }

    /// Adds a line of that text. No other answer is left.
    pub fn line(&mut self, text: &[u8]) -> CaseReply {
        self.put(text);
        self.end();
        CaseReply::Nothing
    }

    /// Ends a line.
    pub fn end(&mut self) {
        self.is_begun = false;
        self.put(b"\n");
    }

    fn put_number(&mut self, number: i128) {
        let mut digits = Buffer::new();
        self.put(digits.format(number).as_bytes());
    }

    /// Adds a word to the line, after a space if it is not the first.
    pub fn word(&mut self, word: ReplyWord) {
        if self.is_begun {
            self.put(b" ");
        }
        self.is_begun = true;
        match word {
            ReplyWord::Number(number) | ReplyWord::Maybe(Some(number)) => {
                self.put_number(i128::from(number));
            }
            ReplyWord::Long(number) | ReplyWord::MaybeLong(Some(number)) => {
                self.put_number(i128::from(number));
            }
            ReplyWord::Size(count) => self.put_number(count as i128),
            ReplyWord::Signed(number) => self.put_number(i128::from(number)),
            word => self.put(text_of(word).as_bytes()),
        }
    }

    /// Adds a line of these words.
    pub fn words(&mut self, words: &[ReplyWord]) {
        for word in words {
            self.word(*word);
        }
        self.end();
    }

    /// Adds the line of an answer.
    pub fn say(&mut self, reply: CaseReply) {
        match reply {
            CaseReply::Nothing => {}
            CaseReply::One(first) => self.words(&[first]),
            CaseReply::Two(first, second) => self.words(&[first, second]),
            CaseReply::Three(first, second, third) => self.words(&[first, second, third]),
            CaseReply::Four(first, second, third, fourth) => {
                self.words(&[first, second, third, fourth]);
            }
            CaseReply::Five(first, second, third, fourth, fifth) => {
                self.words(&[first, second, third, fourth, fifth]);
            }
        }
    }

    /// Adds a line of numbers, `-` if there is none. No other answer is left.
    pub fn list(&mut self, numbers: &[u32]) -> CaseReply {
        if numbers.is_empty() {
            self.word(ReplyWord::Nothing);
        }
        for number in numbers {
            self.word(ReplyWord::Number(*number));
        }
        self.end();
        CaseReply::Nothing
    }
}

/// The text of a word that is no number.
fn text_of(word: ReplyWord) -> &'static str {
    match word {
        ReplyWord::Flag(true) => "yes",
        ReplyWord::Flag(false) => "no",
        ReplyWord::Error(Some(error)) => error.name(),
        ReplyWord::Error(None) => "0",
        ReplyWord::Phase(phase) => phase.name(),
        ReplyWord::PhaseState(state) => phase_state_word(state),
        ReplyWord::Stage(stage) => stage_word(stage),
        ReplyWord::Group(group) => group.name(),
        ReplyWord::Do(step) => step.name(),
        ReplyWord::Undo(step) => step.name(),
        ReplyWord::State(state) => state_word(state),
        ReplyWord::Kind(kind) => kind_word(kind),
        ReplyWord::Idle(kind) => idle_word(kind),
        ReplyWord::Actor(actor) => actor_word(actor),
        ReplyWord::TaskKind(kind) => kind.name(),
        ReplyWord::TreeFault(fault) => fault_word(fault),
        ReplyWord::Said(said) => said_word(said),
        _ => "-",
    }
}
