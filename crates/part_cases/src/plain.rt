//! Plain values of the model and of the outside: errors, names, lists, flags of devices, positions of the
//! event word, and an index of keys: `plain`.

use crate::asked::{cut, found, now_of, number_of};
use crate::machines::DEVICE_FLAGS;
use crate::parts::CaseRunner;
use crate::reply::{CaseReply, Out, ReplyWord};
use bitflags::Flags;
use key_index::KeyIndex;
use sleep_base::{Errno, Mem};
use sleep_model::{DeviceFlags, ListOf, Name, pos};
use std::alloc::Global;

/// What is asked of a plain value.
#[derive(Clone, Copy)]
pub enum PlainCall {
    Error,
    Answer,
    Name,
    List,
    Pos,
    DeviceFlags,
    Places,
}

/// The verb of each call.
pub const PLAIN_CALLS: [(&str, PlainCall); 7] = [
    ("error", PlainCall::Error),
    ("answer", PlainCall::Answer),
    ("name", PlainCall::Name),
    ("list", PlainCall::List),
    ("pos", PlainCall::Pos),
    ("device_flags", PlainCall::DeviceFlags),
    ("places", PlainCall::Places),
];

/// The error of an answer.
fn answer_word(answer: i32) -> ReplyWord {
    match Errno::of_answer(answer) {
        Some(error) => ReplyWord::Error(Some(error)),
        None => ReplyWord::Nothing,
    }
}

/// An error, its number, and the error that its number, below zero, answers.
fn error_reply(text: &str) -> CaseReply {
    match Errno::of_name(text) {
        Some(error) => CaseReply::Three(
            ReplyWord::Error(Some(error)),
            ReplyWord::Number(u32::from(error.number())),
            answer_word(-i32::from(error.number())),
        ),
        None => CaseReply::One(ReplyWord::Nothing),
    }
}

/// Says the name that a text is, or `-`.
fn say_name(text: &str, out: &mut Out) -> CaseReply {
    match Name::of_bytes(text.as_bytes()) {
        Some(name) => out.line(name.bytes()),
        None => out.line(b"-"),
    }
}

/// The numbers that words give.
fn numbers_in(alloc: Global, text: &str) -> Result<Vec<u32>, Mem> {
    let mut numbers = Vec::new(alloc);
    for word in text.split(' ') {
        numbers.push(number_of(word))?;
    }
    Ok(numbers)
}

/// Says how long a list of these is, what it has, and what it gives back.
fn say_list(alloc: Global, text: &str, out: &mut Out) -> Result<(), Mem> {
    let list = ListOf::of_vec(numbers_in(alloc, text)?);
    out.say(CaseReply::One(ReplyWord::Size(list.len())));
    out.list(list.as_slice());
    out.list(&list.into_vec());
    Ok(())
}

/// The bits of the flags of a device that words name, and whether they have that of an asynchronous device
/// and that of a source of wakeup.
fn flags_reply(text: &str) -> CaseReply {
    let mut flags = DeviceFlags::empty();
    for word in text.split(' ') {
        flags |= found(&DEVICE_FLAGS, word).unwrap_or(DeviceFlags::empty());
    }
    CaseReply::Three(
        ReplyWord::Number(u32::from(flags.bits())),
        ReplyWord::Flag(flags.contains(DeviceFlags::ASYNC)),
        ReplyWord::Flag(flags.contains(DeviceFlags::WAKEUP)),
    )
}

/// Says the index of each key in an index; `-` if it is not there.
fn say_places(index: &KeyIndex<u32>, keys: &[u32], out: &mut Out) {
    for key in keys {
        out.say(CaseReply::One(match index.place(key) {
            Some(place) => ReplyWord::Size(place),
            None => ReplyWord::Nothing,
        }));
    }
}

/// Says the index of each key, the first words, among the others after a bar.
fn index_keys(alloc: Global, text: &str, out: &mut Out) -> Result<(), Mem> {
    let (asked, keys) = cut(text, '|');
    let asked = numbers_in(alloc, asked)?;
    let index = KeyIndex::new(alloc, numbers_in(alloc, keys)?)?;
    say_places(&index, &asked, out);
    Ok(())
}

impl CaseRunner<PlainCall> for Global {
    /// Answers a line about a plain value.
    fn answer(&mut self, call: PlainCall, rest: &str, out: &mut Out) -> CaseReply {
        match call {
            PlainCall::Error => error_reply(rest),
            PlainCall::Answer => CaseReply::One(answer_word(rest.parse::<i32>().unwrap_or(0))),
            PlainCall::Name => say_name(rest, out),
            PlainCall::List => {
                let done = say_list(*self, rest, out);
                out.check(done)
            }
            PlainCall::Pos => CaseReply::One(ReplyWord::Long(pos(now_of(rest)))),
            PlainCall::DeviceFlags => flags_reply(rest),
            PlainCall::Places => {
                let done = index_keys(*self, rest, out);
                out.check(done)
            }
        }
    }
}
