//! The files of sleep: `sysfs`. In texts a bar is a newline.

use crate::asked::{Words, after, now_of};
use crate::entry_replies::due_reply;
use crate::parts::CaseRunner;
use crate::reply::{CaseReply, Out, ReplyWord};
use script_plan::is_autosleep_text;
use sleep_base::Mem;
use sleep_model::{Due, Kind};
use sleep_sysfs::{
    decode_state, read_count, saved_number, write_autosleep, write_count, write_state,
};
use std::alloc::Global;

const ATTEMPT: Kind = Kind::Attempt {
    n: 1,
    guarded: None,
};

/// What is due of a write, or of a read: whether another holds the lock, whether autosleep is on, whether the
/// actor has said that it waits, whether it is asked to freeze. Then come the word and the number that is
/// written, or whether the text is that of a state. Of a write to autosleep: whether another holds the lock,
/// whether the writer does, and whether the text is `mem` or `off`. Of a read: the word, whether it has said
/// that it waits, and whether it is asked to freeze.
#[derive(Clone, Copy)]
pub enum SysfsCall {
    Text,
    Saved,
    ReadCount,
    WriteCount,
    WriteState,
    WriteAutosleep,
}

/// The verb of each call.
pub const SYSFS_CALLS: [(&str, SysfsCall); 6] = [
    ("text", SysfsCall::Text),
    ("saved_number", SysfsCall::Saved),
    ("read_count", SysfsCall::ReadCount),
    ("write_count", SysfsCall::WriteCount),
    ("write_state", SysfsCall::WriteState),
    ("write_autosleep", SysfsCall::WriteAutosleep),
];

/// A text with a newline in place of each bar.
pub fn text_in(alloc: Global, text: &str) -> Result<Vec<u8>, Mem> {
    let mut bytes = Vec::new(alloc);
    for byte in text.as_bytes() {
        bytes.push(if *byte == b'|' { b'\n' } else { *byte })?;
    }
    Ok(bytes)
}

/// The state that a text is, and whether autosleep takes it.
fn text_reply(text: &[u8]) -> CaseReply {
    let state = match decode_state(text) {
        Ok(state) => ReplyWord::State(state),
        Err(error) => ReplyWord::Error(Some(error)),
    };
    CaseReply::Two(state, ReplyWord::Flag(is_autosleep_text(text)))
}

/// What is due of a write, or of a read.
fn due_of(call: SysfsCall, text: &str) -> Due {
    let words = Words::of(text);
    let (first, second) = (words.flag(0), words.flag(1));
    let (third, fourth) = (words.flag(2), words.flag(3));
    match call {
        SysfsCall::ReadCount => read_count(now_of(text), second, third),
        SysfsCall::WriteCount => {
            let (now, count) = (now_of(after(text, 4)), words.number(5));
            write_count(first, second, third, fourth, now, count)
        }
        SysfsCall::WriteState => {
            write_state(first, second, third, fourth, words.flag(4), ATTEMPT)
        }
        _ => write_autosleep(first, second, third, fourth),
    }
}

impl CaseRunner<SysfsCall> for Global {
    /// Answers a line about these files.
    fn answer(&mut self, call: SysfsCall, rest: &str, out: &mut Out) -> CaseReply {
        match call {
            SysfsCall::Text => match text_in(*self, rest) {
                Ok(text) => text_reply(&text),
                Err(_) => out.lack(),
            },
            SysfsCall::Saved => {
                let words = Words::of(rest);
                let number = saved_number(words.maybe(0), words.maybe(1));
                CaseReply::One(ReplyWord::Number(number))
            }
            call => due_reply(due_of(call, rest)),
        }
    }
}
