//! JSON values: `json` with texts and whether they are read, and `value TEXT` with questions about what a
//! text spells.

use crate::asked::{cut, number_of};
use crate::parts::{CaseRunner, answer_lines};
use crate::reply::{CaseReply, Out, ReplyWord};
use borrowed_json::{
    Scratch, Value, as_array, as_bool, as_i64, as_object, as_str, as_u64, get, read_value,
};
use sleep_base::Mem;
use std::alloc::Global;

/// What is asked of JSON: whether it is read, of `read TEXT`, `bytes NUMBER ..`, `nested DEPTH`; or which
/// numbers a text is.
#[derive(Clone, Copy)]
pub enum JsonCall {
    Read,
    Bytes,
    Nested,
    Number,
}

/// The verb of each call.
pub const JSON_CALLS: [(&str, JsonCall); 4] = [
    ("read", JsonCall::Read),
    ("bytes", JsonCall::Bytes),
    ("nested", JsonCall::Nested),
    ("number", JsonCall::Number),
];

/// Whether these bytes are read, by this reader and by serde_json's own.
fn read_reply(alloc: Global, bytes: &[u8]) -> CaseReply {
    let mut scratch = Scratch::new(alloc);
    let is_read = matches!(read_value(alloc, bytes, &mut scratch), Ok(Some(_)));
    let is_known = serde_json::Value::from_slice(alloc, bytes).is_ok();
    CaseReply::Two(ReplyWord::Flag(is_read), ReplyWord::Flag(is_known))
}

/// A list in a list, to that depth.
fn nested(alloc: Global, depth: u32) -> Result<Vec<u8>, Mem> {
    let mut text = vec![in alloc; b'['; depth as usize]?;
    for _ in 0..depth {
        text.push(b']')?;
    }
    Ok(text)
}

/// Bytes that numbers give.
fn bytes_in(alloc: Global, text: &str) -> Result<Vec<u8>, Mem> {
    let mut bytes = Vec::new(alloc);
    for word in text.split(' ') {
        bytes.push(word.parse::<u8>().unwrap_or(0))?;
    }
    Ok(bytes)
}

/// A whole number with a sign, or `-`.
fn signed_word(number: Option<i64>) -> ReplyWord {
    match number {
        Some(number) => ReplyWord::Signed(number),
        None => ReplyWord::Nothing,
    }
}

/// What a text is as a whole number, without and with a sign.
fn number_reply(alloc: Global, text: &str, out: &mut Out) -> CaseReply {
    let mut scratch = Scratch::new(alloc);
    match read_value(alloc, text.as_bytes(), &mut scratch) {
        Ok(Some(value)) => {
            CaseReply::Two(
                ReplyWord::MaybeLong(as_u64(&value)),
                signed_word(as_i64(&value)),
            )
        }
        _ => out.lack(),
    }
}

impl CaseRunner<JsonCall> for Global {
    /// Says of a text whether it is read, or which number it is.
    fn answer(&mut self, call: JsonCall, rest: &str, out: &mut Out) -> CaseReply {
        let alloc = *self;
        let made = match call {
            JsonCall::Read => return read_reply(alloc, rest.as_bytes()),
            JsonCall::Number => return number_reply(alloc, rest, out),
            JsonCall::Bytes => bytes_in(alloc, rest),
            JsonCall::Nested => nested(alloc, number_of(rest)),
        };
        match made {
            Ok(bytes) => read_reply(alloc, &bytes),
            Err(_) => out.lack(),
        }
    }
}

/// What a value is asked.
#[derive(Clone, Copy)]
enum ValueCall {
    Object,
    Array,
    Bool,
    Number,
    Text,
}

/// The verb of each call.
const VALUE_CALLS: [(&str, ValueCall); 5] = [
    ("object", ValueCall::Object),
    ("array", ValueCall::Array),
    ("bool", ValueCall::Bool),
    ("number", ValueCall::Number),
    ("text", ValueCall::Text),
];

/// Says a text between bars, in which a bar is a newline; `-` if there is none.
fn say_text(text: Option<&str>, out: &mut Out) -> CaseReply {
    let Some(text) = text else {
        return out.line(b"-");
    };
    for part in text.split('\n') {
        out.put(b"|");
        out.put(part.as_bytes());
    }
    out.line(b"|")
}

/// What a value is.
fn value_reply(value: &Value<'_>, call: ValueCall, out: &mut Out) -> CaseReply {
    let size = match call {
        ValueCall::Object => as_object(value).map(|members| members.len()),
        ValueCall::Array => as_array(value).map(|items| items.len()),
        ValueCall::Bool => {
            return CaseReply::One(match as_bool(value) {
                Some(flag) => ReplyWord::Flag(flag),
                None => ReplyWord::Nothing,
            });
        }
        ValueCall::Number => return CaseReply::One(ReplyWord::MaybeLong(as_u64(value))),
        ValueCall::Text => return say_text(as_str(value), out),
    };
    CaseReply::One(match size {
        Some(size) => ReplyWord::Size(size),
        None => ReplyWord::Nothing,
    })
}

/// The item of a list at an index.
fn item<'v, 'a>(value: &'v Value<'a>, place: u32) -> Option<&'v Value<'a>> {
    as_array(value)?.get(place as usize)
}

/// The value right below a value, by a name or an index; itself if there is no step.
fn below<'v, 'a>(value: &'v Value<'a>, step: &str) -> Option<&'v Value<'a>> {
    if step.is_empty() {
        return Some(value);
    }
    match step.parse::<u32>().ok() {
        Some(place) => item(value, place),
        None => get(value, step),
    }
}

/// The value at a path of three names and indices at most.
fn at<'v, 'a>(value: &'v Value<'a>, path: &str) -> Option<&'v Value<'a>> {
    let (first, rest) = cut(path, ' ');
    let (second, third) = cut(rest, ' ');
    below(below(below(value, first)?, second)?, third)
}

impl CaseRunner<ValueCall> for Value<'_> {
    /// Answers a line about a value: what is asked, and of which value below it.
    fn answer(&mut self, call: ValueCall, rest: &str, out: &mut Out) -> CaseReply {
        match at(self, rest) {
            Some(value) => value_reply(value, call, out),
            None => out.line(b"none"),
        }
    }
}

/// Answers the lines about what a text spells.
pub fn values(alloc: Global, text: &str, lines: &str, out: &mut Out) {
    let mut scratch = Scratch::new(alloc);
    match read_value(alloc, text.as_bytes(), &mut scratch) {
        Ok(Some(mut value)) => answer_lines(&mut value, &VALUE_CALLS, lines, out),
        _ => {
            out.lack();
        }
    }
}
