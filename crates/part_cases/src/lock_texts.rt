//! Lines that lock and unlock names: `lock_lines`, with `lines TEXT` and `copies TIMES TEXT`. In texts a bar
//! is a newline.

use crate::asked::{cut, number_of};
use crate::reply::{Out, ReplyWord};
use crate::sysfs::text_in;
use lock_commands::{LinesFault, MOST_BYTES, answer_lines};
use sleep_base::Mem;
use std::alloc::Global;
use std::sync::Wait;

/// Says a text, with a bar in place of each newline.
fn say_text(text: &[u8], out: &mut Out) {
    for line in text.split(|byte| *byte == b'\n') {
        out.put(line);
        out.put(b"|");
    }
    out.end();
}

/// Says why lines are refused.
fn say_fault(fault: &LinesFault, out: &mut Out) {
    match fault {
        LinesFault::Line(line) => {
            out.put(b"line ");
            out.word(ReplyWord::Number(*line));
            out.end();
        }
        LinesFault::Full(name) => {
            out.put(b"full ");
            out.line(name.bytes());
        }
        LinesFault::Mem => {
            out.lack();
        }
    }
}

/// What lines are answered, if they are not too long.
fn answered<R: Wait>(rt: &R, alloc: Global, lines: &[u8]) -> Result<Vec<u8>, LinesFault> {
    if lines.len() > MOST_BYTES as usize {
        return Err(LinesFault::Mem);
    }
    answer_lines(rt, alloc, lines)
}

/// Copies of a text, in which a bar is a newline.
fn copies(alloc: Global, times: u32, text: &str) -> Result<Vec<u8>, Mem> {
    let text = text_in(alloc, text)?;
    let mut lines = Vec::new(alloc);
    for _ in 0..times {
        lines.extend_from_slice(&text)?;
    }
    Ok(lines)
}

/// Says what these lines are answered, or only that they are.
fn say_answered<R: Wait>(rt: &R, alloc: Global, lines: &[u8], is_told: bool, out: &mut Out) {
    match answered(rt, alloc, lines) {
        Ok(reply) if is_told => say_text(&reply, out),
        Ok(_) => {
            out.line(b"answered");
        }
        Err(fault) => say_fault(&fault, out),
    }
}

/// Answers a line: the reply to a text, or only whether so many copies of it are answered.
fn say_line<R: Wait>(rt: &R, alloc: Global, line: &str, out: &mut Out) {
    let (word, rest) = cut(line, ' ');
    let is_told = word == "lines";
    let (times, text) = if is_told { ("1", rest) } else { cut(rest, ' ') };
    match copies(alloc, number_of(times), text) {
        Ok(lines) => say_answered(rt, alloc, &lines, is_told, out),
        Err(_) => {
            out.lack();
        }
    }
}

/// Says what lines that lock and unlock names are answered.
pub fn lock_lines<R: Wait>(rt: &R, alloc: Global, lines: &str, out: &mut Out) {
    for line in lines.split('\n') {
        say_line(rt, alloc, line, out);
    }
}
