//! The parts of the outside, and of scripts, logs and machines.

use crate::answers::{ANSWER_CALLS, AnswerCase};
use crate::asked::Words;
use crate::generated::{MACHINE_CALLS, generated};
use crate::logs::{ENTRY_CALLS, EntryCase, counts};
use crate::merges::{MERGE_CALLS, MergeCase};
use crate::parts::{answer_all, answer_lines};
use crate::plain::PLAIN_CALLS;
use crate::plans::plans;
use crate::reply::Out;
use crate::streams::{SINK_CALLS, SOURCE_CALLS, WHOLE_CALLS, sink_of, source_of};
use crate::values::{JSON_CALLS, values};
use std::alloc::Global;

/// Bytes, and what they spell.
#[derive(Clone, Copy)]
pub enum OutsidePart {
    Source,
    Sink,
    Whole,
    Plain,
    Json,
    Value,
}

/// Answers the lines of a part of the outside.
pub fn answer_outside(
    mut alloc: Global,
    part: OutsidePart,
    text: &str,
    lines: &str,
    out: &mut Out,
) {
    let words = Words::of(text);
    let (first, second) = (words.number(0), words.number(1));
    match part {
        OutsidePart::Source => {
            answer_all(source_of(alloc, text, first), &SOURCE_CALLS, lines, out);
        }
        OutsidePart::Sink => {
            let sink = sink_of(alloc, first, second, words.long(2));
            answer_all(sink, &SINK_CALLS, lines, out);
        }
        OutsidePart::Whole => answer_lines(&mut alloc, &WHOLE_CALLS, lines, out),
        OutsidePart::Plain => answer_lines(&mut alloc, &PLAIN_CALLS, lines, out),
        OutsidePart::Json => answer_lines(&mut alloc, &JSON_CALLS, lines, out),
        OutsidePart::Value => values(alloc, text, lines, out),
    }
}

/// Scripts, logs and machines.
#[derive(Clone, Copy)]
pub enum ScriptPart {
    Answers,
    Plan,
    Generated,
    Entries,
    Counts,
    Merge,
}

/// Answers the lines of a part about scripts, logs and machines.
pub fn answer_scripts(alloc: Global, part: ScriptPart, text: &str, lines: &str, out: &mut Out) {
    match part {
        ScriptPart::Answers => {
            let answers = Vec::new(alloc);
            answer_all(Ok(AnswerCase { alloc, answers }), &ANSWER_CALLS, lines, out);
        }
        ScriptPart::Plan => plans(alloc, text, lines, out),
        ScriptPart::Generated => {
            answer_all(
                generated(alloc, Words::of(text)),
                &MACHINE_CALLS,
                lines,
                out,
            );
        }
        ScriptPart::Entries => {
            let (made, others) = (Vec::new(alloc), Vec::new(alloc));
            let case = EntryCase {
                alloc,
                made,
                others,
            };
            answer_all(Ok(case), &ENTRY_CALLS, lines, out);
        }
        ScriptPart::Counts => counts(alloc, lines, out),
        ScriptPart::Merge => {
            let made = Vec::new(alloc);
            answer_all(Ok(MergeCase { alloc, made }), &MERGE_CALLS, lines, out);
        }
    }
}
