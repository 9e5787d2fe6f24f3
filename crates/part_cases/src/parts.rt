//! A part that answers lines, and the loop over its lines.

use crate::asked::{cut, found};
use crate::reply::{CaseReply, Out};
use sleep_base::Mem;

/// A part that is tried by calls of a kind.
pub trait CaseRunner<Call> {
    /// Makes a call with what is after its verb, and answers it.
    fn answer(&mut self, call: Call, rest: &str, out: &mut Out) -> CaseReply;
}

/// Makes the call of a line, whose first word is one of these verbs.
fn answer_line<C: Copy, P: CaseRunner<C>>(
    part: &mut P,
    verbs: &[(&str, C)],
    line: &str,
    out: &mut Out,
) {
    let (word, rest) = cut(line, ' ');
    let reply = match found(verbs, word) {
        Some(call) => part.answer(call, rest, out),
        None => out.lack(),
    };
    out.say(reply);
}

/// Makes the call of each line.
pub fn answer_lines<C: Copy, P: CaseRunner<C>>(
    part: &mut P,
    verbs: &[(&str, C)],
    lines: &str,
    out: &mut Out,
) {
    for line in lines.split('\n') {
        answer_line(part, verbs, line, out);
    }
}

/// Makes the call of each line, if there was memory for the part; else says that there was none.
pub fn answer_all<C: Copy, P: CaseRunner<C> + Drop>(
    made: Result<P, Mem>,
    verbs: &[(&str, C)],
    lines: &str,
    out: &mut Out,
) {
    match made {
        Ok(mut part) => answer_lines(&mut part, verbs, lines, out),
        Err(_) => {
            out.lack();
        }
    }
}
