//! The answers to all lines of a text.

ghost use Rattle.std.specs.Prelude.{◌≡◌, ◌≤◌, Ok, length, IfOk, IfErr, OnOk};
ghost use Rattle.lock_commands.specs.Lines.{lines};
ghost use Rattle.lock_commands.specs.TextAnswers.{AgreeAfter, first_bad, text_answer};
ghost use Rattle.lock_commands.specs.Steps.{IsRefusalOfLines};

use crate::cut::first_line;
use crate::fault::LinesFault;
use crate::state::LineRunner;
use crate::verb::verb_of;
use std::alloc::Global;
use std::sync::Wait;

/// The most bytes of all lines together.
pub const MOST_BYTES: u32 = 16_777_216;

/// The number of the first line that is of no form, from 1.
fn first_bad(bytes: &[u8]) -> Option<u32>
    requires { length bytes.now ≤ MOST_BYTES }
    ensures { result ≡ first_bad 1 (lines bytes.now) }
{
    let mut left = bytes;
    let mut number = 1;
    while !left.is_empty() {
        let (line, after) = first_line(left);
        if verb_of(line).is_none() {
            return Some(number);
        }
        number += 1;
        left = after;
    }
    None
}

/// What lines that lock and unlock names are answered, as a text. A newline ends each line, and may be
/// missing at the end. A line is one of these:
///
/// - `lock TEXT`, `unlock TEXT`: writes the text to `wake_lock`, `wake_unlock`; the answer is `0`, `EINVAL`
///   or `ENOSPC`.
/// - `after MS`: lets 1 to 86,400,000 ms go by, and answers nothing.
/// - `active`, `inactive`: the answer is the word, with a space and a name for each lock that is active, or
///   not, in order (`pm_show_wakelocks`).
///
/// After the answers comes a line for the source of each known lock, in order (`print_wakeup_source_stats`).
///
/// All lines are tried before the first is carried out: `Line` is the first of no form. `Full` names the
/// first lock on which a call is to be made though its history has room for fewer than four entries. `Mem`
/// comes if it is out of memory.
///
/// What names show and what sources show agree: a name is active exactly if its source has an event in
/// progress, and until when that ends.
#[tactic(auto, using(crate::proofs::Agreeing::agreed))]
pub fn answer_lines<R: Wait>(rt: &R, alloc: Global, bytes: &[u8]) -> Result<Vec<u8>, LinesFault>
    requires { length bytes.now ≤ MOST_BYTES }
    ensures text { IfOk result (λ text. text_answer bytes.now ≡ Ok text.items) }
    ensures agree { OnOk result (AgreeAfter bytes.now) }
    ensures refused { IfErr result (IsRefusalOfLines (text_answer bytes.now)) }
{
    if let Some(number) = first_bad(bytes) {
        return Err(LinesFault::Line(number));
    }
    let mut state = LineRunner::new(alloc);
    state.carry_lines(rt, bytes)?;
    state.finish()
}
