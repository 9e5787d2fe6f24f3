//! The table of phases: `phases`, and a table of the row of a phase with a copy that walks the other way,
//! `phase_twice PHASE`.

use crate::asked::Words;
use crate::parts::{CaseRunner, answer_lines};
use crate::reply::{CaseReply, Out, ReplyWord};
use phase_table::{CaseTable, Phase, PhaseRow, phases};

/// A question about a phase.
#[derive(Clone, Copy)]
enum PhaseCall {
    Row,
    Phase,
    Named,
}

/// The verb of each call.
const PHASE_CALLS: [(&str, PhaseCall); 3] = [
    ("row", PhaseCall::Row),
    ("phase", PhaseCall::Phase),
    ("named", PhaseCall::Named),
];

/// What a row says: its phase, the mirror, whether the phase walks forward, whether devices go down in it,
/// and whether it tests for a wakeup.
fn row_reply(row: PhaseRow) -> CaseReply {
    CaseReply::Five(
        ReplyWord::Phase(row.phase),
        ReplyWord::Phase(row.mirror),
        ReplyWord::Flag(row.forward),
        ReplyWord::Flag(row.down),
        ReplyWord::Flag(row.checks),
    )
}

/// What a phase says: the mirror, whether it walks forward, whether devices go down in it, whether they come
/// up, and whether it tests for a wakeup.
fn phase_reply(phase: Phase) -> CaseReply {
    CaseReply::Five(
        ReplyWord::Phase(phase.mirror()),
        ReplyWord::Flag(phase.forward()),
        ReplyWord::Flag(phase.is_down()),
        ReplyWord::Flag(phase.is_up()),
        ReplyWord::Flag(phase.checks_wakeup()),
    )
}

/// The phase of that name.
fn named_reply(text: &str) -> CaseReply {
    CaseReply::One(match Phase::of_name(text) {
        Some(phase) => ReplyWord::Phase(phase),
        None => ReplyWord::Nothing,
    })
}

impl<const LEN: usize> CaseRunner<PhaseCall> for CaseTable<LEN> {
    /// Answers a question about a phase.
    fn answer(&mut self, call: PhaseCall, rest: &str, _out: &mut Out) -> CaseReply {
        let phase = Words::of(rest).phase(0);
        match call {
            PhaseCall::Row => match self.row(phase) {
                Some(row) => row_reply(row),
                None => CaseReply::One(ReplyWord::Nothing),
            },
            PhaseCall::Phase => phase_reply(phase),
            PhaseCall::Named => named_reply(rest),
        }
    }
}

/// Says each row of the table, and answers its lines.
pub fn phase_rows(lines: &str, out: &mut Out) {
    let mut table = phases();
    for row in &table.rows {
        out.say(row_reply(*row));
    }
    answer_lines(&mut table, &PHASE_CALLS, lines, out);
}

/// Answers the lines of a table with two rows of a phase.
pub fn phase_twice(text: &str, lines: &str, out: &mut Out) {
    if let Some(row) = phases().row(Words::of(text).phase(0)) {
        let other = PhaseRow {
            forward: !row.forward,
            ..row
        };
        let mut table = CaseTable { rows: [row, other] };
        answer_lines(&mut table, &PHASE_CALLS, lines, out);
    }
}
