//! The plan of a script: `plan TEXT`. The script is made twice; it has two calls on a source, a write of the
//! text to autosleep, three writes to the state, and an event.

ghost use Rattle.std.specs.Prelude.{◌≡◌, length, IfOk};
ghost use Rattle.sleep_model.specs.Scripts.{operations};

use crate::asked::number_of;
use crate::parts::{CaseRunner, answer_lines};
use crate::reply::{CaseReply, Out, ReplyWord};
use crate::spelled::Said;
use script_plan::Plan;
use sleep_base::Mem;
use sleep_model::{ListOf, Name, Op, Script, Step, TaskKind, Text};
use std::alloc::Global;

/// A question about a plan.
#[derive(Clone, Copy)]
enum PlanCall {
    CallsBefore,
    Operation,
}

/// The verb of each call.
const PLAN_CALLS: [(&str, PlanCall); 2] = [
    ("calls_before", PlanCall::CallsBefore),
    ("operation", PlanCall::Operation),
];

/// A step that does the operation `times` times.
fn step(op: Op, times: u32) -> Step
    ensures { result ≡ record { op = op; times = times } }
{
    Step { op, times }
}

/// These bytes as a text.
fn text_of(alloc: Global, bytes: &[u8]) -> Result<Text, Mem> {
    Ok(ListOf::of_vec(bytes.to_vec(alloc)?))
}

/// The script, which writes that text to autosleep.
fn script(alloc: Global, autosleep: &[u8]) -> Result<Script, Mem>
    ensures { IfOk result (λ s. length (operations s) ≡ 14) }
{
    let (source, ms, hard) = (0, 50, false);
    let name = Name::of_bytes(b"w").ok_or(Mem)?;
    let autosleep = text_of(alloc, autosleep)?;
    let state = text_of(alloc, b"mem")?;
    let steps = vec![in alloc;
        step(Op::Awake { source }, 2),
        step(Op::Autosleep { text: autosleep }, 1),
        step(
            Op::State {
                text: state,
                if_saved: false
            },
            3
        ),
        step(Op::Event { source, ms, hard }, 1),
    ]?;
    Ok(Script {
        name,
        kind: TaskKind::User,
        repeat: 2,
        steps: ListOf::of_vec(steps),
    })
}

/// What an operation is.
fn operation_word(op: Option<&Op>) -> ReplyWord {
    match op {
        Some(Op::Autosleep { .. }) => ReplyWord::Said(Said::Autosleep),
        Some(Op::State { .. }) => ReplyWord::Said(Said::State),
        Some(_) => ReplyWord::Said(Said::Another),
        None => ReplyWord::Nothing,
    }
}

impl CaseRunner<PlanCall> for Plan<'_> {
    /// Answers a question about the plan.
    fn answer(&mut self, call: PlanCall, rest: &str, _out: &mut Out) -> CaseReply {
        let place = number_of(rest) as usize;
        CaseReply::One(match call {
            PlanCall::CallsBefore => ReplyWord::Number(self.calls_before(place)),
            PlanCall::Operation => operation_word(self.operation(place)),
        })
    }
}

/// Answers the lines of the plan of a script.
fn answer_plan(alloc: Global, script: &Script, lines: &str, out: &mut Out) -> Result<(), Mem>
    requires { length (operations script.now) ≡ 14 }
{
    let mut plan = Plan::new(alloc, script, 0)?;
    answer_lines(&mut plan, &PLAN_CALLS, lines, out);
    drop(plan);
    Ok(())
}

/// Answers the lines of a plan.
pub fn plans(alloc: Global, text: &str, lines: &str, out: &mut Out) {
    match script(alloc, text.as_bytes()) {
        Ok(script) => {
            let done = answer_plan(alloc, &script, lines, out);
            drop(script);
            out.check(done);
        }
        Err(_) => {
            out.lack();
        }
    }
}
