//! Rows of numbers, stacks and flags: `rows COUNT`, `stack`, `flags COUNT`.

use crate::asked::{Words, number_of};
use crate::parts::{CaseRunner, answer_lines};
use crate::reply::{CaseReply, Out, ReplyWord};
use device_rows::{Flags, Rows, Stack};
use sleep_base::Mem;
use std::alloc::Global;

/// A call on rows, or a question.
#[derive(Clone, Copy)]
pub enum RowCall {
    Push,
    Append,
    AddRow,
    Len,
    Row,
    RowWithin,
}

/// The verb of each call.
pub const ROW_CALLS: [(&str, RowCall); 6] = [
    ("push", RowCall::Push),
    ("append", RowCall::Append),
    ("add_row", RowCall::AddRow),
    ("len", RowCall::Len),
    ("row", RowCall::Row),
    ("row_within", RowCall::RowWithin),
];

/// Pushes a number into a row for which room is made first.
fn push(rows: &mut Rows, row: u32, number: u32) -> Result<(), Mem> {
    if row as usize >= rows.len() {
        return Err(Mem);
    }
    rows.make_room(row)?;
    rows.push(row, number);
    Ok(())
}

/// Puts a number into a row, which grows.
fn append(rows: &mut Rows, row: u32, number: u32) -> Result<(), Mem> {
    if row as usize >= rows.len() {
        return Err(Mem);
    }
    rows.append(row, number)
}

/// A row that there is.
fn row_within(rows: &Rows, row: u32) -> &[u32] {
    if row as usize >= rows.len() {
        return &[];
    }
    rows.row_within(row)
}

impl CaseRunner<RowCall> for Rows {
    /// Answers a question about rows, or changes them.
    fn answer(&mut self, call: RowCall, rest: &str, out: &mut Out) -> CaseReply {
        let words = Words::of(rest);
        let (row, number) = (words.number(0), words.number(1));
        let done = match call {
            RowCall::Push => push(self, row, number),
            RowCall::Append => append(self, row, number),
            RowCall::AddRow => self.add_row(),
            RowCall::Len => return CaseReply::One(ReplyWord::Size(self.len())),
            RowCall::Row => return out.list(self.row(row)),
            RowCall::RowWithin => return out.list(row_within(self, row)),
        };
        CaseReply::One(ReplyWord::Flag(done.is_ok()))
    }
}

/// A call on a stack.
#[derive(Clone, Copy)]
enum StackCall {
    Push,
    Pop,
}

/// The verb of each call.
const STACK_CALLS: [(&str, StackCall); 2] = [("push", StackCall::Push), ("pop", StackCall::Pop)];

impl CaseRunner<StackCall> for Stack<u32> {
    /// Answers a call on a stack.
    fn answer(&mut self, call: StackCall, rest: &str, _out: &mut Out) -> CaseReply {
        CaseReply::One(match call {
            StackCall::Push => ReplyWord::Flag(self.push(number_of(rest)).is_ok()),
            StackCall::Pop => ReplyWord::Maybe(self.pop()),
        })
    }
}

/// Answers the lines of a stack, and says what it has then.
pub fn stacks(alloc: Global, lines: &str, out: &mut Out) {
    let mut stack = Stack::new(alloc);
    answer_lines(&mut stack, &STACK_CALLS, lines, out);
    let rest = stack.into_vec();
    out.list(&rest);
}

/// A call on flags.
#[derive(Clone, Copy)]
pub enum FlagCall {
    Set,
    IsSet,
    Len,
}

/// The verb of each call.
pub const FLAG_CALLS: [(&str, FlagCall); 3] = [
    ("set", FlagCall::Set),
    ("is_set", FlagCall::IsSet),
    ("len", FlagCall::Len),
];

impl CaseRunner<FlagCall> for Flags {
    /// Answers a call on flags.
    fn answer(&mut self, call: FlagCall, rest: &str, _out: &mut Out) -> CaseReply {
        let words = Words::of(rest);
        match call {
            FlagCall::Set => {
                self.set(words.number(0), words.flag(1));
                CaseReply::Nothing
            }
            FlagCall::IsSet => CaseReply::One(ReplyWord::Flag(self.is_set(words.number(0)))),
            FlagCall::Len => CaseReply::One(ReplyWord::Size(self.len())),
        }
    }
}
