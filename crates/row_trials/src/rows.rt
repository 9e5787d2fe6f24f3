//! The rows, one after another.

use crate::calls::told_call;
use crate::command::told_command;
use crate::outcome::Outcome;
use sleep_base::{ByteSink, Mem, drop_for_mem, write_all};
use std::alloc::Global;
use std::sync::Wait;
use std::thread::Threads;
use trial_rows::{Row, RowEnd, RowField, RowsFault, Telling, cut_line};

/// Takes the lines of one row. How it ends, and what is left then.
fn fill<'a>(row: &mut Row, alloc: Global, rows: &'a [u8]) -> Result<(RowEnd, &'a [u8]), RowsFault> {
    let mut left = rows;
    for _ in 0..rows.len() {
        let (line, after) = cut_line(left).ok_or(RowsFault::Form)?;
        if let RowField::End(telling) = line.verb {
            let number = line.number;
            return Ok((RowEnd { telling, number }, after));
        }
        left = row.take(alloc, line, after)?;
    }
    Err(RowsFault::Form)
}

/// What the program writes for a row, and its status.
fn told_outcome<R: Threads + Wait + Sync>(
    rt: &R,
    alloc: Global,
    row: Row,
    end: RowEnd,
) -> Result<Vec<u8>, Mem> {
    let outcome = Outcome::new(rt, alloc, row)?;
    let text = outcome.report(alloc, end);
    drop(outcome);
    text
}

/// What the words of a row ask for.
fn told_words(alloc: Global, row: Row, end: RowEnd) -> Result<Vec<u8>, Mem> {
    let text = told_command(alloc, &row.words, end.number);
    drop(row);
    text
}

/// That text, and after it what the program writes for a row.
fn with_output<R: Threads + Wait + Sync>(
    rt: &R,
    alloc: Global,
    row: Row,
    text: Vec<u8>,
) -> Result<Vec<u8>, Mem> {
    let mut text = text;
    let Ok(outcome) = Outcome::new(rt, alloc, row) else {
        return Err(drop_for_mem(text));
    };
    let added = text.extend_from_slice(outcome.out());
    drop(outcome);
    match added {
        Ok(()) => Ok(text),
        Err(_) => Err(drop_for_mem(text)),
    }
}

/// A line of these bytes.
fn line_of(alloc: Global, bytes: &[u8]) -> Result<Vec<u8>, Mem> {
    let mut line = bytes.to_vec(alloc)?;
    match line.push(b'\n') {
        Ok(()) => Ok(line),
        Err(_) => Err(drop_for_mem(line)),
    }
}

/// What `check` says of a row's input and the log that the program writes for it.
fn told_verdict<R: Threads + Wait + Sync>(
    rt: &R,
    alloc: Global,
    row: Row,
    end: RowEnd,
) -> Result<Vec<u8>, Mem> {
    let Ok(file) = line_of(alloc, &row.input) else {
        return Err(drop_for_mem(row));
    };
    let input = with_output(rt, alloc, row, file)?;
    let checked = Row::of(alloc, &["sleep", "check"], input)?;
    told_outcome(rt, alloc, checked, end)
}

/// What a run by one worker writes for the machine that the program writes for a row.
fn told_rerun<R: Threads + Wait + Sync>(
    rt: &R,
    alloc: Global,
    row: Row,
    end: RowEnd,
) -> Result<Vec<u8>, Mem> {
    let input = with_output(rt, alloc, row, Vec::new(alloc))?;
    let words = ["sleep", "run", "--workers", "1"];
    told_outcome(rt, alloc, Row::of(alloc, &words, input)?, end)
}

/// The report of a row.
fn report<R: Threads + Wait + Sync>(
    rt: &R,
    alloc: Global,
    row: Row,
    end: RowEnd,
) -> Result<Vec<u8>, Mem> {
    match end.telling {
        Telling::Asks => told_words(alloc, row, end),
        Telling::Judged => told_verdict(rt, alloc, row, end),
        Telling::Rerun => told_rerun(rt, alloc, row, end),
        Telling::Calls(call) => told_call(rt, alloc, row, call, end.number),
        _ => told_outcome(rt, alloc, row, end),
    }
}

/// Runs the first row, and writes its report. What is left after it.
fn run_row<'a, R: Threads + Wait + Sync, K: ByteSink>(
    rt: &R,
    alloc: Global,
    rows: &'a [u8],
    out: &mut K,
) -> Result<&'a [u8], RowsFault> {
    let mut row = Row::new(alloc);
    let (end, after) = match fill(&mut row, alloc, rows) {
        Ok(filled) => filled,
        Err(fault) => {
            drop(row);
            return Err(fault);
        }
    };
    let text = report(rt, alloc, row, end)?;
    write_all(out, &text)?;
    Ok(after)
}

/// Runs each row, and writes its report.
pub(crate) fn run_rows<R: Threads + Wait + Sync, K: ByteSink>(
    rt: &R,
    alloc: Global,
    rows: &[u8],
    out: &mut K,
) -> Result<(), RowsFault> {
    let mut left = rows;
    for _ in 0..rows.len() {
        if left.is_empty() {
            break;
        }
        left = run_row(rt, alloc, left, out)?;
    }
    Ok(())
}
