//! What a library gives to a row that calls it.

use crate::alone::is_so;
use crate::first_burst::did_first;
use crate::formats::{called_laws, of_file, of_log};
use crate::seats::takes_calls;
use crate::sent::are_sent;
use sleep_base::{Mem, drop_for_mem};
use std::alloc::Global;
use std::sync::Wait;
use std::thread::Threads;
use trial_rows::{LibraryCall, Row};

/// The bytes of a text.
pub(crate) fn bytes_of(alloc: Global, text: &str) -> Result<Vec<u8>, Mem> {
    Ok(text.as_bytes().to_vec(alloc)?)
}

/// The answer to a question.
pub(crate) fn answer(alloc: Global, is_so: bool) -> Result<Vec<u8>, Mem> {
    bytes_of(alloc, if is_so { "yes\n" } else { "no\n" })
}

/// How many turns did something in the first burst of a file's machine.
fn told_burst<R: Threads + Wait + Sync>(
    rt: &R,
    alloc: Global,
    file: &[u8],
) -> Result<Vec<u8>, Mem> {
    let did = did_first(rt, alloc, file)?;
    Ok(format!(in alloc; "did {did}\n")?.into_bytes())
}

/// What the call gives.
fn text_of<R: Threads + Wait + Sync>(
    rt: &R,
    alloc: Global,
    row: &Row,
    call: LibraryCall,
) -> Result<Vec<u8>, Mem> {
    match call {
        LibraryCall::Laws => called_laws(alloc),
        LibraryCall::Machine(call) => of_file(alloc, &row.input, call),
        LibraryCall::Log(call) => of_log(alloc, &row.input, row.streams, call),
        LibraryCall::Core(call) => answer(alloc, is_so(rt, alloc, &row.input, call)),
        LibraryCall::Burst => told_burst(rt, alloc, &row.input),
        LibraryCall::Sent => answer(alloc, are_sent()),
        LibraryCall::Seat => answer(alloc, takes_calls(rt, alloc, false)),
        LibraryCall::FullSeat => answer(alloc, takes_calls(rt, alloc, true)),
    }
}

/// A text, after a line with the row's number and its length.
fn with_head(alloc: Global, number: usize, text: &[u8]) -> Result<Vec<u8>, Mem> {
    let size = text.len();
    let mut told = format!(in alloc; "call {number} out {size}\n")?.into_bytes();
    match told.extend_from_slice(text) {
        Ok(()) => Ok(told),
        Err(_) => Err(drop_for_mem(told)),
    }
}

/// What a row says that asks for that call.
pub(crate) fn told_call<R: Threads + Wait + Sync>(
    rt: &R,
    alloc: Global,
    row: Row,
    call: LibraryCall,
    number: usize,
) -> Result<Vec<u8>, Mem> {
    let text = text_of(rt, alloc, &row, call);
    drop(row);
    let text = text?;
    let told = with_head(alloc, number, &text);
    drop(text);
    told
}
