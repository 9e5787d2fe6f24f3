//! The lines of a row.

use crate::library_call::{CoreCall, LibraryCall, LogCall, MachineCall, QuietEnd};

/// What a line says of its row.
#[derive(Clone, Copy)]
pub enum RowField {
    Words,
    Repeat,
    Input,
    Chunk,
    WriteRoom,
    ReadFails,
    WriteFails,
    ErrorFails,
    Gate,
    /// The row is whole.
    End(Telling),
}

/// What the program does with a whole row, and what is told of it.
#[derive(Clone, Copy)]
pub enum Telling {
    /// It runs, and both texts are told.
    Whole,
    /// It runs. The length and the checksum of its output are told.
    Sums,
    /// It runs. The number of lines of its output and the last line are told.
    Lines,
    /// It runs. How many lines of its output end in `hard` is told, and how many in `wake`.
    Steps,
    /// It runs, and then `check` judges the log for that input. Both texts of `check` are told.
    Judged,
    /// It runs, and then `run` takes what it wrote. The number of lines of that log and the last line are told.
    Rerun,
    /// It reads the words only.
    Asks,
    /// It does not run. A library is called, and what that gives is told.
    Calls(LibraryCall),
}

/// A line: what it says, and its number.
#[derive(Clone, Copy)]
pub struct Line {
    pub verb: RowField,
    pub number: usize,
}

/// How a row ends: what is told of it, and its number.
#[derive(Clone, Copy)]
pub struct RowEnd {
    pub telling: Telling,
    pub number: usize,
}

/// The words before a line's number that say something of its row.
const FIELDS: [(&str, RowField); 9] = [
    ("words", RowField::Words),
    ("repeat", RowField::Repeat),
    ("input", RowField::Input),
    ("chunk", RowField::Chunk),
    ("write room", RowField::WriteRoom),
    ("read fails", RowField::ReadFails),
    ("write fails", RowField::WriteFails),
    ("error fails", RowField::ErrorFails),
    ("gate", RowField::Gate),
];

/// The words that end a row of which the program runs, or reads the words.
const TELLINGS: [(&str, Telling); 7] = [
    ("row", Telling::Whole),
    ("sums", Telling::Sums),
    ("lines", Telling::Lines),
    ("steps", Telling::Steps),
    ("judged", Telling::Judged),
    ("rerun", Telling::Rerun),
    ("asks", Telling::Asks),
];

/// The words that end a row with a machine file.
const MACHINE_CALLS: [(&str, MachineCall); 8] = [
    ("file", MachineCall::File),
    ("entries", MachineCall::Entries),
    ("link entries", MachineCall::LinkEntries),
    ("finished", MachineCall::Finished),
    ("stuck", MachineCall::Stuck),
    ("lists", MachineCall::Lists),
    ("changes", MachineCall::Changes),
    ("shared", MachineCall::Shared),
];

/// The words that end a row with a machine file and a log.
const LOG_CALLS: [(&str, LogCall); 3] = [
    ("text", LogCall::Text),
    ("stream", LogCall::Stream),
    ("chain", LogCall::Chain),
];

/// The words that end a row with a machine file, of which only one actor has turns.
const CORE_CALLS: [(&str, CoreCall); 9] = [
    ("quiet", CoreCall::Quiet),
    ("at table", CoreCall::AtTable),
    ("plain", CoreCall::Plain),
    ("guarded", CoreCall::Guarded),
    ("hard", CoreCall::Hard),
    ("asleep", CoreCall::Ends(QuietEnd::Asleep)),
    ("stopped", CoreCall::Ends(QuietEnd::Stopped)),
    ("one stopped", CoreCall::Ends(QuietEnd::OneStopped)),
    ("waits", CoreCall::Waits),
];

/// The words that end other rows with a call of a library.
const OTHER_CALLS: [(&str, LibraryCall); 5] = [
    ("laws", LibraryCall::Laws),
    ("burst", LibraryCall::Burst),
    ("sent", LibraryCall::Sent),
    ("seat", LibraryCall::Seat),
    ("full seat", LibraryCall::FullSeat),
];

/// What stands beside that name in a table.
fn named<T: Copy>(table: &[(&str, T)], name: &str) -> Option<T> {
    let row = table.iter().find(|row| row.0 == name)?;
    Some(row.1)
}

/// The call that the word which ends a row asks for.
fn call_of(name: &str) -> Option<LibraryCall> {
    if let Some(call) = named(&OTHER_CALLS, name) {
        return Some(call);
    }
    if let Some(call) = named(&MACHINE_CALLS, name) {
        return Some(LibraryCall::Machine(call));
    }
    match named(&LOG_CALLS, name) {
        Some(call) => Some(LibraryCall::Log(call)),
        None => Some(LibraryCall::Core(named(&CORE_CALLS, name)?)),
    }
}

/// What is told of a row by the word that ends it.
fn telling_of(name: &str) -> Option<Telling> {
    match named(&TELLINGS, name) {
        Some(telling) => Some(telling),
        None => Some(Telling::Calls(call_of(name)?)),
    }
}

/// What these words before a line's number say.
fn field_of(name: &str) -> Option<RowField> {
    match named(&FIELDS, name) {
        Some(field) => Some(field),
        None => Some(RowField::End(telling_of(name)?)),
    }
}

/// The line that this text is.
fn line_of(text: &str) -> Option<Line> {
    let (name, number) = text.rsplit_once(' ')?;
    let verb = field_of(name)?;
    let number = number.parse::<usize>().ok()?;
    Some(Line { verb, number })
}

/// The text of the first line, and the bytes after it. `None` if it has no newline or is no text.
pub(crate) fn cut_text(bytes: &[u8]) -> Option<(&str, &[u8])> {
    let end = bytes.iter().position(|byte| *byte == b'\n')?;
    let text = str::from_utf8(&bytes[..end]).ok()?;
    Some((text, &bytes[end + 1..]))
}

/// The first line, and the bytes after it.
pub fn cut_line(bytes: &[u8]) -> Option<(Line, &[u8])> {
    let (text, after) = cut_text(bytes)?;
    let line = line_of(text)?;
    Some((line, after))
}

/// That many bytes, and those after the newline that follows them.
pub(crate) fn cut_piece(bytes: &[u8], count: usize) -> Option<(&[u8], &[u8])> {
    if count > bytes.len() {
        return None;
    }
    let (piece, rest) = bytes.split_at(count);
    let (_, after) = rest.split_first()?;
    Some((piece, after))
}
