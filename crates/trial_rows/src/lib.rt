//! What the rows of `row_trials` say: the lines of a row, its streams, the gate that its workers pass, and the
//! calls of libraries that it may ask for. Values that some rows are about: entries and ends of logs, and
//! machines that a reader has to give. It stands apart so that the check of `row_trials` takes less memory.
//! No program but `row_trials` uses it, whose rows are its tests.
//! Begin reading in `src/line.rt`, `src/row.rt`, `src/gate.rt`.
#![tactic(auto)]

mod entries;
mod fault;
mod gate;
mod library_call;
mod line;
mod machines;
mod plans;
mod row;
mod text;

pub use entries::{ENTRIES, EntryRow, LINK_ENTRIES, finished, lines_of, stuck, text_of_log};
pub use fault::RowsFault;
pub use gate::{Count, GatePlan, OPEN, RowGate};
pub use library_call::{CoreCall, LibraryCall, LogCall, MachineCall, QuietEnd};
pub use line::{Line, RowEnd, RowField, Telling, cut_line};
pub use machines::{are_changes, is_shared, is_whole};
pub use row::{Row, Streams};
pub use text::{adler32, last_line, lines, lines_with};
