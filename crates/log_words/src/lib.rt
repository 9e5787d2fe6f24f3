//! The words of a sleep log and the pieces of its lines: verbs, fixed words, numbers in decimal, the front of a
//! line, and the buffer that they are put into. Its tests are rows of `row_trials`.
//!
//! Promises: Each piece puts just its spelling after the bytes of the buffer, and takes no memory. A verb is
//! found by its word alone. The front of a line is the text of its moment and its word. The words round a
//! device's name are those of its entry. By the clauses of `ByteBuffer`, `Spelled::put_on`; `Verb::word`,
//! `Verb::of_bytes`; `LineFront::text`; `device_words`.
//!
//! Begin reading in `specs/Verbs.antt`, `specs/Front.antt`.
#![tactic(auto)]

mod buffer;
mod device;
mod digits;
mod fixed;
mod front;
mod number_text;
mod piece;
mod short;
mod spelled;
mod verb;
mod words;

pub use buffer::ByteBuffer;
pub use device::{DeviceWords, device_words};
pub use digits::put_decimal;
pub use fixed::{
    ALARM, ALL, AUTO, BUSY, CHECK, DEVICE, DONE, EVENT, FINISHED, GUARDED, HARD, NO_ERROR, OFF, OK,
    ON, PLAIN, POST, PREPARE, RESUME, SET, SOFT, SUSPEND, TIME, TIMEOUT, TIMER, UNSAVED, WAIT,
    WAKEUP,
};
pub use front::LineFront;
pub use piece::Piece;
pub use short::ShortText;
pub use spelled::Spelled;
pub use verb::Verb;
pub use words::script_word;
