//! The command `locks`: lines that lock and unlock names, what each asks for, and the text of all answers.
//!
//! Its tests are in `part_cases`, and in `row_trials` those of the whole program.
//!
//! Promises: The text of the answers to lines that lock and unlock names is the one that is defined, for
//! every list of lines: each line is cut, read and carried out as its definition says, over the names of
//! `wake_locks`. The first line of no form is named before any is carried out. A full source is named exactly
//! if a call meets it first. After all lines each name is as its source's entries say: it is active exactly
//! if an event is in progress, and until when that ends. By the clauses of `answer_lines`: `text`, `refused`,
//! `agree`; `locks_of`: `text_answer`, `refused`, `agree`.
//!
//! Begin reading in `src/answer.rt`, `src/state.rt`; `specs/Steps.antt`, `specs/Verbs.antt`,
//! `specs/TextAnswers.antt`.
#![tactic(auto)]

mod answer;
mod command;
mod cut;
mod fault;
mod state;
mod text;
mod verb;

pub use answer::{MOST_BYTES, answer_lines};
pub use command::{locks_of, write_locks};
pub use fault::LinesFault;
pub use verb::LockVerb;
