//! The whole program but for its streams: what the words of the command line ask for is done by the crate of
//! that command.
//!
//! Promises: The status, the written bytes and the message are exactly those of the ending that the command
//! has for that input. If no stream faults, an input of the command's form ends as it should, or there was no
//! memory. By the clauses of `run_words`: `ended`, `complete`.
//!
//! `sleep_main` is `main` over this crate. The tests are those of `row_trials`: words, an input and streams,
//! each with the status and the two texts.
//!
//! Begin reading in `src/words.rt`; `specs/Endings.antt`, `proofs/Completing.antt`.
#![tactic(auto)]

mod words;

pub use words::run_words;
